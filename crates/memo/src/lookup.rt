// The place of each token's family, looked up.
#![tactic(auto, using(crate::proofs::PlaceRules::places, crate::proofs::Memos::memos))]

ghost use Rattle.std.specs.Prelude.{◌≡◌, ◌≤◌, length, get_or};
ghost use Rattle.definitions.specs.Model.{no_token};
ghost use Rattle.definitions.specs.Family.{family, fam_of};
ghost use Rattle.definitions.specs.Recover.{defined_families};
ghost use Rattle.model.specs.Listings.{listing_of, tokens_of};
ghost use Rattle.family.specs.Register.{family_of};
ghost use Rattle.families.specs.Tokens.{Finds};
ghost use Rattle.memo.specs.Found.{found};
ghost use Rattle.memo.specs.Memo.{Memo};

use crate::slots::{Slot, pack, slot_of};
use families::is_some;
use families::lookup::Families;
use family::Register;
use model::kind::Kind;
use model::listing::Listing;

// A listing, the table of its `count` families, and what was looked up of them.
#[derive(Drop)]
pub struct Lookup<'c, 'a, 'b> {
    pub code: Listing<'c, 'a>,
    pub count: usize,
    pub table: &'b [u16],
    pub slots: [Slot; 64],
    pub ghost finds: { Finds (listing_of code) count table.now },
    pub ghost keeps: { Memo (defined_families (listing_of code)) slots },
}

impl<'c, 'a, 'b> Lookup<'c, 'a, 'b> {
    // Nothing was looked up yet.
    pub fn new(code: &Listing<'c, 'a>, table: &'b [u16], count: usize) -> Lookup<'c, 'a, 'b>
        requires { Finds (listing_of code.now) count table.now }
        ensures { (result.code ≡ code.now) × (result.count ≡ count) }
    {
        let empty = Slot {
            text: 0,
            place: None,
        };
        Lookup {
            code: *code,
            count,
            table,
            slots: [empty; 64],
        }
    }

    // The place of the family that the answer r of the register s is, from 1 on, 0 for one without a definition.
    fn search_place(&self, s: &[u8], r: Option<Register>) -> Option<usize>
        requires { family_of s.now r ≡ family s.now }
        ensures { result ≡ found (defined_families (listing_of self.now.code)) (family s.now) }
    {
        if is_some(r) {
            let families = Families {
                code: &self.code,
                table: self.table,
                count: self.count,
            };
            Some(families.search(s, r))
        } else {
            None
        }
    }

    // The same of the register s.
    #[inline(never)]
    fn register_place(&self, s: &[u8]) -> Option<usize>
        ensures { result ≡ found (defined_families (listing_of self.now.code)) (family s.now) }
    {
        self.search_place(s, family::family(s))
    }

    // The same of a text of at most 7 bytes.
    fn short_place(&mut self, s: &[u8]) -> Option<usize>
        requires { length s.now ≤ 7 }
        ensures value { result ≡ found (defined_families (listing_of self.old.code)) (family s.now) }
        ensures kept { (self.new.code ≡ self.old.code) × (self.new.count ≡ self.old.count) × (self.new.table ≡ self.old.table) }
    {
        let text = pack(s);
        let h = slot_of(text);
        let slot = self.slots[h];
        if slot.text == text {
            return slot.place;
        }
        let place = self.register_place(s);
        self.slots[h] = Slot { text, place };
        place
    }

    // The same of any text.
    fn text_place(&mut self, s: &[u8]) -> Option<usize>
        ensures value { result ≡ found (defined_families (listing_of self.old.code)) (family s.now) }
        ensures kept { (self.new.code ≡ self.old.code) × (self.new.count ≡ self.old.count) × (self.new.table ≡ self.old.table) }
    {
        if s.len() <= 7 {
            self.short_place(s)
        } else {
            self.register_place(s)
        }
    }

    // The same of token k of all, none where it is no register.
    pub fn token_place(&mut self, k: usize) -> Option<usize>
        ensures value { let u = get_or (tokens_of self.old.code) k no_token in
            result ≡ found (defined_families (listing_of self.old.code)) (fam_of u) }
        ensures kept { (self.new.code ≡ self.old.code) × (self.new.count ≡ self.old.count) × (self.new.table ≡ self.old.table) }
    {
        let code = self.code;
        if code.token_is(k, Kind::Register) {
            self.text_place(code.token_text(k))
        } else {
            None
        }
    }
}
