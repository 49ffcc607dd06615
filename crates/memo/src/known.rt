// The place of a token's family by what was looked up before: nothing is searched, so that no table is asked for, and nothing is kept.
#![tactic(auto, using(crate::proofs::PlaceRules::places, crate::proofs::Memos::memos))]

ghost use Rattle.std.specs.Prelude.{◌≡◌, IfSome, get_or};
ghost use Rattle.definitions.specs.Model.{no_token};
ghost use Rattle.definitions.specs.Family.{family, fam_of};
ghost use Rattle.definitions.specs.Recover.{defined_families};
ghost use Rattle.model.specs.Listings.{listing_of, tokens_of};
ghost use Rattle.memo.specs.Found.{found};
ghost use Rattle.memo.specs.Memo.{Memo};

use crate::slots::{Slot, pack, slot_of};
use model::kind::Kind;
use model::listing::Listing;

// What was found of the text s, none where it was not looked up.
fn known_text(code: &Listing, slots: &[Slot; 64], s: &[u8]) -> Option<Option<usize>>
    requires { Memo (defined_families (listing_of code.now)) slots.now }
    ensures { IfSome result (λ place. place ≡ found (defined_families (listing_of code.now)) (family s.now)) }
{
    if 7 < s.len() {
        return None;
    }
    let text = pack(s);
    let slot = slots[slot_of(text)];
    if slot.text == text {
        Some(slot.place)
    } else {
        None
    }
}

// What was found of token k of all, none where it is a register that was not looked up.
pub fn known_place(code: &Listing, slots: &[Slot; 64], k: usize) -> Option<Option<usize>>
    requires { Memo (defined_families (listing_of code.now)) slots.now }
    ensures { let u = get_or (tokens_of code.now) k no_token in
        IfSome result (λ place. place ≡ found (defined_families (listing_of code.now)) (fam_of u)) }
{
    if code.token_is(k, Kind::Register) {
        known_text(code, slots, code.token_text(k))
    } else {
        Some(None)
    }
}
