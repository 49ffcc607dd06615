// A register looked up among all families of a listing.
ghost use Rattle.std.specs.Prelude.{◌≡◌, take};
ghost use Rattle.definitions.specs.Family.{family};
ghost use Rattle.definitions.specs.Recover.{defined_families};
ghost use Rattle.model.specs.Listings.{listing_of};
ghost use Rattle.family.specs.Register.{family_of};
ghost use Rattle.families.specs.Families.{place_of};
ghost use Rattle.families.specs.Tokens.{Finds};

use crate::search;
use family::Register;
use model::listing::Listing;

// The families of a listing that have a definition: the table that finds each, and how many there are.
#[derive(Clone, Copy)]
pub struct Families<'a> {
    pub code: &'a Listing<'a, 'a>,
    pub table: &'a [u16],
    pub count: usize,
    pub ghost finds: { Finds (listing_of code.now) count table.now },
}

impl Families<'_> {
    // 1 + the place among the families of the one that the answer r of the register s is, 0 where it is none of them.
    pub fn search(&self, s: &[u8], r: Option<Register>) -> usize
        requires { family_of s.now r ≡ family s.now }
        ensures { result ≡ place_of (take self.now.count (defined_families (listing_of self.now.code.now))) (family_of s.now r) }
    {
        search(self.code, self.table, self.count, s, r)
    }
}
