// What the passes over one family's tokens take: the listing, its families and their chains.
//
// The words of the tokens are not in it: a pass writes over those of its family.
ghost use Rattle.std.specs.Prelude.{◌≡◌, ◌<◌};
ghost use Rattle.definitions.specs.Recover.{address_taken};
ghost use Rattle.model.specs.Listings.{listing_of};
ghost use Rattle.families.specs.Tokens.{family_name};
ghost use Rattle.chains.specs.Chains.{Chain};
ghost use Rattle.walks.specs.Known.{Known};

use crate::reads::address_taken;
use model::listing::Listing;

// `first` has the first token of each family, `defs` the family that each line defines. Nothing is known of them: a function that takes them
// says what it needs.
#[derive(Clone, Copy)]
pub struct Columns<'a> {
    pub code: &'a Listing<'a, 'a>,
    pub first: &'a [u16],
    pub defs: &'a [u16],
}

// A listing whose families are numbered and whose tokens are chained: `table` finds the `count` families, the rest is as in `Columns`.
#[derive(Clone, Copy)]
pub struct Chained<'a> {
    pub code: &'a Listing<'a, 'a>,
    pub table: &'a [u16],
    pub count: usize,
    pub first: &'a [u16],
    pub defs: &'a [u16],
    pub ghost known: { Known code.now.lines.now code.now.tokens.now code.now.text.now table.now first.now defs.now count },
}

impl<'a> Chained<'a> {
    // The columns, without what is known of them.
    pub fn columns(&self) -> Columns<'a>
        ensures { result ≡ record { code = self.now.code; first = self.now.first; defs = self.now.defs } }
    {
        Columns {
            code: self.code,
            first: self.first,
            defs: self.defs,
        }
    }

    // The address of family k is taken: never that of rsp.
    pub fn address_taken(&self, numbers: &[u32], k: usize) -> bool
        requires { let code = self.now.code.now in
            (k < self.now.count) × Chain code.lines.now code.tokens.now code.text.now k numbers.now self.now.first.now }
        ensures { let L = listing_of self.now.code.now in result ≡ address_taken L (family_name L k) }
    {
        address_taken(self.code, self.table, numbers, self.first, self.count, k)
    }
}
