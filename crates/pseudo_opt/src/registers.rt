// Registers of a line's tokens. A family is given by a `Register` of crate `family` and the text that it was looked up of. A look-up takes
// constant time and time linear in the token; `line_names` looks up each register token of the line once.
//
// Contracts cite `fam_of` of Rattle.definitions.specs.Family; `family_of` and `names_family` of Rattle.family.specs.Register say which family an
// answer is and whether a token names it.

#![tactic(auto, using(crate::proofs::Named::families, text::proofs::Loops::loops))]

ghost use Rattle.std.specs.Prelude.{◌≡◌};
ghost use Rattle.definitions.specs.Lists.{any};
ghost use Rattle.definitions.specs.Model.{token, line};
ghost use Rattle.definitions.specs.Family.{fam_of};
ghost use Rattle.model.specs.Listings.{listing_of};
ghost use Rattle.family.specs.Register.{family_of, names_family};

use family::Register;
use model::listing::Listing;

// The family of token j of line i.
pub fn register_at(code: &Listing, i: usize, j: usize) -> Option<Register>
    ensures { let l = line (listing_of code.now) i in
        family_of (token l j).text result ≡ fam_of (token l j) }
{
    family::fam_of(code.kind(i, j), code.text_at(i, j))
}

// Token j of line i names the family that the answer r of the text s is.
pub fn token_names(code: &Listing, i: usize, j: usize, s: &[u8], r: Option<Register>) -> bool
    ensures { let l = line (listing_of code.now) i in
        result ≡ names_family (family_of s.now r) (token l j) }
{
    family::names(code.kind(i, j), code.text_at(i, j), s, r)
}

// A token of line i names it.
pub fn line_names(code: &Listing, i: usize, s: &[u8], r: Option<Register>) -> bool
    ensures { let l = line (listing_of code.now) i in
        result ≡ any (names_family (family_of s.now r)) l.tokens }
{
    let n = code.token_count(i);
    for j in 0..n {
        if token_names(code, i, j, s, r) {
            return true;
        }
    }
    false
}
