// The family that a line defines: an assignment of width 32 or more whose right side lacks the family, and which is no `var_`. Each register
// token of the right side is looked up once.
//
// Contracts cite `defines` of Rattle.definitions.specs.Statements; `defined` of this crate's specs/ says which family an answer is.

#![tactic(auto, using(crate::proofs::Defining::defining, text::proofs::Bools::bools))]

ghost use Rattle.std.specs.Prelude.{◌≡◌};
ghost use Rattle.definitions.specs.Lists.{any};
ghost use Rattle.definitions.specs.Model.{line};
ghost use Rattle.definitions.specs.Statements.{defines};
ghost use Rattle.model.specs.Listings.{listing_of};
ghost use Rattle.family.specs.Register.{family_of, names_family};
ghost use Rattle.assignment.specs.Assignments.{expr_token, side};
ghost use Rattle.assignment.specs.Definitions.{may_define, defined};

use crate::{assignment, expr_text};
use family::Register;
use model::kind::Kind;
use model::listing::Listing;
use pseudo_opt::registers::register_at;

// Token k of the right side of line i names the family that the answer r of the text s is.
fn expr_names(code: &Listing, i: usize, k: usize, s: &[u8], r: Option<Register>) -> bool
    ensures { let l = line (listing_of code.now) i in
        result ≡ names_family (family_of s.now r) (expr_token l k) }
{
    code.is(i, k, Kind::Register)
        && family::names(Kind::Register.number(), expr_text(code, i, k), s, r)
}

// A token of the right side of line i, from place a up to place e, names it.
pub fn side_names(
    code: &Listing,
    i: usize,
    a: usize,
    e: usize,
    s: &[u8],
    r: Option<Register>,
) -> bool
    ensures { let l = line (listing_of code.now) i in
        result ≡ any (names_family (family_of s.now r)) (side l a e) }
{
    for k in a..e {
        if expr_names(code, i, k, s, r) {
            return true;
        }
    }
    false
}

// An assignment to the register defines its family, if the right side lacks it.
fn may_define(s: &[u8], r: Option<Register>) -> bool
    ensures { result ≡ may_define (family_of s.now r) }
{
    family::is_wide(s, r) && !family::is_var(s, r)
}

// The family that line i defines. Of a line that does not start with a register only the kind of its first token is read.
pub fn defines(code: &Listing, i: usize) -> Option<Register>
    ensures { let l = line (listing_of code.now) i in
        defined l result ≡ defines l }
{
    if !code.is(i, 0, Kind::Register) {
        return None;
    }
    let side = assignment(code, i)?;
    let r = register_at(code, i, 0);
    let s = code.text_at(i, 0);
    if may_define(s, r) && !side_names(code, i, side.from, side.to, s, r) {
        r
    } else {
        None
    }
}
