// Initialisers of a `for`, and the lines that may stand between one and the header. Each token of a line is looked at at most twice.
//
// Contracts cite `inits` and `passes` of Rattle.plan.specs.ForLoop for the family that the answer r of the text s is.
#![tactic(auto, using(crate::proofs::InitialRules::initial))]

ghost use Rattle.std.specs.Prelude.{◌≡◌};
ghost use Rattle.definitions.specs.Lists.{any};
ghost use Rattle.definitions.specs.Model.{line};
ghost use Rattle.model.specs.Listings.{listing_of};
ghost use Rattle.family.specs.Register.{family_of, names_family};
ghost use Rattle.plan.specs.ForLoop.{inits, passes};
ghost use Rattle.pieces.specs.Pieces.{piece};
ghost use Rattle.pieces.specs.Initial.{cut_from, cut_assigns, cut_calls, cut_inits, cut_passes};

use crate::piece::Piece;
use crate::reading::{comes_before, cut_place};
use assignment::assignment;
use assignment::definition::side_names;
use family::Register;
use model::kind::Kind;
use model::listing::Listing;
use pseudo_opt::calls::call_at;
use pseudo_opt::registers::{line_names, token_names};

// Line i assigns the family, and its right side does not name it.
fn line_inits(code: &Listing, i: usize, s: &[u8], r: Option<Register>) -> bool
    ensures { let C = listing_of code.now in
        result ≡ inits (names_family (family_of s.now r)) (line C i) }
{
    let Some(side) = assignment(code, i) else {
        return false;
    };
    token_names(code, i, 0, s, r) && !side_names(code, i, side.from, side.to, s, r)
}

// Line i assigns another family, does not name this one, and does not call.
fn line_passes(code: &Listing, i: usize, s: &[u8], r: Option<Register>) -> bool
    ensures { let C = listing_of code.now in
        result ≡ passes (names_family (family_of s.now r)) (line C i) }
{
    assignment(code, i).is_some()
        && !token_names(code, i, 0, s, r)
        && !line_names(code, i, s, r)
        && call_at(code, i).is_none()
}

// A token of line i from place a on, and before its first goto, names the family.
fn cut_names(code: &Listing, i: usize, a: usize, s: &[u8], r: Option<Register>) -> bool
    ensures { let l = line (listing_of code.now) i in
        result ≡ any (names_family (family_of s.now r)) (cut_from l a) }
{
    let n = cut_place(code, i);
    for j in a..n {
        if token_names(code, i, j, s, r) {
            return true;
        }
    }
    false
}

// Line i starts as an assignment does, before its first goto.
#[tactic(auto, using(crate::proofs::InitialRules::cut_lines))]
fn cut_assigns(code: &Listing, i: usize) -> bool
    ensures { result ≡ cut_assigns (line (listing_of code.now) i) }
{
    2 <= cut_place(code, i)
        && code.is(i, 0, Kind::Register)
        && code.is(i, 1, Kind::Punct)
        && text::starts_with(code.text_at(i, 1), b" = ")
}

// Line i, cut at its first goto, calls.
fn cut_calls(code: &Listing, i: usize) -> bool
    ensures { result ≡ cut_calls (line (listing_of code.now) i) }
{
    let n = cut_place(code, i);
    n != 0
        && (comes_before(call_at(code, i), n - 1)
            || code.is(i, n - 1, Kind::Keyword)
                && text::starts_with(code.text_at(i, n - 1), b"((void"))
}

// Line i, cut at its first goto, assigns the family, and its right side does not name it.
fn cut_inits(code: &Listing, i: usize, s: &[u8], r: Option<Register>) -> bool
    ensures { let l = line (listing_of code.now) i in
        result ≡ cut_inits (names_family (family_of s.now r)) l }
{
    cut_assigns(code, i) && token_names(code, i, 0, s, r) && !cut_names(code, i, 2, s, r)
}

// Line i, cut at its first goto, assigns another family, does not name this one, and does not call.
fn cut_passes(code: &Listing, i: usize, s: &[u8], r: Option<Register>) -> bool
    ensures { let l = line (listing_of code.now) i in
        result ≡ cut_passes (names_family (family_of s.now r)) l }
{
    cut_assigns(code, i) && !cut_names(code, i, 0, s, r) && !cut_calls(code, i)
}

// The piece p is an initialiser.
pub fn inits(code: &Listing, p: usize, s: &[u8], r: Option<Register>) -> bool
    ensures { let C = listing_of code.now in
        result ≡ inits (names_family (family_of s.now r)) (piece C p) }
{
    match Piece::of(p) {
        Piece::Kept(i) => line_inits(code, i, s, r),
        Piece::Continued(i) | Piece::Broken(i) => cut_inits(code, i, s, r),
        Piece::Closed(_) => false,
    }
}

// The piece p may stand between the initialiser and the header.
pub fn passes(code: &Listing, p: usize, s: &[u8], r: Option<Register>) -> bool
    ensures { let C = listing_of code.now in
        result ≡ passes (names_family (family_of s.now r)) (piece C p) }
{
    match Piece::of(p) {
        Piece::Kept(i) => line_passes(code, i, s, r),
        Piece::Continued(i) | Piece::Broken(i) => cut_passes(code, i, s, r),
        Piece::Closed(_) => false,
    }
}
