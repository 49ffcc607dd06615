// The leading test `if (..) break;` of a piece. The answer is the place of `break`, before which the condition ends; nothing is copied.
//
// Contracts cite `leading_test` of Rattle.definitions.specs.RecoverGotoLoops; `leading` of specs/Leading.antt says which condition an answer is.
#![tactic(auto, using(crate::proofs::LeadingTests::leading_rules))]

ghost use Rattle.std.specs.Prelude.{if◌then◌else◌, ◌≡◌, true, eqb};
ghost use Rattle.definitions.specs.Model.{line};
ghost use Rattle.definitions.specs.Questions.{question_2};
ghost use Rattle.definitions.specs.RecoverGotoLoops.{leading_test};
ghost use Rattle.model.specs.Listings.{listing_of};
ghost use Rattle.pieces.specs.Pieces.{piece, origin};
ghost use Rattle.pieces.specs.Leading.{test_at, leading, kept_test, broken_test};

use crate::back::text_before;
use crate::piece::Piece;
use crate::reading::cut_place;
use model::listing::Listing;
use pseudo_opt::keywords::{is_kw, keyword_at};
use pseudo_types::texts::text_from;

// The place g where the tokens of line i before it are `if`, ` (..`, `..) `.
fn closed_test(code: &Listing, i: usize, g: usize) -> Option<usize>
    ensures { let l = line (listing_of code.now) i in
        leading l result ≡ test_at l.tokens g }
{
    let m = negate::test::test_count(code, i, g);
    if m == 0 || !text::starts_with(code.text_at(i, 1), b" (") {
        return None;
    }
    let s = code.text_at(i, m);
    if text::ends_with(text::part(s, front(m), s.len()), b") ") {
        Some(g)
    } else {
        None
    }
}

// How many bytes the last of m tokens loses at the front.
fn front(m: usize) -> usize
    ensures { result ≡ (if eqb m 1 then 2 else 0) }
{
    if m == 1 { 2 } else { 0 }
}

// The leading test of line i as it is.
fn kept_test(code: &Listing, i: usize) -> Option<usize>
    requires { question_2 code.now.lines.now code.now.tokens.now code.now.text.now ≡ true }
    ensures { let l = line (listing_of code.now) i in
        leading l result ≡ kept_test l }
{
    if is_kw(code, i, 0, b"if") && text::ends_with(text_from(code, i, 0), b") break;") {
        let g = keyword_at(code, i, b"break")?;
        return closed_test(code, i, g);
    }
    None
}

// The leading test of line i cut at its first goto, with `break;` behind.
fn broken_test(code: &Listing, i: usize) -> Option<usize>
    requires { question_2 code.now.lines.now code.now.tokens.now code.now.text.now ≡ true }
    ensures { let l = line (listing_of code.now) i in
        leading l result ≡ broken_test l }
{
    let n = cut_place(code, i);
    if n != 0 && is_kw(code, i, 0, b"if") && text::ends_with(text_before(code, i, n), b") ") {
        let g = keyword_at(code, i, b"break").unwrap_or(n).min(n);
        return closed_test(code, i, g);
    }
    None
}

// The leading test of the piece p.
pub fn leading_test(code: &Listing, p: usize) -> Option<usize>
    requires { question_2 code.now.lines.now code.now.tokens.now code.now.text.now ≡ true }
    ensures { let C = listing_of code.now in
        leading (origin C p) result ≡ leading_test (piece C p) 0 }
{
    match Piece::of(p) {
        Piece::Kept(i) => kept_test(code, i),
        Piece::Broken(i) => broken_test(code, i),
        Piece::Continued(_) | Piece::Closed(_) => None,
    }
}
