// The goto target of the line of a word. A header can hold a goto too, where its initialiser, its test or its step does.

#![tactic(auto, using(crate::proofs::HeaderRules::targeting))]

ghost use Rattle.std.specs.Prelude.{◌≡◌, true, ◌<◌};
ghost use Rattle.definitions.specs.Lists.{or_else};
ghost use Rattle.definitions.specs.Questions.{question_2};
ghost use Rattle.definitions.specs.Statements.{goto_target};
ghost use Rattle.definitions.specs.ToFor.{popped};
ghost use Rattle.definitions.specs.RecoverGotoLoops.{leading_test, one};
ghost use Rattle.model.specs.Listings.{listing_of};
ghost use Rattle.plan.specs.Plan.{header_at, line_of};
ghost use Rattle.plan.specs.Changes.{is_goto};
ghost use Rattle.pieces.specs.Pieces.{piece};
ghost use Rattle.gotos.specs.Body.{name_of};
ghost use Rattle.goto_targets.specs.Seek.{seek, target, told};
ghost use Rattle.goto_targets.specs.Conditions.{over};

use crate::seeking::{State, seek_line, seek_test, seek_tokens};
use model::listing::Listing;
use pieces::leading::leading_test;
use pieces::piece::{Piece, source};
use pieces::reading::{cut_place, goto_symbol};
use plan::{header, initialiser, is_line, piece, step, test};

// The piece p without its last code point.
fn seek_popped<'a>(code: &Listing<'_, 'a>, p: usize, s: State<'a>) -> State<'a>
    ensures { let C = listing_of code.now in
        told result ≡ seek (told s.entry) (popped (piece C p).tokens) }
{
    match Piece::of(p) {
        Piece::Kept(i) => seek_line(code, i, s),
        Piece::Continued(i) | Piece::Broken(i) => seek_tokens(code, i, cut_place(code, i), s),
        Piece::Closed(_) => s,
    }
}

// The condition that the leading test of the piece p gives a header, or 1 where it is none.
fn seek_condition<'a>(code: &Listing<'_, 'a>, p: usize, s: State<'a>) -> State<'a>
    requires { question_2 code.now.lines.now code.now.tokens.now code.now.text.now ≡ true }
    ensures { let C = listing_of code.now in
        told result ≡ seek (told s.entry) (or_else (leading_test (piece C p) 0) one) }
{
    match leading_test(code, p) {
        Some(g) => seek_test(code, source(p), g, s),
        None => s,
    }
}

// The condition of a header of kind h: the leading test of the piece t, or 1. Asked of the number: `over` tells 4 from 5, and `Header` does not.
fn seek_over<'a>(code: &Listing<'_, 'a>, h: usize, t: usize, s: State<'a>) -> State<'a>
    requires { question_2 code.now.lines.now code.now.tokens.now code.now.text.now ≡ true }
    ensures { let C = listing_of code.now in
        told result ≡ seek (told s.entry) (over C h t) }
{
    if h % 2 == 1 {
        seek_condition(code, t, s)
    } else {
        s
    }
}

// The target of the line of w, which is a header.
fn header_target<'a>(code: &Listing<'_, 'a>, w: usize) -> Option<&'a [u8]>
    requires { (question_2 code.now.lines.now code.now.tokens.now code.now.text.now ≡ true) × (is_goto w ≡ true) × (header_at w ≡ 0 → ⊥) }
    ensures { let C = listing_of code.now in
        name_of result ≡ goto_target (line_of C w) }
{
    let h = header(w);
    if h < 4 {
        return seek_over(code, h, test(w), State::Looking).target();
    }
    let a = seek_popped(code, initialiser(w), State::Looking);
    let c = seek_over(code, h, test(w), a);
    seek_popped(code, step(w), c).target()
}

// The target of the piece p.
fn piece_target<'a>(code: &Listing<'_, 'a>, p: usize) -> Option<&'a [u8]>
    ensures { let C = listing_of code.now in
        name_of result ≡ goto_target (piece C p) }
{
    let j = goto_symbol(code, p)?;
    Some(code.text_at(source(p), j))
}

// The target of the line of w.
pub fn word_target<'a>(code: &Listing<'_, 'a>, w: usize) -> Option<&'a [u8]>
    requires { (question_2 code.now.lines.now code.now.tokens.now code.now.text.now ≡ true) × (is_goto w ≡ true) }
    ensures { let C = listing_of code.now in
        name_of result ≡ goto_target (line_of C w) }
{
    if is_line(w) {
        piece_target(code, piece(w))
    } else {
        header_target(code, w)
    }
}
