// The lines that have a goto to one of the labels of a loop.

#![tactic(auto, using(crate::proofs::MarkRules::entering))]

ghost use Rattle.std.specs.Prelude.{◌≡◌, true};
ghost use Rattle.definitions.specs.Lists.{any, all};
ghost use Rattle.definitions.specs.Questions.{question_2};
ghost use Rattle.model.specs.Listings.{listing_of};
ghost use Rattle.plan.specs.Changes.{is_goto};
ghost use Rattle.enters.specs.Inside.{names, goes_inside};
ghost use Rattle.enters.specs.Marks.{Marked};

use crate::marks::{own_mark, silent};
use goto_targets::headers::word_target;
use model::listing::Listing;
use words::wide;

// s is the first token of line i.
fn names(code: &Listing, i: u16, s: &[u8]) -> bool
    ensures { result ≡ names (listing_of code.now) s.now i }
{
    text::equal(code.text_at(wide(i), 0), s)
}

// s is the name of one of the labels.
fn any_names(code: &Listing, labels: &[u16], s: &[u8]) -> bool
    ensures { let C = listing_of code.now in
        result ≡ any (names C s.now) labels.now }
{
    for &i in labels {
        if names(code, i, s) {
            return true;
        }
    }
    false
}

// The line of w has a goto to one of the labels, by its tokens.
fn goes_to(code: &Listing, labels: &[u16], w: usize) -> bool
    requires { (question_2 code.now.lines.now code.now.tokens.now code.now.text.now ≡ true) × (is_goto w ≡ true) }
    ensures { let C = listing_of code.now in
        result ≡ goes_inside C labels.now w }
{
    match word_target(code, w) {
        Some(s) => any_names(code, labels, s),
        None => false,
    }
}

// The line of w has a goto to one of the labels. Where its mark says which symbol the goto leads to, its tokens are not read.
fn goes_inside(code: &Listing, labels: &[u16], w: usize, marks: &[u16]) -> bool
    requires text_value { (question_2 code.now.lines.now code.now.tokens.now code.now.text.now ≡ true) × (is_goto w ≡ true) }
    requires marked { Marked code.now.lines.now code.now.tokens.now code.now.text.now marks.now }
    ensures { let C = listing_of code.now in
        result ≡ goes_inside C labels.now w }
{
    let m = own_mark(code.lines, w, marks);
    if 2 < m {
        any_names(code, labels, code.text_at(plan::source(w), m - 3))
    } else {
        goes_to(code, labels, w)
    }
}

// So has the line of one of the words. Those that can have no goto are passed over.
pub fn any_goes_inside(code: &Listing, labels: &[u16], words: &[usize], marks: &[u16]) -> bool
    requires text_value { (question_2 code.now.lines.now code.now.tokens.now code.now.text.now ≡ true) × (all is_goto words.now ≡ true) }
    requires marked { Marked code.now.lines.now code.now.tokens.now code.now.text.now marks.now }
    ensures { let C = listing_of code.now in
        result ≡ any (goes_inside C labels.now) words.now }
{
    for &w in words {
        if !silent(marks, w) && goes_inside(code, labels, w, marks) {
            return true;
        }
    }
    false
}
