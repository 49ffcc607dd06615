// The initialiser of a `for`: the search among the lines before the header. A family is given by a `Register` and the text that it was looked up of.

#![tactic(auto, using(crate::proofs::WordRules::initials))]

ghost use Rattle.std.specs.Prelude.{◌≡◌, ◌&&◌, ◌≤◌, length};
ghost use Rattle.family.specs.Register.{family_of, names_family};
ghost use Rattle.plan.specs.ForLoop.{inits, passes};
ghost use Rattle.loops.specs.Words.{at_indent};
ghost use Rattle.goto_for.specs.Words.{word_line, init_words};
ghost use Rattle.model.specs.Listings.{listing_of};

use family::Register;
use model::listing::Listing;
use pieces::initial::{inits, passes};
use plan::{indent, is_line, piece};

// The line of w stands at indent `ind` and is no header.
fn at_indent(w: usize, ind: usize) -> bool
    ensures { result ≡ at_indent ind w }
{
    indent(w) == ind && is_line(w)
}

// The line of w, at indent `ind`, is an initialiser.
fn inits_at(code: &Listing, w: usize, ind: usize, s: &[u8], r: Option<Register>) -> bool
    ensures { let C = listing_of code.now in
        result ≡ (at_indent ind w && inits (names_family (family_of s.now r)) (word_line C w)) }
{
    at_indent(w, ind) && inits(code, piece(w), s, r)
}

// It may stand between the initialiser and the header.
fn passes_at(code: &Listing, w: usize, ind: usize, s: &[u8], r: Option<Register>) -> bool
    ensures { let C = listing_of code.now in
        result ≡ (at_indent ind w && passes (names_family (family_of s.now r)) (word_line C w)) }
{
    at_indent(w, ind) && passes(code, piece(w), s, r)
}

// The place of the initialiser among the 4 lines before place w.
pub fn initialiser(
    code: &Listing,
    plan: &[usize],
    w: usize,
    ind: usize,
    s: &[u8],
    r: Option<Register>,
) -> Option<usize>
    requires { w ≤ length plan.now }
    ensures { let C = listing_of code.now in
        result ≡ init_words C (names_family (family_of s.now r)) plan.now ind 4 w }
{
    for k in (w.saturating_sub(4)..w).rev() {
        let v = plan[k];
        if inits_at(code, v, ind, s, r) {
            return Some(k);
        }
        if !passes_at(code, v, ind, s, r) {
            return None;
        }
    }
    None
}
