// The end of a loop's body, and the keyword continue in it.

#![tactic(auto, using(crate::proofs::WordRules::ends))]

ghost use Rattle.std.specs.Prelude.{◌≡◌, ◌≤◌, length, take};
ghost use Rattle.definitions.specs.Lists.{any, part, position_from};
ghost use Rattle.model.specs.Listings.{listing_of};
ghost use Rattle.goto_for.specs.Words.{ends_word, continue_word};

use model::listing::Listing;
use pieces::reading::{has_continue, is_label};
use plan::{indent, piece};

// The line of w ends a block at indent `ind`: it is no deeper, and no label.
fn ends(code: &Listing, ind: usize, w: usize) -> bool
    ensures { result ≡ ends_word (listing_of code.now) ind w }
{
    indent(w) <= ind && !is_label(code, piece(w))
}

// The first of the first n lines, from place `from` on, that ends a block at indent `ind`.
pub fn first_end(code: &Listing, plan: &[usize], n: usize, from: usize, ind: usize) -> Option<usize>
    requires { n ≤ length plan.now }
    ensures { let C = listing_of code.now in
        result ≡ position_from from (ends_word C ind) (take n plan.now) }
{
    for j in from..n {
        let w = plan[j];
        if ends(code, ind, w) {
            return Some(j);
        }
    }
    None
}

fn continues_at(code: &Listing, w: usize) -> bool
    ensures { result ≡ continue_word (listing_of code.now) w }
{
    has_continue(code, piece(w))
}

// A line from place a up to place e has the keyword continue.
pub fn continues(code: &Listing, plan: &[usize], a: usize, e: usize) -> bool
    requires { e ≤ length plan.now }
    ensures { result ≡ any (continue_word (listing_of code.now)) (part a e plan.now) }
{
    for j in a..e {
        let w = plan[j];
        if continues_at(code, w) {
            return true;
        }
    }
    false
}
