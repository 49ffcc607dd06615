// The body of a goto loop: gotos to the head become `continue;`, gotos to the exit `break;`, and every line moves in one. One look at each line.

#![tactic(auto, using(crate::proofs::BodyRules::body))]

ghost use Rattle.std.specs.Prelude.{◌≡◌, true, ◌+◌, ◌≤◌, ◌<◌, length, take};
ghost use Rattle.definitions.specs.Lists.{all, part, on_part};
ghost use Rattle.model.specs.Listings.{listing_of};
ghost use Rattle.pieces.specs.Pieces.{piece};
ghost use Rattle.gotos.specs.Body.{name_of, jump_form, body_word, moves_in};

use model::listing::Listing;
use pieces::piece::{Piece, source};
use pieces::reading::goto_symbol;
use plan::{indent, piece};

// What the piece of the word p becomes: `continue;` where it leads to h, `break;` where it leads to the exit, else as it is.
fn jumped(code: &Listing, p: usize, h: &[u8], exit: Option<&[u8]>) -> usize
    requires { p < 4096 }
    ensures result_value { let C = listing_of code.now in
        result ≡ p + jump_form h.now (name_of exit.entry) (piece C p) }
    ensures upper_bound { result ≤ p + 2 }
{
    let Some(j) = goto_symbol(code, p) else {
        return p;
    };
    let i = source(p);
    let target = code.text_at(i, j);
    if text::equal(target, h) {
        return Piece::Continued(i).word();
    }
    match exit {
        Some(x) if text::equal(target, x) => Piece::Broken(i).word(),
        _ => p,
    }
}

// The word of a body line, rewritten and one deeper.
fn body_word(code: &Listing, w: usize, h: &[u8], exit: Option<&[u8]>) -> usize
    ensures { let C = listing_of code.now in
        result ≡ body_word C h.now (name_of exit.entry) w }
{
    indent(w) + 1 + 2048 * jumped(code, piece(w), h, exit)
}

// Rewrites the lines from a up to e; false where one of them has indent 255.
pub fn rewrite_body(
    code: &Listing,
    plan: &mut [usize],
    n: usize,
    a: usize,
    e: usize,
    h: &[u8],
    exit: Option<&[u8]>,
) -> bool
    requires { (a ≤ e) × (e ≤ n) × (n ≤ length plan.old) }
    ensures value { result ≡ all moves_in (part a e (take n plan.old)) }
    ensures plan_after { let C = listing_of code.now in
        result ≡ true → take n plan.new ≡ on_part a e (body_word C h.now (name_of exit.entry)) (take n plan.old) }
{
    for k in a..e {
        let w = plan[k];
        if indent(w) == 255 {
            return false;
        }
        plan[k] = body_word(code, w, h, exit);
    }
    true
}
