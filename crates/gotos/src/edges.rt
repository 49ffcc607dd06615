// The back edge of a label: one look at each line behind it.

#![tactic(auto, using(crate::proofs::EdgeRules::edges))]

ghost use Rattle.std.specs.Prelude.{◌≡◌, true, ◌≤◌, ◌<◌, length, take};
ghost use Rattle.definitions.specs.Questions.{question_2};
ghost use Rattle.model.specs.Listings.{listing_of};
ghost use Rattle.plan.specs.Plan.{render};
ghost use Rattle.gotos.specs.Edges.{back_from};

use crate::words::{back_word, inside_word};
use model::listing::Listing;

// The last of the first n lines, from place `from` on, that stands at indent d and reads `goto h;`, before the first that is not inside
// a block at indent `ind`.
pub fn back_edge(
    code: &Listing,
    plan: &[usize],
    n: usize,
    from: usize,
    h: &[u8],
    ind: usize,
    d: usize,
) -> Option<usize>
    requires { (n ≤ length plan.now) × (question_2 code.now.lines.now code.now.tokens.now code.now.text.now ≡ true) }
    ensures { let C = listing_of code.now in
        result ≡ back_from (render C (take n plan.now)) h.now ind d from }
{
    let mut best = None;
    for j in from..n {
        let w = plan[j];
        if !inside_word(code, ind, w) {
            return best;
        }
        if back_word(code, h, d, w) {
            best = Some(j);
        }
    }
    best
}
