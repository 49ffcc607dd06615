// Gotos that enter a loop of `recover_goto_loops` from outside, over the words of a plan. Nothing of the listing is copied.
//
// The labels inside are listed once, and each goto outside is looked for in that list, as the Rust does: one step a line, and one a goto
// outside and label inside. A line whose mark says that it has no goto is passed over.
// Contracts cite `enters` and `goto_target` of Rattle.definitions.specs, of the lines that the words stand for.

#![tactic(auto, using(crate::proofs::EnterRules::enterings))]

ghost use Rattle.std.specs.Prelude.{◌≡◌, true, ◌≤◌, ◌<◌, length, get_or, take};
ghost use Rattle.definitions.specs.Lists.{all};
ghost use Rattle.definitions.specs.Questions.{question_2};
ghost use Rattle.definitions.specs.Statements.{is_label};
ghost use Rattle.definitions.specs.RecoverGotoLoops.{enters};
ghost use Rattle.model.specs.Listings.{listing_of};
ghost use Rattle.plan.specs.Plan.{line_of, render};
ghost use Rattle.plan.specs.Changes.{is_goto};
ghost use Rattle.enters.specs.Marks.{Marked};

use crate::entering::any_goes_inside;
use crate::labels::list_labels;
use model::listing::Listing;

mod entering;
mod labels;
pub mod marks;

// A line outside h..b, of the first n, has a goto to the label at h or to a label inside.
pub fn enters(code: &Listing, plan: &[usize], n: usize, h: usize, b: usize, marks: &[u16]) -> bool
    requires h_lt_b { (h < b) × (b < n) × (n ≤ 1024) × (n ≤ length plan.now) × (question_2 code.now.lines.now code.now.tokens.now code.now.text.now ≡ true) × (all is_goto (take n plan.now) ≡ true) }
    requires h_value { is_label (line_of (listing_of code.now) (get_or plan.now h 0)) ≡ true }
    requires marked { Marked code.now.lines.now code.now.tokens.now code.now.text.now marks.now }
    ensures { let C = listing_of code.now in
        result ≡ enters (render C (take n plan.now)) h b }
{
    let mut list = [0u16; 1024];
    let m = list_labels(code, &plan[h..b], &mut list);
    let labels = &list[..m];
    any_goes_inside(code, labels, &plan[..h], marks)
        || any_goes_inside(code, labels, &plan[b + 1..n], marks)
}
