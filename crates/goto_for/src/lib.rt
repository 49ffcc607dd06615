// `to_for` over a plan of `recover_goto_loops`: pieces of every form, and headers over a leading test or over 1. Nothing of the listing is copied.
//
// `first_end` and `continues` look at each line of the body once, `initialiser` at most at four lines. Crate `loops` has the same steps over lines
// alone, and asks for `continue` of their masks: one function over both would look for every form at each line there.

#![tactic(auto, using(crate::proofs::ForRules::for_answers))]

pub mod conditions;
pub mod counted;
pub mod ends;
pub mod initialisers;

ghost use Rattle.std.specs.Prelude.{◌≡◌, true, ◌+◌, ◌/◌, ◌≤◌, ◌<◌, length, get_or, take};
ghost use Rattle.definitions.specs.Questions.{question_2};
ghost use Rattle.plan.specs.Plan.{header_at};
ghost use Rattle.plan.specs.Changes.{Ahead};
ghost use Rattle.goto_for.specs.Answer.{ToFor};

use crate::counted::for_place;
use crate::ends::first_end;
use model::listing::Listing;
use plan::{indent, make_for};

// The while header at place w becomes a for header, where its conditions hold; answers how many lines there are then.
pub fn to_for(code: &Listing, plan: &mut [usize], n: usize, w: usize) -> usize
    requires w_lt_n { (w < n) × (n ≤ length plan.old) × (question_2 code.now.lines.now code.now.tokens.now code.now.text.now ≡ true) }
    requires ahead { Ahead (w + 1) (take n plan.old) }
    requires w_value { header_at (get_or plan.old w 0) / 2 ≡ 1 }
    ensures { ToFor code.now.lines.now code.now.tokens.now code.now.text.now w n plan.old result plan.new }
{
    if w == 0 {
        return n;
    }
    let h = plan[w];
    let Some(e) = first_end(code, plan, n, w + 1, indent(h)) else {
        return n;
    };
    let Some(k) = for_place(code, plan, w, e) else {
        return n;
    };
    make_for(plan, n, w, e, k);
    n - 2
}
