// The header of a goto loop: it takes the label's place, and the leading test's. `make_header` takes a step for each line behind it.

#![tactic(auto, using(crate::proofs::HeadedRules::headers))]

ghost use Rattle.std.specs.Prelude.{◌≡◌, true, ◌+◌, ◌-◌, ◌≤◌, ◌<◌, length, take};
ghost use Rattle.definitions.specs.Lists.{is_some};
ghost use Rattle.definitions.specs.Questions.{question_2};
ghost use Rattle.definitions.specs.RecoverGotoLoops.{leading_test};
ghost use Rattle.model.specs.Listings.{listing_of};
ghost use Rattle.plan.specs.Plan.{header_at, line_of};
ghost use Rattle.gotos.specs.Headed.{head_word, headed_words, fewer};

use model::listing::Listing;
use pieces::leading::leading_test;
use plan::{indent, piece};

// The line of w, which is no header, is a leading test of a header at indent d.
pub fn leads(code: &Listing, w: usize, d: usize) -> bool
    requires { (header_at w ≡ 0) × (d < 256) × (question_2 code.now.lines.now code.now.tokens.now code.now.text.now ≡ true) }
    ensures { result ≡ is_some (leading_test (line_of (listing_of code.now) w) d) }
{
    indent(w) == d + 1 && leading_test(code, piece(w)).is_some()
}

// The label's word v made a while header, one deeper: k is 2 for the condition 1, and 3 for the leading test of the piece t.
fn head_word(v: usize, k: usize, t: usize) -> usize
    requires { (k < 8) × (t < 4096) }
    ensures { result ≡ head_word v k t }
{
    indent(v) + 1 + 256 * (k + 8 * (piece(v) + 4096 * t))
}

// The label at place h becomes a while header, and where `tested` is true the line behind it goes. The answer is how many lines are left.
pub fn make_header(plan: &mut [usize], n: usize, h: usize, tested: bool) -> usize
    requires { (h + 1 < n) × (n ≤ length plan.old) }
    ensures { (result ≡ n - fewer tested) × (take result plan.new ≡ headed_words tested h (take n plan.old)) }
{
    let v = plan[h];
    if tested {
        let t = plan[h + 1];
        plan[h] = head_word(v, 3, piece(t));
        plan::remove(plan, n, h + 1);
        return n - 1;
    }
    plan[h] = head_word(v, 2, 0);
    n
}
