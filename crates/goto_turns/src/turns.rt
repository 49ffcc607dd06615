// The turns of `recover_goto_loops` over a plan.
ghost use Rattle.std.specs.Prelude.{◌≡◌, true, List, ◌≤◌, ◌<◌, length, take};
ghost use Rattle.definitions.specs.Model.{Line};
ghost use Rattle.definitions.specs.Questions.{question_2};
ghost use Rattle.definitions.specs.RecoverGotoLoops.{goto_turn, recover_goto_loops};
ghost use Rattle.plan.specs.Changes.{Ahead};
ghost use Rattle.plan.specs.Source.{Source};
ghost use Rattle.plan.specs.Planned.{planned};
ghost use Rattle.enters.specs.Marks.{Marked};
ghost use Rattle.goto_turns.specs.Turns.{TurnOf, Emitted};

use crate::labels::find_loop;
use enters::marks::mark_lines;
use gotos::words::label_word;
use model::listing::Listing;
use plan::{Overflow, indent};

// One turn at place h: how many lines there are then.
fn goto_turn(
    code: &Listing,
    plan: &mut [usize],
    n: usize,
    h: usize,
    marks: &[u16],
) -> Result<usize, Overflow>
    requires h_lt_n { (h < n) × (n ≤ 1024) × (n ≤ length plan.old) × (question_2 code.now.lines.now code.now.tokens.now code.now.text.now ≡ true) }
    requires ahead { Ahead h (take n plan.old) }
    requires marked { Marked code.now.lines.now code.now.tokens.now code.now.text.now marks.now }
    ensures { TurnOf code.now.lines.now code.now.tokens.now code.now.text.now (λ M. goto_turn M h) n h plan.old result plan.new }
{
    let v = plan[h];
    if !label_word(code, v) {
        return Ok(n);
    }
    if indent(v) == 255 {
        return Err(Overflow);
    }
    find_loop(code, plan, n, h, marks)
}

// The pass, turn by turn, while two lines stand behind the line.
fn run(code: &Listing, plan: &mut [usize], marks: &[u16]) -> Result<usize, Overflow>
    requires lines_len_bound { (length code.now.lines.now ≤ 1024) × (length code.now.lines.now ≤ length plan.old) × (question_2 code.now.lines.now code.now.tokens.now code.now.text.now ≡ true) }
    requires marked { Marked code.now.lines.now code.now.tokens.now code.now.text.now marks.now }
    ensures result_after { (S : List Line) → Source S code.now.lines.now code.now.tokens.now code.now.text.now → planned S plan.new result ≡ recover_goto_loops S }
    ensures emitted { Emitted (length code.now.lines.now) plan.new result }
{
    plan::start(code.lines, plan);
    let mut n = code.lines.len();
    let mut h = 0;
    // A `while`: the lines become fewer as loops are made.
    while h + 2 < n {
        n = goto_turn(code, plan, n, h, marks)?;
        h += 1;
    }
    Ok(n)
}

// The pass: a mark for each line, by which the turns pass over those without a goto, then the turns.
pub fn plan_goto_loops(code: &Listing, plan: &mut [usize]) -> Result<usize, Overflow>
    requires { (length code.now.lines.now ≤ 1024) × (length code.now.lines.now ≤ length plan.old) × (question_2 code.now.lines.now code.now.tokens.now code.now.text.now ≡ true) }
    ensures result_after { (S : List Line) → Source S code.now.lines.now code.now.tokens.now code.now.text.now → planned S plan.new result ≡ recover_goto_loops S }
    ensures emitted { Emitted (length code.now.lines.now) plan.new result }
{
    let mut marks = [0u16; 1024];
    mark_lines(code, &mut marks);
    run(code, plan, &marks)
}
