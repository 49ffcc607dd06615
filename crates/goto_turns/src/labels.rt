// The loop of a label: its back edge, whether it is made, and how.
ghost use Rattle.std.specs.Prelude.{◌<◌, get_or};
ghost use Rattle.definitions.specs.RecoverGotoLoops.{rewritten, looped};
ghost use Rattle.plan.specs.Plan.{indent_at};
ghost use Rattle.enters.specs.Marks.{Marked};
ghost use Rattle.goto_turns.specs.Loops.{Labelled, Loop};
ghost use Rattle.goto_turns.specs.Turns.{loop_at, TurnOf};

use crate::rewriting::{make_loop, rewrite};
use enters::enters;
use gotos::edges::back_edge;
use model::listing::Listing;
use plan::{Overflow, indent, source};

// The loop from the label at place h to its back edge at place b is made. The header stands one deeper than the label, and its leading test is looked
// for one deeper still.
fn rebuild(
    code: &Listing,
    plan: &mut [usize],
    n: usize,
    h: usize,
    b: usize,
) -> Result<usize, Overflow>
    requires { Loop code.now.lines.now code.now.tokens.now code.now.text.now n h b plan.old }
    ensures { TurnOf code.now.lines.now code.now.tokens.now code.now.text.now (λ M. rewritten M h b) n h plan.old result plan.new }
{
    if indent(plan[h]) == 254 {
        return Err(Overflow);
    }
    if rewrite(code, plan, n, h, b) {
        Ok(make_loop(code, plan, n, h))
    } else {
        Err(Overflow)
    }
}

// The back edge of the label at place h is at b: the loop is made where it has a body and no goto from outside leads in.
fn loop_at(
    code: &Listing,
    plan: &mut [usize],
    n: usize,
    h: usize,
    b: usize,
    marks: &[u16],
) -> Result<usize, Overflow>
    requires labelled { Labelled code.now.lines.now code.now.tokens.now code.now.text.now n h plan.old }
    requires h_lt_b { (h < b) × (b < n) × (indent_at (get_or plan.old h 0) < 255) }
    requires marked { Marked code.now.lines.now code.now.tokens.now code.now.text.now marks.now }
    ensures { TurnOf code.now.lines.now code.now.tokens.now code.now.text.now (λ M. loop_at M h b) n h plan.old result plan.new }
{
    if h + 1 < b && !enters(code, plan, n, h, b, marks) {
        rebuild(code, plan, n, h, b)
    } else {
        Ok(n)
    }
}

// The label at place h: its back edge is looked for.
pub fn find_loop(
    code: &Listing,
    plan: &mut [usize],
    n: usize,
    h: usize,
    marks: &[u16],
) -> Result<usize, Overflow>
    requires labelled { Labelled code.now.lines.now code.now.tokens.now code.now.text.now n h plan.old }
    requires h_bound { indent_at (get_or plan.old h 0) < 255 }
    requires marked { Marked code.now.lines.now code.now.tokens.now code.now.text.now marks.now }
    ensures { TurnOf code.now.lines.now code.now.tokens.now code.now.text.now (λ M. looped M h) n h plan.old result plan.new }
{
    let v = plan[h];
    let head = code.text_at(source(v), 0);
    let ind = indent(v);
    let Some(b) = back_edge(code, plan, n, h + 1, head, ind, ind + 1) else {
        return Ok(n);
    };
    loop_at(code, plan, n, h, b, marks)
}
