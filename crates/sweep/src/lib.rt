// Reaching definitions of one register family, by sweeps over bit rows: the inner loop of `recover` of pseudo_ssa.rs. Module `layout` of
// crate `visit` says where the rows stand in the working space.
//
// The first sweep visits every line. Any other visits, in order, only the lines of which a predecessor changed since their last visit: a
// line that it passes over would not change, so the outgoing rows after each sweep, and the number of sweeps, are those of `sweeps` of
// Rattle.definitions.specs.Sweeps, which the contracts cite. A sweep takes 3 r steps besides its visits; the start takes n w + 2 r. By
// `budget_enough` of proofs/Counting n + 1 sweeps are always enough.

#![tactic(auto)]

ghost use Rattle.std.specs.Prelude.{◌≡◌, true, ◌+◌, ◌*◌, ◌<◌, ◌≤◌, length};
ghost use Rattle.bits.specs.Edges.{Agree};
ghost use Rattle.visit.specs.Layout.{making, Fits, todo};
ghost use Rattle.visit.specs.Numbers.{Numbering, Counted};
ghost use Rattle.visit.specs.Steps.{Full, Listed, Sweep, Started, Turned};
ghost use Rattle.sweep.specs.Solved.{Solved, Incoming};

use visit::layout::{Definitions, Layout};
use words::narrow;

// After `solve`: the incoming set of line i, in the row in the making. Answers the row's first bit.
pub fn incoming_row(layout: Layout, space: &mut [u64], i: usize) -> usize
    requires { Fits layout.n layout.r layout.w space.old × (i < layout.n) × Agree layout.n layout.r space.old }
    ensures value { result ≡ making layout.n layout.r layout.w * 64 }
    ensures incoming { Incoming layout.n layout.r layout.w i space.old space.new }
{
    layout.coming_row(space, i);
    layout.making() * 64
}

// One sweep over the lines to visit, in the first sweep all; answers whether an outgoing row changed.
fn sweep(defs: &Definitions, space: &mut [u64], first: bool) -> bool
    requires fits { let m = defs.now.layout in Fits m.n m.r m.w space.old × Agree m.n m.r space.old }
    requires listed { let m = defs.now.layout in Listed m.n m.r m.w defs.now.nums.now space.old (todo m.n m.r space.old) × (first ≡ true → Full m.n m.r space.old) }
    ensures { let m = defs.now.layout in Sweep m.n m.r m.w defs.now.nums.now space.old space.new result }
{
    let a = defs.layout.todo() * 64;
    let e = a + defs.layout.n;
    let mut changed = false;
    let mut q = bits::find_bit(space, a, e);
    // A `while`: it goes from set bit to set bit, and a visit sets more of them.
    while q < e {
        let c = defs.step_line(space, q - a, first);
        changed |= c;
        q = bits::find_bit(space, q + 1, e);
    }
    changed
}

// All outgoing rows are empty, and all lines are to be visited.
fn start(layout: Layout, space: &mut [u64])
    requires { Fits layout.n layout.r layout.w space.old }
    ensures { Started layout.n layout.r layout.w space.old space.new }
{
    bits::clear_row(space, layout.next(), layout.r + layout.n * layout.w);
    bits::fill_row(space, layout.todo(), layout.r);
}

// The next sweep's list is this sweep's.
fn turn(layout: Layout, space: &mut [u64])
    requires { Fits layout.n layout.r layout.w space.old }
    ensures { Turned layout.n layout.r space.old space.new }
{
    let next = layout.next();
    bits::copy_row(space, layout.todo(), next, layout.r);
    bits::clear_row(space, next, layout.r);
}

// Sweeps until one changes nothing, and answers how many there were, with that one; none where the budget does not allow it.
pub fn solve(defs: &Definitions, space: &mut [u64], budget: usize) -> Option<usize>
    requires { let m = defs.now.layout in Fits m.n m.r m.w space.old × Agree m.n m.r space.old }
    ensures { let m = defs.now.layout in Solved m.n m.r m.w defs.now.nums.now budget space.old space.new result }
{
    start(defs.layout, space);
    if budget == 0 {
        return None;
    }
    if !sweep(defs, space, true) {
        return Some(1);
    }
    turn(defs.layout, space);
    for count in 1..budget {
        if !sweep(defs, space, false) {
            return Some(count + 1);
        }
        turn(defs.layout, space);
    }
    None
}

// The number of line i, where its family is f; c are given so far. Answers how many are given.
fn number_line(families: &[u16], f: u16, nums: &mut [u16], i: usize, c: usize) -> usize
    requires { (0 < i) × (i < length families.now) × (i < length nums.old) × (i < 65536) × Numbering families.now f nums.old i c }
    ensures { Numbering families.now f nums.new (i + 1) result }
{
    let g = families[i];
    if g == f {
        let v = narrow(c + 1);
        nums[i] = v;
        return c + 1;
    }
    nums[i] = 0;
    c
}

// Numbers the lines from 1 on whose family is f, in order; answers how many there are. It takes a step a line.
pub fn number(families: &[u16], f: u16, nums: &mut [u16], n: usize) -> usize
    requires { (0 < n) × (n ≤ 65536) × (n ≤ length families.now) × (n ≤ length nums.old) }
    ensures { Counted n families.now f nums.new result }
{
    nums[0] = 0;
    let mut c = 0;
    for i in 1..n {
        c = number_line(families, f, nums, i, c);
    }
    c
}
