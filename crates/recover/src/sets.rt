// The definitions that reach a line, listed by number, and the representatives after the reads of one family. A line takes a step for each
// definition that reaches it and each word of a row, and the steps of `sweep::incoming_row`.
//
// Contracts cite `incoming` and `sweeps` of Rattle.definitions.specs.Sweeps and `link` of Rattle.definitions.specs.Recover.
#![tactic(auto, using(crate::proofs::SetRules::set_rules))]

ghost use Rattle.std.specs.Prelude.{◌≡◌, [], ◌∷◌, ℕ, ◌+◌, ◌*◌, ◌≤◌, ◌<◌, length, get_or, take};
ghost use Rattle.bits.specs.Edges.{Agree};
ghost use Rattle.visit.specs.Layout.{Fits};
ghost use Rattle.recover.specs.Reaching.{bits_from, Put, Reached, FirstReached, Swept, Slices, Links};

use crate::representatives::link;
use visit::layout::{Definitions, Layout};
use words::narrow;

// b at place m, where `yes`; answers the place behind.
pub fn put(set: &mut [u16], m: usize, b: usize, yes: bool) -> usize
    requires { (m < length set.old) × (b < 65536) }
    ensures { Put set.old set.new m b yes result }
{
    if yes {
        let v = narrow(b);
        set[m] = v;
        return m + 1;
    }
    m
}

// Lists the bits that are set among the n from bit a on; answers how many there are.
fn members(space: &[u64], a: usize, n: usize, set: &mut [u16]) -> usize
    requires { (a + n ≤ length space.now * 64) × (n ≤ length set.old) × (n ≤ 65536) × (a ≤ 4194304) }
    ensures { (result ≤ n) × (take result set.new ≡ bits_from space.now a n) }
{
    let e = a + n;
    let mut m = 0;
    let mut q = bits::find_bit(space, a, e);
    // A `while`: it goes from set bit to set bit, which is no range.
    while q < e {
        let v = narrow(q - a);
        set[m] = v;
        m += 1;
        q = bits::find_bit(space, q + 1, e);
    }
    m
}

// After the sweeps: the definitions that reach line i, nd there being in all. Answers how many there are.
fn reaching(layout: Layout, space: &mut [u64], i: usize, nd: usize, set: &mut [u16]) -> usize
    requires { Fits layout.n layout.r layout.w space.old × (i < layout.n) × Agree layout.n layout.r space.old × (nd ≤ layout.w * 64) × (nd ≤ length set.old) × (nd ≤ 65536) }
    ensures { Reached layout.n layout.r layout.w i nd space.old space.new set.new result }
{
    let a = sweep::incoming_row(layout, space, i);
    members(space, a, nd, set)
}

// After the sweeps: the first of the nd definitions that reaches line i, 0 where none does.
pub fn first_reaching(layout: Layout, space: &mut [u64], i: usize, nd: usize) -> usize
    requires { Fits layout.n layout.r layout.w space.old × (i < layout.n) × Agree layout.n layout.r space.old × (nd ≤ layout.w * 64) }
    ensures { FirstReached layout.n layout.r layout.w i nd space.old space.new result }
{
    let a = sweep::incoming_row(layout, space, i);
    let e = a + nd;
    let q = bits::find_bit(space, a, e);
    if q < e { q - a } else { 0 }
}

// The definitions that reach line i are one web.
#[tactic(auto, using(crate::proofs::LinkReads::link_rules))]
fn link_line(
    defs: &Definitions,
    space: &mut [u64],
    i: usize,
    rep: &mut [u16],
    set: &mut [u16],
    marks: &mut [u8],
)
    requires { let m = defs.now.layout in Swept m.n m.r m.w defs.now.nums.now space.old × (i < m.n) × Slices m.n defs.now.nums.now rep.old set.old marks.old }
    ensures { let m = defs.now.layout in Links m.n m.r m.w defs.now.nums.now space.old space.new rep.old rep.new (i ∷ []) }
{
    let m = reaching(defs.layout, space, i, rep.len(), set);
    link(rep, &set[..m], marks);
}

// Merges at every read: `reads` has the reading lines.
#[tactic(auto, using(crate::proofs::LinkReads::link_rules))]
pub fn link_reads(
    defs: &Definitions,
    space: &mut [u64],
    reads: &[u16],
    rep: &mut [u16],
    set: &mut [u16],
    marks: &mut [u8],
)
    requires { let m = defs.now.layout in Swept m.n m.r m.w defs.now.nums.now space.old × ((j : ℕ) → j < length reads.now → get_or reads.now j 0 < m.n) × Slices m.n defs.now.nums.now rep.old set.old marks.old }
    ensures { let m = defs.now.layout in Links m.n m.r m.w defs.now.nums.now space.old space.new rep.old rep.new reads.now }
{
    for i in reads {
        link_line(defs, space, usize::from(*i), rep, set, marks);
    }
}
