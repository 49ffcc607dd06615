// Web numbers of one family's definitions and reads. A definition takes constant time, a read as much as `sweep::incoming_row`.
//
// Contracts are by definition number; `web_number_is` and `read_number_is` of proofs/FamilyNumbers say that these are `web_number` and
// `read_number` of Rattle.definitions.specs.Recover.
#![tactic(auto, using(crate::proofs::LinkReads::link_rules))]

ghost use Rattle.std.specs.Prelude.{◌≡◌, ℕ, suc, ◌<◌, ◌≤◌, length, get_or};
ghost use Rattle.visit.specs.Numbers.{defining_lines};
ghost use Rattle.recover.specs.Numbers.{earlier, Ranked};
ghost use Rattle.recover.specs.Reaching.{Swept, Sized, FamilyReps, ReadWeb};

use crate::representatives::{alone, ranks};
use crate::sets::{first_reaching, link_reads};
use visit::layout::Definitions;
use words::{number, word};

// The number of the web of definition d.
pub fn web_of(rep: &[u16], rank: &[u16], d: usize) -> u16
    requires { Ranked rep.now rank.now }
    ensures { result ≡ earlier rep.now (get_or rep.now d 0) }
{
    word(rank, number(rep, d))
}

// The number of a read on line i: that of the first definition that reaches it, 0 where none does.
pub fn read_web(defs: &Definitions, space: &mut [u64], i: usize, rep: &[u16], rank: &[u16]) -> u16
    requires { let m = defs.now.layout in Swept m.n m.r m.w defs.now.nums.now space.old × (i < m.n) × (length rep.now ≡ suc (length (defining_lines m.n defs.now.nums.now))) × Ranked rep.now rank.now }
    ensures { let m = defs.now.layout in ReadWeb m.n m.r m.w i defs.now.nums.now space.old space.new rep.now result }
{
    web_of(rep, rank, first_reaching(defs.layout, space, i, rep.len()))
}

// The representatives of a family's definitions after all its reads, and their ranks. `rep` and `rank` have a word for each definition.
pub fn family_reps(
    defs: &Definitions,
    space: &mut [u64],
    reads: &[u16],
    rep: &mut [u16],
    rank: &mut [u16],
    set: &mut [u16],
    marks: &mut [u8],
)
    requires swept { let m = defs.now.layout in Swept m.n m.r m.w defs.now.nums.now space.old × ((j : ℕ) → j < length reads.now → get_or reads.now j 0 < m.n) }
    requires sized { Sized defs.now.layout.n defs.now.nums.now rep.old set.old × (length rep.old ≤ 65535) × (length rank.old ≡ length rep.old) × (length rep.old ≤ length marks.old) }
    ensures { let m = defs.now.layout in FamilyReps m.n m.r m.w defs.now.nums.now space.old space.new rep.new rank.new reads.now }
{
    alone(rep);
    link_reads(defs, space, reads, rep, set, marks);
    ranks(rep, rank);
}
