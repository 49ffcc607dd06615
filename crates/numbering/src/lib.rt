// The numbers of one family's definitions and reads, line by line: the sweeps, the webs at the reads, then a number for each line. A family
// takes its sweeps, a few steps a line, and for each reading line as much as listing the definitions that reach it once.
//
// Contracts are by definition number and by the words that number the families; crate webs says what they are of a listing.

#![tactic(auto, using(crate::proofs::LineRules::line_rules))]

ghost use Rattle.std.specs.Prelude.{◌≡◌, suc, ◌+◌, ◌/◌, ◌<◌, ◌≤◌, length, take};
ghost use Rattle.definitions.specs.Questions.{space_words};
ghost use Rattle.bits.specs.Edges.{row_words, Agree};
ghost use Rattle.visit.specs.Numbers.{defining_lines};
ghost use Rattle.recover.specs.Numbers.{Ranked};
ghost use Rattle.recover.specs.Reaching.{Swept};
ghost use Rattle.numbering.specs.Lines.{Below, Owned, Reads, FamilyLines};

use recover::numbers::{family_reps, read_web, web_of};
use visit::layout::{Definitions, Layout};
use words::{narrow, number};

// The words that one family after another uses, of a listing of at most N lines.
#[derive(Drop)]
pub struct Scratch<const N: usize> {
    // A mark for each line, and for each definition.
    pub seen: [u8; N],
    // The number of the definition on each line, 0 where there is none.
    pub nums: [u16; N],
    // The representative of each definition.
    pub rep: [u16; N],
    // How many webs start before each definition.
    pub rank: [u16; N],
    // The definitions that reach one line.
    pub set: [u16; N],
    // The number of the web that is defined on each line.
    pub own: [u16; N],
    // The number of the web that is read on each line.
    pub read: [u16; N],
}

// The number of the definition on each line.
fn number_defs(nums: &[u16], rep: &[u16], rank: &[u16], own: &mut [u16])
    requires { Ranked rep.now rank.now }
    ensures { Owned nums.now rep.now (length own.new) own.new }
{
    for (i, v) in own.iter_mut().enumerate() {
        *v = web_of(rep, rank, number(nums, i));
    }
}

// The number of the reads on each line of `reads`.
fn number_reads(
    family: &Definitions,
    space: &mut [u64],
    reads: &[u16],
    rep: &[u16],
    rank: &[u16],
    read: &mut [u16],
)
    requires swept { let m = family.now.layout in Swept m.n m.r m.w family.now.nums.now space.old × Below m.n reads.now × (m.n ≤ length read.old) }
    requires rep_len { (length rep.now ≡ suc (length (defining_lines family.now.layout.n family.now.nums.now))) × Ranked rep.now rank.now }
    ensures { let m = family.now.layout in Reads m.n m.r m.w family.now.nums.now space.old space.new rep.now reads.now read.old read.new }
{
    for i in reads {
        let i = usize::from(*i);
        read[i] = read_web(family, space, i, rep, rank);
    }
}

// The sweeps of family k, then the numbers of its definitions and of its reads on n lines: `defs` has the family that each line defines, `reads`
// the lines that read the family. Answers how many sweeps there were; none where the budget does not allow them.
pub fn family_lines<const N: usize>(
    space: &mut [u64],
    defs: &[u16],
    k: usize,
    n: usize,
    budget: usize,
    reads: &[u16],
    scratch: &mut Scratch<N>,
) -> Option<usize>
    requires n_nonzero { (0 < n) × (n ≤ 1024) × (space_words n ≤ length space.old) × Agree n (row_words n) space.old × Below n reads.now }
    requires k_bound { (k < 1024) × (n ≤ length defs.now) × (n ≤ N) }
    ensures { FamilyLines n (row_words n) k defs.now budget space.old space.new reads.now (take n scratch.new.own) (take n scratch.new.read) result }
{
    let c = sweep::number(defs, narrow(k + 1), &mut scratch.nums, n);
    let family = Definitions {
        layout: Layout::new(n, c),
        nums: &scratch.nums,
    };
    let sweeps = sweep::solve(&family, space, budget)?;
    let rep = &mut scratch.rep[..c + 1];
    let rank = &mut scratch.rank[..c + 1];
    family_reps(
        &family,
        space,
        reads,
        rep,
        rank,
        &mut scratch.set,
        &mut scratch.seen,
    );
    number_defs(family.nums, rep, rank, &mut scratch.own[..n]);
    let read = &mut scratch.read[..n];
    text::zero(read, 0);
    number_reads(&family, space, reads, rep, rank, read);
    Some(sweeps)
}
