// One family after the other, in the order of their first definition: its sweeps, its webs, the numbers and marks of its tokens. A family takes
// the steps of `numbering::family_lines`, a few a line, and one a token of its own for its address, for its reads and for writing.
//
// Contracts cite `recover` of Rattle.definitions.specs.Recover and `numbered_webs` of Rattle.definitions.specs.Answers.
ghost use Rattle.std.specs.Prelude.{◌≡◌, false, ◌<◌, ◌≤◌, length};
ghost use Rattle.definitions.specs.Questions.{space_words};
ghost use Rattle.definitions.specs.Recover.{address_taken};
ghost use Rattle.definitions.specs.Answers.{numbered_webs};
ghost use Rattle.model.specs.Listings.{listing_of};
ghost use Rattle.bits.specs.Edges.{row_words, preds_of};
ghost use Rattle.families.specs.Tokens.{family_name};
ghost use Rattle.webs.specs.Progress.{webs_over};
ghost use Rattle.webs.specs.Steps.{State, FamilyDone, AllDone};

use family_tokens::{family_reads, write_family, write_zeros};
use numbering::{Scratch, family_lines};
use walks::chained::Chained;

// The words that the families share: the lines that read one, and what its numbers take.
#[derive(Drop)]
struct Words<const N: usize> {
    reads: [u16; N],
    scratch: Scratch<N>,
}

// Family k, whose address is not taken.
fn family_free<const N: usize>(
    chained: &Chained,
    k: usize,
    space: &mut [u64],
    budget: usize,
    numbers: &mut [u32],
    marks: &mut [u8],
    words: &mut Words<N>,
) -> Option<usize>
    requires known { let code = chained.now.code.now in
        (k < chained.now.count) × State code.lines.now code.tokens.now code.text.now (row_words (length code.lines.now)) k space.old numbers.old marks.old }
    requires k_value { let L = listing_of chained.now.code.now in address_taken L (family_name L k) ≡ false }
    requires lines_in_bounds { let n = length chained.now.code.now.lines.now in (space_words n ≤ length space.old) × (n ≤ N) × (N ≤ 1024) }
    ensures { let code = chained.now.code.now in
        FamilyDone code.lines.now code.tokens.now code.text.now (row_words (length code.lines.now)) k budget space.old space.new numbers.new marks.new result }
{
    let n = chained.code.lines.len();
    let columns = chained.columns();
    let m = family_reads(
        &columns,
        chained.table,
        chained.count,
        numbers,
        k,
        &mut words.scratch.seen,
        &mut words.reads,
    );
    let sweeps = family_lines(
        space,
        chained.defs,
        k,
        n,
        budget,
        &words.reads[..m],
        &mut words.scratch,
    )?;
    write_family(
        &columns,
        numbers,
        marks,
        k,
        &words.scratch.own[..n],
        &words.scratch.read[..n],
    );
    Some(sweeps)
}

// Family k.
fn family<const N: usize>(
    chained: &Chained,
    k: usize,
    space: &mut [u64],
    budget: usize,
    numbers: &mut [u32],
    marks: &mut [u8],
    words: &mut Words<N>,
) -> Option<usize>
    requires known { let code = chained.now.code.now in
        (k < chained.now.count) × State code.lines.now code.tokens.now code.text.now (row_words (length code.lines.now)) k space.old numbers.old marks.old }
    requires lines_in_bounds { let n = length chained.now.code.now.lines.now in (space_words n ≤ length space.old) × (n ≤ N) × (N ≤ 1024) }
    ensures { let code = chained.now.code.now in
        FamilyDone code.lines.now code.tokens.now code.text.now (row_words (length code.lines.now)) k budget space.old space.new numbers.new marks.new result }
{
    let n = chained.code.lines.len();
    if chained.address_taken(numbers, k) {
        write_zeros(
            &chained.columns(),
            numbers,
            k,
            &mut words.scratch.own[..n],
            &mut words.scratch.read[..n],
        );
        return Some(0);
    }
    family_free(chained, k, space, budget, numbers, marks, words)
}

// All families, one after the other. To zero the words that they share is most of what a short listing costs.
pub fn all_families<const N: usize>(
    chained: &Chained,
    space: &mut [u64],
    budget: usize,
    numbers: &mut [u32],
    marks: &mut [u8],
) -> Option<usize>
    requires known { let code = chained.now.code.now in
        State code.lines.now code.tokens.now code.text.now (row_words (length code.lines.now)) 0 space.old numbers.old marks.old }
    requires lines_in_bounds { let n = length chained.now.code.now.lines.now in (space_words n ≤ length space.old) × (n ≤ N) × (N ≤ 1024) }
    ensures { let code = chained.now.code.now in
        AllDone budget (numbered_webs (listing_of code) (webs_over (listing_of code) (preds_of (length code.lines.now) (row_words (length code.lines.now)) space.old))) numbers.new marks.new result }
{
    let mut words = Words::<N> {
        reads: [0; N],
        scratch: Scratch {
            seen: [0; N],
            nums: [0; N],
            rep: [0; N],
            rank: [0; N],
            set: [0; N],
            own: [0; N],
            read: [0; N],
        },
    };
    let mut total = 0;
    for k in 0..chained.count {
        total += family(
            chained,
            k,
            space,
            budget - total,
            numbers,
            marks,
            &mut words,
        )?;
    }
    Some(total)
}
