// The webs of every family: web numbers, definition marks and the total of sweeps. This is `recover` of pseudo_ssa.rs, over the drawn graph.
//
// The families are numbered and their tokens chained; module `steps` then takes one family after the other.
// Contracts cite `recover` of Rattle.definitions.specs.Recover and `numbered_webs` of Rattle.definitions.specs.Answers.

#![tactic(auto)]

ghost use Rattle.std.specs.Prelude.{◌≡◌, true, [], ◌+◌, ◌*◌, ◌<◌, ◌≤◌, length};
ghost use Rattle.definitions.specs.Lists.{or_else};
ghost use Rattle.definitions.specs.Questions.{covers, space_words};
ghost use Rattle.definitions.specs.Recover.{recover};
ghost use Rattle.definitions.specs.Answers.{numbered_webs};
ghost use Rattle.model.specs.Listings.{listing_of};
ghost use Rattle.bits.specs.Edges.{row_words};
ghost use Rattle.webs.specs.Progress.{Drawn};
ghost use Rattle.webs.specs.Steps.{AllDone};

use chains::tokens::chain_tokens;
use families::families;
use model::listing::Listing;
use steps::all_families;
use walks::chained::Chained;

pub mod steps;

// The same as `recover`, with local arrays: for each line N have room, for the table of the families T.
fn recover_in<const N: usize, const T: usize>(
    code: &Listing,
    space: &mut [u64],
    budget: usize,
    numbers: &mut [u32],
    marks: &mut [u8],
) -> Option<usize>
    requires in_bounds { (2 ≤ length code.now.lines.now) × (length code.now.lines.now ≤ 1024) × (length code.now.tokens.now ≤ 16384) × (covers 512 0 code.now.lines.now (length code.now.tokens.now) ≡ true) }
    requires lines_in_bounds { (space_words (length code.now.lines.now) ≤ length space.old) × (length numbers.old ≡ length code.now.tokens.now) × (length marks.old ≡ length code.now.tokens.now) × Drawn (listing_of code.now) (length code.now.lines.now) (row_words (length code.now.lines.now)) space.old }
    requires room { (256 + 2 * length code.now.lines.now ≤ T) × (length code.now.lines.now ≤ N) × (N ≤ 1024) × (T ≤ 2304) }
    ensures { let L = listing_of code.now in AllDone budget (numbered_webs L (or_else (recover L) [])) numbers.new marks.new result }
{
    let mut table = [0u16; T];
    let mut defs = [0u16; N];
    let mut first = [0u16; N];
    let count = families(code, &mut table, &mut defs);
    chain_tokens(code, &table, count, numbers, &mut first);
    text::zero(marks, 0);
    let chained = Chained {
        code: &*code,
        table: &table,
        count,
        first: &first,
        defs: &defs,
    };
    all_families::<N>(&chained, space, budget, numbers, marks)
}

// The webs of a listing whose flow graph is drawn in the working space: a number and a mark for each token. Answers the total of sweeps.
pub fn recover(
    code: &Listing,
    space: &mut [u64],
    budget: usize,
    numbers: &mut [u32],
    marks: &mut [u8],
) -> Option<usize>
    requires in_bounds { (2 ≤ length code.now.lines.now) × (length code.now.lines.now ≤ 1024) × (length code.now.tokens.now ≤ 16384) × (covers 512 0 code.now.lines.now (length code.now.tokens.now) ≡ true) }
    requires lines_in_bounds { (space_words (length code.now.lines.now) ≤ length space.old) × (length numbers.old ≡ length code.now.tokens.now) × (length marks.old ≡ length code.now.tokens.now) × Drawn (listing_of code.now) (length code.now.lines.now) (row_words (length code.now.lines.now)) space.old }
    ensures { let L = listing_of code.now in AllDone budget (numbered_webs L (or_else (recover L) [])) numbers.new marks.new result }
{
    if code.lines.len() <= 64 {
        recover_in::<64, 384>(code, space, budget, numbers, marks)
    } else {
        recover_in::<1024, 2304>(code, space, budget, numbers, marks)
    }
}
