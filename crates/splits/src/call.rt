// The split call: questions 1 to 4, then a number and a mark for each token, and zeros behind them.
//
// Contracts cite `splits` of Rattle.definitions.specs.Answers and `split_call` of Rattle.definitions.specs.Calls. Local arrays take 12,288
// bytes, and 2,560 more where there is a goto.
ghost use Rattle.std.specs.Prelude.{◌≡◌, true, ℕ, ◌≤◌, ◌<◌, length, get_or};
ghost use Rattle.definitions.specs.Questions.{covers};
ghost use Rattle.definitions.specs.Answers.{splits};
ghost use Rattle.definitions.specs.Calls.{filled, split_call};
ghost use Rattle.model.specs.Listings.{listing_of};
ghost use Rattle.questions.specs.Refusals.{at_most, refused};
ghost use Rattle.families.specs.Tokens.{Finds};
ghost use Rattle.splits.specs.Starts.{Starts};
ghost use Rattle.splits.specs.Call.{lent, called, questions, split_within};

use crate::starts::starts;
use crate::tokens::write_lines;
use crossings::crossings;
use families::families;
use memo::lookup::Lookup;
use model::listing::Listing;
use questions::{Limits, Refusal};

// The same as `find_starts`, with the column of the lines that gotos join lent, empty.
fn find_starts_in(code: &Listing, far: &mut [u16], table: &mut [u16], defs: &mut [u16]) -> usize
    requires lines_nonzero { (0 < length code.now.lines.now) × (length code.now.lines.now ≤ 1024) × (2304 ≤ length table.old) × (length code.now.lines.now ≤ length defs.old) × (length code.now.lines.now ≤ length far.old) × (length far.old ≤ 1024) }
    requires by_index { (b : ℕ) → get_or far.old b 0 ≡ 0 }
    ensures finds { Finds (listing_of code.now) result table.new }
    ensures starts { Starts (listing_of code.now) defs.new }
{
    crossings(code, far);
    let count = families(code, table, defs);
    starts(code, far, defs);
    count
}

// Numbers the families that have a definition, in `table`, and finds the split points of each, in `defs`; answers how many families there are.
fn find_starts(code: &Listing, table: &mut [u16], defs: &mut [u16]) -> usize
    requires { (0 < length code.now.lines.now) × (length code.now.lines.now ≤ 1024) × (2304 ≤ length table.old) × (length code.now.lines.now ≤ length defs.old) }
    ensures finds { Finds (listing_of code.now) result table.new }
    ensures starts { Starts (listing_of code.now) defs.new }
{
    let mut far = [0u16; 1024];
    find_starts_in(code, &mut far, table, defs)
}

// Numbers and marks of a listing that has a line, one for each token.
fn write(code: &Listing, numbers: &mut [u32], marks: &mut [u8])
    requires lines_nonzero { (0 < length code.now.lines.now) × (length code.now.lines.now ≤ 1024) }
    requires tokens_value { (covers 512 0 code.now.lines.now (length code.now.tokens.now) ≡ true) × (length numbers.old ≡ length code.now.tokens.now) × (length marks.old ≡ length code.now.tokens.now) }
    ensures numbers_after { numbers.new ≡ (splits (listing_of code.now)).numbers }
    ensures marks_after { marks.new ≡ (splits (listing_of code.now)).marks }
{
    let mut table = [0u16; 2304];
    let mut defs = [0u16; 1024];
    let mut counts = [0u16; 1024];
    let count = find_starts(code, &mut table, &mut defs);
    let mut lookup = Lookup::new(code, &table, count);
    write_lines(&mut lookup, &defs, &mut counts, numbers, marks);
}

// The same of any listing: without a line there is no token.
fn write_all(code: &Listing, numbers: &mut [u32], marks: &mut [u8])
    requires lines_len_bound { length code.now.lines.now ≤ 1024 }
    requires tokens_value { (covers 512 0 code.now.lines.now (length code.now.tokens.now) ≡ true) × (length numbers.old ≡ length code.now.tokens.now) × (length marks.old ≡ length code.now.tokens.now) }
    ensures numbers_after { numbers.new ≡ (splits (listing_of code.now)).numbers }
    ensures marks_after { marks.new ≡ (splits (listing_of code.now)).marks }
{
    if code.lines.len() == 0 {
        return;
    }
    write(code, numbers, marks);
}

// Splits of a listing of which questions 1, 2 and 4 are answered yes: numbers and marks, and zeros behind them.
pub fn split_numbers(code: &Listing, numbers: &mut [u32], marks: &mut [u8])
    requires { (length code.now.lines.now ≤ 1024) × (covers 512 0 code.now.lines.now (length code.now.tokens.now) ≡ true) × (length code.now.tokens.now ≤ length numbers.old) × (length code.now.tokens.now ≤ length marks.old) }
    ensures numbers_after { numbers.new ≡ filled (splits (listing_of code.now)).numbers numbers.old }
    ensures marks_after { marks.new ≡ filled (splits (listing_of code.now)).marks marks.old }
{
    let n = code.tokens.len();
    write_all(code, &mut numbers[..n], &mut marks[..n]);
    text::zero(numbers, n);
    text::zero(marks, n);
}

// Questions 1 to 4.
#[tactic(auto, unfolding(definitions::specs::Questions::refusal, crate::specs::Call::questions))]
fn ask(code: &Listing, numbers: usize, marks: usize, most: Limits) -> Result<(), Refusal>
    ensures { refused result ≡ questions (at_most most) code.now.lines.now code.now.tokens.now code.now.text.now numbers marks }
{
    questions::ask(code, most)?;
    if numbers < code.tokens.len() || marks < code.tokens.len() {
        return Err(Refusal::NoRoom);
    }
    Ok(())
}

// The call with the bounds of question 1 given, of at most 1,024 lines.
pub fn split_call_within(
    code: &Listing,
    numbers: &mut [u32],
    marks: &mut [u8],
    most: Limits,
) -> Result<(), Refusal>
    requires { most.lines ≤ 1024 }
    ensures { called result numbers.new marks.new
        ≡ split_within (at_most most) code.now.lines.now code.now.tokens.now code.now.text.now (lent numbers.old marks.old) }
{
    ask(code, numbers.len(), marks.len(), most)?;
    split_numbers(code, numbers, marks);
    Ok(())
}

// The split call.
pub fn split_call(code: &Listing, numbers: &mut [u32], marks: &mut [u8]) -> Result<(), Refusal>
    ensures { called result numbers.new marks.new
        ≡ split_call code.now.lines.now code.now.tokens.now code.now.text.now (lent numbers.old marks.old) }
{
    let most = Limits {
        lines: 1024,
        tokens: 16384,
        text: 262144,
    };
    split_call_within(code, numbers, marks, most)
}
