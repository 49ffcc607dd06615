// The web call: questions 1 to 5, 7, 8 and 9, then a web number and a definition byte for each token, and the total of sweeps.
//
// Working space is zero after acceptance and after 7 to 9, and nothing is written after 1 to 5. Contracts cite `web_call` of
// Rattle.definitions.specs.Calls and demand 3 of Rattle.definitions.specs.Demand3.

#![tactic(auto)]

ghost use Rattle.std.specs.Prelude.{if◌then◌else◌, ◌≡◌, true, List, [], ℕ, ◌+◌, ◌*◌, ◌/◌, ◌≤◌, leb, length, Option, None, Some};
ghost use Rattle.definitions.specs.Lists.{or_else};
ghost use Rattle.definitions.specs.Questions.{question_4, question_5, space_words, limits};
ghost use Rattle.definitions.specs.Recover.{recover};
ghost use Rattle.definitions.specs.Answers.{Answer, accepted, webs, numbered_webs};
ghost use Rattle.definitions.specs.Calls.{zeros, filled, webs_written, web_call};
ghost use Rattle.bits.specs.Edges.{row_words};
ghost use Rattle.model.specs.Listings.{listing_of};
ghost use Rattle.questions.specs.Refusals.{at_most, refused, answer_of};
ghost use Rattle.text.specs.Zeroed.{zeroed};
ghost use Rattle.pseudo_ssa.specs.Asked.{Asked, Ready};
ghost use Rattle.pseudo_ssa.specs.Within.{web_refusal_within, within_budget, web_call_within};
ghost use Rattle.pseudo_ssa.specs.Answers.{lent, called, Demand3Over};

use model::listing::Listing;
use questions::{Limits, Refusal};

#[tactic(auto, using(model::proofs::Ands::ands))]
fn question_4(count: usize, numbers: &[u32], marks: &[u8]) -> bool
    ensures { result ≡ question_4 count numbers.now marks.now }
{
    count <= numbers.len() && count <= marks.len()
}

// How many words of working space n lines need.
fn space_words(n: usize) -> usize
    requires { n ≤ 1024 }
    ensures { result ≡ space_words n }
{
    4 * n * ((n + 63) / 64) + 8 * n + 64
}

#[tactic(auto, using(crate::proofs::Asking::room_asked))]
fn question_5(n: usize, space: &[u64]) -> bool
    requires { n ≤ 1024 }
    ensures { result ≡ question_5 n space.now }
{
    space_words(n) <= space.len()
}

// Questions 1 to 5.
#[tactic(auto, unfolding(definitions::specs::Questions::refusal))]
fn refusal(
    code: &Listing,
    numbers: &[u32],
    marks: &[u8],
    space: &[u64],
    most: Limits,
) -> Result<(), Refusal>
    requires { most.lines ≤ 1024 }
    ensures { refused result ≡ web_refusal_within (at_most most) code.now.lines.now code.now.tokens.now code.now.text.now (lent numbers.now marks.now space.now) }
{
    questions::ask(code, most)?;
    if !question_4(code.tokens.len(), numbers, marks) {
        return Err(Refusal::NoRoom);
    }
    if !question_5(code.lines.len(), space) {
        return Err(Refusal::NoSpace);
    }
    Ok(())
}

// Zeroes the outputs from entry `count` on, and the working space.
fn zero(numbers: &mut [u32], marks: &mut [u8], space: &mut [u64], count: usize)
    ensures numbers_after { numbers.new ≡ zeroed count numbers.old }
    ensures marks_after { marks.new ≡ zeroed count marks.old }
    ensures space_after { space.new ≡ zeroed 0 space.old }
{
    text::zero(numbers, count);
    text::zero(marks, count);
    text::zero(space, 0);
}

// The flow graph is drawn: numbers and marks within the budget, zeros behind them and in the working space.
fn numbered(
    code: &Listing,
    numbers: &mut [u32],
    marks: &mut [u8],
    space: &mut [u64],
    budget: usize,
) -> Result<usize, Refusal>
    requires { Ready code.now.lines.now code.now.tokens.now code.now.text.now numbers.old marks.old space.old (row_words (length code.now.lines.now)) }
    ensures { called result numbers.new marks.new space.new ≡ webs_written (within_budget budget (webs (listing_of code.now))) (lent numbers.old marks.old space.old) }
{
    let t = code.tokens.len();
    match webs::recover(code, space, budget, &mut numbers[..t], &mut marks[..t]) {
        Some(sweeps) => {
            zero(numbers, marks, space, t);
            Ok(sweeps)
        }
        None => {
            zero(numbers, marks, space, 0);
            Err(Refusal::OverBudget)
        }
    }
}

// Questions 7 to 9, then the webs, of a listing that passes questions 1 to 5.
fn answered(
    code: &Listing,
    numbers: &mut [u32],
    marks: &mut [u8],
    space: &mut [u64],
    budget: usize,
) -> Result<usize, Refusal>
    requires { Asked code.now.lines.now code.now.tokens.now code.now.text.now numbers.old marks.old space.old }
    ensures { called result numbers.new marks.new space.new ≡ webs_written (within_budget budget (webs (listing_of code.now))) (lent numbers.old marks.old space.old) }
{
    let n = code.lines.len();
    let too_short = n < 2;
    if too_short {
        zero(numbers, marks, space, 0);
        return Err(Refusal::TooShort);
    }
    let r = (n + 63) / 64 + 1;
    if let Err(refusal) = flow::graph::flow_graph(code, space, r) {
        zero(numbers, marks, space, 0);
        return Err(refusal);
    }
    numbered(code, numbers, marks, space, budget)
}

// The web call with the limits `most` and at most `budget` sweeps; one that needs more is refused 13.
pub fn recover_within(
    code: &Listing,
    numbers: &mut [u32],
    marks: &mut [u8],
    space: &mut [u64],
    most: Limits,
    budget: usize,
) -> Result<usize, Refusal>
    requires { (most.lines ≤ 1024) × (most.tokens ≤ 16384) }
    ensures { called result numbers.new marks.new space.new ≡ web_call_within (at_most most) budget code.now.lines.now code.now.tokens.now code.now.text.now (lent numbers.old marks.old space.old) }
{
    refusal(code, numbers, marks, space, most)?;
    answered(code, numbers, marks, space, budget)
}

// The web call.
pub fn recover(
    code: &Listing,
    numbers: &mut [u32],
    marks: &mut [u8],
    space: &mut [u64],
) -> Result<usize, Refusal>
    ensures space_after { called result numbers.new marks.new space.new ≡ web_call code.now.lines.now code.now.tokens.now code.now.text.now (lent numbers.old marks.old space.old) }
    ensures by_index { (s : ℕ) → answer_of result ≡ accepted s → Demand3Over ℕ (listing_of code.now) numbers.new }
{
    let most = Limits {
        lines: 1024,
        tokens: 16384,
        text: 262144,
    };
    recover_within(code, numbers, marks, space, most, 4294967295)
}
