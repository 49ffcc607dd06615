// The call of a loop pass: the questions, the lines planned in a local array of words, the destination written from that plan or zeroed, and
// the answer. A pass itself only plans, as `Pass` says; no working space is lent.
//
// The contract of `call` is one equation: the answer and every lent word are what `pass_call` of Rattle.definitions.specs.Calls gives of what
// the pass makes of a listing.

#![tactic(auto)]

ghost use Rattle.std.specs.Prelude.{◌≡◌, true, ◌&&◌, List, ◌≤◌, eqb, length, None, Ok, IfErr};
ghost use Rattle.definitions.specs.Lists.{all};
ghost use Rattle.definitions.specs.Model.{Line};
ghost use Rattle.definitions.specs.Questions.{question_2};
ghost use Rattle.definitions.specs.Passes.{lines, Pass as Made};
ghost use Rattle.definitions.specs.Answers.{accepted, rewritten};
ghost use Rattle.definitions.specs.Calls.{has_room, pass_refusal, passed, zero_columns, pass_call};
ghost use Rattle.questions.specs.Refusals.{at_most, number, refused};
ghost use Rattle.plan.specs.Plan.{render};
ghost use Rattle.plan.specs.Source.{Source};
ghost use Rattle.plan.specs.Planned.{planned};
ghost use Rattle.emit.specs.Lines.{is_sound};
ghost use Rattle.write.specs.Holds.{columns, columns_of, Same};
ghost use Rattle.pass_call.specs.Answers.{passed_with, pass_questions, source, Writable, InRoom, Emitted, Leaves, Answers};

use model::listing::Listing;
use plan::Overflow;
use questions::{Limits, Refusal};
use write::Writer;

// A loop pass.
pub trait Pass {
    // What it makes of a listing.
    ghost made: { List Line → Made };

    // Plans it: how many words of the plan count.
    fn plan(code: &Listing, plan: &mut [usize]) -> Result<usize, Overflow>
        requires { (length code.now.lines.now ≤ 1024) × (length code.now.lines.now ≤ length plan.old) × (question_2 code.now.lines.now code.now.tokens.now code.now.text.now ≡ true) }
        ensures planned { (S : List Line) → Source S code.now.lines.now code.now.tokens.now code.now.text.now → planned S plan.new result ≡ made S }
        ensures emitted { Emitted (length code.now.lines.now) plan.new result };

    // The room that question 4 asks for is enough for what it makes.
    ghost fits: { (L M : List Line) → made L ≡ lines M → InRoom L M };
}

// 4: are the outputs long enough?
#[tactic(auto, using(model::proofs::Ands::ands))]
fn has_room(code: &Listing, addresses: &[u64], out: &Writer) -> bool
    requires { (length code.now.lines.now ≤ 1048576) × (length code.now.tokens.now ≤ 16777216) × (length code.now.text.now ≤ 16777216) }
    ensures { result ≡ has_room (columns code.now.lines.now addresses.now code.now.tokens.now code.now.text.now) (columns_of out.now) }
{
    let n = code.lines.len();
    n <= out.lines.len()
        && n <= out.addresses.len()
        && code.tokens.len() + 8 * n <= out.tokens.len()
        && code.text.len() + 32 * n <= out.text.len()
}

// 2: question 2, and is there an address word for each line?
#[tactic(auto, using(model::proofs::Ands::ands))]
fn is_formed(code: &Listing, addresses: &[u64]) -> bool
    ensures { let l = code.now.lines.now in
        result ≡ (eqb (length addresses.now) (length l) && question_2 l code.now.tokens.now code.now.text.now) }
{
    addresses.len() == code.lines.len() && questions::question_2(code)
}

// Questions 1 to 4.
#[tactic(auto, unfolding(definitions::specs::Questions::refusal))]
fn pass_refusal(
    code: &Listing,
    addresses: &[u64],
    out: &Writer,
    most: Limits,
) -> Result<(), Refusal>
    requires { (most.lines ≤ 1048576) × (most.tokens ≤ 16777216) × (most.text ≤ 16777216) }
    ensures result_value { refused result ≡ pass_questions (at_most most) (columns code.now.lines.now addresses.now code.now.tokens.now code.now.text.now)
        (columns_of out.now) }
    ensures upper_bound { IfErr result (λ r. number r ≤ 4) }
{
    if !questions::question_1(code, most) {
        return Err(Refusal::TooLarge);
    }
    if !is_formed(code, addresses) {
        return Err(Refusal::Malformed);
    }
    if !questions::question_3(code) {
        return Err(Refusal::NotUtf8);
    }
    if !has_room(code, addresses, out) {
        return Err(Refusal::NoRoom);
    }
    Ok(())
}

// The same with the bounds of document 01.
fn asked(code: &Listing, addresses: &[u64], out: &Writer) -> Result<(), Refusal>
    ensures result_value { refused result ≡ pass_refusal (columns code.now.lines.now addresses.now code.now.tokens.now code.now.text.now) (columns_of out.now) }
    ensures upper_bound { IfErr result (λ r. number r ≤ 4) }
{
    let most = Limits {
        lines: 1024,
        tokens: 16384,
        text: 262144,
    };
    pass_refusal(code, addresses, out, most)
}

// Every output zero.
fn zero_all(out: &mut Writer)
    ensures { Leaves (zero_columns (columns_of out.old)) out.old out.new }
{
    text::zero(out.lines, 0);
    text::zero(out.addresses, 0);
    text::zero(out.tokens, 0);
    text::zero(out.text, 0);
}

// The lines of the plan written, and zeros behind them; answers how many lines, tokens and bytes are written.
fn written(out: &mut Writer, code: &Listing, addresses: &[u64], plan: &[usize]) -> Limits
    requires sound { all is_sound plan.now ≡ true }
    requires fact { let c = columns code.now.lines.now addresses.now code.now.tokens.now code.now.text.now in
        Writable c (columns_of out.old) (render (source c) plan.now) }
    ensures { let c = columns code.now.lines.now addresses.now code.now.tokens.now code.now.text.now in
        Answers (Ok result) (passed (accepted (render (source c) plan.now)) (columns_of out.old)) out.old out.new }
{
    emit::lines::emit(out, code, addresses, plan);
    out.finish();
    Limits {
        lines: out.written.lines,
        tokens: out.written.tokens,
        text: out.written.text,
    }
}

// Questions 1 to 4 are answered yes, and the listing has at most N lines.
fn passed_in<P: Pass, const N: usize>(
    out: &mut Writer,
    code: &Listing,
    addresses: &[u64],
) -> Result<Limits, Refusal>
    requires lines_in_bounds { (length code.now.lines.now ≤ N) × (N ≤ 1024) }
    requires yes { pass_refusal (columns code.now.lines.now addresses.now code.now.tokens.now code.now.text.now) (columns_of out.old) ≡ None }
    ensures { let c = columns code.now.lines.now addresses.now code.now.tokens.now code.now.text.now in
        Answers result (pass_call (λ L. rewritten (P.made L)) c (columns_of out.old)) out.old out.new }
{
    let mut plan = [0usize; N];
    let Ok(n) = P::plan(code, &mut plan) else {
        zero_all(out);
        return Err(Refusal::Overflow);
    };
    Ok(written(out, code, addresses, &plan[..n]))
}

// The call of the pass. What the destination had is written over. A listing of at most 64 lines has a shorter array to zero.
pub fn call<P: Pass>(out: &mut Writer, code: &Listing, addresses: &[u64]) -> Result<Limits, Refusal>
    ensures same { Same out.old out.new }
    ensures passed { let c = columns code.now.lines.now addresses.now code.now.tokens.now code.now.text.now in
        passed_with result (columns_of out.new) ≡ pass_call (λ L. rewritten (P.made L)) c (columns_of out.old) }
{
    asked(code, addresses, out)?;
    if code.lines.len() <= 64 {
        passed_in::<P, 64>(out, code, addresses)
    } else {
        passed_in::<P, 1024>(out, code, addresses)
    }
}
