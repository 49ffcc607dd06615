// `recover_loops` over columns: guarded do-while loops made while or for loops. The lines are planned in a local array of words, then
// written once. Questions 1, 2, 3, 4 and 6 in order; no working space is lent.
//
// The contract is one equation: the answer and every lent word are what `pass_call loops` of Rattle.definitions.specs.Calls gives.

#![tactic(auto)]

ghost use Rattle.std.specs.Prelude.{◌≡◌, true, List, ◌≤◌, length};
ghost use Rattle.definitions.specs.Model.{Line};
ghost use Rattle.definitions.specs.Questions.{question_2};
ghost use Rattle.definitions.specs.RecoverLoops.{recover_loops};
ghost use Rattle.definitions.specs.Answers.{loops};
ghost use Rattle.definitions.specs.Calls.{pass_call};
ghost use Rattle.plan.specs.Source.{Source};
ghost use Rattle.plan.specs.Planned.{planned};
ghost use Rattle.loops.specs.Turns.{Emitted};
ghost use Rattle.write.specs.Holds.{columns};
ghost use Rattle.pass_call.specs.Answers.{passed_with};
ghost use Rattle.loop_theory.proofs.Room.{recover_loops_room};

use line_keywords::Keywords;
use loops::turns::plan_loops;
use model::listing::Listing;
use pass_call::Pass;
use plan::Overflow;
use questions::{Limits, Refusal};
use write::Writer;

// The listing has at most N lines.
fn plan_in<const N: usize>(code: &Listing, plan: &mut [usize]) -> Result<usize, Overflow>
    requires { (length code.now.lines.now ≤ N) × (N ≤ 1024) × (length code.now.lines.now ≤ length plan.old) × (question_2 code.now.lines.now code.now.tokens.now code.now.text.now ≡ true) }
    ensures result_after { (S : List Line) → Source S code.now.lines.now code.now.tokens.now code.now.text.now → planned S plan.new result ≡ recover_loops S }
    ensures emitted { Emitted (length code.now.lines.now) plan.new result }
{
    let mut masks = [0u8; N];
    let keywords = Keywords::new(code, &mut masks);
    plan_loops(&keywords, plan)
}

struct Loops;

impl Pass for Loops {
    ghost made = { recover_loops };

    // A listing of at most 64 lines has a shorter array to zero.
    #[tactic(auto, using(crate::proofs::Calling::sound_words))]
    fn plan(code: &Listing, plan: &mut [usize]) -> Result<usize, Overflow> {
        if code.lines.len() <= 64 {
            plan_in::<64>(code, plan)
        } else {
            plan_in::<1024>(code, plan)
        }
    }

    ghost fits = { λ L M e. let f = recover_loops_room L M e in (f.lines, f.tokens, f.text) };
}

// Guarded do-while loops made while or for loops.
pub fn recover_loops(
    code: &Listing,
    addresses: &[u64],
    rows: &mut [u32],
    places: &mut [u64],
    words: &mut [u32],
    bytes: &mut [u8],
) -> Result<Limits, Refusal>
    ensures { let c = columns code.now.lines.now addresses.now code.now.tokens.now code.now.text.now in
        passed_with result (columns rows.new places.new words.new bytes.new)
        ≡ pass_call loops c (columns rows.old places.old words.old bytes.old) }
{
    let mut out = Writer {
        lines: rows,
        addresses: places,
        tokens: words,
        text: bytes,
        written: write::start(),
    };
    pass_call::call::<Loops>(&mut out, code, addresses)
}
