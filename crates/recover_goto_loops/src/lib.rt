// `recover_goto_loops` over columns: label and goto loops made while or for loops. The lines are planned in a local array of words, then
// written once. Questions 1, 2, 3, 4 and 6 in order; no working space is lent.
//
// The contract is one equation: the answer and every lent word are what `pass_call goto_loops` of Rattle.definitions.specs.Calls gives.

#![tactic(auto)]

ghost use Rattle.std.specs.Prelude.{◌≡◌};
ghost use Rattle.definitions.specs.RecoverGotoLoops.{recover_goto_loops};
ghost use Rattle.definitions.specs.Answers.{goto_loops};
ghost use Rattle.definitions.specs.Calls.{pass_call};
ghost use Rattle.write.specs.Holds.{columns};
ghost use Rattle.pass_call.specs.Answers.{passed_with};
ghost use Rattle.loop_theory.proofs.Room.{recover_goto_loops_room};

use goto_turns::turns::plan_goto_loops;
use model::listing::Listing;
use pass_call::Pass;
use plan::Overflow;
use questions::{Limits, Refusal};
use write::Writer;

struct GotoLoops;

impl Pass for GotoLoops {
    ghost made = { recover_goto_loops };

    #[tactic(auto, using(crate::proofs::Calling::sound_words))]
    fn plan(code: &Listing, plan: &mut [usize]) -> Result<usize, Overflow> {
        plan_goto_loops(code, plan)
    }

    ghost fits = { λ L M e. let f = recover_goto_loops_room L M e in (f.lines, f.tokens, f.text) };
}

// Label and goto loops made while or for loops.
pub fn recover_goto_loops(
    code: &Listing,
    addresses: &[u64],
    rows: &mut [u32],
    places: &mut [u64],
    words: &mut [u32],
    bytes: &mut [u8],
) -> Result<Limits, Refusal>
    ensures { let c = columns code.now.lines.now addresses.now code.now.tokens.now code.now.text.now in
        passed_with result (columns rows.new places.new words.new bytes.new)
        ≡ pass_call goto_loops c (columns rows.old places.old words.old bytes.old) }
{
    let mut out = Writer {
        lines: rows,
        addresses: places,
        tokens: words,
        text: bytes,
        written: write::start(),
    };
    pass_call::call::<GotoLoops>(&mut out, code, addresses)
}
