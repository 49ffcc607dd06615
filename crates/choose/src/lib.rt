// The chooser: webs, or splits where webs refuse 7, 8 or 9, and which.
//
// Contracts cite `choose_call` of Rattle.definitions.specs.Calls.

#![tactic(auto)]

ghost use Rattle.std.specs.Prelude.{◌≡◌, ◌≤◌};
ghost use Rattle.definitions.specs.Calls.{choose_call};
ghost use Rattle.questions.specs.Refusals.{at_most};
ghost use Rattle.pseudo_ssa.specs.Answers.{lent};
ghost use Rattle.choose.specs.Choices.{called, choose_call_of};

use model::listing::Listing;
use questions::{Limits, Refusal};

// Webs, with the total of sweeps, or splits.
#[derive(Drop)]
pub enum Choice {
    ByWebs(usize),
    BySplits,
}

// The chooser with the limits `most`.
pub fn choose_within(
    code: &Listing,
    numbers: &mut [u32],
    marks: &mut [u8],
    space: &mut [u64],
    most: Limits,
) -> Result<Choice, Refusal>
    requires { (most.lines ≤ 1024) × (most.tokens ≤ 16384) }
    ensures { called result numbers.new marks.new space.new ≡ choose_call_of (at_most most) code.now.lines.now code.now.tokens.now code.now.text.now (lent numbers.old marks.old space.old) }
{
    match pseudo_ssa::recover_within(code, numbers, marks, space, most, 4294967295) {
        Ok(sweeps) => Ok(Choice::ByWebs(sweeps)),
        Err(refusal) => {
            let early = refusal.number() < 7;
            if early {
                return Err(refusal);
            }
            splits::call::split_numbers(code, numbers, marks);
            Ok(Choice::BySplits)
        }
    }
}

// The chooser.
pub fn choose(
    code: &Listing,
    numbers: &mut [u32],
    marks: &mut [u8],
    space: &mut [u64],
) -> Result<Choice, Refusal>
    ensures { called result numbers.new marks.new space.new ≡ choose_call code.now.lines.now code.now.tokens.now code.now.text.now (lent numbers.old marks.old space.old) }
{
    let most = Limits {
        lines: 1024,
        tokens: 16384,
        text: 262144,
    };
    choose_within(code, numbers, marks, space, most)
}
