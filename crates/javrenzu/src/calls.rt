// The calls on the columns of a listing: what each prints, made at the start of a lent slice, or its refusal.
//
// Contracts cite specs/Command.antt. Local arrays take up to 0.7 MiB; rows take at most 28 bytes for each of 16,384 tokens, and 262,144 of text.
ghost use Rattle.std.specs.Prelude.{◌≡◌, ◌≤◌, length};
ghost use Rattle.model.specs.Listings.{listing_of};
ghost use Rattle.dot.specs.Dot.{dot_text};
ghost use Rattle.javrenzu.specs.Command.{told, webs_answer, splits_answer, choose_answer, Passing, within, dot_answer};

use crate::room;
use choose::Choice;
use dot::put_dot;
use model::listing::Listing;
use questions::Refusal;
use rows::put_rows;

// What is said: so many bytes at the start of the slice, behind a line `webs` or `splits` where the chooser chose.
#[derive(Clone, Copy)]
pub enum Said {
    Text(usize),
    ByWebs(usize),
    BySplits(usize),
}

pub fn web_rows(out: &mut [u8], code: &Listing) -> Result<Said, Refusal>
    requires { 720896 ≤ length out.old }
    ensures { told result out.new ≡ webs_answer code.now.lines.now code.now.tokens.now code.now.text.now }
{
    let mut numbers = room::zeros::<u32, 16384>();
    let mut marks = room::zeros::<u8, 16384>();
    let mut space = room::zeros::<u64, 73792>();
    pseudo_ssa::recover(code, &mut numbers, &mut marks, &mut space)?;
    Ok(Said::Text(put_rows(out, code, &numbers, &marks)))
}

pub fn split_rows(out: &mut [u8], code: &Listing) -> Result<Said, Refusal>
    requires { 720896 ≤ length out.old }
    ensures { told result out.new ≡ splits_answer code.now.lines.now code.now.tokens.now code.now.text.now }
{
    let mut numbers = room::zeros::<u32, 16384>();
    let mut marks = room::zeros::<u8, 16384>();
    splits::call::split_call(code, &mut numbers, &mut marks)?;
    Ok(Said::Text(put_rows(out, code, &numbers, &marks)))
}

pub fn chosen_rows(out: &mut [u8], code: &Listing) -> Result<Said, Refusal>
    requires { 720896 ≤ length out.old }
    ensures { told result out.new ≡ choose_answer code.now.lines.now code.now.tokens.now code.now.text.now }
{
    let mut numbers = room::zeros::<u32, 16384>();
    let mut marks = room::zeros::<u8, 16384>();
    let mut space = room::zeros::<u64, 73792>();
    match choose::choose(code, &mut numbers, &mut marks, &mut space)? {
        Choice::ByWebs(sweeps) => Ok(Said::ByWebs(put_rows(out, code, &numbers, &marks))),
        Choice::BySplits => Ok(Said::BySplits(put_rows(out, code, &numbers, &marks))),
    }
}

// The picture with these web numbers, or refusal 4 where it has no room.
#[tactic(auto, using(crate::proofs::Rules::pictures))]
fn picture(
    out: &mut [u8],
    code: &Listing,
    numbers: &[u32],
    space: &mut [u64],
) -> Result<Said, Refusal>
    requires in_bounds { 4194304 ≤ length out.old }
    requires passing { Passing code.now.lines.now code.now.tokens.now code.now.text.now × (34816 ≤ length space.old) }
    ensures { told result out.new ≡ within (dot_text (listing_of code.now) numbers.now) }
{
    let mut ranks = room::zeros::<u32, 16384>();
    let e = put_dot(out, code, numbers, space, &mut ranks);
    if e <= 4194304 {
        Ok(Said::Text(e))
    } else {
        Err(Refusal::NoRoom)
    }
}

pub fn dot(out: &mut [u8], code: &Listing) -> Result<Said, Refusal>
    requires { 4194304 ≤ length out.old }
    ensures { told result out.new ≡ dot_answer code.now.lines.now code.now.tokens.now code.now.text.now }
{
    let mut numbers = room::zeros::<u32, 16384>();
    let mut marks = room::zeros::<u8, 16384>();
    let mut space = room::zeros::<u64, 73792>();
    pseudo_ssa::recover(code, &mut numbers, &mut marks, &mut space)?;
    picture(out, code, &numbers, &mut space)
}
