// Call 3: the chooser.
use crate::print;
use choose::Choice;
use model::listing::Listing;
use std::rt::Stdout;
use streams::Output;

// Calls, and prints which was chosen and the answer. Outputs and working space start filled, so that an entry that is not written shows;
// there are entries for 256 tokens, and working space for 64 lines.
pub fn answer(out: &mut Output<Stdout>, code: &Listing) {
    let mut numbers = [7u32; 256];
    let mut marks = [7u8; 256];
    let mut space = [7u64; 832];
    let n = code.tokens.len();
    match choose::choose(code, &mut numbers, &mut marks, &mut space) {
        Ok(Choice::ByWebs(sweeps)) => {
            out.text(b"webs ");
            print::webs(out, sweeps, n, &numbers, &marks);
        }
        Ok(Choice::BySplits) => print::splits(out, n, &numbers, &marks),
        Err(refusal) => print::refused(out, refusal),
    }
}
