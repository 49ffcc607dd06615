// Call 1: the web call.
use crate::print;
use model::listing::Listing;
use std::rt::Stdout;
use streams::Output;

// Calls, and prints the answer. Outputs and working space start filled, so that an entry that is not written shows; there are entries for
// 256 tokens, and working space for 64 lines.
pub fn answer(out: &mut Output<Stdout>, code: &Listing) {
    let mut numbers = [7u32; 256];
    let mut marks = [7u8; 256];
    let mut space = [7u64; 832];
    match pseudo_ssa::recover(code, &mut numbers, &mut marks, &mut space) {
        Ok(sweeps) => print::webs(out, sweeps, code.tokens.len(), &numbers, &marks),
        Err(refusal) => print::refused(out, refusal),
    }
}
