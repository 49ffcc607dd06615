// Call 2: the split call.
use crate::print;
use model::listing::Listing;
use std::rt::Stdout;
use streams::Output;

// Calls, and prints the answer. Outputs start filled, so that an entry that is not written shows; there are entries for 256 tokens.
pub fn answer(out: &mut Output<Stdout>, code: &Listing) {
    let mut numbers = [7u32; 256];
    let mut marks = [7u8; 256];
    match splits::call::split_call(code, &mut numbers, &mut marks) {
        Ok(()) => print::splits(out, code.tokens.len(), &numbers, &marks),
        Err(refusal) => print::refused(out, refusal),
    }
}
