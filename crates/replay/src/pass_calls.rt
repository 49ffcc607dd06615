// Calls 4 and 5: a loop pass.
use crate::print;
use model::listing::Listing;
use questions::{Limits, Refusal};
use std::rt::Stdout;
use streams::Output;

// Calls the pass, and prints the answer and the columns. Outputs start filled, so that an entry that is not written shows; there is room for
// 64 lines, 1,024 tokens and 6,144 bytes.
pub fn answer<F>(out: &mut Output<Stdout>, code: &Listing, addresses: &[u64], pass: F)
where
    F: FnOnce(
        &Listing,
        &[u64],
        &mut [u32],
        &mut [u64],
        &mut [u32],
        &mut [u8],
    ) -> Result<Limits, Refusal>,
    requires { F.IsAlwaysCallable pass }
{
    let mut rows = [7u32; 64];
    let mut places = [7u64; 64];
    let mut words = [7u32; 1024];
    let mut bytes = [7u8; 6144];
    match pass(
        code,
        addresses,
        &mut rows,
        &mut places,
        &mut words,
        &mut bytes,
    ) {
        Ok(n) => print::listing(out, n, &rows, &places, &words, &bytes),
        Err(refusal) => print::refused(out, refusal),
    }
}
