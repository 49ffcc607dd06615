// Rows: the number of a call, then the listing that it is given.
ghost use Rattle.std.specs.Prelude.{◌<◌, IfSome, length};

use crate::columns::Room;
use crate::{choose_call, decimal, pass_calls, split_call, web_call};
use model::listing::Listing;
use recover_goto_loops::recover_goto_loops;
use recover_loops::recover_loops;
use std::rt::Stdout;
use streams::Output;

// Makes the call of this number and prints its answer. None where there is no such call. The numbers stand here alone: an enum for them
// would be matched twice, when it is read and when it is asked.
fn call(out: &mut Output<Stdout>, number: u64, code: &Listing, addresses: &[u64]) -> Option<()> {
    match number {
        1 => web_call::answer(out, code),
        2 => split_call::answer(out, code),
        3 => choose_call::answer(out, code),
        4 => pass_calls::answer(out, code, addresses, recover_loops),
        5 => pass_calls::answer(out, code, addresses, recover_goto_loops),
        _ => return None,
    }
    Some(())
}

// Reads a row, prints its answer, or that there is no room for its listing, and gives the rest. None where it is no row.
fn replay_row<'a>(out: &mut Output<Stdout>, s: &'a [u8]) -> Option<&'a [u8]>
    ensures { IfSome result (λ rest. length rest.now < length s.now) }
{
    let mut room = Room::new();
    let (number, columns) = decimal::number(s)?;
    let (sizes, rest) = room.fill(columns)?;
    match room.listing(sizes) {
        Some((code, addresses)) => call(out, number, &code, addresses)?,
        None => out.text(b"too large\n"),
    }
    Some(decimal::skip(rest))
}

// Every row of s. One that is no row is the last.
pub fn replay(out: &mut Output<Stdout>, s: &[u8]) {
    let mut rest = decimal::skip(s);
    // A `while`: a row ends where reading it ends, which is no range.
    while !rest.is_empty() {
        let Some(next) = replay_row(out, rest) else {
            out.text(b"bad row\n");
            return;
        };
        rest = next;
    }
}
