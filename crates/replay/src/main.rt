// Replays a fixed list of calls, given on standard input in decimal numbers, and prints what each answers.
//
// `stdout` has what the original Rust answers. `tools/vectors` makes both files.

#![tactic(auto)]

mod choose_call;
mod columns;
mod decimal;
mod pass_calls;
mod print;
mod rows;
mod split_call;
mod web_call;

ghost use Rattle.std.specs.Prelude.{◌≡◌, length};

use std::io;
use streams::Output;

// Room for the input, each byte zero. A caller knows its length, and not its bytes one by one.
fn room() -> [u8; 524288]
    ensures { 524288 ≡ length result }
{
    [0; 524288]
}

fn main(rt: HostRuntime) -> io::Result<()> {
    let mut input = room();
    let n = streams::read_full(&mut rt.reader(), &mut input)?;
    let mut out = Output::new(rt.stdout());
    // What fills the buffer may be cut.
    if n == 524288 {
        out.text(b"too large\n");
    } else {
        rows::replay(&mut out, &input[..n]);
    }
    out.outcome
}
