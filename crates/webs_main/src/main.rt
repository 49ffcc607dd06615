// The web program: a listing as JSON on standard input; on standard output a row `line token family#web D` or `U` for each token with a
// family, or `refused N`. `stdin` and `stdout` have document 01's example.
//
// The contract is that of `answer::put_answer`: what is printed is `program` of specs/Program.antt of what is read.

#![tactic(auto)]

mod answer;

use std::io;

fn main(rt: HostRuntime) -> io::Result<()> {
    // One byte more than the program takes, so that a longer input shows.
    let mut input = [0u8; 32769];
    let mut output = [0u8; 36864];
    let n = streams::read_full(&mut rt.reader(), &mut input)?;
    let e = answer::put_answer(&mut output, text::part(&input, 0, n));
    rt.write_all(text::part(&output, 0, e))
}
