// `check`: the size of the listing, and what each call says to it, printed call by call.
ghost use Rattle.std.specs.Prelude.{◌≤◌, length};

use crate::calls::{self, Said};
use crate::passes::{self, GotoLoops, Loops};
use crate::print::refused;
use model::listing::Listing;
use questions::Refusal;
use std::rt::Stdout;
use streams::Output;

// `NAME: accepted`, or `NAME: refused N: why`.
fn outcome(to: &mut Output<Stdout>, name: &[u8], answer: Result<Said, Refusal>) {
    to.text(name);
    match answer {
        Ok(_) => to.text(b"accepted\n"),
        Err(refusal) => refused(to, refusal),
    }
}

fn size(to: &mut Output<Stdout>, n: usize, what: &[u8]) {
    // A cast: std has no `From` of `usize` to 64 bits.
    to.number(n as u64);
    to.text(what);
}

pub fn sizes(to: &mut Output<Stdout>, code: &Listing) {
    size(to, code.lines.len(), b" lines, ");
    size(to, code.tokens.len(), b" tokens, ");
    size(to, code.text.len(), b" bytes of text\n");
}

// The calls that number tokens. They make their answers in `out`.
pub fn rows(to: &mut Output<Stdout>, out: &mut [u8], code: &Listing)
    requires { 720896 ≤ length out.old }
{
    outcome(to, b"webs: ", calls::web_rows(out, code));
    outcome(to, b"splits: ", calls::split_rows(out, code));
    outcome(to, b"choose: ", calls::chosen_rows(out, code));
}

// The passes.
pub fn passes(to: &mut Output<Stdout>, out: &mut [u8], code: &Listing, addresses: &[u64]) {
    outcome(
        to,
        b"recover_loops: ",
        passes::pass_json::<Loops>(out, code, addresses),
    );
    outcome(
        to,
        b"recover_goto_loops: ",
        passes::pass_json::<GotoLoops>(out, code, addresses),
    );
    outcome(to, b"passes: ", passes::passes_json(out, code, addresses));
}
