// The command for people: `javrenzu WORD [FILE]` reads a listing as JSON, from the file or from standard input, and prints what the word asks
// for. Refusals and everything else that goes wrong are one line on standard error.
//
// No contract can say what is read or written. What is printed is the work of `answers::answer`, on the bytes that were read.

#![tactic(auto)]

mod answers;
mod calls;
mod check;
mod command_words;
mod cut;
mod input;
mod passes;
mod print;
mod room;

use command_words::Word;
use questions::Refusal;
use std::io;
use std::rt::{Env, Files, Stderr, Stdout};
use streams::Output;

// The most bytes of input, 4 MiB, and one byte more, so that a longer input shows. What is printed is made in the same bytes.
const ROOM: usize = 4194305;

// The answer to a word that asks for one.
fn run(
    rt: &(impl Env + Files + io::Input),
    out: &mut Output<Stdout>,
    errors: &mut Output<Stderr>,
    word: Word,
) -> io::Result<()> {
    let mut buffer = room::zeros::<u8, ROOM>();
    let Some(n) = input::read(rt, errors, &mut buffer)? else {
        return Ok(());
    };
    let answer = if n == ROOM {
        Err(Refusal::NotJson)
    } else {
        answers::answer(out, &mut buffer, n, word)
    };
    print::said(out, errors, &buffer, answer);
    Ok(())
}

fn main(rt: HostRuntime) -> io::Result<()> {
    let mut out = Output::new(rt.stdout());
    let mut errors = Output::new(rt.stderr());
    match command_words::asked(&rt) {
        None => print::unknown(&mut errors),
        Some(Word::Help) => print::help(&mut out),
        Some(word) => run(&rt, &mut out, &mut errors, word)?,
    }
    out.outcome?;
    errors.outcome
}
