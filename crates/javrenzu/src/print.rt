// What the command writes: answers on standard output; what goes wrong, in one line, on standard error.
use crate::calls::Said;
use questions::Refusal;
use rows::columns::first;
use std::io;
use std::io::{Cursor, Write};
use std::rt::{Stderr, Stdout};
use streams::Output;

// What a refusal says, in one sentence.
fn meaning<W: Write>(to: &mut Output<W>, refusal: Refusal) {
    match refusal {
        Refusal::TooLarge => to.text(
            b"the listing has more than 1,024 lines, 16,384 tokens or 262,144 bytes of text",
        ),
        Refusal::Malformed => to.text(
            b"its lines do not cover its tokens, or its tokens its text, in order and without gap",
        ),
        Refusal::NotUtf8 => to.text(b"the text of a token is not UTF-8"),
        Refusal::NoRoom => to.text(b"the answer is longer than the room for it"),
        Refusal::NoSpace => to.text(b"there is too little working space"),
        Refusal::Overflow => to.text(b"a line's indent would leave 0 to 255"),
        Refusal::TooShort => to.text(b"webs need two lines or more"),
        Refusal::UnmatchedBrace => to.text(b"a brace has no match"),
        Refusal::UnknownLabel => {
            to.text(b"a goto has no symbol behind it, or one that names no label of the listing")
        }
        Refusal::NotJson => to.text(
            b"the input is not the JSON of a listing of at most 1,024 lines, 16,384 tokens and 262,144 bytes of text, in 4,194,304 bytes",
        ),
        Refusal::OverBudget => to.text(b"this question is not known"),
    }
}

// `refused N: ` and what that means.
pub fn refused<W: Write>(to: &mut Output<W>, refusal: Refusal) {
    to.text(b"refused ");
    // A cast: std has no `From` of `usize` to 64 bits.
    to.number(refusal.number() as u64);
    to.text(b": ");
    meaning(to, refusal);
    to.text(b"\n");
}

// What `told` of specs/Command.antt has: the answer's text, or the refusal.
pub fn said(
    out: &mut Output<Stdout>,
    errors: &mut Output<Stderr>,
    buffer: &[u8],
    answer: Result<Said, Refusal>,
) {
    match answer {
        Ok(Said::Text(e)) => out.text(first(buffer, e)),
        Ok(Said::ByWebs(e)) => {
            out.text(b"webs\n");
            out.text(first(buffer, e));
        }
        Ok(Said::BySplits(e)) => {
            out.text(b"splits\n");
            out.text(first(buffer, e));
        }
        Err(refusal) => refused(errors, refusal),
    }
}

pub fn unknown(errors: &mut Output<Stderr>) {
    errors.text(
        b"javrenzu: the word is webs, splits, choose, recover_loops, recover_goto_loops, passes, check or dot; javrenzu --help says more\n",
    );
}

pub fn help(out: &mut Output<Stdout>) {
    out.text(
        b"javrenzu WORD [FILE]: reads a listing as JSON from FILE, or from standard input, and prints an answer.\n",
    );
    out.text(
        b"  webs                which uses of a register are one variable: rows `line token family#web D|U`\n",
    );
    out.text(b"  splits              the same by split points\n");
    out.text(
        b"  choose              webs, or splits where webs are refused 7, 8 or 9; the first line says which\n",
    );
    out.text(
        b"  recover_loops       the listing, as JSON, with guarded do-while loops made while and for loops\n",
    );
    out.text(
        b"  recover_goto_loops  the same with label and goto loops made while and for loops\n",
    );
    out.text(b"  passes              recover_goto_loops, then recover_loops on what it gave\n");
    out.text(b"  check               is this a listing, and what each word above says to it\n");
    out.text(
        b"  dot                 the flow graph with a colour for each web, for graphviz: javrenzu dot FILE | dot -Tsvg > FILE.svg\n",
    );
    out.text(b"D is a definition, U a use. A refusal is `refused N: why`, on standard error.\n");
}

// The error's text without the number that std puts behind it, ` (os error 2)`.
fn without_number(s: &[u8]) -> &[u8] {
    for i in 0..s.len() {
        if text::starts_with(&s[i..], b" (os error ") {
            return &s[..i];
        }
    }
    s
}

// `WHAT: ` and the error's text, as the system has it.
pub fn failed(errors: &mut Output<Stderr>, what: &[u8], error: io::Error) {
    // The system's texts are shorter than this; what has no room is left out.
    let mut said = Cursor::new([0u8; 256]);
    let _ = write!(said, "{error}");
    // A cast: std has no `From` of 64 bits to `usize`.
    let n = said.position() as usize;
    errors.text(what);
    errors.text(b": ");
    errors.text(without_number(first(&said.into_inner(), n)));
    errors.text(b"\n");
}
