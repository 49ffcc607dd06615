// Answers, each one line on standard output.
use questions::{Limits, Refusal};
use std::rt::Stdout;
use streams::Output;

fn spaced(out: &mut Output<Stdout>, x: u64) {
    out.text(b" ");
    out.number(x);
}

// The first n words, as many of them as there are.
fn words<T: Copy + Into<u64>>(out: &mut Output<Stdout>, xs: &[T], n: usize) {
    for x in xs.iter().take(n) {
        spaced(out, (*x).into());
    }
}

// `refused Q`: question Q is answered no.
pub fn refused(out: &mut Output<Stdout>, refusal: Refusal) {
    out.text(b"refused");
    // A cast: std has no `From` of `usize` to 64 bits.
    spaced(out, refusal.number() as u64);
    out.text(b"\n");
}

// `SWEEPS: NUMBERS; MARKS`, of n tokens.
pub fn webs(out: &mut Output<Stdout>, sweeps: usize, n: usize, numbers: &[u32], marks: &[u8]) {
    // A cast: std has no `From` of `usize` to 64 bits.
    out.number(sweeps as u64);
    out.text(b":");
    words(out, numbers, n);
    out.text(b";");
    words(out, marks, n);
    out.text(b"\n");
}

// The same of splits, which have no sweeps.
pub fn splits(out: &mut Output<Stdout>, n: usize, numbers: &[u32], marks: &[u8]) {
    out.text(b"splits ");
    webs(out, 0, n, numbers, marks);
}

// `LINES; ADDRESSES; TOKENS; TEXT`, so many of each.
pub fn listing(
    out: &mut Output<Stdout>,
    n: Limits,
    lines: &[u32],
    addresses: &[u64],
    tokens: &[u32],
    text: &[u8],
) {
    out.text(b"lines");
    words(out, lines, n.lines);
    out.text(b";");
    words(out, addresses, n.lines);
    out.text(b";");
    words(out, tokens, n.tokens);
    out.text(b";");
    words(out, text, n.text);
    out.text(b"\n");
}
