// The reading layer for a test to call from Rust, by the static library `leaves_c`: each function writes the answer of one proved function,
// as numbers, into `out`.
//
// An enum does not cross to Rust, so its case is a number: 0 where there is nothing, 1 and up in the order of its other cases.

#![tactic(auto)]

use family::Register;
use model::listing::Listing;
use questions::Limits;

fn put(out: &mut [u64], k: usize, v: usize) {
    if k < out.len() {
        // A cast: std has no `From` of `usize` to 64 bits.
        out[k] = v as u64;
    }
}

fn put_three(out: &mut [u64], a: usize, b: usize, c: usize) {
    put(out, 0, a);
    put(out, 1, b);
    put(out, 2, c);
}

fn put_register(out: &mut [u64], r: Option<Register>) {
    match r {
        Some(Register::Legacy { row, width }) => put_three(out, 1, row, width),
        Some(Register::Numbered { length, width }) => put_three(out, 2, length, width),
        Some(Register::Var) => put_three(out, 3, 0, 64),
        None => put_three(out, 0, 0, 0),
    }
}

fn put_found(out: &mut [u64], f: Option<usize>) {
    match f {
        Some(k) => put_three(out, 1, k, 0),
        None => put_three(out, 0, 0, 0),
    }
}

fn listing<'c, 'a>(lines: &'c [u32], tokens: &'c [u32], text: &'a [u8]) -> Listing<'c, 'a> {
    Listing {
        lines,
        tokens,
        text,
    }
}

// The number of the first of questions 1 to 3 that is answered no, 0 for none.
pub fn leaves_refusal(lines: &[u32], tokens: &[u32], text: &[u8]) -> usize {
    let code = &listing(lines, tokens, text);
    let most = Limits {
        lines: 1024,
        tokens: 16384,
        text: 262144,
    };
    match questions::ask(code, most) {
        Ok(()) => 0,
        Err(refusal) => refusal.number(),
    }
}

// Question 3 alone, of the whole text as one token.
pub fn leaves_is_utf8(text: &[u8]) -> usize {
    usize::from(text::is_utf8(text))
}

pub fn leaves_fam_of(kind: usize, s: &[u8], out: &mut [u64]) {
    put_register(out, family::fam_of(kind, s));
}

pub fn leaves_same_family(a: &[u8], b: &[u8]) -> usize {
    usize::from(family::same_family(a, family::family(a), b, family::family(b)))
}

pub fn leaves_is_label(lines: &[u32], tokens: &[u32], text: &[u8], i: usize) -> usize {
    let code = &listing(lines, tokens, text);
    usize::from(pseudo_opt::labels::is_label(code, i))
}

pub fn leaves_has_kw(lines: &[u32], tokens: &[u32], text: &[u8], i: usize, kw: &[u8]) -> usize {
    let code = &listing(lines, tokens, text);
    usize::from(pseudo_opt::keywords::has_kw(code, i, kw))
}

pub fn leaves_call_at(lines: &[u32], tokens: &[u32], text: &[u8], i: usize, out: &mut [u64]) {
    let code = &listing(lines, tokens, text);
    put_found(out, pseudo_opt::calls::call_at(code, i));
}

// The place of the symbol that is the first goto's target, and the length of its bytes.
pub fn leaves_goto_target(lines: &[u32], tokens: &[u32], text: &[u8], i: usize, out: &mut [u64]) {
    let code = &listing(lines, tokens, text);
    put_found(out, pseudo_opt::labels::goto_symbol(code, i));
    put(out, 2, pseudo_opt::labels::goto_target(code, i).len());
}

pub fn leaves_assignment(lines: &[u32], tokens: &[u32], text: &[u8], i: usize, out: &mut [u64]) {
    let code = &listing(lines, tokens, text);
    let Some(side) = assignment::assignment(code, i) else {
        put_three(out, 0, 0, 0);
        return;
    };
    put_three(out, 1, side.from, side.to);
}

// The length of the text of token k of a right side.
pub fn leaves_expr_length(lines: &[u32], tokens: &[u32], text: &[u8], i: usize, k: usize) -> usize {
    let code = &listing(lines, tokens, text);
    assignment::expr_text(code, i, k).len()
}

pub fn leaves_defines(lines: &[u32], tokens: &[u32], text: &[u8], i: usize, out: &mut [u64]) {
    let code = &listing(lines, tokens, text);
    put_register(out, assignment::definition::defines(code, i));
}

// The blocks that line i opens and closes.
pub fn leaves_braces(lines: &[u32], tokens: &[u32], text: &[u8], i: usize, out: &mut [u64]) {
    let code = &listing(lines, tokens, text);
    let b = braces::line_braces(code, i);
    put_three(out, 1, b.opens, b.closes);
}

pub fn leaves_condition(
    lines: &[u32],
    tokens: &[u32],
    text: &[u8],
    i: usize,
    kw: &[u8],
    out: &mut [u64],
) {
    let code = &listing(lines, tokens, text);
    let Some(cut) = condition::condition(code, i, kw) else {
        put_three(out, 0, 0, 0);
        return;
    };
    put_three(out, 1, cut.keyword, cut.end);
}
