// The exports of the crate `leaves`, for a test to call from Rust: each function calls that crate's function of its name.

#![tactic(auto)]

// The number of the first of questions 1 to 3 that is answered no, 0 for none.
#[unsafe(no_mangle)]
pub extern "C" fn leaves_refusal(lines: &[u32], tokens: &[u32], text: &[u8]) -> usize {
    leaves::leaves_refusal(lines, tokens, text)
}

// Question 3 alone, of the whole text as one token.
#[unsafe(no_mangle)]
pub extern "C" fn leaves_is_utf8(text: &[u8]) -> usize {
    leaves::leaves_is_utf8(text)
}

#[unsafe(no_mangle)]
pub extern "C" fn leaves_fam_of(kind: usize, s: &[u8], out: &mut [u64]) {
    leaves::leaves_fam_of(kind, s, out);
}

#[unsafe(no_mangle)]
pub extern "C" fn leaves_same_family(a: &[u8], b: &[u8]) -> usize {
    leaves::leaves_same_family(a, b)
}

#[unsafe(no_mangle)]
pub extern "C" fn leaves_is_label(lines: &[u32], tokens: &[u32], text: &[u8], i: usize) -> usize {
    leaves::leaves_is_label(lines, tokens, text, i)
}

#[unsafe(no_mangle)]
pub extern "C" fn leaves_has_kw(
    lines: &[u32],
    tokens: &[u32],
    text: &[u8],
    i: usize,
    kw: &[u8],
) -> usize {
    leaves::leaves_has_kw(lines, tokens, text, i, kw)
}

#[unsafe(no_mangle)]
pub extern "C" fn leaves_call_at(
    lines: &[u32],
    tokens: &[u32],
    text: &[u8],
    i: usize,
    out: &mut [u64],
) {
    leaves::leaves_call_at(lines, tokens, text, i, out);
}

// The place of the symbol that is the first goto's target, and the length of its bytes.
#[unsafe(no_mangle)]
pub extern "C" fn leaves_goto_target(
    lines: &[u32],
    tokens: &[u32],
    text: &[u8],
    i: usize,
    out: &mut [u64],
) {
    leaves::leaves_goto_target(lines, tokens, text, i, out);
}

#[unsafe(no_mangle)]
pub extern "C" fn leaves_assignment(
    lines: &[u32],
    tokens: &[u32],
    text: &[u8],
    i: usize,
    out: &mut [u64],
) {
    leaves::leaves_assignment(lines, tokens, text, i, out);
}

// The length of the text of token k of a right side.
#[unsafe(no_mangle)]
pub extern "C" fn leaves_expr_length(
    lines: &[u32],
    tokens: &[u32],
    text: &[u8],
    i: usize,
    k: usize,
) -> usize {
    leaves::leaves_expr_length(lines, tokens, text, i, k)
}

#[unsafe(no_mangle)]
pub extern "C" fn leaves_defines(
    lines: &[u32],
    tokens: &[u32],
    text: &[u8],
    i: usize,
    out: &mut [u64],
) {
    leaves::leaves_defines(lines, tokens, text, i, out);
}

// The blocks that line i opens and closes.
#[unsafe(no_mangle)]
pub extern "C" fn leaves_braces(
    lines: &[u32],
    tokens: &[u32],
    text: &[u8],
    i: usize,
    out: &mut [u64],
) {
    leaves::leaves_braces(lines, tokens, text, i, out);
}

#[unsafe(no_mangle)]
pub extern "C" fn leaves_condition(
    lines: &[u32],
    tokens: &[u32],
    text: &[u8],
    i: usize,
    kw: &[u8],
    out: &mut [u64],
) {
    leaves::leaves_condition(lines, tokens, text, i, kw, out);
}
