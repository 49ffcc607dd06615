// The public calls as C and Rust call them, which the static library `javrenzu_calls_c` exports. A Result does not cross, so a call answers
// the number of its refusal, 0 where it accepts, and its other value through a reference.
//
// Contracts cite `web_call`, `split_call`, `choose_call` and `pass_call` of Rattle.definitions.specs.Calls,
// `read_call` and `write_call` of Rattle.json_definitions.specs.JsonCalls.

#![tactic(auto, using(crate::proofs::Crossed::crossings), unfolding(crate::specs::Crossing::refusal_number, crate::specs::Crossing::number_of, crate::specs::Crossing::choice_of, crate::specs::Crossing::chosen_sweeps, crate::specs::Crossing::counts_of))]

ghost use Rattle.std.specs.Prelude.{◌≡◌};
ghost use Rattle.definitions.specs.Calls.{web_call, split_call, choose_call, pass_call};
ghost use Rattle.definitions.specs.Answers.{loops, goto_loops};
ghost use Rattle.pseudo_ssa.specs.Answers.{lent};
ghost use Rattle.javrenzu_calls.specs.Crossing.{refusal_number, number_of, choice_of, chosen_sweeps, counts, counts_of};
ghost use Rattle.write.specs.Holds.{columns};
ghost use Rattle.pass_call.specs.Answers.{answered};
ghost use Rattle.splits.specs.Call.{lent as split_lent};
ghost use Rattle.json_definitions.specs.JsonCalls.{read_call, write_call};
ghost use Rattle.json_read.specs.Answers.{answer_of as read_answer};

use choose::Choice;
use json_listing::Counts;
use model::listing::Listing;
use questions::{Limits, Refusal};

// The web call. `sweeps` is the total of sweeps, 0 on refusal.
pub fn javrenzu_webs(
    lines: &[u32],
    tokens: &[u32],
    text: &[u8],
    numbers: &mut [u32],
    marks: &mut [u8],
    space: &mut [u64],
    sweeps: &mut usize,
) -> usize
    ensures value { result ≡ refusal_number (web_call lines.now tokens.now text.now (lent numbers.old marks.old space.old)).answer }
    ensures sweeps_after { sweeps.new ≡ number_of (web_call lines.now tokens.now text.now (lent numbers.old marks.old space.old)).answer }
    ensures space_after { lent numbers.new marks.new space.new ≡ (web_call lines.now tokens.now text.now (lent numbers.old marks.old space.old)).lent }
{
    let code = Listing {
        lines,
        tokens,
        text,
    };
    match pseudo_ssa::recover(&code, numbers, marks, space) {
        Ok(count) => {
            *sweeps = count;
            0
        }
        Err(refusal) => {
            *sweeps = 0;
            refusal.number()
        }
    }
}

// The split call.
pub fn javrenzu_splits(
    lines: &[u32],
    tokens: &[u32],
    text: &[u8],
    numbers: &mut [u32],
    marks: &mut [u8],
) -> usize
    ensures value { result ≡ refusal_number (split_call lines.now tokens.now text.now (split_lent numbers.old marks.old)).answer }
    ensures marks_after { split_lent numbers.new marks.new ≡ (split_call lines.now tokens.now text.now (split_lent numbers.old marks.old)).lent }
{
    let code = Listing {
        lines,
        tokens,
        text,
    };
    match splits::call::split_call(&code, numbers, marks) {
        Ok(()) => 0,
        Err(refusal) => refusal.number(),
    }
}

// The chooser. `choice` is 1 for webs, 2 for splits, 0 on refusal; `sweeps` is the total of sweeps of webs, else 0.
pub fn javrenzu_choose(
    lines: &[u32],
    tokens: &[u32],
    text: &[u8],
    numbers: &mut [u32],
    marks: &mut [u8],
    space: &mut [u64],
    choice: &mut usize,
    sweeps: &mut usize,
) -> usize
    ensures value { result ≡ refusal_number (choose_call lines.now tokens.now text.now (lent numbers.old marks.old space.old)).answer }
    ensures choice_after { choice.new ≡ choice_of (choose_call lines.now tokens.now text.now (lent numbers.old marks.old space.old)).answer }
    ensures sweeps_after { sweeps.new ≡ chosen_sweeps (choose_call lines.now tokens.now text.now (lent numbers.old marks.old space.old)).answer }
    ensures space_after { lent numbers.new marks.new space.new ≡ (choose_call lines.now tokens.now text.now (lent numbers.old marks.old space.old)).lent }
{
    let code = Listing {
        lines,
        tokens,
        text,
    };
    *sweeps = 0;
    match choose::choose(&code, numbers, marks, space) {
        Ok(Choice::ByWebs(count)) => {
            *choice = 1;
            *sweeps = count;
            0
        }
        Ok(Choice::BySplits) => {
            *choice = 2;
            0
        }
        Err(refusal) => {
            *choice = 0;
            refusal.number()
        }
    }
}

// The number of the refusal, 0 where there is none. The counts of lines, tokens and bytes are 0 on refusal.
fn counted(
    answer: Result<Limits, Refusal>,
    nlines: &mut usize,
    ntokens: &mut usize,
    nbytes: &mut usize,
) -> usize
    ensures value { result ≡ refusal_number (answered answer) }
    ensures nbytes_after { counts nlines.new ntokens.new nbytes.new ≡ counts_of (answered answer) }
{
    *nlines = 0;
    *ntokens = 0;
    *nbytes = 0;
    match answer {
        Ok(counts) => {
            *nlines = counts.lines;
            *ntokens = counts.tokens;
            *nbytes = counts.text;
            0
        }
        Err(reason) => reason.number(),
    }
}

// `recover_loops`.
pub fn javrenzu_recover_loops(
    lines: &[u32],
    addresses: &[u64],
    tokens: &[u32],
    text: &[u8],
    rows: &mut [u32],
    places: &mut [u64],
    words: &mut [u32],
    bytes: &mut [u8],
    nlines: &mut usize,
    ntokens: &mut usize,
    nbytes: &mut usize,
) -> usize
    ensures value { result ≡ refusal_number (pass_call loops (columns lines.now addresses.now tokens.now text.now) (columns rows.old places.old words.old bytes.old)).answer }
    ensures nbytes_after { counts nlines.new ntokens.new nbytes.new ≡ counts_of (pass_call loops (columns lines.now addresses.now tokens.now text.now) (columns rows.old places.old words.old bytes.old)).answer }
    ensures bytes_after { columns rows.new places.new words.new bytes.new ≡ (pass_call loops (columns lines.now addresses.now tokens.now text.now) (columns rows.old places.old words.old bytes.old)).out }
{
    let code = Listing {
        lines,
        tokens,
        text,
    };
    let answer = recover_loops::recover_loops(&code, addresses, rows, places, words, bytes);
    counted(answer, nlines, ntokens, nbytes)
}

// `recover_goto_loops`.
pub fn javrenzu_recover_goto_loops(
    lines: &[u32],
    addresses: &[u64],
    tokens: &[u32],
    text: &[u8],
    rows: &mut [u32],
    places: &mut [u64],
    words: &mut [u32],
    bytes: &mut [u8],
    nlines: &mut usize,
    ntokens: &mut usize,
    nbytes: &mut usize,
) -> usize
    ensures value { result ≡ refusal_number (pass_call goto_loops (columns lines.now addresses.now tokens.now text.now) (columns rows.old places.old words.old bytes.old)).answer }
    ensures nbytes_after { counts nlines.new ntokens.new nbytes.new ≡ counts_of (pass_call goto_loops (columns lines.now addresses.now tokens.now text.now) (columns rows.old places.old words.old bytes.old)).answer }
    ensures bytes_after { columns rows.new places.new words.new bytes.new ≡ (pass_call goto_loops (columns lines.now addresses.now tokens.now text.now) (columns rows.old places.old words.old bytes.old)).out }
{
    let code = Listing {
        lines,
        tokens,
        text,
    };
    let answer = recover_goto_loops::recover_goto_loops(
        &code, addresses, rows, places, words, bytes,
    );
    counted(answer, nlines, ntokens, nbytes)
}

// What the reader answers, as a pass does.
fn limits(counts: Option<Counts>) -> Result<Limits, Refusal>
    ensures { answered result ≡ read_answer counts }
{
    match counts {
        Some(n) => Ok(Limits {
            lines: n.lines,
            tokens: n.tokens,
            text: n.text,
        }),
        None => Err(Refusal::NotJson),
    }
}

// The JSON reader. The counts of lines, tokens and bytes are 0 on refusal.
pub fn javrenzu_read_json(
    json: &[u8],
    lines: &mut [u32],
    addresses: &mut [u64],
    tokens: &mut [u32],
    text: &mut [u8],
    nlines: &mut usize,
    ntokens: &mut usize,
    nbytes: &mut usize,
) -> usize
    ensures value { result ≡ refusal_number (read_call json.now (columns lines.old addresses.old tokens.old text.old)).answer }
    ensures nbytes_after { counts nlines.new ntokens.new nbytes.new ≡ counts_of (read_call json.now (columns lines.old addresses.old tokens.old text.old)).answer }
    ensures text_after { columns lines.new addresses.new tokens.new text.new ≡ (read_call json.now (columns lines.old addresses.old tokens.old text.old)).out }
{
    let counts = json_read::read_json(json, lines, addresses, tokens, text);
    counted(limits(counts), nlines, ntokens, nbytes)
}

// The JSON writer. The length of the text is 0 on refusal.
pub fn javrenzu_write_json(
    lines: &[u32],
    addresses: &[u64],
    tokens: &[u32],
    text: &[u8],
    json: &mut [u8],
    nbytes: &mut usize,
) -> usize
    ensures value { result ≡ refusal_number (write_call (columns lines.now addresses.now tokens.now text.now) json.old).answer }
    ensures nbytes_after { nbytes.new ≡ number_of (write_call (columns lines.now addresses.now tokens.now text.now) json.old).answer }
    ensures json_after { json.new ≡ (write_call (columns lines.now addresses.now tokens.now text.now) json.old).out }
{
    let code = Listing {
        lines,
        tokens,
        text,
    };
    match json_write::write_json(&code, addresses, json) {
        Ok(b) => {
            *nbytes = b;
            0
        }
        Err(refusal) => {
            *nbytes = 0;
            refusal.number()
        }
    }
}
