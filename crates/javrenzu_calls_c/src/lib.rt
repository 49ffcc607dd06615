// The exports of the crate `javrenzu_calls`, for C and Rust: each function calls that crate's function of its name, with its contract. A crate of
// its own, and each contract once more: no Rattle crate can depend on a static library, and what is exported is a function that stands in it.
//
// Contracts cite `web_call`, `split_call`, `choose_call` and `pass_call` of Rattle.definitions.specs.Calls,
// `read_call` and `write_call` of Rattle.json_definitions.specs.JsonCalls.

#![tactic(auto)]

ghost use Rattle.std.specs.Prelude.{◌≡◌};
ghost use Rattle.definitions.specs.Calls.{web_call, split_call, choose_call, pass_call};
ghost use Rattle.definitions.specs.Answers.{loops, goto_loops};
ghost use Rattle.pseudo_ssa.specs.Answers.{lent};
ghost use Rattle.javrenzu_calls.specs.Crossing.{refusal_number, number_of, choice_of, chosen_sweeps, counts, counts_of};
ghost use Rattle.write.specs.Holds.{columns};
ghost use Rattle.splits.specs.Call.{lent as split_lent};
ghost use Rattle.json_definitions.specs.JsonCalls.{read_call, write_call};

// The web call. `sweeps` is the total of sweeps, 0 on refusal.
#[unsafe(no_mangle)]
pub extern "C" fn javrenzu_webs(
    lines: &[u32],
    tokens: &[u32],
    text: &[u8],
    numbers: &mut [u32],
    marks: &mut [u8],
    space: &mut [u64],
    sweeps: &mut usize,
) -> usize
    ensures value { result ≡ refusal_number (web_call lines.now tokens.now text.now (lent numbers.old marks.old space.old)).answer }
    ensures sweeps_after { sweeps.new ≡ number_of (web_call lines.now tokens.now text.now (lent numbers.old marks.old space.old)).answer }
    ensures space_after { lent numbers.new marks.new space.new ≡ (web_call lines.now tokens.now text.now (lent numbers.old marks.old space.old)).lent }
{
    javrenzu_calls::javrenzu_webs(lines, tokens, text, numbers, marks, space, sweeps)
}

// The split call.
#[unsafe(no_mangle)]
pub extern "C" fn javrenzu_splits(
    lines: &[u32],
    tokens: &[u32],
    text: &[u8],
    numbers: &mut [u32],
    marks: &mut [u8],
) -> usize
    ensures value { result ≡ refusal_number (split_call lines.now tokens.now text.now (split_lent numbers.old marks.old)).answer }
    ensures marks_after { split_lent numbers.new marks.new ≡ (split_call lines.now tokens.now text.now (split_lent numbers.old marks.old)).lent }
{
    javrenzu_calls::javrenzu_splits(lines, tokens, text, numbers, marks)
}

// The chooser. `choice` is 1 for webs, 2 for splits, 0 on refusal; `sweeps` is the total of sweeps of webs, else 0.
#[unsafe(no_mangle)]
pub extern "C" fn javrenzu_choose(
    lines: &[u32],
    tokens: &[u32],
    text: &[u8],
    numbers: &mut [u32],
    marks: &mut [u8],
    space: &mut [u64],
    choice: &mut usize,
    sweeps: &mut usize,
) -> usize
    ensures value { result ≡ refusal_number (choose_call lines.now tokens.now text.now (lent numbers.old marks.old space.old)).answer }
    ensures choice_after { choice.new ≡ choice_of (choose_call lines.now tokens.now text.now (lent numbers.old marks.old space.old)).answer }
    ensures sweeps_after { sweeps.new ≡ chosen_sweeps (choose_call lines.now tokens.now text.now (lent numbers.old marks.old space.old)).answer }
    ensures space_after { lent numbers.new marks.new space.new ≡ (choose_call lines.now tokens.now text.now (lent numbers.old marks.old space.old)).lent }
{
    javrenzu_calls::javrenzu_choose(lines, tokens, text, numbers, marks, space, choice, sweeps)
}

// `recover_loops`.
#[unsafe(no_mangle)]
pub extern "C" fn javrenzu_recover_loops(
    lines: &[u32],
    addresses: &[u64],
    tokens: &[u32],
    text: &[u8],
    rows: &mut [u32],
    places: &mut [u64],
    words: &mut [u32],
    bytes: &mut [u8],
    nlines: &mut usize,
    ntokens: &mut usize,
    nbytes: &mut usize,
) -> usize
    ensures value { result ≡ refusal_number (pass_call loops (columns lines.now addresses.now tokens.now text.now) (columns rows.old places.old words.old bytes.old)).answer }
    ensures nbytes_after { counts nlines.new ntokens.new nbytes.new ≡ counts_of (pass_call loops (columns lines.now addresses.now tokens.now text.now) (columns rows.old places.old words.old bytes.old)).answer }
    ensures bytes_after { columns rows.new places.new words.new bytes.new ≡ (pass_call loops (columns lines.now addresses.now tokens.now text.now) (columns rows.old places.old words.old bytes.old)).out }
{
    javrenzu_calls::javrenzu_recover_loops(
        lines, addresses, tokens, text, rows, places, words, bytes, nlines, ntokens, nbytes,
    )
}

// `recover_goto_loops`.
#[unsafe(no_mangle)]
pub extern "C" fn javrenzu_recover_goto_loops(
    lines: &[u32],
    addresses: &[u64],
    tokens: &[u32],
    text: &[u8],
    rows: &mut [u32],
    places: &mut [u64],
    words: &mut [u32],
    bytes: &mut [u8],
    nlines: &mut usize,
    ntokens: &mut usize,
    nbytes: &mut usize,
) -> usize
    ensures value { result ≡ refusal_number (pass_call goto_loops (columns lines.now addresses.now tokens.now text.now) (columns rows.old places.old words.old bytes.old)).answer }
    ensures nbytes_after { counts nlines.new ntokens.new nbytes.new ≡ counts_of (pass_call goto_loops (columns lines.now addresses.now tokens.now text.now) (columns rows.old places.old words.old bytes.old)).answer }
    ensures bytes_after { columns rows.new places.new words.new bytes.new ≡ (pass_call goto_loops (columns lines.now addresses.now tokens.now text.now) (columns rows.old places.old words.old bytes.old)).out }
{
    javrenzu_calls::javrenzu_recover_goto_loops(
        lines, addresses, tokens, text, rows, places, words, bytes, nlines, ntokens, nbytes,
    )
}

// The JSON reader. The counts of lines, tokens and bytes are 0 on refusal.
#[unsafe(no_mangle)]
pub extern "C" fn javrenzu_read_json(
    json: &[u8],
    lines: &mut [u32],
    addresses: &mut [u64],
    tokens: &mut [u32],
    text: &mut [u8],
    nlines: &mut usize,
    ntokens: &mut usize,
    nbytes: &mut usize,
) -> usize
    ensures value { result ≡ refusal_number (read_call json.now (columns lines.old addresses.old tokens.old text.old)).answer }
    ensures nbytes_after { counts nlines.new ntokens.new nbytes.new ≡ counts_of (read_call json.now (columns lines.old addresses.old tokens.old text.old)).answer }
    ensures text_after { columns lines.new addresses.new tokens.new text.new ≡ (read_call json.now (columns lines.old addresses.old tokens.old text.old)).out }
{
    javrenzu_calls::javrenzu_read_json(
        json, lines, addresses, tokens, text, nlines, ntokens, nbytes,
    )
}

// The JSON writer. The length of the text is 0 on refusal.
#[unsafe(no_mangle)]
pub extern "C" fn javrenzu_write_json(
    lines: &[u32],
    addresses: &[u64],
    tokens: &[u32],
    text: &[u8],
    json: &mut [u8],
    nbytes: &mut usize,
) -> usize
    ensures value { result ≡ refusal_number (write_call (columns lines.now addresses.now tokens.now text.now) json.old).answer }
    ensures nbytes_after { nbytes.new ≡ number_of (write_call (columns lines.now addresses.now tokens.now text.now) json.old).answer }
    ensures json_after { json.new ≡ (write_call (columns lines.now addresses.now tokens.now text.now) json.old).out }
{
    javrenzu_calls::javrenzu_write_json(lines, addresses, tokens, text, json, nbytes)
}
