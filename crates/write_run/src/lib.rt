// A run of tokens appended as it stands in the columns that it is read from: its bytes in one copy, its words with their ends moved.
//
// Contracts cite the state of Rattle.write.specs.State and `token_list` of Rattle.definitions.specs.Columns.

#![tactic(auto)]

ghost use Rattle.std.specs.Prelude.{◌≡◌, true, map, ◌++◌, ℕ, ◌+◌, ◌/◌, ◌<◌, ◌≤◌, length, take, get_or};
ghost use Rattle.definitions.specs.Lists.{part};
ghost use Rattle.definitions.specs.Questions.{covers};
ghost use Rattle.model.specs.Listings.{tokens_of};
ghost use Rattle.write.specs.Holds.{Filled};
ghost use Rattle.write_run.specs.Runs.{moved, Runs};

use model::listing::Listing;
use pseudo_types::texts::token_start;
use write::Writer;

// What a token's end, a number of bytes, is less than.
const MOST_BYTES: usize = 16777216;

// The word w, its end moved from byte a to byte b.
fn moved(w: u32, a: usize, b: usize) -> u32
    requires { (a ≤ w / 256) × (w / 256 + b < a + 16777216) }
    ensures { result ≡ moved a b w }
{
    // Casts: std has no `From` of 32 bits to `usize`, and the word moved has 32 bits again, which `TryFrom` would ask.
    let x = w as usize;
    ((x / 256 - a + b) * 256 + x % 256) as u32
}

// Stores the run's words at place k.
fn move_words(words: &mut [u32], k: usize, run: &[u32], a: usize, b: usize)
    requires run_in_bounds { k + length run.now ≤ length words.old }
    requires by_index { (j : ℕ) → j < length run.now → (a ≤ get_or run.now j 0 / 256) × (get_or run.now j 0 / 256 + b < a + 16777216) }
    ensures { Filled (take k words.old ++ map (moved a b) run.now) (k + length run.now) words.new }
{
    for j in 0..run.len() {
        words[k + j] = moved(run[j], a, b);
    }
}

// Appends the tokens from place `from` up to place `to`.
pub fn add_run(out: &mut Writer, code: &Listing, from: usize, to: usize)
    requires { (from < to) × (to ≤ length code.now.tokens.now) × (covers 256 0 code.now.tokens.now (length code.now.text.now) ≡ true) }
    ensures { Runs (part from to (tokens_of code.now)) out.old out.new }
{
    let a = token_start(code.tokens, from);
    let e = token_start(code.tokens, to);
    let b = out.written.text;
    let k = out.written.tokens;
    let n = to - from;
    if out.tokens.len() < k || out.tokens.len() - k < n {
        return;
    }
    if MOST_BYTES <= b || MOST_BYTES - b <= e - a {
        return;
    }
    out.add_bytes(text::part(code.text, a, e));
    move_words(out.tokens, k, &code.tokens[from..to], a, b);
    out.written.tokens = k + n;
    out.written.last = text::word(code.tokens, to - 1) % 256;
}
