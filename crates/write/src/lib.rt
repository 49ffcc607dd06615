// An append-only writer of a listing into lent columns. Nothing that was written is read back.
//
// A cursor says how much of each column is written, and of what kind the open line's last token is. A write that a column has no room for
// is left out, so that no function asks for room: the contracts say what the columns hold if the listing has room in them at the end.
// `add_bytes`, `add_token` and `add_merged` take a step a byte, `finish` a step an element behind the cursor, the others constant time.
//
// Contracts cite the state of specs/State.antt, lines done and what is open, whose columns are `line_words`, `address_words`,
// `token_words_from` and `text` of Rattle.definitions.specs; `finish` cites `packed` and `counts` of Rattle.definitions.specs.Calls.

#![tactic(auto)]

ghost use Rattle.std.specs.Prelude.{if◌then◌else◌, ◌≡◌, true, List, [], ◌++◌, ℕ, ◌+◌, ◌<◌, ◌≤◌, length, take};
ghost use Rattle.definitions.specs.Lists.{is_some};
ghost use Rattle.definitions.specs.Calls.{Columns};
ghost use Rattle.write.specs.State.{State, add_bytes, end_token, end_merged, add_token, add_merged, end_line, done, kinds_join};
ghost use Rattle.write.specs.Holds.{columns, columns_of, text_lent, tokens_lent, open_lent, lines_lent, Filled, Holds, Same, Writes, Finishes};

use model::kind::Kind;

// How many lines, tokens and bytes are written, and the kind of the open line's last token, NO_KIND where it has none.
#[derive(Clone, Copy)]
pub struct Cursor {
    pub lines: usize,
    pub tokens: usize,
    pub text: usize,
    pub last: usize,
}

// A destination: four lent columns, and how much of each is written.
#[derive(Drop)]
pub struct Writer<'a> {
    pub lines: &'a mut [u32],
    pub addresses: &'a mut [u64],
    pub tokens: &'a mut [u32],
    pub text: &'a mut [u8],
    pub written: Cursor,
}

const NO_KIND: usize = 256;

// What a token's end, a number of bytes, is less than, and a line's, a number of tokens.
const MOST_BYTES: usize = 16777216;

const MOST_TOKENS: usize = 8388608;

// The cursor before the first write.
#[tactic(auto, using(crate::proofs::Steps::nothing_held))]
pub fn start() -> Cursor
    ensures { (l a t x : List ℕ) → Holds (done []) (columns l a t x) result }
{
    Cursor {
        lines: 0,
        tokens: 0,
        text: 0,
        last: NO_KIND,
    }
}

// Stores the bytes at place `from`.
fn copy(text: &mut [u8], from: usize, bytes: &[u8])
    requires { from + length bytes.now ≤ length text.old }
    ensures { Filled (take from text.old ++ bytes.now) (from + length bytes.now) text.new }
{
    for j in 0..bytes.len() {
        text[from + j] = bytes[j];
    }
}

// A token of the kind joins one of the kind `last` before it: text behind text, punctuation behind punctuation.
#[tactic(auto, using(crate::proofs::Merging::joining))]
fn joins(last: usize, kind: usize) -> bool
    ensures { result ≡ kinds_join last kind }
{
    last == kind && matches!(Kind::of(kind), Some(Kind::Text | Kind::Punct))
}

// What a line's word says of its address.
fn flag(addr: Option<u64>) -> usize
    ensures { (result ≡ (if is_some addr then 256 else 0)) × (result ≤ 256) }
{
    if addr.is_some() { 256 } else { 0 }
}

impl Writer<'_> {
    // Appends bytes to the open token.
    pub fn add_bytes(&mut self, bytes: &[u8])
        ensures { Writes text_lent (add_bytes bytes.now) self.old self.new }
    {
        let from = self.written.text;
        if self.text.len() < from || self.text.len() - from < bytes.len() {
            return;
        }
        copy(self.text, from, bytes);
        self.written.text = from + bytes.len();
    }

    // Ends the open token.
    fn end_token(&mut self, kind: usize)
        requires { kind < 256 }
        ensures { Writes tokens_lent (end_token kind) self.old self.new }
    {
        let k = self.written.tokens;
        let end = self.written.text;
        if self.tokens.len() <= k || MOST_BYTES <= end {
            return;
        }
        // A cast: an end is below `MOST_BYTES`, so that the word has 32 bits, which `TryFrom` would ask again.
        self.tokens[k] = (end * 256 + kind) as u32;
        self.written.tokens = k + 1;
        self.written.last = kind;
    }

    // Ends the open token as the end of the last one, where that is of the kind.
    fn extend_token(&mut self, kind: usize)
        requires { kind < 256 }
        ensures same { Same self.old self.new }
        ensures kept { columns_of self.new ≡ tokens_lent (columns_of self.old) self.new }
        ensures written { self.new.written ≡ self.old.written }
        ensures holds { (o : Columns) (s : State) → kinds_join self.old.written.last kind ≡ true
            → Holds s (tokens_lent o self.old) self.old.written → Holds (end_merged kind s) (tokens_lent o self.new) self.old.written }
    {
        let k = self.written.tokens;
        let end = self.written.text;
        if k == 0 || self.tokens.len() < k || MOST_BYTES <= end {
            return;
        }
        // A cast, as in `end_token`.
        self.tokens[k - 1] = (end * 256 + kind) as u32;
    }

    // Ends the open token, which joins the last one where `merge` joins them.
    pub fn end_merged(&mut self, kind: usize)
        requires { kind < 256 }
        ensures { Writes tokens_lent (end_merged kind) self.old self.new }
    {
        if joins(self.written.last, kind) {
            self.extend_token(kind);
        } else {
            self.end_token(kind);
        }
    }

    // Appends a token.
    pub fn add_token(&mut self, bytes: &[u8], kind: usize)
        requires { kind < 256 }
        ensures { Writes open_lent (add_token bytes.now kind) self.old self.new }
    {
        self.add_bytes(bytes);
        self.end_token(kind);
    }

    // Appends a token, which joins the last one where `merge` joins them.
    pub fn add_merged(&mut self, bytes: &[u8], kind: usize)
        requires { kind < 256 }
        ensures { Writes open_lent (add_merged bytes.now kind) self.old self.new }
    {
        self.add_bytes(bytes);
        self.end_merged(kind);
    }

    // Ends the open line.
    pub fn end_line(&mut self, addr: Option<u64>, indent: usize)
        requires { indent < 256 }
        ensures { Writes lines_lent (end_line addr indent) self.old self.new }
    {
        let k = self.written.lines;
        let end = self.written.tokens;
        if self.lines.len() <= k || self.addresses.len() <= k || MOST_TOKENS <= end {
            return;
        }
        // A cast: the word has 32 bits, which `TryFrom` would ask again.
        self.lines[k] = (end * 512 + flag(addr) + indent) as u32;
        self.addresses[k] = addr.unwrap_or(0);
        self.written.lines = k + 1;
        self.written.last = NO_KIND;
    }

    // Zeroes what is behind the cursor. The columns are then `packed`, if no line or token is open.
    pub fn finish(&mut self)
        ensures { Finishes self.old self.new }
    {
        let n = self.written.lines;
        let k = self.written.tokens;
        let end = self.written.text;
        text::zero(self.lines, n);
        text::zero(self.addresses, n);
        text::zero(self.tokens, k);
        text::zero(self.text, end);
    }
}
