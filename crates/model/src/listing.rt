// A listing, as it is lent.
ghost use Rattle.std.specs.Prelude.{ℕ, ◌<◌, get_or};

// The lent columns: a word for each line, a word for each token, and the bytes of all tokens. What a word of 32 bits leaves room for bounds the
// tokens of a line and the bytes of a token. The text has a lifetime of its own: a part of it outlives the words that say where it stands.
#[derive(Clone, Copy)]
pub struct Listing<'c, 'a> {
    pub lines: &'c [u32],
    pub tokens: &'c [u32],
    pub text: &'a [u8],
    ghost lines_fit: { (i : ℕ) → get_or lines.now i 0 < 4294967296 },
    ghost tokens_fit: { (k : ℕ) → get_or tokens.now k 0 < 4294967296 },
}
