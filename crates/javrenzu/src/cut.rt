// The used part of a listing's columns.
ghost use Rattle.std.specs.Prelude.{◌≡◌, take};

use model::listing::Listing;
use rows::columns::first;

// The listing in the first so many words and bytes of these columns.
pub fn cut<'c, 'a>(
    lines: &'c [u32],
    tokens: &'c [u32],
    text: &'a [u8],
    line_count: usize,
    token_count: usize,
    byte_count: usize,
) -> Listing<'c, 'a>
    ensures lines { result.lines.now ≡ take line_count lines.now }
    ensures tokens { result.tokens.now ≡ take token_count tokens.now }
    ensures text { result.text.now ≡ take byte_count text.now }
{
    Listing {
        lines: first(lines, line_count),
        tokens: first(tokens, token_count),
        text: first(text, byte_count),
    }
}
