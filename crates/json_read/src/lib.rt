// The JSON reader as a call: question 10, and the listing in lent columns. One pass over the text, and zeros behind the results.
//
// The contract is one equation with `read_call` of Rattle.json_definitions.specs.JsonCalls: the answer and every lent word.

#![tactic(auto)]

ghost use Rattle.std.specs.Prelude.{◌≡◌, min, length};
ghost use Rattle.text.specs.Zeroed.{zeroed};
ghost use Rattle.json_definitions.specs.Parser.{array};
ghost use Rattle.json_definitions.specs.Reader.{line};
ghost use Rattle.json_definitions.specs.JsonCalls.{read_call};
ghost use Rattle.json_listing.specs.InColumns.{listing_read, closed};
ghost use Rattle.json_read.specs.Answers.{columns, called};

use json_listing::Counts;

// Question 1's limits.
const MOST_LINES: usize = 1024;

const MOST_TOKENS: usize = 16384;

const MOST_BYTES: usize = 262144;

// The listing, within question 1's limits and what is lent, and the white space behind it.
fn read_within<'a>(
    s: &'a [u8],
    lines: &mut [u32],
    addresses: &mut [u64],
    tokens: &mut [u32],
    text: &mut [u8],
) -> Option<(Counts, &'a [u8])>
    ensures { listing_read (closed (array line s.now))
        (min (length lines.old) 1024) (min (length addresses.old) 1024)
        (min (length tokens.old) 16384) (min (length text.old) 262144)
        lines.new addresses.new tokens.new text.new result }
{
    let a = lines.len().min(MOST_LINES);
    let b = addresses.len().min(MOST_LINES);
    let c = tokens.len().min(MOST_TOKENS);
    let d = text.len().min(MOST_BYTES);
    json_reader::listing(
        s,
        &mut lines[..a],
        &mut addresses[..b],
        &mut tokens[..c],
        &mut text[..d],
    )
}

// Zeroes what stands behind so many lines, tokens and bytes.
fn zero_rest(
    lines: &mut [u32],
    addresses: &mut [u64],
    tokens: &mut [u32],
    text: &mut [u8],
    from: Counts,
)
    ensures lines_after { lines.new ≡ zeroed from.lines lines.old }
    ensures addresses_after { addresses.new ≡ zeroed from.lines addresses.old }
    ensures tokens_after { tokens.new ≡ zeroed from.tokens tokens.old }
    ensures text_after { text.new ≡ zeroed from.text text.old }
{
    text::zero(lines, from.lines);
    text::zero(addresses, from.lines);
    text::zero(tokens, from.tokens);
    text::zero(text, from.text);
}

// Reads the JSON text s into the lent columns, packed, and answers how many lines, tokens and bytes were read; what is behind is zero.
// Refused, by question 10, every lent word is zero.
pub fn read_json(
    s: &[u8],
    lines: &mut [u32],
    addresses: &mut [u64],
    tokens: &mut [u32],
    text: &mut [u8],
) -> Option<Counts>
    ensures { called result lines.new addresses.new tokens.new text.new
        ≡ read_call s.now (columns lines.old addresses.old tokens.old text.old) }
{
    let Some((counts, _)) = read_within(s, lines, addresses, tokens, text) else {
        let none = Counts {
            lines: 0,
            tokens: 0,
            text: 0,
        };
        zero_rest(lines, addresses, tokens, text, none);
        return None;
    };
    zero_rest(lines, addresses, tokens, text, counts);
    Some(counts)
}
