// The array of lines that a JSON text starts with, into lent columns as far as they go. One pass over the text.
//
// What is in the columns is told by specs/InColumns.antt, of the parsers of Rattle.json_definitions.specs.Reader.

#![tactic(auto)]

ghost use Rattle.std.specs.Prelude.{◌≡◌, ◌≤◌, ◌<◌, ◌+◌, ◌*◌, length};
ghost use Rattle.json_definitions.specs.Parser.{array, skip_white_space};
ghost use Rattle.json_definitions.specs.Reader.{line, is_empty};
ghost use Rattle.json_theory.specs.Steps.{items};
ghost use Rattle.json_listing.specs.InColumns.{listing_read};

use json_lines::lines::line;
use json_lines::members::{Sep, separator};
use json_lines::tokens::Filled;
use json_scan::lexeme;

// How many lines, tokens and bytes stand in the columns.
#[derive(Clone, Copy)]
pub struct Counts {
    pub lines: usize,
    pub tokens: usize,
    pub text: usize,
}

fn line_word(end: usize, low: u64) -> u32
    requires { (end ≤ 16384) × (low < 512) }
    ensures { result ≡ end * 512 + low }
{
    // Casts: an end is at most 16,384 and the rest below 512, which `TryFrom` would ask again.
    (end as u32) * 512 + (low as u32)
}

// The lines of an array, from its first element on, and what is left behind it. The columns go as slices, here and in the crates above: of a struct
// that lends parts of slices, as the call would make one, proofs don't know what the parts hold at the end.
fn lines_from<'a>(
    s: &'a [u8],
    lines: &mut [u32],
    addresses: &mut [u64],
    tokens: &mut [u32],
    text: &mut [u8],
) -> Option<(Counts, &'a [u8])>
    requires { (length tokens.old ≤ 16384) × (length text.old ≤ 262144) }
    ensures { listing_read (items line s.now)
        (length lines.old) (length addresses.old) (length tokens.old) (length text.old)
        lines.new addresses.new tokens.new text.new result }
{
    let mut rest = s;
    let mut filled = Filled { tokens: 0, text: 0 };
    for k in 0..lines.len().min(addresses.len()) {
        let (row, s) = line(rest, tokens, text, filled)?;
        filled = row.filled;
        lines[k] = line_word(filled.tokens, row.low);
        addresses[k] = row.address;
        let (sep, s) = separator(s)?;
        match sep {
            Sep::Close => {
                let counts = Counts {
                    lines: k + 1,
                    tokens: filled.tokens,
                    text: filled.text,
                };
                return Some((counts, s));
            }
            Sep::More => {
                rest = s;
            }
        }
    }
    None
}

// The array of lines that the text starts with, and what is left behind it.
pub fn lines_at<'a>(
    s: &'a [u8],
    lines: &mut [u32],
    addresses: &mut [u64],
    tokens: &mut [u32],
    text: &mut [u8],
) -> Option<(Counts, &'a [u8])>
    requires { (length tokens.old ≤ 16384) × (length text.old ≤ 262144) }
    ensures { listing_read (array line s.now)
        (length lines.old) (length addresses.old) (length tokens.old) (length text.old)
        lines.new addresses.new tokens.new text.new result }
{
    let s = lexeme(s, b"[")?;
    if let Some(s) = lexeme(s, b"]") {
        let none = Counts {
            lines: 0,
            tokens: 0,
            text: 0,
        };
        return Some((none, s));
    }
    lines_from(s, lines, addresses, tokens, text)
}

// Only white space is left.
pub fn ended(s: &[u8]) -> bool
    ensures { result ≡ is_empty (skip_white_space s.now) }
{
    json_scan::skip_white_space(s).is_empty()
}
