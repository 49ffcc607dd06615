// A reader over the JSON bytes that remembers how far it has read, and above it `listing`, with plain parameters, which every caller uses.
//
// What a step of the reader costs is what the function of json_listing that it calls costs. The contracts cite
// Rattle.json_listing.specs.InColumns.

#![tactic(auto)]

ghost use Rattle.std.specs.Prelude.{◌≡◌, ◌≤◌, length, option_map};
ghost use Rattle.json_definitions.specs.Parser.{array, skip_white_space};
ghost use Rattle.json_definitions.specs.Reader.{line, is_empty};
ghost use Rattle.json_listing.specs.InColumns.{listing_read, closed};

use json_listing::{Counts, ended, lines_at};

// The bytes that are left to read.
#[derive(Clone, Copy)]
struct Reader<'a> {
    rest: &'a [u8],
}

impl<'a> Reader<'a> {
    // The array of lines at the reader's place, into the lent columns. The reader stands behind it then.
    fn line_array(
        &mut self,
        lines: &mut [u32],
        addresses: &mut [u64],
        tokens: &mut [u32],
        text: &mut [u8],
    ) -> Option<Counts>
        requires { (length tokens.old ≤ 16384) × (length text.old ≤ 262144) }
        ensures { listing_read (array line self.old.rest.now)
            (length lines.old) (length addresses.old) (length tokens.old) (length text.old)
            lines.new addresses.new tokens.new text.new (option_map (λ n. (n, self.new.rest)) result) }
    {
        let (counts, rest) = lines_at(self.rest, lines, addresses, tokens, text)?;
        self.rest = rest;
        Some(counts)
    }

    // Only white space is left.
    fn ended(&self) -> bool
        ensures { result ≡ is_empty (skip_white_space self.now.rest.now) }
    {
        ended(self.rest)
    }
}

// The listing that is the whole of the text s, into the lent columns, and the white space behind it.
pub fn listing<'a>(
    s: &'a [u8],
    lines: &mut [u32],
    addresses: &mut [u64],
    tokens: &mut [u32],
    text: &mut [u8],
) -> Option<(Counts, &'a [u8])>
    requires { (length tokens.old ≤ 16384) × (length text.old ≤ 262144) }
    ensures { listing_read (closed (array line s.now))
        (length lines.old) (length addresses.old) (length tokens.old) (length text.old)
        lines.new addresses.new tokens.new text.new result }
{
    let mut reader = Reader { rest: s };
    let counts = reader.line_array(lines, addresses, tokens, text)?;
    reader.ended().then_some((counts, reader.rest))
}
