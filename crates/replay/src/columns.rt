// A listing's four columns, read from decimal numbers: for each its count of words, then the words.
//
// A count may be beyond the room for its column: the words that have no room are read and dropped.
ghost use Rattle.std.specs.Prelude.{◌≤◌, ◌<◌, IfSome, length};

use crate::decimal;
use model::listing::Listing;

// How many words each column of a listing has.
#[derive(Clone, Copy)]
pub struct Sizes {
    lines: usize,
    addresses: usize,
    tokens: usize,
    text: usize,
}

// Room for the columns of one listing.
#[derive(Drop)]
pub struct Room {
    lines: [u32; 1025],
    addresses: [u64; 1025],
    tokens: [u32; 512],
    text: [u8; 4096],
}

// A column and the rest. None where a number is missing, or is too large for a word of the column.
fn read<'a, T: Copy + TryFrom<u64>>(s: &'a [u8], out: &mut [T]) -> Option<(usize, &'a [u8])>
where
    T::Error: Drop,
    ensures { IfSome result (λ r. length r.1.now ≤ length s.now) }
{
    let (n, start) = decimal::number(s)?;
    let count = usize::try_from(n).ok()?;
    let mut rest = start;
    for i in 0..count {
        let (v, tail) = decimal::number(rest)?;
        let word = T::try_from(v).ok()?;
        if let Some(place) = out.get_mut(i) {
            *place = word;
        }
        rest = tail;
    }
    Some((count, rest))
}

fn listing<'c, 'a>(lines: &'c [u32], tokens: &'c [u32], text: &'a [u8]) -> Listing<'c, 'a> {
    Listing {
        lines,
        tokens,
        text,
    }
}

impl Room {
    pub fn new() -> Room {
        Room {
            lines: [0; 1025],
            addresses: [0; 1025],
            tokens: [0; 512],
            text: [0; 4096],
        }
    }

    // Reads a listing: lines, addresses, tokens, text.
    pub fn fill<'a>(&mut self, s: &'a [u8]) -> Option<(Sizes, &'a [u8])>
        ensures { IfSome result (λ r. length r.1.now ≤ length s.now) }
    {
        let (lines, s) = read(s, &mut self.lines)?;
        let (addresses, s) = read(s, &mut self.addresses)?;
        let (tokens, s) = read(s, &mut self.tokens)?;
        let (text, s) = read(s, &mut self.text)?;
        let sizes = Sizes {
            lines,
            addresses,
            tokens,
            text,
        };
        Some((sizes, s))
    }

    // The listing of these sizes and its addresses. None where it has no room.
    pub fn listing(&self, n: Sizes) -> Option<(Listing, &[u64])> {
        let code = listing(
            self.lines.get(..n.lines)?,
            self.tokens.get(..n.tokens)?,
            self.text.get(..n.text)?,
        );
        Some((code, self.addresses.get(..n.addresses)?))
    }
}
