// Lines and tokens of the lent columns, by their places. Each function takes constant time, copies nothing, and is
// total: behind the last line stands a line without tokens, behind a line's last token an empty text.
//
// Contracts cite `listing_of`, `tokens_of` and, for addresses, `with_addresses` of Rattle.definitions.specs.Columns.
ghost use Rattle.std.specs.Prelude.{◌≡◌, ◌-◌, ◌/◌, ◌%◌, ◌<◌, eqb, length, get_or};
ghost use Rattle.definitions.specs.Model.{token, line, no_token};
ghost use Rattle.definitions.specs.Columns.{with_addresses};
ghost use Rattle.model.specs.Kinds.{number};
ghost use Rattle.model.specs.Listings.{listing_of, tokens_of};
ghost use Rattle.model.specs.Places.{start_from, line_start, line_end};

use crate::kind::Kind;
use crate::listing::Listing;

// Where piece k of a column starts, a word over `by` being where its piece ends.
fn start(ws: &[u32], by: usize, k: usize) -> usize
    requires { 0 < by }
    ensures { result ≡ start_from by 0 ws.now k }
{
    if k == 0 {
        0
    } else {
        text::word(ws, k - 1) / by
    }
}

impl<'a> Listing<'_, 'a> {
    // Tokens among all tokens

    pub fn token_kind(&self, k: usize) -> usize
        ensures { result ≡ (get_or (tokens_of self.now) k no_token).kind }
    {
        text::word(self.tokens, k) % 256
    }

    // Token k is of this kind.
    pub fn token_is(&self, k: usize, kind: Kind) -> bool
        ensures { result ≡ eqb (get_or (tokens_of self.now) k no_token).kind (number kind) }
    {
        self.token_kind(k) == kind.number()
    }

    pub fn token_text(&self, k: usize) -> &'a [u8]
        ensures { result.now ≡ (get_or (tokens_of self.now) k no_token).text }
    {
        text::part(
            self.text,
            start(self.tokens, 256, k),
            text::word(self.tokens, k) / 256,
        )
    }

    // Lines

    // The place of line i's first token among all tokens.
    pub fn line_start(&self, i: usize) -> usize
        ensures { result ≡ line_start self.now.lines.now i }
    {
        start(self.lines, 512, i)
    }

    // The place behind line i's last token among all tokens.
    pub fn line_end(&self, i: usize) -> usize
        ensures { result ≡ line_end self.now.lines.now self.now.tokens.now i }
    {
        (text::word(self.lines, i) / 512).min(self.tokens.len())
    }

    // How many tokens line i has.
    pub fn token_count(&self, i: usize) -> usize
        ensures { result ≡ length (line (listing_of self.now) i).tokens }
    {
        self.line_end(i).saturating_sub(self.line_start(i))
    }

    pub fn indent(&self, i: usize) -> usize
        ensures { result ≡ (line (listing_of self.now) i).indent }
    {
        text::word(self.lines, i) % 256
    }

    pub fn address_of(&self, addresses: &[u64], i: usize) -> Option<u64>
        ensures { result ≡ (line (with_addresses self.now.lines.now addresses.now (listing_of self.now)) i).address }
    {
        if i < self.lines.len() && text::word(self.lines, i) / 256 % 2 == 1 {
            addresses.get(i).copied()
        } else {
            None
        }
    }

    // Tokens of a line

    pub fn kind(&self, i: usize, j: usize) -> usize
        ensures { result ≡ (token (line (listing_of self.now) i) j).kind }
    {
        let s = self.line_start(i);
        let e = self.line_end(i);
        if s < e && j < e - s {
            self.token_kind(s + j)
        } else {
            Kind::Text.number()
        }
    }

    // Token j of line i is of this kind.
    pub fn is(&self, i: usize, j: usize, kind: Kind) -> bool
        ensures { result ≡ eqb (token (line (listing_of self.now) i) j).kind (number kind) }
    {
        self.kind(i, j) == kind.number()
    }

    // The text of token j of line i, as a part of the lent text.
    pub fn text_at(&self, i: usize, j: usize) -> &'a [u8]
        ensures { result.now ≡ (token (line (listing_of self.now) i) j).text }
    {
        let s = self.line_start(i);
        let e = self.line_end(i);
        if s < e && j < e - s {
            self.token_text(s + j)
        } else {
            &self.text[..0]
        }
    }
}
