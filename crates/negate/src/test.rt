// The tokens of a leading test's condition, numbered from 0. Each function takes constant time.
//
// Contracts cite `test_count` and `test_token` of this crate's specs/; without the empty ones these tokens are the condition.
#![tactic(auto, using(crate::proofs::TestTokens::text_cut), unfolding(crate::specs::Tests::test_token))]

ghost use Rattle.std.specs.Prelude.{◌≡◌, ◌-◌, ◌<◌};
ghost use Rattle.definitions.specs.Model.{line};
ghost use Rattle.model.specs.Listings.{listing_of};
ghost use Rattle.negate.specs.Tests.{front, back, test_count, test_token};

use model::listing::Listing;

// How many tokens stand behind the first of line i and before place g.
pub fn test_count(code: &Listing, i: usize, g: usize) -> usize
    ensures { result ≡ test_count (line (listing_of code.now) i) g }
{
    let n = code.token_count(i);
    g.min(n).saturating_sub(1)
}

fn front(k: usize) -> usize
    ensures { result ≡ front k }
{
    if k == 0 { 2 } else { 0 }
}

fn back(m: usize, k: usize) -> usize
    requires { k < m }
    ensures { result ≡ back m k }
{
    if k + 1 == m { 2 } else { 0 }
}

// The kind of token k of the m tokens of the condition.
pub fn test_kind(code: &Listing, i: usize, m: usize, k: usize) -> usize
    requires { k < m }
    ensures { (result ≡ (test_token (line (listing_of code.now) i) m k).kind) × (result < 256) }
{
    code.kind(i, k + 1)
}

// Its text, as a part of the lent text.
pub fn test_text<'a>(code: &Listing<'_, 'a>, i: usize, m: usize, k: usize) -> &'a [u8]
    requires { k < m }
    ensures { result.now ≡ (test_token (line (listing_of code.now) i) m k).text }
{
    let s = code.text_at(i, k + 1);
    text::part(s, front(k), s.len().saturating_sub(back(m, k)))
}
