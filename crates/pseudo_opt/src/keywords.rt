// Keywords of a line. `is_kw` takes time linear in the token, the others one look at the word of each token and at the bytes of keywords.
//
// Contracts cite `is_kw` and `has_kw` of Rattle.definitions.specs.Statements.

#![tactic(auto, using(crate::proofs::Passes::passes, crate::proofs::Passes::seeks), unfolding(definitions::specs::Statements::has_kw))]

ghost use Rattle.std.specs.Prelude.{◌≡◌, get_or};
ghost use Rattle.definitions.specs.Lists.{position};
ghost use Rattle.definitions.specs.Model.{token, line, no_token};
ghost use Rattle.definitions.specs.Statements.{is_kw, has_kw};
ghost use Rattle.model.specs.Listings.{listing_of, tokens_of};

use model::kind::Kind;
use model::listing::Listing;

// Token j of line i is the keyword kw.
pub fn is_kw(code: &Listing, i: usize, j: usize, kw: &[u8]) -> bool
    ensures { let l = line (listing_of code.now) i in
        result ≡ is_kw kw.now (token l j) }
{
    code.is(i, j, Kind::Keyword) && text::equal(code.text_at(i, j), kw)
}

// Token k of all is the keyword kw. Inlined, so that a token of another kind costs no call.
#[inline(always)]
fn kw_at(code: &Listing, k: usize, kw: &[u8]) -> bool
    ensures { result ≡ is_kw kw.now (get_or (tokens_of code.now) k no_token) }
{
    code.token_is(k, Kind::Keyword) && text::equal(code.token_text(k), kw)
}

// Line i has the keyword kw.
pub fn has_kw(code: &Listing, i: usize, kw: &[u8]) -> bool
    ensures { result ≡ has_kw (line (listing_of code.now) i) kw.now }
{
    let s = code.line_start(i);
    let e = code.line_end(i);
    for k in s..e {
        if kw_at(code, k, kw) {
            return true;
        }
    }
    false
}

// The place of the first keyword kw of line i.
pub fn keyword_at(code: &Listing, i: usize, kw: &[u8]) -> Option<usize>
    ensures { let l = line (listing_of code.now) i in
        result ≡ position (is_kw kw.now) l.tokens }
{
    let s = code.line_start(i);
    let e = code.line_end(i);
    for k in s..e {
        if kw_at(code, k, kw) {
            return Some(k - s);
        }
    }
    None
}
