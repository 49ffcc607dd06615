// The condition after a keyword. An answer says which tokens it is made of and how many bytes they lose; nothing is copied. The texts of
// keyword tokens are compared up to the first match, then two bytes of the next token and three of the last.
//
// Contracts cite `condition` and `closing` of Rattle.definitions.specs.Condition; `conditional` of this crate's specs/ says which condition
// an answer is.

#![tactic(auto, using(crate::proofs::Conditions::conditions, crate::proofs::Opened::opened))]

ghost use Rattle.std.specs.Prelude.{◌≡◌, ◌-◌, ◌≤◌, length, IfSome};
ghost use Rattle.definitions.specs.Lists.{starts_with, ascii};
ghost use Rattle.definitions.specs.Model.{token, line};
ghost use Rattle.definitions.specs.Condition.{closing, condition};
ghost use Rattle.model.specs.Listings.{listing_of};
ghost use Rattle.condition.specs.Conditions.{conditional, Within};

use model::listing::Listing;
use pseudo_opt::keywords::keyword_at;

// A condition: the tokens behind the one at place `keyword`, the first without its ` (`, the last without `end` bytes; empty ones do not count.
#[derive(Clone, Copy)]
pub struct Cut {
    pub keyword: usize,
    pub end: usize,
}

fn opens(code: &Listing, i: usize, k: usize) -> bool
    ensures { let l = line (listing_of code.now) i in
        result ≡ starts_with (ascii " (") (token l k).text }
{
    text::starts_with(code.text_at(i, k), b" (")
}

// How many bytes the text loses at its end, where it closes a condition.
fn closing(s: &[u8]) -> Option<usize>
    ensures value { result ≡ closing s.now }
    ensures within { IfSome result (λ n. n ≤ length s.now) }
{
    if text::ends_with(s, b") {") {
        return Some(3);
    }
    if text::ends_with(s, b");") {
        return Some(2);
    }
    None
}

// The same of the last token of line i, where it has n tokens.
fn closes(code: &Listing, i: usize, n: usize) -> Option<usize>
    ensures value { result ≡ closing (token (line (listing_of code.now) i) (n - 1)).text }
    ensures within { IfSome result (λ z. z ≤ length (token (line (listing_of code.now) i) (n - 1)).text) }
{
    closing(code.text_at(i, n.saturating_sub(1)))
}

// The condition after the first keyword kw of line i. The bytes that are cut off stand there.
pub fn condition(code: &Listing, i: usize, kw: &[u8]) -> Option<Cut>
    ensures value { let l = line (listing_of code.now) i in
        conditional l result ≡ condition l kw.now }
    ensures within { Within (line (listing_of code.now) i) result }
{
    let k = keyword_at(code, i, kw)?;
    let n = code.token_count(i);
    if n.saturating_sub(1) <= k {
        return None;
    }
    if opens(code, i, k + 1) {
        let end = closes(code, i, n)?;
        return Some(Cut { keyword: k, end });
    }
    None
}
