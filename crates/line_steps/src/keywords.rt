// What a line is for the flow graph, by its keywords and braces: an else-close, a loop or a switch, a case. A line without the keyword takes
// constant time, an else-close time linear in the line's tokens and in the bytes of its punctuation.
//
// Contracts cite `is_else_close`, `is_loop`, `is_switch` and `is_case` of Rattle.definitions.specs.FlowGraph.
ghost use Rattle.std.specs.Prelude.{◌≡◌, ◌&&◌, ◌||◌, eqb, get_or};
ghost use Rattle.definitions.specs.Lists.{any, contains};
ghost use Rattle.definitions.specs.Model.{line, no_token, Punct};
ghost use Rattle.definitions.specs.FlowGraph.{is_else_close, is_loop, is_switch, is_case};
ghost use Rattle.model.specs.Listings.{listing_of, tokens_of};

use line_keywords::Keywords;
use model::kind::Kind;
use model::listing::Listing;
use pseudo_opt::keywords::is_kw;

// Token k of all is a punct that contains `}`.
#[inline(always)]
#[tactic(auto, using(text::proofs::Bools::bools, crate::proofs::Tests::contains_of))]
fn is_close(code: &Listing, k: usize) -> bool
    ensures { let t = get_or (tokens_of code.now) k no_token in
        result ≡ (eqb t.kind Punct && contains 125 t.text) }
{
    code.token_is(k, Kind::Punct) && text::contains(code.token_text(k), b'}')
}

// By the tokens' places among all, and not by those in the line, from which the line's start and end would be read for each.
#[tactic(auto, using(pseudo_opt::proofs::Passes::passes))]
fn has_close(code: &Listing, i: usize) -> bool
    ensures { let L = listing_of code.now in
        result ≡ any (λ t. eqb t.kind Punct && contains 125 t.text) (line L i).tokens }
{
    let s = code.line_start(i);
    let e = code.line_end(i);
    for k in s..e {
        if is_close(code, k) {
            return true;
        }
    }
    false
}

pub fn is_else_close(keywords: &Keywords, i: usize) -> bool
    ensures { result ≡ is_else_close (line (listing_of keywords.now.code) i) }
{
    keywords.has_else(i) && has_close(&keywords.code, i)
}

// A loop or a switch: what a break or continue leaves.
pub fn is_left(keywords: &Keywords, i: usize) -> bool
    ensures { let L = listing_of keywords.now.code in
        result ≡ (is_loop (line L i) || is_switch (line L i)) }
{
    keywords.is_loop(i) || keywords.is_switch(i)
}

// Line i starts with a case or default.
fn starts_case(code: &Listing, i: usize) -> bool
    ensures { result ≡ is_case (line (listing_of code.now) i) }
{
    is_kw(code, i, 0, b"case") || is_kw(code, i, 0, b"default")
}

// The same, asked only of a line that has a case or default.
pub fn is_case(keywords: &Keywords, i: usize) -> bool
    ensures { result ≡ is_case (line (listing_of keywords.now.code) i) }
{
    keywords.has_case(i) && starts_case(&keywords.code, i)
}
