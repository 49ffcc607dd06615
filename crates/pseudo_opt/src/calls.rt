// The call that a line performs: each token is looked at once, and at most six bytes of its text.
//
// Contracts cite `is_callee` and `call_at` of Rattle.definitions.specs.Statements.

#![tactic(auto, using(crate::proofs::Callees::line_callees))]

ghost use Rattle.std.specs.Prelude.{◌≡◌, ◌&&◌, ◌+◌, eqb, get_or};
ghost use Rattle.definitions.specs.Lists.{starts_with, ascii};
ghost use Rattle.definitions.specs.Model.{line, no_token, Punct};
ghost use Rattle.definitions.specs.Statements.{is_callee, call_at};
ghost use Rattle.model.specs.Listings.{listing_of, tokens_of};

use model::kind::Kind;
use model::listing::Listing;

// Token k of all opens a list of arguments.
fn opens_arguments(code: &Listing, k: usize) -> bool
    ensures { let t = get_or (tokens_of code.now) k no_token in
        result ≡ (eqb t.kind Punct && starts_with (ascii "(") t.text) }
{
    code.token_is(k, Kind::Punct) && text::starts_with(code.token_text(k), b"(")
}

// Token k of all is called, with token m behind it. Inlined, so that a token of another kind costs no call.
#[inline(always)]
fn is_callee(code: &Listing, k: usize, m: usize) -> bool
    ensures { let t = tokens_of code.now in
        result ≡ is_callee (get_or t k no_token) (get_or t m no_token) }
{
    match Kind::of(code.token_kind(k)) {
        Some(Kind::Symbol) => opens_arguments(code, m),
        Some(Kind::Keyword) => text::starts_with(code.token_text(k), b"((void"),
        Some(
            Kind::Text | Kind::Register | Kind::Number | Kind::Address | Kind::Punct | Kind::Prefix,
        )
        | None => false,
    }
}

// The place of the callee where line i calls. The tokens are taken by their places among all, for speed: the line is looked up once.
pub fn call_at(code: &Listing, i: usize) -> Option<usize>
    ensures { result ≡ call_at (line (listing_of code.now) i) }
{
    let s = code.line_start(i);
    let e = code.line_end(i);
    let n = e.saturating_sub(s);
    for j in 1..n {
        if is_callee(code, s + (j - 1), s + j) {
            return Some(j - 1);
        }
    }
    None
}
