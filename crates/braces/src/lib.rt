// The braces of a line, in one pass over the words of its tokens and the bytes of its punctuation. Only braces in punct tokens count; a `}` first cancels a `{` earlier on the line.
//
// Contracts cite `brace` and `braces` of Rattle.definitions.specs.Blocks.

#![tactic(auto, using(crate::proofs::Counts::bytes, crate::proofs::Counts::counts))]

ghost use Rattle.std.specs.Prelude.{if◌then◌else◌, ◌≡◌, ◌+◌, ◌≤◌, ◌<◌, eqb, length, get_or};
ghost use Rattle.definitions.specs.Lists.{fold};
ghost use Rattle.definitions.specs.Model.{line, no_token, Punct};
ghost use Rattle.definitions.specs.Blocks.{brace, braces};
ghost use Rattle.model.specs.Listings.{listing_of, tokens_of};
ghost use Rattle.braces.specs.Counted.{counted};

use model::kind::Kind;
use model::listing::Listing;

// How many blocks a line opens that later lines close, and how many it closes that earlier lines opened.
#[derive(Clone, Copy)]
pub struct Braces {
    pub opens: usize,
    pub closes: usize,
}

// One byte more.
fn step(b: Braces, c: u8) -> Braces
    requires { b.opens + b.closes < 18446744073709551615 }
    ensures result_value { counted result ≡ brace (counted b) c }
    ensures closes_bound { result.opens + result.closes ≤ b.opens + b.closes + 1 }
{
    match c {
        b'{' => Braces {
            opens: b.opens + 1,
            ..b
        },
        b'}' => {
            if 0 < b.opens {
                Braces {
                    opens: b.opens - 1,
                    ..b
                }
            } else {
                Braces {
                    closes: b.closes + 1,
                    ..b
                }
            }
        }
        _ => b,
    }
}

// A text more.
fn in_text(s: &[u8], b: Braces) -> Braces
    requires { b.opens + b.closes + length s.now ≤ 18446744073709551615 }
    ensures result_value { counted result ≡ fold brace (counted b) s.now }
    ensures closes_bound { result.opens + result.closes ≤ b.opens + b.closes + length s.now }
{
    let mut r = b;
    for byte in s {
        r = step(r, *byte);
    }
    r
}

// Token k of all more: its kind decides.
fn in_token(code: &Listing, k: usize, b: Braces) -> Braces
    requires { let t = get_or (tokens_of code.now) k no_token in
        b.opens + b.closes + length t.text ≤ 18446744073709551615 }
    ensures result_value { let t = get_or (tokens_of code.now) k no_token in
        counted result ≡ (if eqb t.kind Punct then fold brace (counted b) t.text else counted b) }
    ensures closes_bound { let t = get_or (tokens_of code.now) k no_token in
        result.opens + result.closes ≤ b.opens + b.closes + length t.text }
{
    match Kind::of(code.token_kind(k)) {
        Some(Kind::Punct) => in_text(code.token_text(k), b),
        Some(
            Kind::Text
            | Kind::Register
            | Kind::Number
            | Kind::Keyword
            | Kind::Symbol
            | Kind::Address
            | Kind::Prefix,
        )
        | None => b,
    }
}

// The braces of line i.
pub fn line_braces(code: &Listing, i: usize) -> Braces
    ensures { counted result ≡ braces (line (listing_of code.now) i) }
{
    let s = code.line_start(i);
    let e = code.line_end(i);
    let mut b = Braces {
        opens: 0,
        closes: 0,
    };
    for k in s..e {
        b = in_token(code, k, b);
    }
    b
}
