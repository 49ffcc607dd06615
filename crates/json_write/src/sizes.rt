// How long the text of a listing is: one pass over the lines, one over the tokens, one over the bytes of the text.
//
// Since the tokens cover the text, the bytes are counted without looking where a token ends. Contracts: sizes of specs/Sizes.antt.
#![tactic(auto, using(crate::proofs::SizeRules::sizes))]

ghost use Rattle.std.specs.Prelude.{◌≡◌, ◌+◌, ◌≤◌, ◌<◌, length};
ghost use Rattle.definitions.specs.Model.{line};
ghost use Rattle.model.specs.Listings.{tokens_of};
ghost use Rattle.json_definitions.specs.Writer.{decimal, kind_text, address_text, write};
ghost use Rattle.json_write.specs.Answers.{lines_of};
ghost use Rattle.json_append.specs.Sizes.{total, Sized};
ghost use Rattle.json_write.specs.Sizes.{ends, token_size, head_size, Formed};

use json_append::sizes::text_size;
use model::kind::Kind;
use model::listing::Listing;

// A token, without the bytes of its string.
#[tactic(auto, using(crate::proofs::SizeRules::kind_sized, crate::proofs::SizeRules::other_sized), unfolding(json_definitions::specs::Writer::kind_text))]
fn token_size(kind: usize) -> usize
    ensures { Sized (14 + length (kind_text kind)) 24 result }
{
    match Kind::of(kind) {
        Some(Kind::Text) => 20,
        Some(Kind::Register) => 24,
        Some(Kind::Number) => 22,
        Some(Kind::Keyword) => 23,
        Some(Kind::Symbol) => 22,
        Some(Kind::Address) => 23,
        Some(Kind::Punct) => 21,
        Some(Kind::Prefix) => 22,
        None => 14,
    }
}

fn tokens_size(code: &Listing) -> usize
    requires { length code.now.tokens.now ≤ 16384 }
    ensures { Sized (total token_size (tokens_of code.now)) 393216 result }
{
    let mut n: usize = 0;
    for k in 0..code.tokens.len() {
        n += token_size(code.token_kind(k));
    }
    n
}

fn decimal_size(n: u64) -> usize
    ensures { Sized (length (decimal n)) 20 result }
{
    // A cast: std has no `From` of 32 bits to `usize`.
    n.checked_ilog10().unwrap_or(0) as usize + 1
}

fn address_size(a: Option<u64>) -> usize
    ensures { Sized (length (address_text a)) 20 result }
{
    match a {
        Some(v) => decimal_size(v),
        None => 4,
    }
}

fn ends(n: usize) -> usize
    ensures { Sized (ends n) 2 result }
{
    if n == 0 { 2 } else { 1 }
}

// Line i, without its tokens' texts.
fn head_size(code: &Listing, addresses: &[u64], i: usize) -> usize
    requires { (i < length code.now.lines.now) × (length addresses.now ≡ length code.now.lines.now) }
    ensures { Sized (head_size (line (lines_of code.now.lines.now addresses.now code.now.tokens.now code.now.text.now) i)) 75 result }
{
    let a = address_size(code.address_of(addresses, i));
    // A cast: std has no `From` of `usize` to 64 bits.
    let d = decimal_size(code.indent(i) as u64);
    let e = ends(code.token_count(i));
    33 + a + d + e
}

fn heads_size(code: &Listing, addresses: &[u64]) -> usize
    requires { (length code.now.lines.now ≤ 1024) × (length addresses.now ≡ length code.now.lines.now) }
    ensures { Sized (total head_size (lines_of code.now.lines.now addresses.now code.now.tokens.now code.now.text.now)) 76800 result }
{
    let mut n: usize = 0;
    for i in 0..code.lines.len() {
        n += head_size(code, addresses, i);
    }
    n
}

// The length of the text of the listing.
pub fn listing_size(code: &Listing, addresses: &[u64]) -> usize
    requires { Formed code.now.lines.now addresses.now code.now.tokens.now code.now.text.now }
    ensures { result ≡ length (write (lines_of code.now.lines.now addresses.now code.now.tokens.now code.now.text.now)) }
{
    let h = heads_size(code, addresses);
    let t = tokens_size(code);
    // A cast: std has no `From` of 64 bits to `usize`.
    let x = text_size(code.text) as usize;
    ends(code.lines.len()) + h + t + x
}
