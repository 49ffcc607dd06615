// Tokens, into lent columns of tokens and text.
#![tactic(auto, using(crate::proofs::MemberRules::members))]

ghost use Rattle.std.specs.Prelude.{◌≡◌, ◌≤◌, ◌+◌, ◌*◌, ◌-◌, length, take, IfSome};
ghost use Rattle.json_definitions.specs.Parser.{array};
ghost use Rattle.json_definitions.specs.Reader.{token, token_kind};
ghost use Rattle.json_theory.specs.Steps.{items};
ghost use Rattle.json_scan.specs.Answers.{number_of};
ghost use Rattle.json_lines.specs.Answers.{token_of, limited_token};
ghost use Rattle.json_lines.specs.InColumns.{tokens_read};

use crate::members::{Sep, kind, member, separator};
use json_scan::lexeme;
use json_strings::strings::string;

// A token as a word holds it: where its bytes end in the text, and its kind.
#[derive(Clone, Copy)]
pub struct Packed {
    pub end: usize,
    pub kind: u32,
}

// How many tokens and bytes stand in the columns.
#[derive(Clone, Copy)]
pub struct Filled {
    pub tokens: usize,
    pub text: usize,
}

// A token behind its text.
#[tactic(auto, using(crate::proofs::MemberRules::members), unfolding(json_definitions::specs::Reader::token_kind))]
fn token_kind(s: &[u8]) -> Option<(u32, &[u8])>
    ensures { number_of result ≡ token_kind s.now }
{
    let s = member(s, b",", b"\"k\"")?;
    let (v, s) = kind(s)?;
    let s = lexeme(s, b"}")?;
    Some((v, s))
}

// A token, its bytes into the text from place `from` on. What stands before is kept.
#[tactic(auto, using(crate::proofs::MemberRules::members), unfolding(crate::specs::Answers::token_rest))]
fn token<'a>(s: &'a [u8], text: &mut [u8], from: usize) -> Option<(Packed, &'a [u8])>
    requires { from ≤ length text.old }
    ensures result_after { token_of text.new from result ≡ limited_token (length text.old - from) (token s.now) }
    ensures text_unchanged { take from text.new ≡ take from text.old }
    ensures within { IfSome result (λ r. (from ≤ r.0.end) × ((r.0.end ≤ length text.old) × (r.0.kind ≤ 7))) }
{
    let s = member(s, b"{", b"\"t\"")?;
    let (end, s) = string(s, text, from)?;
    let (kind, s) = token_kind(s)?;
    Some((Packed { end, kind }, s))
}

fn token_word(t: Packed) -> u32
    requires { (t.end ≤ 262144) × (t.kind ≤ 7) }
    ensures { result ≡ t.end * 256 + t.kind }
{
    // A cast: an end is at most 262,144, which `TryFrom` would ask again.
    (t.end as u32) * 256 + t.kind
}

// The tokens of an array, from its first element on, behind those that stand in the columns.
fn tokens_from<'a>(
    s: &'a [u8],
    tokens: &mut [u32],
    text: &mut [u8],
    from: Filled,
) -> Option<(Filled, &'a [u8])>
    requires { (from.tokens ≤ length tokens.old) × ((from.text ≤ length text.old) × (length text.old ≤ 262144)) }
    ensures { tokens_read (items token s.now) tokens.old text.old from tokens.new text.new result }
{
    let mut rest = s;
    let mut end = from.text;
    for n in from.tokens..tokens.len() {
        let (t, s) = token(rest, text, end)?;
        tokens[n] = token_word(t);
        end = t.end;
        let (separator, s) = separator(s)?;
        match separator {
            Sep::Close => {
                let tokens = n + 1;
                return Some((Filled { tokens, text: end }, s));
            }
            Sep::More => {
                rest = s;
            }
        }
    }
    None
}

// An array of tokens, behind those that stand in the columns.
pub fn token_array<'a>(
    s: &'a [u8],
    tokens: &mut [u32],
    text: &mut [u8],
    from: Filled,
) -> Option<(Filled, &'a [u8])>
    requires { (from.tokens ≤ length tokens.old) × ((from.text ≤ length text.old) × (length text.old ≤ 262144)) }
    ensures { tokens_read (array token s.now) tokens.old text.old from tokens.new text.new result }
{
    let s = lexeme(s, b"[")?;
    if let Some(s) = lexeme(s, b"]") {
        return Some((from, s));
    }
    tokens_from(s, tokens, text, from)
}
