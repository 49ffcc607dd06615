// What stands around and between the values of document 01's shape: names of members, separators, kinds, addresses.
#![tactic(auto, using(crate::proofs::MemberRules::members))]

ghost use Rattle.std.specs.Prelude.{◌≡◌};
ghost use Rattle.json_definitions.specs.Reader.{member, kind, address};
ghost use Rattle.json_theory.specs.Steps.{separator};
ghost use Rattle.json_scan.specs.Answers.{next_of, number_of};
ghost use Rattle.json_lines.specs.Answers.{address_of, separator_of};

use json_scan::{lexeme, literal, skip_white_space};

// What stands behind an element: "," and one more, or "]".
#[derive(Clone, Copy)]
pub enum Sep {
    More,
    Close,
}

// "{" or ",", the name of a member, and ":".
#[inline(always)] // with the fixed words of each call in it, this is faster
#[tactic(auto, using(crate::proofs::MemberRules::members), unfolding(json_definitions::specs::Reader::member))]
pub fn member<'a>(s: &'a [u8], before: &[u8], name: &[u8]) -> Option<&'a [u8]>
    ensures { next_of result ≡ member before.now name.now s.now }
{
    let s = lexeme(s, before)?;
    let s = lexeme(s, name)?;
    lexeme(s, b":")
}

#[tactic(auto, using(crate::proofs::MemberRules::members), unfolding(json_theory::specs::Steps::separator))]
pub fn separator(s: &[u8]) -> Option<(Sep, &[u8])>
    ensures { separator_of result ≡ separator s.now }
{
    let s = skip_white_space(s);
    if let Some(rest) = literal(s, b"]") {
        return Some((Sep::Close, rest));
    }
    let rest = literal(s, b",")?;
    Some((Sep::More, rest))
}

// The name of a kind, as the kind's number.
#[tactic(auto, using(crate::proofs::MemberRules::members), unfolding(json_definitions::specs::Reader::kind, json_definitions::specs::Reader::one_of))]
pub fn kind(s: &[u8]) -> Option<(u32, &[u8])>
    ensures { number_of result ≡ kind s.now }
{
    let s = skip_white_space(s);
    if let Some(rest) = literal(s, b"\"text\"") {
        return Some((0, rest));
    }
    if let Some(rest) = literal(s, b"\"register\"") {
        return Some((1, rest));
    }
    if let Some(rest) = literal(s, b"\"number\"") {
        return Some((2, rest));
    }
    if let Some(rest) = literal(s, b"\"keyword\"") {
        return Some((3, rest));
    }
    if let Some(rest) = literal(s, b"\"symbol\"") {
        return Some((4, rest));
    }
    if let Some(rest) = literal(s, b"\"address\"") {
        return Some((5, rest));
    }
    if let Some(rest) = literal(s, b"\"punct\"") {
        return Some((6, rest));
    }
    let rest = literal(s, b"\"prefix\"")?;
    Some((7, rest))
}

// null, or a number of 64 bits.
#[tactic(auto, using(crate::proofs::MemberRules::members), unfolding(json_definitions::specs::Reader::address))]
pub fn address(s: &[u8]) -> Option<(Option<u64>, &[u8])>
    ensures { address_of result ≡ address s.now }
{
    if let Some(rest) = lexeme(s, b"null") {
        return Some((None, rest));
    }
    let (v, rest) = json_scan::number(s, u64::MAX)?;
    Some((Some(v), rest))
}
