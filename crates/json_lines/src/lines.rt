// One line: its tokens into lent columns, its address and indent as an answer.
#![tactic(auto, using(crate::proofs::MemberRules::members))]

ghost use Rattle.std.specs.Prelude.{◌≡◌, ◌≤◌, length};
ghost use Rattle.json_definitions.specs.Reader.{line_indent, head, line};
ghost use Rattle.json_scan.specs.Answers.{number_of};
ghost use Rattle.json_lines.specs.Answers.{head_of};
ghost use Rattle.json_lines.specs.InColumns.{line_read, low_word};

use crate::members::{address, member};
use crate::tokens::{Filled, token_array};
use json_scan::{lexeme, number};

// A line up to its tokens.
#[derive(Clone, Copy)]
pub struct Top {
    pub address: Option<u64>,
    pub indent: u64,
}

// What stands in the columns behind a line, the low part of the line's word, and its address word.
#[derive(Clone, Copy)]
pub struct Row {
    pub filled: Filled,
    pub low: u64,
    pub address: u64,
}

#[tactic(auto, using(crate::proofs::MemberRules::members), unfolding(json_definitions::specs::Reader::line_indent))]
fn line_indent(s: &[u8]) -> Option<(u64, &[u8])>
    ensures { number_of result ≡ line_indent s.now }
{
    let s = member(s, b",", b"\"indent\"")?;
    let (v, s) = number(s, 255)?;
    let s = member(s, b",", b"\"tokens\"")?;
    Some((v, s))
}

#[tactic(auto, using(crate::proofs::MemberRules::members), unfolding(json_definitions::specs::Reader::head))]
fn head(s: &[u8]) -> Option<(Top, &[u8])>
    ensures { head_of result ≡ head s.now }
{
    let s = member(s, b"{", b"\"address\"")?;
    let (address, s) = address(s)?;
    let (indent, s) = line_indent(s)?;
    Some((Top { address, indent }, s))
}

fn low_word(a: Option<u64>, indent: u64) -> u64
    requires { indent ≤ 255 }
    ensures { result ≡ low_word a indent }
{
    match a {
        Some(_) => 256 + indent,
        None => indent,
    }
}

// A line, its tokens behind those that stand in the columns.
pub fn line<'a>(
    s: &'a [u8],
    tokens: &mut [u32],
    text: &mut [u8],
    from: Filled,
) -> Option<(Row, &'a [u8])>
    requires { (from.tokens ≤ length tokens.old) × ((from.text ≤ length text.old) × (length text.old ≤ 262144)) }
    ensures { line_read (line s.now) tokens.old text.old from tokens.new text.new result }
{
    let (top, s) = head(s)?;
    let (filled, s) = token_array(s, tokens, text, from)?;
    let s = lexeme(s, b"}")?;
    let row = Row {
        filled,
        low: low_word(top.address, top.indent),
        address: top.address.unwrap_or(0),
    };
    Some((row, s))
}
