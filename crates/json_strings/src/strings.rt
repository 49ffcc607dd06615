// Strings, into lent text.
#![tactic(auto, using(crate::proofs::StringRules::points_read))]

ghost use Rattle.std.specs.Prelude.{◌≡◌, not, ◌&&◌, ◌+◌, ◌-◌, ◌≤◌, leb, ltb, eqb, length, take, IfSome};
ghost use Rattle.std.proofs.lemmas.List.Edits.{sets};
ghost use Rattle.json_definitions.specs.Strings.{character, string};
ghost use Rattle.json_theory.specs.Steps.{up_to_quote};
ghost use Rattle.json_strings.specs.Answers.{bytes_of, character_of, string_of, limited};

use crate::bytes::Bytes;
use crate::escapes::escape;
use crate::points::code_point;

// One code point of a string.
fn character(s: &[u8]) -> Option<(Bytes, &[u8])>
    ensures { character_of result ≡ character s.now }
{
    let (c, rest) = s.split_first()?;
    match *c {
        b'\\' => escape(rest),
        0..0x20 => None,
        _ => code_point(s),
    }
}

// Stores the bytes of a code point at place `to`, one by one: a copy of a length that only a run tells is a call of memcpy, slower than that.
fn put(text: &mut [u8], to: usize, point: Bytes)
    requires { to + length (bytes_of point) ≤ length text.old }
    ensures { text.new ≡ sets text.old to (bytes_of point) }
{
    match point.as_slice() {
        [] => {}
        [a] => text[to] = *a,
        [a, b] => {
            text[to] = *a;
            text[to + 1] = *b;
        }
        [a, b, c] => {
            text[to] = *a;
            text[to + 1] = *b;
            text[to + 2] = *c;
        }
        [a, b, c, d, ..] => {
            text[to] = *a;
            text[to + 1] = *b;
            text[to + 2] = *c;
            text[to + 3] = *d;
        }
    }
}

// A byte that stands for itself, a quote aside.
fn is_plain(c: u8) -> bool
    ensures { result ≡ (leb 32 c && (ltb c 128 && not (eqb c 92))) }
{
    0x20 <= c && c < 0x80 && c != b'\\'
}

// The characters up to a quote, into the text from place `from` on: where they end there, and what is left behind the quote.
fn characters<'a>(s: &'a [u8], text: &mut [u8], from: usize) -> Option<(usize, &'a [u8])>
    requires { from ≤ length text.old }
    ensures result_after { string_of text.new from result ≡ limited (length text.old - from) (up_to_quote s.now) }
    ensures text_unchanged { take from text.new ≡ take from text.old }
    ensures within { IfSome result (λ r. (from ≤ r.0) × (r.0 ≤ length text.old)) }
{
    let mut rest = s;
    let mut to = from;
    while let Some((c, tail)) = rest.split_first() {
        if *c == b'"' {
            return Some((to, tail));
        }
        if is_plain(*c) {
            if text.len() <= to {
                return None;
            }
            text[to] = *c;
            to += 1;
            rest = tail;
        } else {
            let (p, behind) = character(rest)?;
            let bytes = p.as_slice();
            if text.len() - to < bytes.len() {
                return None;
            }
            put(text, to, p);
            to += bytes.len();
            rest = behind;
        }
    }
    None
}

// A string, into the text from place `from` on: where it ends there, and what is left behind it. What stands before is kept.
pub fn string<'a>(s: &'a [u8], text: &mut [u8], from: usize) -> Option<(usize, &'a [u8])>
    requires { from ≤ length text.old }
    ensures result_after { string_of text.new from result ≡ limited (length text.old - from) (string s.now) }
    ensures text_unchanged { take from text.new ≡ take from text.old }
    ensures within { IfSome result (λ r. (from ≤ r.0) × (r.0 ≤ length text.old)) }
{
    let s = json_scan::lexeme(s, b"\"")?;
    characters(s, text, from)
}
