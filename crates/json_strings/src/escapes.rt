// What stands behind a backslash.
#![tactic(auto, using(crate::proofs::EscapeRules::escapes), unfolding(json_definitions::specs::Strings::hex_4))]

ghost use Rattle.std.specs.Prelude.{◌≡◌, ◌≢◌, ◌≤◌, ◌<◌, IfSome, SomeIff};
ghost use Rattle.json_definitions.specs.Strings.{hex_digit, hex_4, low_surrogate, code_unit, short_escape, escape};
ghost use Rattle.json_scan.specs.Answers.{number_of};
ghost use Rattle.json_strings.specs.Answers.{character_of};

use crate::bytes::Bytes;
use crate::points::encode;

fn hex_digit(s: &[u8]) -> Option<(u32, &[u8])>
    ensures value { number_of result ≡ hex_digit s.now }
    ensures small { IfSome result (λ r. r.0 < 16) }
{
    let (c, rest) = s.split_first()?;
    let v = char::from(*c).to_digit(16)?;
    Some((v, rest))
}

#[inline(always)] // read at one place in the loop over characters, mostly
fn hex_4(s: &[u8]) -> Option<(u32, &[u8])>
    ensures value { number_of result ≡ hex_4 s.now }
    ensures small { IfSome result (λ r. r.0 < 65536) }
{
    // One test in place of the four of `hex_digit`, for speed.
    if s.len() < 4 {
        return None;
    }
    let (a, s) = hex_digit(s)?;
    let (b, s) = hex_digit(s)?;
    let (c, s) = hex_digit(s)?;
    let (d, s) = hex_digit(s)?;
    Some((a * 4096 + b * 256 + c * 16 + d, s))
}

// The code point of the surrogates u and w.
fn low_surrogate(s: &[u8], u: u32, w: u32) -> Option<(Bytes, &[u8])>
    requires { (55296 ≤ u) × (u ≤ 56319) }
    ensures { character_of result ≡ low_surrogate u w s.now }
{
    match w {
        0xdc00..=0xdfff => Some((
            encode(u64::from(0x10000 + (u - 0xd800) * 1024 + (w - 0xdc00))),
            s,
        )),
        _ => None,
    }
}

// What \u and the number u stand for.
fn code_unit(s: &[u8], u: u32) -> Option<(Bytes, &[u8])>
    requires { u < 65536 }
    ensures { character_of result ≡ code_unit u s.now }
{
    match u {
        0xd800..=0xdbff => {
            let s = json_scan::literal(s, b"\\u")?;
            let (w, s) = hex_4(s)?;
            low_surrogate(s, u, w)
        }
        0xdc00..=0xdfff => None,
        _ => Some((encode(u64::from(u)), s)),
    }
}

#[tactic(auto, using(std::proofs::lemmas::Bool::Decides::nat_tests), unfolding(json_definitions::specs::Strings::short_escape))]
fn short_escape(c: u8) -> Option<u8>
    ensures { SomeIff result (short_escape c ≢ 0) (short_escape c) }
{
    match c {
        b'"' | b'\\' | b'/' => Some(c),
        b'b' => Some(0x08),
        b'f' => Some(0x0c),
        b'n' => Some(b'\n'),
        b'r' => Some(b'\r'),
        b't' => Some(b'\t'),
        _ => None,
    }
}

// What stands behind a backslash.
pub fn escape(s: &[u8]) -> Option<(Bytes, &[u8])>
    ensures { character_of result ≡ escape s.now }
{
    let (c, rest) = s.split_first()?;
    if *c == b'u' {
        let (u, rest) = hex_4(rest)?;
        return code_unit(rest, u);
    }
    let v = short_escape(*c)?;
    Some((
        Bytes {
            n: 1,
            all: [v, 0, 0, 0],
        },
        rest,
    ))
}
