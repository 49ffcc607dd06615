// One code point, as one to four bytes: as it stands in the text, and made of its number.
#![tactic(auto, using(crate::proofs::PointRules::points))]

ghost use Rattle.std.specs.Prelude.{◌≡◌, ◌<◌, get_or};
ghost use Rattle.json_definitions.specs.Strings.{encode, code_point};
ghost use Rattle.json_strings.specs.Answers.{bytes_of, character_of};

use crate::bytes::Bytes;

// Byte k, 0 past the end.
fn byte_at(s: &[u8], k: usize) -> u8
    ensures { result ≡ get_or s.now k 0 }
{
    s.get(k).copied().unwrap_or(0)
}

// The code point at the start. Four bytes are loaded whatever its length is: a copy of n bytes is a call of memcpy, slower than that.
pub fn code_point(s: &[u8]) -> Option<(Bytes, &[u8])>
    ensures { character_of result ≡ code_point s.now }
{
    let n = text::code_point(s, 0);
    if n == 0 {
        return None;
    }
    let (_, rest) = s.split_at(n);
    let all = [byte_at(s, 0), byte_at(s, 1), byte_at(s, 2), byte_at(s, 3)];
    Some((Bytes { n, all }, rest))
}

// The bytes of the code point u. The contract of `char::encode_utf8` doesn't say what it leaves in the buffer.
pub fn encode(u: u64) -> Bytes
    requires { u < 1114112 }
    ensures { bytes_of result ≡ encode u }
{
    let last = 0x80 + (u % 64) as u8;
    if u < 0x80 {
        return Bytes {
            n: 1,
            all: [u as u8, 0, 0, 0],
        };
    }
    if u < 0x800 {
        return Bytes {
            n: 2,
            all: [0xc0 + (u / 64) as u8, last, 0, 0],
        };
    }
    let third = 0x80 + (u / 64 % 64) as u8;
    if u < 0x10000 {
        return Bytes {
            n: 3,
            all: [0xe0 + (u / 4096) as u8, third, last, 0],
        };
    }
    let second = 0x80 + (u / 4096 % 64) as u8;
    Bytes {
        n: 4,
        all: [0xf0 + (u / 262144) as u8, second, third, last],
    }
}
