// Strings.
#![tactic(auto, using(crate::proofs::StringRules::strings))]

ghost use Rattle.std.specs.Prelude.{◌≡◌, ◌&&◌, not, ◌<◌, ◌≤◌, eqb, leb, length};
ghost use Rattle.json_definitions.specs.Writer.{hex_letter, escaped, characters_text};
ghost use Rattle.json_append.specs.Appended.{Plain};

use crate::sizes::block_size;
use crate::writer::Writer;

// A byte that is written as it stands.
fn is_plain(c: u8) -> bool
    ensures { result ≡ (not (eqb c 34) && (not (eqb c 92) && leb 32 c)) }
{
    c != 0x22 && c != 0x5c && 0x20 <= c
}

// What is left behind the blocks of eight bytes at the start that are written as they stand.
fn skip_plain_blocks(s: &[u8]) -> &[u8]
    ensures { Plain s.now result.now }
{
    let mut rest = s;
    while let Some((block, tail)) = rest.split_first_chunk::<8>() {
        if block_size(block) != 8 {
            break;
        }
        rest = tail;
    }
    rest
}

#[tactic(auto, unfolding(json_definitions::specs::Writer::hex_letter))]
fn hex_letter(d: u8) -> u8
    requires { d < 16 }
    ensures { result ≡ hex_letter d }
{
    if d < 10 { b'0' + d } else { b'a' + (d - 10) }
}

impl Writer<'_> {
    ghost use Rattle.json_append.specs.Appended.{Wrote, Begun};

    // One byte of a string.
    fn put_character(&mut self, c: u8)
        ensures { Wrote self.old (escaped c) self.new }
    {
        if c == b'"' || c == b'\\' {
            self.put(&[b'\\', c]);
        } else if c < 0x20 {
            self.put(b"\\u00");
            self.put(&[hex_letter(c / 16), hex_letter(c % 16)]);
        } else {
            self.put_byte(c);
        }
    }

    // The blocks of eight bytes at the start that are written as they stand. What is left behind them is the answer.
    fn put_plain_blocks<'a>(&mut self, s: &'a [u8]) -> &'a [u8]
        ensures begun { Begun self.old (characters_text s.now) self.new (characters_text result.now) }
        ensures shorter { length result.now ≤ length s.now }
    {
        // For speed, no block is looked at where the first byte tells that it is none.
        if s.len() < 8 || !is_plain(s[0]) {
            return s;
        }
        let rest = skip_plain_blocks(s);
        self.put(&s[..s.len() - rest.len()]);
        rest
    }

    // The bytes at the start that are written as they stand. What is left behind them is the answer.
    fn put_plain<'a>(&mut self, s: &'a [u8]) -> &'a [u8]
        ensures begun { Begun self.old (characters_text s.now) self.new (characters_text result.now) }
        ensures shorter { length result.now ≤ length s.now }
    {
        let mut rest = self.put_plain_blocks(s);
        while let Some((c, tail)) = rest.split_first() {
            if !is_plain(*c) {
                break;
            }
            self.put_byte(*c);
            rest = tail;
        }
        rest
    }

    // The bytes of a string, by runs of bytes that are written as they stand.
    pub fn put_characters(&mut self, s: &[u8])
        ensures { Wrote self.old (characters_text s.now) self.new }
    {
        // A `loop`, so that `put_plain` is called at one place and is part of this function.
        let mut rest = s;
        loop {
            rest = self.put_plain(rest);
            let Some((c, tail)) = rest.split_first() else {
                return;
            };
            self.put_character(*c);
            rest = tail;
        }
    }
}
