// How long bytes are in a string, without writing it.
//
// Each byte's length is found without a jump, so that the loops take many bytes at a time. Contracts: specs/Sizes.antt.
ghost use Rattle.std.specs.Prelude.{◌≡◌, ◌≤◌, length};
ghost use Rattle.json_definitions.specs.Writer.{characters_text};
ghost use Rattle.json_append.specs.Sizes.{byte_size, Sized};

#[tactic(auto, using(crate::proofs::Sums::byte_sizes))]
fn byte_size(c: u8) -> u8
    ensures { Sized (byte_size c) 6 result }
{
    if c < 0x20 {
        6
    } else if c == b'"' || c == b'\\' {
        2
    } else {
        1
    }
}

// Eight bytes.
#[tactic(auto, using(crate::proofs::Sums::sums))]
pub fn block_size(block: &[u8; 8]) -> u8
    ensures { result ≡ length (characters_text block.now) }
{
    let mut n = 0;
    for c in block {
        n += byte_size(*c);
    }
    n
}

// All bytes.
#[tactic(auto, using(crate::proofs::Sums::sums))]
pub fn text_size(s: &[u8]) -> u32
    requires { length s.now ≤ 262144 }
    ensures { Sized (length (characters_text s.now)) 1572864 result }
{
    let mut n = 0;
    for c in s {
        n += u32::from(byte_size(*c));
    }
    n
}
