// The text of a register as a number, and the slot that keeps what was found of it.
ghost use Rattle.std.specs.Prelude.{◌≡◌, ◌<◌, ◌≤◌, length};
ghost use Rattle.memo.specs.Texts.{pack};

// The number of a text, 0 for none, and what was found of it.
#[derive(Clone, Copy)]
pub struct Slot {
    pub text: usize,
    pub place: Option<usize>,
}

// A text of at most 7 bytes as one number.
#[tactic(auto, using(crate::proofs::Packs::packs))]
pub fn pack(s: &[u8]) -> usize
    requires { length s.now ≤ 7 }
    ensures { result ≡ pack s.now }
{
    let mut p = 1;
    for b in s {
        p = p * 256 + usize::from(*b);
    }
    p
}

// The slot of the text whose number is p, by its last bytes: there names differ.
pub fn slot_of(p: usize) -> usize
    ensures { result < 64 }
{
    p % 16777216 * 11617 / 8192 % 64
}
