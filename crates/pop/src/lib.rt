// A text without its last code point. It takes time linear in the bytes of that code point, and copies nothing.
//
// The contract cites `pop` of Rattle.definitions.specs.ToFor.

#![tactic(auto, using(crate::proofs::LastCodePoint::last))]

ghost use Rattle.std.specs.Prelude.{◌≡◌, ◌≤◌, length, take};
ghost use Rattle.definitions.specs.ToFor.{pop};

// How many bytes a text has without its last code point.
pub fn popped_length(s: &[u8]) -> usize
    ensures { (take result s.now ≡ pop s.now) × (result ≤ length s.now) }
{
    for n in (0..s.len()).rev() {
        let b = s[n];
        if b < 128 || 192 <= b {
            return n;
        }
    }
    0
}
