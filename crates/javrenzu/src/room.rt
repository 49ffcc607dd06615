// The large arrays, each zero. A caller knows an array by its name in specs/Room.antt, and not element by element.
ghost use Rattle.std.specs.Prelude.{◌≡◌, length};
ghost use Rattle.javrenzu.specs.Room.{zeros};

use text::Unsigned;

#[tactic(auto, unfolding(crate::specs::Room::zeros))]
pub fn zeros<T: Copy + Unsigned, const N: usize>() -> [T; N]
    ensures value { result ≡ zeros N T.ZERO }
    ensures value_2 { N ≡ length result }
{
    [T::ZERO; N]
}
