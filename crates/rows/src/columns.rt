// The used part of a column: its first words.
#![tactic(auto, using(crate::proofs::Taken::taken))]

ghost use Rattle.std.specs.Prelude.{◌≡◌, ◌≤◌, length, take};

// The first n items, as many of them as there are.
pub fn first<T>(items: &[T], n: usize) -> &[T]
    ensures result_value { result.now ≡ take n items.now }
    ensures result_in_bounds { length result.now ≤ length items.now }
{
    &items[..n.min(items.len())]
}
