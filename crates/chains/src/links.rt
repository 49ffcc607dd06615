// What the word of a token in a chain says. Constant time.
//
// Contracts cite the word itself; `line_of_word` and `next_of_word` of proofs/Walk say what these are.
ghost use Rattle.std.specs.Prelude.{◌≡◌, ◌/◌, ◌%◌, get_or};

// The line of the token at place p.
pub fn line_at(numbers: &[u32], p: usize) -> usize
    ensures { result ≡ get_or numbers.now p 0 / 32768 % 65536 }
{
    text::word(numbers, p) / 32768 % 65536
}

// The place of the next token of its family.
pub fn next_at(numbers: &[u32], p: usize) -> usize
    ensures { result ≡ get_or numbers.now p 0 % 32768 }
{
    text::word(numbers, p) % 32768
}
