// The table of the legacy names: `LEGACY` of pseudo_opt.rs, and the place of a name in it.
//
// A look-up compares the text with one name, which its hash gives. Contracts cite `legacy` of Rattle.definitions.specs.Family by way of
// specs/Table.antt.

#![tactic(auto)]

ghost use Rattle.std.specs.Prelude.{◌≡◌, [], ◌∷◌, ℕ, ◌<◌, IfSome};
ghost use Rattle.definitions.specs.Lists.{◌≟◌, position};
ghost use Rattle.legacy.specs.Table.{letters, all_names, name_at, hash, row_name};

use text::byte;

// Row by row, a row being a family, a column a width; the last row is the 8 bits above those of `al`, `bl`, `cl` and `dl`. A name of two letters
// is filled up with a 0.
const NAMES: [[u8; 3]; 36] = [
    *b"rax", *b"eax", *b"ax\0", *b"al\0", *b"rbx", *b"ebx", *b"bx\0", *b"bl\0", *b"rcx", *b"ecx",
    *b"cx\0", *b"cl\0", *b"rdx", *b"edx", *b"dx\0", *b"dl\0", *b"rsi", *b"esi", *b"si\0", *b"sil",
    *b"rdi", *b"edi", *b"di\0", *b"dil", *b"rbp", *b"ebp", *b"bp\0", *b"bpl", *b"rsp", *b"esp",
    *b"sp\0", *b"spl", *b"ah\0", *b"bh\0", *b"ch\0", *b"dh\0",
];

// The text is these two bytes.
#[tactic(auto, using(crate::proofs::Table::two))]
fn is_two(s: &[u8], a: u8, b: u8) -> bool
    ensures { result ≡ (s.now ≟ a ∷ b ∷ []) }
{
    match s {
        [x, y] => *x == a && *y == b,
        _ => false,
    }
}

// The text is these three bytes.
#[tactic(auto, using(crate::proofs::Table::three))]
fn is_three(s: &[u8], a: u8, b: u8, c: u8) -> bool
    ensures { result ≡ (s.now ≟ a ∷ b ∷ c ∷ []) }
{
    match s {
        [x, rest @ ..] => *x == a && is_two(rest, b, c),
        [] => false,
    }
}

// The text is the name in a cell of the table. Byte by byte, for speed: to compare a part of the cell the table would be copied to memory.
#[tactic(auto, using(crate::proofs::Table::cells))]
fn is_name(cell: [u8; 3], s: &[u8]) -> bool
    ensures { result ≡ (s.now ≟ letters cell) }
{
    if cell[2] == 0 {
        is_two(s, cell[0], cell[1])
    } else {
        is_three(s, cell[0], cell[1], cell[2])
    }
}

// The text is the name at place p of the table.
fn is_at(p: usize, s: &[u8]) -> bool
    requires { p < 36 }
    ensures { result ≡ (s.now ≟ name_at p) }
{
    let table = NAMES;
    is_name(table[p], s)
}

// The name is that of the family in row i.
pub fn is_row(i: usize, name: &[u8]) -> bool
    requires { i < 8 }
    ensures { result ≡ (name.now ≟ row_name i) }
{
    let table = NAMES;
    is_name(table[4 * i], name)
}

fn hash(s: &[u8]) -> usize
    ensures { (result ≡ hash s.now) × (result < 64) }
{
    (20 * byte(s, 0) + 7 * byte(s, 1) + 12 * byte(s, 2)) / 4 % 64
}

// The place of the only name that may have the hash h. The bytes have the place of a name in the table, row by row, at the name's hash,
// counted from `0` on; no two names have one hash, and where none has it stands any place. They are read where they stand: a constant array
// would be copied at each call.
fn place_of(h: usize) -> usize
    requires { h < 64 }
    ensures { (result < 36) × ((q : ℕ) → q < 36 → hash (name_at q) ≡ h → result ≡ q) }
{
    byte(
        b"0:0N01>O02105498=<ML0101010P0101Q03EDR0701SF;0JG0?K0IHB201C06A@0",
        h,
    ) - 48
}

// The place of a name in the table.
pub fn place(s: &[u8]) -> Option<usize>
    ensures found { result ≡ position (s.now ≟◌) all_names }
    ensures below { IfSome result (λ p. p < 36) }
{
    let p = place_of(hash(s));
    if is_at(p, s) { Some(p) } else { None }
}
