// Registers: `family` and `fam_of` of pseudo_opt.rs. An answer is a `Register`: it holds no text, so family names are compared where they
// stand, in the table or in the text that was looked up.
//
// A look-up compares the text with one name, which its hash gives, and scans no byte behind the token's text; a test on an answer compares
// at most one name.
//
// Contracts cite `family`, `fam_of` and `names` of Rattle.definitions.specs.Family; `family_of` of this crate's specs/ says which family an
// answer gives a text.

#![tactic(auto, using(crate::proofs::FamilyNames::name_rules))]

ghost use Rattle.std.specs.Prelude.{◌≡◌, false, ℕ, ◌+◌, ◌<◌, eqb, [], ◌∷◌, drop};
ghost use Rattle.definitions.specs.Lists.{◌≟◌};
ghost use Rattle.definitions.specs.Model.{tok};
ghost use Rattle.definitions.specs.Family.{suffix_width, is_numbered, numbered_family, family, fam_of};
ghost use Rattle.legacy.specs.Table.{row_name};
ghost use Rattle.family.specs.Register.{digit_count, number_end, family_of, rest_family, row, own_name, same_name, names_family, named, is_var_family, is_wide};

use legacy::{is_row, place};
use model::kind::Kind;
use text::wide_byte;

#[derive(Clone, Copy)]
pub enum Register {
    // The row of the table, and the width in bits.
    Legacy { row: usize, width: usize },
    // How many bytes of the text the family's name is, and the width.
    Numbered { length: usize, width: usize },
    // The whole text is the family's name; the width is 64.
    Var,
}

const WIDTHS: [u8; 4] = [64, 32, 16, 8];

// The place behind the digits that follow the first byte.
#[tactic(auto, using(crate::proofs::Digits::digit_rules))]
fn digits_end(s: &[u8]) -> usize
    ensures { result ≡ 1 + digit_count (drop 1 s.now) }
{
    for i in 1..s.len() {
        if s[i] < b'0' || b'9' < s[i] {
            return i;
        }
    }
    s.len().max(1)
}

// The place behind `r` and digits at the start, at most 1 where no digit follows an `r` there.
#[tactic(auto, using(text::proofs::Bools::bools))]
fn number_end(s: &[u8]) -> usize
    ensures { result ≡ number_end s.now }
{
    if text::starts_with(s, b"r") {
        digits_end(s)
    } else {
        0
    }
}

// The width that the letter behind the digits says.
#[tactic(auto, using(crate::proofs::Digits::suffixes))]
fn letter_width(letter: u8) -> Option<usize>
    ensures { result ≡ suffix_width (letter ∷ []) }
{
    match letter {
        b'd' => Some(32),
        b'w' => Some(16),
        b'b' | b'l' => Some(8),
        _ => None,
    }
}

// The width that what follows the digits says.
#[tactic(auto, using(crate::proofs::Digits::suffixes))]
fn suffix_width(s: &[u8]) -> Option<usize>
    ensures { result ≡ suffix_width s.now }
{
    match s {
        [] => Some(64),
        [letter] => letter_width(*letter),
        _ => None,
    }
}

// A name that starts with `r` and digits, n bytes of it.
#[tactic(auto, using(crate::proofs::Digits::digit_rules))]
fn numbered(s: &[u8], n: usize) -> Option<Register>
    requires { (n ≡ number_end s.now) × (1 < n) }
    ensures { family_of s.now result ≡ numbered_family s.now }
{
    let width = suffix_width(text::part(s, n, s.len()))?;
    Some(Register::Numbered { length: n, width })
}

// A name that is neither numbered nor in the table.
#[tactic(auto, using(crate::proofs::Digits::digit_rules))]
fn other(s: &[u8]) -> Option<Register>
    requires { is_numbered s.now ≡ false }
    ensures { family_of s.now result ≡ rest_family s.now }
{
    if text::starts_with(s, b"var_") {
        Some(Register::Var)
    } else {
        None
    }
}

// A name that is not numbered.
#[tactic(auto, using(crate::proofs::Places::place_rules))]
fn named(s: &[u8]) -> Option<Register>
    requires { is_numbered s.now ≡ false }
    ensures { family_of s.now result ≡ family s.now }
{
    let Some(p) = place(s) else {
        return other(s);
    };
    if p < 32 {
        Some(Register::Legacy {
            row: p / 4,
            width: wide_byte(WIDTHS[p % 4]),
        })
    } else {
        Some(Register::Legacy {
            row: p - 32,
            width: 8,
        })
    }
}

// The family and the width of the register named s. No name of the table has a digit behind an `r`, so digits are looked for first.
#[tactic(auto, using(crate::proofs::Digits::digit_rules, crate::proofs::Places::place_rules))]
pub fn family(s: &[u8]) -> Option<Register>
    ensures { family_of s.now result ≡ family s.now }
{
    let n = number_end(s);
    if 1 < n { numbered(s, n) } else { named(s) }
}

// The same of a token with the text s, its kind by its number, which in a listing that no question was asked of may be none of a kind: it has
// one if it is a register.
pub fn fam_of(kind: usize, s: &[u8]) -> Option<Register>
    ensures { family_of s.now result ≡ fam_of (tok s.now kind) }
{
    match Kind::of(kind) {
        Some(Kind::Register) => family(s),
        Some(
            Kind::Text
            | Kind::Number
            | Kind::Keyword
            | Kind::Symbol
            | Kind::Address
            | Kind::Punct
            | Kind::Prefix,
        )
        | None => None,
    }
}

// Where the family's name stands: its row of the table; 8, in the text; 9, nowhere.
fn row(r: Option<Register>) -> usize
    ensures { result ≡ row r }
{
    match r {
        Some(Register::Legacy { row, .. }) => if row < 8 { row } else { 9 },
        Some(Register::Numbered { .. } | Register::Var) => 8,
        None => 9,
    }
}

// The part of the text that is the family's name, where it stands there.
fn own_name(s: &[u8], r: Option<Register>) -> &[u8]
    ensures { result.now ≡ own_name s.now r }
{
    match r {
        Some(Register::Numbered { length, .. }) => text::part(s, 0, length),
        Some(Register::Var) => s,
        Some(Register::Legacy { .. }) | None => &s[..0],
    }
}

// The answers ra of the text a and rb of the text b are of one family.
pub fn same_family(a: &[u8], ra: Option<Register>, b: &[u8], rb: Option<Register>) -> bool
    ensures { result ≡ same_name (family_of a.now ra) (family_of b.now rb) }
{
    let i = row(ra);
    let j = row(rb);
    if i < 8 && j < 8 {
        i == j
    } else if i < 8 && j == 8 {
        is_row(i, own_name(b, rb))
    } else if i == 8 && j < 8 {
        is_row(j, own_name(a, ra))
    } else if i == 8 && j == 8 {
        text::equal(own_name(a, ra), own_name(b, rb))
    } else {
        false
    }
}

// The token with this kind and text s names the family that the answer r of the text a is of.
pub fn names(kind: usize, s: &[u8], a: &[u8], r: Option<Register>) -> bool
    ensures { result ≡ names_family (family_of a.now r) (tok s.now kind) }
{
    same_family(s, fam_of(kind, s), a, r)
}

// The row of the table that has this name of a family, 8 where none has it. It is asked once a family, so row by row.
fn row_named(name: &[u8]) -> usize
    ensures { (i : ℕ) → i < 8 → (name.now ≟ row_name i) ≡ eqb result i }
{
    for i in 0..8 {
        if is_row(i, name) {
            return i;
        }
    }
    8
}

// The row that has the name of the family, 8 where none has it.
pub fn row_of(s: &[u8], r: Option<Register>) -> usize
    ensures { (i : ℕ) → i < 8 → named (◌≟ row_name i) (family_of s.now r) ≡ eqb result i }
{
    let i = row(r);
    if i < 8 {
        i
    } else if i == 8 {
        row_named(own_name(s, r))
    } else {
        8
    }
}

// The family is a `var_`.
pub fn is_var(s: &[u8], r: Option<Register>) -> bool
    ensures { result ≡ is_var_family (family_of s.now r) }
{
    let i = row(r);
    i == 8 && text::starts_with(own_name(s, r), b"var_")
}

// The register is 32 bits wide or more.
pub fn is_wide(s: &[u8], r: Option<Register>) -> bool
    ensures { result ≡ is_wide (family_of s.now r) }
{
    match r {
        Some(Register::Legacy { row, width }) => row < 8 && 32 <= width,
        Some(Register::Numbered { width, .. }) => 32 <= width,
        Some(Register::Var) => true,
        None => false,
    }
}
