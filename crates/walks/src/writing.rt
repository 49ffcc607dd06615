// Writing the numbers of one family over the words of its chain, a step a token of the family, and the marks of its definitions, a step a
// line.
//
// Contracts cite `Written` and `lines_marked` of specs/Lines.
#![tactic(auto, using(crate::proofs::WriteRules::write_rules))]

ghost use Rattle.std.specs.Prelude.{◌≡◌, cond, ◌+◌, ◌<◌, eqb, get_or};
ghost use Rattle.definitions.specs.Lists.{up_to};
ghost use Rattle.chains.specs.Chains.{Chain};
ghost use Rattle.walks.specs.Lines.{own_place, Written, line_marked, lines_marked};

use crate::chained::Columns;
use chains::links::{line_at, next_at};
use model::listing::Listing;
use words::{number, word};

// The word at k, 0 past the end.
fn word32(ws: &[u16], k: usize) -> u32
    ensures { result ≡ get_or ws.now k 0 }
{
    u32::from(word(ws, k))
}

// The place of the family that line i defines is k + 1: it defines family k.
fn is_place(defs: &[u16], i: usize, k: usize) -> bool
    requires { k < 1024 }
    ensures { result ≡ eqb (get_or defs.now i 0) (k + 1) }
{
    number(defs, i) == k + 1
}

// The token at place p is the register of family k that line i defines.
fn is_own(code: &Listing, defs: &[u16], k: usize, i: usize, p: usize) -> bool
    requires { k < 1024 }
    ensures { result ≡ own_place code.now.lines.now defs.now k i p }
{
    is_place(defs, i, k) && p == code.line_start(i)
}

// The number of the token of family k at place p of line i.
fn token_number(
    code: &Listing,
    defs: &[u16],
    k: usize,
    own: &[u16],
    read: &[u16],
    i: usize,
    p: usize,
) -> u32
    requires { k < 1024 }
    ensures { result ≡ cond (own_place code.now.lines.now defs.now k i p) (get_or own.now i 0) (get_or read.now i 0) }
{
    if is_own(code, defs, k, i, p) {
        word32(own, i)
    } else {
        word32(read, i)
    }
}

// The tokens of family k get their numbers: `own` has the number of each line's definition, `read` that of its reads.
pub fn write_tokens(columns: &Columns, numbers: &mut [u32], k: usize, own: &[u16], read: &[u16])
    requires { let code = columns.now.code.now in
        Chain code.lines.now code.tokens.now code.text.now k numbers.old columns.now.first.now × (k < 1024) }
    ensures { let code = columns.now.code.now in
        Written code.lines.now code.tokens.now code.text.now k columns.now.defs.now own.now read.now numbers.old numbers.new }
{
    let Columns { code, first, defs } = *columns;
    // A `while`: it follows the chain's links, and writes over each once it is read.
    let mut p = number(first, k);
    while p < numbers.len() {
        let i = line_at(numbers, p);
        let next = next_at(numbers, p);
        let v = token_number(code, defs, k, own, read, i, p);
        numbers[p] = v;
        p = next;
    }
}

fn mark_line(code: &Listing, marks: &mut [u8], i: usize, k: usize, defs: &[u16])
    requires { k < 1024 }
    ensures { marks.new ≡ line_marked code.now.lines.now k defs.now marks.old i }
{
    if is_place(defs, i, k) {
        let s = code.line_start(i);
        if s < marks.len() {
            marks[s] = 1;
        }
    }
}

// Marks the first token of each of the first n lines that defines family k.
pub fn mark_lines(code: &Listing, marks: &mut [u8], n: usize, k: usize, defs: &[u16])
    requires { k < 1024 }
    ensures { marks.new ≡ lines_marked code.now.lines.now k defs.now marks.old (up_to n) }
{
    for i in 0..n {
        mark_line(code, marks, i, k, defs);
    }
}
