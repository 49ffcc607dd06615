// Reads of one family, along its chain: whether its address is taken, and the lines that read it. A step a token of the family; listing the
// lines takes one step a line. The text of a token is looked at only before a token of the family.
//
// Contracts cite `takes_address`, `address_taken` and `read_tokens` of Rattle.definitions.specs.Recover.
#![tactic(auto, using(crate::proofs::Taken::taken_rules, crate::proofs::Seen::seen_rules))]

ghost use Rattle.std.specs.Prelude.{◌≡◌, cond, ◌+◌, ◌-◌, ◌<◌, ◌≤◌, eqb, length, get_or, set, take};
ghost use Rattle.definitions.specs.Lists.{any, filter, range};
ghost use Rattle.definitions.specs.Model.{line};
ghost use Rattle.definitions.specs.Family.{names};
ghost use Rattle.definitions.specs.Recover.{takes_address, address_taken, read_tokens};
ghost use Rattle.model.specs.Listings.{listing_of, tokens_of};
ghost use Rattle.families.specs.Families.{Table, Defs};
ghost use Rattle.families.specs.Tokens.{family_name};
ghost use Rattle.chains.specs.Chains.{Chain};
ghost use Rattle.walks.specs.Lines.{takes, reads, Seen};

use crate::chained::Columns;
use chains::links::{line_at, next_at};
use model::listing::Listing;
use recover::sets::put;
use words::{number, word};

// The token at place p of line i stands behind one that ends `&`, on a line from 1 on.
fn takes_at(code: &Listing, i: usize, p: usize) -> bool
    ensures { result ≡ takes code.now.lines.now (tokens_of code.now) i p }
{
    0 < i && code.line_start(i) < p && text::ends_with(code.token_text(p - 1), b"&")
}

// A line from 1 on takes the address of family k.
fn lines_take(code: &Listing, numbers: &[u32], first: &[u16], k: usize) -> bool
    requires { Chain code.now.lines.now code.now.tokens.now code.now.text.now k numbers.now first.now }
    ensures { let L = listing_of code.now in result ≡ any (λ i. takes_address (family_name L k) (line L i).tokens) (range 1 (length L - 1)) }
{
    // A `while`: it follows the chain's links, which is no range.
    let mut p = number(first, k);
    while p < code.tokens.len() {
        if takes_at(code, line_at(numbers, p), p) {
            return true;
        }
        p = next_at(numbers, p);
    }
    false
}

// Family k is rsp: word 255 of the table is for its row.
pub fn is_rsp(table: &[u16], k: usize) -> bool
    requires { k < 1024 }
    ensures { result ≡ eqb (get_or table.now 255 0) (k + 1) }
{
    number(table, 255) == k + 1
}

// The address of family k is taken: never that of rsp.
pub fn address_taken(
    code: &Listing,
    table: &[u16],
    numbers: &[u32],
    first: &[u16],
    count: usize,
    k: usize,
) -> bool
    requires { Table (listing_of code.now) count table.now × (k < count) × (k < 1024) × Chain code.now.lines.now code.now.tokens.now code.now.text.now k numbers.now first.now }
    ensures { let L = listing_of code.now in result ≡ address_taken L (family_name L k) }
{
    lines_take(code, numbers, first, k) && !is_rsp(table, k)
}

// The token at place p of line i is not the register that the line defines.
fn reads_at(code: &Listing, defs: &[u16], i: usize, p: usize) -> bool
    ensures { result ≡ reads code.now.lines.now defs.now i p }
{
    word(defs, i) == 0 || code.line_start(i) < p
}

fn mark_if(seen: &mut [u8], i: usize, yes: bool)
    requires { i < length seen.old }
    ensures { seen.new ≡ cond yes (set seen.old i 1) seen.old }
{
    if yes {
        seen[i] = 1;
    }
}

// Marks the lines from 1 on that read family k; line 0 may be marked too.
fn see_lines(columns: &Columns, numbers: &[u32], k: usize, seen: &mut [u8])
    requires { let code = columns.now.code.now in
        Chain code.lines.now code.tokens.now code.text.now k numbers.now columns.now.first.now × Defs (listing_of code) columns.now.defs.now × (length code.lines.now ≤ length seen.old) }
    ensures { let code = columns.now.code.now in
        Seen code.lines.now code.tokens.now code.text.now k seen.new }
{
    let Columns { code, first, defs } = *columns;
    text::zero(seen, 0);
    // A `while`, as in `lines_take`.
    let mut p = number(first, k);
    while p < code.tokens.len() {
        let i = line_at(numbers, p);
        mark_if(seen, i, reads_at(code, defs, i, p));
        p = next_at(numbers, p);
    }
}

// Line i is marked.
fn is_seen(seen: &[u8], i: usize) -> bool
    requires { i < length seen.now }
    ensures { result ≡ eqb (get_or seen.now i 0) 1 }
{
    seen[i] == 1
}

// Lists the marked lines from 1 on; answers how many there are.
fn list_lines(code: &Listing, k: usize, seen: &[u8], reads: &mut [u16]) -> usize
    requires { Seen code.now.lines.now code.now.tokens.now code.now.text.now k seen.now × (length code.now.lines.now ≤ length seen.now) × (0 < length code.now.lines.now) × (length code.now.lines.now ≤ length reads.old) × (length code.now.lines.now ≤ 65536) }
    ensures { (result ≤ length code.now.lines.now) × (let L = listing_of code.now in take result reads.new ≡ filter (λ i. any (names (family_name L k)) (read_tokens (line L i))) (range 1 (length L - 1))) }
{
    let mut m = 0;
    for i in 1..code.lines.len() {
        m = put(reads, m, i, is_seen(seen, i));
    }
    m
}

// Lists the lines from 1 on that read family k; answers how many there are. `seen` has a byte for each line.
pub fn read_lines(
    columns: &Columns,
    numbers: &[u32],
    k: usize,
    seen: &mut [u8],
    reads: &mut [u16],
) -> usize
    requires chain { let code = columns.now.code.now in
        Chain code.lines.now code.tokens.now code.text.now k numbers.now columns.now.first.now × Defs (listing_of code) columns.now.defs.now × (length code.lines.now ≤ length seen.old) }
    requires lines_nonzero { let n = length columns.now.code.now.lines.now in (0 < n) × (n ≤ length reads.old) × (n ≤ 65536) }
    ensures { (result ≤ length columns.now.code.now.lines.now) × (let L = listing_of columns.now.code.now in take result reads.new ≡ filter (λ i. any (names (family_name L k)) (read_tokens (line L i))) (range 1 (length L - 1))) }
{
    see_lines(columns, numbers, k, seen);
    list_lines(columns.code, k, seen, reads)
}
