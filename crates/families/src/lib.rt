// The families that have a definition, numbered in the order of their first definition. The family of a legacy name, or that there is none,
// is one word of the table; any other is found through the chain of those with its hash, 247 chains for all: one look-up compares the families
// of one chain. All lines together take one look-up a line.
//
// The hash is that of crate names, modulo 247. Where a family joins a chain of 16 or more, all chains are made anew by a multiplier drawn from
// the text: that hashes each family once more and passes over the text once. That the chains are short is measured, not proved: by the first
// multiplier r8 to r15 and the legacy names have a chain each, and no chain of r0 to r1014 has more than 9.
//
// The table, one lent slice:
//   words [0, 247)         1 + the last family of each hash, 0 for none
//   word 247               the multiplier
//   words [248, 256)       for each row of the legacy names 1 + the family of its name, 0 where that is not there
//   word 256 + 2 k         for family k 1 + the one before it of the same hash, 0 for none
//   word 257 + 2 k         the line of its first definition
// Contracts cite `defined_families` of Rattle.definitions.specs.Recover and `defines` of Rattle.definitions.specs.Statements.

#![tactic(auto, using(crate::proofs::Finding::row_rules, crate::proofs::Finding::search_rules, crate::proofs::Hashes::hash_rules, crate::proofs::Numbered::rehash_rules, crate::proofs::Numbered::place_rules))]

ghost use Rattle.std.specs.Prelude.{◌≡◌, List, ℕ, ◌+◌, ◌*◌, ◌<◌, ◌≤◌, length, take, get_or};
ghost use Rattle.definitions.specs.Lists.{is_some, ◌≟◌};
ghost use Rattle.definitions.specs.Family.{family};
ghost use Rattle.definitions.specs.Model.{token, line};
ghost use Rattle.definitions.specs.Statements.{defines};
ghost use Rattle.definitions.specs.Recover.{defined_families};
ghost use Rattle.model.specs.Listings.{listing_of};
ghost use Rattle.legacy.specs.Table.{row_name};
ghost use Rattle.family.specs.Register.{family_of, names_family};
ghost use Rattle.families.specs.Families.{hash, hash_of, place_of, multiplier, row_word, kept, linked, added, emptied, of_register, Table, Ready, Added, Placed, Numbered};

use family::Register;
use model::listing::Listing;
use words::{narrow, number, word};

pub mod lookup;

// The first multiplier.
const FIRST: u16 = 4339;

// The second byte of the name of each row; the first is `r`.
const SECONDS: [u8; 8] = *b"abcdsdbs";

// The third byte.
const THIRDS: [u8; 8] = *b"xxxxiipp";

// The hash of the family in row i of the table of names.
fn row_hash(m: u16, i: usize) -> usize
    requires { i < 8 }
    ensures { (result ≡ hash m (row_name i)) × (result < 247) }
{
    names::short_hash(m, b'r', SECONDS[i], THIRDS[i]) % 247
}

// The hash, by the table's multiplier, of the family that the answer r of the text s is.
fn hash_of(table: &[u16], s: &[u8], r: Option<Register>) -> usize
    ensures { (result ≡ hash_of (multiplier table.now) (family_of s.now r)) × (result < 247) }
{
    let m = word(table, 247);
    match r {
        Some(Register::Legacy { row, .. }) => if row < 8 { row_hash(m, row) } else { 0 },
        Some(Register::Numbered { length, .. }) => {
            names::hash(m, text::part(s, 0, length)) % 247
        }
        Some(Register::Var) => names::hash(m, s) % 247,
        None => 0,
    }
}

// The answer is a family.
pub fn is_some(r: Option<Register>) -> bool
    ensures { (s : List ℕ) → result ≡ is_some (family_of s r) }
{
    match r {
        Some(Register::Legacy { row, .. }) => row < 8,
        Some(Register::Numbered { .. } | Register::Var) => true,
        None => false,
    }
}

// Line i's first token names the family that the answer r of the text s is.
fn is_family(code: &Listing, table: &[u16], k: usize, s: &[u8], r: Option<Register>) -> bool
    requires { k < 1024 }
    ensures { result ≡ names_family (family_of s.now r) (token (line (listing_of code.now) (get_or table.now (257 + 2 * k) 0)) 0) }
{
    pseudo_opt::registers::token_names(code, number(table, 257 + 2 * k), 0, s, r)
}

// What the table has for row i, 0 where that is no row.
fn row_word(table: &[u16], i: usize) -> usize
    ensures { result ≡ row_word table.now i }
{
    if i < 8 { number(table, 248 + i) } else { 0 }
}

// 1 + the place among the first `count` families of the one that the answer r of the text s is, 0 where it is none of them: by the chain of the
// hash h.
fn search_chain(
    code: &Listing,
    table: &[u16],
    count: usize,
    h: usize,
    s: &[u8],
    r: Option<Register>,
) -> usize
    requires table { Table (listing_of code.now) count table.now × (count ≤ 1024) }
    requires h_value { (h ≡ hash_of (multiplier table.now) (family_of s.now r)) × (h < 247) }
    ensures { result ≡ place_of (take count (defined_families (listing_of code.now))) (family_of s.now r) }
{
    let mut c = number(table, h);
    // A `while`: it follows the links of a chain, which is no range.
    while 0 < c {
        if is_family(code, table, c - 1, s, r) {
            return c;
        }
        c = number(table, 256 + 2 * (c - 1));
    }
    0
}

// The first definition of family k writes its register as s.
fn has_text(code: &Listing, table: &[u16], k: usize, s: &[u8]) -> bool
    requires { k < 1024 }
    ensures { result ≡ ((token (line (listing_of code.now) (get_or table.now (257 + 2 * k) 0)) 0).text ≟ s.now) }
{
    let i = number(table, 257 + 2 * k);
    text::equal(code.text_at(i, 0), s)
}

// The same as `search`, by the hash. A text that is written as where its family is first defined is looked up no second time.
fn search_text(code: &Listing, table: &[u16], count: usize, s: &[u8], r: Option<Register>) -> usize
    requires { Table (listing_of code.now) count table.now × (count ≤ 1024) × (family_of s.now r ≡ family s.now) }
    ensures { result ≡ place_of (take count (defined_families (listing_of code.now))) (family_of s.now r) }
{
    let h = hash_of(table, s, r);
    let last = number(table, h);
    if 0 < last && has_text(code, table, last - 1, s) {
        return last;
    }
    search_chain(code, table, count, h, s, r)
}

// 1 + the place among the first `count` families of the one that the answer r of the register s is, 0 where it is none of them. For a legacy
// name that is the word of its row.
pub fn search(code: &Listing, table: &[u16], count: usize, s: &[u8], r: Option<Register>) -> usize
    requires { Table (listing_of code.now) count table.now × (count ≤ 1024) × (family_of s.now r ≡ family s.now) }
    ensures { result ≡ place_of (take count (defined_families (listing_of code.now))) (family_of s.now r) }
{
    match r {
        Some(Register::Legacy { row, .. }) => row_word(table, row),
        _ => search_text(code, table, count, s, r),
    }
}

// One family more in the chains: its number is `count`, its hash h.
fn link(table: &mut [u16], count: usize, h: usize)
    requires { (count < 1024) × (h < 247) × (257 + 2 * count < length table.old) }
    ensures { table.new ≡ linked table.old count h }
{
    let head = table[h];
    table[256 + 2 * count] = head;
    let last = narrow(count + 1);
    table[h] = last;
}

// One family more in the table: its first definition is on line i.
fn add(table: &mut [u16], count: usize, i: usize, h: usize)
    requires { (count < 1024) × (i < 1024) × (h < 247) × (257 + 2 * count < length table.old) }
    ensures { table.new ≡ added table.old count i h }
{
    let first = narrow(i);
    table[257 + 2 * count] = first;
    link(table, count, h);
}

// The table gets c for row i, if that is a row.
fn keep_row(table: &mut [u16], i: usize, c: usize)
    requires { (c < 65536) × (256 ≤ length table.old) }
    ensures { table.new ≡ kept table.old i c }
{
    if i < 8 {
        let v = narrow(c);
        table[248 + i] = v;
    }
}

// The same of token 0 of line i, whose answer is r: the text of a legacy name is not read.
fn search_line(code: &Listing, table: &[u16], i: usize, count: usize, r: Option<Register>) -> usize
    requires { Ready (listing_of code.now) i count table.now }
    ensures { let L = listing_of code.now in result ≡ place_of (take count (defined_families L)) (family_of (token (line L i) 0).text r) }
{
    let Some(Register::Legacy { row, .. }) = r else {
        let s = code.text_at(i, 0);
        let h = hash_of(table, s, r);
        return search_chain(code, table, count, h, s, r);
    };
    row_word(table, row)
}

// The family of token 0 of line i, whose answer is r, put into the table. Its row is that of its name, whatever the kind of the answer.
fn add_line(code: &Listing, table: &mut [u16], i: usize, count: usize, r: Option<Register>)
    requires { Ready (listing_of code.now) i count table.old }
    ensures { Added (line (listing_of code.now) i) count i r table.old table.new }
{
    let s = code.text_at(i, 0);
    let h = hash_of(table, s, r);
    keep_row(table, family::row_of(s, r), count + 1);
    add(table, count, i, h);
}

// The chain has more than 16 families from family c - 1 on. No contract depends on the answer.
fn is_long(table: &[u16], mut c: u16) -> bool {
    'links: for _ in 0..16 {
        if c == 0 {
            return false;
        }
        c = word(table, 254 + 2 * usize::from(c));
    }
    c != 0
}

// Empties the chains; m is the multiplier from now on.
fn empty(table: &mut [u16], m: u16)
    requires { 248 ≤ length table.old }
    ensures { table.new ≡ emptied table.old m }
{
    text::zero(&mut table[..247], 0);
    table[247] = m;
}

// The hash of family k, by its first definition.
fn family_hash(code: &Listing, table: &[u16], k: usize) -> usize
    requires { k < 1024 }
    ensures { let L = listing_of code.now in let t = table.now in (result ≡ hash_of (multiplier t) (family (token (line L (get_or t (257 + 2 * k) 0)) 0).text)) × (result < 247) }
{
    let s = code.text_at(number(table, 257 + 2 * k), 0);
    let r = family::family(s);
    hash_of(table, s, r)
}

// The chains by the multiplier m.
fn rehash(code: &Listing, table: &mut [u16], count: usize, m: u16)
    requires { Table (listing_of code.now) count table.old × (count ≤ 1024) × (256 + 2 * count ≤ length table.old) }
    ensures { Table (listing_of code.now) count table.new }
{
    empty(table, m);
    for k in 0..count {
        let h = family_hash(code, table, k);
        link(table, k, h);
    }
}

// Where the last family is in a long chain, the table goes on with another multiplier.
fn shorten(code: &Listing, table: &mut [u16], count: usize)
    requires { Table (listing_of code.now) count table.old × (count ≤ 1024) × (256 + 2 * count ≤ length table.old) }
    ensures { Table (listing_of code.now) count table.new }
{
    if is_long(table, narrow(count)) {
        let m = names::next(word(table, 247), code.text);
        rehash(code, table, count, m);
    }
}

// 1 + the number of the family that line i defines by the register r; a family that is not in the table yet is added.
fn place_register(
    code: &Listing,
    table: &mut [u16],
    i: usize,
    count: usize,
    r: Option<Register>,
) -> usize
    requires ready { Ready (listing_of code.now) i count table.old }
    requires r_value { let L = listing_of code.now in of_register (line L i) r ≡ defines (line L i) }
    ensures { Placed (listing_of code.now) i count result table.new }
{
    if !is_some(r) {
        return 0;
    }
    let c = search_line(code, table, i, count, r);
    if c == 0 {
        add_line(code, table, i, count, r);
        return count + 1;
    }
    c
}

// 1 + the number of the family that line i defines, 0 where it defines none; where that is a new one, its chain is kept short.
fn place_line(code: &Listing, table: &mut [u16], i: usize, count: usize) -> usize
    requires { Ready (listing_of code.now) i count table.old }
    ensures { Placed (listing_of code.now) i count result table.new }
{
    let r = assignment::definition::defines(code, i);
    let c = place_register(code, table, i, count, r);
    if count < c {
        shorten(code, table, c);
    }
    c
}

// Line i is done; answers how many families there are now.
fn number_line(code: &Listing, table: &mut [u16], defs: &mut [u16], i: usize, count: usize) -> usize
    requires { Numbered (listing_of code.now) i count table.old defs.old × (i < length code.now.lines.now) }
    ensures { Numbered (listing_of code.now) (i + 1) result table.new defs.new }
{
    let c = place_line(code, table, i, count);
    let v = narrow(c);
    defs[i] = v;
    count.max(c)
}

// Numbers the families of all lines; answers how many there are.
pub fn families(code: &Listing, table: &mut [u16], defs: &mut [u16]) -> usize
    requires { (0 < length code.now.lines.now) × (length code.now.lines.now ≤ 1024) × (256 + 2 * length code.now.lines.now ≤ length table.old) × (length code.now.lines.now ≤ length defs.old) }
    ensures { Numbered (listing_of code.now) (length code.now.lines.now) result table.new defs.new }
{
    text::zero(&mut table[..256], 0);
    table[247] = FIRST;
    defs[0] = 0;
    let mut count = 0;
    for i in 1..code.lines.len() {
        count = number_line(code, table, defs, i, count);
    }
    count
}
