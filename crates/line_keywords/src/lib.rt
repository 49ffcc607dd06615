// The keywords of a line as bits of one byte, for the flow graph and for `recover_loops`.
//
// `mask` passes over the words of a line's tokens once: of a token that is no keyword only the word is read, of a keyword also its text.
// `masks` makes a column of them, and `Keywords` holds one; each question of a line is then a test of one bit. Contracts cite `mask` of
// specs/Masks.antt, `has_kw` of Rattle.definitions.specs.Statements, and `is_loop` and `is_switch` of Rattle.definitions.specs.FlowGraph.

#![tactic(auto, using(crate::proofs::MaskLaws::asking))]

ghost use Rattle.std.specs.Prelude.{◌≡◌, cond, ◌||◌, not, ◌==◌, ℕ, ◌≤◌, length, get_or};
ghost use Rattle.std.specs.Int.RustNames.{bit_and};
ghost use Rattle.definitions.specs.Lists.{◌≟◌, ascii};
ghost use Rattle.definitions.specs.Model.{line, no_token};
ghost use Rattle.definitions.specs.Statements.{has_kw};
ghost use Rattle.definitions.specs.FlowGraph.{is_loop, is_switch};
ghost use Rattle.model.specs.Listings.{listing_of, tokens_of};
ghost use Rattle.line_keywords.specs.Masks.{class, key, mask, Masks};

use model::kind::Kind;
use model::listing::Listing;

// Masks

// The bits of a mask. A `do` has LOOP too, a `continue` LEAVES.
const DO: u8 = 1;

const GOTO: u8 = 2;

const ELSE: u8 = 4;

const LOOP: u8 = 8;

const SWITCH: u8 = 16;

const LEAVES: u8 = 32;

const CASE: u8 = 64;

const CONTINUE: u8 = 128;

// The bits b for the text w.
fn named(s: &[u8], w: &[u8], b: u8) -> u8
    ensures { result ≡ cond (s.now ≟ w.now) b 0 }
{
    if text::equal(s, w) { b } else { 0 }
}

// The bits a for the text v, the bits b for the text w.
fn either(s: &[u8], v: &[u8], a: u8, w: &[u8], b: u8) -> u8
    ensures { result ≡ cond (s.now ≟ v.now) a (cond (s.now ≟ w.now) b 0) }
{
    if text::equal(s, v) { a } else { named(s, w, b) }
}

// The bits of a keyword: its first byte leaves at most two.
#[tactic(auto, using(crate::proofs::Classes::classes))]
fn class(s: &[u8]) -> u8
    ensures { result ≡ class s.now }
{
    if s.is_empty() {
        return 0;
    }
    match s[0] {
        b'g' => named(s, b"goto", GOTO),
        b'e' => named(s, b"else", ELSE),
        b'w' => named(s, b"while", LOOP),
        b'f' => named(s, b"for", LOOP),
        b'd' => either(s, b"do", DO | LOOP, b"default", CASE),
        b's' => named(s, b"switch", SWITCH),
        b'b' => named(s, b"break", LEAVES),
        b'c' => either(s, b"continue", LEAVES | CONTINUE, b"case", CASE),
        _ => 0,
    }
}

// The bits of token k of all.
#[tactic(auto, using(text::proofs::Bools::bools, crate::proofs::Classes::class_of))]
fn key(code: &Listing, k: usize) -> u8
    ensures { result ≡ key (get_or (tokens_of code.now) k no_token) }
{
    if code.token_is(k, Kind::Keyword) {
        class(code.token_text(k))
    } else {
        0
    }
}

// The bits of line i.
#[tactic(auto, using(crate::proofs::Filling::masking))]
fn mask(code: &Listing, i: usize) -> u8
    ensures { result ≡ mask (line (listing_of code.now) i) }
{
    let s = code.line_start(i);
    let e = code.line_end(i);
    let mut m = 0;
    for k in s..e {
        m |= key(code, k);
    }
    m
}

// The bits of every line. The column is empty, and there is an entry for each line.
#[tactic(auto, using(crate::proofs::Filling::filling))]
pub fn masks(code: &Listing, masks: &mut [u8])
    requires lines_in_bounds { length code.now.lines.now ≤ length masks.old }
    requires by_index { (b : ℕ) → get_or masks.old b 0 ≡ 0 }
    ensures { Masks (listing_of code.now) masks.new }
{
    for i in 0..code.lines.len() {
        masks[i] = mask(code, i);
    }
}

// Questions

// A listing, and for each of its lines a byte whose bits say which keywords the line has.
#[derive(Clone, Copy)]
pub struct Keywords<'c, 'a, 'm> {
    pub code: Listing<'c, 'a>,
    pub masks: &'m [u8],
    pub ghost holds: { Masks (listing_of code) masks.now },
}

impl<'c, 'a, 'm> Keywords<'c, 'a, 'm> {
    // The column is empty, and there is an entry for each line.
    pub fn new(code: &Listing<'c, 'a>, masks: &'m mut [u8]) -> Self
        requires lines_in_bounds { length code.now.lines.now ≤ length masks.old }
        requires by_index { (b : ℕ) → get_or masks.old b 0 ≡ 0 }
        ensures { result.code ≡ code.now }
    {
        crate::masks(code, masks);
        Keywords { code: *code, masks }
    }

    // Line i has a keyword of this bit. Past the end there is none.
    fn has(&self, i: usize, bit: u8) -> bool
        ensures { result ≡ not (bit_and (get_or self.now.masks.now i 0) bit == 0) }
    {
        i < self.masks.len() && self.masks[i] & bit != 0
    }

    pub fn has_goto(&self, i: usize) -> bool
        ensures { result ≡ has_kw (line (listing_of self.now.code) i) (ascii "goto") }
    {
        self.has(i, GOTO)
    }

    pub fn has_else(&self, i: usize) -> bool
        ensures { result ≡ has_kw (line (listing_of self.now.code) i) (ascii "else") }
    {
        self.has(i, ELSE)
    }

    pub fn is_loop(&self, i: usize) -> bool
        ensures { result ≡ is_loop (line (listing_of self.now.code) i) }
    {
        self.has(i, LOOP)
    }

    pub fn has_do(&self, i: usize) -> bool
        ensures { result ≡ has_kw (line (listing_of self.now.code) i) (ascii "do") }
    {
        self.has(i, DO)
    }

    pub fn is_switch(&self, i: usize) -> bool
        ensures { result ≡ is_switch (line (listing_of self.now.code) i) }
    {
        self.has(i, SWITCH)
    }

    // A break or continue.
    pub fn leaves_block(&self, i: usize) -> bool
        ensures { let L = listing_of self.now.code in
            result ≡ (has_kw (line L i) (ascii "break") || has_kw (line L i) (ascii "continue")) }
    {
        self.has(i, LEAVES)
    }

    pub fn has_continue(&self, i: usize) -> bool
        ensures { result ≡ has_kw (line (listing_of self.now.code) i) (ascii "continue") }
    {
        self.has(i, CONTINUE)
    }

    // A case or default, wherever it stands on the line.
    pub fn has_case(&self, i: usize) -> bool
        ensures { let L = listing_of self.now.code in
            result ≡ (has_kw (line L i) (ascii "case") || has_kw (line L i) (ascii "default")) }
    {
        self.has(i, CASE)
    }
}
