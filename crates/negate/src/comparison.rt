// The one comparison of a condition, which negation flips: `only_comparison` scans the condition's tokens once and copies nothing.
//
// Contracts cite `see_logical`, `comparison_at`, `see_bracket`, `scan_text`, `scan_token` and `negate_cond` of
// Rattle.definitions.specs.Condition; `seen` and `negation` of this crate's specs/ say what the answers stand for.
#![tactic(auto, using(crate::proofs::Scanning::whiches, crate::proofs::Scanning::logicals, crate::proofs::Scanning::brackets, crate::proofs::Scanning::byte_passed))]

ghost use Rattle.std.specs.Option.{option_map};
ghost use Rattle.std.specs.Prelude.{if◌then◌else◌, ◌≡◌, ◌||◌, ◌+◌, ◌*◌, ◌≤◌, ◌<◌, eqb, length, drop};
ghost use Rattle.definitions.specs.Lists.{starts_with, ascii};
ghost use Rattle.definitions.specs.Model.{line};
ghost use Rattle.definitions.specs.Condition.{nothing_seen, add_brackets, see_logical, comparison_at, see_bracket, scan_text, scan_token, scan, negate_cond};
ghost use Rattle.model.specs.Listings.{listing_of};
ghost use Rattle.negate.specs.Tests.{test, test_count, test_token, test_tokens};
ghost use Rattle.negate.specs.Comparisons.{named, comparison_of, occurs, width, op_width, seen, weight, negation};

use crate::test::{test_count, test_kind, test_text};
use model::kind::Kind;
use model::listing::Listing;

// The six comparisons.
#[derive(Clone, Copy)]
pub enum Comparison {
    Equal,
    Unequal,
    AtMost,
    AtLeast,
    Less,
    Greater,
}

// A comparison of the condition: at byte `byte` of token `place`.
#[derive(Clone, Copy)]
pub struct Found {
    pub place: usize,
    pub byte: usize,
    pub which: Comparison,
}

// What the scan has seen: brackets opened and closed, whose difference is the depth and may go below 0; comparisons at depth 0, ` && ` and
// ` || ` counting two; the last comparison. The scan changes it in place: handed on by value, all of it would be copied at each byte.
#[derive(Clone, Copy)]
pub struct Seen {
    pub opened: usize,
    pub closed: usize,
    pub count: usize,
    pub found: Option<Found>,
}

// The comparison that s starts with.
fn comparison_of(s: &[u8]) -> Option<Comparison>
    ensures { option_map named result ≡ comparison_of s.now }
{
    if text::starts_with(s, b" == ") {
        return Some(Comparison::Equal);
    }
    if text::starts_with(s, b" != ") {
        return Some(Comparison::Unequal);
    }
    if text::starts_with(s, b" <= ") {
        return Some(Comparison::AtMost);
    }
    if text::starts_with(s, b" >= ") {
        return Some(Comparison::AtLeast);
    }
    if text::starts_with(s, b" < ") {
        return Some(Comparison::Less);
    }
    if text::starts_with(s, b" > ") {
        return Some(Comparison::Greater);
    }
    None
}

impl Comparison {
    // How many bytes it has.
    pub fn width(self) -> usize
        ensures { result ≡ op_width self }
    {
        match self {
            Comparison::Equal | Comparison::Unequal | Comparison::AtMost | Comparison::AtLeast => 4,
            Comparison::Less | Comparison::Greater => 3,
        }
    }
}

// How many bytes comparison w of the six has, in the order of `comparisons`; 0 where w is the number of none.
pub fn width(w: usize) -> usize
    ensures { result ≡ width w }
{
    match w {
        0..=3 => 4,
        4..=5 => 3,
        _ => 0,
    }
}

fn is_logical(s: &[u8]) -> bool
    ensures { result ≡ (starts_with (ascii " && ") s.now || starts_with (ascii " || ") s.now) }
{
    text::starts_with(s, b" && ") || text::starts_with(s, b" || ")
}

fn see_logical(s: &[u8], r: &mut Seen)
    requires { weight r.old + 2 ≤ 18446744073709551615 }
    ensures { (seen r.new ≡ see_logical s.now (seen r.old)) × (weight r.new ≤ weight r.old + 2) }
{
    if r.opened == r.closed {
        if is_logical(s) {
            r.count += 2;
        }
    }
}

// The comparison that counts where s starts with one: at depth 0.
fn comparison_at(s: &[u8], r: &Seen) -> Option<Comparison>
    ensures { option_map named result ≡ comparison_at s.now (seen r.now) }
{
    if r.opened == r.closed {
        return comparison_of(s);
    }
    None
}

fn see_bracket(c: u8, r: &mut Seen)
    requires { weight r.old + 1 ≤ 18446744073709551615 }
    ensures { (seen r.new ≡ see_bracket c (seen r.old)) × (weight r.new ≤ weight r.old + 1) }
{
    match c {
        b'(' => r.opened += 1,
        b')' => r.closed += 1,
        _ => {}
    }
}

// What stands at byte i of the token `place`; the answer is where to go on.
fn see_byte(s: &[u8], place: usize, i: usize, r: &mut Seen) -> usize
    requires { (i < length s.now) × (weight r.old + 3 ≤ 18446744073709551615) }
    ensures r_value { let s = s.entry.now in
        scan_text place i 0 (drop i s) (seen r.old) ≡ scan_text place result 0 (drop result s) (seen r.new) }
    ensures i_lt_next { (i < result) × (result ≤ length s.now) × (weight r.new ≤ weight r.old + 3) }
{
    // Each comparison, ` && ` and ` || ` starts with a blank.
    if s[i] != b' ' {
        see_bracket(s[i], r);
        return i + 1;
    }
    let rest = text::part(s, i, s.len());
    match comparison_at(rest, r) {
        // Where a comparison stands, no ` && ` or ` || ` does.
        Some(which) => {
            r.count += 1;
            r.found = Some(Found {
                place,
                byte: i,
                which,
            });
            i + which.width()
        }
        None => {
            see_logical(rest, r);
            see_bracket(s[i], r);
            i + 1
        }
    }
}

// The text of the punct token `place`.
fn scan_text(s: &[u8], place: usize, r: &mut Seen)
    requires { weight r.old + 3 * length s.now ≤ 18446744073709551615 }
    ensures { (seen r.new ≡ scan_text place 0 0 s.now (seen r.old)) × (weight r.new ≤ weight r.old + 3 * length s.now) }
{
    let mut i = 0;
    // A `while`: a turn passes over one byte, or over a comparison of three or four, so the places are no range.
    while i < s.len() {
        i = see_byte(s, place, i, r);
    }
}

// 1 where the byte c is b.
fn is_byte(b: u8, c: u8) -> usize
    ensures { (result ≡ (if eqb b c then 1 else 0)) × (result ≤ 1) }
{
    if b == c { 1 } else { 0 }
}

// How often the byte b stands in s.
fn count(s: &[u8], b: u8) -> usize
    ensures { (result ≡ occurs b s.now) × (result ≤ length s.now) }
{
    let mut n = 0;
    for k in 0..s.len() {
        n += is_byte(b, s[k]);
    }
    n
}

// The brackets of a keyword.
fn see_brackets(s: &[u8], r: &mut Seen)
    requires { weight r.old + 3 * length s.now ≤ 18446744073709551615 }
    ensures { let s = s.entry.now in
        (seen r.new ≡ add_brackets (occurs 40 s) (occurs 41 s) (seen r.old)) × (weight r.new ≤ weight r.old + 3 * length s) }
{
    r.opened += count(s, b'(');
    r.closed += count(s, b')');
}

// Token k of the m tokens of the condition: its kind decides.
#[tactic(auto, using(crate::proofs::Scanning::tokens), unfolding(crate::specs::Tests::test_token))]
fn scan_token(code: &Listing, i: usize, m: usize, k: usize, r: &mut Seen)
    requires k_lt_m { k < m }
    requires text_bound { let t = test_token (line (listing_of code.now) i) m k in
        weight r.old + 3 * length t.text ≤ 18446744073709551615 }
    ensures { let t = test_token (line (listing_of code.now) i) m k in
        (seen r.new ≡ scan_token k t (seen r.old)) × (weight r.new ≤ weight r.old + 3 * length t.text) }
{
    match Kind::of(test_kind(code, i, m, k)) {
        Some(Kind::Keyword) => see_brackets(test_text(code, i, m, k), r),
        Some(Kind::Punct) => scan_text(test_text(code, i, m, k), k, r),
        Some(
            Kind::Text
            | Kind::Register
            | Kind::Number
            | Kind::Symbol
            | Kind::Address
            | Kind::Prefix,
        )
        | None => {}
    }
}

// What is seen in the whole condition.
fn scan(code: &Listing, i: usize, m: usize) -> Seen
    requires { m ≤ 8388607 }
    ensures { seen result ≡ scan 0 (test_tokens (line (listing_of code.now) i) m) nothing_seen }
{
    let mut r = Seen {
        opened: 0,
        closed: 0,
        count: 0,
        found: None,
    };
    for k in 0..m {
        scan_token(code, i, m, k, &mut r);
    }
    r
}

// The only comparison of the condition, which negation flips.
pub fn only_comparison(code: &Listing, i: usize, g: usize) -> Option<Found>
    ensures { let l = line (listing_of code.now) i in
        negation l (test_count l g) result ≡ negate_cond (test l g) }
{
    let m = test_count(code, i, g);
    let r = scan(code, i, m);
    if r.count == 1 { r.found } else { None }
}
