// The numbers and marks of tokens, one look-up a register token: the number is how many of the lines up to and with the token's are split
// points of its family, the mark is 1 where the token's own line is one. Crate `memo` looks it up.
//
// `number_is` and `mark_is` of proofs/Places say that these are `split_key` and `split_starts` of Rattle.definitions.specs.SplitPoints.
ghost use Rattle.std.specs.Prelude.{◌≡◌, true, ℕ, ◌+◌, ◌≤◌, ◌<◌, length, get_or};
ghost use Rattle.definitions.specs.Questions.{covers};
ghost use Rattle.definitions.specs.Recover.{defined_families};
ghost use Rattle.model.specs.Places.{line_start, line_end};
ghost use Rattle.model.specs.Listings.{listing_of, tokens_of};
ghost use Rattle.splits.specs.Tokens.{tally, number_of, mark_of, token_number, token_mark, over, by_line};

use memo::lookup::Lookup;
use words::{number, word};

// The number of a token without a family.
const NO_FAMILY: u32 = u32::MAX;

// The number of a token of which that is c.
#[tactic(auto, unfolding(crate::specs::Tokens::number_of))]
fn number_of(counts: &[u16], c: Option<usize>) -> u32
    ensures { result ≡ number_of (λ p. get_or counts.now p 0) c }
{
    match c {
        None => NO_FAMILY,
        Some(0) => 0,
        Some(place) => u32::from(word(counts, place)),
    }
}

// The mark of such a token on a line that is a split point of the family at place d, of none for 0.
#[tactic(auto, unfolding(crate::specs::Tokens::mark_of))]
fn mark_of(c: Option<usize>, d: usize) -> u8
    ensures { result ≡ mark_of d c }
{
    match c {
        Some(place) if 0 < d && d == place => 1,
        _ => 0,
    }
}

// The tokens of line i, on which that is d.
fn write_line(
    lookup: &mut Lookup,
    counts: &[u16],
    numbers: &mut [u32],
    marks: &mut [u8],
    d: usize,
    i: usize,
)
    requires { let code = lookup.old.code in
        (covers 512 0 code.lines.now (length code.tokens.now) ≡ true) × (i < length code.lines.now) × (length numbers.old ≡ length code.tokens.now) × (length marks.old ≡ length code.tokens.now) }
    ensures numbers_after { let code = lookup.old.code in
        let fs = defined_families (listing_of code) in
        numbers.new ≡ over (line_start code.lines.now i) (line_end code.lines.now code.tokens.now i) (token_number fs (λ p. get_or counts.now p 0)) (tokens_of code) numbers.old }
    ensures marks_after { let code = lookup.old.code in
        let fs = defined_families (listing_of code) in
        marks.new ≡ over (line_start code.lines.now i) (line_end code.lines.now code.tokens.now i) (token_mark fs d) (tokens_of code) marks.old }
    ensures kept { (lookup.new.code ≡ lookup.old.code) × (lookup.new.count ≡ lookup.old.count) × (lookup.new.table ≡ lookup.old.table) }
{
    let from = lookup.code.line_start(i);
    let to = lookup.code.line_end(i);
    for k in from..to {
        let c = lookup.token_place(k);
        numbers[k] = number_of(counts, c);
        marks[k] = mark_of(c, d);
    }
}

// The tokens of all lines. `starts` has the place of the family that each line is a split point of, 0 for none; `counts` is empty, and has an
// entry for each place.
pub fn write_lines(
    lookup: &mut Lookup,
    starts: &[u16],
    counts: &mut [u16],
    numbers: &mut [u32],
    marks: &mut [u8],
)
    requires tokens_value { let code = lookup.old.code in
        (covers 512 0 code.lines.now (length code.tokens.now) ≡ true) × (length code.lines.now ≤ 1024) × (length numbers.old ≡ length code.tokens.now) × (length marks.old ≡ length code.tokens.now) }
    requires by_index { ((j : ℕ) → j < length lookup.old.code.lines.now → get_or starts.now j 0 < 1024) × (1024 ≤ length counts.old) × ((c : ℕ) → get_or counts.old c 0 ≡ 0) }
    ensures numbers_after { let code = lookup.old.code in
        let fs = defined_families (listing_of code) in
        numbers.new ≡ by_line code.lines.now code.tokens.now (λ i. token_number fs (tally starts.now (i + 1))) (tokens_of code) (length code.lines.now) }
    ensures marks_after { let code = lookup.old.code in
        let fs = defined_families (listing_of code) in
        marks.new ≡ by_line code.lines.now code.tokens.now (λ i. token_mark fs (get_or starts.now i 0)) (tokens_of code) (length code.lines.now) }
    ensures kept { (lookup.new.code ≡ lookup.old.code) × (lookup.new.count ≡ lookup.old.count) × (lookup.new.table ≡ lookup.old.table) }
{
    for i in 0..lookup.code.lines.len() {
        let d = number(starts, i);
        counts[d] += 1;
        write_line(lookup, counts, numbers, marks, d, i);
    }
}
