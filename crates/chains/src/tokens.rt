// One word for each token: its line and the place of the next token of its family, while the family's webs are not known yet. Tokens are met
// from the last to the first, so that the next place is known when a token is met. Each register is looked up once, by crate `memo`; of any
// other token only the kind is read.
//
// Contracts cite `token_word` and `next_place` of specs/Chains.
#![tactic(auto, using(crate::proofs::TokenRules::token_rules))]

ghost use Rattle.std.specs.Prelude.{◌≡◌, suc, ◌+◌, ◌<◌, ◌≤◌, length};
ghost use Rattle.model.specs.Places.{line_start};
ghost use Rattle.model.specs.Listings.{listing_of};
ghost use Rattle.families.specs.Tokens.{Finds};
ghost use Rattle.chains.specs.Chains.{chain_word, place_line, Bounds, Chained, Linked, Heads};

use memo::lookup::Lookup;
use model::listing::Listing;
use words::narrow;

// The word of a token without a family.
const NO_FAMILY: u32 = u32::MAX;

#[tactic(auto, unfolding(crate::specs::Chains::chain_word))]
fn chain_word(i: usize, next: u16) -> u32
    requires { i ≤ 1024 }
    ensures { result ≡ chain_word i next }
{
    // A cast: the sum has 32 bits, which `TryFrom` would ask again.
    ((65536 + i) * 32768 + usize::from(next)) as u32
}

// The token at place p of line i becomes the first of the chain of the family at place c.
fn link(numbers: &mut [u32], first: &mut [u16], i: usize, p: usize, c: usize)
    requires { (i ≤ 1024) × (p < length numbers.old) × (p < 65536) × (0 < c) × (c ≤ length first.old) }
    ensures { Linked i p c numbers.old numbers.new first.old first.new }
{
    numbers[p] = chain_word(i, first[c - 1]);
    first[c - 1] = narrow(p);
}

// The token at place p of line i; those behind it are done.
fn chain_token(lookup: &mut Lookup, numbers: &mut [u32], first: &mut [u16], i: usize, p: usize)
    requires { let code = lookup.old.code in
        Bounds code.lines.now code.tokens.now × (i < length code.lines.now) × (p < length code.tokens.now) × (place_line code.lines.now p ≡ i) × Chained code.lines.now code.tokens.now code.text.now lookup.old.count (p + 1) numbers.old first.old }
    ensures chained { let code = lookup.old.code in
        Chained code.lines.now code.tokens.now code.text.now lookup.old.count p numbers.new first.new }
    ensures kept { (lookup.new.code ≡ lookup.old.code) × (lookup.new.count ≡ lookup.old.count) }
{
    match lookup.token_place(p) {
        None => numbers[p] = NO_FAMILY,
        // A register of a family without a definition.
        Some(0) => numbers[p] = 0,
        Some(c) => link(numbers, first, i, p, c),
    }
}

// The tokens of line i; those of the lines behind it are done.
fn chain_line(lookup: &mut Lookup, numbers: &mut [u32], first: &mut [u16], i: usize)
    requires { let code = lookup.old.code in
        Bounds code.lines.now code.tokens.now × (i < length code.lines.now) × Chained code.lines.now code.tokens.now code.text.now lookup.old.count (line_start code.lines.now (suc i)) numbers.old first.old }
    ensures chained { let code = lookup.old.code in
        Chained code.lines.now code.tokens.now code.text.now lookup.old.count (line_start code.lines.now i) numbers.new first.new }
    ensures kept { (lookup.new.code ≡ lookup.old.code) × (lookup.new.count ≡ lookup.old.count) }
{
    let from = lookup.code.line_start(i);
    let to = lookup.code.line_end(i);
    for p in (from..to).rev() {
        chain_token(lookup, numbers, first, i, p);
    }
}

// No family has a token yet: its first place is behind the last, `end`.
fn no_heads(first: &mut [u16], end: usize)
    requires { end < 65536 }
    ensures { Heads end (length first.old) first.new }
{
    first.fill(narrow(end));
}

// The words of all tokens, and the first place of each family; `first` has no token yet.
fn chain_lines(lookup: &mut Lookup, numbers: &mut [u32], first: &mut [u16])
    requires { let code = lookup.old.code in
        Bounds code.lines.now code.tokens.now × Chained code.lines.now code.tokens.now code.text.now lookup.old.count (line_start code.lines.now (length code.lines.now)) numbers.old first.old }
    ensures { let code = lookup.old.code in
        Chained code.lines.now code.tokens.now code.text.now lookup.old.count 0 numbers.new first.new }
{
    for i in (0..lookup.code.lines.len()).rev() {
        chain_line(lookup, numbers, first, i);
    }
}

// The words of all tokens, and the first place of each family.
pub fn chain_tokens(
    code: &Listing,
    table: &[u16],
    count: usize,
    numbers: &mut [u32],
    first: &mut [u16],
)
    requires { Finds (listing_of code.now) count table.now × Bounds code.now.lines.now code.now.tokens.now × (length numbers.old ≡ length code.now.tokens.now) × (count ≤ length first.old) }
    ensures { Chained code.now.lines.now code.now.tokens.now code.now.text.now count 0 numbers.new first.new }
{
    no_heads(first, code.tokens.len());
    let mut lookup = Lookup::new(code, table, count);
    chain_lines(&mut lookup, numbers, first);
}
