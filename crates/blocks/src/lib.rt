// The brace structure of a listing, in time linear in its tokens and bytes.
//
// An entry of a column is 0 for none, else a line + 1. The openers of the blocks still open are kept as a chain: the innermost, then the
// opener around it, and so on, with a count for each line, which may open several. Contracts cite `blocks` of
// Rattle.definitions.specs.Blocks.

#![tactic(auto)]

ghost use Rattle.std.specs.Prelude.{◌≡◌, cond, ◌+◌, ◌-◌, ◌≤◌, ◌<◌, eqb, ltb, length, get_or, set};
ghost use Rattle.definitions.specs.Blocks.{Open};
ghost use Rattle.model.specs.Listings.{listing_of};
ghost use Rattle.blocks.specs.Structure.{Matched};
ghost use Rattle.blocks.specs.Stack.{Held, Closed};

use model::listing::Listing;

// One block less of line h, which is the innermost opener; answers the entry of the innermost opener then.
fn pop(parents: &[u16], counts: &mut [usize], h: usize) -> usize
    requires { (h < length parents.now) × (h < length counts.old) × (0 < get_or counts.old h 0) }
    ensures value { result ≡ cond (eqb (get_or counts.old h 0) 1) (get_or parents.now h 0) (h + 1) }
    ensures counts_after { counts.new ≡ set counts.old h (get_or counts.old h 0 - 1) }
{
    let c = counts[h];
    counts[h] = c - 1;
    if c == 1 {
        usize::from(parents[h])
    } else {
        h + 1
    }
}

// Line i closes k blocks.
fn close(
    ends: &mut [u16],
    parents: &[u16],
    counts: &mut [usize],
    top: usize,
    i: usize,
    k: usize,
) -> Option<usize>
    requires i_in_bounds { (i < length ends.old) × (i < length parents.now) × (i < length counts.old) × (i < 1024) }
    requires held { (o : Open) × Held ends.old parents.now counts.old top i o × (i < length o.ends) }
    ensures { (o : Open) → Held ends.old parents.now counts.old top i o → i < length o.ends → Closed i k o ends.new parents.now counts.new result }
{
    let mut p = top;
    for j in 0..k {
        if p == 0 {
            return None;
        }
        let h = p - 1;
        // A cast: a line's number is at most 1,024, which `TryFrom` would ask again.
        ends[h] = (i + 1) as u16;
        p = pop(parents, counts, h);
    }
    Some(p)
}

// Line i opens k blocks; it lies itself in those that were open before, p being the innermost.
fn enter(
    ends: &mut [u16],
    parents: &mut [u16],
    counts: &mut [usize],
    p: usize,
    i: usize,
    k: usize,
) -> usize
    requires { (i < length ends.old) × (i < length parents.old) × (i < length counts.old) × (i < 1024) × (p ≤ i) }
    ensures value { result ≡ cond (ltb 0 k) (i + 1) p }
    ensures ends_after { ends.new ≡ set ends.old i 0 }
    ensures parents_after { parents.new ≡ set parents.old i p }
    ensures counts_after { counts.new ≡ set counts.old i k }
{
    ends[i] = 0;
    // A cast, as in `close`.
    parents[i] = p as u16;
    counts[i] = k;
    if 0 < k { i + 1 } else { p }
}

// For each line the entry of the line that closes its block (of several blocks, the last), and of the innermost opener around it; answers
// whether every brace matches. The columns have room for an entry for each line.
pub fn blocks(code: &Listing, ends: &mut [u16], parents: &mut [u16], counts: &mut [usize]) -> bool
    requires { let n = length code.now.lines.now in
        (n ≤ length ends.old) × (n ≤ length parents.old) × (n ≤ length counts.old) × (n ≤ 1024) }
    ensures { let L = listing_of code.now in
        Matched L ends.new parents.new result }
{
    let mut top = 0;
    for i in 0..code.lines.len() {
        let b = braces::line_braces(code, i);
        let closes = b.closes;
        let opens = b.opens;
        let Some(p) = close(ends, parents, counts, top, i, closes) else {
            return false;
        };
        top = enter(ends, parents, counts, p, i, opens);
    }
    top == 0
}
