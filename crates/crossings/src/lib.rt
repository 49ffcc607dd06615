// The lines that gotos cross, in time linear in the tokens and in the bytes of labels and targets.
//
// A goto crosses the lines behind the first of its two lines up to and with the second, whichever way it leads. So a column with one word
// for each line suffices: the last line that a goto joins it with. Contracts cite `all_jumps` and `crosses` of
// Rattle.definitions.specs.SplitPoints.

#![tactic(auto, using(crate::proofs::Joins::joins))]

ghost use Rattle.std.specs.Prelude.{◌≡◌, [], ◌∷◌, ℕ, max, min, ◌≤◌, ◌<◌, length, get_or, set};
ghost use Rattle.definitions.specs.Lists.{to_list, any};
ghost use Rattle.definitions.specs.SplitPoints.{all_jumps, crosses};
ghost use Rattle.model.specs.Listings.{listing_of, tokens_of};
ghost use Rattle.labels.specs.Gotos.{goto_line};
ghost use Rattle.crossings.specs.Crossed.{goto, gotos, line_gotos, crossed, Marked};

use labels::Labels;
use labels::gotos::next_goto;
use model::listing::Listing;
use words::{narrow, word};

// Line a is joined with line b.
fn join(far: &mut [u16], a: usize, b: usize)
    requires { (a < length far.old) × (b < 65536) }
    ensures { far.new ≡ set far.old a (max (get_or far.old a 0) b) }
{
    let v = word(far, a).max(narrow(b));
    far[a] = v;
}

// A goto from line i to line q.
fn mark(far: &mut [u16], i: usize, q: usize)
    requires { (i < length far.old) × (q < length far.old) × (length far.old ≤ 1024) }
    ensures { Marked far.old far.new (goto i q ∷ []) }
{
    let a = i.min(q);
    let b = i.max(q);
    join(far, a, b);
}

// A goto of line i, behind which the line's tokens stand from place `from` up to place e, if it leads to a label.
fn mark_goto(labels: &Labels, far: &mut [u16], i: usize, from: usize, e: usize)
    requires { let code = labels.now.code in
        (i < length code.lines.now) × (length code.lines.now ≤ length far.old) × (length far.old ≤ 1024) × (e ≤ length code.tokens.now) }
    ensures { let code = labels.now.code in
        Marked far.old far.new (gotos i (to_list (goto_line (listing_of code) (tokens_of code) from e))) }
{
    if let Some(q) = labels.goto_line(from, e) {
        mark(far, i, q);
    }
}

// The gotos of line i.
fn mark_line(labels: &Labels, far: &mut [u16], i: usize)
    requires { let code = labels.now.code in
        (i < length code.lines.now) × (length code.lines.now ≤ length far.old) × (length far.old ≤ 1024) }
    ensures { Marked far.old far.new (line_gotos (listing_of labels.now.code) i) }
{
    let code = labels.code;
    let e = code.line_end(i);
    // A `while`: it goes from goto to goto, which is no range.
    let mut goto = next_goto(&code, code.line_start(i), e);
    while let Some(k) = goto {
        let b = k + 1;
        mark_goto(labels, far, i, b, e);
        goto = next_goto(&code, b, e);
    }
}

// The gotos of every line.
fn mark_lines(labels: &Labels, far: &mut [u16])
    requires { let code = labels.now.code in
        (length code.lines.now ≤ length far.old) × (length far.old ≤ 1024) }
    ensures { Marked far.old far.new (all_jumps (listing_of labels.now.code)) }
{
    // A copy, for speed: what is written does not change it, so that it is read once.
    let labels = *labels;
    for i in 0..labels.code.lines.len() {
        mark_line(&labels, far, i);
    }
}

// The gotos of every line, the labels looked for first, in local columns: for each line N entries have room, and there are H words of buckets. To
// zero them is most of what a short listing costs.
fn mark_all<const N: usize, const H: usize>(code: &Listing, far: &mut [u16])
    requires far_room { (length code.now.lines.now ≤ length far.old) × (length far.old ≤ 1024) }
    requires room { (length code.now.lines.now ≤ N) × (N ≤ 1024) × (256 ≤ H) × (H ≤ 1024) }
    ensures { Marked far.old far.new (all_jumps (listing_of code.now)) }
{
    let mut heads = [0u16; H];
    let mut nexts = [0u16; N];
    let labels = Labels::new(code, &mut heads, &mut nexts);
    mark_lines(&labels, far);
}

// The lines that the gotos of a listing cross. The column is empty, and there is an entry for each line. Labels are looked for only where there
// is a goto.
pub fn crossings(code: &Listing, far: &mut [u16])
    requires lines_in_bounds { (length code.now.lines.now ≤ length far.old) × (length far.old ≤ 1024) }
    requires by_index { (b : ℕ) → get_or far.old b 0 ≡ 0 }
    ensures { (k : ℕ) → crossed far.new k ≡ any (crosses k) (all_jumps (listing_of code.now)) }
{
    if next_goto(code, 0, code.tokens.len()).is_none() {
        return;
    }
    if code.lines.len() <= 64 {
        mark_all::<64, 256>(code, far);
    } else {
        mark_all::<1024, 1024>(code, far);
    }
}
