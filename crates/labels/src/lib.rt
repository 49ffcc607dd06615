// The labels of a listing, and where its gotos lead.
//
// Labels stand in buckets by the hashes of their names, each put in front in line order, so that of equal ones the last is met first. `heads`
// has 255 buckets, or 1,023 where it has 1,024 words, and behind them the multiplier of the hash. In a full bucket a label takes the place of
// one of its name in front; for any other label, all are put into their buckets anew, by a multiplier drawn from the text, at most 7 times. By
// the first multiplier a bucket is full with 3 labels, so that names chosen against it cost little; by a drawn one with 10, which hardly any
// names come to. `index` takes time linear in the tokens and in the bytes of the labels, and each further time once more that and the bytes of
// the text; `Labels::label_line` in the name and in the labels of its bucket. That few labels share a bucket is measured, not proved. Contracts cite
// `label_line` of Rattle.definitions.specs.FlowGraph.

#![tactic(auto, using(crate::proofs::Buckets::buckets))]

ghost use Rattle.std.specs.Prelude.{◌≡◌, true, false, ℕ, ◌+◌, ◌%◌, ◌≤◌, ◌<◌, length, get_or};
ghost use Rattle.definitions.specs.Model.{line};
ghost use Rattle.definitions.specs.Statements.{is_label};
ghost use Rattle.definitions.specs.FlowGraph.{label_line};
ghost use Rattle.model.specs.Listings.{listing_of};
ghost use Rattle.labels.specs.Buckets.{size, bucket, behind, Follows, Indexed};

pub mod gotos;

use model::listing::Listing;
use pseudo_opt::labels::is_label;

// The first multiplier.
const FIRST: u16 = 19241;

// How many buckets there are.
fn size(heads: &[u16]) -> usize
    requires { 256 ≤ length heads.now }
    ensures { (result ≡ size (length heads.now)) × (result < length heads.now) × (result < 1024) }
{
    if heads.len() < 1024 { 255 } else { 1023 }
}

// The remainder of h by the number of buckets: two divisions by a constant are faster than one by a number.
fn bucket_of(heads: &[u16], h: usize) -> usize
    ensures { (result ≡ h % size (length heads.now)) × (result < 1024) }
{
    if heads.len() < 1024 {
        h % 255
    } else {
        h % 1023
    }
}

// The bucket of a name, for the multiplier that `heads` has.
fn bucket(heads: &[u16], s: &[u8]) -> usize
    requires { 256 ≤ length heads.now }
    ensures { (result ≡ bucket heads.now s.now) × (result < size (length heads.now)) × (result < length heads.now) × (result < 1024) }
{
    bucket_of(heads, names::hash(heads[size(heads)], s))
}

// Line i is a label: of a line that has not two tokens only its word is read.
fn has_label(code: &Listing, i: usize) -> bool
    ensures { result ≡ is_label (line (listing_of code.now) i) }
{
    code.token_count(i) == 2 && is_label(code, i)
}

// From the entry p on there are `most` labels or more. Nothing is promised of it: by a wrong answer labels would only be found more slowly.
fn is_long(nexts: &[u16], p: usize, most: usize) -> bool {
    let mut q = p;
    for _ in 0..most {
        if q == 0 || nexts.len() < q {
            return false;
        }
        q = usize::from(nexts[q - 1]);
    }
    true
}

// The entry behind a label s that is put in front of the entry p: that behind p where p's label has the same name, as it would never be met.
fn behind(code: &Listing, nexts: &[u16], s: &[u8], p: u16) -> u16
    requires { p ≤ length nexts.now }
    ensures { result ≡ behind (listing_of code.now) nexts.now s.now p }
{
    if p == 0 {
        return 0;
    }
    let h = usize::from(p) - 1;
    if text::equal(code.text_at(h, 0), s) {
        nexts[h]
    } else {
        p
    }
}

// The entry to put there: that one where the bucket is full, else p, so that names are compared only in full ones.
fn link(code: &Listing, nexts: &[u16], s: &[u8], p: u16, most: usize) -> u16
    requires { p ≤ length nexts.now }
    ensures { Follows (listing_of code.now) nexts.now s.now p result }
{
    if is_long(nexts, usize::from(p), most) {
        behind(code, nexts, s, p)
    } else {
        p
    }
}

// The label of line i more; answers whether its bucket now holds more than `most` labels.
fn index_label(code: &Listing, heads: &mut [u16], nexts: &mut [u16], i: usize, most: usize) -> bool
    requires i_in_bounds { (i < length code.now.lines.now) × (256 ≤ length heads.old) × (i < length nexts.old) × (i < 1024) }
    requires i_value { is_label (line (listing_of code.now) i) ≡ true }
    requires indexed { Indexed (listing_of code.now) heads.old nexts.old i }
    ensures { let L = listing_of code.now in
        Indexed L heads.new nexts.new (i + 1) }
{
    let s = code.text_at(i, 0);
    let b = bucket(heads, s);
    let p = link(code, nexts, s, heads[b], most);
    nexts[i] = p;
    // A cast: a line's number is at most 1,024, which `TryFrom` would ask again.
    heads[b] = (i + 1) as u16;
    is_long(nexts, usize::from(p), most)
}

// Line i more; answers the same.
fn index_line(code: &Listing, heads: &mut [u16], nexts: &mut [u16], i: usize, most: usize) -> bool
    requires i_in_bounds { (i < length code.now.lines.now) × (256 ≤ length heads.old) × (i < length nexts.old) × (i < 1024) }
    requires indexed { Indexed (listing_of code.now) heads.old nexts.old i }
    ensures { let L = listing_of code.now in
        Indexed L heads.new nexts.new (i + 1) }
{
    if has_label(code, i) {
        index_label(code, heads, nexts, i, most)
    } else {
        nexts[i] = 0;
        false
    }
}

// Puts the labels into their buckets for the multiplier m; answers whether all are there. Where there are more multipliers, it stops at a bucket
// that holds more than `most`.
fn index_all(
    code: &Listing,
    heads: &mut [u16],
    nexts: &mut [u16],
    m: u16,
    most: usize,
    more: bool,
) -> bool
    requires in_bounds { (256 ≤ length heads.old) × (length code.now.lines.now ≤ length nexts.old) × (length code.now.lines.now ≤ 1024) }
    requires by_index { (b : ℕ) → b < size (length heads.old) → get_or heads.old b 0 ≡ 0 }
    ensures indexed { let L = listing_of code.now in
        result ≡ true → Indexed L heads.new nexts.new (length code.now.lines.now) }
    ensures value { more ≡ false → result ≡ true }
{
    let c = size(heads);
    heads[c] = m;
    // A copy, for speed: what is written does not change it, so that it is read once.
    let code = *code;
    for i in 0..code.lines.len() {
        if index_line(&code, heads, nexts, i, most) && more {
            return false;
        }
    }
    true
}

// Puts every label into its bucket. The buckets are empty, and there is an entry for each line. By the first multiplier, 500 labels such as
// label_12, L7 or loc_401a3c are at most 3 to a bucket of 1,023, and 64 at most 2 to a bucket of 255.
pub fn index(code: &Listing, heads: &mut [u16], nexts: &mut [u16])
    requires in_bounds { (256 ≤ length heads.old) × (length code.now.lines.now ≤ length nexts.old) × (length code.now.lines.now ≤ 1024) }
    requires by_index { (b : ℕ) → get_or heads.old b 0 ≡ 0 }
    ensures { let L = listing_of code.now in
        Indexed L heads.new nexts.new (length code.now.lines.now) }
{
    let mut m = FIRST;
    let mut most: usize = 3;
    for _ in 0..7 {
        if index_all(code, heads, nexts, m, most, true) {
            return;
        }
        heads.fill(0);
        m = names::next(m, code.text);
        most = 10;
    }
    index_all(code, heads, nexts, m, most, false);
}

// A listing whose labels are in their buckets.
#[derive(Clone, Copy)]
pub struct Labels<'c, 'a, 'm> {
    pub code: Listing<'c, 'a>,
    pub heads: &'m [u16],
    pub nexts: &'m [u16],
    pub ghost heads_room: { 256 ≤ length heads.now },
    pub ghost nexts_room: { length code.lines.now ≤ length nexts.now },
    pub ghost indexed: { Indexed (listing_of code) heads.now nexts.now (length code.lines.now) },
}

impl<'c, 'a, 'm> Labels<'c, 'a, 'm> {
    // The buckets are empty, and there is an entry for each line.
    pub fn new(code: &Listing<'c, 'a>, heads: &'m mut [u16], nexts: &'m mut [u16]) -> Self
        requires in_bounds { (256 ≤ length heads.old) × (length code.now.lines.now ≤ length nexts.old) × (length code.now.lines.now ≤ 1024) }
        requires by_index { (b : ℕ) → get_or heads.old b 0 ≡ 0 }
        ensures { result.code ≡ code.now }
    {
        index(code, heads, nexts);
        Labels {
            code: *code,
            heads,
            nexts,
        }
    }

    // The line of the label s, of equal ones the last.
    pub fn label_line(&self, s: &[u8]) -> Option<usize>
        ensures { result ≡ label_line (listing_of self.now.code) s.now }
    {
        let b = bucket(self.heads, s);
        // A `while`: it goes from label to label of a bucket, which is no range.
        let mut p = usize::from(self.heads[b]);
        while p != 0 {
            let h = p - 1;
            if text::equal(self.code.text_at(h, 0), s) {
                return Some(h);
            }
            p = usize::from(self.nexts[h]);
        }
        None
    }
}
