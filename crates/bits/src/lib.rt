// Bit rows in one lent slice of 64-bit words, and the edges of a flow graph as two matrices of such rows.
//
// Bit a of a slice is bit a % 64 of its word a / 64. A row is given by its first word and its number of words; the functions on rows
// take a step a word, and `or_row` one word without a loop, since most rows that it joins have one. `find_bit` takes a step a word that it
// looks at. Casts are between `u64` or `u32` and `usize`, which have no `From`.
//
// For n lines and rows of r words, n + 64 <= 64 r:
//   words [0, n r)         predecessors: bit i of row j says that line i steps to line j
//   words [n r, 2 n r)     successors: bit j of row i says the same
// The last word of a row has no line's bit. It is the row's span: the row's first bit is span % 65536, and its bits lie below span / 65536;
// the span of an empty row is 0.
// `add_edge` sets two bits and widens two spans; `row_span` answers where a row's bits lie. The contracts cite `bit`, `Filled`, `edges`,
// `succs`, `Spanned` and `Agree` of specs/; `preds_of` gives the predecessor lists that the sweeps of Rattle.definitions.specs.Sweeps are over.

#![tactic(auto, using(crate::proofs::RowLaws::row_rules, crate::proofs::EdgeLaws::edge_rules))]

ghost use Rattle.std.specs.Prelude.{◌≡◌, true, false, ◌&&◌, ◌+◌, ◌*◌, ◌/◌, ◌<◌, ◌≤◌, length, eqb, ltb};
ghost use Rattle.bits.specs.Rows.{bit, Filled, Zero, WithBit, joined, joined_low, copied, Put, First};
ghost use Rattle.bits.specs.Edges.{Matrices, Spanned, Widened, Widen, Noted, Between, NoEdges, Added};

pub fn get_bit(s: &[u64], a: usize) -> bool
    requires { a / 64 < length s.now }
    ensures { result ≡ bit s.now a }
{
    (s[a / 64] >> (a % 64)) % 2 == 1
}

fn set_bit(s: &mut [u64], a: usize)
    requires { a / 64 < length s.old }
    ensures { WithBit s.old s.new a }
{
    let w = a / 64;
    s[w] |= 1 << (a % 64);
}

pub fn clear_row(s: &mut [u64], w: usize, r: usize)
    requires { w + r ≤ length s.old }
    ensures filled { Filled s.old s.new w r (λ k. false) }
    ensures zero { Zero s.new w r }
{
    s[w..w + r].fill(0);
}

// Sets every bit of a row.
pub fn fill_row(s: &mut [u64], w: usize, r: usize)
    requires { w + r ≤ length s.old }
    ensures { Filled s.old s.new w r (λ k. true) }
{
    s[w..w + r].fill(u64::MAX);
}

// Row w joined with row u, which stands before it.
pub fn or_row(s: &mut [u64], w: usize, u: usize, r: usize)
    requires { (u + r ≤ w) × (w + r ≤ length s.old) }
    ensures { Filled s.old s.new w r (joined s.old w u) }
{
    if r == 1 {
        let x = s[w] | s[u];
        put(s, w, x);
        return;
    }
    for k in 0..r {
        s[w + k] |= s[u + k];
    }
}

// The bits of row u up to bit k, joined to row w, which stands after it.
pub fn or_low(s: &mut [u64], w: usize, u: usize, k: usize)
    requires { (u + (k / 64 + 1) ≤ w) × (w + (k / 64 + 1) ≤ length s.old) }
    ensures { Filled s.old s.new w (k / 64 + 1) (joined_low s.old w u k) }
{
    let q = k / 64;
    or_row(s, w, u, q);
    let h = 63 - k % 64;
    s[w + q] |= (s[u + q] << h) >> h;
}

// The word x at place w; answers whether that is a change.
pub fn put(s: &mut [u64], w: usize, x: u64) -> bool
    requires { w < length s.old }
    ensures { Put s.old s.new w x result }
{
    let changed = s[w] != x;
    if changed {
        s[w] = x;
    }
    changed
}

// Row u, which stands after row w, copied to row w. A loop, and no `copy_within`, which is slower where a row has one word, as most have.
pub fn copy_row(s: &mut [u64], w: usize, u: usize, r: usize)
    requires { (w + r ≤ u) × (u + r ≤ length s.old) }
    ensures { Filled s.old s.new w r (copied s.old u) }
{
    for i in 0..r {
        s[w + i] = s[u + i];
    }
}

// Bit a is one below e, and set.
fn is_here(s: &[u64], a: usize, e: usize) -> bool
    requires { e ≤ length s.now * 64 }
    ensures { result ≡ (ltb a e && bit s.now a) }
{
    a < e && get_bit(s, a)
}

// The first set bit from a on, below e; e where there is none. Bit a itself is tested first: in a sweep it mostly is set, and a test that the
// processor foresees does not make it wait for the word.
pub fn find_bit(s: &[u64], a: usize, e: usize) -> usize
    requires { (a ≤ e) × (e ≤ length s.now * 64) × (e < 1000000000) }
    ensures { First s.now a e result }
{
    if is_here(s, a, e) {
        return a;
    }
    let mut p = a;
    // A `while`: it goes from the word of bit a to the next ones, and the first is looked at from its middle on.
    while p < e {
        let x = s[p / 64] >> (p % 64);
        if x != 0 {
            let q = p + x.trailing_zeros() as usize;
            return q.min(e);
        }
        p = (p / 64 + 1) * 64;
    }
    e
}

// The first word of row i of n rows of r words.
pub fn row(n: usize, r: usize, i: usize) -> usize
    requires { (i < n) × (n * r ≤ 65536) }
    ensures { (result ≡ i * r) × (result + r ≤ n * r) }
{
    i * r
}

// Clears both matrices.
pub fn no_edges(space: &mut [u64], n: usize, r: usize)
    requires { Matrices n r space.old }
    ensures { NoEdges n r space.old space.new }
{
    clear_row(space, 0, n * r + n * r);
}

// The span with bit p.
fn widened(span: u64, p: u64) -> u64
    requires { p < 65536 }
    ensures { Widened span p result }
{
    let low = span % 65536;
    let end = span / 65536;
    if end == 0 {
        return (p + 1) * 65536 + p;
    }
    if p < low {
        return end * 65536 + p;
    }
    if end <= p {
        return (p + 1) * 65536 + low;
    }
    span
}

// The span at word v, with bit p.
fn widen(s: &mut [u64], v: usize, p: usize)
    requires { (v < length s.old) × (p < 65536) }
    ensures { Widen s.old s.new v p }
{
    let x = widened(s[v], p as u64);
    s[v] = x;
}

// Bit p of the row of lines at word u, and the row's span.
fn note(s: &mut [u64], n: usize, r: usize, u: usize, p: usize)
    requires { (n + 64 ≤ r * 64) × (u + r ≤ length s.old) × (p < n) × (p < 65536) × (u + r < 200000) }
    ensures { Noted n r u p s.old s.new }
{
    set_bit(s, u * 64 + p);
    widen(s, u + r - 1, p);
}

// Where the bits of a row of lines lie: from bit `from`, the first, on, below bit `end`.
#[derive(Clone, Copy)]
pub struct Span {
    pub from: usize,
    pub end: usize,
}

// Where the bits of the row of lines at word u lie.
pub fn row_span(s: &[u64], n: usize, r: usize, u: usize) -> Span
    requires { (n + 64 ≤ r * 64) × (u + r ≤ length s.now) × (u + r < 200000) × Spanned n r s.now u }
    ensures { Between n s.now u result }
{
    let x = s[u + r - 1] as usize;
    Span {
        from: u * 64 + x % 65536,
        end: u * 64 + x / 65536,
    }
}

// The edge from line p to line q, in both matrices.
pub fn add_edge(space: &mut [u64], n: usize, r: usize, p: usize, q: usize)
    requires { Matrices n r space.old × (p < n) × (q < n) }
    ensures { Added n r p q space.old space.new }
{
    let before = row(n, r, q);
    note(space, n, r, before, p);
    let after = n * r + row(n, r, p);
    note(space, n, r, after, q);
}
