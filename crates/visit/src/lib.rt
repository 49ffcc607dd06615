// A visit of one line, over bit rows: the body of the inner loop of `recover` of pseudo_ssa.rs.
//
// The lines of a family's definitions are numbered 1, 2, .. in order, and 0 is the entry value: bit b of a row of definitions is
// definition number b. Module `layout` says where the rows stand.
//
// A visit takes w steps and w for each predecessor, and looks only at the words where the line's predecessors lie, and its successors
// where the row changes: mostly one. Contracts cite specs/Steps.antt.

#![tactic(auto, using(crate::proofs::StepLaws::step_rules))]

ghost use Rattle.std.specs.Prelude.{◌≡◌, true, [], ◌+◌, ◌*◌, ◌<◌, ◌≤◌, get_or, eqb};
ghost use Rattle.definitions.specs.Lists.{any};
ghost use Rattle.bits.specs.Rows.{Filled};
ghost use Rattle.bits.specs.Edges.{Agree, preds_of, Between};
ghost use Rattle.visit.specs.Layout.{base, making, Fits, outs};
ghost use Rattle.visit.specs.Steps.{Word, coming, given, Visit, Full, Ahead, Back, Marked, Step};

use bits::Span;
use layout::{Definitions, Layout};

pub mod layout;

// Word k of a row in which bit d alone is set.
fn bit_word(k: usize, d: usize) -> u64
    ensures { Word k result (λ b. eqb b d) }
{
    if d / 64 == k { 1 << (d % 64) } else { 0 }
}

impl Layout {
    // The first word of the outgoing rows.
    fn base(self) -> usize
        ensures { result ≡ base self.n self.r }
    {
        self.next() + self.r
    }

    // The first word of the predecessors of line i.
    fn preds(self, i: usize) -> usize
        requires { i < self.n }
        ensures { (result ≡ i * self.r) × (result + self.r ≤ self.n * self.r) }
    {
        bits::row(self.n, self.r, i)
    }

    // The first word of its successors.
    fn succs(self, i: usize) -> usize
        requires { i < self.n }
        ensures { (result ≡ self.n * self.r + i * self.r) × (result + self.r ≤ self.n * self.r + self.n * self.r) }
    {
        self.n * self.r + bits::row(self.n, self.r, i)
    }

    // The first word of its outgoing row.
    fn outgoing(self, i: usize) -> usize
        requires { i < self.n }
        ensures { (result ≡ base self.n self.r + i * self.w) × (result + self.w ≤ making self.n self.r self.w) }
    {
        self.base() + bits::row(self.n, self.w, i)
    }
    // Word k of what the predecessors of line i have.
    fn gather_word(self, space: &[u64], i: usize, k: usize) -> u64
        requires { Fits self.n self.r self.w space.now × (i < self.n) × (k < self.w) × Agree self.n self.r space.now }
        ensures { Word k result (λ b. any (outs self.n self.r self.w space.now b) (get_or (preds_of self.n self.r space.now) i [])) }
    {
        let base = self.base() + k;
        let u = self.preds(i);
        let x = bits::row_span(space, self.n, self.r, u);
        let a = u * 64;
        let e = x.end;
        let mut y = 0;
        let mut q = x.from;
        // A `while`: it goes from set bit to set bit, which is no range.
        while q < e {
            let v = bits::row(self.n, self.w, q - a);
            y |= space[base + v];
            q = bits::find_bit(space, q + 1, e);
        }
        y
    }

    // Word k of what comes to line i. Line 0 takes only the entry.
    fn coming_word(self, space: &[u64], i: usize, k: usize) -> u64
        requires { Fits self.n self.r self.w space.now × (i < self.n) × (k < self.w) × Agree self.n self.r space.now }
        ensures { Word k result (λ b. coming (preds_of self.n self.r space.now) b (outs self.n self.r self.w space.now b) i) }
    {
        if i == 0 {
            return bit_word(k, 0);
        }
        self.gather_word(space, i, k)
    }

    // The row in the making: what comes to line i.
    pub fn coming_row(self, space: &mut [u64], i: usize)
        requires { Fits self.n self.r self.w space.old × (i < self.n) × Agree self.n self.r space.old }
        ensures { Filled space.old space.new (making self.n self.r self.w) self.w (λ b. coming (preds_of self.n self.r space.old) b (outs self.n self.r self.w space.old b) i) }
    {
        let t = self.making();
        for k in 0..self.w {
            let y = self.coming_word(space, i, k);
            space[t + k] = y;
        }
    }

    // Where the successors of line i lie.
    fn succs_span(self, space: &[u64], i: usize) -> Span
        requires { Fits self.n self.r self.w space.now × (i < self.n) × Agree self.n self.r space.now }
        ensures { Between self.n space.now (self.n * self.r + i * self.r) result }
    {
        bits::row_span(space, self.n, self.r, self.succs(i))
    }

    // Puts the successors of line i, which lie in x, on this sweep's list. Those at or below i are passed already. In the first sweep every line
    // is on it.
    fn mark_ahead(self, space: &mut [u64], i: usize, x: Span, first: bool)
        requires { Fits self.n self.r self.w space.old × (i < self.n) × Between self.n space.old (self.n * self.r + i * self.r) x × (first ≡ true → Full self.n self.r space.old) }
        ensures { Ahead self.n self.r i space.old space.new }
    {
        if first {
            return;
        }
        let s = self.succs(i);
        let f = x.from / 64;
        bits::or_row(space, self.todo() + (f - s), f, (x.end + 63) / 64 - f);
    }

    // Puts those that are at or below it on the next sweep's list.
    fn mark_back(self, space: &mut [u64], i: usize, x: Span)
        requires { Fits self.n self.r self.w space.old × (i < self.n) × Between self.n space.old (self.n * self.r + i * self.r) x }
        ensures { Back self.n self.r i space.old space.new }
    {
        let s = self.succs(i);
        let own = s * 64 + i;
        if own < x.from {
            return;
        }
        let f = x.from / 64;
        bits::or_low(space, self.next() + (f - s), f, own - f * 64);
    }

    // Puts the successors of line i on the lists.
    fn mark(self, space: &mut [u64], i: usize, first: bool)
        requires { Fits self.n self.r self.w space.old × (i < self.n) × Agree self.n self.r space.old × (first ≡ true → Full self.n self.r space.old) }
        ensures { Marked self.n self.r i space.old space.new }
    {
        let x = self.succs_span(space, i);
        self.mark_ahead(space, i, x, first);
        self.mark_back(space, i, x);
    }
}

impl Definitions<'_> {
    // Word k of what line i is given.
    fn given_word(&self, space: &[u64], i: usize, k: usize) -> u64
        requires { let m = self.now.layout in Fits m.n m.r m.w space.now × (i < m.n) × (k < m.w) × Agree m.n m.r space.now }
        ensures { let m = self.now.layout in Word k result (λ b. given (preds_of m.n m.r space.now) self.now.nums.now b (outs m.n m.r m.w space.now b) i) }
    {
        let d = self.nums[i];
        if d == 0 {
            return self.layout.coming_word(space, i, k);
        }
        bit_word(k, usize::from(d))
    }

    // Visits line i where a row is one word, without a loop; answers whether its outgoing row changed.
    fn visit_word(&self, space: &mut [u64], i: usize) -> bool
        requires { let m = self.now.layout in Fits m.n m.r m.w space.old × (m.w ≡ 1) × (i < m.n) × Agree m.n m.r space.old }
        ensures { let m = self.now.layout in Visit m.n m.r 1 i self.now.nums.now space.old space.new result }
    {
        let x = self.given_word(space, i, 0);
        bits::put(space, self.layout.base() + i, x)
    }

    // Visits line i; answers whether its outgoing row changed. A word of a row depends only on that word of the others, so each is written as
    // soon as it is known.
    fn visit_line(&self, space: &mut [u64], i: usize) -> bool
        requires { let m = self.now.layout in Fits m.n m.r m.w space.old × (i < m.n) × Agree m.n m.r space.old }
        ensures { let m = self.now.layout in Visit m.n m.r m.w i self.now.nums.now space.old space.new result }
    {
        if self.layout.w == 1 {
            return self.visit_word(space, i);
        }
        let u = self.layout.outgoing(i);
        let mut changed = false;
        for k in 0..self.layout.w {
            let x = self.given_word(space, i, k);
            let c = bits::put(space, u + k, x);
            changed |= c;
        }
        changed
    }

    // Visits line i, and puts its successors on the lists where it changed; answers whether it did.
    pub fn step_line(&self, space: &mut [u64], i: usize, first: bool) -> bool
        requires { let m = self.now.layout in Fits m.n m.r m.w space.old × (i < m.n) × Agree m.n m.r space.old × (first ≡ true → Full m.n m.r space.old) }
        ensures { let m = self.now.layout in Step m.n m.r m.w i self.now.nums.now space.old space.new result }
    {
        let changed = self.visit_line(space, i);
        if changed {
            self.layout.mark(space, i, first);
        }
        changed
    }
}
