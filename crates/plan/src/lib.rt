// The plan of a loop pass: a word for each current line of the vector that the Rust edits, in a lent slice. Its first n words count.
//
// `remove`, `remove_two`, `move_out` and `make_for` take a step for each word that they pass, as `Vec::remove` and the Rust's loops do, the others
// constant time. Contracts cite specs/Plan.antt, and `remove`, `part`, `all` and `on_part` of Rattle.definitions.specs.Lists.

#![tactic(auto, using(crate::proofs::Loops::starting, crate::proofs::Loops::moving, crate::proofs::Loops::made_for))]

pub mod headers;

ghost use Rattle.std.specs.Prelude.{◌≡◌, true, ◌+◌, ◌-◌, ◌/◌, ◌%◌, ◌<◌, ◌≤◌, length, take};
ghost use Rattle.definitions.specs.Lists.{part, all, remove, on_part};
ghost use Rattle.plan.specs.Plan.{indent_at, header_at, piece_at, test_at, initialiser_at, step_at};
ghost use Rattle.plan.specs.Changes.{is_out, moved_out, for_word, with_for, kept_words, is_line};

// A pass works out an indent beyond 0 to 255.
#[derive(Clone, Copy)]
pub struct Overflow;

// Reading a word

pub fn indent(w: usize) -> usize
    ensures { (result ≡ indent_at w) × (result < 256) }
{
    w % 256
}

pub fn header(w: usize) -> usize
    ensures { (result ≡ header_at w) × (result < 8) }
{
    w / 256 % 8
}

// The word is of no header.
pub fn is_line(w: usize) -> bool
    ensures { result ≡ is_line w }
{
    header(w) == 0
}

pub fn piece(w: usize) -> usize
    ensures { (result ≡ piece_at w) × (result < 4096) }
{
    w / 256 / 8 % 4096
}

pub fn test(w: usize) -> usize
    ensures { (result ≡ test_at w) × (result < 4096) }
{
    w / 256 / 8 / 4096 % 4096
}

pub fn initialiser(w: usize) -> usize
    ensures { (result ≡ initialiser_at w) × (result < 4096) }
{
    w / 256 / 8 / 4096 / 4096 % 4096
}

pub fn step(w: usize) -> usize
    ensures { (result ≡ step_at w) × (result < 4096) }
{
    w / 256 / 8 / 4096 / 4096 / 4096 % 4096
}

// The line that the word's piece is made of.
pub fn source(w: usize) -> usize
    ensures { result ≡ piece_at w / 4 }
{
    piece(w) / 4
}

// Changing a plan

// Each line as it is.
pub fn start(lines: &[u32], plan: &mut [usize])
    requires { (length lines.now ≤ length plan.old) × (length lines.now ≤ 1024) }
    ensures { take (length lines.now) plan.new ≡ kept_words 0 lines.now }
{
    for i in 0..lines.len() {
        plan[i] = text::word(lines, i) % 256 + 8192 * i;
    }
}

// Removes word i.
pub fn remove(plan: &mut [usize], n: usize, i: usize)
    requires { (i < n) × (n ≤ length plan.old) }
    ensures { take (n - 1) plan.new ≡ remove i (take n plan.old) }
{
    plan.copy_within(i + 1..n, i);
}

// Removes words i and w. Each word moves once.
pub fn remove_two(plan: &mut [usize], n: usize, i: usize, w: usize)
    requires { (i < w) × (w < n) × (n ≤ length plan.old) }
    ensures { take (n - 2) plan.new ≡ remove i (remove w (take n plan.old)) }
{
    plan.copy_within(i + 1..w, i);
    plan.copy_within(w + 1..n, w - 1);
}

// Moves the lines from a up to e out by one; false where one of them has indent 0.
pub fn move_out(plan: &mut [usize], n: usize, a: usize, e: usize) -> bool
    requires { (a ≤ e) × (e ≤ n) × (n ≤ length plan.old) }
    ensures value { result ≡ all is_out (part a e (take n plan.old)) }
    ensures plan_after { result ≡ true → take n plan.new ≡ on_part a e moved_out (take n plan.old) }
{
    for k in a..e {
        let w = plan[k];
        if w % 256 == 0 {
            return false;
        }
        plan[k] = w - 1;
    }
    true
}

// The while header v as a for header, with the pieces of the initialiser a and of the step z.
fn for_word(v: usize, a: usize, z: usize) -> usize
    ensures { result ≡ for_word v a z }
{
    indent(v)
        + 256
            * (header(v) % 4
                + 4
                + 8 * (piece(v) + 4096 * (test(v) + 4096 * (piece(a) + 4096 * piece(z)))))
}

// The while header at w, whose body is closed at e, becomes a for header with the initialiser at k: two lines fewer.
pub fn make_for(plan: &mut [usize], n: usize, w: usize, e: usize, k: usize)
    requires { (k < w) × (w + 2 ≤ e) × (e < n) × (n ≤ length plan.old) }
    ensures { take (n - 2) plan.new ≡ with_for (take n plan.old) w e k }
{
    let v = plan[w];
    let a = plan[k];
    let z = plan[e - 1];
    let h = for_word(v, a, z);
    plan[w] = h;
    remove_two(plan, n, k, e - 1);
}
