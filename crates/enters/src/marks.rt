// A mark for each source line, made once: by it a scan passes over the lines and headers that can hold no goto.
//
// Making it takes one look at the word of each token, and at the bytes of keywords; asking it constant time. Contracts cite specs/Marks.antt.

#![tactic(auto, using(crate::proofs::MarkRules::marking))]

ghost use Rattle.std.specs.Prelude.{◌≡◌, ◌≤◌, ◌<◌, length, get_or};
ghost use Rattle.definitions.specs.Lists.{position};
ghost use Rattle.definitions.specs.Model.{line, no_token};
ghost use Rattle.model.specs.Listings.{listing_of, tokens_of};
ghost use Rattle.enters.specs.Marks.{has_g, place_mark, Mark, Marked, quiet, quiet_over, own_mark, silent};

use model::kind::Kind;
use model::listing::Listing;
use pieces::piece::{Piece, source};
use plan::{header, initialiser, is_line, piece, step, test};
use pseudo_opt::labels::first_symbol;
use words::{narrow, wide};

// Token k of all is a keyword with the letter g.
fn has_g(code: &Listing, k: usize) -> bool
    ensures { result ≡ has_g (get_or (tokens_of code.now) k no_token) }
{
    code.token_is(k, Kind::Keyword) && text::contains(code.token_text(k), b'g')
}

// The place of the first such token of line i.
fn first_g(code: &Listing, i: usize) -> Option<usize>
    ensures { let l = line (listing_of code.now) i in
        result ≡ position has_g l.tokens }
{
    let s = code.line_start(i);
    let e = code.line_end(i);
    for k in s..e {
        if has_g(code, k) {
            return Some(k - s);
        }
    }
    None
}

// The mark of a line whose goto leads to the symbol at place j.
fn place_mark(j: usize) -> u16
    ensures { result ≡ place_mark j }
{
    if j < 65533 { narrow(j + 3) } else { 2 }
}

// The mark of line i.
fn mark(code: &Listing, i: usize) -> u16
    ensures { Mark (line (listing_of code.now) i) result }
{
    let Some(g) = first_g(code, i) else {
        return 0;
    };
    if !text::equal(code.text_at(i, g), b"goto") {
        return 2;
    }
    match first_symbol(code, i, g) {
        Some(j) => place_mark(j),
        None => 1,
    }
}

// Marks every line.
pub fn mark_lines(code: &Listing, marks: &mut [u16])
    requires { (length code.now.lines.now ≤ 1024) × (length marks.old ≡ 1024) }
    ensures { Marked code.now.lines.now code.now.tokens.now code.now.text.now marks.new }
{
    for i in 0..code.lines.len() {
        marks[i] = mark(code, i);
    }
}

// By the mark of its line, the piece p has no keyword with the letter g.
fn quiet(marks: &[u16], p: usize) -> bool
    requires { (p < 4096) × (length marks.now ≡ 1024) }
    ensures { result ≡ quiet marks.now p }
{
    let m = marks[source(p)];
    match Piece::of(p) {
        Piece::Kept(_) => m == 0,
        Piece::Continued(_) | Piece::Broken(_) | Piece::Closed(_) => m != 2,
    }
}

// The mark of the line that w keeps as it is, else 0.
pub fn own_mark(lines: &[u32], w: usize, marks: &[u16]) -> usize
    requires { length marks.now ≡ 1024 }
    ensures { result ≡ own_mark lines.now marks.now w }
{
    if !is_line(w) {
        return 0;
    }
    let Piece::Kept(i) = Piece::of(piece(w)) else {
        return 0;
    };
    if i < lines.len() { wide(marks[i]) } else { 0 }
}

// Nor has the condition of a header of kind h, of which the piece t is the leading test. Asked of the number: this tells 4 from 5, and
// `Header` does not.
fn quiet_over(marks: &[u16], h: usize, t: usize) -> bool
    requires { (t < 4096) × (length marks.now ≡ 1024) }
    ensures { result ≡ quiet_over marks.now h t }
{
    h % 2 != 1 || quiet(marks, t)
}

// Nor has the line of w, which therefore has no goto.
pub fn silent(marks: &[u16], w: usize) -> bool
    requires { length marks.now ≡ 1024 }
    ensures { result ≡ silent marks.now w }
{
    let h = header(w);
    if h == 0 {
        return quiet(marks, piece(w));
    }
    let over = quiet_over(marks, h, test(w));
    if h < 4 {
        return over;
    }
    over && quiet(marks, initialiser(w)) && quiet(marks, step(w))
}
