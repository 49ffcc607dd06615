// Rows, in a lent slice. Each function takes time linear in what it writes and in the tokens that it looks at.
//
// Contracts: `Wrote` of Rattle.json_append.specs.Appended, of the texts of this crate's specs/Rows.antt.

#![tactic(auto, using(crate::proofs::RowRules::row_rules), unfolding(crate::specs::Rows::number_text, crate::specs::Rows::place_text, crate::specs::Rows::web_text, crate::specs::Rows::refused_text))]

pub mod columns;
mod names;

ghost use Rattle.std.specs.Prelude.{◌≡◌, ◌-◌, ◌≤◌, length, get_or};
ghost use Rattle.definitions.specs.Model.{no_token};
ghost use Rattle.definitions.specs.Family.{fam_of};
ghost use Rattle.family.specs.Register.{family_of};
ghost use Rattle.model.specs.Places.{line_start};
ghost use Rattle.model.specs.Listings.{tokens_of};
ghost use Rattle.json_append.specs.Appended.{Appended, Wrote};
ghost use Rattle.rows.specs.Rows.{name_of, number_text, place_text, mark_text, web_text, row_text, row_at, line_rows, all_rows, refused_text, Short};

use crate::names::put_name;
use family::{Register, fam_of};
use json_append::writer::Writer;
use model::listing::Listing;

// The number of a token without a family, as the calls answer it: C's columns have no `Option`.
const NO_FAMILY: usize = 4294967295;

// n and a blank.
fn put_number(to: &mut Writer, n: usize)
    ensures { Wrote to.old (number_text n) to.new }
{
    // A cast: std has no `From` of `usize` to 64 bits.
    to.put_decimal(n as u64);
    to.put_byte(b' ');
}

fn put_place(to: &mut Writer, i: usize, j: usize, s: &[u8], r: Option<Register>)
    ensures { Wrote to.old (place_text i j (name_of (family_of s.now r))) to.new }
{
    put_number(to, i);
    put_number(to, j);
    put_name(to, s, r);
}

fn put_mark(to: &mut Writer, mark: usize)
    ensures { Wrote to.old (mark_text mark) to.new }
{
    to.put(if mark == 1 { b" D\n" } else { b" U\n" });
}

fn put_web(to: &mut Writer, web: usize, mark: usize)
    ensures { Wrote to.old (web_text web mark) to.new }
{
    to.put_byte(b'#');
    to.put_decimal(web as u64);
    put_mark(to, mark);
}

// The row of token k of all, which is token j of line i.
fn put_row(to: &mut Writer, code: &Listing, i: usize, j: usize, k: usize, web: usize, mark: usize)
    ensures { Wrote to.old
        (row_text i j (name_of (fam_of (get_or (tokens_of code.now) k no_token))) web mark) to.new }
{
    let s = code.token_text(k);
    let r = fam_of(code.token_kind(k), s);
    put_place(to, i, j, s, r);
    put_web(to, web, mark);
}

// The row of token k of all, which is in line i, where it has a family.
fn put_token(to: &mut Writer, code: &Listing, numbers: &[u32], marks: &[u8], i: usize, k: usize)
    requires { line_start code.now.lines.now i ≤ k }
    ensures { Wrote to.old
        (row_at code.now.lines.now code.now.tokens.now code.now.text.now numbers.now marks.now i k) to.new }
{
    let web = text::word(numbers, k);
    if web == NO_FAMILY {
        return;
    }
    let j = k - code.line_start(i);
    put_row(to, code, i, j, k, web, text::byte(marks, k));
}

// The rows of line i.
fn put_line(to: &mut Writer, code: &Listing, numbers: &[u32], marks: &[u8], i: usize)
    ensures { Wrote to.old
        (line_rows code.now.lines.now code.now.tokens.now code.now.text.now numbers.now marks.now i) to.new }
{
    let end = code.line_end(i);
    for k in code.line_start(i)..end {
        put_token(to, code, numbers, marks, i, k);
    }
}

// The rows of the listing.
fn put_lines(to: &mut Writer, code: &Listing, numbers: &[u32], marks: &[u8])
    ensures { Wrote to.old
        (all_rows code.now.lines.now code.now.tokens.now code.now.text.now numbers.now marks.now) to.new }
{
    for i in 0..code.lines.len() {
        put_line(to, code, numbers, marks, i);
    }
}

// The rows of the listing, at the start of the slice: how long they are.
pub fn put_rows(out: &mut [u8], code: &Listing, numbers: &[u32], marks: &[u8]) -> usize
    ensures appended { Appended out.old 0
        (all_rows code.now.lines.now code.now.tokens.now code.now.text.now numbers.now marks.now) out.new result }
    ensures short { Short code.now.lines.now code.now.tokens.now code.now.text.now
        (all_rows code.now.lines.now code.now.tokens.now code.now.text.now numbers.now marks.now) }
{
    let mut to = Writer::new(out);
    put_lines(&mut to, code, numbers, marks);
    to.len()
}

// `refused n`, at the start of the slice: how long it is.
pub fn put_refused(out: &mut [u8], n: usize) -> usize
    ensures appended { Appended out.old 0 (refused_text n) out.new result }
    ensures n_len_bound { length (refused_text n) ≤ 29 }
{
    let mut to = Writer::new(out);
    to.put(b"refused ");
    to.put_decimal(n as u64);
    to.put_byte(b'\n');
    to.len()
}
