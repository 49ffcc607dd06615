// Assignments `reg = expr;`. An answer says which tokens are the right side; nothing is copied. Only the first two tokens and the last
// are looked at.
//
// Contracts cite `assignment` of Rattle.definitions.specs.Statements; `assigned` of this crate's specs/ says which assignment an answer is.

#![tactic(auto, using(crate::proofs::Assigning::sides, text::proofs::Bools::bools))]

ghost use Rattle.std.specs.Prelude.{◌≡◌};
ghost use Rattle.definitions.specs.Model.{line};
ghost use Rattle.definitions.specs.Statements.{is_empty, assignment};
ghost use Rattle.model.specs.Listings.{listing_of};
ghost use Rattle.assignment.specs.Assignments.{front, back, expr_token, expr_from, expr_to, assigns, is_closed, assigned};

use model::kind::Kind;
use model::listing::Listing;

pub mod definition;

// A right side: the tokens from place `from` up to place `to`, token 1 without its ` = `, the last token without its `;`.
#[derive(Clone, Copy)]
pub struct Side {
    pub from: usize,
    pub to: usize,
}

fn front(k: usize) -> usize
    ensures { result ≡ front k }
{
    if k == 1 { 3 } else { 0 }
}

fn back(n: usize, k: usize) -> usize
    ensures { result ≡ back n k }
{
    if k < n && n - k == 1 { 1 } else { 0 }
}

// The text of token k of the right side of line i, as a part of the lent text.
pub fn expr_text<'a>(code: &Listing<'_, 'a>, i: usize, k: usize) -> &'a [u8]
    ensures { result.now ≡ (expr_token (line (listing_of code.now) i) k).text }
{
    let n = code.token_count(i);
    let s = code.text_at(i, k);
    text::part(s, front(k), s.len().saturating_sub(back(n, k)))
}

// Token k of the right side of line i is empty: only lengths are looked at.
fn is_blank(code: &Listing, i: usize, k: usize) -> bool
    ensures { result ≡ is_empty (expr_token (line (listing_of code.now) i) k) }
{
    let n = code.token_count(i);
    let s = code.text_at(i, k);
    s.len().saturating_sub(back(n, k)).saturating_sub(front(k)) == 0
}

#[tactic(auto, unfolding(crate::specs::Assignments::expr_from))]
fn expr_from(code: &Listing, i: usize) -> usize
    ensures { result ≡ expr_from (line (listing_of code.now) i) }
{
    if is_blank(code, i, 1) { 2 } else { 1 }
}

fn expr_to(code: &Listing, i: usize) -> usize
    ensures { result ≡ expr_to (line (listing_of code.now) i) }
{
    let n = code.token_count(i);
    let last = n.saturating_sub(1);
    if is_blank(code, i, last) { last } else { n }
}

// Line i starts as an assignment does.
#[tactic(auto, using(model::proofs::Ands::ands), unfolding(crate::specs::Assignments::assigns))]
fn assigns(code: &Listing, i: usize) -> bool
    ensures { result ≡ assigns (line (listing_of code.now) i) }
{
    2 <= code.token_count(i)
        && code.is(i, 0, Kind::Register)
        && code.is(i, 1, Kind::Punct)
        && text::starts_with(code.text_at(i, 1), b" = ")
}

// The last token of line i ends with `;`.
fn is_closed(code: &Listing, i: usize) -> bool
    ensures { result ≡ is_closed (line (listing_of code.now) i) }
{
    let last = code.token_count(i).saturating_sub(1);
    text::ends_with(code.text_at(i, last), b";")
}

// The assignment that line i is: its register is token 0.
pub fn assignment(code: &Listing, i: usize) -> Option<Side>
    ensures { let l = line (listing_of code.now) i in
        assigned l result ≡ assignment l }
{
    if assigns(code, i) && is_closed(code, i) {
        let from = expr_from(code, i);
        let to = expr_to(code, i);
        if from < to {
            return Some(Side { from, to });
        }
    }
    None
}
