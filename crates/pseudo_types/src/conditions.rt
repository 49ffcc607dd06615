// Conditions: the text of one, two compared, and the families that one names. Nothing is copied; each token is looked at once.
//
// Contracts cite `condition` of Rattle.definitions.specs.Condition; specs/Cuts.antt has the tokens of one as the code reads them.
#![tactic(auto, using(crate::proofs::CutRuns::cut_names_at, crate::proofs::CutRuns::cut_names, crate::proofs::CutRuns::names_of, crate::proofs::CutTexts::text_past))]

ghost use Rattle.std.specs.Prelude.{◌≡◌, true, [], ◌+◌, ◌-◌, ◌≤◌, ◌<◌, length};
ghost use Rattle.definitions.specs.Lists.{any, part, or_else, starts_with, ascii};
ghost use Rattle.definitions.specs.Model.{token, line};
ghost use Rattle.definitions.specs.Questions.{question_2};
ghost use Rattle.definitions.specs.Condition.{condition};
ghost use Rattle.model.specs.Listings.{listing_of};
ghost use Rattle.family.specs.Register.{family_of, names_family};
ghost use Rattle.pseudo_types.specs.Cuts.{text_from, front, back, cut_token, cut_run, same_condition};

use crate::texts::text_from;
use condition::condition;
use family::Register;
use model::listing::Listing;

// The text of the condition behind place k of line i, of which `end` bytes are cut off at the end.
fn condition_text<'a>(code: &Listing<'_, 'a>, i: usize, k: usize, end: usize) -> &'a [u8]
    requires { question_2 code.now.lines.now code.now.tokens.now code.now.text.now ≡ true }
    ensures { let s = text_from (line (listing_of code.now) i) (k + 1) in
        result.now ≡ part 2 (length s - end) s }
{
    if code.token_count(i) <= k {
        return &code.text[..0];
    }
    let s = text_from(code, i, k + 1);
    if end <= s.len() {
        text::part(s, 2, s.len() - end)
    } else {
        &code.text[..0]
    }
}

// Line i has a condition behind if, line w the same text as one behind while.
pub fn same_condition(code: &Listing, i: usize, w: usize) -> bool
    requires { question_2 code.now.lines.now code.now.tokens.now code.now.text.now ≡ true }
    ensures { let L = listing_of code.now in result ≡ same_condition (line L i) (line L w) }
{
    let Some(a) = condition(code, i, b"if") else {
        return false;
    };
    let Some(b) = condition(code, w, b"while") else {
        return false;
    };
    text::equal(
        condition_text(code, i, a.keyword, a.end),
        condition_text(code, w, b.keyword, b.end),
    )
}

// Tokens of a condition

fn front(k: usize, j: usize) -> usize
    ensures { result ≡ front k j }
{
    if k < j {
        if j - k == 1 { 2 } else { 0 }
    } else {
        0
    }
}

// How many bytes are left of n where the last token of m loses `end`, and token j is it or not.
fn left(m: usize, end: usize, j: usize, n: usize) -> usize
    ensures { result ≡ n - back m end j }
{
    if j < m {
        if m - j == 1 {
            if end < n {
                return n - end;
            }
            return 0;
        }
    }
    n
}

// The text of token j of line i as a token of the condition behind place k, of which `end` bytes are cut off at the end.
pub fn cut_text<'a>(code: &Listing<'_, 'a>, i: usize, k: usize, end: usize, j: usize) -> &'a [u8]
    ensures { result.now ≡ (cut_token (line (listing_of code.now) i) k end j).text }
{
    let m = code.token_count(i);
    let s = code.text_at(i, j);
    text::part(s, front(k, j), left(m, end, j, s.len()))
}

// Token j of it names the family that the answer r of the text s is.
fn cut_names(
    code: &Listing,
    i: usize,
    k: usize,
    end: usize,
    j: usize,
    s: &[u8],
    r: Option<Register>,
) -> bool
    ensures { let l = line (listing_of code.now) i in
        result ≡ names_family (family_of s.now r) (cut_token l k end j) }
{
    family::names(code.kind(i, j), cut_text(code, i, k, end, j), s, r)
}

// A token of it from place `from` on does.
fn names_from(
    code: &Listing,
    i: usize,
    k: usize,
    end: usize,
    from: usize,
    s: &[u8],
    r: Option<Register>,
) -> bool
    ensures { let l = line (listing_of code.now) i in
        result ≡ any (names_family (family_of s.now r)) (cut_run l k end from) }
{
    let m = code.token_count(i);
    for j in from..m {
        if cut_names(code, i, k, end, j, s, r) {
            return true;
        }
    }
    false
}

// The condition after the keyword if of line i names the family that the answer r of the text s is.
pub fn condition_names(code: &Listing, i: usize, s: &[u8], r: Option<Register>) -> bool
    ensures { let l = line (listing_of code.now) i in
        result ≡ any (names_family (family_of s.now r)) (or_else (condition l (ascii "if")) []) }
{
    let Some(cut) = condition(code, i, b"if") else {
        return false;
    };
    cut.keyword < code.token_count(i)
        && names_from(code, i, cut.keyword, cut.end, cut.keyword + 1, s, r)
}
