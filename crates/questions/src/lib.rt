// Questions 1 to 3 of document 01, asked of any lent columns whatever. Question 1 takes constant time, question 2 time linear in the
// words, question 3 time linear in the tokens' bytes. Nothing is copied.
//
// Contracts cite `question_1`, `question_2`, `question_3` and `refusal` of Rattle.definitions.specs.Questions.

#![tactic(auto, using(model::proofs::Ands::ands, crate::proofs::Asked::asked, crate::proofs::Ascii::bounds))]

ghost use Rattle.std.specs.Prelude.{◌≡◌, ◌&&◌, ℕ, ◌-◌, ◌/◌, ◌%◌, ◌<◌, ◌≤◌, eqb, leb, get_or, length};
ghost use Rattle.definitions.specs.Lists.{all};
ghost use Rattle.definitions.specs.Model.{no_token};
ghost use Rattle.definitions.specs.Utf8.{is_utf8};
ghost use Rattle.definitions.specs.Questions.{covers, question_1, question_2, question_3};
ghost use Rattle.model.specs.Listings.{tokens_of};
ghost use Rattle.questions.specs.Refusals.{at_most, first_questions, number, refused};
ghost use Rattle.questions.specs.Bounds.{Bounded};

use model::listing::Listing;

// How many lines, tokens and text bytes a listing may have.
#[derive(Drop)]
pub struct Limits {
    pub lines: usize,
    pub tokens: usize,
    pub text: usize,
}

// Why a call is refused: the question that is answered no.
#[derive(Clone, Copy, Debug, PartialEq, Eq)]
pub enum Refusal {
    TooLarge,
    Malformed,
    NotUtf8,
    NoRoom,
    NoSpace,
    Overflow,
    TooShort,
    UnmatchedBrace,
    UnknownLabel,
    NotJson,
    OverBudget,
}

impl Refusal {
    // The number of the question, for C and for what is printed; 13 for want of budget.
    pub fn number(self) -> usize
        ensures { result ≡ number self }
    {
        match self {
            Refusal::TooLarge => 1,
            Refusal::Malformed => 2,
            Refusal::NotUtf8 => 3,
            Refusal::NoRoom => 4,
            Refusal::NoSpace => 5,
            Refusal::Overflow => 6,
            Refusal::TooShort => 7,
            Refusal::UnmatchedBrace => 8,
            Refusal::UnknownLabel => 9,
            Refusal::NotJson => 10,
            Refusal::OverBudget => 13,
        }
    }
}

// 1: are there at most so many lines, tokens and text bytes?
pub fn question_1(code: &Listing, most: Limits) -> bool
    ensures { result ≡ question_1 (at_most most) code.now.lines.now code.now.tokens.now code.now.text.now }
{
    code.lines.len() <= most.lines
        && code.tokens.len() <= most.tokens
        && code.text.len() <= most.text
}

// No step of the loops of question 2 stops, so that the compiler asks several words at once.
fn both(a: bool, b: bool) -> bool
    ensures { result ≡ (a && b) }
{
    a & b
}

// Piece i does not end before the piece before it.
fn rises(ws: &[u32], by: usize, i: usize) -> bool
    requires { (0 < by) × (0 < i) }
    ensures { result ≡ leb (get_or ws.now (i - 1) 0 / by) (get_or ws.now i 0 / by) }
{
    text::word(ws, i - 1) / by <= text::word(ws, i) / by
}

// The ends never fall.
fn never_falls(ws: &[u32], by: usize) -> bool
    requires { (0 < by) × (0 < length ws.now) }
    ensures { (n : ℕ) → covers by 0 ws.now n ≡ (result && eqb (get_or ws.now (length ws.now - 1) 0 / by) n) }
{
    let mut ok = true;
    for i in 1..ws.len() {
        ok = both(ok, rises(ws, by, i));
    }
    ok
}

// The same, and the last end is n.
fn covers(ws: &[u32], by: usize, n: usize) -> bool
    requires { 0 < by }
    ensures { result ≡ covers by 0 ws.now n }
{
    if ws.is_empty() {
        0 == n
    } else {
        never_falls(ws, by) && text::word(ws, ws.len() - 1) / by == n
    }
}

fn is_kind(tokens: &[u32], k: usize) -> bool
    ensures { result ≡ leb (get_or tokens.now k 0 % 256) 7 }
{
    text::word(tokens, k) % 256 <= 7
}

fn are_kinds(tokens: &[u32]) -> bool
    ensures { result ≡ all (λ w. leb (w % 256) 7) tokens.now }
{
    let mut ok = true;
    for k in 0..tokens.len() {
        ok = both(ok, is_kind(tokens, k));
    }
    ok
}

// 2: do the lines cover the tokens, and the tokens the text, in order without gap, kinds at most 7?
pub fn question_2(code: &Listing) -> bool
    ensures { result ≡ question_2 code.now.lines.now code.now.tokens.now code.now.text.now }
{
    covers(code.lines, 512, code.tokens.len())
        && covers(code.tokens, 256, code.text.len())
        && are_kinds(code.tokens)
}

fn is_text(code: &Listing, k: usize) -> bool
    ensures { result ≡ is_utf8 (get_or (tokens_of code.now) k no_token).text }
{
    text::is_utf8(code.token_text(k))
}

// Each token's text is UTF-8, asked token by token.
#[tactic(auto, using(crate::proofs::Asked::asked, text::proofs::Loops::loops))]
fn are_texts(code: &Listing) -> bool
    ensures { result ≡ question_3 code.now.tokens.now code.now.text.now }
{
    let n = code.tokens.len();
    for k in 0..n {
        if !is_text(code, k) {
            return false;
        }
    }
    true
}

// No byte is greater than the answer.
fn bound(s: &[u8]) -> u8
    ensures { Bounded result (length s.now) s.now }
{
    let mut most: u8 = 0;
    for byte in s {
        most = most.max(*byte);
    }
    most
}

// 3: is each token's text UTF-8? Of a text that is all ASCII it is; one pass over its bytes tells, which the compiler does by vectors.
pub fn question_3(code: &Listing) -> bool
    ensures { result ≡ question_3 code.now.tokens.now code.now.text.now }
{
    bound(code.text) < 0x80 || are_texts(code)
}

// Asks the three questions in order: refused by the first that is answered no.
#[tactic(auto, unfolding(definitions::specs::Questions::refusal))]
pub fn ask(code: &Listing, most: Limits) -> Result<(), Refusal>
    ensures { refused result ≡ first_questions (at_most most) code.now.lines.now code.now.tokens.now code.now.text.now }
{
    if !question_1(code, most) {
        return Err(Refusal::TooLarge);
    }
    if !question_2(code) {
        return Err(Refusal::Malformed);
    }
    if !question_3(code) {
        return Err(Refusal::NotUtf8);
    }
    Ok(())
}
