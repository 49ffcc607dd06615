// The text of a line, and what the loop passes compare it with. `text_from` takes constant time, the others compare a few bytes.
//
// Contracts cite `text` of Rattle.definitions.specs.Model, `is_guard`, `lone_brace` and `is_step`.
#![tactic(auto, using(crate::proofs::LineTexts::line_texts, model::proofs::Access::access))]

ghost use Rattle.std.specs.Prelude.{◌≡◌, true};
ghost use Rattle.definitions.specs.Model.{line};
ghost use Rattle.definitions.specs.Questions.{question_2};
ghost use Rattle.definitions.specs.ToFor.{is_step};
ghost use Rattle.definitions.specs.Passes.{lone_brace};
ghost use Rattle.definitions.specs.RecoverLoops.{is_guard};
ghost use Rattle.model.specs.Places.{token_start};
ghost use Rattle.model.specs.Listings.{listing_of};
ghost use Rattle.pseudo_types.specs.Cuts.{text_from};

use model::listing::Listing;

// The first byte of token k of all.
pub fn token_start(tokens: &[u32], k: usize) -> usize
    ensures { result ≡ token_start tokens.now k }
{
    if k == 0 {
        0
    } else {
        text::word(tokens, k - 1) / 256
    }
}

// The texts of the tokens of line i from place j on, one after the other, as a part of the lent text.
pub fn text_from<'a>(code: &Listing<'_, 'a>, i: usize, j: usize) -> &'a [u8]
    requires { question_2 code.now.lines.now code.now.tokens.now code.now.text.now ≡ true }
    ensures { result.now ≡ text_from (line (listing_of code.now) i) j }
{
    let s = code.line_start(i);
    let e = code.line_end(i);
    if s < e {
        if j < e - s {
            text::part(
                code.text,
                token_start(code.tokens, s + j),
                token_start(code.tokens, e),
            )
        } else {
            &code.text[..0]
        }
    } else {
        &code.text[..0]
    }
}

// Guard: first token keyword if, text ends `) {`.
pub fn is_guard(code: &Listing, i: usize) -> bool
    requires { question_2 code.now.lines.now code.now.tokens.now code.now.text.now ≡ true }
    ensures { result ≡ is_guard (line (listing_of code.now) i) }
{
    if pseudo_opt::keywords::is_kw(code, i, 0, b"if") {
        text::ends_with(text_from(code, i, 0), b") {")
    } else {
        false
    }
}

// Line i reads `}`.
pub fn is_brace(code: &Listing, i: usize) -> bool
    requires { question_2 code.now.lines.now code.now.tokens.now code.now.text.now ≡ true }
    ensures { result ≡ lone_brace (line (listing_of code.now) i) }
{
    text::equal(text_from(code, i, 0), b"}")
}

// The text steps a register.
fn steps(s: &[u8]) -> bool
    ensures { result ≡ is_step s.now }
{
    if text::equal(s, b"++;") {
        return true;
    }
    if text::equal(s, b"--;") {
        return true;
    }
    text::starts_with(s, b" += ") || text::starts_with(s, b" -= ")
}

// Line i steps its first token.
pub fn is_step(code: &Listing, i: usize) -> bool
    requires { question_2 code.now.lines.now code.now.tokens.now code.now.text.now ≡ true }
    ensures { result ≡ is_step (text_from (line (listing_of code.now) i) 1) }
{
    steps(text_from(code, i, 1))
}
