// The registers that a header's condition names: those of the leading test that it is made of. Each token of the test is looked up once.

#![tactic(auto, using(crate::proofs::WordRules::tests))]

ghost use Rattle.std.specs.Prelude.{◌≡◌, true, ◌<◌};
ghost use Rattle.definitions.specs.Lists.{any};
ghost use Rattle.definitions.specs.Model.{line};
ghost use Rattle.definitions.specs.Questions.{question_2};
ghost use Rattle.model.specs.Listings.{listing_of};
ghost use Rattle.family.specs.Register.{family_of, names_family};
ghost use Rattle.negate.specs.Tests.{test_token, test_tokens};
ghost use Rattle.goto_for.specs.Words.{head_test};

use family::Register;
use model::listing::Listing;
use negate::test::{test_count, test_kind, test_text};
use pieces::leading::leading_test;
use pieces::piece::source;
use plan::{header, test};

// Token k of the m tokens of the leading test of line i names the family that the answer r of the text s is.
fn test_token_names(
    code: &Listing,
    i: usize,
    m: usize,
    k: usize,
    s: &[u8],
    r: Option<Register>,
) -> bool
    requires { k < m }
    ensures { let l = line (listing_of code.now) i in
        result ≡ names_family (family_of s.now r) (test_token l m k) }
{
    family::names(test_kind(code, i, m, k), test_text(code, i, m, k), s, r)
}

// One of them does.
fn test_names(code: &Listing, i: usize, m: usize, s: &[u8], r: Option<Register>) -> bool
    ensures { let l = line (listing_of code.now) i in
        result ≡ any (names_family (family_of s.now r)) (test_tokens l m) }
{
    for k in 0..m {
        if test_token_names(code, i, m, k, s, r) {
            return true;
        }
    }
    false
}

// The condition of the header v names it.
pub fn head_names(code: &Listing, v: usize, s: &[u8], r: Option<Register>) -> bool
    requires { question_2 code.now.lines.now code.now.tokens.now code.now.text.now ≡ true }
    ensures { let C = listing_of code.now in
        result ≡ any (names_family (family_of s.now r)) (head_test C v) }
{
    if header(v) != 3 {
        return false;
    }
    let p = test(v);
    let Some(g) = leading_test(code, p) else {
        return false;
    };
    let i = source(p);
    test_names(code, i, test_count(code, i, g), s, r)
}
