// The webs of the tokens: which tokens are of one web, and how many webs appear before a token. A token looks at the tokens before it up to the first of
// its web, so that all together take at most the square of the tokens.
//
// Contracts cite `same_web` and `first_of` of specs/Dot.antt and `Ranked` of specs/Held.antt.
ghost use Rattle.std.specs.Prelude.{◌≡◌, ◌&&◌, ◌+◌, ◌*◌, ◌≤◌, ◌<◌, eqb, length, get_or};
ghost use Rattle.definitions.specs.Model.{no_token};
ghost use Rattle.definitions.specs.Family.{fam_of};
ghost use Rattle.definitions.specs.Answers.{mark};
ghost use Rattle.model.specs.Listings.{tokens_of};
ghost use Rattle.family.specs.Register.{family_of, same_name};
ghost use Rattle.dot.specs.Dot.{has_web, same_web, first_of};
ghost use Rattle.dot.specs.Held.{Ranked};

use family::{Register, fam_of, same_family};
use model::listing::Listing;

// The number of a token without a family, as the calls answer it: C's columns have no `Option`.
const NO_FAMILY: usize = 4294967295;

pub fn has_web(numbers: &[u32], k: usize) -> bool
    ensures { result ≡ has_web numbers.now k }
{
    text::word(numbers, k) != NO_FAMILY
}

// Token p is of the family that the answer r gives the text u.
fn same_name(code: &Listing, p: usize, u: &[u8], r: Option<Register>) -> bool
    ensures { result ≡ same_name (fam_of (get_or (tokens_of code.now) p no_token)) (family_of u.now r) }
{
    let s = code.token_text(p);
    same_family(s, fam_of(code.token_kind(p), s), u, r)
}

// Tokens p and k are of one web; the answer r gives the text u the family of token k.
fn same_web(
    code: &Listing,
    numbers: &[u32],
    k: usize,
    u: &[u8],
    r: Option<Register>,
    p: usize,
) -> bool
    requires { family_of u.now r ≡ fam_of (get_or (tokens_of code.now) k no_token) }
    ensures { result ≡ same_web (tokens_of code.now) numbers.now k p }
{
    text::word(numbers, p) == text::word(numbers, k) && same_name(code, p, u, r)
}

// The first token of the web of token k.
fn first_of(code: &Listing, numbers: &[u32], k: usize) -> usize
    ensures value { result ≡ first_of (tokens_of code.now) numbers.now k }
    ensures upper_bound { result ≤ k }
{
    let u = code.token_text(k);
    let r = fam_of(code.token_kind(k), u);
    for p in 0..k {
        if same_web(code, numbers, k, u, r, p) {
            return p;
        }
    }
    k
}

// Token k has a web, and is the first of it, as f says.
fn appears(numbers: &[u32], k: usize, f: usize) -> bool
    ensures { result ≡ (has_web numbers.now k && eqb f k) }
{
    has_web(numbers, k) && f == k
}

// One more where `yes`.
fn counted(c: usize, yes: bool) -> usize
    requires { c < 16384 }
    ensures { result ≡ c + mark yes }
{
    if yes { c + 1 } else { c }
}

// The rank of a token: the first token of its web, and how many webs appear before the token. Both in one word, since callers lend a word a token.
fn packed(f: usize, c: usize) -> u32
    requires { (f < 16384) × (c < 16384) }
    ensures { result ≡ f * 32768 + c }
{
    // A cast: the sum has 32 bits, which `TryFrom` would ask again.
    (f * 32768 + c) as u32
}

// Ranks every token.
pub fn rank(code: &Listing, numbers: &[u32], ranks: &mut [u32])
    requires { (length code.now.tokens.now ≤ 16384) × (length code.now.tokens.now ≤ length ranks.old) }
    ensures { Ranked (tokens_of code.now) numbers.now (length code.now.tokens.now) ranks.new }
{
    let mut c = 0;
    for k in 0..code.tokens.len() {
        let f = first_of(code, numbers, k);
        let v = packed(f, c);
        ranks[k] = v;
        c = counted(c, appears(numbers, k, f));
    }
}
