// The target of a first goto, looked for in one run of tokens after the other; each token is looked at once.
//
// Contracts cite `seek` of specs/Seek.antt.

#![tactic(auto, using(crate::proofs::SeekRules::seeking))]

ghost use Rattle.std.specs.Prelude.{◌≡◌, [], ◌∷◌, ◌≤◌, ◌<◌, length};
ghost use Rattle.definitions.specs.Lists.{part, ascii};
ghost use Rattle.definitions.specs.Model.{tok, line};
ghost use Rattle.definitions.specs.Statements.{is_kw};
ghost use Rattle.definitions.specs.ToFor.{popped};
ghost use Rattle.model.specs.Listings.{listing_of};
ghost use Rattle.negate.specs.Tests.{test, test_token};
ghost use Rattle.append.specs.Adds.{whole};
ghost use Rattle.gotos.specs.Body.{name_of};
ghost use Rattle.goto_targets.specs.Seek.{step, seek, target, told};

use model::kind::Kind;
use model::listing::Listing;
use negate::test::{test_count, test_kind, test_text};

// No goto yet; a goto, and no symbol behind it yet; the text of that symbol. Three states are told apart, so it is no `Option`.
#[derive(Clone, Copy)]
pub enum State<'a> {
    Looking,
    Waiting,
    Found(&'a [u8]),
}

impl<'a> State<'a> {
    // The target that was found.
    pub fn target(self) -> Option<&'a [u8]>
        ensures { name_of result ≡ target (told self.entry) }
    {
        match self {
            State::Looking | State::Waiting => None,
            State::Found(s) => Some(s),
        }
    }
}

// A token of this kind with the text t is the keyword goto.
fn is_goto(kind: usize, t: &[u8]) -> bool
    ensures { result ≡ is_kw (ascii "goto") (tok t.now kind) }
{
    kind == Kind::Keyword.number() && text::equal(t, b"goto")
}

// One token more, of this kind and with the text t.
pub fn step<'a>(kind: usize, t: &'a [u8], s: State<'a>) -> State<'a>
    ensures { told result ≡ step (told s.entry) (tok t.now kind) }
{
    match s {
        State::Looking => { if is_goto(kind, t) { State::Waiting } else { s } }
        State::Waiting => {
            if kind == Kind::Symbol.number() {
                State::Found(t)
            } else {
                s
            }
        }
        State::Found(_) => s,
    }
}

// The first n tokens of line i.
pub fn seek_tokens<'a>(code: &Listing<'_, 'a>, i: usize, n: usize, s: State<'a>) -> State<'a>
    requires { n ≤ length (line (listing_of code.now) i).tokens }
    ensures { let C = listing_of code.now in
        told result ≡ seek (told s.entry) (part 0 n (line C i).tokens) }
{
    let mut r = s;
    for j in 0..n {
        r = step(code.kind(i, j), code.text_at(i, j), r);
    }
    r
}

// The tokens of line i, the last without its last code point.
pub fn seek_line<'a>(code: &Listing<'_, 'a>, i: usize, s: State<'a>) -> State<'a>
    ensures { let C = listing_of code.now in
        told result ≡ seek (told s.entry) (popped (line C i).tokens) }
{
    let n = code.token_count(i);
    if n == 0 {
        return s;
    }
    let r = seek_tokens(code, i, n - 1, s);
    let t = code.text_at(i, n - 1);
    step(
        code.kind(i, n - 1),
        text::part(t, 0, pop::popped_length(t)),
        r,
    )
}

// Token k of the m tokens of the condition of line i, unless it is empty.
fn seek_test_token<'a>(
    code: &Listing<'_, 'a>,
    i: usize,
    m: usize,
    k: usize,
    s: State<'a>,
) -> State<'a>
    requires { k < m }
    ensures { let C = listing_of code.now in
        told result ≡ seek (told s.entry) (whole (test_token (line C i) m k ∷ [])) }
{
    let t = test_text(code, i, m, k);
    if t.len() == 0 {
        return s;
    }
    step(test_kind(code, i, m, k), t, s)
}

// The condition of line i before place g.
pub fn seek_test<'a>(code: &Listing<'_, 'a>, i: usize, g: usize, s: State<'a>) -> State<'a>
    ensures { let C = listing_of code.now in
        told result ≡ seek (told s.entry) (test (line C i) g) }
{
    let m = test_count(code, i, g);
    let mut r = s;
    for k in 0..m {
        r = seek_test_token(code, i, m, k, r);
    }
    r
}
