// Where gotos lead.
//
// Tokens are walked by their places among all tokens. Of each token the word is read once, of a keyword also the text, and after each goto the
// words up to the next symbol; `label_line` finds the label. Contracts cite `targets` and `first_symbol` of
// Rattle.definitions.specs.Statements.
#![tactic(auto, using(crate::proofs::Leads::seeking))]

ghost use Rattle.std.specs.Prelude.{◌≡◌, ◌≤◌, ◌<◌, IfSome, eqb, length, get_or};
ghost use Rattle.definitions.specs.Lists.{part, ascii};
ghost use Rattle.definitions.specs.Model.{no_token, Symbol};
ghost use Rattle.definitions.specs.Statements.{is_kw, first_symbol, targets};
ghost use Rattle.model.specs.Listings.{listing_of, tokens_of};
ghost use Rattle.labels.specs.Gotos.{symbol_at, targets_at, goto_line};

use crate::Labels;
use model::kind::Kind;
use model::listing::Listing;

// Token k of all is a goto.
fn is_goto(code: &Listing, k: usize) -> bool
    ensures { result ≡ is_kw (ascii "goto") (get_or (tokens_of code.now) k no_token) }
{
    code.token_is(k, Kind::Keyword) && text::equal(code.token_text(k), b"goto")
}

// The place of the first goto from place `from` on, before place e.
pub fn next_goto(code: &Listing, from: usize, e: usize) -> Option<usize>
    requires { e ≤ length code.now.tokens.now }
    ensures later { IfSome result (λ k. from ≤ k) }
    ensures inside { IfSome result (λ k. k < e) }
    ensures value { let us = tokens_of code.now in
        targets_at us result e ≡ targets (part from e us) }
{
    for k in from..e {
        if is_goto(code, k) {
            return Some(k);
        }
    }
    None
}

// Token k of all is a symbol.
fn is_symbol(code: &Listing, k: usize) -> bool
    ensures { result ≡ eqb (get_or (tokens_of code.now) k no_token).kind Symbol }
{
    code.token_is(k, Kind::Symbol)
}

// The place of the first symbol from place `from` on, before place e.
fn next_symbol(code: &Listing, from: usize, e: usize) -> Option<usize>
    requires { e ≤ length code.now.tokens.now }
    ensures { let us = tokens_of code.now in
        symbol_at us result ≡ first_symbol (part from e us) }
{
    for k in from..e {
        if is_symbol(code, k) {
            return Some(k);
        }
    }
    None
}

impl Labels<'_, '_, '_> {
    // The line that a goto leads to, behind which the line's tokens stand from place `from` up to place e: the label that the first symbol names.
    pub fn goto_line(&self, from: usize, e: usize) -> Option<usize>
        requires { e ≤ length self.now.code.tokens.now }
        ensures { let L = listing_of self.now.code in
            result ≡ goto_line L (tokens_of self.now.code) from e }
    {
        let k = next_symbol(&self.code, from, e)?;
        self.label_line(self.code.token_text(k))
    }
}
