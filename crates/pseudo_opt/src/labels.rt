// Labels and gotos of a line. `is_label` looks at two tokens and at no more of their texts than one byte; the others look at each token
// once.
//
// Contracts cite `is_label`, `first_symbol` and `goto_target` of Rattle.definitions.specs.Statements.

#![tactic(auto, using(crate::proofs::Symbols::symbols))]

ghost use Rattle.std.specs.Prelude.{◌≡◌, [], ◌+◌, eqb, drop};
ghost use Rattle.definitions.specs.Lists.{or_else};
ghost use Rattle.definitions.specs.Model.{token, line, Symbol};
ghost use Rattle.definitions.specs.Statements.{is_label, first_symbol, goto_target};
ghost use Rattle.model.specs.Listings.{listing_of};
ghost use Rattle.pseudo_opt.specs.Places.{text_at};

use crate::keywords::keyword_at;
use model::kind::Kind;
use model::listing::Listing;

// Line i is a label: its name is the text of its first token.
#[tactic(auto, using(model::proofs::Ands::ands), unfolding(definitions::specs::Statements::is_label))]
pub fn is_label(code: &Listing, i: usize) -> bool
    ensures { result ≡ is_label (line (listing_of code.now) i) }
{
    code.token_count(i) == 2 && code.is(i, 0, Kind::Symbol) && text::equal(code.text_at(i, 1), b":")
}

fn is_symbol(code: &Listing, i: usize, j: usize) -> bool
    ensures { result ≡ eqb (token (line (listing_of code.now) i) j).kind Symbol }
{
    code.is(i, j, Kind::Symbol)
}

// The first symbol of line i after place k: where a goto at place k leads.
pub fn first_symbol(code: &Listing, i: usize, k: usize) -> Option<usize>
    ensures { let l = line (listing_of code.now) i in
        text_at l result ≡ first_symbol (drop (k + 1) l.tokens) }
{
    let n = code.token_count(i);
    if n <= k {
        return None;
    }
    for j in k + 1..n {
        if is_symbol(code, i, j) {
            return Some(j);
        }
    }
    None
}

// Its text, as a part of the lent text: empty where there is none, which `first_symbol` tells.
pub fn target_after<'a>(code: &Listing<'_, 'a>, i: usize, k: usize) -> &'a [u8]
    ensures { let l = line (listing_of code.now) i in
        result.now ≡ or_else (first_symbol (drop (k + 1) l.tokens)) [] }
{
    let Some(j) = first_symbol(code, i, k) else {
        return &code.text[..0];
    };
    code.text_at(i, j)
}

// The symbol that the first goto of line i leads to.
pub fn goto_symbol(code: &Listing, i: usize) -> Option<usize>
    ensures { let l = line (listing_of code.now) i in
        text_at l result ≡ goto_target l }
{
    let g = keyword_at(code, i, b"goto")?;
    first_symbol(code, i, g)
}

// Its text, as a part of the lent text: empty where there is none, which `goto_symbol` tells.
pub fn goto_target<'a>(code: &Listing<'_, 'a>, i: usize) -> &'a [u8]
    ensures { result.now ≡ or_else (goto_target (line (listing_of code.now) i)) [] }
{
    let Some(k) = goto_symbol(code, i) else {
        return &code.text[..0];
    };
    code.text_at(i, k)
}
