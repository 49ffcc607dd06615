// Labels, gotos, `continue` and the lone brace.

#![tactic(auto, using(crate::proofs::Forms::reads, crate::proofs::Forms::cuts))]

ghost use Rattle.std.specs.Prelude.{◌≡◌, true};
ghost use Rattle.definitions.specs.Lists.{ascii};
ghost use Rattle.definitions.specs.Model.{line};
ghost use Rattle.definitions.specs.Questions.{question_2};
ghost use Rattle.definitions.specs.Statements.{has_kw, is_label, goto_target};
ghost use Rattle.definitions.specs.Passes.{lone_brace};
ghost use Rattle.model.specs.Listings.{listing_of};
ghost use Rattle.pseudo_opt.specs.Places.{text_at};
ghost use Rattle.pieces.specs.Pieces.{piece, origin, cut_place, comes_before};

use crate::piece::Piece;
use model::listing::Listing;
use pseudo_opt::keywords::{has_kw, keyword_at};

// The piece p is a label.
pub fn is_label(code: &Listing, p: usize) -> bool
    ensures { result ≡ is_label (piece (listing_of code.now) p) }
{
    match Piece::of(p) {
        Piece::Kept(i) => pseudo_opt::labels::is_label(code, i),
        _ => false,
    }
}

// The symbol that its first goto leads to.
pub fn goto_symbol(code: &Listing, p: usize) -> Option<usize>
    ensures { let C = listing_of code.now in
        text_at (origin C p) result ≡ goto_target (piece C p) }
{
    match Piece::of(p) {
        Piece::Kept(i) => pseudo_opt::labels::goto_symbol(code, i),
        _ => None,
    }
}

// The place of the first goto of line i, or behind its last token.
pub fn cut_place(code: &Listing, i: usize) -> usize
    ensures { let l = line (listing_of code.now) i in
        result ≡ cut_place l }
{
    match keyword_at(code, i, b"goto") {
        Some(g) => g,
        None => code.token_count(i),
    }
}

// The place is below g.
pub fn comes_before(f: Option<usize>, g: usize) -> bool
    ensures { result ≡ comes_before (f) g }
{
    f.is_some_and(|k| k < g)
}

// The piece p has the keyword continue.
pub fn has_continue(code: &Listing, p: usize) -> bool
    ensures { result ≡ has_kw (piece (listing_of code.now) p) (ascii "continue") }
{
    match Piece::of(p) {
        Piece::Kept(i) => has_kw(code, i, b"continue"),
        Piece::Continued(_) => true,
        Piece::Broken(i) => comes_before(keyword_at(code, i, b"continue"), cut_place(code, i)),
        Piece::Closed(_) => false,
    }
}

// The piece p reads `}`.
pub fn is_brace(code: &Listing, p: usize) -> bool
    requires { question_2 code.now.lines.now code.now.tokens.now code.now.text.now ≡ true }
    ensures { result ≡ lone_brace (piece (listing_of code.now) p) }
{
    match Piece::of(p) {
        Piece::Kept(i) => pseudo_types::texts::is_brace(code, i),
        Piece::Continued(_) | Piece::Broken(_) => false,
        Piece::Closed(_) => true,
    }
}
