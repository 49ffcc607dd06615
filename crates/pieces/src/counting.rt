// Steps and initialisers of a `for`: what `to_for` asks of a piece. A family is given by a `Register` of crate `family` and the text that it was
// looked up of.
//
// Contracts cite `is_step` of Rattle.definitions.specs.ToFor, `fam_of`, and `inits` and `passes` of Rattle.plan.specs.ForLoop.
#![tactic(auto, using(crate::proofs::CountingRules::counting))]

ghost use Rattle.std.specs.Prelude.{◌≡◌, true};
ghost use Rattle.definitions.specs.Model.{token, line};
ghost use Rattle.definitions.specs.Questions.{question_2};
ghost use Rattle.definitions.specs.Family.{fam_of};
ghost use Rattle.definitions.specs.ToFor.{is_step};
ghost use Rattle.model.specs.Listings.{listing_of};
ghost use Rattle.family.specs.Register.{family_of};
ghost use Rattle.pieces.specs.Pieces.{piece, origin};
ghost use Rattle.pieces.specs.Counting.{text_between, adds_to, jumped_steps, piece_rest, jumped_family};

use crate::piece::Piece;
use crate::reading::cut_place;
use family::Register;
use model::listing::Listing;
use pseudo_opt::registers::register_at;
use pseudo_types::texts::text_from;

// The texts of the tokens of line i from place 1 up to place n, which is not 0.
fn text_between<'a>(code: &Listing<'_, 'a>, i: usize, n: usize) -> &'a [u8]
    requires text_value { question_2 code.now.lines.now code.now.tokens.now code.now.text.now ≡ true }
    requires fact { n ≡ 0 → ⊥ }
    ensures { result.now ≡ text_between (line (listing_of code.now) i) n }
{
    let s = text_from(code, i, 1);
    let m = text_from(code, i, n).len();
    text::part(s, 0, s.len().saturating_sub(m))
}

// The text starts with ` += ` or ` -= `.
fn adds_to(s: &[u8]) -> bool
    ensures { result ≡ adds_to s.now }
{
    text::starts_with(s, b" += ") || text::starts_with(s, b" -= ")
}

// What is left of line i before its first goto steps the first token.
fn jumped_steps(code: &Listing, i: usize) -> bool
    requires { question_2 code.now.lines.now code.now.tokens.now code.now.text.now ≡ true }
    ensures { let l = line (listing_of code.now) i in
        result ≡ jumped_steps l }
{
    let n = cut_place(code, i);
    n != 0 && adds_to(text_between(code, i, n))
}

// The piece p steps its first token.
pub fn steps(code: &Listing, p: usize) -> bool
    requires { question_2 code.now.lines.now code.now.tokens.now code.now.text.now ≡ true }
    ensures { result ≡ is_step (piece_rest (listing_of code.now) p) }
{
    match Piece::of(p) {
        Piece::Kept(i) => pseudo_types::texts::is_step(code, i),
        Piece::Continued(i) | Piece::Broken(i) => jumped_steps(code, i),
        Piece::Closed(_) => false,
    }
}

// The family of the first token of line i, where the line does not start with its first goto.
fn jumped_register(code: &Listing, i: usize) -> Option<Register>
    ensures { let l = line (listing_of code.now) i in
        family_of (token l 0).text result ≡ jumped_family l }
{
    if cut_place(code, i) == 0 {
        None
    } else {
        register_at(code, i, 0)
    }
}

// The family of the first token of the piece p.
pub fn stepped(code: &Listing, p: usize) -> Option<Register>
    ensures { let C = listing_of code.now in
        family_of (token (origin C p) 0).text result ≡ fam_of (token (piece C p) 0) }
{
    match Piece::of(p) {
        Piece::Kept(i) => register_at(code, i, 0),
        Piece::Continued(i) | Piece::Broken(i) => jumped_register(code, i),
        Piece::Closed(_) => None,
    }
}
