// The tests of a `for`: a body that is closed, a step as its last line, and a condition that names the stepped register.

#![tactic(auto, using(crate::proofs::WordRules::for_words))]

ghost use Rattle.std.specs.Prelude.{◌≡◌, true, ◌<◌, length};
ghost use Rattle.definitions.specs.Model.{token};
ghost use Rattle.definitions.specs.Questions.{question_2};
ghost use Rattle.definitions.specs.Family.{fam_of};
ghost use Rattle.model.specs.Listings.{listing_of};
ghost use Rattle.family.specs.Register.{family_of, names_family};
ghost use Rattle.pieces.specs.Pieces.{piece};
ghost use Rattle.goto_for.specs.Words.{closed_words, steps_words, counts_words, counted_words, place_words};

use crate::conditions::head_names;
use crate::ends::continues;
use crate::initialisers::initialiser;
use family::Register;
use model::listing::Listing;
use pieces::piece::source;
use pieces::reading::is_brace;
use plan::{indent, piece};

// The body of the header at place w is closed by a lone `}` at place e, at the header's indent, and is not empty.
fn closed_body(code: &Listing, plan: &[usize], w: usize, e: usize) -> bool
    requires { (w < length plan.now) × (e < length plan.now) × (question_2 code.now.lines.now code.now.tokens.now code.now.text.now ≡ true) }
    ensures { result ≡ closed_words (listing_of code.now) plan.now w e }
{
    w + 2 <= e && indent(plan[e]) == indent(plan[w]) && is_brace(code, piece(plan[e]))
}

// The line of z stands one deeper than the header h and steps its first token.
fn steps(code: &Listing, h: usize, z: usize) -> bool
    requires { question_2 code.now.lines.now code.now.tokens.now code.now.text.now ≡ true }
    ensures { result ≡ steps_words (listing_of code.now) h z }
{
    indent(z) == indent(h) + 1 && pieces::counting::steps(code, piece(z))
}

// The condition of the header at place w names the family that the answer r of the text s is, and no line of its body has continue.
fn counts(code: &Listing, plan: &[usize], w: usize, e: usize, s: &[u8], r: Option<Register>) -> bool
    requires { (w < length plan.now) × (e < length plan.now) × (question_2 code.now.lines.now code.now.tokens.now code.now.text.now ≡ true) }
    ensures { let C = listing_of code.now in
        result ≡ counts_words C plan.now w e (names_family (family_of s.now r)) }
{
    let h = plan[w];
    head_names(code, h, s, r) && !continues(code, plan, w + 1, e)
}

// The place of the initialiser of the register that the piece p steps, where the header at place w counts it.
fn counted_place(code: &Listing, plan: &[usize], w: usize, e: usize, p: usize) -> Option<usize>
    requires { (w < length plan.now) × (e < length plan.now) × (question_2 code.now.lines.now code.now.tokens.now code.now.text.now ≡ true) }
    ensures { let C = listing_of code.now in
        result ≡ counted_words C plan.now w e (names_family (fam_of (token (piece C p) 0))) }
{
    let r = pieces::counting::stepped(code, p);
    let s = code.text_at(source(p), 0);
    if counts(code, plan, w, e, s, r) {
        initialiser(code, plan, w, indent(plan[w]), s, r)
    } else {
        None
    }
}

// The place of the initialiser, where the header at place w, whose body is closed at place e, becomes a for header.
pub fn for_place(code: &Listing, plan: &[usize], w: usize, e: usize) -> Option<usize>
    requires { (w < length plan.now) × (e < length plan.now) × (question_2 code.now.lines.now code.now.tokens.now code.now.text.now ≡ true) × (w < e) }
    ensures { result ≡ place_words (listing_of code.now) plan.now w e }
{
    let z = plan[e - 1];
    if closed_body(code, plan, w, e) && steps(code, plan[w], z) {
        counted_place(code, plan, w, e, piece(z))
    } else {
        None
    }
}
