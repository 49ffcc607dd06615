// What `recover_goto_loops` asks of the line of a word.

#![tactic(auto, using(crate::proofs::HeaderLines::lines))]

ghost use Rattle.std.specs.Prelude.{◌≡◌, true, ◌&&◌, ◌+◌, eqb};
ghost use Rattle.definitions.specs.Questions.{question_2};
ghost use Rattle.definitions.specs.Statements.{is_label};
ghost use Rattle.definitions.specs.RecoverGotoLoops.{in_block, is_back};
ghost use Rattle.model.specs.Listings.{listing_of};
ghost use Rattle.plan.specs.Plan.{line_of};

use model::listing::Listing;
use plan::{indent, is_line, piece};

// The line of w is a label.
pub fn label_word(code: &Listing, w: usize) -> bool
    ensures { result ≡ is_label (line_of (listing_of code.now) w) }
{
    is_line(w) && pieces::reading::is_label(code, piece(w))
}

// The line of w is deeper than `ind`, or as deep and a label.
pub fn inside_word(code: &Listing, ind: usize, w: usize) -> bool
    ensures { result ≡ in_block ind (line_of (listing_of code.now) w) }
{
    let i = indent(w);
    ind < i || i == ind && label_word(code, w)
}

// The line of w stands at indent d and reads `goto h;`.
pub fn back_word(code: &Listing, h: &[u8], d: usize, w: usize) -> bool
    requires { question_2 code.now.lines.now code.now.tokens.now code.now.text.now ≡ true }
    ensures { result ≡ is_back h.now d (line_of (listing_of code.now) w) }
{
    indent(w) == d && is_line(w) && pieces::back::is_back(code, piece(w), h)
}
