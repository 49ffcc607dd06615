// The condition of a header, appended merged to the open line.
ghost use Rattle.std.specs.Prelude.{◌≡◌, true, ◌/◌, ◌%◌};
ghost use Rattle.definitions.specs.Lists.{or_else};
ghost use Rattle.definitions.specs.Questions.{question_2};
ghost use Rattle.definitions.specs.RecoverGotoLoops.{leading_test, one};
ghost use Rattle.model.specs.Listings.{listing_of};
ghost use Rattle.plan.specs.Plan.{header_at, piece_at, test_at};
ghost use Rattle.pieces.specs.Pieces.{piece};
ghost use Rattle.append.specs.Adds.{Adding};
ghost use Rattle.emit.specs.Lines.{test_read};

use append::add;
use append_pieces::conditions::add_condition;
use model::listing::Listing;
use plan::headers::Test;
use write::Writer;

// The negated condition of the leading test that the piece p is, or 1.
fn add_leading(out: &mut Writer, code: &Listing, p: usize)
    requires { question_2 code.now.lines.now code.now.tokens.now code.now.text.now ≡ true }
    ensures { let C = listing_of code.now in
        Adding true (or_else (leading_test (piece C p) 0) one) out.old out.new }
{
    let Some(g) = pieces::leading::leading_test(code, p) else {
        add(out, b"1", 2, true);
        return;
    };
    negate::adding::add_negated(out, code, p / 4, g);
}

// The condition of the header that the word w stands for: 1, that of a leading test, or that of the guard on the word's own line.
pub fn add_test(out: &mut Writer, code: &Listing, w: usize)
    requires { question_2 code.now.lines.now code.now.tokens.now code.now.text.now ≡ true }
    ensures { let C = listing_of code.now in
        Adding true (test_read C (header_at w % 4) (piece_at w / 4) (test_at w)) out.old out.new }
{
    match Test::of(w) {
        Test::Guard => add_condition(out, code, plan::source(w), true),
        Test::Always => add(out, b"1", 2, true),
        Test::Leading => add_leading(out, code, plan::test(w)),
    }
}
