// Lines appended to the destination: the lines that the words of a plan stand for.
ghost use Rattle.std.specs.Prelude.{◌≡◌, true, false, [], ◌/◌, ◌%◌, ◌≤◌, length, take};
ghost use Rattle.definitions.specs.Lists.{all, or_else, ascii};
ghost use Rattle.definitions.specs.Model.{line};
ghost use Rattle.definitions.specs.Columns.{listing, with_addresses};
ghost use Rattle.definitions.specs.Questions.{question_2};
ghost use Rattle.definitions.specs.Condition.{condition};
ghost use Rattle.definitions.specs.Passes.{while_head};
ghost use Rattle.model.specs.Listings.{listing_of};
ghost use Rattle.plan.specs.Plan.{line_of, render, header_at, piece_at, test_at, initialiser_at, step_at};
ghost use Rattle.pieces.specs.Pieces.{piece};
ghost use Rattle.append.specs.Adds.{Adding};
ghost use Rattle.emit.specs.Lines.{is_sound, test_read, for_start, for_end, Begins, LineAdded, Emits};

use crate::tests::add_test;
use append::add;
use append_pieces::conditions::add_condition;
use append_pieces::tokens::{add_piece, add_plain};
use model::listing::Listing;
use plan::headers::{Header, Test};
use plan::{initialiser, step};
use write::Writer;

// `while (..) {` over the condition of the guard on line i.
fn add_guard(out: &mut Writer, code: &Listing, i: usize)
    ensures { let l = line (listing_of code.now) i in
        Adding false (while_head (or_else (condition l (ascii "if")) [])) out.old out.new }
{
    add(out, b"while", 3, false);
    add(out, b" (", 6, false);
    add_condition(out, code, i, false);
    add(out, b") {", 6, false);
}

// `while (..) {` over the condition of the header w, merged.
fn add_while(out: &mut Writer, code: &Listing, w: usize)
    requires { question_2 code.now.lines.now code.now.tokens.now code.now.text.now ≡ true }
    ensures { let C = listing_of code.now in
        Adding true (while_head (test_read C (header_at w % 4) (piece_at w / 4) (test_at w))) out.old out.new }
{
    add(out, b"while", 3, true);
    add(out, b" (", 6, true);
    add_test(out, code, w);
    add(out, b") {", 6, true);
}

// `for (..; ` with the initialiser of the header w.
fn add_for_start(out: &mut Writer, code: &Listing, w: usize)
    ensures { let C = listing_of code.now in
        Adding true (for_start (piece C (initialiser_at w)).tokens) out.old out.new }
{
    add(out, b"for", 3, true);
    add(out, b" (", 6, true);
    add_piece(out, code, initialiser(w), true, true);
    add(out, b"; ", 6, true);
}

// `..; ..) {` with the condition and the step of the header w.
fn add_for_end(out: &mut Writer, code: &Listing, w: usize)
    requires { question_2 code.now.lines.now code.now.tokens.now code.now.text.now ≡ true }
    ensures { let C = listing_of code.now in
        Adding true (for_end (test_read C (header_at w % 4) (piece_at w / 4) (test_at w)) (piece C (step_at w)).tokens) out.old out.new }
{
    add_test(out, code, w);
    add(out, b"; ", 6, true);
    add_piece(out, code, step(w), true, true);
    add(out, b") {", 6, true);
}

// The tokens of the line that the word w stands for.
fn add_planned(out: &mut Writer, code: &Listing, w: usize)
    requires w_value { is_sound w ≡ true }
    requires text_value { question_2 code.now.lines.now code.now.tokens.now code.now.text.now ≡ true }
    ensures { let C = listing_of code.now in
        Begins (line_of C w).tokens out.old out.new }
{
    match Header::of(w) {
        Header::NoHeader => add_plain(out, code, plan::piece(w)),
        Header::While(Test::Guard) => add_guard(out, code, plan::source(w)),
        // Two arms: of an arm for both the proof does not learn that the condition is not the guard's.
        Header::While(Test::Always) => add_while(out, code, w),
        Header::While(Test::Leading) => add_while(out, code, w),
        Header::For(_) => {
            add_for_start(out, code, w);
            add_for_end(out, code, w);
        }
    }
}

// The line that the word w stands for.
fn emit_line(out: &mut Writer, code: &Listing, addresses: &[u64], w: usize)
    requires w_value { (is_sound w ≡ true) × (length addresses.now ≡ length code.now.lines.now) }
    requires text_value { question_2 code.now.lines.now code.now.tokens.now code.now.text.now ≡ true }
    ensures { let l = code.now.lines.now in
        let S = with_addresses l addresses.now (listing l code.now.tokens.now code.now.text.now) in
        LineAdded (line_of S w) out.old out.new }
{
    add_planned(out, code, w);
    let a = code.address_of(addresses, plan::source(w));
    out.end_line(a, plan::indent(w));
}

// The lines that the words of the plan stand for, and nothing before them.
pub fn emit(out: &mut Writer, code: &Listing, addresses: &[u64], plan: &[usize])
    requires plan_value { (all is_sound plan.now ≡ true) × (length addresses.now ≡ length code.now.lines.now) }
    requires text_value { question_2 code.now.lines.now code.now.tokens.now code.now.text.now ≡ true }
    ensures { let l = code.now.lines.now in
        let S = with_addresses l addresses.now (listing l code.now.tokens.now code.now.text.now) in
        Emits (render S plan.now) out.old out.new }
{
    out.written = write::start();
    for w in plan {
        emit_line(out, code, addresses, *w);
    }
}
