// The lines of a loop rewritten: its body, its back edge and its label.
ghost use Rattle.std.specs.Prelude.{◌≡◌, true, ◌+◌, ◌≤◌, ◌<◌, length, get_or, take};
ghost use Rattle.definitions.specs.Lists.{all, part};
ghost use Rattle.definitions.specs.Questions.{question_2};
ghost use Rattle.definitions.specs.RecoverGotoLoops.{exit_label};
ghost use Rattle.model.specs.Listings.{listing_of};
ghost use Rattle.plan.specs.Plan.{indent_at, render};
ghost use Rattle.plan.specs.Changes.{Ahead};
ghost use Rattle.gotos.specs.Body.{name_of, moves_in};
ghost use Rattle.goto_turns.specs.Loops.{close_word, jumped_words, body_words, Loop, Headed};

use goto_for::to_for;
use gotos::body::rewrite_body;
use gotos::headers::{leads, make_header};
use gotos::words::label_word;
use model::listing::Listing;
use pieces::piece::Piece;
use plan::{indent, source};

// The word of a closing brace at indent d in place of the line of w.
fn close_word(w: usize, d: usize) -> usize
    requires { d < 256 }
    ensures { result ≡ close_word w d }
{
    d + 2048 * Piece::Closed(source(w)).word()
}

// The name of the label right behind place b, where there is one.
#[tactic(auto, using(crate::proofs::Bodies::exits))]
fn exit_name<'a>(code: &Listing<'_, 'a>, plan: &[usize], n: usize, b: usize) -> Option<&'a [u8]>
    requires { (b < n) × (n ≤ length plan.now) }
    ensures { let C = listing_of code.now in
        name_of result ≡ exit_label (render C (take n plan.now)) b }
{
    if b + 1 == n {
        return None;
    }
    let w = plan[b + 1];
    if label_word(code, w) {
        Some(code.text_at(source(w), 0))
    } else {
        None
    }
}

// The body of the loop from the label at place h to its back edge at place b: gotos to the label become `continue;`, gotos to a label right
// behind the loop `break;`, and every line moves in one. False where one of them has indent 255.
fn rewrite_jumps(code: &Listing, plan: &mut [usize], n: usize, h: usize, b: usize) -> bool
    requires { Loop code.now.lines.now code.now.tokens.now code.now.text.now n h b plan.old }
    ensures value { result ≡ all moves_in (part (h + 1) b (take n plan.old)) }
    ensures plan_after { let C = listing_of code.now in
        result ≡ true → take n plan.new ≡ jumped_words C (take n plan.old) h b }
{
    let head = code.text_at(source(plan[h]), 0);
    let exit = exit_name(code, plan, n, b);
    rewrite_body(code, plan, n, h + 1, b, head, exit)
}

// The same, and the back edge becomes a closing brace.
pub fn rewrite(code: &Listing, plan: &mut [usize], n: usize, h: usize, b: usize) -> bool
    requires { Loop code.now.lines.now code.now.tokens.now code.now.text.now n h b plan.old }
    ensures value { result ≡ all moves_in (part (h + 1) b (take n plan.old)) }
    ensures plan_after { let C = listing_of code.now in
        result ≡ true → take n plan.new ≡ body_words C (take n plan.old) h b }
{
    let v = plan[h];
    let w = plan[b];
    let moved = rewrite_jumps(code, plan, n, h, b);
    plan[b] = close_word(w, indent(v) + 1);
    moved
}

// The label at place h becomes a while header, over the leading test behind it where there is one, and a for header where it can.
pub fn make_loop(code: &Listing, plan: &mut [usize], n: usize, h: usize) -> usize
    requires h_bound { (h + 1 < n) × (n ≤ length plan.old) × (question_2 code.now.lines.now code.now.tokens.now code.now.text.now ≡ true) × (indent_at (get_or plan.old h 0) < 255) }
    requires ahead { Ahead h (take n plan.old) }
    ensures { Headed code.now.lines.now code.now.tokens.now code.now.text.now n h plan.old result plan.new }
{
    let v = plan[h];
    let t = plan[h + 1];
    let tested = leads(code, t, indent(v) + 1);
    let m = make_header(plan, n, h, tested);
    to_for(code, plan, m, h)
}
