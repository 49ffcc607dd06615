// The turns of `recover_loops` over a plan.
#![tactic(auto, using(crate::proofs::TurnRules::guard_words))]

ghost use Rattle.std.specs.Prelude.{◌≡◌, true, List, [], ◌+◌, ◌-◌, ◌≤◌, ◌<◌, length, get_or, take};
ghost use Rattle.definitions.specs.Lists.{all, part, or_else, ascii};
ghost use Rattle.definitions.specs.Model.{Line, line};
ghost use Rattle.definitions.specs.Questions.{question_2};
ghost use Rattle.definitions.specs.Condition.{condition};
ghost use Rattle.definitions.specs.RecoverLoops.{unwrapped, rebuilt, close_at, close, loop_turn, recover_loops};
ghost use Rattle.model.specs.Listings.{listing_of};
ghost use Rattle.plan.specs.Plan.{header_at};
ghost use Rattle.plan.specs.Changes.{is_out};
ghost use Rattle.plan.specs.Source.{Source};
ghost use Rattle.plan.specs.Planned.{planned};
ghost use Rattle.loops.specs.Words.{Ready, closes_words, guarded_words, do_word, opens_words};
ghost use Rattle.loops.specs.Turns.{cleared, unwrapped_words, TurnOf, Emitted};

use crate::for_loops::{first_end, to_for};
use line_keywords::Keywords;
use model::listing::Listing;
use plan::{Overflow, indent, source};

// What one turn does: go on at the next line with so many lines, or, where there is none, stop the whole pass.
type Turn = Result<Option<usize>, Overflow>;

// The guard g, the close c and the line b behind it belong together: the close one indent deeper, with the same condition text under while,
// and b a lone `}` at the guard's indent.
fn closes(code: &Listing, g: usize, c: usize, b: usize) -> bool
    requires { question_2 code.now.lines.now code.now.tokens.now code.now.text.now ≡ true }
    ensures { result ≡ closes_words (listing_of code.now) g c b }
{
    indent(c) == indent(g) + 1
        && indent(b) == indent(g)
        && pseudo_types::texts::is_brace(code, source(b))
        && pseudo_types::conditions::same_condition(code, source(g), source(c))
}

// The same of the lines at the places i, w and w + 1.
fn guarded(code: &Listing, plan: &[usize], n: usize, i: usize, w: usize) -> bool
    requires { (i < w) × (w < n) × (n ≤ length plan.now) × (question_2 code.now.lines.now code.now.tokens.now code.now.text.now ≡ true) }
    ensures { let C = listing_of code.now in
        result ≡ guarded_words C (take n plan.now) i w }
{
    if w + 1 < n {
        let g = plan[i];
        let c = plan[w];
        let b = plan[w + 1];
        closes(code, g, c, b)
    } else {
        false
    }
}

// The guard at place i becomes a while header, its do at i + 1 and its close at w go, the body moves out one: two lines fewer. False where
// a line of the body has indent 0.
fn unwrap(plan: &mut [usize], n: usize, i: usize, w: usize) -> bool
    requires { (i + 2 ≤ w) × (w < n) × (n ≤ length plan.old) × (header_at (get_or plan.old i 0) ≡ 0) }
    ensures value { result ≡ all is_out (part (i + 1) (w - 1) (cleared (take n plan.old) i w)) }
    ensures plan_after { result ≡ true → take (n - 2) plan.new ≡ unwrapped_words (take n plan.old) i w }
{
    let g = plan[i];
    plan[i] = g + 256;
    plan::remove_two(plan, n, i + 1, w);
    plan::move_out(plan, n - 2, i + 1, w - 1)
}

// The same, and the while header becomes a for header, where it can.
fn rebuild(keywords: &Keywords, plan: &mut [usize], n: usize, i: usize, w: usize) -> Turn
    requires i_bound { (i + 2 ≤ w) × (w + 1 < n) × (n ≤ length plan.old) × (question_2 keywords.now.code.lines.now keywords.now.code.tokens.now keywords.now.code.text.now ≡ true) }
    requires ready { Ready i (take n plan.old) }
    ensures { TurnOf keywords.now.code.lines.now keywords.now.code.tokens.now keywords.now.code.text.now
        (λ M. rebuilt (unwrapped M i w (or_else (condition (line M i) (ascii "if")) [])) i (w - 1)) n i plan.old result plan.new }
{
    if !unwrap(plan, n, i, w) {
        return Err(Overflow);
    }
    let m = to_for(keywords, plan, n - 2, i);
    Ok(Some(m))
}

// The close of the guard at place i is at w.
fn close_at(keywords: &Keywords, plan: &mut [usize], n: usize, i: usize, w: usize) -> Turn
    requires i_bound { (i + 2 ≤ w) × (w < n) × (n ≤ length plan.old) × (question_2 keywords.now.code.lines.now keywords.now.code.tokens.now keywords.now.code.text.now ≡ true) }
    requires ready { Ready i (take n plan.old) }
    ensures { TurnOf keywords.now.code.lines.now keywords.now.code.tokens.now keywords.now.code.text.now (λ M. close_at M i w) n i plan.old result plan.new }
{
    if guarded(&keywords.code, plan, n, i, w) {
        rebuild(keywords, plan, n, i, w)
    } else {
        Ok(Some(n))
    }
}

// The close is the first non-label line from i + 2 with indent at most one above the guard's; if there is none the whole pass stops.
fn close(keywords: &Keywords, plan: &mut [usize], n: usize, i: usize) -> Turn
    requires i_bound { (i + 1 < n) × (n ≤ length plan.old) × (question_2 keywords.now.code.lines.now keywords.now.code.tokens.now keywords.now.code.text.now ≡ true) }
    requires ready { Ready i (take n plan.old) }
    ensures { TurnOf keywords.now.code.lines.now keywords.now.code.tokens.now keywords.now.code.text.now (λ M. close M i) n i plan.old result plan.new }
{
    let g = plan[i];
    let Some(w) = first_end(&keywords.code, plan, n, i + 2, indent(g) + 1) else {
        return Ok(None);
    };
    close_at(keywords, plan, n, i, w)
}

// The line of g is a guard, and the line of d one indent deeper.
fn opens(code: &Listing, g: usize, d: usize) -> bool
    requires { question_2 code.now.lines.now code.now.tokens.now code.now.text.now ≡ true }
    ensures { result ≡ opens_words (listing_of code.now) g d }
{
    indent(d) == indent(g) + 1 && pseudo_types::texts::is_guard(code, source(g))
}

// The line of d has the keyword do.
fn is_do(keywords: &Keywords, d: usize) -> bool
    ensures { result ≡ do_word (listing_of keywords.now.code) d }
{
    keywords.has_do(source(d))
}

// One turn at place i.
fn loop_turn(keywords: &Keywords, plan: &mut [usize], n: usize, i: usize) -> Turn
    requires i_bound { (i + 1 < n) × (n ≤ length plan.old) × (question_2 keywords.now.code.lines.now keywords.now.code.tokens.now keywords.now.code.text.now ≡ true) }
    requires ready { Ready i (take n plan.old) }
    ensures { TurnOf keywords.now.code.lines.now keywords.now.code.tokens.now keywords.now.code.text.now (λ M. loop_turn M i) n i plan.old result plan.new }
{
    let g = plan[i];
    let d = plan[i + 1];
    if is_do(keywords, d) {
        if indent(g) == 255 {
            return Err(Overflow);
        }
        if opens(&keywords.code, g, d) {
            return close(keywords, plan, n, i);
        }
    }
    Ok(Some(n))
}

// The pass, turn by turn.
pub fn plan_loops(keywords: &Keywords, plan: &mut [usize]) -> Result<usize, Overflow>
    requires lines_len_bound { (length keywords.now.code.lines.now ≤ 1024) × (length keywords.now.code.lines.now ≤ length plan.old) × (question_2 keywords.now.code.lines.now keywords.now.code.tokens.now keywords.now.code.text.now ≡ true) }
    ensures result_after { (S : List Line) → Source S keywords.now.code.lines.now keywords.now.code.tokens.now keywords.now.code.text.now → planned S plan.new result ≡ recover_loops S }
    ensures emitted { Emitted (length keywords.now.code.lines.now) plan.new result }
{
    plan::start(keywords.code.lines, plan);
    let mut n = keywords.code.lines.len();
    let mut i = 0;
    // A `while`: the lines become fewer as loops are made.
    while i + 1 < n {
        let Some(m) = loop_turn(keywords, plan, n, i)? else {
            return Ok(n);
        };
        n = m;
        i += 1;
    }
    Ok(n)
}
