// `to_for` over a plan of kept lines and headers. `first_end` and `continues` look at each line of the body once, `initialiser` at most at
// four lines.
#![tactic(auto, using(crate::proofs::WordRules::names_other, crate::proofs::WordRules::continue_words, crate::proofs::WordRules::end_words, crate::proofs::WordRules::init_lines, crate::proofs::WordRules::for_words, text::proofs::Loops::loops, crate::proofs::ForRules::for_answers))]

ghost use Rattle.std.specs.Prelude.{◌≡◌, true, ◌&&◌, ◌+◌, ◌≤◌, ◌<◌, length, get_or, take, drop};
ghost use Rattle.definitions.specs.Lists.{any, part, position_from};
ghost use Rattle.definitions.specs.Model.{token, line};
ghost use Rattle.definitions.specs.Questions.{question_2};
ghost use Rattle.definitions.specs.Family.{fam_of};
ghost use Rattle.model.specs.Listings.{listing_of};
ghost use Rattle.family.specs.Register.{family_of, names_family};
ghost use Rattle.plan.specs.Plan.{header_at};
ghost use Rattle.plan.specs.ForLoop.{inits, passes};
ghost use Rattle.loops.specs.Turns.{ToFor};
ghost use Rattle.loops.specs.Words.{source_line, Ready, at_indent, is_init, is_passing, ends_word, continue_word, closed_words, steps_words, counts_words, init_words, counted_words, place_words};

use assignment::assignment;
use family::Register;
use line_keywords::Keywords;
use model::kind::Kind;
use model::listing::Listing;
use plan::{indent, is_line, make_for, source};

// The line of w ends a block at indent `ind`: it is no deeper, and no label.
fn ends(code: &Listing, ind: usize, w: usize) -> bool
    ensures { result ≡ ends_word (listing_of code.now) ind w }
{
    indent(w) <= ind && !pseudo_opt::labels::is_label(code, source(w))
}

// The first of the first n lines, from place `from` on, that ends a block at indent `ind`.
pub fn first_end(code: &Listing, plan: &[usize], n: usize, from: usize, ind: usize) -> Option<usize>
    requires { n ≤ length plan.now }
    ensures { let C = listing_of code.now in
        result ≡ position_from from (ends_word C ind) (take n plan.now) }
{
    for j in from..n {
        let w = plan[j];
        if ends(code, ind, w) {
            return Some(j);
        }
    }
    None
}

fn continues_at(keywords: &Keywords, w: usize) -> bool
    ensures { result ≡ continue_word (listing_of keywords.now.code) w }
{
    keywords.has_continue(source(w))
}

// A line from place a up to place e has the keyword continue.
fn continues(keywords: &Keywords, plan: &[usize], a: usize, e: usize) -> bool
    requires e_in_bounds { e ≤ length plan.now }
    ensures { result ≡ any (continue_word (listing_of keywords.now.code)) (part a e plan.now) }
{
    for j in a..e {
        let w = plan[j];
        if continues_at(keywords, w) {
            return true;
        }
    }
    false
}

// What a line before a header is: the initialiser, an assignment that may stand behind it, or neither.
// An enum of its own, for the search tells the three cases apart: it answers, goes on or stops.
#[derive(Drop)]
pub enum Ahead {
    Init,
    Passing,
    Other,
}

// Token j of line i names the family that the answer r of the text s is. Only a register is looked up.
fn names_at(code: &Listing, i: usize, j: usize, s: &[u8], r: Option<Register>) -> bool
    ensures { let l = line (listing_of code.now) i in
        result ≡ names_family (family_of s.now r) (token l j) }
{
    code.is(i, j, Kind::Register) && pseudo_opt::registers::token_names(code, i, j, s, r)
}

// A token of line i behind the first names it.
fn rest_names(code: &Listing, i: usize, s: &[u8], r: Option<Register>) -> bool
    ensures { let l = line (listing_of code.now) i in
        result ≡ any (names_family (family_of s.now r)) (drop 1 l.tokens) }
{
    let n = code.token_count(i);
    for j in 1..n {
        if names_at(code, i, j, s, r) {
            return true;
        }
    }
    false
}

// What line i is: it assigns this family, and its right side does not name it; or it assigns another, does not name this one, and does not
// call; or neither.
fn before(code: &Listing, i: usize, s: &[u8], r: Option<Register>) -> Ahead
    ensures result_value { let C = listing_of code.now in
        is_init result ≡ inits (names_family (family_of s.now r)) (line C i) }
    ensures result_value_2 { let C = listing_of code.now in
        is_passing result ≡ passes (names_family (family_of s.now r)) (line C i) }
{
    let Some(side) = assignment(code, i) else {
        return Ahead::Other;
    };
    if pseudo_opt::registers::token_names(code, i, 0, s, r) {
        if assignment::definition::side_names(code, i, side.from, side.to, s, r) {
            return Ahead::Other;
        }
        return Ahead::Init;
    }
    if rest_names(code, i, s, r) {
        return Ahead::Other;
    }
    match pseudo_opt::calls::call_at(code, i) {
        Some(_) => Ahead::Other,
        None => Ahead::Passing,
    }
}

// The line of w stands at indent `ind` and is no header.
fn at_indent(w: usize, ind: usize) -> bool
    ensures { result ≡ at_indent ind w }
{
    indent(w) == ind && is_line(w)
}

// The same of the line of w, which is neither where it does not stand at indent `ind` or is a header.
fn before_at(code: &Listing, w: usize, ind: usize, s: &[u8], r: Option<Register>) -> Ahead
    ensures result_value { let C = listing_of code.now in
        is_init result ≡ (at_indent ind w && inits (names_family (family_of s.now r)) (source_line C w)) }
    ensures result_value_2 { let C = listing_of code.now in
        is_passing result ≡ (at_indent ind w && passes (names_family (family_of s.now r)) (source_line C w)) }
{
    if at_indent(w, ind) {
        before(code, source(w), s, r)
    } else {
        Ahead::Other
    }
}

// The place of the initialiser among the 4 lines before place w.
fn initialiser(
    code: &Listing,
    plan: &[usize],
    w: usize,
    ind: usize,
    s: &[u8],
    r: Option<Register>,
) -> Option<usize>
    requires { w ≤ length plan.now }
    ensures { let C = listing_of code.now in
        result ≡ init_words C (names_family (family_of s.now r)) plan.now ind 4 w }
{
    for k in (w.saturating_sub(4)..w).rev() {
        let v = plan[k];
        match before_at(code, v, ind, s, r) {
            Ahead::Init => return Some(k),
            Ahead::Passing => {}
            Ahead::Other => return None,
        }
    }
    None
}

// The body of the header at place w is closed by a lone `}` at place e, at the header's indent, and is not empty.
fn closed_body(code: &Listing, plan: &[usize], w: usize, e: usize) -> bool
    requires { (w < length plan.now) × (e < length plan.now) × (question_2 code.now.lines.now code.now.tokens.now code.now.text.now ≡ true) }
    ensures { result ≡ closed_words (listing_of code.now) plan.now w e }
{
    if e < w + 2 {
        return false;
    }
    let h = plan[w];
    let b = plan[e];
    indent(b) == indent(h) && pseudo_types::texts::is_brace(code, source(b))
}

// The line of z stands one deeper than the header h and steps its first token.
fn steps(code: &Listing, h: usize, z: usize) -> bool
    requires { question_2 code.now.lines.now code.now.tokens.now code.now.text.now ≡ true }
    ensures { result ≡ steps_words (listing_of code.now) h z }
{
    indent(z) == indent(h) + 1 && pseudo_types::texts::is_step(code, source(z))
}

// The condition of the header at place w names the family that the answer r of the text s is, and no line of its body has continue.
fn counts(
    keywords: &Keywords,
    plan: &[usize],
    w: usize,
    e: usize,
    s: &[u8],
    r: Option<Register>,
) -> bool
    requires w_in_bounds { (w < length plan.now) × (e < length plan.now) }
    ensures { let C = listing_of keywords.now.code in
        result ≡ counts_words C plan.now w e (names_family (family_of s.now r)) }
{
    let h = plan[w];
    pseudo_types::conditions::condition_names(&keywords.code, source(h), s, r)
        && !continues(keywords, plan, w + 1, e)
}

// The place of the initialiser of the register that line i steps, where the header at place w counts it. The initialiser is asked for first:
// it stands among four lines, and `counts` looks through the whole body.
fn counted_place(keywords: &Keywords, plan: &[usize], w: usize, e: usize, i: usize) -> Option<usize>
    requires w_in_bounds { (w < length plan.now) × (e < length plan.now) }
    ensures { let C = listing_of keywords.now.code in
        let p = names_family (fam_of (token (line C i) 0)) in
        result ≡ counted_words C plan.now w e p }
{
    let r = pseudo_opt::registers::register_at(&keywords.code, i, 0);
    let s = keywords.code.text_at(i, 0);
    let h = plan[w];
    let k = initialiser(&keywords.code, plan, w, indent(h), s, r)?;
    if counts(keywords, plan, w, e, s, r) {
        Some(k)
    } else {
        None
    }
}

// The place of the initialiser, where the header at place w, whose body is closed at place e, becomes a for header.
fn for_place(keywords: &Keywords, plan: &[usize], w: usize, e: usize) -> Option<usize>
    requires w_in_bounds { (w < length plan.now) × (e < length plan.now) × (question_2 keywords.now.code.lines.now keywords.now.code.tokens.now keywords.now.code.text.now ≡ true) × (w < e) }
    ensures { result ≡ place_words (listing_of keywords.now.code) plan.now w e }
{
    if closed_body(&keywords.code, plan, w, e) {
        let h = plan[w];
        let z = plan[e - 1];
        if steps(&keywords.code, h, z) {
            return counted_place(keywords, plan, w, e, source(z));
        }
    }
    None
}

// The while header at place w becomes a for header, where its conditions hold; answers how many lines there are then.
pub fn to_for(keywords: &Keywords, plan: &mut [usize], n: usize, w: usize) -> usize
    requires w_lt_n { (w < n) × (n ≤ length plan.old) × (question_2 keywords.now.code.lines.now keywords.now.code.tokens.now keywords.now.code.text.now ≡ true) }
    requires w_value { (header_at (get_or plan.old w 0) ≡ 1) × Ready (w + 1) (take n plan.old) }
    ensures { ToFor keywords.now.code.lines.now keywords.now.code.tokens.now keywords.now.code.text.now w n plan.old result plan.new }
{
    if w == 0 {
        return n;
    }
    let h = plan[w];
    let Some(e) = first_end(&keywords.code, plan, n, w + 1, indent(h)) else {
        return n;
    };
    let Some(k) = for_place(keywords, plan, w, e) else {
        return n;
    };
    make_for(plan, n, w, e, k);
    n - 2
}
