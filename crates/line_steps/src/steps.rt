// The steps of one line, drawn into the two matrices of Rattle.bits: the kinds of step of Rattle.definitions.specs.FlowGraph.
//
// What a line is say its keywords; only at an `else`, a case and a goto its tokens are looked at. `falls_to` looks at the lines of an
// else chain, `cases` at the lines between a switch and its close, `leaves` at the openers around a break or continue. No step leads past the
// last line.
//
// A goto that leads to no label answers question 9 with no: `line_steps` answers false, and what the matrices then hold is left open.
ghost use Rattle.std.specs.Prelude.{if◌then◌else◌, ◌≡◌, true, [], ◌∷◌, ◌++◌, ◌+◌, ◌-◌, ◌≤◌, ◌<◌, length, get_or, IfSome};
ghost use Rattle.definitions.specs.Lists.{is_some, all, filter, range, to_list};
ghost use Rattle.definitions.specs.Model.{line};
ghost use Rattle.definitions.specs.FlowGraph.{is_case, else_end, chain_end, falls, past_end, cases, leads, jumps, leaves};
ghost use Rattle.model.specs.Listings.{listing_of, tokens_of};
ghost use Rattle.bits.specs.Edges.{Matrices};
ghost use Rattle.blocks.specs.Entries.{linked};
ghost use Rattle.blocks.specs.Structure.{blocks_of};
ghost use Rattle.labels.specs.Gotos.{goto_line};
ghost use Rattle.line_steps.specs.Drawing.{Drawn, from, left, lefts, back, line_edges};

use crate::keywords::{is_case, is_else_close, is_left};
use crate::nesting::Blocks;
use labels::Labels;
use labels::gotos::next_goto;
use line_keywords::Keywords;

// The step from line p to line q, unless it leads past the last line.
fn step(space: &mut [u64], n: usize, r: usize, p: usize, q: usize)
    requires { Matrices n r space.old × (p < n) }
    ensures { Drawn n r space.old space.new (from p (q ∷ [])) }
{
    if q < n {
        bits::add_edge(space, n, r, p, q);
    }
}

// Falling to the next line

// The close of the block at an else-close.
fn else_end(blocks: &Blocks, c: usize) -> Option<usize>
    requires { c < length blocks.now.keywords.code.lines.now }
    ensures value { let L = listing_of blocks.now.keywords.code in
        result ≡ else_end L (blocks_of L) c }
    ensures later { IfSome result (λ e. (c < e) × (e < length blocks.now.keywords.code.lines.now)) }
{
    if is_else_close(&blocks.keywords, c) {
        blocks.end(c)
    } else {
        None
    }
}

// The last close of the chain in which line c closes a block.
#[tactic(auto, using(crate::proofs::Falls::falling))]
fn chain_end(blocks: &Blocks, c: usize) -> usize
    requires { c < length blocks.now.keywords.code.lines.now }
    ensures { let L = listing_of blocks.now.keywords.code in
        (result ≡ chain_end L (blocks_of L) (length L) c) × (result < length blocks.now.keywords.code.lines.now) }
{
    // A `while`: it goes from close to close, which is no range.
    let mut at = c;
    while let Some(e) = else_end(blocks, at) {
        at = e;
    }
    at
}

// Where line i falls to.
#[tactic(auto, using(crate::proofs::Falls::falling))]
fn falls_to(blocks: &Blocks, i: usize) -> usize
    requires { i < length blocks.now.keywords.code.lines.now }
    ensures { let L = listing_of blocks.now.keywords.code in
        falls L (blocks_of L) i ≡ result ∷ [] }
{
    let next = i + 1;
    if blocks.keywords.code.lines.len() <= next {
        return next;
    }
    match else_end(blocks, next) {
        Some(c) => chain_end(blocks, c) + 1,
        None => next,
    }
}

// Past the end of a block, and back to its opener

// The step from line i past the end of the block that line h opens.
#[tactic(auto, using(crate::proofs::Edges::leaving))]
fn past_end(blocks: &Blocks, space: &mut [u64], r: usize, i: usize, h: usize)
    requires { let n = length blocks.now.keywords.code.lines.now in
        Matrices n r space.old × (i < n) × (h < n) }
    ensures { let L = listing_of blocks.now.keywords.code in
        let n = length blocks.now.keywords.code.lines.now in
        Drawn n r space.old space.new (from i (past_end (blocks_of L) h)) }
{
    if let Some(e) = blocks.end(h) {
        step(space, blocks.keywords.code.lines.len(), r, i, e + 1);
    }
}

// The step from the close of the loop that line h opens to line h.
#[tactic(auto, using(crate::proofs::Edges::leaving))]
fn loops_back(blocks: &Blocks, space: &mut [u64], r: usize, h: usize)
    requires { let n = length blocks.now.keywords.code.lines.now in
        Matrices n r space.old × (h < n) }
    ensures { let L = listing_of blocks.now.keywords.code in
        let n = length blocks.now.keywords.code.lines.now in
        Drawn n r space.old space.new (back L (blocks_of L) h) }
{
    if let Some(e) = blocks.end(h) {
        if blocks.keywords.is_loop(h) {
            bits::add_edge(space, blocks.keywords.code.lines.len(), r, e, h);
        }
    }
}

// Cases of a switch

fn case_step(keywords: &Keywords, space: &mut [u64], r: usize, h: usize, j: usize)
    requires { let n = length keywords.now.code.lines.now in
        Matrices n r space.old × (h < n) }
    ensures { let L = listing_of keywords.now.code in
        let n = length keywords.now.code.lines.now in
        Drawn n r space.old space.new (from h (if is_case (line L j) then j ∷ [] else [])) }
{
    if is_case(keywords, j) {
        step(space, keywords.code.lines.len(), r, h, j);
    }
}

// The steps from line h to each case or default between it and line c.
fn case_steps(keywords: &Keywords, space: &mut [u64], r: usize, h: usize, c: usize)
    requires { let n = length keywords.now.code.lines.now in
        Matrices n r space.old × (h < n) }
    ensures { let L = listing_of keywords.now.code in
        let n = length keywords.now.code.lines.now in
        Drawn n r space.old space.new (from h (filter (λ j. is_case (line L j)) (range (h + 1) (c - (h + 1))))) }
{
    for j in h + 1..c {
        case_step(keywords, space, r, h, j);
    }
}

// The steps from a switch at line h to its cases.
#[tactic(auto, using(crate::proofs::Edges::cases_none))]
fn cases(blocks: &Blocks, space: &mut [u64], r: usize, h: usize)
    requires { let n = length blocks.now.keywords.code.lines.now in
        Matrices n r space.old × (h < n) }
    ensures { let L = listing_of blocks.now.keywords.code in
        let n = length blocks.now.keywords.code.lines.now in
        Drawn n r space.old space.new (from h (cases L (blocks_of L) h)) }
{
    if let Some(e) = blocks.end(h) {
        if blocks.keywords.is_switch(h) {
            case_steps(&blocks.keywords, space, r, h, e);
        }
    }
}

// Breaks and continues

// The steps of a break or continue at line i within the block that line h opens.
#[tactic(auto, using(crate::proofs::Edges::leaving))]
fn leave(blocks: &Blocks, space: &mut [u64], r: usize, i: usize, h: usize)
    requires { let n = length blocks.now.keywords.code.lines.now in
        Matrices n r space.old × (i < n) × (h < n) }
    ensures { let L = listing_of blocks.now.keywords.code in
        let n = length blocks.now.keywords.code.lines.now in
        Drawn n r space.old space.new (from i (left L (blocks_of L) h)) }
{
    if is_left(&blocks.keywords, h) {
        step(space, blocks.keywords.code.lines.len(), r, i, h);
        past_end(blocks, space, r, i, h);
    }
}

// The same for every block around line i.
fn leave_all(blocks: &Blocks, space: &mut [u64], r: usize, i: usize)
    requires { let n = length blocks.now.keywords.code.lines.now in
        Matrices n r space.old × (i < n) }
    ensures { let L = listing_of blocks.now.keywords.code in
        let n = length blocks.now.keywords.code.lines.now in
        let ps = blocks.now.parents.now in
        Drawn n r space.old space.new (from i (lefts L (blocks_of L) (linked ps i (get_or ps i 0)))) }
{
    // A `while`: it goes from opener to opener, which is no range.
    let mut around = blocks.opener(i);
    while let Some(h) = around {
        leave(blocks, space, r, i, h);
        around = blocks.opener(h);
    }
}

// The steps of line i where it has a break or continue.
#[tactic(auto, using(crate::proofs::Edges::leaving))]
fn leaves(blocks: &Blocks, space: &mut [u64], r: usize, i: usize)
    requires { let n = length blocks.now.keywords.code.lines.now in
        Matrices n r space.old × (i < n) }
    ensures { let L = listing_of blocks.now.keywords.code in
        let n = length blocks.now.keywords.code.lines.now in
        Drawn n r space.old space.new (from i (leaves L (blocks_of L) i)) }
{
    if blocks.keywords.leaves_block(i) {
        leave_all(blocks, space, r, i);
    }
}

// Gotos

// The step of a goto of line i, behind which the line's tokens stand from place b up to place e. False where it leads to no label.
#[tactic(auto, using(crate::proofs::Edges::leading))]
fn jump_step(labels: &Labels, space: &mut [u64], r: usize, i: usize, b: usize, e: usize) -> bool
    requires { let n = length labels.now.code.lines.now in
        Matrices n r space.old × (i < n) × (e ≤ length labels.now.code.tokens.now) }
    ensures value { let code = labels.now.code in
        result ≡ is_some (goto_line (listing_of code) (tokens_of code) b e) }
    ensures fact { let code = labels.now.code in
        let n = length code.lines.now in
        Drawn n r space.old space.new (from i (to_list (goto_line (listing_of code) (tokens_of code) b e))) }
{
    match labels.goto_line(b, e) {
        Some(q) => {
            step(space, labels.code.lines.len(), r, i, q);
            true
        }
        None => false,
    }
}

// The steps of line i to the labels of its gotos, goto by goto. False where a goto leads to no label.
#[tactic(auto, using(crate::proofs::Edges::jumping))]
fn token_jumps(labels: &Labels, space: &mut [u64], r: usize, i: usize) -> bool
    requires { let n = length labels.now.code.lines.now in
        Matrices n r space.old × (i < n) }
    ensures value { result ≡ all is_some (leads (listing_of labels.now.code) i) }
    ensures fact { let L = listing_of labels.now.code in
        let n = length labels.now.code.lines.now in
        (result ≡ true → Drawn n r space.old space.new (from i (jumps L i))) }
{
    let code = labels.code;
    let e = code.line_end(i);
    // A `while`: it goes from goto to goto, which is no range.
    let mut goto = next_goto(&code, code.line_start(i), e);
    while let Some(k) = goto {
        let b = k + 1;
        if !jump_step(labels, space, r, i, b, e) {
            return false;
        }
        goto = next_goto(&code, b, e);
    }
    true
}

// The same, asked only of a line that has a goto.
#[tactic(auto, using(crate::proofs::Edges::leading))]
fn jumps(keywords: &Keywords, labels: &Labels, space: &mut [u64], r: usize, i: usize) -> bool
    requires matrices { let n = length keywords.now.code.lines.now in
        Matrices n r space.old × (i < n) }
    requires same { labels.now.code ≡ keywords.now.code }
    ensures value { result ≡ all is_some (leads (listing_of keywords.now.code) i) }
    ensures fact { let L = listing_of keywords.now.code in
        let n = length keywords.now.code.lines.now in
        (result ≡ true → Drawn n r space.old space.new (from i (jumps L i))) }
{
    !keywords.has_goto(i) || token_jumps(labels, space, r, i)
}

// All kinds

// The steps of line i that its blocks tell: falling, past the end, to cases.
#[tactic(auto, using(crate::proofs::Edges::block_drawn))]
fn block_steps(blocks: &Blocks, space: &mut [u64], r: usize, i: usize)
    requires { let n = length blocks.now.keywords.code.lines.now in
        Matrices n r space.old × (i < n) }
    ensures { let L = listing_of blocks.now.keywords.code in
        let n = length blocks.now.keywords.code.lines.now in
        let b = blocks_of L in
        Drawn n r space.old space.new (from i (falls L b i ++ past_end b i ++ cases L b i)) }
{
    let t = falls_to(blocks, i);
    step(space, blocks.keywords.code.lines.len(), r, i, t);
    past_end(blocks, space, r, i, i);
    cases(blocks, space, r, i);
}

// All edges that line i draws. False where a goto of it leads to no label.
pub fn line_steps(blocks: &Blocks, labels: &Labels, space: &mut [u64], r: usize, i: usize) -> bool
    requires matrices { let n = length blocks.now.keywords.code.lines.now in
        Matrices n r space.old × (i < n) }
    requires same { labels.now.code ≡ blocks.now.keywords.code }
    ensures value { result ≡ all is_some (leads (listing_of blocks.now.keywords.code) i) }
    ensures fact { let L = listing_of blocks.now.keywords.code in
        let n = length blocks.now.keywords.code.lines.now in
        (result ≡ true → Drawn n r space.old space.new (line_edges L (blocks_of L) i)) }
{
    block_steps(blocks, space, r, i);
    if !jumps(&blocks.keywords, labels, space, r, i) {
        return false;
    }
    leaves(blocks, space, r, i);
    loops_back(blocks, space, r, i);
    true
}
