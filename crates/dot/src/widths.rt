// How wide the labels are, in letters. The time is linear in the tokens.
//
// Contracts cite `token_cells` and `cells` of specs/Dot.antt and `widest` of specs/Held.antt.
ghost use Rattle.std.specs.Prelude.{◌≡◌, map, ◌-◌, ◌≤◌, max, length};
ghost use Rattle.definitions.specs.Lists.{range};
ghost use Rattle.model.specs.Places.{line_start, line_end};
ghost use Rattle.model.specs.Listings.{tokens_of};
ghost use Rattle.dot.specs.Dot.{sum, token_cells};
ghost use Rattle.dot.specs.Held.{line_cells, widest};

use crate::webs::has_web;
use model::listing::Listing;

// Token k of all.
fn token_cells(code: &Listing, numbers: &[u32], k: usize) -> usize
    requires { length code.now.text.now ≤ 262144 }
    ensures value { result ≡ token_cells (tokens_of code.now) numbers.now k }
    ensures upper_bound { result ≤ 262146 }
{
    let n = code.token_text(k).len();
    if has_web(numbers, k) { n + 2 } else { n }
}

// The tokens of line i.
fn tokens_cells(code: &Listing, numbers: &[u32], i: usize) -> usize
    requires { (length code.now.tokens.now ≤ 16384) × (length code.now.text.now ≤ 262144) }
    ensures value { result ≡ sum (map (token_cells (tokens_of code.now) numbers.now) (range (line_start code.now.lines.now i) (line_end code.now.lines.now code.now.tokens.now i - line_start code.now.lines.now i))) }
    ensures upper_bound { result ≤ 4295000064 }
{
    let end = code.line_end(i);
    let mut s = 0;
    for k in code.line_start(i)..end {
        s += token_cells(code, numbers, k);
    }
    s
}

// Line i.
fn line_cells(code: &Listing, numbers: &[u32], i: usize) -> usize
    requires { (length code.now.tokens.now ≤ 16384) × (length code.now.text.now ≤ 262144) }
    ensures value { result ≡ line_cells code.now.lines.now code.now.tokens.now code.now.text.now numbers.now i }
    ensures upper_bound { result ≤ 4295001084 }
{
    4 * code.indent(i) + tokens_cells(code, numbers, i)
}

// The widest line.
pub fn widest(code: &Listing, numbers: &[u32]) -> usize
    requires { (length code.now.tokens.now ≤ 16384) × (length code.now.text.now ≤ 262144) }
    ensures value { result ≡ widest code.now.lines.now code.now.tokens.now code.now.text.now numbers.now }
    ensures upper_bound { result ≤ 4295001084 }
{
    let mut m = 0;
    for i in 0..code.lines.len() {
        m = m.max(line_cells(code, numbers, i));
    }
    m
}
