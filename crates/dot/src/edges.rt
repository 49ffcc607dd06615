// The edges of the flow graph, from the successors of crate bits: rows of 17 words, for at most 1,024 lines. The time is the square of the lines.
//
// Contracts: `Wrote` of Rattle.json_append.specs.Appended, of the texts of specs/Dot.antt.
#![tactic(auto, using(crate::proofs::EdgeRules::edge_rules), unfolding(crate::specs::Dot::arrow, crate::specs::Dot::down, crate::specs::Dot::aside, crate::specs::Dot::edge))]

ghost use Rattle.std.specs.Prelude.{◌≡◌, ◌+◌, ◌≤◌, ◌<◌, eqb, length};
ghost use Rattle.bits.specs.Edges.{succs};
ghost use Rattle.json_append.specs.Appended.{Wrote};
ghost use Rattle.rows.specs.Rows.{rows};
ghost use Rattle.dot.specs.Dot.{arrow, down, aside, edge, edges};

use json_append::writer::Writer;

// The edge from line i to line j, with the text s between them and t behind.
fn put_arrow(to: &mut Writer, i: usize, s: &[u8], j: usize, t: &[u8])
    ensures { Wrote to.old (arrow i s.now j t.now) to.new }
{
    to.put(b"  ");
    // A cast: std has no `From` of `usize` to 64 bits.
    to.put_decimal(i as u64);
    to.put(s);
    to.put_decimal(j as u64);
    to.put(t);
}

// To the next line, drawn or not.
fn put_down(to: &mut Writer, drawn: bool, i: usize, j: usize)
    ensures { Wrote to.old (down drawn i j) to.new }
{
    if drawn {
        put_arrow(to, i, b" -> ", j, b" [weight=9]\n");
    } else {
        put_arrow(to, i, b" -> ", j, b" [weight=9 style=invis]\n");
    }
}

// To any other line.
fn put_aside(to: &mut Writer, i: usize, j: usize)
    ensures { Wrote to.old (aside i j) to.new }
{
    if i < j {
        put_arrow(to, i, b":e -> ", j, b":e\n");
    } else {
        put_arrow(to, i, b":w -> ", j, b":w [penwidth=2]\n");
    }
}

// Line j is the one after line i.
fn is_next(i: usize, j: usize) -> bool
    ensures { result ≡ eqb j (i + 1) }
{
    i < j && j - i == 1
}

fn put_edge(to: &mut Writer, drawn: bool, i: usize, j: usize)
    ensures { Wrote to.old (edge drawn i j) to.new }
{
    if is_next(i, j) {
        put_down(to, drawn, i, j);
    } else if drawn {
        put_aside(to, i, j);
    }
}

// The edges from line i of n.
fn put_from(to: &mut Writer, space: &[u64], n: usize, i: usize)
    requires { (i < n) × (n ≤ 1024) × (34816 ≤ length space.now) }
    ensures { Wrote to.old (rows (λ j. edge (succs n 17 space.now i j) i j) 0 n) to.new }
{
    for j in 0..n {
        let drawn = bits::get_bit(space, (n * 17 + i * 17) * 64 + j);
        put_edge(to, drawn, i, j);
    }
}

// The edges of n lines.
pub fn put_edges(to: &mut Writer, space: &[u64], n: usize)
    requires { (n ≤ 1024) × (34816 ≤ length space.now) }
    ensures { Wrote to.old (edges (succs n 17 space.now) n) to.new }
{
    for i in 0..n {
        put_from(to, space, n, i);
    }
}
