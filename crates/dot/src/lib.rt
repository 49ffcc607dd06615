// The picture of a listing: its flow graph in the DOT language, each register token that has a web in the colour of its web.
//
//   node_labels   texts as a label has them, colours
//   webs     which tokens are of one web, and in which order webs appear
//   widths   how wide the labels are
//   nodes    the lines
//   edges    the edges of the flow graph
//
// What has no room is only counted, as in crate json_append. The time is linear in the text, and at most the square of the tokens and of the lines.
// Contracts cite `dot_text` of specs/Dot.antt.

#![tactic(auto)]

mod edges;
mod node_labels;
mod nodes;
mod webs;
mod widths;

ghost use Rattle.std.specs.Prelude.{◌++◌, ◌≤◌, length};
ghost use Rattle.definitions.specs.Lists.{ascii};
ghost use Rattle.model.specs.Listings.{listing_of};
ghost use Rattle.bits.specs.Edges.{succs};
ghost use Rattle.json_append.specs.Appended.{Appended, Wrote};
ghost use Rattle.dot.specs.Dot.{edges, dot_text};
ghost use Rattle.dot.specs.Held.{Ready, nodes_at, picture};

use crate::edges::put_edges;
use crate::nodes::Numbered;
use crate::webs::rank;
use crate::widths::widest;
use json_append::writer::Writer;
use model::listing::Listing;

// The lines.
fn put_lines(to: &mut Writer, code: &Listing, numbers: &[u32], ranks: &mut [u32])
    requires { (length code.now.tokens.now ≤ 16384) × (length code.now.text.now ≤ 262144) × (length code.now.tokens.now ≤ length ranks.old) }
    ensures { Wrote to.old (nodes_at code.now.lines.now code.now.tokens.now code.now.text.now numbers.now) to.new }
{
    rank(code, numbers, ranks);
    let numbered = Numbered {
        code,
        numbers,
        ranks,
    };
    numbered.put_nodes(to, 7 * widest(code, numbers));
}

// The picture, with the edges that are drawn in the space.
fn put_picture(to: &mut Writer, code: &Listing, numbers: &[u32], space: &[u64], ranks: &mut [u32])
    requires { Ready code.now.lines.now code.now.tokens.now code.now.text.now space.now ranks.old }
    ensures { Wrote to.old
        (picture code.now.lines.now code.now.tokens.now code.now.text.now numbers.now (succs (length code.now.lines.now) 17 space.now)) to.new }
{
    to.put(
        b"digraph flow {\n  ranksep=0.1\n  nodesep=0.15\n  node [shape=box margin=0 height=0 color=gray80 fontname=Courier fontsize=10]\n  edge [color=gray30 arrowsize=0.5]\n",
    );
    put_lines(to, code, numbers, ranks);
    put_edges(to, space, code.lines.len());
    to.put(b"}\n");
}

// The same, with the edges of the listing's flow graph, nothing where there is none.
fn put_drawn(to: &mut Writer, code: &Listing, numbers: &[u32], space: &mut [u64], ranks: &mut [u32])
    requires { Ready code.now.lines.now code.now.tokens.now code.now.text.now space.old ranks.old }
    ensures { Wrote to.old (dot_text (listing_of code.now) numbers.now) to.new }
{
    match flow::graph::flow_graph(code, space, 17) {
        Ok(()) => put_picture(to, code, numbers, space, ranks),
        Err(_) => {}
    }
}

// The picture of the listing with these web numbers, at the start of the slice; the answer is how long it is. The space takes the flow graph, and `ranks`
// a word a token.
pub fn put_dot(
    out: &mut [u8],
    code: &Listing,
    numbers: &[u32],
    space: &mut [u64],
    ranks: &mut [u32],
) -> usize
    requires { Ready code.now.lines.now code.now.tokens.now code.now.text.now space.old ranks.old }
    ensures { Appended out.old 0
        (dot_text (listing_of code.now) numbers.now) out.new result }
{
    let mut to = Writer::new(out);
    put_drawn(&mut to, code, numbers, space, ranks);
    to.len()
}
