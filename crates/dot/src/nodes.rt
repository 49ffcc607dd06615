// The lines as nodes. Each function takes time linear in what it writes.
//
// Contracts: `Wrote` of Rattle.json_append.specs.Appended, of the texts of specs/Dot.antt.
#![tactic(auto, using(crate::proofs::NodeRules::nodes), unfolding(crate::specs::Dot::node_head, crate::specs::Dot::number_cell, crate::specs::Dot::text_cell, crate::specs::Dot::node_start, crate::specs::Held::node_at, crate::specs::Dot::node_text))]

ghost use Rattle.std.specs.Prelude.{◌<◌, length};
ghost use Rattle.model.specs.Places.{line_start, line_end};
ghost use Rattle.model.specs.Listings.{tokens_of};
ghost use Rattle.json_append.specs.Appended.{Wrote};
ghost use Rattle.rows.specs.Rows.{rows};
ghost use Rattle.dot.specs.Dot.{token_text, node_head, number_cell, text_cell, node_start};
ghost use Rattle.dot.specs.Held.{Ranked, line_at, node_at};

use crate::node_labels::{put_between, put_blanks, put_characters, put_web};
use crate::webs::has_web;
use json_append::writer::Writer;
use model::listing::Listing;

fn put_head(to: &mut Writer, i: usize)
    ensures { Wrote to.old (node_head i) to.new }
{
    put_between(to, b"  ", i, b" [label=<<table border=\"0\"><tr>");
}

fn put_number_cell(to: &mut Writer, i: usize)
    ensures { Wrote to.old (number_cell i) to.new }
{
    put_between(
        to,
        b"<td align=\"right\" width=\"24\"><font color=\"gray50\">",
        i,
        b"</font></td>",
    );
}

fn put_text_cell(to: &mut Writer, w: usize)
    ensures { Wrote to.old (text_cell w) to.new }
{
    put_between(to, b"<td align=\"left\" width=\"", w, b"\">");
}

// What stands before the text of line i, which is w points wide.
fn put_start(to: &mut Writer, w: usize, i: usize)
    ensures { Wrote to.old (node_start w i) to.new }
{
    put_head(to, i);
    put_number_cell(to, i);
    put_text_cell(to, w);
}

// A listing, the web numbers of its tokens, and their ranks.
#[derive(Clone, Copy)]
pub struct Numbered<'a> {
    pub code: &'a Listing<'a, 'a>,
    pub numbers: &'a [u32],
    pub ranks: &'a [u32],
    ghost ranked: { Ranked (tokens_of code.now) numbers.now (length code.now.tokens.now) ranks.now },
}

impl Numbered<'_> {
    // Token k of all.
    fn put_token(&self, to: &mut Writer, k: usize)
        requires { k < length self.now.code.now.tokens.now }
        ensures { Wrote to.old (token_text (tokens_of self.now.code.now) self.now.numbers.now k) to.new }
    {
        let s = self.code.token_text(k);
        if has_web(self.numbers, k) {
            let f = text::word(self.ranks, k) / 32768;
            let c = text::word(self.ranks, f) % 32768;
            put_web(to, c, s, text::word(self.numbers, k));
        } else {
            put_characters(to, s);
        }
    }

    // The tokens of line i.
    fn put_tokens(&self, to: &mut Writer, i: usize)
        ensures { Wrote to.old
            (rows (token_text (tokens_of self.now.code.now) self.now.numbers.now) (line_start self.now.code.now.lines.now i) (line_end self.now.code.now.lines.now self.now.code.now.tokens.now i))
            to.new }
    {
        let end = self.code.line_end(i);
        for k in self.code.line_start(i)..end {
            self.put_token(to, k);
        }
    }

    // The label's text.
    fn put_line(&self, to: &mut Writer, i: usize)
        ensures { Wrote to.old (line_at self.now.code.now.lines.now self.now.code.now.tokens.now self.now.code.now.text.now self.now.numbers.now i) to.new }
    {
        put_blanks(to, self.code.indent(i));
        self.put_tokens(to, i);
    }

    // Line i, its text w points wide.
    fn put_node(&self, to: &mut Writer, w: usize, i: usize)
        ensures { Wrote to.old (node_at self.now.code.now.lines.now self.now.code.now.tokens.now self.now.code.now.text.now self.now.numbers.now w i) to.new }
    {
        put_start(to, w, i);
        self.put_line(to, i);
        to.put(b"</td></tr></table>>]\n");
    }

    // All lines.
    pub fn put_nodes(&self, to: &mut Writer, w: usize)
        ensures { Wrote to.old
            (rows (node_at self.now.code.now.lines.now self.now.code.now.tokens.now self.now.code.now.text.now self.now.numbers.now w) 0 (length self.now.code.now.lines.now)) to.new }
    {
        for i in 0..self.code.lines.len() {
            self.put_node(to, w, i);
        }
    }
}
