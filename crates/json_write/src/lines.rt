// Lines and listings.
#![tactic(auto, using(crate::proofs::LineRules::lines))]

ghost use Rattle.std.specs.Prelude.{◌≡◌, ◌++◌, ◌<◌, length, drop};
ghost use Rattle.definitions.specs.Lists.{ascii};
ghost use Rattle.definitions.specs.Model.{line};
ghost use Rattle.json_definitions.specs.Writer.{line_text, elements_text, write};
ghost use Rattle.json_append.specs.Appended.{Wrote};
ghost use Rattle.json_write.specs.Answers.{lines_of, head_text};

use crate::tokens::put_token_array;
use json_append::writer::Writer;
use model::listing::Listing;

// Line i up to its tokens.
fn put_head(to: &mut Writer, code: &Listing, addresses: &[u64], i: usize)
    requires { (i < length code.now.lines.now) × (length addresses.now ≡ length code.now.lines.now) }
    ensures { Wrote to.old
        (head_text (line (lines_of code.now.lines.now addresses.now code.now.tokens.now code.now.text.now) i)) to.new }
{
    to.put(b"{\"address\":");
    to.put_address(code.address_of(addresses, i));
    to.put(b",\"indent\":");
    // A cast: std has no `From` of `usize` to 64 bits.
    to.put_decimal(code.indent(i) as u64);
    to.put(b",\"tokens\":");
}

fn put_line(to: &mut Writer, code: &Listing, addresses: &[u64], i: usize)
    requires { (i < length code.now.lines.now) × (length addresses.now ≡ length code.now.lines.now) }
    ensures { Wrote to.old
        (line_text (line (lines_of code.now.lines.now addresses.now code.now.tokens.now code.now.text.now) i)) to.new }
{
    put_head(to, code, addresses, i);
    put_token_array(to, code, code.line_start(i), code.line_end(i));
    to.put_byte(b'}');
}

// "," and line i.
fn put_next_line(to: &mut Writer, code: &Listing, addresses: &[u64], i: usize)
    requires { (i < length code.now.lines.now) × (length addresses.now ≡ length code.now.lines.now) }
    ensures { Wrote to.old
        (ascii "," ++ line_text (line (lines_of code.now.lines.now addresses.now code.now.tokens.now code.now.text.now) i)) to.new }
{
    to.put_byte(b',');
    put_line(to, code, addresses, i);
}

// The lines from `from` on, each behind a ",", and "]".
fn put_lines(to: &mut Writer, code: &Listing, addresses: &[u64], from: usize)
    requires { length addresses.now ≡ length code.now.lines.now }
    ensures { Wrote to.old
        (elements_text line_text (drop from (lines_of code.now.lines.now addresses.now code.now.tokens.now code.now.text.now))) to.new }
{
    for i in from..code.lines.len() {
        put_next_line(to, code, addresses, i);
    }
    to.put_byte(b']');
}

// The text of the listing.
pub fn put_listing(to: &mut Writer, code: &Listing, addresses: &[u64])
    requires { length addresses.now ≡ length code.now.lines.now }
    ensures { Wrote to.old
        (write (lines_of code.now.lines.now addresses.now code.now.tokens.now code.now.text.now)) to.new }
{
    if code.lines.is_empty() {
        to.put(b"[]");
        return;
    }
    to.put_byte(b'[');
    put_line(to, code, addresses, 0);
    put_lines(to, code, addresses, 1);
}
