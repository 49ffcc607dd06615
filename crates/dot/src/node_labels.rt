// Texts as a label has them, and a token in the colour of its web. Each function takes time linear in what it writes.
//
// Contracts: `Wrote` of Rattle.json_append.specs.Appended, of the texts of specs/Dot.antt.
#![tactic(auto, using(crate::proofs::LabelRules::labels), unfolding(crate::specs::Dot::digit, crate::specs::Dot::hue, crate::specs::Dot::font, crate::specs::Dot::below, crate::specs::Dot::web_text))]

ghost use Rattle.std.specs.Prelude.{◌++◌};
ghost use Rattle.json_definitions.specs.Writer.{decimal};
ghost use Rattle.json_append.specs.Appended.{Wrote};
ghost use Rattle.dot.specs.Dot.{character, characters, digit, hue, font, below, web_text, blanks};

use json_append::writer::Writer;

// One byte of a text.
#[tactic(auto, using(crate::proofs::LabelRules::labels), unfolding(crate::specs::Dot::character))]
fn put_character(to: &mut Writer, c: u8)
    ensures { Wrote to.old (character c) to.new }
{
    match c {
        0..=b' ' => to.put(b"&nbsp;"),
        b'"' => to.put(b"&quot;"),
        b'&' => to.put(b"&amp;"),
        b'<' => to.put(b"&lt;"),
        b'>' => to.put(b"&gt;"),
        _ => to.put_byte(c),
    }
}

pub fn put_characters(to: &mut Writer, s: &[u8])
    ensures { Wrote to.old (characters s.now) to.new }
{
    for c in s {
        put_character(to, *c);
    }
}

// The number n in decimal, with a text before it and one behind.
pub fn put_between(to: &mut Writer, before: &[u8], n: usize, after: &[u8])
    ensures { Wrote to.old (before.now ++ (decimal n ++ after.now)) to.new }
{
    to.put(before);
    // A cast: std has no `From` of `usize` to 64 bits.
    to.put_decimal(n as u64);
    to.put(after);
}

// The blanks before a line with indent d.
pub fn put_blanks(to: &mut Writer, d: usize)
    ensures { Wrote to.old (blanks d) to.new }
{
    for i in 0..d {
        to.put(b"&nbsp;&nbsp;&nbsp;&nbsp;");
    }
}

// The last digit of n.
fn put_digit(to: &mut Writer, n: usize)
    ensures { Wrote to.old (digit n) to.new }
{
    // A cast: a remainder by 10 is a byte.
    to.put_byte(b'0' + (n % 10) as u8);
}

fn put_hue(to: &mut Writer, c: usize)
    ensures { Wrote to.old (hue c) to.new }
{
    let h = c % 100000 * 61803 % 100000;
    put_digit(to, h / 10000);
    put_digit(to, h / 1000);
    put_digit(to, h / 100);
    put_digit(to, h / 10);
    put_digit(to, h);
}

fn put_font(to: &mut Writer, c: usize)
    ensures { Wrote to.old (font c) to.new }
{
    to.put(b"<font color=\"0.");
    put_hue(to, c);
    to.put(b" 0.9 0.6\">");
}

fn put_below(to: &mut Writer, w: usize)
    ensures { Wrote to.old (below w) to.new }
{
    put_between(
        to,
        b"<sub><font point-size=\"8\">",
        w,
        b"</font></sub></font>",
    );
}

// The text s in colour c, with the web's number w.
pub fn put_web(to: &mut Writer, c: usize, s: &[u8], w: usize)
    ensures { Wrote to.old (web_text c s.now w) to.new }
{
    put_font(to, c);
    put_characters(to, s);
    put_below(to, w);
}
