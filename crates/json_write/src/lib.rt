// The JSON writer: questions 1 to 4, and the text of a listing in a lent slice. Its length is counted first, without writing; time is linear in the text.
//
// The contract of `write_json` is one equation with `write_call` of Rattle.json_definitions.specs.JsonCalls: the answer and every lent byte.

#![tactic(auto)]

mod lines;
mod sizes;
mod tokens;

ghost use Rattle.std.specs.Prelude.{◌≡◌};
ghost use Rattle.json_definitions.specs.Writer.{write};
ghost use Rattle.json_definitions.specs.JsonCalls.{write_call};
ghost use Rattle.json_write.specs.Answers.{columns, lines_of, fourth, written};
ghost use Rattle.json_write.specs.Sizes.{Formed};

use crate::lines::put_listing;
use crate::sizes::listing_size;
use json_append::writer::Writer;
use model::listing::Listing;
use questions::{Limits, Refusal, question_1, question_2, question_3};

// Question 4, and the text.
fn write_formed(code: &Listing, addresses: &[u64], out: &mut [u8]) -> Result<usize, Refusal>
    requires { Formed code.now.lines.now addresses.now code.now.tokens.now code.now.text.now }
    ensures { written result out.new
        ≡ fourth (write (lines_of code.now.lines.now addresses.now code.now.tokens.now code.now.text.now)) out.old }
{
    if out.len() < listing_size(code, addresses) {
        return Err(Refusal::NoRoom);
    }
    let mut to = Writer::new(out);
    put_listing(&mut to, code, addresses);
    let e = to.len();
    text::zero(out, e);
    Ok(e)
}

// Writes the listing of the columns as JSON text into `out`, and answers how long the text is; what is behind the text is zero. Refused, nothing is written.
#[tactic(auto, unfolding(json_definitions::specs::JsonCalls::write_call, definitions::specs::Questions::refusal))]
pub fn write_json(code: &Listing, addresses: &[u64], out: &mut [u8]) -> Result<usize, Refusal>
    ensures { written result out.new
        ≡ write_call (columns code.now.lines.now addresses.now code.now.tokens.now code.now.text.now) out.old }
{
    let most = Limits {
        lines: 1024,
        tokens: 16384,
        text: 262144,
    };
    if !question_1(code, most) {
        return Err(Refusal::TooLarge);
    }
    if addresses.len() != code.lines.len() || !question_2(code) {
        return Err(Refusal::Malformed);
    }
    if !question_3(code) {
        return Err(Refusal::NotUtf8);
    }
    write_formed(code, addresses, out)
}
