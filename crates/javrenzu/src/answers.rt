// The answer to a word, from the text of a listing.
//
// Contracts cite `answer` of specs/Command.antt.
ghost use Rattle.std.specs.Prelude.{◌≡◌, ◌≤◌, length};
ghost use Rattle.write.specs.Holds.{columns};
ghost use Rattle.javrenzu.specs.Command.{told, word_answer, answer};

use crate::calls::{self, Said};
use crate::command_words::Word;
use crate::cut::cut;
use crate::passes::{GotoLoops, Loops, pass_json, passes_json};
use crate::{check, room};
use json_read::read_json;
use model::listing::Listing;
use questions::Refusal;
use rows::columns::first;
use std::rt::Stdout;
use streams::Output;

// The answer for the listing in these columns. A `match`: each word's call takes something else.
fn of_columns(
    to: &mut Output<Stdout>,
    out: &mut [u8],
    code: &Listing,
    addresses: &[u64],
    word: Word,
) -> Result<Said, Refusal>
    requires { 4194304 ≤ length out.old }
    ensures { told result out.new
        ≡ word_answer word out.old (columns code.now.lines.now addresses.now code.now.tokens.now code.now.text.now) }
{
    match word {
        Word::Webs => calls::web_rows(out, code),
        Word::Splits => calls::split_rows(out, code),
        Word::Choose => calls::chosen_rows(out, code),
        Word::RecoverLoops => pass_json::<Loops>(out, code, addresses),
        Word::RecoverGotoLoops => pass_json::<GotoLoops>(out, code, addresses),
        Word::Passes => passes_json(out, code, addresses),
        Word::Dot => calls::dot(out, code),
        Word::Check => {
            check::sizes(to, code);
            check::rows(to, out, code);
            check::passes(to, out, code, addresses);
            Ok(Said::Text(0))
        }
        Word::Help => Ok(Said::Text(0)),
    }
}

// The answer for the listing whose text is the first n bytes of the slice; it is made in the same bytes.
pub fn answer(
    to: &mut Output<Stdout>,
    buffer: &mut [u8],
    n: usize,
    word: Word,
) -> Result<Said, Refusal>
    requires { 4194304 ≤ length buffer.old }
    ensures { told result buffer.new ≡ answer word buffer.old n }
{
    let mut lines = room::zeros::<u32, 1024>();
    let mut addresses = room::zeros::<u64, 1024>();
    let mut tokens = room::zeros::<u32, 16384>();
    let mut text = room::zeros::<u8, 262144>();
    let Some(counts) = read_json(
        first(buffer, n),
        &mut lines,
        &mut addresses,
        &mut tokens,
        &mut text,
    ) else {
        return Err(Refusal::NotJson);
    };
    let code = cut(
        &lines,
        &tokens,
        &text,
        counts.lines,
        counts.tokens,
        counts.text,
    );
    of_columns(to, buffer, &code, first(&addresses, counts.lines), word)
}
