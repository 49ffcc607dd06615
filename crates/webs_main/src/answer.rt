// What the program prints, behind place 0 of a lent slice.
//
// Contracts cite `program` of this crate's specs/Program.antt.
ghost use Rattle.std.specs.Prelude.{◌≤◌, length};
ghost use Rattle.questions.specs.Refusals.{number};
ghost use Rattle.rows.specs.Rows.{refused_text, Printed};
ghost use Rattle.webs_main.specs.Program.{columns_text, program};

use json_read::read_json;
use model::listing::Listing;
use pseudo_ssa::recover;
use questions::Refusal;
use rows::columns::first;
use rows::put_rows;

// The most bytes of input.
const MOST_INPUT: usize = 32768;

fn put_refused(out: &mut [u8], refusal: Refusal) -> usize
    requires { 36864 ≤ length out.old }
    ensures { Printed (refused_text (number refusal)) out.new result }
{
    rows::put_refused(out, refusal.number())
}

// The answer of the web call, made with room for 1,024 tokens and working space for 64 lines.
fn put_webs(out: &mut [u8], code: &Listing) -> usize
    requires { (36864 ≤ length out.old) × (length code.now.tokens.now ≤ 1024) × (length code.now.text.now ≤ 8192) }
    ensures { Printed (columns_text code.now.lines.now code.now.tokens.now code.now.text.now) out.new result }
{
    let mut numbers = [0u32; 1024];
    let mut marks = [0u8; 1024];
    let mut space = [0u64; 832];
    match recover(code, &mut numbers, &mut marks, &mut space) {
        Ok(_) => put_rows(out, code, &numbers, &marks),
        Err(refusal) => put_refused(out, refusal),
    }
}

// What the program prints on the input s. The room is 28 bytes for each of 1,024 tokens, and 8,192 bytes of text.
pub fn put_answer(out: &mut [u8], s: &[u8]) -> usize
    requires { 36864 ≤ length out.old }
    ensures { Printed (program s.now) out.new result }
{
    let mut lines = [0u32; 64];
    let mut addresses = [0u64; 64];
    let mut tokens = [0u32; 1024];
    let mut text = [0u8; 8192];
    if MOST_INPUT < s.len() {
        return put_refused(out, Refusal::NotJson);
    }
    let Some(n) = read_json(s, &mut lines, &mut addresses, &mut tokens, &mut text) else {
        return put_refused(out, Refusal::NotJson);
    };
    let rows = first(&lines, n.lines);
    let words = first(&tokens, n.tokens);
    let code = Listing {
        lines: rows,
        tokens: words,
        text: first(&text, n.text),
    };
    put_webs(out, &code)
}
