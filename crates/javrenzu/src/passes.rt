// The loop passes: what each prints, made at the start of a lent slice, or its refusal.
//
// Contracts cite specs/Command.antt. Local arrays take 0.4 MiB for one pass, 0.8 for both.
ghost use Rattle.std.specs.Prelude.{◌≡◌, List, take};
ghost use Rattle.definitions.specs.Model.{Line};
ghost use Rattle.definitions.specs.Answers.{Answer, loops, goto_loops};
ghost use Rattle.definitions.specs.Calls.{pass_call};
ghost use Rattle.write.specs.Holds.{columns};
ghost use Rattle.pass_call.specs.Answers.{passed_with};
ghost use Rattle.javrenzu.specs.Room.{pass_room};
ghost use Rattle.javrenzu.specs.Command.{told, json_answer, pass_answer, passes_answer};

use crate::calls::Said;
use crate::cut::cut;
use crate::room;
use json_write::write_json;
use model::listing::Listing;
use questions::{Limits, Refusal};
use rows::columns::first;

// A pass over lines, as a call.
pub trait Pass {
    ghost pass: { List Line → Answer (List Line) };

    fn run(
        code: &Listing,
        addresses: &[u64],
        rows: &mut [u32],
        places: &mut [u64],
        words: &mut [u32],
        bytes: &mut [u8],
    ) -> Result<Limits, Refusal>
        ensures { passed_with result (columns rows.new places.new words.new bytes.new)
            ≡ pass_call pass (columns code.now.lines.now addresses.now code.now.tokens.now code.now.text.now) (columns rows.old places.old words.old bytes.old) };
}

// `recover_loops`.
pub struct Loops;

impl Pass for Loops {
    ghost pass = { loops };

    fn run(
        code: &Listing,
        addresses: &[u64],
        rows: &mut [u32],
        places: &mut [u64],
        words: &mut [u32],
        bytes: &mut [u8],
    ) -> Result<Limits, Refusal> {
        recover_loops::recover_loops(code, addresses, rows, places, words, bytes)
    }
}

// `recover_goto_loops`.
pub struct GotoLoops;

impl Pass for GotoLoops {
    ghost pass = { goto_loops };

    fn run(
        code: &Listing,
        addresses: &[u64],
        rows: &mut [u32],
        places: &mut [u64],
        words: &mut [u32],
        bytes: &mut [u8],
    ) -> Result<Limits, Refusal> {
        recover_goto_loops::recover_goto_loops(code, addresses, rows, places, words, bytes)
    }
}

// Room for what a pass leaves.
#[derive(Drop)]
struct Room {
    rows: [u32; 1024],
    places: [u64; 1024],
    words: [u32; 24576],
    bytes: [u8; 294912],
}

impl Room {
    fn new() -> Room
        ensures { columns result.rows result.places result.words result.bytes ≡ pass_room }
    {
        Room {
            rows: room::zeros(),
            places: room::zeros(),
            words: room::zeros(),
            bytes: room::zeros(),
        }
    }

    // What the pass leaves of the listing stands here.
    fn run<P: Pass>(&mut self, code: &Listing, addresses: &[u64]) -> Result<Limits, Refusal>
        ensures { passed_with result (columns self.new.rows self.new.places self.new.words self.new.bytes)
            ≡ pass_call P.pass (columns code.now.lines.now addresses.now code.now.tokens.now code.now.text.now) (columns self.old.rows self.old.places self.old.words self.old.bytes) }
    {
        P::run(
            code,
            addresses,
            &mut self.rows,
            &mut self.places,
            &mut self.words,
            &mut self.bytes,
        )
    }

    // The listing of so many lines, tokens and bytes, and its addresses.
    fn first(&self, n: Limits) -> (Listing, &[u64])
        ensures lines { result.0.lines.now ≡ take n.lines self.now.rows }
        ensures addresses { result.1.now ≡ take n.lines self.now.places }
        ensures tokens { result.0.tokens.now ≡ take n.tokens self.now.words }
        ensures text { result.0.text.now ≡ take n.text self.now.bytes }
    {
        let code = cut(
            &self.rows,
            &self.words,
            &self.bytes,
            n.lines,
            n.tokens,
            n.text,
        );
        (code, first(&self.places, n.lines))
    }
}

// The listing as JSON.
fn json(out: &mut [u8], code: &Listing, addresses: &[u64]) -> Result<Said, Refusal>
    ensures { told result out.new
        ≡ json_answer out.old (columns code.now.lines.now addresses.now code.now.tokens.now code.now.text.now) }
{
    let n = write_json(code, addresses, out)?;
    Ok(Said::Text(n))
}

// What the pass leaves of the listing, as JSON.
pub fn pass_json<P: Pass>(
    out: &mut [u8],
    code: &Listing,
    addresses: &[u64],
) -> Result<Said, Refusal>
    ensures { told result out.new
        ≡ pass_answer P.pass out.old (columns code.now.lines.now addresses.now code.now.tokens.now code.now.text.now) }
{
    let mut room = Room::new();
    let n = room.run::<P>(code, addresses)?;
    let (left, places) = room.first(n);
    json(out, &left, places)
}

// The goto pass, then the loop pass.
pub fn passes_json(out: &mut [u8], code: &Listing, addresses: &[u64]) -> Result<Said, Refusal>
    ensures { told result out.new
        ≡ passes_answer out.old (columns code.now.lines.now addresses.now code.now.tokens.now code.now.text.now) }
{
    let mut room = Room::new();
    let n = room.run::<GotoLoops>(code, addresses)?;
    let (left, places) = room.first(n);
    pass_json::<Loops>(out, &left, places)
}
