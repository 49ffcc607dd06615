// What the programs read and write through: whole input into a lent slice, and output that remembers the first error.
//
// Contracts speak of the bytes that a reader has left and of those that a writer holds, where their types say which these are; no clause says
// what a file or a terminal gives or takes.

#![tactic(auto)]

mod output;

ghost use Rattle.std.specs.Prelude.{◌<◌, length, take, IfOk};
ghost use Rattle.std.specs.Io.{ReadsAtMost};
ghost use Rattle.std.specs.Io.KnownBytes.{Consumes, IsAtEnd};

pub use output::Output;
use std::io;
use std::io::Read;

// Reads until the slice is full or the input ends. The result is how many bytes stand at the start of the slice.
pub fn read_full<R: Read>(reader: &mut R, buffer: &mut [u8]) -> io::Result<usize>
    ensures in_bounds { ReadsAtMost result buffer.new }
    ensures bytes { IfOk result (λ n. Consumes (R.remaining reader.old) (R.remaining reader.new) (take n buffer.new)) }
    ensures end { IfOk result (λ n. n < length buffer.new → IsAtEnd (R.remaining reader.new)) }
{
    let mut done = 0;
    // A `while`: the reader says how far each read comes, which is no range.
    while done < buffer.len() {
        let n = reader.read(&mut buffer[done..])?;
        if n == 0 {
            break;
        }
        done += n;
    }
    Ok(done)
}
