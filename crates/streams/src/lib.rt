// Reads an input to its end and writes an output whole, over std's readers and writers.
//
// std's `write_all` says nothing of the bytes once it fails, and std reads to the end into a vector alone.
#![tactic(auto)]

ghost use Rattle.std.specs.Prelude.{length, OnErr, OnOk};
ghost use Rattle.std.specs.Io.{ReadsAtMost, WritesAtMost};
ghost use Rattle.std.specs.Io.KnownBytes.{Appends, ReadConsumes, WriteAppends};
ghost use Rattle.streams.specs.Transfer.{ReadWhole, Within, WrotePart};

use std::io;
use std::io::{Error, ErrorKind, Read, Write};

// How many interrupted calls of a transfer are made again; the next one has failed. A proved loop has to end, and no run uses this number up.
const INTERRUPTIONS: u32 = u32::MAX;

// One read. `left` is how many interrupted calls may still be made again.
fn read_some<R: Read>(input: &mut R, bytes: &mut [u8], left: &mut u32) -> io::Result<usize>
    ensures within { ReadsAtMost result bytes.new }
    ensures bytes { ReadConsumes (R.remaining input.old) (R.remaining input.new) result bytes.new }
{
    for _ in 0..*left {
        match input.read(bytes) {
            Err(error) if error.kind() == ErrorKind::Interrupted => *left = left.saturating_sub(1),
            answer => return answer,
        }
    }
    input.read(bytes)
}

fn write_some<W: Write>(output: &mut W, bytes: &[u8], left: &mut u32) -> io::Result<usize>
    ensures within { WritesAtMost result bytes.now }
    ensures bytes { WriteAppends (W.contents output.old) (W.contents output.new) result bytes.now }
{
    for _ in 0..*left {
        match output.write(bytes) {
            Err(error) if error.kind() == ErrorKind::Interrupted => *left = left.saturating_sub(1),
            answer => return answer,
        }
    }
    output.write(bytes)
}

// Reads to the end of the input or of the slice. A failed read is neither.
pub fn read_all<R: Read>(input: &mut R, bytes: &mut [u8]) -> io::Result<usize>
    ensures within { Within (length bytes.new) result }
    ensures bytes { ReadWhole (R.remaining input.old) (R.remaining input.new) result bytes.new }
{
    let mut size = 0;
    let mut left = INTERRUPTIONS;
    while size < bytes.len() {
        let n = read_some(input, &mut bytes[size..], &mut left)?;
        if n == 0 {
            break;
        }
        size += n;
    }
    Ok(size)
}

// Writes all of the bytes, or says why not, and then the first part of them is written. A write that takes nothing has failed.
pub fn write_all<W: Write>(output: &mut W, bytes: &[u8]) -> io::Result<()>
    ensures whole { OnOk result (Appends (W.contents output.old) (W.contents output.new) bytes.now) }
    ensures part { OnErr result (WrotePart (W.contents output.old) (W.contents output.new) bytes.now) }
{
    let mut rest = bytes;
    let mut left = INTERRUPTIONS;
    while !rest.is_empty() {
        let n = write_some(output, rest, &mut left)?;
        if n == 0 {
            return Err(Error::from(ErrorKind::WriteZero));
        }
        rest = &rest[n..];
    }
    Ok(())
}
