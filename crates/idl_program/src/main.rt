// Reads an IDL text from standard input and prints what the reader says of it: the counts and the tree, or the refusal.
// Where reading or writing fails, it says so on standard error: it answers for no text that it has not read to its end.
#![tactic(auto)]

ghost use Rattle.std.specs.Prelude.{◌<◌, length};
ghost use Rattle.printing.specs.Printed.{longest};
ghost use Rattle.streams.specs.Transfer.{Within};

use printing::{LONGEST, ROOM};
use std::fmt::InlineText;
use std::io;
use std::io::{Eprint, Read, Write};
use thiserror::Error;

// The most bytes of what failed and why, with the system's number for it.
const REASON: usize = 160;

// What failed, and why.
#[derive(Debug, Drop, Error)]
enum Failure {
    #[error("standard input: {0}")]
    Input(io::Error),
    #[error("standard output: {0}")]
    Output(io::Error),
}

// The system's words in the text of an error, without the number that stands behind them.
fn words(text: &str) -> &str {
    match text.split_once(" (os error ") {
        Some((words, _)) => words,
        None => text,
    }
}

// Says on standard error what failed and why, in one line. Where that fails too, there is nowhere left to say it.
fn say(rt: &impl Eprint, failure: Failure) {
    let text = InlineText::<REASON>::of(failure);
    let why = words(text.as_str());
    let _ = eprintln!(rt; "idl: {why}");
}

// There is room for more than the longest text, so that a longer input is seen to be longer.
fn read<R: Read>(input: &mut R, text: &mut [u8]) -> io::Result<usize>
    requires { longest < length text.old }
    ensures { Within (length text.new) result }
{
    streams::read_all(input, text)
}

// Apart from `answer`, since a function clears its locals where it begins: with the reading before it, `out` was cleared twice.
fn print<W: Write>(output: &mut W, text: &[u8]) -> io::Result<()> {
    let mut out = [0u8; ROOM];
    let size = printing::put_answer(text, &mut out);
    streams::write_all(output, &out[..size])
}

fn answer<R: Read, W: Write>(input: &mut R, output: &mut W) -> Result<(), Failure> {
    let mut text = [0u8; LONGEST + 1];
    let size = read(input, &mut text).map_err(Failure::Input)?;
    print(output, &text[..size]).map_err(Failure::Output)
}

fn main(rt: HostRuntime) {
    if let Err(failure) = answer(&mut rt.stdin(), &mut rt.stdout()) {
        say(&rt, failure);
    }
}
