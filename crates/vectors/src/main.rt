// Runs each text of standard input through the token part, and writes after it the reply and the table.
//
// A line is the table's length in two digits, a blank, the text, and after a tab why the answer is what it is. In the text %XY
// stands for the byte of these hex digits. Each number of the table is 9 before the call. A line that starts with no digit is a
// heading.
#![tactic(auto)]

ghost use Rattle.std.specs.Prelude.{◌≤◌, ◌<◌, length};

use replies::Reply;
use std::io;
use std::io::Print;
use tables::TOKEN_WIDTH;
use text::{Class, InLine};

// The most bytes of the input.
const INPUT_SIZE: usize = 65536;

// The most bytes of a text.
const TEXT_SIZE: usize = 4096;

const HEX: u8 = 16;

const DECIMAL: u8 = 10;

// The most numbers of a table: the most that two hex digits, read as decimal ones, can say.
const TABLE_SIZE: usize = ((HEX - 1) * DECIMAL + HEX - 1) as usize;

// What each number of a table is before the call.
const UNTOUCHED: u32 = 9;

// Prints the first records of the table, and then its other numbers, those in a row that are the same once.
fn print_table(rt: &impl Print, table: &[u32], count: usize) -> io::Result<()> {
    let (records, _) = table.as_chunks::<TOKEN_WIDTH>();
    let size = count.min(records.len());
    for [kind, first, length] in &records[..size] {
        print!(rt; " | {kind} {first} {length}")?;
    }
    for same in table[TOKEN_WIDTH * size..].chunk_by(|a, b| a == b) {
        print!(rt; " | {} of {}", same.len(), same[0])?;
    }
    Ok(())
}

// Reads a text into a table, and prints the reply and the table.
fn run(rt: &impl Print, text: &[u8], table: &mut [u32]) -> io::Result<()> {
    let reply = tokens::read_tokens(text, table);
    print!(rt;
        " => {} {} {} {}",
        reply.number, reply.place, reply.tokens, reply.records
    )?;
    let count = if reply.is_accepted() { reply.tokens } else { 0 };
    print_table(rt, table, count as usize)
}

// The value of a hex digit, and 0 for any other byte.
fn value(digit: u8) -> u8
    ensures { result < HEX }
{
    match digit {
        b'0'..=b'9' => digit - b'0',
        b'A'..=b'F' => digit - b'A' + DECIMAL,
        _ => 0,
    }
}

// The first byte of the text of a line, and the rest of the line. A tab ends the text.
fn first_byte(line: &[u8]) -> Option<(u8, &[u8])> {
    match line {
        [] | [b'\t', ..] => None,
        [b'%', high, low, rest @ ..] => Some((value(*high) * HEX + value(*low), rest)),
        // Cut short, an escape stands for its first byte, and nothing stands behind it.
        [b'%', ..] => Some((b'%', &[])),
        [byte, rest @ ..] => Some((*byte, rest)),
    }
}

// Writes the text of a line into a lent slice, and answers how long it is.
fn text_of(line: &[u8], text: &mut [u8]) -> usize
    ensures { result ≤ length text.new }
{
    let mut rest = line;
    for (size, place) in text.iter_mut().enumerate() {
        let Some((byte, behind)) = first_byte(rest) else {
            return size;
        };
        *place = byte;
        rest = behind;
    }
    text.len()
}

// Runs the text of a line on a table of a length.
fn run_text(rt: &impl Print, line: &[u8], room: usize) -> io::Result<()>
    requires { room ≤ TABLE_SIZE }
{
    let mut text = [0u8; TEXT_SIZE];
    let size = text_of(line, &mut text);
    let mut table = [UNTOUCHED; TABLE_SIZE];
    run(rt, &text[..size], &mut table[..room])
}

fn run_line(rt: &impl Print, line: &[u8]) -> io::Result<()> {
    rt.write_all(line)?;
    if let [tens @ b'0'..=b'9', ones, _, rest @ ..] = line {
        let room = value(*tens) * DECIMAL + value(*ones);
        run_text(rt, rest, room as usize)?;
    }
    println!(rt)
}

// A line without the byte that ends it, if one does.
fn without_end(line: &[u8]) -> &[u8] {
    match line {
        [front @ .., last] if !InLine::has(*last) => front,
        _ => line,
    }
}

// Runs each line. Byte 10 and byte 13 each end one, so that the two in a row give an empty line; the last needs no end.
fn run_lines(rt: &impl Print, input: &[u8]) -> io::Result<()> {
    for line in input.split_inclusive(|byte| !InLine::has(*byte)) {
        run_line(rt, without_end(line))?;
    }
    Ok(())
}

fn main(rt: HostRuntime) -> io::Result<()> {
    let mut input = [0u8; INPUT_SIZE];
    let size = streams::read_all(&mut rt.stdin(), &mut input)?;
    run_lines(&rt, &input[..size])
}
