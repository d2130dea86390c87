// The bytes of a text: what a lexeme is, one byte at a place, and the bytes of one class in a row.
#![tactic(auto)]

ghost use Rattle.std.specs.Prelude.{ℕ, Bool, leb, ◌≡◌, ◌^◌, ◌<◌, min};
ghost use Rattle.std.specs.Option.{unwrap_or};
ghost use Rattle.text.specs.Bytes.{at, end, run, space, letter, digit, octal, hexadecimal, wordly, in_line};
ghost use Rattle.text.specs.Classes.{starless, ordinary, block};
ghost use Rattle.text.specs.Literals.{plain};

// What stands at the front of the rest of a text. Lengths are in bytes.
#[derive(Clone, Copy, PartialEq, Eq)]
pub enum Lexeme {
    // White space, or a comment.
    Blank(usize),
    // A token: its kind and its length.
    Token(u32, usize),
}

// Why no lexeme stands there.
#[derive(Clone, Copy, PartialEq, Eq)]
pub enum Fault {
    // Reply 2: no lexeme starts here.
    NoLexeme,
    // Reply 3: a comment that is open at the end of the text, or a literal at a line end or there.
    Open,
    // Reply 4: a bad literal, with a byte, an escape or a number of characters that is not allowed.
    BadLiteral,
    // Reply 5: the keyword of this kind, in another case.
    OtherCase(u32),
}

// What stands next inside a character or string literal. Lengths are in bytes.
#[derive(Clone, Copy, PartialEq, Eq)]
pub enum Piece {
    // A character other than zero.
    Character(usize),
    // Character zero, which a character literal may hold and a string may not.
    Zero(usize),
    // The closing quote.
    Close,
}

// A class of bytes.
pub trait Class {
    // Which bytes are of the class.
    ghost member: { ℕ → Bool };

    fn has(byte: u8) -> bool
        ensures { result ≡ member byte };
}

// Both tests are made each time, as of `Ordinary`: by one `matches!` the compiler would take a block's bytes one by one.
#[derive(Clone, Copy)]
pub struct Space;

impl Class for Space {
    ghost member = { space };

    #[tactic(auto, unfolding(crate::specs::Bytes::space))]
    fn has(byte: u8) -> bool {
        ((b'\t' <= byte) & (byte <= b'\r')) | (byte == b' ')
    }
}

#[derive(Clone, Copy)]
pub struct Letter;

impl Class for Letter {
    ghost member = { letter };

    #[tactic(auto, unfolding(crate::specs::Bytes::letter))]
    fn has(byte: u8) -> bool {
        byte.is_ascii_alphabetic()
    }
}

#[derive(Clone, Copy)]
pub struct Digit;

impl Class for Digit {
    ghost member = { digit };

    #[tactic(auto, unfolding(crate::specs::Bytes::digit))]
    fn has(byte: u8) -> bool {
        byte.is_ascii_digit()
    }
}

#[derive(Clone, Copy)]
pub struct Octal;

impl Class for Octal {
    ghost member = { octal };

    #[tactic(auto, unfolding(crate::specs::Bytes::octal))]
    fn has(byte: u8) -> bool {
        matches!(byte, b'0'..=b'7')
    }
}

#[derive(Clone, Copy)]
pub struct Hexadecimal;

impl Class for Hexadecimal {
    ghost member = { hexadecimal };

    #[tactic(auto, unfolding(crate::specs::Bytes::hexadecimal, crate::specs::Bytes::digit))]
    fn has(byte: u8) -> bool {
        byte.is_ascii_hexdigit()
    }
}

// Letters, digits, underscores.
#[derive(Clone, Copy)]
pub struct Wordly;

impl Class for Wordly {
    ghost member = { wordly };

    #[tactic(auto, unfolding(crate::specs::Bytes::wordly))]
    fn has(byte: u8) -> bool {
        byte.is_ascii_alphanumeric() | (byte == b'_')
    }
}

// Any byte that ends no line.
#[derive(Clone, Copy)]
pub struct InLine;

impl Class for InLine {
    ghost member = { in_line };

    #[tactic(auto, unfolding(crate::specs::Bytes::in_line, crate::specs::Bytes::line_end))]
    fn has(byte: u8) -> bool {
        !matches!(byte, b'\n' | b'\r')
    }
}

// Any byte but a star.
#[derive(Clone, Copy)]
pub struct Starless;

impl Class for Starless {
    ghost member = { starless };

    #[tactic(auto, unfolding(crate::specs::Classes::starless))]
    fn has(byte: u8) -> bool {
        byte != b'*'
    }
}

// What stands for itself in a literal.
#[derive(Clone, Copy)]
pub struct Plain;

impl Class for Plain {
    ghost member = { plain };

    #[tactic(auto, unfolding(crate::specs::Literals::plain))]
    fn has(byte: u8) -> bool {
        matches!(byte, b' '..=b'~')
    }
}

// What a string may hold as it is.
#[derive(Clone, Copy)]
pub struct Ordinary;

impl Class for Ordinary {
    ghost member = { ordinary };

    #[tactic(auto, unfolding(crate::specs::Classes::ordinary))]
    fn has(byte: u8) -> bool {
        (byte != b'\\') & ((byte != b'"') & Plain::has(byte))
    }
}

// The byte at a place, if one stands there.
pub fn byte_at(text: &[u8], place: usize) -> Option<u8>
    ensures { unwrap_or result end ≡ at text.now place }
{
    text.get(place).copied()
}

// How many bytes of the class stand in a row at the front: one by one, for short runs.
pub fn run_of<C: Class>(text: &[u8]) -> usize
    ensures { result ≡ run C.member text.now }
{
    text.iter()
        .position(|byte| !C::has(*byte))
        .unwrap_or(text.len())
}

// The bytes of a block, which is passed whole or not at all.
const BLOCK: usize = 8;

// Whether every byte of a block is of the class. Each is looked at, so that the compiler takes them together.
fn fills_block<C: Class>(bytes: &[u8; BLOCK]) -> bool
    ensures { result ≡ leb block (run C.member bytes.now) }
{
    bytes.iter().fold(true, |all, byte| all & C::has(*byte))
}

// How many bytes of the class stand in a row at the front, by blocks: where most runs are short and some are long.
fn run_by_blocks<C: Class>(text: &[u8]) -> usize
    ensures { result ≡ run C.member text.now }
{
    let (blocks, last) = text.as_chunks::<BLOCK>();
    match blocks.iter().position(|bytes| !fills_block::<C>(bytes)) {
        Some(full) => full * BLOCK + run_of::<C>(&blocks[full]),
        None => blocks.len() * BLOCK + run_of::<C>(last),
    }
}

// Where the run ends among the bytes of a window; their number where it does not. Every byte is looked at here, too: no branch
// for each.
fn end_in_window<C: Class, const N: usize>(bytes: &[u8; N]) -> usize
    requires { N < 2 ^ 8 }
    ensures { result ≡ min N (run C.member bytes.now) }
{
    let size = N as u8;
    let mut end = size;
    for (place, byte) in (0u8..).zip(bytes) {
        let found = if C::has(*byte) { size } else { place };
        end = end.min(found);
    }
    end as usize
}

// The same count by windows of a size: where the end may stand anywhere. The next window does not wait for the end in this one.
fn run_behind<C: Class, const N: usize>(text: &[u8]) -> usize
    requires { (0 < N) × (N < 2 ^ 8) }
    ensures { result ≡ run C.member text.now }
{
    let (windows, last) = text.as_chunks::<N>();
    for (passed, bytes) in windows.iter().enumerate() {
        let end = end_in_window::<C, N>(bytes);
        if end < N {
            return passed * N + end;
        }
    }
    windows.len() * N + run_of::<C>(last)
}

// The first window is looked at before the others are counted: most runs end there.
fn run_by_windows<C: Class, const N: usize>(text: &[u8]) -> usize
    requires { (0 < N) × (N < 2 ^ 8) }
    ensures { result ≡ run C.member text.now }
{
    match text.split_first_chunk::<N>() {
        None => run_of::<C>(text),
        Some((bytes, behind)) => {
            let end = end_in_window::<C, N>(bytes);
            if end < N {
                return end;
            }
            N + run_behind::<C, N>(behind)
        }
    }
}

// The sizes of window: the least, of those tried, for which the compiler takes the bytes of these classes together.
const WINDOW: usize = 32;

const LINE_WINDOW: usize = 48;

// How many bytes of a word stand at the front.
pub fn word_run(text: &[u8]) -> usize
    ensures { result ≡ run wordly text.now }
{
    run_by_windows::<Wordly, WINDOW>(text)
}

// How many bytes stand at the front that a string may hold as they are.
pub fn string_run(text: &[u8]) -> usize
    ensures { result ≡ run ordinary text.now }
{
    run_by_windows::<Ordinary, WINDOW>(text)
}

// How many bytes stand before the end of the line.
pub fn line_run(text: &[u8]) -> usize
    ensures { result ≡ run in_line text.now }
{
    run_by_windows::<InLine, LINE_WINDOW>(text)
}

// How many bytes stand before the next star.
pub fn starless_run(text: &[u8]) -> usize
    ensures { result ≡ run starless text.now }
{
    run_by_blocks::<Starless>(text)
}

// How many bytes of white space stand at the front.
pub fn space_run(text: &[u8]) -> usize
    ensures { result ≡ run space text.now }
{
    run_by_blocks::<Space>(text)
}
