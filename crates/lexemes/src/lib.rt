// The lexeme at the front of the rest of a text, sorted by its first byte and, where that does not decide, its second.
// Calls that the compiler keeps get the text as `&*bs`: lent anew, it stays in registers everywhere else.
#![tactic(auto)]

ghost use Rattle.std.specs.Prelude.{true, ◌≡◌, ◌<◌, length};
ghost use Rattle.std.specs.Option.{unwrap_or};
ghost use Rattle.lexemes.specs.Fronts as fronts;
ghost use Rattle.text.specs.Bytes.{at, end, letter};
ghost use Rattle.text.specs.Lexemes as lexemes;
ghost use Rattle.text.specs.Literals.{quote};

use blanks::{block_comment, line_comment};
use kinds::Kind;
use literals::{literal, wide_literal};
use marks::{mark, starts_mark};
use numbers::number;
use text::{Class, Digit, Fault, Letter, Lexeme, Space};
use words::{escaped_word, word};

// A byte that opens a literal; the end of the text opens none.
fn is_quote(byte: Option<u8>) -> bool
    ensures { result ≡ quote (unwrap_or byte end) }
{
    matches!(byte, Some(b'"' | b'\''))
}

// After a slash: a comment, or the mark.
fn slash(bs: &[u8]) -> Result<Lexeme, Fault>
    requires { at bs.now 0 ≡ fronts.slash }
    ensures { result ≡ lexemes.lexeme bs.now }
{
    match text::byte_at(bs, 1) {
        Some(b'/') => line_comment(bs),
        Some(b'*') => block_comment(bs),
        _ => Ok(Lexeme::Token(Kind::SLASH.0, 1)),
    }
}

// A result made anew: what a call has left in memory goes on in registers. Without it the token part takes two percent more
// instructions.
fn again(found: Result<Lexeme, Fault>) -> Result<Lexeme, Fault>
    ensures { result ≡ found }
{
    match found {
        Ok(Lexeme::Blank(size)) => Ok(Lexeme::Blank(size)),
        Ok(Lexeme::Token(kind, size)) => Ok(Lexeme::Token(kind, size)),
        Err(Fault::NoLexeme) => Err(Fault::NoLexeme),
        Err(Fault::Open) => Err(Fault::Open),
        Err(Fault::BadLiteral) => Err(Fault::BadLiteral),
        Err(Fault::OtherCase(kind)) => Err(Fault::OtherCase(kind)),
    }
}

// From a letter on: a wide literal where a quote comes directly after an L, or a word.
fn wide_or_word(bs: &[u8]) -> Result<Lexeme, Fault>
    requires { (0 < length bs.now) × (letter (at bs.now 0) ≡ true) }
    ensures { result ≡ lexemes.lexeme bs.now }
{
    if bs[0] == b'L' {
        if is_quote(text::byte_at(bs, 1)) {
            return again(wide_literal(&*bs));
        }
    }
    word(bs)
}

// After an underscore: a word makes an identifier; without one no lexeme starts here.
fn underscore(bs: &[u8]) -> Result<Lexeme, Fault>
    requires { at bs.now 0 ≡ fronts.underscore }
    ensures { result ≡ lexemes.lexeme bs.now }
{
    match text::byte_at(bs, 1) {
        Some(second) if Letter::has(second) => escaped_word(bs),
        _ => Err(Fault::NoLexeme),
    }
}

// The lexeme at the front. Letters are asked for first: most lexemes are words.
pub fn lexeme(bs: &[u8]) -> Result<Lexeme, Fault>
    requires { 0 < length bs.now }
    ensures { result ≡ lexemes.lexeme bs.now }
{
    let first = bs[0];
    if Letter::has(first) {
        return wide_or_word(bs);
    }
    if Space::has(first) {
        return Ok(Lexeme::Blank(text::run_of::<Space>(bs)));
    }
    match first {
        b'/' => slash(bs),
        b'"' | b'\'' => again(literal(&*bs)),
        b'_' => underscore(bs),
        b'.' => again(number(&*bs)),
        _ => {
            // Asked before digits: of the orders tried, this one takes the fewest instructions.
            if starts_mark(first) {
                return mark(bs);
            }
            if Digit::has(first) {
                return again(number(&*bs));
            }
            Err(Fault::NoLexeme)
        }
    }
}
