// Character and string literals: paper 01, "Character, string". A literal is read from the rest of the text that starts with it.
// What tells the next piece is inlined always: so the piece stays in registers, where a call would leave it in memory.
#![tactic(auto)]

ghost use Rattle.std.specs.Prelude.{Err, ◌≡◌, ◌≤◌, length, take};
ghost use Rattle.text.specs.Bytes.{at};
ghost use Rattle.text.specs.Literals as literals;
ghost use Rattle.text.specs.Found.{found};
ghost use Rattle.literals.specs.Widths.{is_wide};

use kinds::Kind;
use text::{Class, Fault, Hexadecimal, Lexeme, Octal, Piece, Plain};

// Whether an L stands directly before a literal.
#[derive(Clone, Copy)]
enum Width {
    Narrow,
    Wide,
}

impl Width {
    // How many hex digits the letter after a backslash takes at most.
    #[tactic(auto, unfolding(text::specs::Literals::hexadecimal_digits))]
    fn hexadecimal_digits(self, letter: u8) -> Option<usize>
        ensures { result ≡ found (literals.hexadecimal_digits (is_wide self) letter) }
    {
        match (letter, self) {
            (b'x', _) => Some(2),
            (b'u', Width::Wide) => Some(4),
            _ => None,
        }
    }

    fn character_kind(self) -> u32
        ensures { result ≡ literals.character_kind (is_wide self) }
    {
        match self {
            Width::Narrow => Kind::CHARACTER.0,
            Width::Wide => Kind::WIDE_CHARACTER.0,
        }
    }

    fn string_kind(self) -> u32
        ensures { result ≡ literals.string_kind (is_wide self) }
    {
        match self {
            Width::Narrow => Kind::STRING_LITERAL.0,
            Width::Wide => Kind::WIDE_STRING_LITERAL.0,
        }
    }
}

// A byte that makes an escape of two bytes with the backslash before it.
#[tactic(auto, unfolding(text::specs::Literals::simple))]
#[inline(always)]
fn is_simple(byte: u8) -> bool
    ensures { result ≡ literals.simple byte }
{
    matches!(
        byte,
        b'n' | b't' | b'v' | b'b' | b'r' | b'f' | b'a' | b'\\' | b'?' | b'\'' | b'"'
    )
}

// What is wrong where no character stands.
#[tactic(auto, unfolding(text::specs::Literals::no_character, text::specs::Bytes::line_end, text::specs::Bytes::ended))]
fn no_character(bs: &[u8]) -> Fault
    ensures { Err result ≡ literals.no_character (at bs.now 0) }
{
    match bs {
        [] | [b'\n' | b'\r', ..] => Fault::Open,
        _ => Fault::BadLiteral,
    }
}

// The first bytes, up to a number of them.
#[tactic(auto, using(std::proofs::lemmas::List::take_all))]
fn first(most: usize, bs: &[u8]) -> &[u8]
    ensures { result.now ≡ take most bs.now }
{
    bs.get(..most).unwrap_or(bs)
}

// The digits of a class that stand there, up to a number of them.
fn digits<C: Class>(most: usize, bs: &[u8]) -> &[u8]
    ensures { result.now ≡ take (literals.digits C.member most bs.now) bs.now }
{
    let reach = first(most, bs);
    &reach[..text::run_of::<C>(reach)]
}

// Whether every digit is 0.
fn zeros(digits: &[u8]) -> bool
    ensures { result ≡ literals.zeros digits.now }
{
    digits.iter().all(|digit| *digit == b'0')
}

// A character written with digits after one or two other bytes.
#[tactic(auto, unfolding(text::specs::Literals::numbered))]
fn numbered(before: usize, digits: &[u8]) -> Piece
    requires { before ≤ 2 }
    ensures { result ≡ literals.numbered before digits.now }
{
    let size = before + digits.len();
    if zeros(digits) {
        Piece::Zero(size)
    } else {
        Piece::Character(size)
    }
}

// One to three octal digits, at most \377.
#[tactic(auto, unfolding(text::specs::Literals::octal_escape, text::specs::Literals::above_377))]
fn octal_escape(bs: &[u8]) -> Result<Piece, Fault>
    ensures { result ≡ literals.octal_escape bs.now }
{
    match digits::<Octal>(3, bs) {
        [b'4'..=b'7', _, _] => Err(Fault::BadLiteral),
        digits => Ok(numbered(1, digits)),
    }
}

// An escape with hex digits, from the first of them on.
#[tactic(auto, unfolding(text::specs::Literals::hexadecimal_escape))]
#[inline(always)]
fn hexadecimal_escape(most: usize, bs: &[u8]) -> Result<Piece, Fault>
    ensures { result ≡ literals.hexadecimal_escape most bs.now }
{
    match digits::<Hexadecimal>(most, bs) {
        [] => Err(no_character(bs)),
        digits => Ok(numbered(2, digits)),
    }
}

// What stands after a backslash.
#[tactic(auto, unfolding(text::specs::Literals::escape))]
#[inline(always)]
fn escape(width: Width, bs: &[u8]) -> Result<Piece, Fault>
    ensures { result ≡ literals.escape (is_wide width) bs.now }
{
    let [first, digits @ ..] = bs else {
        return Err(Fault::Open);
    };
    if is_simple(*first) {
        return Ok(Piece::Character(2));
    }
    if Octal::has(*first) {
        return octal_escape(bs);
    }
    match width.hexadecimal_digits(*first) {
        Some(most) => hexadecimal_escape(most, digits),
        None => Err(no_character(bs)),
    }
}

// What stands next inside a literal.
#[tactic(auto, unfolding(text::specs::Literals::piece))]
#[inline(always)]
fn piece(width: Width, quote: u8, bs: &[u8]) -> Result<Piece, Fault>
    ensures { result ≡ literals.piece (is_wide width) quote bs.now }
{
    match bs {
        [] => Err(Fault::Open),
        [first, ..] if *first == quote => Ok(Piece::Close),
        [b'\\', escaped @ ..] => escape(width, escaped),
        [first, ..] if Plain::has(*first) => Ok(Piece::Character(1)),
        _ => Err(no_character(bs)),
    }
}

// The end of a character literal, after its one character.
#[tactic(auto, unfolding(text::specs::Literals::closing, text::specs::Literals::after_character))]
fn closing(width: Width, read: usize, bs: &[u8]) -> Result<Lexeme, Fault>
    requires { read ≤ length bs.now }
    ensures { result ≡ literals.closing (is_wide width) read bs.now }
{
    match piece(width, b'\'', &bs[read..])? {
        Piece::Close => Ok(Lexeme::Token(width.character_kind(), read + 1)),
        Piece::Character(_) | Piece::Zero(_) => Err(Fault::BadLiteral),
    }
}

// A character literal whose first bytes, to its opening quote, are read.
#[tactic(auto, unfolding(text::specs::Literals::character, text::specs::Literals::one_character))]
fn character(width: Width, read: usize, bs: &[u8]) -> Result<Lexeme, Fault>
    requires { read ≤ length bs.now }
    ensures { result ≡ literals.character (is_wide width) read bs.now }
{
    match piece(width, b'\'', &bs[read..])? {
        Piece::Close => Err(Fault::BadLiteral),
        Piece::Character(taken) | Piece::Zero(taken) => closing(width, read + taken, bs),
    }
}

// A string whose first bytes, to its opening quote, are read.
#[tactic(auto, using(text::proofs::Runs::run_within))]
fn string(width: Width, read: usize, bs: &[u8]) -> Result<Lexeme, Fault>
    requires { read ≤ length bs.now }
    ensures { result ≡ literals.string (is_wide width) read bs.now }
{
    let mut place = read;
    loop {
        place += text::string_run(&bs[place..]);
        match piece(width, b'"', &bs[place..])? {
            Piece::Close => return Ok(Lexeme::Token(width.string_kind(), place + 1)),
            Piece::Character(taken) => place += taken,
            Piece::Zero(_) => return Err(Fault::BadLiteral),
        }
    }
}

// A literal whose opening quote has so many bytes before it.
#[tactic(auto, unfolding(text::specs::Literals::quoted))]
fn quoted(width: Width, before: usize, bs: &[u8]) -> Result<Lexeme, Fault>
    ensures { result ≡ literals.quoted (is_wide width) before bs.now }
{
    match text::byte_at(bs, before) {
        Some(b'\'') => character(width, before + 1, bs),
        Some(b'"') => string(width, before + 1, bs),
        _ => Err(Fault::NoLexeme),
    }
}

// A literal whose first byte is its opening quote.
#[tactic(auto, unfolding(text::specs::Literals::literal))]
pub fn literal(bs: &[u8]) -> Result<Lexeme, Fault>
    ensures { result ≡ literals.literal bs.now }
{
    quoted(Width::Narrow, 0, bs)
}

// A literal whose first byte is its L.
#[tactic(auto, unfolding(text::specs::Literals::wide_literal))]
pub fn wide_literal(bs: &[u8]) -> Result<Lexeme, Fault>
    ensures { result ≡ literals.wide_literal bs.now }
{
    quoted(Width::Wide, 1, bs)
}
