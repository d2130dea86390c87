// The mark at the front of the rest of a text.
#![tactic(auto)]

ghost use Rattle.std.specs.Prelude.{true, ◌≡◌, [], ◌∷◌};
ghost use Rattle.marks.specs.Starts.{kind_of, starts_mark};
ghost use Rattle.text.specs.Bytes.{at};
ghost use Rattle.text.specs.Lexemes as lexemes;

use kinds::Kind;
use text::{Fault, Lexeme};

// Whether a mark starts with this byte. By comparisons, which the compiler takes together: a match on ranges takes half as many
// instructions more.
pub fn starts_mark(byte: u8) -> bool
    ensures { result ≡ starts_mark byte }
{
    ((b'%' <= byte) & (byte <= b'&'))
        | ((b'(' <= byte) & (byte <= b'-'))
        | (byte == b'/')
        | ((b':' <= byte) & (byte <= b'>'))
        | (byte == b'[')
        | ((b']' <= byte) & (byte <= b'^'))
        | ((b'{' <= byte) & (byte <= b'~'))
}

// The kind of the mark that is this byte. The marks stand in four dense ranges of bytes, chosen first: each match is then a small
// table, where one for all of them is a jump.
#[tactic(auto, unfolding(kinds::specs::Kinds::mark))]
fn one_byte(byte: u8) -> Option<u32>
    ensures { result ≡ kind_of (byte ∷ []) }
{
    if byte <= b'/' {
        return match byte {
            b'%' => Some(Kind::PERCENT.0),
            b'&' => Some(Kind::AMPERSAND.0),
            b'(' => Some(Kind::OPEN_PARENTHESIS.0),
            b')' => Some(Kind::CLOSE_PARENTHESIS.0),
            b'*' => Some(Kind::STAR.0),
            b'+' => Some(Kind::PLUS.0),
            b',' => Some(Kind::COMMA.0),
            b'-' => Some(Kind::MINUS.0),
            b'/' => Some(Kind::SLASH.0),
            _ => None,
        };
    }
    if byte <= b'>' {
        return match byte {
            b':' => Some(Kind::COLON.0),
            b';' => Some(Kind::SEMICOLON.0),
            b'<' => Some(Kind::OPEN_ANGLE.0),
            b'=' => Some(Kind::EQUALS.0),
            b'>' => Some(Kind::CLOSE_ANGLE.0),
            _ => None,
        };
    }
    if byte <= b'^' {
        return match byte {
            b'[' => Some(Kind::OPEN_BRACKET.0),
            b']' => Some(Kind::CLOSE_BRACKET.0),
            b'^' => Some(Kind::CARET.0),
            _ => None,
        };
    }
    match byte {
        b'{' => Some(Kind::OPEN_BRACE.0),
        b'|' => Some(Kind::BAR.0),
        b'}' => Some(Kind::CLOSE_BRACE.0),
        b'~' => Some(Kind::TILDE.0),
        _ => None,
    }
}

// The kind of the mark that is the first two bytes. Such a mark is one byte twice.
fn two_bytes(bs: &[u8]) -> Option<u32>
    ensures { result ≡ kind_of (at bs.now 0 ∷ at bs.now 1 ∷ []) }
{
    if bs.len() < 2 {
        return None;
    }
    let first = bs[0];
    if bs[1] != first {
        return None;
    }
    match first {
        b':' => Some(Kind::SCOPE.0),
        b'<' => Some(Kind::SHIFT_LEFT.0),
        b'>' => Some(Kind::SHIFT_RIGHT.0),
        _ => None,
    }
}

// The longer mark at the front, where one starts. Only : < > double, which stand in one range of bytes.
pub fn mark(bs: &[u8]) -> Result<Lexeme, Fault>
    requires { starts_mark (at bs.now 0) ≡ true }
    ensures { result ≡ lexemes.mark bs.now }
{
    let first = bs[0];
    if (b':' <= first) & (first <= b'>') {
        if let Some(kind) = two_bytes(bs) {
            return Ok(Lexeme::Token(kind, 2));
        }
    }
    Ok(Lexeme::Token(one_byte(first).unwrap(), 1))
}
