// The numbers of a text: integer, floating and fixed. Each function is given the rest of the text from the number's first byte.
#![tactic(auto)]

ghost use Rattle.std.specs.Prelude.{◌≡◌};
ghost use Rattle.text.specs.Bytes.{run, digit};
ghost use Rattle.text.specs.Numbers as numbers;
ghost use Rattle.text.specs.Found.{found};

use kinds::Kind;
use text::{Class, Digit, Fault, Hexadecimal, Lexeme, Octal, Wordly, byte_at, run_of};

// The length of 0x or 0X and hex digits.
#[tactic(auto, using(text::proofs::Runs::run_within), unfolding(text::specs::Numbers::hexadecimal_integer))]
fn hexadecimal_integer(bs: &[u8]) -> Option<usize>
    ensures { result ≡ found (numbers.hexadecimal_integer bs.now) }
{
    let [b'0', b'x' | b'X', digits @ ..] = bs else {
        return None;
    };
    let count = run_of::<Hexadecimal>(digits);
    (0 < count).then_some(2 + count)
}

// The length of 0 and octal digits.
#[tactic(auto, using(text::proofs::Runs::run_within), unfolding(text::specs::Numbers::octal_integer))]
fn octal_integer(bs: &[u8]) -> Option<usize>
    ensures { result ≡ found (numbers.octal_integer bs.now) }
{
    let [b'0', digits @ ..] = bs else {
        return None;
    };
    Some(1 + run_of::<Octal>(digits))
}

// An integer's length; `whole` is that of the digits at the front.
#[tactic(auto, using(crate::proofs::Integers::integer_first))]
fn integer(bs: &[u8], whole: usize) -> usize
    requires { whole ≡ run digit bs.now }
    ensures { result ≡ numbers.integer bs.now }
{
    hexadecimal_integer(bs)
        .or_else(|| octal_integer(bs))
        .unwrap_or(whole)
}

// The length of the part before an exponent; `whole` is that of the digits at the front.
#[tactic(auto, using(text::proofs::Runs::run_within), unfolding(text::specs::Numbers::mantissa, text::specs::Numbers::pointed))]
fn mantissa(bs: &[u8], whole: usize) -> Option<usize>
    requires { whole ≡ run digit bs.now }
    ensures { result ≡ found (numbers.mantissa bs.now) }
{
    let Some(b'.') = byte_at(bs, whole) else {
        return (0 < whole).then_some(whole);
    };
    let digits = run_of::<Digit>(&bs[whole + 1..]);
    (0 < whole + digits).then_some(whole + 1 + digits)
}

// The length of an optional sign.
#[tactic(auto, unfolding(text::specs::Numbers::sign))]
fn sign(bs: &[u8]) -> usize
    ensures { result ≡ numbers.sign bs.now }
{
    match bs {
        [b'+' | b'-', ..] => 1,
        _ => 0,
    }
}

// The length of an optional exponent.
#[tactic(auto, using(text::proofs::Runs::run_within, crate::proofs::Within::sign_within), unfolding(text::specs::Numbers::exponent))]
fn exponent(bs: &[u8]) -> usize
    ensures { result ≡ numbers.exponent bs.now }
{
    let [b'e' | b'E', power @ ..] = bs else {
        return 0;
    };
    let signs = sign(power);
    match run_of::<Digit>(&power[signs..]) {
        0 => 0,
        digits => 1 + signs + digits,
    }
}

// A number of a kind and a length, unless a letter, digit or underscore follows it directly.
#[tactic(auto, unfolding(text::specs::Numbers::followed))]
fn followed(bs: &[u8], kind: u32, size: usize) -> Result<Lexeme, Fault>
    ensures { result ≡ numbers.followed bs.now kind size }
{
    if byte_at(bs, size).is_some_and(Wordly::has) {
        return Err(Fault::BadLiteral);
    }
    Ok(Lexeme::Token(kind, size))
}

// The number at the front: what follows its digits and its point tells the form.
#[tactic(auto, using(crate::proofs::Forms::forms))]
pub fn number(bs: &[u8]) -> Result<Lexeme, Fault>
    ensures { result ≡ numbers.number bs.now }
{
    let whole = run_of::<Digit>(bs);
    let size = mantissa(bs, whole).ok_or(Fault::NoLexeme)?;
    if let Some(b'd' | b'D') = byte_at(bs, size) {
        return followed(bs, Kind::FIXED_LITERAL.0, size + 1);
    }
    let end = size + exponent(&bs[size..]);
    if whole < end {
        return followed(bs, Kind::FLOATING.0, end);
    }
    followed(bs, Kind::INTEGER.0, integer(bs, whole))
}
