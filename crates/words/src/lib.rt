// Words: identifiers, keywords, and keywords in another case.
#![tactic(auto)]

ghost use Rattle.std.specs.Prelude.{true, ◌≡◌, ◌<◌, length};
ghost use Rattle.text.specs.Bytes.{at, letter};
ghost use Rattle.text.specs.Words as text_words;
ghost use Rattle.words.specs.Search.{near_keywords, sorted_among, comparisons};

mod comparison;
mod keywords;

pub use comparison::Likeness;
use keywords::Row;
use kinds::Kind;
use text::{Fault, Lexeme};

// Compares a word in full with the keywords near it, which have its length and, case aside, its first letter, and with no others: in
// turn, up to the first that it is, case aside.
fn search(word: &[u8], compared: &mut usize) -> Result<Lexeme, Fault>
    requires word_value { letter (at word.now 0) ≡ true }
    requires compared_value { compared.old ≡ 0 }
    ensures value { result ≡ sorted_among word.now (near_keywords word.now) }
    ensures compared_after { compared.new ≡ comparisons word.now (near_keywords word.now) }
{
    let mut near = Row::first_near(word);
    while let Some(row) = near {
        match row.compare(word, compared) {
            Likeness::Same => return Ok(Lexeme::Token(row.kind(), word.len())),
            Likeness::ButCase => return Err(Fault::OtherCase(row.kind())),
            Likeness::Different => near = row.next_near(),
        }
    }
    Ok(Lexeme::Token(Kind::IDENTIFIER.0, word.len()))
}

// Sorts a word. The count of comparisons is for the contracts to speak of: nobody reads it, so the compiled code has none.
fn sorted(word: &[u8]) -> Result<Lexeme, Fault>
    requires { letter (at word.now 0) ≡ true }
    ensures { result ≡ text_words.sorted word.now (length word.now) }
{
    let mut compared = 0;
    search(word, &mut compared)
}

// A word, at the front of the rest of a text.
pub fn word(rest: &[u8]) -> Result<Lexeme, Fault>
    requires { letter (at rest.now 0) ≡ true }
    ensures { result ≡ text_words.word rest.now }
{
    sorted(&rest[..text::word_run(rest)])
}

// A word with an underscore before it.
pub fn escaped_word(rest: &[u8]) -> Result<Lexeme, Fault>
    requires { 0 < length rest.now }
    ensures { result ≡ text_words.escaped_word rest.now }
{
    Ok(Lexeme::Token(Kind::IDENTIFIER.0, text::word_run(&rest[1..]) + 1))
}
