// The keywords as a table, a row each, and an index of the rows by first letter and length.

ghost use Rattle.std.specs.Prelude.{true, ◌≡◌, suc, ◌+◌, ◌≤◌, ◌<◌, length, MatchOption};
ghost use Rattle.kinds.specs.Kinds.{keyword};
ghost use Rattle.text.specs.Bytes.{at, letter};
ghost use Rattle.text.specs.Words as text_words;
ghost use Rattle.words.specs.Search.{near_to, most_near};
ghost use Rattle.words.specs.Comparison.{likeness};
ghost use Rattle.words.specs.Table.{row_count, letter_count, place_of, spelling, First};

use crate::comparison::{Likeness, likeness_of};
use kinds::Kind;

// The rows of the table.
const ROWS: usize = 48;

// The bytes of the shortest keyword.
const SHORTEST: usize = 2;

// The bytes of the longest keyword.
const LONGEST: usize = 11;

// How many lengths these are.
const LENGTHS: usize = LONGEST - SHORTEST + 1;

// The letters of the alphabet.
const LETTERS: usize = 26;

// What stands for no row.
const NONE: u8 = ROWS as u8;

// A keyword: its kind, its spelling, filled up with spaces, and the next row with the same length and, case aside, the same first
// letter.
struct Keyword(u32, [u8; LONGEST], u8);

// First the keywords that the data-only edition has, too, then the others, both in byte order, so that the keywords of an edition
// are the first rows.
static KEYWORDS: [Keyword; ROWS] = [
    Keyword(Kind::FALSE.0, *b"FALSE      ", 9),
    Keyword(Kind::TRUE.0, *b"TRUE       ", NONE),
    Keyword(Kind::BOOLEAN.0, *b"boolean    ", NONE),
    Keyword(Kind::CASE.0, *b"case       ", 4),
    Keyword(Kind::CHAR.0, *b"char       ", NONE),
    Keyword(Kind::CONST.0, *b"const      ", NONE),
    Keyword(Kind::DEFAULT.0, *b"default    ", NONE),
    Keyword(Kind::DOUBLE.0, *b"double     ", NONE),
    Keyword(Kind::ENUM.0, *b"enum       ", NONE),
    Keyword(Kind::FIXED.0, *b"fixed      ", 10),
    Keyword(Kind::FLOAT.0, *b"float      ", NONE),
    Keyword(Kind::LONG.0, *b"long       ", NONE),
    Keyword(Kind::MODULE.0, *b"module     ", NONE),
    Keyword(Kind::NATIVE.0, *b"native     ", NONE),
    Keyword(Kind::OCTET.0, *b"octet      ", NONE),
    Keyword(Kind::SEQUENCE.0, *b"sequence   ", 44),
    Keyword(Kind::SHORT.0, *b"short      ", NONE),
    Keyword(Kind::STRING.0, *b"string     ", 18),
    Keyword(Kind::STRUCT.0, *b"struct     ", 19),
    Keyword(Kind::SWITCH.0, *b"switch     ", NONE),
    Keyword(Kind::TYPEDEF.0, *b"typedef    ", NONE),
    Keyword(Kind::UNION.0, *b"union      ", NONE),
    Keyword(Kind::UNSIGNED.0, *b"unsigned   ", NONE),
    Keyword(Kind::WCHAR.0, *b"wchar      ", NONE),
    Keyword(Kind::WSTRING.0, *b"wstring    ", NONE),
    Keyword(Kind::OBJECT.0, *b"Object     ", 38),
    Keyword(Kind::VALUE_BASE.0, *b"ValueBase  ", 46),
    Keyword(Kind::ABSTRACT.0, *b"abstract   ", NONE),
    Keyword(Kind::ANY.0, *b"any        ", NONE),
    Keyword(Kind::ATTRIBUTE.0, *b"attribute  ", NONE),
    Keyword(Kind::CONTEXT.0, *b"context    ", NONE),
    Keyword(Kind::CUSTOM.0, *b"custom     ", NONE),
    Keyword(Kind::EXCEPTION.0, *b"exception  ", NONE),
    Keyword(Kind::FACTORY.0, *b"factory    ", NONE),
    Keyword(Kind::IN.0, *b"in         ", NONE),
    Keyword(Kind::INOUT.0, *b"inout      ", NONE),
    Keyword(Kind::INTERFACE.0, *b"interface  ", NONE),
    Keyword(Kind::LOCAL.0, *b"local      ", NONE),
    Keyword(Kind::ONEWAY.0, *b"oneway     ", NONE),
    Keyword(Kind::OUT.0, *b"out        ", NONE),
    Keyword(Kind::PRIVATE.0, *b"private    ", NONE),
    Keyword(Kind::PUBLIC.0, *b"public     ", NONE),
    Keyword(Kind::RAISES.0, *b"raises     ", NONE),
    Keyword(Kind::READONLY.0, *b"readonly   ", NONE),
    Keyword(Kind::SUPPORTS.0, *b"supports   ", NONE),
    Keyword(Kind::TRUNCATABLE.0, *b"truncatable", NONE),
    Keyword(Kind::VALUETYPE.0, *b"valuetype  ", NONE),
    Keyword(Kind::VOID.0, *b"void       ", NONE),
];

// For each letter, a line each, and each length of a keyword the first row that has them.
static FIRST_ROWS: [[u8; LENGTHS]; LETTERS] = [
    [NONE, 28, NONE, NONE, NONE, NONE, 27, 29, NONE, NONE],
    [NONE, NONE, NONE, NONE, NONE, 2, NONE, NONE, NONE, NONE],
    [NONE, NONE, 3, 5, 31, 30, NONE, NONE, NONE, NONE],
    [NONE, NONE, NONE, NONE, 7, 6, NONE, NONE, NONE, NONE],
    [NONE, NONE, 8, NONE, NONE, NONE, NONE, 32, NONE, NONE],
    [NONE, NONE, NONE, 0, NONE, 33, NONE, NONE, NONE, NONE],
    [NONE, NONE, NONE, NONE, NONE, NONE, NONE, NONE, NONE, NONE],
    [NONE, NONE, NONE, NONE, NONE, NONE, NONE, NONE, NONE, NONE],
    [34, NONE, NONE, 35, NONE, NONE, NONE, 36, NONE, NONE],
    [NONE, NONE, NONE, NONE, NONE, NONE, NONE, NONE, NONE, NONE],
    [NONE, NONE, NONE, NONE, NONE, NONE, NONE, NONE, NONE, NONE],
    [NONE, NONE, 11, 37, NONE, NONE, NONE, NONE, NONE, NONE],
    [NONE, NONE, NONE, NONE, 12, NONE, NONE, NONE, NONE, NONE],
    [NONE, NONE, NONE, NONE, 13, NONE, NONE, NONE, NONE, NONE],
    [NONE, 39, NONE, 14, 25, NONE, NONE, NONE, NONE, NONE],
    [NONE, NONE, NONE, NONE, 41, 40, NONE, NONE, NONE, NONE],
    [NONE, NONE, NONE, NONE, NONE, NONE, NONE, NONE, NONE, NONE],
    [NONE, NONE, NONE, NONE, 42, NONE, 43, NONE, NONE, NONE],
    [NONE, NONE, NONE, 16, 17, NONE, 15, NONE, NONE, NONE],
    [NONE, NONE, 1, NONE, NONE, 20, NONE, NONE, NONE, 45],
    [NONE, NONE, NONE, 21, NONE, NONE, 22, NONE, NONE, NONE],
    [NONE, NONE, 47, NONE, NONE, NONE, NONE, 26, NONE, NONE],
    [NONE, NONE, NONE, 23, NONE, 24, NONE, NONE, NONE, NONE],
    [NONE, NONE, NONE, NONE, NONE, NONE, NONE, NONE, NONE, NONE],
    [NONE, NONE, NONE, NONE, NONE, NONE, NONE, NONE, NONE, NONE],
    [NONE, NONE, NONE, NONE, NONE, NONE, NONE, NONE, NONE, NONE],
];

// The bits of a letter that are its place in the alphabet, from 1 on, in either case.
const PLACE_BITS: u8 = 0b11111;

// A letter's place in the alphabet, from 1 on.
fn place_of(byte: u8) -> usize
    requires { letter byte ≡ true }
    ensures value { result ≡ place_of (text_words.lower byte) }
    ensures bounds { (1 ≤ result) × (result ≤ letter_count) }
{
    usize::from(byte & PLACE_BITS)
}

// A row of the table.
#[derive(Clone, Copy)]
pub struct Row {
    number: usize,
    ghost in_table: { number < row_count },
}

impl Row {
    // The row of this number.
    fn of(number: u8) -> Option<Row>
        ensures { MatchOption result (row_count ≤ number) (λ row. row.number ≡ number) }
    {
        if number < NONE {
            return Some(Row {
                number: usize::from(number),
            });
        }
        None
    }

    // The first row with the length and, case aside, the first letter of a word.
    pub fn first_near(word: &[u8]) -> Option<Row>
        requires { letter (at word.now 0) ≡ true }
        ensures { MatchOption result (First (near_to word.now) 0 row_count) (λ row. First (near_to word.now) 0 row.number) }
    {
        let size = word.len();
        if size < SHORTEST {
            return None;
        }
        if LONGEST < size {
            return None;
        }
        Row::of(FIRST_ROWS[place_of(word[0]) - 1][size - SHORTEST])
    }

    // The next row with the length and, case aside, the first letter of this one.
    pub fn next_near(self) -> Option<Row>
        ensures { MatchOption result (First (near_to (spelling self.number)) (suc self.number) row_count)
            (λ row. First (near_to (spelling self.number)) (suc self.number) row.number) }
    {
        Row::of(KEYWORDS[self.number].2)
    }

    // The kind of the keyword.
    pub fn kind(self) -> u32
        ensures { result ≡ keyword (spelling self.number) }
    {
        KEYWORDS[self.number].0
    }

    // Compares a word in full with the keyword, and counts the comparison. Nothing else compares in full.
    pub fn compare(self, word: &[u8], compared: &mut usize) -> Likeness
        requires { (near_to word.now (spelling self.number) ≡ true) × (compared.old < most_near) }
        ensures value { result ≡ likeness word.now (spelling self.number) }
        ensures compared_after { compared.new ≡ compared.old + 1 }
    {
        *compared += 1;
        likeness_of(word, &KEYWORDS[self.number].1[..word.len()])
    }
}
