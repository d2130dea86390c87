// The bytes of one token, handed back as that part of the caller's text.
#![tactic(auto)]

ghost use Rattle.std.specs.Prelude.{◌≡◌, length};
ghost use Rattle.spelling.specs.Spelling as specs;

use tables::Token;

// A part of a text: its first byte and its length in bytes.
#[repr(C)]
#[derive(Clone, Copy, PartialEq, Eq, Debug, Default)]
pub struct Span {
    pub first: u32,
    pub length: u32,
}

// The part that record i names, where the table has that record and the part lies in the text.
fn part(text: &[u8], tokens: &[u32], i: usize) -> Option<Span>
    ensures { result ≡ specs.part (length text.now) tokens.now i }
{
    let token = Token::at(tokens, i)?;
    let end = token.first as usize + token.length as usize;
    (end <= text.len()).then_some(Span {
        first: token.first,
        length: token.length,
    })
}

// The part that record i names; an empty one where the table has no such record, or where its span leaves the text.
pub fn locate(text: &[u8], tokens: &[u32], i: usize) -> Span
    ensures { result ≡ specs.located (length text.now) tokens.now i }
{
    part(text, tokens, i).unwrap_or_default()
}

// The bytes of the token of record i; none where `locate` answers an empty part.
pub fn spelling<'a>(text: &'a [u8], tokens: &[u32], i: usize) -> &'a [u8]
    ensures { result.now ≡ specs.spelling text.now tokens.now i }
{
    let part = locate(text, tokens, i);
    let first = part.first as usize;
    &text[first..first + part.length as usize]
}
