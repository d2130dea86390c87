// The token part: the tokens of a text as records of a lent table, or the text's first fault.
#![tactic(auto)]

ghost use Rattle.std.specs.Prelude.{◌≡◌, ◌+◌, ◌≤◌, ◌<◌, length, drop};
ghost use Rattle.tables.specs.Tables.{number_end};
ghost use Rattle.text.specs.Bytes.{at, run, space};
ghost use Rattle.text.specs.Tokens.{tokens_of};
ghost use Rattle.replies.specs.Faults.{row};
ghost use Rattle.tokens.specs.Answer.{Scanned, fault_at, token_reply, token_table};

use lexemes::lexeme;
use limits::Limits;
use replies::Reply;
use tables::{TOKEN_WIDTH, clear, put};
use text::{Class, Fault, Lexeme, Space};

// Whether white space stands at a place. Most bytes that are asked for are above it, so these are told at once.
fn is_space_at(text: &[u8], place: usize) -> bool
    ensures { result ≡ space (at text.now place) }
{
    match text::byte_at(text, place) {
        Some(byte) if byte <= b' ' => Space::has(byte),
        _ => false,
    }
}

// The place behind the white space that stands at a place: mostly none or one byte, otherwise a row of them.
fn past_space(text: &[u8], place: usize) -> usize
    requires { place ≤ length text.now }
    ensures { result ≡ place + run space (drop place text.now) }
{
    if !is_space_at(text, place) {
        return place;
    }
    if !is_space_at(text, place + 1) {
        return place + 1;
    }
    place + text::space_run(&text[place..])
}

// The reply to a fault at a place.
fn fault_reply(fault: Fault, place: u32) -> Reply
    ensures { result ≡ row (fault_at place fault) }
{
    match fault {
        Fault::NoLexeme => Reply::no_lexeme(place),
        Fault::Open => Reply::left_open(place),
        Fault::BadLiteral => Reply::bad_literal(place),
        Fault::OtherCase(kind) => Reply::other_case(place, kind),
    }
}

// How many tokens the text has, or the reply to its first fault. The records go into the table while it has room; counting
// goes on when it is full.
fn scan(text: &[u8], tokens: &mut [u32]) -> Result<usize, Reply>
    requires { length text.now < number_end }
    ensures { Scanned (tokens_of text.now) tokens.old tokens.new result }
{
    let mut at = 0;
    let mut count = 0;
    while at < text.len() {
        match lexeme(&text[at..]) {
            Ok(Lexeme::Blank(size)) => at = past_space(text, at + size),
            Ok(Lexeme::Token(kind, size)) => {
                put(tokens, count, [kind, at as u32, size as u32]);
                count += 1;
                at = past_space(text, at + size);
            }
            Err(fault) => return Err(fault_reply(fault, at as u32)),
        }
    }
    Ok(count)
}

// The token part. The text is read for its faults before the table's room counts.
pub fn read_tokens(text: &[u8], tokens: &mut [u32]) -> Reply
    ensures reply { result ≡ token_reply text.now tokens.old }
    ensures table { tokens.new ≡ token_table text.now tokens.old }
{
    if !Limits::takes(text.len()) {
        return Reply::outside_limits();
    }
    match scan(text, tokens) {
        Ok(count) if count <= tokens.len() / TOKEN_WIDTH => Reply::accepted(
            text.len() as u32,
            count as u32,
            0,
        ),
        Ok(count) => {
            clear(tokens);
            Reply::more_tokens(text.len() as u32, count as u32)
        }
        Err(reply) => {
            clear(tokens);
            reply
        }
    }
}
