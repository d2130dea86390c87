// Comments, at the front of the rest of a text.
#![tactic(auto)]

ghost use Rattle.std.specs.Prelude.{◌≡◌, ◌≤◌, length};
ghost use Rattle.blanks.specs.Ends.{closes};
ghost use Rattle.text.specs.Blanks.{line_comment, block_comment, to_close};

use text::{Fault, Lexeme};

// From // to byte 10, byte 13 or the end of the text.
pub fn line_comment(bs: &[u8]) -> Result<Lexeme, Fault>
    requires { 2 ≤ length bs.now }
    ensures { result ≡ line_comment bs.now }
{
    Ok(Lexeme::Blank(2 + text::line_run(&bs[2..])))
}

// Whether the text goes on with */.
fn closes(bs: &[u8]) -> bool
    ensures { result ≡ closes bs.now }
{
    matches!(bs, [b'*', b'/', ..])
}

// How many bytes there are to the end of the next */, if there is one. From a byte that begins none it goes on to the next star.
fn to_close(bs: &[u8]) -> Option<usize>
    ensures { result ≡ to_close bs.now }
{
    let mut rest = bs;
    while let Some((_, behind)) = rest.split_first() {
        if closes(rest) {
            return Some(bs.len() - rest.len() + 2);
        }
        rest = &behind[text::starless_run(behind)..];
    }
    None
}

// From /* to the next */, or open at the end of the text.
pub fn block_comment(bs: &[u8]) -> Result<Lexeme, Fault>
    requires { 2 ≤ length bs.now }
    ensures { result ≡ block_comment bs.now }
{
    let size = to_close(&bs[2..]).ok_or(Fault::Open)?;
    Ok(Lexeme::Blank(2 + size))
}
