// The library as a host calls it: plain numbers and lent slices.
#![tactic(auto)]

ghost use Rattle.std.specs.Prelude.{◌≡◌, length};
ghost use Rattle.grammar.specs.Idl.{idl};
ghost use Rattle.meaning.specs.Calls.{Answered, TreeAnswered};
ghost use Rattle.spelling.specs.Spelling.{located};
ghost use Rattle.tokens.specs.Answer.{token_reply, token_table};

use replies::Reply;
use spelling::Span;

// The tokens of a text as records of the lent table, or the refusal that the reply names.
#[unsafe(no_mangle)]
pub extern "C" fn idl_read_tokens(text: &[u8], tokens: &mut [u32]) -> Reply
    ensures reply { result ≡ token_reply text.now tokens.old }
    ensures table { tokens.new ≡ token_table text.now tokens.old }
{
    tokens::read_tokens(text, tokens)
}

// Where the bytes of the token of that record stand in the text; a part of length 0 for a bad record.
#[unsafe(no_mangle)]
pub extern "C" fn idl_spelling(text: &[u8], tokens: &[u32], record: usize) -> Span
    ensures { result ≡ located (length text.now) tokens.now «record» }
{
    spelling::locate(text, tokens, record)
}

// The tree of the first token_count records of a token table, which is only read, for a text of that length.
#[unsafe(no_mangle)]
pub extern "C" fn idl_read_tree(
    tokens: &[u32],
    token_count: usize,
    text_len: usize,
    tree: &mut [u32],
    depth: u32,
) -> Reply
    ensures { TreeAnswered idl tokens.now token_count text_len tree.old depth result tree.new }
{
    tree::read_tree(tokens, token_count, text_len, tree, depth)
}

// A whole text, into a token table and a tree table.
#[unsafe(no_mangle)]
pub extern "C" fn idl_read(text: &[u8], tokens: &mut [u32], tree: &mut [u32], depth: u32) -> Reply
    ensures { Answered idl text.now tokens.old tree.old depth result
        tokens.new tree.new }
{
    reader::read(text, tokens, tree, depth)
}
