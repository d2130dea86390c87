// The whole reader: the token part, then the tree part.
#![tactic(auto)]

ghost use Rattle.grammar.specs.Idl.{idl};
ghost use Rattle.meaning.specs.Calls.{Answered};

use limits::Limits;
use replies::Reply;
use tables::clear;
use tokens::read_tokens;
use tree::read_tree;

// Reads a text into a token table and a tree table, with a depth setting.
pub fn read(text: &[u8], tokens: &mut [u32], tree: &mut [u32], depth: u32) -> Reply
    ensures { Answered idl text.now tokens.old tree.old depth result
        tokens.new tree.new }
{
    let Some(_) = Limits::new(text.len(), depth) else {
        return Reply::outside_limits();
    };
    let found = read_tokens(text, tokens);
    if !found.is_accepted() {
        clear(tree);
        return found;
    }
    let answer = read_tree(tokens, found.tokens as usize, text.len(), tree, depth);
    if answer.is_accepted() {
        return answer;
    }
    clear(tokens);
    answer
}
