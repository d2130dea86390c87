// The tree part: the tree of the tokens in a lent table, or the token that is blamed.
#![tactic(auto)]

ghost use Rattle.std.specs.Prelude.{◌≡◌};
ghost use Rattle.tree.specs.Conclusion.{place_in, complete, concluded, kept_tree};
ghost use Rattle.grammar.specs.Idl.{idl};
ghost use Rattle.meaning.specs.Calls.{TreeAnswered};

use limits::Limits;
use readers_core::{Reading, Tokens};
use readers_specification::specification;
use replies::Reply;
use tables::{NODE_WIDTH, TOKEN_FIRST, TOKEN_WIDTH, clear};

// The place of token i of the list: its first byte, or the text's length past the last token.
fn place_of(list: &[u32], text: u32, i: u32) -> u32
    ensures { result ≡ place_in list.now text i }
{
    let at = TOKEN_WIDTH * (i as usize) + TOKEN_FIRST;
    if at < list.len() { list[at] } else { text }
}

// Whether the whole list is read.
fn is_complete(count: u32, state: Reading) -> bool
    ensures { result ≡ complete count state }
{
    !state.has_stopped() && state.place() == count
}

// What the state in which reading has ended answers. A refusal clears the tree table.
fn conclude(list: &[u32], count: u32, text: u32, tree: &mut [u32], state: Reading) -> Reply
    ensures reply { result ≡ concluded list.now tree.old count text state }
    ensures table { tree.new ≡ kept_tree tree.old count state }
{
    if is_complete(count, state) {
        let needed = state.records();
        if (tree.len() / NODE_WIDTH) < (needed as usize) {
            clear(tree);
            return Reply::more_records(text, count, needed);
        }
        return Reply::accepted(text, count, needed);
    }
    clear(tree);
    let first = place_of(list, text, state.place());
    if state.is_too_deep() {
        return Reply::too_deep(first, count);
    }
    Reply::grammar(first, count)
}

// The tree part, on a token table that it only reads, for a text of this length.
pub fn read_tree(tokens: &[u32], count: usize, text: usize, tree: &mut [u32], depth: u32) -> Reply
    ensures { TreeAnswered idl tokens.now count text tree.old depth result tree.new }
{
    let Some(_) = Limits::new(text, depth) else {
        return Reply::outside_limits();
    };
    if tokens.len() / TOKEN_WIDTH < count {
        return Reply::outside_limits();
    }
    if text < count {
        return Reply::outside_limits();
    }
    let list = &tokens[..TOKEN_WIDTH * count];
    let listed = Tokens::new(list);
    let start = Reading::new();
    let end = specification(listed, tree, start, depth);
    conclude(list, count as u32, text as u32, tree, end)
}
