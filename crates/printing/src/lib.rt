// What the program prints for a text: the report of the reader's answer, with the program's own tables and depth setting.
#![tactic(auto)]

ghost use Rattle.std.specs.Prelude.{◌≡◌, take};
ghost use Rattle.io.specs.Counts.{IsPrefixLen};
ghost use Rattle.grammar.specs.Idl.{idl};
ghost use Rattle.meaning.specs.Sense.{TextSense, TextMeans};
ghost use Rattle.printing.specs.Printed.{printed};

use replies::Reply;
use report::{FIRST_LINE_SIZE, NUMBER_SIZE};
use tables::{NODE_WIDTH, TOKEN_WIDTH};

// The longest text in bytes.
pub const LONGEST: usize = 16384;

// The records that each table holds, and its numbers.
const TOKEN_RECORDS: usize = 4096;

const TREE_RECORDS: usize = 4096;

const TOKENS: usize = TOKEN_WIDTH * TOKEN_RECORDS;

const TREE: usize = NODE_WIDTH * TREE_RECORDS;

// The depth setting is the program's own: it stays where the reader's ceiling grows.
const DEPTH: u32 = 64;

// What a report needs: its first line, and each number of the tree.
pub const ROOM: usize = FIRST_LINE_SIZE + NUMBER_SIZE * TREE;

pub fn put_answer(text: &[u8], out: &mut [u8; ROOM]) -> usize
    ensures written { (sense : TextSense) → TextMeans idl text.now sense →
        take result out.new ≡ printed text.now sense }
    ensures counts { IsPrefixLen result out.new }
{
    let mut tree = [0u32; TREE];
    if LONGEST < text.len() {
        return report::put_report(out, Reply::outside_limits(), &tree);
    }
    let mut tokens = [0u32; TOKENS];
    let reply = reader::read(text, &mut tokens, &mut tree, DEPTH);
    report::put_report(out, reply, &tree)
}
