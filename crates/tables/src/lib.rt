// Tables of records: a record is a fixed number of 32-bit numbers, the table's width.
#![tactic(auto)]

ghost use Rattle.std.specs.Prelude.{◌≡◌, ◌<◌};
ghost use Rattle.tables.specs.Tables.{put, token_at, zeroed};

// The numbers of a token record: kind, first byte, length.
pub const TOKEN_WIDTH: usize = 3;

// Which of them, from 0 on, is the first byte, and which the length.
pub const TOKEN_FIRST: usize = 1;

pub const TOKEN_LENGTH: usize = 2;

// The numbers of a tree record: rule, first token, one past the last token, records of the subtree.
pub const NODE_WIDTH: usize = 4;

// A token record.
#[derive(Clone, Copy, PartialEq, Eq, Debug)]
pub struct Token {
    pub kind: u32,
    pub first: u32,
    pub length: u32,
}

impl Token {
    // The token record at record place n, where the table has that place.
    pub fn at(tokens: &[u32], n: usize) -> Option<Token>
        ensures { result ≡ token_at tokens.now n }
    {
        let (records, _) = tokens.as_chunks::<TOKEN_WIDTH>();
        let found = records.get(n)?;
        Some(Token {
            kind: found[0],
            first: found[TOKEN_FIRST],
            length: found[TOKEN_LENGTH],
        })
    }
}

// One record at record place n, where the table has that place.
pub fn put<const WIDTH: usize>(table: &mut [u32], n: usize, numbers: [u32; WIDTH])
    requires { 0 < WIDTH }
    ensures { table.new ≡ put WIDTH table.old n numbers.entry }
{
    if n < table.len() / WIDTH {
        let at = WIDTH * n;
        table[at..at + WIDTH].copy_from_slice(&numbers);
    }
}

// Every number of the table becomes zero.
pub fn clear(table: &mut [u32])
    ensures { table.new ≡ zeroed table.old }
{
    table.fill(0);
}
