// What the reader says: a number, a place in bytes, a token count (in row 5 a keyword's kind) and a record count.
//
// Each row of the paper's table has its constructor.
#![tactic(auto)]

ghost use Rattle.std.specs.Prelude.{◌≡◌, ◌==◌};
ghost use Rattle.replies.specs.Replies as rows;
ghost use Rattle.replies.specs.Rows.{number};

// The rows of the table, by their numbers.
#[derive(Clone, Copy, PartialEq, Eq, Debug)]
enum Row {
    Accepted = 0,
    OutsideLimits = 1,
    NoLexeme = 2,
    LeftOpen = 3,
    BadLiteral = 4,
    OtherCase = 5,
    MoreTokens = 6,
    Grammar = 7,
    TooDeep = 8,
    MoreRecords = 9,
}

#[repr(C)]
#[derive(Clone, Copy, PartialEq, Eq, Debug)]
pub struct Reply {
    pub number: u32,
    pub place: u32,
    pub tokens: u32,
    pub records: u32,
}

impl Reply {
    // The numbers of a reply.
    pub const WIDTH: usize = 4;

    // The number of every acceptance, and of no refusal.
    pub const ACCEPTED: u32 = Row::Accepted as u32;

    fn of(row: Row, place: u32, tokens: u32, records: u32) -> Reply
        ensures { result ≡ rows.reply (number row) place tokens records }
    {
        Reply {
            number: row as u32,
            place,
            tokens,
            records,
        }
    }

    // Whether everything is accepted.
    pub fn is_accepted(&self) -> bool
        ensures { result ≡ (self.now.number == rows.accepted_number) }
    {
        self.number == Reply::ACCEPTED
    }

    pub fn accepted(text: u32, tokens: u32, records: u32) -> Reply
        ensures { result ≡ rows.accepted text tokens records }
    {
        Reply::of(Row::Accepted, text, tokens, records)
    }

    pub fn outside_limits() -> Reply
        ensures { result ≡ rows.outside_limits }
    {
        Reply::of(Row::OutsideLimits, 0, 0, 0)
    }

    pub fn no_lexeme(place: u32) -> Reply
        ensures { result ≡ rows.no_lexeme place }
    {
        Reply::of(Row::NoLexeme, place, 0, 0)
    }

    pub fn left_open(place: u32) -> Reply
        ensures { result ≡ rows.left_open place }
    {
        Reply::of(Row::LeftOpen, place, 0, 0)
    }

    pub fn bad_literal(place: u32) -> Reply
        ensures { result ≡ rows.bad_literal place }
    {
        Reply::of(Row::BadLiteral, place, 0, 0)
    }

    pub fn other_case(place: u32, kind: u32) -> Reply
        ensures { result ≡ rows.other_case place kind }
    {
        Reply::of(Row::OtherCase, place, kind, 0)
    }

    pub fn more_tokens(text: u32, tokens: u32) -> Reply
        ensures { result ≡ rows.more_tokens text tokens }
    {
        Reply::of(Row::MoreTokens, text, tokens, 0)
    }

    pub fn grammar(place: u32, tokens: u32) -> Reply
        ensures { result ≡ rows.grammar place tokens }
    {
        Reply::of(Row::Grammar, place, tokens, 0)
    }

    pub fn too_deep(place: u32, tokens: u32) -> Reply
        ensures { result ≡ rows.too_deep place tokens }
    {
        Reply::of(Row::TooDeep, place, tokens, 0)
    }

    pub fn more_records(text: u32, tokens: u32, records: u32) -> Reply
        ensures { result ≡ rows.more_records text tokens records }
    {
        Reply::of(Row::MoreRecords, text, tokens, records)
    }
}
