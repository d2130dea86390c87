// What every reader is made of: how far reading has come, tokens, marks that open, and nodes.
// A reading that has stopped passes through every reader, so that readers are straight lines.
// A reader's contract names the course whose plans it follows, `one` for edition 1, and holds in every course that shares the rules.
#![tactic(auto)]

ghost use Rattle.std.specs.Prelude.{◌≡◌, ℕ, List, ◌-◌, ◌%◌, ◌<◌, ◌==◌};
ghost use Rattle.prediction.specs.plans.Plan.{call, token};
ghost use Rattle.readers_core.specs.Course.{one};
ghost use Rattle.readers_core.specs.Notation.{further, list_of};
ghost use Rattle.readers_core.specs.Reading.{IsKind, kind_at, ahead, half, stop, blaming, sunk, Addressable, view, halted};
ghost use Rattle.readers_core.specs.Reading.{beginning, Stops, Reads, Takes, Opens, Closes};

use grammar::Rule;
use kinds::Kind;
use std::marker::Model;

// How far reading has come: the next token, the tree records so far, and whether it has stopped. It is one number, which travels in
// a register. Its low half is the number of the next token; its high half counts the records. From 2^63 on it tells that reading
// has stopped: it holds 2^31 times the token at which it has, and a rest. The rest tells whether that token is blamed or lies too
// deep, and makes the low half larger than the number of any token in a table, so that none is found there.
#[derive(Clone, Copy)]
pub struct Reading {
    state: u64,
}

impl Model for Reading {
    ghost use Rattle.std.proofs.Common.{ℕ, ap};
    ghost use Rattle.readers_core.specs.Reading.{Reading as Seen, packed, view as seen};
    ghost use Rattle.readers_core.specs.Packing.{packed_view};

    ghost Value = { Seen };

    ghost view = { λ r. seen r.state };

    ghost inverse = { λ v. record { state = packed v } };

    ghost inverse_ok = { λ r h. ap (λ (s : ℕ). record { state = s }) (packed_view r.state) };
}

const HALF: u64 = 1 << 32;

const STOP: u64 = 1 << 63;

const STEP: u64 = 1 << 31;

// The rest of a stop for depth.
const DEEP: u64 = STEP - 2;

// A stop at token 0.
const BLAMED: u64 = STOP + (STEP - 1);

const TOO_DEEP: u64 = STOP + DEEP;

// The low half.
fn low(state: u64) -> u32
    ensures { result ≡ state % half }
{
    (state % HALF) as u32
}

// The high half.
fn high(state: u64) -> u32
    ensures { result ≡ (view state).count }
{
    (state / HALF) as u32
}

// A stop at the next token.
fn blamed(state: u64) -> Reading
    requires { state < stop }
    ensures { Stops blaming (view state) result }
{
    Reading {
        state: state % HALF * STEP + BLAMED,
    }
}

fn too_deep(state: u64) -> Reading
    requires { state < stop }
    ensures { Stops sunk (view state) result }
{
    Reading {
        state: state % HALF * STEP + TOO_DEEP,
    }
}

// Any number is a reading, also one that no reader makes.
impl From<u64> for Reading {
    fn from(state: u64) -> Reading
        ensures { result ≡ view state }
    {
        Reading { state }
    }
}

impl Reading {
    // Before the first token.
    pub fn new() -> Reading
        ensures { result ≡ beginning }
    {
        Reading { state: 0 }
    }

    // The number of the next token, or of the one at which reading has stopped.
    pub fn place(self) -> u32
        ensures { result ≡ self.at }
    {
        if STOP <= self.state {
            return ((self.state - STOP) / STEP) as u32;
        }
        low(self.state)
    }

    // The tree records so far, where reading goes on.
    pub fn records(self) -> u32
        ensures { result ≡ self.count }
    {
        high(self.state)
    }

    // Whether reading has stopped.
    pub fn has_stopped(self) -> bool
        ensures { result ≡ halted self }
    {
        STOP <= self.state
    }

    // Whether it has stopped at a token that lies too deep.
    pub fn is_too_deep(self) -> bool
        ensures { result ≡ (self.answer == sunk) }
    {
        STOP <= self.state && self.state % STEP == DEEP
    }
}

// The kind of token i of a table of any length; that of the end past the last.
pub fn kind_at(tokens: &[u32], i: u32) -> Kind
    ensures { result ≡ kind_at tokens.now i }
{
    let place = tables::TOKEN_WIDTH * (i as usize);
    if place < tokens.len() {
        Kind::from(tokens[place])
    } else {
        Kind::END
    }
}

// The kind of the next token; that of the end also where reading has stopped.
pub fn next_kind(tokens: &[u32], at: Reading) -> Kind
    ensures { result ≡ ahead tokens.now at }
{
    if STOP <= at.state {
        return Kind::END;
    }
    kind_at(tokens, low(at.state))
}

// The tokens of a lent table, whose places fit 32 bits.
#[derive(Clone, Copy)]
pub struct Tokens<'a> {
    table: &'a [u32],
    ghost addressable: { Addressable table.now },
}

impl<'a> Tokens<'a> {
    pub fn new(table: &'a [u32]) -> Tokens<'a>
        requires { Addressable table.now }
        ensures { result.table.now ≡ table.now }
    {
        Tokens { table }
    }

    // The kind of token i; that of the end past the last.
    pub fn kind_at(self, i: u32) -> Kind
        ensures { result ≡ kind_at self.entry.table.now i }
    {
        kind_at(self.table, i)
    }

    // The kind of the next token; that of the end also where reading has stopped.
    pub fn next_kind(self, at: Reading) -> Kind
        ensures { result ≡ ahead self.entry.table.now at }
    {
        next_kind(self.table, at)
    }

    // Reads a token of the kind.
    pub fn take(self, at: Reading, kind: Kind) -> Reading
        requires { IsKind kind }
        ensures { Takes self.entry.table.now (token kind) at result }
    {
        if self.kind_at(low(at.state)) == kind {
            return Reading {
                state: at.state + 1,
            };
        }
        if STOP <= at.state {
            return at;
        }
        blamed(at.state)
    }

    // Reads an opening mark, where a level of depth is left.
    pub fn open(self, at: Reading, mark: Kind, depth: u32) -> Reading
        requires { IsKind mark }
        ensures { Opens self.entry.table.now depth mark at result }
    {
        if self.kind_at(low(at.state)) == mark {
            if 0 < depth {
                return Reading {
                    state: at.state + 1,
                };
            }
            // The contract is about any number, also about one that no reader makes.
            if STOP <= at.state {
                return at;
            }
            return too_deep(at.state);
        }
        if STOP <= at.state {
            return at;
        }
        blamed(at.state)
    }
}

// The levels of depth that are left behind an opening mark.
pub fn inner(depth: u32) -> u32
    ensures { result ≡ depth - 1 }
{
    depth.saturating_sub(1)
}

// What has been read since `start` becomes one node of the rule, which is recorded. The count has its ceiling below a stop.
pub fn node(tree: &mut [u32], start: Reading, at: Reading, rule: Rule) -> Reading
    ensures { Closes rule start (at, tree.old) (result, tree.new) }
{
    if STOP <= at.state {
        return at;
    }
    let counted = at.state + HALF;
    if STOP <= counted {
        return at;
    }
    let place = high(at.state);
    let size = high(counted.wrapping_sub(start.state));
    let record = [u32::from(rule), low(start.state), low(at.state), size];
    tables::put(tree, place as usize, record);
    Reading { state: counted }
}

// What stands in a list: the uses of one rule.
pub trait Part {
    ghost rule: { ℕ };

    // Reads one.
    fn read(tokens: Tokens, tree: &mut [u32], at: Reading, depth: u32) -> Reading
        ensures { Reads one tokens.entry.table.now depth (call rule) (at, tree.old) (result, tree.new) };
}

// More of a list, each behind a comma.
pub fn further<P: Part>(tokens: Tokens, tree: &mut [u32], at: Reading, depth: u32) -> Reading
    ensures { Reads one tokens.entry.table.now depth (further P.rule) (at, tree.old) (result, tree.new) }
{
    let mut last = at;
    while tokens.next_kind(last) == Kind::COMMA {
        let comma = tokens.take(last, Kind::COMMA);
        last = P::read(tokens, tree, comma, depth);
    }
    last
}

// A list: one at least.
pub fn list<P: Part>(tokens: Tokens, tree: &mut [u32], at: Reading, depth: u32) -> Reading
    ensures { Reads one tokens.entry.table.now depth (list_of P.rule) (at, tree.old) (result, tree.new) }
{
    let first = P::read(tokens, tree, at, depth);
    further::<P>(tokens, tree, first, depth)
}
