// Readers of names, literals and basic types: the rules that hold no expression.
#![tactic(auto)]

ghost use Rattle.std.specs.Prelude.{◌≡◌, [], ◌∷◌};
ghost use Rattle.grammar.specs.Sets.{elem};
ghost use Rattle.prediction.specs.plans.Plan.{seq, token, wrap};
ghost use Rattle.readers_core.specs.Notation.{<◌>, ◌*};
ghost use Rattle.readers_core.specs.Course.{one};
ghost use Rattle.readers_core.specs.Reading.{IsKind, Takes, Flat, FlatFrom, FlatWithin, FlatFollows, nothing, several};
ghost use Rattle.readers_names.specs.Plans.{first_name, further_name, behind_long, behind_unsigned, long_number};
ghost use Rattle.readers_names.specs.Plans.{short_number, number_type, string_literal, word_rule, one_of_three};

use grammar::Rule;
use kinds::Kind;
use readers_core::{Reading, Tokens, node};

// The first name, which "::" may precede.
fn first_name(tokens: Tokens, at: Reading) -> Reading
    ensures { Takes tokens.entry.table.now first_name at result }
{
    let next = tokens.next_kind(at);
    match next {
        Kind::SCOPE => {
            let mark = tokens.take(at, Kind::SCOPE);
            tokens.take(mark, Kind::IDENTIFIER)
        }
        _ => tokens.take(at, Kind::IDENTIFIER),
    }
}

// Each further step of a name is a node over what stands before it.
fn further_names(tokens: Tokens, tree: &mut [u32], start: Reading, at: Reading) -> Reading
    ensures { FlatWithin one tokens.entry.table.now start (further_name *) (at, tree.old) (result, tree.new) }
{
    let mut names = at;
    while tokens.next_kind(names) == Kind::SCOPE {
        let mark = tokens.take(names, Kind::SCOPE);
        let name = tokens.take(mark, Kind::IDENTIFIER);
        names = node(tree, start, name, Rule::SCOPED_NAME);
    }
    names
}

// (12) scoped_name
pub fn scoped_name(tokens: Tokens, tree: &mut [u32], at: Reading) -> Reading
    ensures { Flat one tokens.entry.table.now < "scoped_name" > (at, tree.old) (result, tree.new) }
{
    let name = first_name(tokens, at);
    let first = node(tree, at, name, Rule::SCOPED_NAME);
    further_names(tokens, tree, at, first)
}

// A rule that is one token, as (63) char_type.
pub fn one_token(tokens: Tokens, tree: &mut [u32], at: Reading, kind: Kind, rule: Rule) -> Reading
    requires { IsKind kind }
    ensures { FlatFollows tokens.entry.table.now rule (λ n. seq (token kind) (wrap n)) (at, tree.old) (result, tree.new) }
{
    let token = tokens.take(at, kind);
    node(tree, at, token, rule)
}

// Behind "long": a second "long" or nothing.
fn behind_long(tokens: Tokens, tree: &mut [u32], start: Reading, at: Reading) -> Reading
    ensures { FlatFrom one tokens.entry.table.now start several behind_long (at, tree.old) (result, tree.new) }
{
    let next = tokens.next_kind(at);
    match next {
        Kind::LONG => {
            let word = tokens.take(at, Kind::LONG);
            node(tree, start, word, Rule::SIGNED_LONGLONG_INT)
        }
        _ => node(tree, start, at, Rule::SIGNED_LONG_INT),
    }
}

// (55) signed_int
fn signed_int(tokens: Tokens, tree: &mut [u32], at: Reading) -> Reading
    ensures { Flat one tokens.entry.table.now < "signed_int" > (at, tree.old) (result, tree.new) }
{
    let next = tokens.next_kind(at);
    match next {
        Kind::SHORT => {
            let word = tokens.take(at, Kind::SHORT);
            node(tree, at, word, Rule::SIGNED_SHORT_INT)
        }
        _ => {
            let word = tokens.take(at, Kind::LONG);
            behind_long(tokens, tree, at, word)
        }
    }
}

// Behind "unsigned": one of three types.
fn behind_unsigned(tokens: Tokens, tree: &mut [u32], start: Reading, at: Reading) -> Reading
    ensures { FlatWithin one tokens.entry.table.now start behind_unsigned (at, tree.old) (result, tree.new) }
{
    let next = tokens.next_kind(at);
    if next == Kind::SHORT {
        let short = tokens.take(at, Kind::SHORT);
        return node(tree, start, short, Rule::UNSIGNED_SHORT_INT);
    }
    let long = tokens.take(at, Kind::LONG);
    let then = tokens.next_kind(long);
    if then == Kind::LONG {
        let longlong = tokens.take(long, Kind::LONG);
        return node(tree, start, longlong, Rule::UNSIGNED_LONGLONG_INT);
    }
    node(tree, start, long, Rule::UNSIGNED_LONG_INT)
}

// (59) unsigned_int
fn unsigned_int(tokens: Tokens, tree: &mut [u32], at: Reading) -> Reading
    ensures { Flat one tokens.entry.table.now < "unsigned_int" > (at, tree.old) (result, tree.new) }
{
    let word = tokens.take(at, Kind::UNSIGNED);
    behind_unsigned(tokens, tree, at, word)
}

// (54) integer_type
pub fn integer_type(tokens: Tokens, tree: &mut [u32], at: Reading) -> Reading
    ensures { Flat one tokens.entry.table.now < "integer_type" > (at, tree.old) (result, tree.new) }
{
    let next = tokens.next_kind(at);
    match next {
        Kind::UNSIGNED => unsigned_int(tokens, tree, at),
        _ => signed_int(tokens, tree, at),
    }
}

// Behind "long", where a floating type may stand too.
fn long_number(tokens: Tokens, tree: &mut [u32], start: Reading, at: Reading) -> Reading
    ensures { FlatFrom one tokens.entry.table.now start several long_number (at, tree.old) (result, tree.new) }
{
    let next = tokens.next_kind(at);
    match next {
        Kind::DOUBLE => {
            let word = tokens.take(at, Kind::DOUBLE);
            node(tree, start, word, Rule::FLOATING_PT_TYPE)
        }
        _ => behind_long(tokens, tree, start, at),
    }
}

// An integer or floating type, where a rule begins: `at` is its beginning.
pub fn number_type(tokens: Tokens, tree: &mut [u32], at: Reading) -> Reading
    ensures { FlatFrom one tokens.entry.table.now at nothing number_type (at, tree.old) (result, tree.new) }
{
    let next = tokens.next_kind(at);
    match next {
        Kind::LONG => {
            let word = tokens.take(at, Kind::LONG);
            long_number(tokens, tree, at, word)
        }
        Kind::FLOAT | Kind::DOUBLE => {
            let word = tokens.take(at, next);
            node(tree, at, word, Rule::FLOATING_PT_TYPE)
        }
        Kind::SHORT => short_number(tokens, tree, at),
        _ => unsigned_int(tokens, tree, at),
    }
}

// "short", where a rule begins.
fn short_number(tokens: Tokens, tree: &mut [u32], at: Reading) -> Reading
    ensures { FlatWithin one tokens.entry.table.now at short_number (at, tree.old) (result, tree.new) }
{
    let word = tokens.take(at, Kind::SHORT);
    node(tree, at, word, Rule::SIGNED_SHORT_INT)
}

// The rule of a type that is one word; (98) value_base_type for any other kind.
pub fn word_rule(kind: Kind) -> Rule
    ensures { result ≡ word_rule kind }
{
    match kind {
        Kind::CHAR => Rule::CHAR_TYPE,
        Kind::WCHAR => Rule::WIDE_CHAR_TYPE,
        Kind::BOOLEAN => Rule::BOOLEAN_TYPE,
        Kind::OCTET => Rule::OCTET_TYPE,
        Kind::ANY => Rule::ANY_TYPE,
        Kind::OBJECT => Rule::OBJECT_TYPE,
        Kind::FIXED => Rule::FIXED_PT_CONST_TYPE,
        _ => Rule::VALUE_BASE_TYPE,
    }
}

// (46) base_type_spec
pub fn base_type_spec(tokens: Tokens, tree: &mut [u32], at: Reading) -> Reading
    ensures { Flat one tokens.entry.table.now < "base_type_spec" > (at, tree.old) (result, tree.new) }
{
    let next = tokens.next_kind(at);
    match next {
        Kind::LONG | Kind::FLOAT | Kind::DOUBLE | Kind::SHORT | Kind::UNSIGNED => number_type(
            tokens, tree, at,
        ),
        Kind::CHAR | Kind::WCHAR | Kind::BOOLEAN | Kind::OCTET | Kind::ANY | Kind::OBJECT =>
            one_token(tokens, tree, at, next, word_rule(next)),
        _ => one_token(tokens, tree, at, Kind::VALUE_BASE, Rule::VALUE_BASE_TYPE),
    }
}

// (40) boolean_literal
fn boolean_literal(tokens: Tokens, tree: &mut [u32], at: Reading) -> Reading
    ensures { Flat one tokens.entry.table.now < "boolean_literal" > (at, tree.old) (result, tree.new) }
{
    let next = tokens.next_kind(at);
    match next {
        Kind::TRUE => {
            let word = tokens.take(at, Kind::TRUE);
            node(tree, at, word, Rule::BOOLEAN_LITERAL)
        }
        _ => {
            let word = tokens.take(at, Kind::FALSE);
            node(tree, at, word, Rule::BOOLEAN_LITERAL)
        }
    }
}

// Strings of the kind, as many as stand ahead.
fn neighbours(tokens: Tokens, at: Reading, kind: Kind) -> Reading
    requires { IsKind kind }
    ensures { Takes tokens.entry.table.now (token kind *) at result }
{
    let mut strings = at;
    while tokens.next_kind(strings) == kind {
        strings = tokens.take(strings, kind);
    }
    strings
}

// A string literal: one or more strings of the kind, narrow or wide, side by side.
pub fn string_literal(tokens: Tokens, at: Reading, kind: Kind) -> Reading
    requires { IsKind kind }
    ensures { Takes tokens.entry.table.now (string_literal kind) at result }
{
    let first = tokens.take(at, kind);
    neighbours(tokens, first, kind)
}

// (39) literal
pub fn literal(tokens: Tokens, tree: &mut [u32], at: Reading) -> Reading
    ensures { Flat one tokens.entry.table.now < "literal" > (at, tree.old) (result, tree.new) }
{
    let next = tokens.next_kind(at);
    match next {
        Kind::INTEGER
        | Kind::FLOATING
        | Kind::FIXED_LITERAL
        | Kind::CHARACTER
        | Kind::WIDE_CHARACTER => {
            let token = tokens.take(at, next);
            node(tree, at, token, Rule::LITERAL)
        }
        Kind::STRING_LITERAL | Kind::WIDE_STRING_LITERAL => {
            let strings = string_literal(tokens, at, next);
            node(tree, at, strings, Rule::LITERAL)
        }
        _ => boolean_literal(tokens, tree, at),
    }
}

// Whether the kind is one of the three.
pub fn is_one_of(kind: Kind, first: Kind, second: Kind, third: Kind) -> bool
    ensures { result ≡ elem kind (first ∷ second ∷ third ∷ []) }
{
    if kind == first {
        return true;
    }
    kind == second || kind == third
}

// A rule that is one of three tokens, as (37) unary_operator: the next where it is one of them, else the first is asked for.
pub fn one_of_three(
    tokens: Tokens,
    tree: &mut [u32],
    at: Reading,
    first: Kind,
    second: Kind,
    third: Kind,
    rule: Rule,
) -> Reading
    requires { IsKind first × IsKind second × IsKind third }
    ensures { FlatFollows tokens.entry.table.now rule (one_of_three first second third) (at, tree.old) (result, tree.new) }
{
    let next = tokens.next_kind(at);
    if is_one_of(next, first, second, third) {
        let word = tokens.take(at, next);
        return node(tree, at, word, rule);
    }
    let word = tokens.take(at, first);
    node(tree, at, word, rule)
}
