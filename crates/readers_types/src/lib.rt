// Readers of types and declarators, but for structs and unions. A sequence holds a type, which may be a sequence: four readers
// call each other in a cycle, and remaining depth falls at the "<" of a sequence.
#![tactic(auto)]

ghost use Rattle.std.specs.Prelude.{◌≡◌};
ghost use Rattle.grammar.specs.Names.{rule};
ghost use Rattle.prediction.specs.plans.Plan.{call, group};
ghost use Rattle.readers_core.specs.Notation.{<◌>, ◌*};
ghost use Rattle.readers_core.specs.Course.{one};
ghost use Rattle.readers_core.specs.Reading.{IsKind, From, Reads, several};
ghost use Rattle.readers_types.specs.Plans.{IsString, string_rule, fixed_bounds, behind_name, enumerators};
ghost use Rattle.readers_types.specs.Plans.{sequence_body, sequence_bound};

use grammar::Rule;
use kinds::Kind;
use readers_core::{Part, Reading, Tokens, further, inner, list, node};
use readers_expressions::{const_exp, positive_int_const};
use readers_names::{base_type_spec, integer_type, number_type, one_token, scoped_name, word_rule};

// A positive constant between an opening mark and its closing one.
fn enclosed(
    tokens: Tokens,
    tree: &mut [u32],
    at: Reading,
    depth: u32,
    opening: Kind,
    closing: Kind,
) -> Reading
    requires { IsKind opening × IsKind closing }
    ensures { Reads one tokens.entry.table.now depth (group opening < "positive_int_const" > closing) (at, tree.old) (result, tree.new) }
{
    let inside = tokens.open(at, opening, depth);
    let constant = positive_int_const(tokens, tree, inside, inner(depth));
    tokens.take(constant, closing)
}

// The rule of a string type, by its word.
fn string_rule(kind: Kind) -> Rule
    ensures { result ≡ string_rule kind }
{
    if kind == Kind::STRING {
        return Rule::STRING_TYPE;
    }
    Rule::WIDE_STRING_TYPE
}

// (81) string_type and (82) wide_string_type: the word, and a bound or none.
pub fn string_type(tokens: Tokens, tree: &mut [u32], at: Reading, depth: u32, kind: Kind) -> Reading
    requires { IsString kind }
    ensures { Reads one tokens.entry.table.now depth (call (string_rule kind)) (at, tree.old) (result, tree.new) }
{
    let rule = string_rule(kind);
    let word = tokens.take(at, kind);
    let next = tokens.next_kind(word);
    if next == Kind::OPEN_ANGLE {
        let bound = enclosed(
            tokens,
            tree,
            word,
            depth,
            Kind::OPEN_ANGLE,
            Kind::CLOSE_ANGLE,
        );
        return node(tree, at, bound, rule);
    }
    node(tree, at, word, rule)
}

// The two bounds of a fixed-point type.
fn fixed_bounds(tokens: Tokens, tree: &mut [u32], at: Reading, depth: u32) -> Reading
    ensures { Reads one tokens.entry.table.now depth fixed_bounds (at, tree.old) (result, tree.new) }
{
    let below = inner(depth);
    let inside = tokens.open(at, Kind::OPEN_ANGLE, depth);
    let digits = positive_int_const(tokens, tree, inside, below);
    let comma = tokens.take(digits, Kind::COMMA);
    let scale = positive_int_const(tokens, tree, comma, below);
    tokens.take(scale, Kind::CLOSE_ANGLE)
}

// (96) fixed_pt_type
fn fixed_pt_type(tokens: Tokens, tree: &mut [u32], at: Reading, depth: u32) -> Reading
    ensures { Reads one tokens.entry.table.now depth < "fixed_pt_type" > (at, tree.old) (result, tree.new) }
{
    let word = tokens.take(at, Kind::FIXED);
    let bounds = fixed_bounds(tokens, tree, word, depth);
    node(tree, at, bounds, Rule::FIXED_PT_TYPE)
}

// (84) fixed_array_size: apart, since most declarators have none.
#[inline(never)]
fn fixed_array_size(tokens: Tokens, tree: &mut [u32], at: Reading, depth: u32) -> Reading
    ensures { Reads one tokens.entry.table.now depth < "fixed_array_size" > (at, tree.old) (result, tree.new) }
{
    let size = enclosed(
        tokens,
        tree,
        at,
        depth,
        Kind::OPEN_BRACKET,
        Kind::CLOSE_BRACKET,
    );
    node(tree, at, size, Rule::FIXED_ARRAY_SIZE)
}

// Further sizes of an array.
fn further_sizes(tokens: Tokens, tree: &mut [u32], at: Reading, depth: u32) -> Reading
    ensures { Reads one tokens.entry.table.now depth (< "fixed_array_size" > *) (at, tree.old) (result, tree.new) }
{
    let mut sizes = at;
    while tokens.next_kind(sizes) == Kind::OPEN_BRACKET {
        sizes = fixed_array_size(tokens, tree, sizes, depth);
    }
    sizes
}

// Behind the name of a declarator: array sizes or nothing.
fn behind_name(tokens: Tokens, tree: &mut [u32], start: Reading, at: Reading, depth: u32) -> Reading
    ensures { From one tokens.entry.table.now depth start several behind_name (at, tree.old) (result, tree.new) }
{
    let next = tokens.next_kind(at);
    if next == Kind::OPEN_BRACKET {
        let size = fixed_array_size(tokens, tree, at, depth);
        let sizes = further_sizes(tokens, tree, size, depth);
        return node(tree, start, sizes, Rule::ARRAY_DECLARATOR);
    }
    node(tree, start, at, Rule::SIMPLE_DECLARATOR)
}

// (50) declarator
pub fn declarator(tokens: Tokens, tree: &mut [u32], at: Reading, depth: u32) -> Reading
    ensures { Reads one tokens.entry.table.now depth < "declarator" > (at, tree.old) (result, tree.new) }
{
    let name = tokens.take(at, Kind::IDENTIFIER);
    behind_name(tokens, tree, at, name, depth)
}

// (50) declarator, in a list.
struct Declared;

impl Part for Declared {
    ghost rule = { rule "declarator" };

    fn read(tokens: Tokens, tree: &mut [u32], at: Reading, depth: u32) -> Reading {
        declarator(tokens, tree, at, depth)
    }
}

// (79) enumerator
struct Enumerated;

impl Part for Enumerated {
    ghost rule = { rule "enumerator" };

    fn read(tokens: Tokens, tree: &mut [u32], at: Reading, _depth: u32) -> Reading {
        one_token(tokens, tree, at, Kind::IDENTIFIER, Rule::ENUMERATOR)
    }
}

// (49) declarators: one alone leaves no record.
pub fn declarators(tokens: Tokens, tree: &mut [u32], at: Reading, depth: u32) -> Reading
    ensures { Reads one tokens.entry.table.now depth < "declarators" > (at, tree.old) (result, tree.new) }
{
    let first = declarator(tokens, tree, at, depth);
    let next = tokens.next_kind(first);
    if next == Kind::COMMA {
        let more = further::<Declared>(tokens, tree, first, depth);
        return node(tree, at, more, Rule::DECLARATORS);
    }
    first
}

// The enumerators between their braces.
fn enumerators(tokens: Tokens, tree: &mut [u32], at: Reading, depth: u32) -> Reading
    ensures { Reads one tokens.entry.table.now depth enumerators (at, tree.old) (result, tree.new) }
{
    let inside = tokens.open(at, Kind::OPEN_BRACE, depth);
    let listed = list::<Enumerated>(tokens, tree, inside, inner(depth));
    tokens.take(listed, Kind::CLOSE_BRACE)
}

// (78) enum_type
pub fn enum_type(tokens: Tokens, tree: &mut [u32], at: Reading, depth: u32) -> Reading
    ensures { Reads one tokens.entry.table.now depth < "enum_type" > (at, tree.old) (result, tree.new) }
{
    let word = tokens.take(at, Kind::ENUM);
    let name = tokens.take(word, Kind::IDENTIFIER);
    let body = enumerators(tokens, tree, name, depth);
    node(tree, at, body, Rule::ENUM_TYPE)
}

// (95) param_type_spec
pub fn param_type_spec(tokens: Tokens, tree: &mut [u32], at: Reading, depth: u32) -> Reading
    ensures { Reads one tokens.entry.table.now depth < "param_type_spec" > (at, tree.old) (result, tree.new) }
{
    let next = tokens.next_kind(at);
    match next {
        Kind::STRING | Kind::WSTRING => string_type(tokens, tree, at, depth, next),
        Kind::IDENTIFIER | Kind::SCOPE => scoped_name(tokens, tree, at),
        _ => base_type_spec(tokens, tree, at),
    }
}

// (28) const_type
pub fn const_type(tokens: Tokens, tree: &mut [u32], at: Reading, depth: u32) -> Reading
    ensures { Reads one tokens.entry.table.now depth < "const_type" > (at, tree.old) (result, tree.new) }
{
    let next = tokens.next_kind(at);
    match next {
        Kind::LONG | Kind::FLOAT | Kind::DOUBLE | Kind::SHORT | Kind::UNSIGNED => number_type(
            tokens, tree, at,
        ),
        Kind::CHAR | Kind::WCHAR | Kind::BOOLEAN | Kind::OCTET | Kind::FIXED => one_token(
            tokens,
            tree,
            at,
            next,
            word_rule(next),
        ),
        Kind::STRING | Kind::WSTRING => string_type(tokens, tree, at, depth, next),
        _ => scoped_name(tokens, tree, at),
    }
}

// (73) switch_type_spec
pub fn switch_type_spec(tokens: Tokens, tree: &mut [u32], at: Reading, depth: u32) -> Reading
    ensures { Reads one tokens.entry.table.now depth < "switch_type_spec" > (at, tree.old) (result, tree.new) }
{
    let next = tokens.next_kind(at);
    match next {
        Kind::LONG | Kind::SHORT | Kind::UNSIGNED => integer_type(tokens, tree, at),
        Kind::CHAR | Kind::BOOLEAN => one_token(tokens, tree, at, next, word_rule(next)),
        Kind::ENUM => enum_type(tokens, tree, at, depth),
        _ => scoped_name(tokens, tree, at),
    }
}

// (76) case_label
pub fn case_label(tokens: Tokens, tree: &mut [u32], at: Reading, depth: u32) -> Reading
    ensures { Reads one tokens.entry.table.now depth < "case_label" > (at, tree.old) (result, tree.new) }
{
    let next = tokens.next_kind(at);
    if next == Kind::CASE {
        let word = tokens.take(at, Kind::CASE);
        let value = const_exp(tokens, tree, word, depth);
        let label = tokens.take(value, Kind::COLON);
        return node(tree, at, label, Rule::CASE_LABEL);
    }
    let word = tokens.take(at, Kind::DEFAULT);
    let label = tokens.take(word, Kind::COLON);
    node(tree, at, label, Rule::CASE_LABEL)
}

// The bound of a sequence, behind a comma, or none.
fn sequence_bound(tokens: Tokens, tree: &mut [u32], at: Reading, depth: u32) -> Reading
    ensures { Reads one tokens.entry.table.now depth sequence_bound (at, tree.old) (result, tree.new) }
{
    let next = tokens.next_kind(at);
    if next == Kind::COMMA {
        let comma = tokens.take(at, Kind::COMMA);
        return positive_int_const(tokens, tree, comma, depth);
    }
    at
}

// What a sequence has between its angle brackets.
#[cycle(sequences)]
fn sequence_body(tokens: Tokens, tree: &mut [u32], at: Reading, depth: u32) -> Reading
    ensures { Reads one tokens.entry.table.now depth sequence_body (at, tree.old) (result, tree.new) }
{
    let inside = tokens.open(at, Kind::OPEN_ANGLE, depth);
    if inside.has_stopped() {
        return inside;
    }
    let element = simple_type_spec(tokens, tree, inside, depth - 1);
    let bound = sequence_bound(tokens, tree, element, depth - 1);
    tokens.take(bound, Kind::CLOSE_ANGLE)
}

// (80) sequence_type
#[cycle(sequences)]
fn sequence_type(tokens: Tokens, tree: &mut [u32], at: Reading, depth: u32) -> Reading
    ensures { Reads one tokens.entry.table.now depth < "sequence_type" > (at, tree.old) (result, tree.new) }
{
    let word = tokens.take(at, Kind::SEQUENCE);
    let body = sequence_body(tokens, tree, word, depth);
    node(tree, at, body, Rule::SEQUENCE_TYPE)
}

// (47) template_type_spec
#[cycle(sequences)]
fn template_type_spec(tokens: Tokens, tree: &mut [u32], at: Reading, depth: u32) -> Reading
    ensures { Reads one tokens.entry.table.now depth < "template_type_spec" > (at, tree.old) (result, tree.new) }
{
    let next = tokens.next_kind(at);
    match next {
        Kind::SEQUENCE => sequence_type(tokens, tree, at, depth),
        Kind::STRING | Kind::WSTRING => string_type(tokens, tree, at, depth, next),
        _ => fixed_pt_type(tokens, tree, at, depth),
    }
}

// (45) simple_type_spec
#[cycle(sequences)]
pub fn simple_type_spec(tokens: Tokens, tree: &mut [u32], at: Reading, depth: u32) -> Reading
    ensures { Reads one tokens.entry.table.now depth < "simple_type_spec" > (at, tree.old) (result, tree.new) }
{
    let next = tokens.next_kind(at);
    match next {
        Kind::SEQUENCE | Kind::STRING | Kind::WSTRING | Kind::FIXED => template_type_spec(
            tokens, tree, at, depth,
        ),
        Kind::IDENTIFIER | Kind::SCOPE => scoped_name(tokens, tree, at),
        _ => base_type_spec(tokens, tree, at),
    }
}
