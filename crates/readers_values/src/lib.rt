// Readers of values: rules 13 to 23. Rules 13 to 18 share their beginning with other definitions, so they are read
// from "valuetype" on, in the frame of the definition, which begins at `start`.
#![tactic(auto)]

ghost use Rattle.std.specs.Prelude.{◌≡◌};
ghost use Rattle.grammar.specs.Sets.{elem};
ghost use Rattle.grammar.specs.Names.{rule};
ghost use Rattle.readers_core.specs.Notation.{<◌>, ◌*};
ghost use Rattle.readers_core.specs.Course.{one};
ghost use Rattle.readers_core.specs.Reading.{Takes, Flat, From, Reads, Within, several};
ghost use Rattle.readers_values.specs.Plans.{supports, optional_supports, optional_truncatable, inherits, optional_bases};
ghost use Rattle.readers_values.specs.Plans.{visibility, optional_parameters, element_starts, value_body, behind_name};
ghost use Rattle.readers_values.specs.Plans.{value_rest, custom_rest, abstract_rest};

use grammar::Rule;
use kinds::Kind;
use readers_core::{Reading, Tokens, inner, node};
use readers_interfaces::{export, exports, scoped_names, starts_export};
use readers_operations::init_param_decls;
use readers_structs::{starts_type, type_spec};
use readers_types::declarators;

// "supports" and interfaces.
fn supports(tokens: Tokens, tree: &mut [u32], at: Reading) -> Reading
    ensures { Flat one tokens.entry.table.now supports (at, tree.old) (result, tree.new) }
{
    let word = tokens.take(at, Kind::SUPPORTS);
    scoped_names(tokens, tree, word)
}

// The interfaces that a value supports, if any.
fn supported(tokens: Tokens, tree: &mut [u32], at: Reading) -> Reading
    ensures { Flat one tokens.entry.table.now optional_supports (at, tree.old) (result, tree.new) }
{
    let next = tokens.next_kind(at);
    match next {
        Kind::SUPPORTS => supports(tokens, tree, at),
        _ => at,
    }
}

// "truncatable" or nothing.
fn truncatable(tokens: Tokens, at: Reading) -> Reading
    ensures { Takes tokens.entry.table.now optional_truncatable at result }
{
    let next = tokens.next_kind(at);
    match next {
        Kind::TRUNCATABLE => tokens.take(at, Kind::TRUNCATABLE),
        _ => at,
    }
}

// ":" and values, and the interfaces that are supported besides.
fn inherits(tokens: Tokens, tree: &mut [u32], at: Reading) -> Reading
    ensures { Flat one tokens.entry.table.now inherits (at, tree.old) (result, tree.new) }
{
    let colon = tokens.take(at, Kind::COLON);
    let word = truncatable(tokens, colon);
    let names = scoped_names(tokens, tree, word);
    supported(tokens, tree, names)
}

// (19) value_inheritance_spec
fn value_inheritance_spec(tokens: Tokens, tree: &mut [u32], at: Reading) -> Reading
    ensures { Flat one tokens.entry.table.now < "value_inheritance_spec" > (at, tree.old) (result, tree.new) }
{
    let next = tokens.next_kind(at);
    match next {
        Kind::COLON => {
            let bases = inherits(tokens, tree, at);
            node(tree, at, bases, Rule::VALUE_INHERITANCE_SPEC)
        }
        _ => {
            let bases = supports(tokens, tree, at);
            node(tree, at, bases, Rule::VALUE_INHERITANCE_SPEC)
        }
    }
}

// The bases of a value, if any: without them rule 19 is not used.
fn bases(tokens: Tokens, tree: &mut [u32], at: Reading) -> Reading
    ensures { Flat one tokens.entry.table.now optional_bases (at, tree.old) (result, tree.new) }
{
    let next = tokens.next_kind(at);
    match next {
        Kind::COLON | Kind::SUPPORTS => value_inheritance_spec(tokens, tree, at),
        _ => at,
    }
}

// "public" or "private".
fn visibility(tokens: Tokens, at: Reading) -> Reading
    ensures { Takes tokens.entry.table.now visibility at result }
{
    let next = tokens.next_kind(at);
    match next {
        Kind::PUBLIC => tokens.take(at, Kind::PUBLIC),
        _ => tokens.take(at, Kind::PRIVATE),
    }
}

// (22) state_member
fn state_member(tokens: Tokens, tree: &mut [u32], at: Reading, depth: u32) -> Reading
    ensures { Reads one tokens.entry.table.now depth < "state_member" > (at, tree.old) (result, tree.new) }
{
    let word = visibility(tokens, at);
    let spec = type_spec(tokens, tree, word, depth);
    let names = declarators(tokens, tree, spec, depth);
    let end = tokens.take(names, Kind::SEMICOLON);
    node(tree, at, end, Rule::STATE_MEMBER)
}

// Parameters, if any.
fn parameters(tokens: Tokens, tree: &mut [u32], at: Reading, depth: u32) -> Reading
    ensures { Reads one tokens.entry.table.now depth optional_parameters (at, tree.old) (result, tree.new) }
{
    let next = tokens.next_kind(at);
    match next {
        Kind::IN => init_param_decls(tokens, tree, at, depth),
        _ => at,
    }
}

// (23) init_dcl
fn init_dcl(tokens: Tokens, tree: &mut [u32], at: Reading, depth: u32) -> Reading
    ensures { Reads one tokens.entry.table.now depth < "init_dcl" > (at, tree.old) (result, tree.new) }
{
    let word = tokens.take(at, Kind::FACTORY);
    let name = tokens.take(word, Kind::IDENTIFIER);
    let inside = tokens.open(name, Kind::OPEN_PARENTHESIS, depth);
    let parameters = parameters(tokens, tree, inside, inner(depth));
    let closed = tokens.take(parameters, Kind::CLOSE_PARENTHESIS);
    let end = tokens.take(closed, Kind::SEMICOLON);
    node(tree, at, end, Rule::INIT_DCL)
}

// (21) value_element
fn value_element(tokens: Tokens, tree: &mut [u32], at: Reading, depth: u32) -> Reading
    ensures { Reads one tokens.entry.table.now depth < "value_element" > (at, tree.old) (result, tree.new) }
{
    let next = tokens.next_kind(at);
    match next {
        Kind::PUBLIC | Kind::PRIVATE => state_member(tokens, tree, at, depth),
        Kind::FACTORY => init_dcl(tokens, tree, at, depth),
        _ => export(tokens, tree, at, depth),
    }
}

// Whether (21) value_element may start with a token of the kind.
#[tactic(auto, unfolding(grammar::specs::Sets::elem))]
fn starts_element(kind: Kind) -> bool
    ensures { result ≡ elem kind element_starts }
{
    matches!(kind, Kind::PUBLIC | Kind::PRIVATE | Kind::FACTORY) || starts_export(kind)
}

// Elements of a value, as many as there are.
fn elements(tokens: Tokens, tree: &mut [u32], at: Reading, depth: u32) -> Reading
    ensures { Reads one tokens.entry.table.now depth (< "value_element" > *) (at, tree.old) (result, tree.new) }
{
    let mut read = at;
    while starts_element(tokens.next_kind(read)) {
        read = value_element(tokens, tree, read, depth);
    }
    read
}

// Behind the name: the end of (18) value_header and the body of (17) value_dcl.
fn value_dcl(tokens: Tokens, tree: &mut [u32], start: Reading, at: Reading, depth: u32) -> Reading
    ensures { From one tokens.entry.table.now depth start several value_body (at, tree.old) (result, tree.new) }
{
    let bases = bases(tokens, tree, at);
    let header = node(tree, start, bases, Rule::VALUE_HEADER);
    let inside = tokens.open(header, Kind::OPEN_BRACE, depth);
    let elements = elements(tokens, tree, inside, inner(depth));
    let whole = tokens.take(elements, Kind::CLOSE_BRACE);
    node(tree, start, whole, Rule::VALUE_DCL)
}

// Behind the name: (15) value_box_dcl, (17) value_dcl or (14) value_forward_dcl.
fn behind_name(tokens: Tokens, tree: &mut [u32], start: Reading, at: Reading, depth: u32) -> Reading
    ensures { From one tokens.entry.table.now depth start several behind_name (at, tree.old) (result, tree.new) }
{
    let next = tokens.next_kind(at);
    if starts_type(next) {
        let boxed = type_spec(tokens, tree, at, depth);
        return node(tree, start, boxed, Rule::VALUE_BOX_DCL);
    }
    match next {
        Kind::COLON | Kind::SUPPORTS | Kind::OPEN_BRACE => value_dcl(
            tokens, tree, start, at, depth,
        ),
        _ => node(tree, start, at, Rule::VALUE_FORWARD_DCL),
    }
}

// (13) value, from "valuetype" on.
pub fn value(tokens: Tokens, tree: &mut [u32], start: Reading, at: Reading, depth: u32) -> Reading
    ensures { Within one tokens.entry.table.now depth start value_rest (at, tree.old) (result, tree.new) }
{
    let word = tokens.take(at, Kind::VALUETYPE);
    let name = tokens.take(word, Kind::IDENTIFIER);
    behind_name(tokens, tree, start, name, depth)
}

// (13) value, behind "custom": one with a body.
pub fn custom_value(
    tokens: Tokens,
    tree: &mut [u32],
    start: Reading,
    at: Reading,
    depth: u32,
) -> Reading
    ensures { Within one tokens.entry.table.now depth start custom_rest (at, tree.old) (result, tree.new) }
{
    let word = tokens.take(at, Kind::VALUETYPE);
    let name = tokens.take(word, Kind::IDENTIFIER);
    value_dcl(tokens, tree, start, name, depth)
}

// (13) value, behind "abstract": (16) value_abs_dcl or (14) value_forward_dcl.
pub fn abstract_value(
    tokens: Tokens,
    tree: &mut [u32],
    start: Reading,
    at: Reading,
    depth: u32,
) -> Reading
    ensures { Within one tokens.entry.table.now depth start abstract_rest (at, tree.old) (result, tree.new) }
{
    let word = tokens.take(at, Kind::VALUETYPE);
    let name = tokens.take(word, Kind::IDENTIFIER);
    let next = tokens.next_kind(name);
    match next {
        Kind::COLON | Kind::SUPPORTS | Kind::OPEN_BRACE => {
            let bases = bases(tokens, tree, name);
            let inside = tokens.open(bases, Kind::OPEN_BRACE, depth);
            let exports = exports(tokens, tree, inside, inner(depth));
            let whole = tokens.take(exports, Kind::CLOSE_BRACE);
            node(tree, start, whole, Rule::VALUE_ABS_DCL)
        }
        _ => node(tree, start, name, Rule::VALUE_FORWARD_DCL),
    }
}
