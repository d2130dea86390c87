// Readers of whole texts: rules 1 to 3. A module holds definitions, and a definition may be a module: the depth left falls
// at the "{" of a module.
#![tactic(auto)]

ghost use Rattle.std.specs.Prelude.{◌≡◌};
ghost use Rattle.grammar.specs.Sets.{elem};
ghost use Rattle.kinds.specs.Kinds.{kind_of};
ghost use Rattle.readers_core.specs.Notation.{<◌>};
ghost use Rattle.readers_core.specs.Course.{one};
ghost use Rattle.readers_core.specs.Reading.{ahead, Reads, Within};
ghost use Rattle.readers_specification.specs.Plans.{abstract_definition, defined, definitions, definition_starts};

use grammar::Rule;
use kinds::Kind;
use readers_core::{Reading, Tokens, node};
use readers_interfaces::{interface, starts_type_dcl};
use readers_structs::{const_dcl, except_dcl, type_dcl};
use readers_values::{abstract_value, custom_value, value};

// What begins with "abstract": an interface or a value.
fn abstract_definition(
    tokens: Tokens,
    tree: &mut [u32],
    start: Reading,
    at: Reading,
    depth: u32,
) -> Reading
    ensures { Within one tokens.entry.table.now depth start abstract_definition (at, tree.old) (result, tree.new) }
{
    let word = tokens.take(at, Kind::ABSTRACT);
    let next = tokens.next_kind(word);
    match next {
        Kind::INTERFACE => interface(tokens, tree, start, word, depth),
        _ => abstract_value(tokens, tree, start, word, depth),
    }
}

// What is defined, before its ";", where it is no module.
fn other_definition(
    tokens: Tokens,
    tree: &mut [u32],
    start: Reading,
    at: Reading,
    depth: u32,
) -> Reading
    requires { ahead tokens.table.now at ≡ kind_of "module" → ⊥ }
    ensures { Within one tokens.entry.table.now depth start defined (at, tree.old) (result, tree.new) }
{
    let next = tokens.next_kind(at);
    match next {
        Kind::CONST => const_dcl(tokens, tree, at, depth),
        Kind::EXCEPTION => except_dcl(tokens, tree, at, depth),
        Kind::ABSTRACT => abstract_definition(tokens, tree, start, at, depth),
        Kind::LOCAL => {
            let word = tokens.take(at, Kind::LOCAL);
            interface(tokens, tree, start, word, depth)
        }
        Kind::INTERFACE => interface(tokens, tree, start, at, depth),
        Kind::CUSTOM => {
            let word = tokens.take(at, Kind::CUSTOM);
            custom_value(tokens, tree, start, word, depth)
        }
        Kind::VALUETYPE => value(tokens, tree, start, at, depth),
        _ => type_dcl(tokens, tree, at, depth),
    }
}

// Whether (2) definition may start with a token of the kind.
#[tactic(auto, unfolding(grammar::specs::Sets::elem))]
fn starts_definition(kind: Kind) -> bool
    ensures { result ≡ elem kind definition_starts }
{
    matches!(
        kind,
        Kind::CONST
            | Kind::EXCEPTION
            | Kind::MODULE
            | Kind::ABSTRACT
            | Kind::INTERFACE
            | Kind::LOCAL
            | Kind::CUSTOM
            | Kind::VALUETYPE
    ) || starts_type_dcl(kind)
}

// What is defined, before its ";".
#[cycle(modules)]
fn defined(tokens: Tokens, tree: &mut [u32], start: Reading, at: Reading, depth: u32) -> Reading
    ensures { Within one tokens.entry.table.now depth start defined (at, tree.old) (result, tree.new) }
{
    let next = tokens.next_kind(at);
    match next {
        Kind::MODULE => module_definition(tokens, tree, at, depth),
        _ => other_definition(tokens, tree, start, at, depth),
    }
}

// (2) definition
#[cycle(modules)]
fn definition(tokens: Tokens, tree: &mut [u32], at: Reading, depth: u32) -> Reading
    ensures { Reads one tokens.entry.table.now depth < "definition" > (at, tree.old) (result, tree.new) }
{
    let defined = defined(tokens, tree, at, at, depth);
    let mark = tokens.take(defined, Kind::SEMICOLON);
    node(tree, at, mark, Rule::DEFINITION)
}

// One or more definitions.
#[cycle(modules)]
fn definitions(tokens: Tokens, tree: &mut [u32], at: Reading, depth: u32) -> Reading
    ensures { Reads one tokens.entry.table.now depth definitions (at, tree.old) (result, tree.new) }
{
    let mut last = at;
    loop {
        last = definition(tokens, tree, last, depth);
        if !starts_definition(tokens.next_kind(last)) {
            return last;
        }
    }
}

// (3) module: its definitions are read at one level of depth less.
#[cycle(modules)]
fn module_definition(tokens: Tokens, tree: &mut [u32], at: Reading, depth: u32) -> Reading
    ensures { Reads one tokens.entry.table.now depth < "module" > (at, tree.old) (result, tree.new) }
{
    let word = tokens.take(at, Kind::MODULE);
    let name = tokens.take(word, Kind::IDENTIFIER);
    let inside = tokens.open(name, Kind::OPEN_BRACE, depth);
    if inside.has_stopped() {
        return inside;
    }
    let body = definitions(tokens, tree, inside, depth - 1);
    let mark = tokens.take(body, Kind::CLOSE_BRACE);
    node(tree, at, mark, Rule::MODULE)
}

// (1) specification
pub fn specification(tokens: Tokens, tree: &mut [u32], at: Reading, depth: u32) -> Reading
    ensures { Reads one tokens.entry.table.now depth < "specification" > (at, tree.old) (result, tree.new) }
{
    let definitions = definitions(tokens, tree, at, depth);
    node(tree, at, definitions, Rule::SPECIFICATION)
}
