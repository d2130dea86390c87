// Readers of interfaces: rules 4 to 11. Rules 4 to 7 share their beginning with other definitions, so they are read
// from "interface" on, in the frame of the definition, which begins at `start`.
#![tactic(auto)]

ghost use Rattle.std.specs.Prelude.{◌≡◌};
ghost use Rattle.grammar.specs.Sets.{elem};
ghost use Rattle.readers_core.specs.Notation.{<◌>, ◌*};
ghost use Rattle.readers_core.specs.Course.{one};
ghost use Rattle.readers_core.specs.Reading.{Flat, Reads, Within};
ghost use Rattle.readers_interfaces.specs.Plans.{ReadsNames, optional_bases, exported, interface_rest};
ghost use Rattle.readers_interfaces.specs.Plans.{type_dcl_starts, export_starts};

use grammar::Rule;
use kinds::Kind;
use readers_core::{Reading, Tokens, inner, node};
use readers_names::scoped_name;
use readers_operations::{attr_dcl, op_dcl};
use readers_structs::{const_dcl, except_dcl, type_dcl};

// One or more of (11) interface_name or (20) value_name, with commas between them: a scoped name each, and no record more.
pub fn scoped_names(tokens: Tokens, tree: &mut [u32], at: Reading) -> Reading
    ensures { ReadsNames tokens.entry.table.now (at, tree.old) (result, tree.new) }
{
    let mut names = scoped_name(tokens, tree, at);
    while tokens.next_kind(names) == Kind::COMMA {
        let comma = tokens.take(names, Kind::COMMA);
        names = scoped_name(tokens, tree, comma);
    }
    names
}

// (10) interface_inheritance_spec
fn interface_inheritance_spec(tokens: Tokens, tree: &mut [u32], at: Reading) -> Reading
    ensures { Flat one tokens.entry.table.now < "interface_inheritance_spec" > (at, tree.old) (result, tree.new) }
{
    let colon = tokens.take(at, Kind::COLON);
    let names = scoped_names(tokens, tree, colon);
    node(tree, at, names, Rule::INTERFACE_INHERITANCE_SPEC)
}

// The bases of an interface, if any.
fn bases(tokens: Tokens, tree: &mut [u32], at: Reading) -> Reading
    ensures { Flat one tokens.entry.table.now optional_bases (at, tree.old) (result, tree.new) }
{
    let next = tokens.next_kind(at);
    match next {
        Kind::COLON => interface_inheritance_spec(tokens, tree, at),
        _ => at,
    }
}

// Whether (42) type_dcl may start with a token of the kind.
#[tactic(auto, unfolding(grammar::specs::Sets::elem))]
pub fn starts_type_dcl(kind: Kind) -> bool
    ensures { result ≡ elem kind type_dcl_starts }
{
    matches!(
        kind,
        Kind::TYPEDEF | Kind::STRUCT | Kind::UNION | Kind::ENUM | Kind::NATIVE
    )
}

// Whether (9) export may start with a token of the kind. Those up to the last keyword are told by one test of a bit.
#[tactic(auto, unfolding(grammar::specs::Sets::elem))]
pub fn starts_export(kind: Kind) -> bool
    ensures { result ≡ elem kind export_starts }
{
    if Kind::LAST_KEYWORD < kind {
        return kind == Kind::SCOPE;
    }
    matches!(
        kind,
        Kind::TYPEDEF
            | Kind::STRUCT
            | Kind::UNION
            | Kind::ENUM
            | Kind::NATIVE
            | Kind::CONST
            | Kind::EXCEPTION
            | Kind::READONLY
            | Kind::ATTRIBUTE
            | Kind::ONEWAY
            | Kind::VOID
            | Kind::STRING
            | Kind::WSTRING
            | Kind::IDENTIFIER
            | Kind::FLOAT
            | Kind::DOUBLE
            | Kind::LONG
            | Kind::SHORT
            | Kind::UNSIGNED
            | Kind::CHAR
            | Kind::WCHAR
            | Kind::BOOLEAN
            | Kind::OCTET
            | Kind::ANY
            | Kind::OBJECT
            | Kind::VALUE_BASE
    )
}

// What is exported, with its ";".
fn exported(tokens: Tokens, tree: &mut [u32], at: Reading, depth: u32) -> Reading
    ensures { Reads one tokens.entry.table.now depth exported (at, tree.old) (result, tree.new) }
{
    let next = tokens.next_kind(at);
    if starts_type_dcl(next) {
        let declaration = type_dcl(tokens, tree, at, depth);
        return tokens.take(declaration, Kind::SEMICOLON);
    }
    match next {
        Kind::CONST => {
            let declaration = const_dcl(tokens, tree, at, depth);
            tokens.take(declaration, Kind::SEMICOLON)
        }
        Kind::EXCEPTION => {
            let declaration = except_dcl(tokens, tree, at, depth);
            tokens.take(declaration, Kind::SEMICOLON)
        }
        Kind::READONLY | Kind::ATTRIBUTE => {
            let declaration = attr_dcl(tokens, tree, at, depth);
            tokens.take(declaration, Kind::SEMICOLON)
        }
        _ => {
            let declaration = op_dcl(tokens, tree, at, depth);
            tokens.take(declaration, Kind::SEMICOLON)
        }
    }
}

// (9) export
pub fn export(tokens: Tokens, tree: &mut [u32], at: Reading, depth: u32) -> Reading
    ensures { Reads one tokens.entry.table.now depth < "export" > (at, tree.old) (result, tree.new) }
{
    let exported = exported(tokens, tree, at, depth);
    node(tree, at, exported, Rule::EXPORT)
}

// Exports, as many as there are.
pub fn exports(tokens: Tokens, tree: &mut [u32], at: Reading, depth: u32) -> Reading
    ensures { Reads one tokens.entry.table.now depth (< "export" > *) (at, tree.old) (result, tree.new) }
{
    let mut read = at;
    while starts_export(tokens.next_kind(read)) {
        read = export(tokens, tree, read, depth);
    }
    read
}

// (8) interface_body
fn interface_body(tokens: Tokens, tree: &mut [u32], at: Reading, depth: u32) -> Reading
    ensures { Reads one tokens.entry.table.now depth < "interface_body" > (at, tree.old) (result, tree.new) }
{
    let exports = exports(tokens, tree, at, depth);
    node(tree, at, exports, Rule::INTERFACE_BODY)
}

// (4) interface, from "interface" on: (5) interface_dcl, whose (7) interface_header ends behind its bases, or
// (6) forward_dcl.
pub fn interface(
    tokens: Tokens,
    tree: &mut [u32],
    start: Reading,
    at: Reading,
    depth: u32,
) -> Reading
    ensures { Within one tokens.entry.table.now depth start interface_rest (at, tree.old) (result, tree.new) }
{
    let word = tokens.take(at, Kind::INTERFACE);
    let name = tokens.take(word, Kind::IDENTIFIER);
    let next = tokens.next_kind(name);
    match next {
        Kind::COLON | Kind::OPEN_BRACE => {
            let bases = bases(tokens, tree, name);
            let header = node(tree, start, bases, Rule::INTERFACE_HEADER);
            let inside = tokens.open(header, Kind::OPEN_BRACE, depth);
            let body = interface_body(tokens, tree, inside, inner(depth));
            let whole = tokens.take(body, Kind::CLOSE_BRACE);
            node(tree, start, whole, Rule::INTERFACE_DCL)
        }
        _ => node(tree, start, name, Rule::FORWARD_DCL),
    }
}
