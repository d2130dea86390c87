// Readers of structs and unions, and of the declarations that hold types. Type, struct, member and union readers call each
// other in a cycle; remaining depth falls at each opening mark.
#![tactic(auto)]

ghost use Rattle.std.specs.Prelude.{◌≡◌};
ghost use Rattle.readers_core.specs.Notation.{<◌>, ◌*};
ghost use Rattle.grammar.specs.Sets.{elem};
ghost use Rattle.readers_core.specs.Course.{one};
ghost use Rattle.readers_core.specs.Reading.{Reads, Within};
ghost use Rattle.readers_structs.specs.Plans.{type_starts, case_starts, struct_body, switch_block, exception_body};
ghost use Rattle.readers_structs.specs.Plans.{switch_head, union_rest, struct_dcl, union_dcl};

use grammar::Rule;
use kinds::Kind;
use readers_core::{Reading, Tokens, inner, node};
use readers_expressions::const_exp;
use readers_names::one_token;
use readers_types::{
    case_label, const_type, declarator, declarators, enum_type, simple_type_spec, switch_type_spec,
};

// Whether (44) type_spec may start with a token of the kind. Those up to the last keyword are told by one test of a bit.
#[tactic(auto, unfolding(grammar::specs::Sets::elem))]
pub fn starts_type(kind: Kind) -> bool
    ensures { result ≡ elem kind type_starts }
{
    if Kind::LAST_KEYWORD < kind {
        return kind == Kind::SCOPE;
    }
    matches!(
        kind,
        Kind::IDENTIFIER
            | Kind::OBJECT
            | Kind::VALUE_BASE
            | Kind::ANY
            | Kind::BOOLEAN
            | Kind::CHAR
            | Kind::DOUBLE
            | Kind::ENUM
            | Kind::FIXED
            | Kind::FLOAT
            | Kind::LONG
            | Kind::OCTET
            | Kind::SEQUENCE
            | Kind::SHORT
            | Kind::STRING
            | Kind::STRUCT
            | Kind::UNION
            | Kind::UNSIGNED
            | Kind::WCHAR
            | Kind::WSTRING
    )
}

// Whether (75) case may start with a token of the kind.
#[tactic(auto, unfolding(grammar::specs::Sets::elem))]
fn starts_case(kind: Kind) -> bool
    ensures { result ≡ elem kind case_starts }
{
    matches!(kind, Kind::CASE | Kind::DEFAULT)
}

// (44) type_spec
#[cycle(members)]
pub fn type_spec(tokens: Tokens, tree: &mut [u32], at: Reading, depth: u32) -> Reading
    ensures { Reads one tokens.entry.table.now depth < "type_spec" > (at, tree.old) (result, tree.new) }
{
    let next = tokens.next_kind(at);
    match next {
        Kind::STRUCT | Kind::UNION | Kind::ENUM => constr_type_spec(tokens, tree, at, depth),
        _ => simple_type_spec(tokens, tree, at, depth),
    }
}

// (48) constr_type_spec
#[cycle(members)]
fn constr_type_spec(tokens: Tokens, tree: &mut [u32], at: Reading, depth: u32) -> Reading
    ensures { Reads one tokens.entry.table.now depth < "constr_type_spec" > (at, tree.old) (result, tree.new) }
{
    let next = tokens.next_kind(at);
    match next {
        Kind::STRUCT => struct_type(tokens, tree, at, depth),
        Kind::UNION => union_type(tokens, tree, at, depth),
        _ => enum_type(tokens, tree, at, depth),
    }
}

// (69) struct_type
#[cycle(members)]
fn struct_type(tokens: Tokens, tree: &mut [u32], at: Reading, depth: u32) -> Reading
    ensures { Reads one tokens.entry.table.now depth < "struct_type" > (at, tree.old) (result, tree.new) }
{
    let word = tokens.take(at, Kind::STRUCT);
    let name = tokens.take(word, Kind::IDENTIFIER);
    let body = struct_body(tokens, tree, name, depth);
    node(tree, at, body, Rule::STRUCT_TYPE)
}

// The members of a struct between their braces.
#[cycle(members)]
fn struct_body(tokens: Tokens, tree: &mut [u32], at: Reading, depth: u32) -> Reading
    ensures { Reads one tokens.entry.table.now depth struct_body (at, tree.old) (result, tree.new) }
{
    let inside = tokens.open(at, Kind::OPEN_BRACE, depth);
    if inside.has_stopped() {
        return inside;
    }
    let members = member_list(tokens, tree, inside, depth - 1);
    tokens.take(members, Kind::CLOSE_BRACE)
}

// (70) member_list: one member alone leaves no record.
#[cycle(members)]
fn member_list(tokens: Tokens, tree: &mut [u32], at: Reading, depth: u32) -> Reading
    ensures { Reads one tokens.entry.table.now depth < "member_list" > (at, tree.old) (result, tree.new) }
{
    let first = member(tokens, tree, at, depth);
    if starts_type(tokens.next_kind(first)) {
        let last = further_members(tokens, tree, first, depth);
        return node(tree, at, last, Rule::MEMBER_LIST);
    }
    first
}

// Members, as many as there are.
#[cycle(members)]
fn further_members(tokens: Tokens, tree: &mut [u32], at: Reading, depth: u32) -> Reading
    ensures { Reads one tokens.entry.table.now depth (< "member" > *) (at, tree.old) (result, tree.new) }
{
    let mut last = at;
    while starts_type(tokens.next_kind(last)) {
        last = member(tokens, tree, last, depth);
    }
    last
}

// (71) member
#[cycle(members)]
fn member(tokens: Tokens, tree: &mut [u32], at: Reading, depth: u32) -> Reading
    ensures { Reads one tokens.entry.table.now depth < "member" > (at, tree.old) (result, tree.new) }
{
    let spec = type_spec(tokens, tree, at, depth);
    let names = declarators(tokens, tree, spec, depth);
    let end = tokens.take(names, Kind::SEMICOLON);
    node(tree, at, end, Rule::MEMBER)
}

// (72) union_type
#[cycle(members)]
fn union_type(tokens: Tokens, tree: &mut [u32], at: Reading, depth: u32) -> Reading
    ensures { Reads one tokens.entry.table.now depth < "union_type" > (at, tree.old) (result, tree.new) }
{
    let word = tokens.take(at, Kind::UNION);
    let name = tokens.take(word, Kind::IDENTIFIER);
    union_rest(tokens, tree, at, name, depth)
}

// What stands behind the name of a union that began where `start` stands.
#[cycle(members)]
fn union_rest(tokens: Tokens, tree: &mut [u32], start: Reading, at: Reading, depth: u32) -> Reading
    ensures { Within one tokens.entry.table.now depth start union_rest (at, tree.old) (result, tree.new) }
{
    let word = tokens.take(at, Kind::SWITCH);
    let head = switch_head(tokens, tree, word, depth);
    let block = switch_block(tokens, tree, head, depth);
    node(tree, start, block, Rule::UNION_TYPE)
}

// The type of a switch between its parentheses.
fn switch_head(tokens: Tokens, tree: &mut [u32], at: Reading, depth: u32) -> Reading
    ensures { Reads one tokens.entry.table.now depth switch_head (at, tree.old) (result, tree.new) }
{
    let inside = tokens.open(at, Kind::OPEN_PARENTHESIS, depth);
    let spec = switch_type_spec(tokens, tree, inside, inner(depth));
    tokens.take(spec, Kind::CLOSE_PARENTHESIS)
}

// The cases of a union between their braces.
#[cycle(members)]
fn switch_block(tokens: Tokens, tree: &mut [u32], at: Reading, depth: u32) -> Reading
    ensures { Reads one tokens.entry.table.now depth switch_block (at, tree.old) (result, tree.new) }
{
    let inside = tokens.open(at, Kind::OPEN_BRACE, depth);
    if inside.has_stopped() {
        return inside;
    }
    let cases = switch_body(tokens, tree, inside, depth - 1);
    tokens.take(cases, Kind::CLOSE_BRACE)
}

// (74) switch_body: one case alone leaves no record.
#[cycle(members)]
fn switch_body(tokens: Tokens, tree: &mut [u32], at: Reading, depth: u32) -> Reading
    ensures { Reads one tokens.entry.table.now depth < "switch_body" > (at, tree.old) (result, tree.new) }
{
    let first = case_clause(tokens, tree, at, depth);
    if starts_case(tokens.next_kind(first)) {
        let last = further_cases(tokens, tree, first, depth);
        return node(tree, at, last, Rule::SWITCH_BODY);
    }
    first
}

// Further cases, as many as there are.
#[cycle(members)]
fn further_cases(tokens: Tokens, tree: &mut [u32], at: Reading, depth: u32) -> Reading
    ensures { Reads one tokens.entry.table.now depth (< "case" > *) (at, tree.old) (result, tree.new) }
{
    let mut last = at;
    while starts_case(tokens.next_kind(last)) {
        last = case_clause(tokens, tree, last, depth);
    }
    last
}

// (75) case
#[cycle(members)]
fn case_clause(tokens: Tokens, tree: &mut [u32], at: Reading, depth: u32) -> Reading
    ensures { Reads one tokens.entry.table.now depth < "case" > (at, tree.old) (result, tree.new) }
{
    let label = case_label(tokens, tree, at, depth);
    let labels = further_labels(tokens, tree, label, depth);
    let element = element_spec(tokens, tree, labels, depth);
    let end = tokens.take(element, Kind::SEMICOLON);
    node(tree, at, end, Rule::CASE)
}

// Further labels of a case, as many as there are.
fn further_labels(tokens: Tokens, tree: &mut [u32], at: Reading, depth: u32) -> Reading
    ensures { Reads one tokens.entry.table.now depth (< "case_label" > *) (at, tree.old) (result, tree.new) }
{
    let mut last = at;
    while starts_case(tokens.next_kind(last)) {
        last = case_label(tokens, tree, last, depth);
    }
    last
}

// (77) element_spec
#[cycle(members)]
fn element_spec(tokens: Tokens, tree: &mut [u32], at: Reading, depth: u32) -> Reading
    ensures { Reads one tokens.entry.table.now depth < "element_spec" > (at, tree.old) (result, tree.new) }
{
    let spec = type_spec(tokens, tree, at, depth);
    let name = declarator(tokens, tree, spec, depth);
    node(tree, at, name, Rule::ELEMENT_SPEC)
}

// (43) type_declarator
fn type_declarator(tokens: Tokens, tree: &mut [u32], at: Reading, depth: u32) -> Reading
    ensures { Reads one tokens.entry.table.now depth < "type_declarator" > (at, tree.old) (result, tree.new) }
{
    let spec = type_spec(tokens, tree, at, depth);
    let names = declarators(tokens, tree, spec, depth);
    node(tree, at, names, Rule::TYPE_DECLARATOR)
}

// A struct declared, or only named, where a rule begins.
fn struct_dcl(tokens: Tokens, tree: &mut [u32], at: Reading, depth: u32) -> Reading
    ensures { Within one tokens.entry.table.now depth at struct_dcl (at, tree.old) (result, tree.new) }
{
    let word = tokens.take(at, Kind::STRUCT);
    let name = tokens.take(word, Kind::IDENTIFIER);
    let next = tokens.next_kind(name);
    if next == Kind::OPEN_BRACE {
        let body = struct_body(tokens, tree, name, depth);
        return node(tree, at, body, Rule::STRUCT_TYPE);
    }
    node(tree, at, name, Rule::CONSTR_FORWARD_DECL)
}

// A union declared, or only named, where a rule begins.
fn union_dcl(tokens: Tokens, tree: &mut [u32], at: Reading, depth: u32) -> Reading
    ensures { Within one tokens.entry.table.now depth at union_dcl (at, tree.old) (result, tree.new) }
{
    let word = tokens.take(at, Kind::UNION);
    let name = tokens.take(word, Kind::IDENTIFIER);
    let next = tokens.next_kind(name);
    if next == Kind::SWITCH {
        return union_rest(tokens, tree, at, name, depth);
    }
    node(tree, at, name, Rule::CONSTR_FORWARD_DECL)
}

// (42) type_dcl
pub fn type_dcl(tokens: Tokens, tree: &mut [u32], at: Reading, depth: u32) -> Reading
    ensures { Reads one tokens.entry.table.now depth < "type_dcl" > (at, tree.old) (result, tree.new) }
{
    let next = tokens.next_kind(at);
    match next {
        Kind::TYPEDEF => {
            let word = tokens.take(at, Kind::TYPEDEF);
            let types = type_declarator(tokens, tree, word, depth);
            node(tree, at, types, Rule::TYPE_DCL)
        }
        Kind::STRUCT => struct_dcl(tokens, tree, at, depth),
        Kind::UNION => union_dcl(tokens, tree, at, depth),
        Kind::ENUM => enum_type(tokens, tree, at, depth),
        _ => {
            let word = tokens.take(at, Kind::NATIVE);
            let name = one_token(
                tokens,
                tree,
                word,
                Kind::IDENTIFIER,
                Rule::SIMPLE_DECLARATOR,
            );
            node(tree, at, name, Rule::TYPE_DCL)
        }
    }
}

// The members of an exception between their braces.
fn exception_body(tokens: Tokens, tree: &mut [u32], at: Reading, depth: u32) -> Reading
    ensures { Reads one tokens.entry.table.now depth exception_body (at, tree.old) (result, tree.new) }
{
    let inside = tokens.open(at, Kind::OPEN_BRACE, depth);
    let members = further_members(tokens, tree, inside, inner(depth));
    tokens.take(members, Kind::CLOSE_BRACE)
}

// (86) except_dcl
pub fn except_dcl(tokens: Tokens, tree: &mut [u32], at: Reading, depth: u32) -> Reading
    ensures { Reads one tokens.entry.table.now depth < "except_dcl" > (at, tree.old) (result, tree.new) }
{
    let word = tokens.take(at, Kind::EXCEPTION);
    let name = tokens.take(word, Kind::IDENTIFIER);
    let body = exception_body(tokens, tree, name, depth);
    node(tree, at, body, Rule::EXCEPT_DCL)
}

// (27) const_dcl
pub fn const_dcl(tokens: Tokens, tree: &mut [u32], at: Reading, depth: u32) -> Reading
    ensures { Reads one tokens.entry.table.now depth < "const_dcl" > (at, tree.old) (result, tree.new) }
{
    let word = tokens.take(at, Kind::CONST);
    let spec = const_type(tokens, tree, word, depth);
    let name = tokens.take(spec, Kind::IDENTIFIER);
    let equals = tokens.take(name, Kind::EQUALS);
    let value = const_exp(tokens, tree, equals, depth);
    node(tree, at, value, Rule::CONST_DCL)
}
