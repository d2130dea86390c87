// Readers of operations and attributes, and of the parameters of initializers.
#![tactic(auto)]

ghost use Rattle.grammar.specs.Names.{rule};
ghost use Rattle.readers_core.specs.Notation.{<◌>};
ghost use Rattle.readers_core.specs.Course.{one};
ghost use Rattle.readers_core.specs.Reading.{Flat, Reads, Takes};
ghost use Rattle.readers_operations.specs.Plans.{further_strings, optional_parameters};
ghost use Rattle.readers_operations.specs.Plans.{optional_raises, optional_context, optional_oneway};
ghost use Rattle.readers_operations.specs.Plans.{optional_readonly};

use grammar::Rule;
use kinds::Kind;
use readers_core::{Part, Reading, Tokens, further, inner, list, node};
use readers_names::{is_one_of, one_of_three, one_token, scoped_name, string_literal};
use readers_types::param_type_spec;

// (89) op_type_spec
fn op_type_spec(tokens: Tokens, tree: &mut [u32], at: Reading, depth: u32) -> Reading
    ensures { Reads one tokens.entry.table.now depth < "op_type_spec" > (at, tree.old) (result, tree.new) }
{
    let next = tokens.next_kind(at);
    if next == Kind::VOID {
        let word = tokens.take(at, Kind::VOID);
        return node(tree, at, word, Rule::OP_TYPE_SPEC);
    }
    param_type_spec(tokens, tree, at, depth)
}

// (91) param_dcl, with its (92) param_attribute
fn param_dcl(tokens: Tokens, tree: &mut [u32], at: Reading, depth: u32) -> Reading
    ensures { Reads one tokens.entry.table.now depth < "param_dcl" > (at, tree.old) (result, tree.new) }
{
    let direction = one_of_three(
        tokens,
        tree,
        at,
        Kind::IN,
        Kind::OUT,
        Kind::INOUT,
        Rule::PARAM_ATTRIBUTE,
    );
    let spec = param_type_spec(tokens, tree, direction, depth);
    let name = one_token(
        tokens,
        tree,
        spec,
        Kind::IDENTIFIER,
        Rule::SIMPLE_DECLARATOR,
    );
    node(tree, at, name, Rule::PARAM_DCL)
}

// (25) init_param_decl; (26) init_param_attribute and (51) simple_declarator are one token each.
fn init_param_decl(tokens: Tokens, tree: &mut [u32], at: Reading, depth: u32) -> Reading
    ensures { Reads one tokens.entry.table.now depth < "init_param_decl" > (at, tree.old) (result, tree.new) }
{
    let word = one_token(tokens, tree, at, Kind::IN, Rule::INIT_PARAM_ATTRIBUTE);
    let spec = param_type_spec(tokens, tree, word, depth);
    let name = one_token(
        tokens,
        tree,
        spec,
        Kind::IDENTIFIER,
        Rule::SIMPLE_DECLARATOR,
    );
    node(tree, at, name, Rule::INIT_PARAM_DECL)
}

// (12) scoped_name, in a list.
struct Named;

impl Part for Named {
    ghost rule = { rule "scoped_name" };

    fn read(tokens: Tokens, tree: &mut [u32], at: Reading, _depth: u32) -> Reading {
        scoped_name(tokens, tree, at)
    }
}

// (51) simple_declarator
struct Declared;

impl Part for Declared {
    ghost rule = { rule "simple_declarator" };

    fn read(tokens: Tokens, tree: &mut [u32], at: Reading, _depth: u32) -> Reading {
        one_token(tokens, tree, at, Kind::IDENTIFIER, Rule::SIMPLE_DECLARATOR)
    }
}

// (91) param_dcl
struct Parameter;

impl Part for Parameter {
    ghost rule = { rule "param_dcl" };

    fn read(tokens: Tokens, tree: &mut [u32], at: Reading, depth: u32) -> Reading {
        param_dcl(tokens, tree, at, depth)
    }
}

// (25) init_param_decl
struct Initial;

impl Part for Initial {
    ghost rule = { rule "init_param_decl" };

    fn read(tokens: Tokens, tree: &mut [u32], at: Reading, depth: u32) -> Reading {
        init_param_decl(tokens, tree, at, depth)
    }
}

// (24) init_param_decls: one alone leaves no record.
pub fn init_param_decls(tokens: Tokens, tree: &mut [u32], at: Reading, depth: u32) -> Reading
    ensures { Reads one tokens.entry.table.now depth < "init_param_decls" > (at, tree.old) (result, tree.new) }
{
    let first = init_param_decl(tokens, tree, at, depth);
    let next = tokens.next_kind(first);
    if next == Kind::COMMA {
        let listed = further::<Initial>(tokens, tree, first, depth);
        return node(tree, at, listed, Rule::INIT_PARAM_DECLS);
    }
    first
}

// Parameters, if any.
fn parameters(tokens: Tokens, tree: &mut [u32], at: Reading, depth: u32) -> Reading
    ensures { Reads one tokens.entry.table.now depth optional_parameters (at, tree.old) (result, tree.new) }
{
    let next = tokens.next_kind(at);
    if is_one_of(next, Kind::IN, Kind::OUT, Kind::INOUT) {
        return list::<Parameter>(tokens, tree, at, depth);
    }
    at
}

// (90) parameter_dcls
fn parameter_dcls(tokens: Tokens, tree: &mut [u32], at: Reading, depth: u32) -> Reading
    ensures { Reads one tokens.entry.table.now depth < "parameter_dcls" > (at, tree.old) (result, tree.new) }
{
    let inside = tokens.open(at, Kind::OPEN_PARENTHESIS, depth);
    let listed = parameters(tokens, tree, inside, inner(depth));
    let closed = tokens.take(listed, Kind::CLOSE_PARENTHESIS);
    node(tree, at, closed, Rule::PARAMETER_DCLS)
}

// (93) raises_expr, or nothing.
fn raises(tokens: Tokens, tree: &mut [u32], at: Reading, depth: u32) -> Reading
    ensures { Reads one tokens.entry.table.now depth optional_raises (at, tree.old) (result, tree.new) }
{
    let next = tokens.next_kind(at);
    if next == Kind::RAISES {
        let word = tokens.take(at, Kind::RAISES);
        let inside = tokens.open(word, Kind::OPEN_PARENTHESIS, depth);
        let names = list::<Named>(tokens, tree, inside, inner(depth));
        let closed = tokens.take(names, Kind::CLOSE_PARENTHESIS);
        return node(tree, at, closed, Rule::RAISES_EXPR);
    }
    at
}

// String literals, each behind a comma.
fn further_strings(tokens: Tokens, at: Reading) -> Reading
    ensures { Takes tokens.entry.table.now further_strings at result }
{
    let mut listed = at;
    while tokens.next_kind(listed) == Kind::COMMA {
        let comma = tokens.take(listed, Kind::COMMA);
        listed = string_literal(tokens, comma, Kind::STRING_LITERAL);
    }
    listed
}

// (94) context_expr, or nothing.
fn context(tokens: Tokens, tree: &mut [u32], at: Reading, depth: u32) -> Reading
    ensures { Reads one tokens.entry.table.now depth optional_context (at, tree.old) (result, tree.new) }
{
    let next = tokens.next_kind(at);
    if next == Kind::CONTEXT {
        let word = tokens.take(at, Kind::CONTEXT);
        let inside = tokens.open(word, Kind::OPEN_PARENTHESIS, depth);
        let first = string_literal(tokens, inside, Kind::STRING_LITERAL);
        let listed = further_strings(tokens, first);
        let closed = tokens.take(listed, Kind::CLOSE_PARENTHESIS);
        return node(tree, at, closed, Rule::CONTEXT_EXPR);
    }
    at
}

// (88) op_attribute, or nothing.
fn oneway(tokens: Tokens, tree: &mut [u32], at: Reading) -> Reading
    ensures { Flat one tokens.entry.table.now optional_oneway (at, tree.old) (result, tree.new) }
{
    let next = tokens.next_kind(at);
    if next == Kind::ONEWAY {
        return one_token(tokens, tree, at, Kind::ONEWAY, Rule::OP_ATTRIBUTE);
    }
    at
}

// (87) op_dcl
pub fn op_dcl(tokens: Tokens, tree: &mut [u32], at: Reading, depth: u32) -> Reading
    ensures { Reads one tokens.entry.table.now depth < "op_dcl" > (at, tree.old) (result, tree.new) }
{
    let attribute = oneway(tokens, tree, at);
    let spec = op_type_spec(tokens, tree, attribute, depth);
    let name = tokens.take(spec, Kind::IDENTIFIER);
    let taking = parameter_dcls(tokens, tree, name, depth);
    let raising = raises(tokens, tree, taking, depth);
    let whole = context(tokens, tree, raising, depth);
    node(tree, at, whole, Rule::OP_DCL)
}

// "readonly", or nothing.
fn readonly(tokens: Tokens, at: Reading) -> Reading
    ensures { Takes tokens.entry.table.now optional_readonly at result }
{
    let next = tokens.next_kind(at);
    if next == Kind::READONLY {
        return tokens.take(at, Kind::READONLY);
    }
    at
}

// (85) attr_dcl
pub fn attr_dcl(tokens: Tokens, tree: &mut [u32], at: Reading, depth: u32) -> Reading
    ensures { Reads one tokens.entry.table.now depth < "attr_dcl" > (at, tree.old) (result, tree.new) }
{
    let word = readonly(tokens, at);
    let words = tokens.take(word, Kind::ATTRIBUTE);
    let spec = param_type_spec(tokens, tree, words, depth);
    let names = list::<Declared>(tokens, tree, spec, depth);
    node(tree, at, names, Rule::ATTR_DCL)
}
