// Readers of constant expressions. The six levels of binary operators, (30) to (35), are one reader over the level. An
// expression stands within another in two places, `parenthesized` and `operation`. The compiler takes both into `binary`, where
// they share their room on the stack.
#![tactic(auto)]

ghost use Rattle.std.specs.Prelude.{◌≡◌, ◌+◌, ◌≤◌, ◌<◌};
ghost use Rattle.prediction.specs.plans.Plan.{call};
ghost use Rattle.grammar.specs.Names.{rule};
ghost use Rattle.readers_core.specs.Notation.{<◌>, ◌⟨◌⟩◌};
ghost use Rattle.readers_core.specs.Course.{one};
ghost use Rattle.readers_core.specs.Reading.{ahead, Within, Reads};
ghost use Rattle.readers_expressions.specs.Levels.{Signs, further_operand, level_of, some_level, tightest};

use grammar::Rule;
use kinds::Kind;
use readers_core::{Reading, Tokens, node};
use readers_names::{is_one_of, literal, one_of_three, scoped_name};

// The rule that a binary operator belongs to.
fn level_of(kind: Kind) -> Option<Rule>
    ensures { result ≡ some_level (level_of kind) }
{
    match kind {
        Kind::BAR => Some(Rule::OR_EXPR),
        Kind::CARET => Some(Rule::XOR_EXPR),
        Kind::AMPERSAND => Some(Rule::AND_EXPR),
        Kind::SHIFT_RIGHT | Kind::SHIFT_LEFT => Some(Rule::SHIFT_EXPR),
        Kind::PLUS | Kind::MINUS => Some(Rule::ADD_EXPR),
        Kind::STAR | Kind::SLASH | Kind::PERCENT => Some(Rule::MULT_EXPR),
        _ => None,
    }
}

// The rule of the right operand of a binary operator, which holds only tighter ones.
fn tighter(level: Rule) -> Rule
    requires { level ≤ tightest }
    ensures { result ≡ level + 1 }
{
    Rule::from(u32::from(level) + 1)
}

// An expression in parentheses, as (38) primary_expr.
#[cycle(expressions)]
fn parenthesized(tokens: Tokens, tree: &mut [u32], at: Reading, depth: u32) -> Reading
    ensures { Reads one tokens.entry.table.now depth ("(" ⟨ < "const_exp" > ⟩ ")") (at, tree.old) (result, tree.new) }
{
    let inside = tokens.open(at, Kind::OPEN_PARENTHESIS, depth);
    if inside.has_stopped() {
        return inside;
    }
    let value = binary(tokens, tree, inside, depth - 1, Rule::OR_EXPR);
    tokens.take(value, Kind::CLOSE_PARENTHESIS)
}

// (38) primary_expr
#[cycle(expressions)]
fn primary(tokens: Tokens, tree: &mut [u32], at: Reading, depth: u32) -> Reading
    ensures { Reads one tokens.entry.table.now depth (< "primary_expr" >) (at, tree.old) (result, tree.new) }
{
    let next = tokens.next_kind(at);
    match next {
        Kind::IDENTIFIER | Kind::SCOPE => scoped_name(tokens, tree, at),
        Kind::OPEN_PARENTHESIS => {
            let group = parenthesized(tokens, tree, at, depth);
            node(tree, at, group, Rule::PRIMARY_EXPR)
        }
        _ => literal(tokens, tree, at),
    }
}

// (37) unary_operator, where an operand is signed.
fn sign(tokens: Tokens, tree: &mut [u32], at: Reading, signed: bool) -> Reading
    ensures { Signs tokens.entry.table.now signed (at, tree.old) (result, tree.new) }
{
    if signed {
        return one_of_three(
            tokens,
            tree,
            at,
            Kind::MINUS,
            Kind::PLUS,
            Kind::TILDE,
            Rule::UNARY_OPERATOR,
        );
    }
    at
}

// (36) unary_expr
#[cycle(expressions)]
fn unary(tokens: Tokens, tree: &mut [u32], at: Reading, depth: u32) -> Reading
    ensures { Reads one tokens.entry.table.now depth (< "unary_expr" >) (at, tree.old) (result, tree.new) }
{
    let next = tokens.next_kind(at);
    let signed = is_one_of(next, Kind::MINUS, Kind::PLUS, Kind::TILDE);
    let behind = sign(tokens, tree, at, signed);
    let operand = primary(tokens, tree, behind, depth);
    if signed {
        return node(tree, at, operand, Rule::UNARY_EXPR);
    }
    operand
}

// An operator of the level, and its right operand, which holds only tighter ones: all since `start` becomes one node.
#[cycle(expressions)]
fn operation(
    tokens: Tokens,
    tree: &mut [u32],
    start: Reading,
    at: Reading,
    depth: u32,
    level: Rule,
) -> Reading
    requires { (level ≡ level_of (ahead tokens.table.now at)) × (rule "or_expr" ≤ level) }
    ensures within { Within one tokens.entry.table.now depth start (further_operand level) (at, tree.old) (result, tree.new) }
    ensures looser { level_of (ahead tokens.entry.table.now result) ≤ level }
{
    let next = tokens.next_kind(at);
    let operator = tokens.take(at, next);
    let operand = binary(tokens, tree, operator, depth, tighter(level));
    node(tree, start, operand, level)
}

// (30) to (36): operands, and the operators between them of this level and above.
#[cycle(expressions)]
fn binary(tokens: Tokens, tree: &mut [u32], at: Reading, depth: u32, level: Rule) -> Reading
    requires { (rule "or_expr" ≤ level) × (level ≤ rule "unary_expr") }
    ensures reads { Reads one tokens.entry.table.now depth (call level) (at, tree.old) (result, tree.new) }
    ensures looser { level_of (ahead tokens.entry.table.now result) < level }
{
    let mut value = unary(tokens, tree, at, depth);
    loop {
        let Some(found) = level_of(tokens.next_kind(value)) else {
            return value;
        };
        if found < level {
            return value;
        }
        value = operation(tokens, tree, at, value, depth, found);
    }
}

// (29) const_exp
pub fn const_exp(tokens: Tokens, tree: &mut [u32], at: Reading, depth: u32) -> Reading
    ensures { Reads one tokens.entry.table.now depth (< "const_exp" >) (at, tree.old) (result, tree.new) }
{
    binary(tokens, tree, at, depth, Rule::OR_EXPR)
}

// (41) positive_int_const
pub fn positive_int_const(tokens: Tokens, tree: &mut [u32], at: Reading, depth: u32) -> Reading
    ensures { Reads one tokens.entry.table.now depth (< "positive_int_const" >) (at, tree.old) (result, tree.new) }
{
    const_exp(tokens, tree, at, depth)
}
