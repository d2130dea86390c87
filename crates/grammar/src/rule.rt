// The rules of the published grammar. The contract of `all` holds their names to the rules, in their order.
ghost use Rattle.std.specs.Prelude.{◌≡◌, ℕ};
ghost use Rattle.grammar.specs.Names.{all_rules};

use std::marker::Model;

// A rule, by its number, as a tree record has it.
#[derive(Clone, Copy, PartialEq, Eq, PartialOrd, Ord)]
pub struct Rule(u32);

impl Model for Rule {
    ghost Value = { ℕ };

    ghost view = { λ r. r.0 };

    ghost inverse = { λ n. record { 0 = n } };
}

impl Rule {
    pub const SPECIFICATION: Rule = Rule(1);

    pub const DEFINITION: Rule = Rule(2);

    pub const MODULE: Rule = Rule(3);

    pub const INTERFACE: Rule = Rule(4);

    pub const INTERFACE_DCL: Rule = Rule(5);

    pub const FORWARD_DCL: Rule = Rule(6);

    pub const INTERFACE_HEADER: Rule = Rule(7);

    pub const INTERFACE_BODY: Rule = Rule(8);

    pub const EXPORT: Rule = Rule(9);

    pub const INTERFACE_INHERITANCE_SPEC: Rule = Rule(10);

    pub const INTERFACE_NAME: Rule = Rule(11);

    pub const SCOPED_NAME: Rule = Rule(12);

    pub const VALUE: Rule = Rule(13);

    pub const VALUE_FORWARD_DCL: Rule = Rule(14);

    pub const VALUE_BOX_DCL: Rule = Rule(15);

    pub const VALUE_ABS_DCL: Rule = Rule(16);

    pub const VALUE_DCL: Rule = Rule(17);

    pub const VALUE_HEADER: Rule = Rule(18);

    pub const VALUE_INHERITANCE_SPEC: Rule = Rule(19);

    pub const VALUE_NAME: Rule = Rule(20);

    pub const VALUE_ELEMENT: Rule = Rule(21);

    pub const STATE_MEMBER: Rule = Rule(22);

    pub const INIT_DCL: Rule = Rule(23);

    pub const INIT_PARAM_DECLS: Rule = Rule(24);

    pub const INIT_PARAM_DECL: Rule = Rule(25);

    pub const INIT_PARAM_ATTRIBUTE: Rule = Rule(26);

    pub const CONST_DCL: Rule = Rule(27);

    pub const CONST_TYPE: Rule = Rule(28);

    pub const CONST_EXP: Rule = Rule(29);

    pub const OR_EXPR: Rule = Rule(30);

    pub const XOR_EXPR: Rule = Rule(31);

    pub const AND_EXPR: Rule = Rule(32);

    pub const SHIFT_EXPR: Rule = Rule(33);

    pub const ADD_EXPR: Rule = Rule(34);

    pub const MULT_EXPR: Rule = Rule(35);

    pub const UNARY_EXPR: Rule = Rule(36);

    pub const UNARY_OPERATOR: Rule = Rule(37);

    pub const PRIMARY_EXPR: Rule = Rule(38);

    pub const LITERAL: Rule = Rule(39);

    pub const BOOLEAN_LITERAL: Rule = Rule(40);

    pub const POSITIVE_INT_CONST: Rule = Rule(41);

    pub const TYPE_DCL: Rule = Rule(42);

    pub const TYPE_DECLARATOR: Rule = Rule(43);

    pub const TYPE_SPEC: Rule = Rule(44);

    pub const SIMPLE_TYPE_SPEC: Rule = Rule(45);

    pub const BASE_TYPE_SPEC: Rule = Rule(46);

    pub const TEMPLATE_TYPE_SPEC: Rule = Rule(47);

    pub const CONSTR_TYPE_SPEC: Rule = Rule(48);

    pub const DECLARATORS: Rule = Rule(49);

    pub const DECLARATOR: Rule = Rule(50);

    pub const SIMPLE_DECLARATOR: Rule = Rule(51);

    pub const COMPLEX_DECLARATOR: Rule = Rule(52);

    pub const FLOATING_PT_TYPE: Rule = Rule(53);

    pub const INTEGER_TYPE: Rule = Rule(54);

    pub const SIGNED_INT: Rule = Rule(55);

    pub const SIGNED_SHORT_INT: Rule = Rule(56);

    pub const SIGNED_LONG_INT: Rule = Rule(57);

    pub const SIGNED_LONGLONG_INT: Rule = Rule(58);

    pub const UNSIGNED_INT: Rule = Rule(59);

    pub const UNSIGNED_SHORT_INT: Rule = Rule(60);

    pub const UNSIGNED_LONG_INT: Rule = Rule(61);

    pub const UNSIGNED_LONGLONG_INT: Rule = Rule(62);

    pub const CHAR_TYPE: Rule = Rule(63);

    pub const WIDE_CHAR_TYPE: Rule = Rule(64);

    pub const BOOLEAN_TYPE: Rule = Rule(65);

    pub const OCTET_TYPE: Rule = Rule(66);

    pub const ANY_TYPE: Rule = Rule(67);

    pub const OBJECT_TYPE: Rule = Rule(68);

    pub const STRUCT_TYPE: Rule = Rule(69);

    pub const MEMBER_LIST: Rule = Rule(70);

    pub const MEMBER: Rule = Rule(71);

    pub const UNION_TYPE: Rule = Rule(72);

    pub const SWITCH_TYPE_SPEC: Rule = Rule(73);

    pub const SWITCH_BODY: Rule = Rule(74);

    pub const CASE: Rule = Rule(75);

    pub const CASE_LABEL: Rule = Rule(76);

    pub const ELEMENT_SPEC: Rule = Rule(77);

    pub const ENUM_TYPE: Rule = Rule(78);

    pub const ENUMERATOR: Rule = Rule(79);

    pub const SEQUENCE_TYPE: Rule = Rule(80);

    pub const STRING_TYPE: Rule = Rule(81);

    pub const WIDE_STRING_TYPE: Rule = Rule(82);

    pub const ARRAY_DECLARATOR: Rule = Rule(83);

    pub const FIXED_ARRAY_SIZE: Rule = Rule(84);

    pub const ATTR_DCL: Rule = Rule(85);

    pub const EXCEPT_DCL: Rule = Rule(86);

    pub const OP_DCL: Rule = Rule(87);

    pub const OP_ATTRIBUTE: Rule = Rule(88);

    pub const OP_TYPE_SPEC: Rule = Rule(89);

    pub const PARAMETER_DCLS: Rule = Rule(90);

    pub const PARAM_DCL: Rule = Rule(91);

    pub const PARAM_ATTRIBUTE: Rule = Rule(92);

    pub const RAISES_EXPR: Rule = Rule(93);

    pub const CONTEXT_EXPR: Rule = Rule(94);

    pub const PARAM_TYPE_SPEC: Rule = Rule(95);

    pub const FIXED_PT_TYPE: Rule = Rule(96);

    pub const FIXED_PT_CONST_TYPE: Rule = Rule(97);

    pub const VALUE_BASE_TYPE: Rule = Rule(98);

    pub const CONSTR_FORWARD_DECL: Rule = Rule(99);

    const ALL: [Rule; 99] = [
        Rule::SPECIFICATION,
        Rule::DEFINITION,
        Rule::MODULE,
        Rule::INTERFACE,
        Rule::INTERFACE_DCL,
        Rule::FORWARD_DCL,
        Rule::INTERFACE_HEADER,
        Rule::INTERFACE_BODY,
        Rule::EXPORT,
        Rule::INTERFACE_INHERITANCE_SPEC,
        Rule::INTERFACE_NAME,
        Rule::SCOPED_NAME,
        Rule::VALUE,
        Rule::VALUE_FORWARD_DCL,
        Rule::VALUE_BOX_DCL,
        Rule::VALUE_ABS_DCL,
        Rule::VALUE_DCL,
        Rule::VALUE_HEADER,
        Rule::VALUE_INHERITANCE_SPEC,
        Rule::VALUE_NAME,
        Rule::VALUE_ELEMENT,
        Rule::STATE_MEMBER,
        Rule::INIT_DCL,
        Rule::INIT_PARAM_DECLS,
        Rule::INIT_PARAM_DECL,
        Rule::INIT_PARAM_ATTRIBUTE,
        Rule::CONST_DCL,
        Rule::CONST_TYPE,
        Rule::CONST_EXP,
        Rule::OR_EXPR,
        Rule::XOR_EXPR,
        Rule::AND_EXPR,
        Rule::SHIFT_EXPR,
        Rule::ADD_EXPR,
        Rule::MULT_EXPR,
        Rule::UNARY_EXPR,
        Rule::UNARY_OPERATOR,
        Rule::PRIMARY_EXPR,
        Rule::LITERAL,
        Rule::BOOLEAN_LITERAL,
        Rule::POSITIVE_INT_CONST,
        Rule::TYPE_DCL,
        Rule::TYPE_DECLARATOR,
        Rule::TYPE_SPEC,
        Rule::SIMPLE_TYPE_SPEC,
        Rule::BASE_TYPE_SPEC,
        Rule::TEMPLATE_TYPE_SPEC,
        Rule::CONSTR_TYPE_SPEC,
        Rule::DECLARATORS,
        Rule::DECLARATOR,
        Rule::SIMPLE_DECLARATOR,
        Rule::COMPLEX_DECLARATOR,
        Rule::FLOATING_PT_TYPE,
        Rule::INTEGER_TYPE,
        Rule::SIGNED_INT,
        Rule::SIGNED_SHORT_INT,
        Rule::SIGNED_LONG_INT,
        Rule::SIGNED_LONGLONG_INT,
        Rule::UNSIGNED_INT,
        Rule::UNSIGNED_SHORT_INT,
        Rule::UNSIGNED_LONG_INT,
        Rule::UNSIGNED_LONGLONG_INT,
        Rule::CHAR_TYPE,
        Rule::WIDE_CHAR_TYPE,
        Rule::BOOLEAN_TYPE,
        Rule::OCTET_TYPE,
        Rule::ANY_TYPE,
        Rule::OBJECT_TYPE,
        Rule::STRUCT_TYPE,
        Rule::MEMBER_LIST,
        Rule::MEMBER,
        Rule::UNION_TYPE,
        Rule::SWITCH_TYPE_SPEC,
        Rule::SWITCH_BODY,
        Rule::CASE,
        Rule::CASE_LABEL,
        Rule::ELEMENT_SPEC,
        Rule::ENUM_TYPE,
        Rule::ENUMERATOR,
        Rule::SEQUENCE_TYPE,
        Rule::STRING_TYPE,
        Rule::WIDE_STRING_TYPE,
        Rule::ARRAY_DECLARATOR,
        Rule::FIXED_ARRAY_SIZE,
        Rule::ATTR_DCL,
        Rule::EXCEPT_DCL,
        Rule::OP_DCL,
        Rule::OP_ATTRIBUTE,
        Rule::OP_TYPE_SPEC,
        Rule::PARAMETER_DCLS,
        Rule::PARAM_DCL,
        Rule::PARAM_ATTRIBUTE,
        Rule::RAISES_EXPR,
        Rule::CONTEXT_EXPR,
        Rule::PARAM_TYPE_SPEC,
        Rule::FIXED_PT_TYPE,
        Rule::FIXED_PT_CONST_TYPE,
        Rule::VALUE_BASE_TYPE,
        Rule::CONSTR_FORWARD_DECL,
    ];

    // Every rule, in order.
    pub fn all() -> [Rule; 99]
        ensures { result ≡ all_rules }
    {
        Rule::ALL
    }
}

impl From<u32> for Rule {
    fn from(number: u32) -> Rule
        ensures { result ≡ number }
    {
        Rule(number)
    }
}

impl From<Rule> for u32 {
    fn from(rule: Rule) -> u32
        ensures { result ≡ rule }
    {
        rule.0
    }
}
