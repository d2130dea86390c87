// The kinds of token. The contract of `all` holds their names to the definitions, in their order.
ghost use Rattle.std.specs.Prelude.{◌≡◌, ℕ};
ghost use Rattle.kinds.specs.Lists.{all_kinds};

use std::marker::Model;

// A kind of token, by its number in a token table. It is no enum: a lent table may have any number where a kind stands.
#[derive(Clone, Copy, PartialEq, Eq, PartialOrd, Ord)]
pub struct Kind(pub u32);

impl Model for Kind {
    ghost Value = { ℕ };

    ghost view = { λ k. k.0 };

    ghost inverse = { λ n. record { 0 = n } };
}

impl Kind {
    pub const IDENTIFIER: Kind = Kind(1);

    pub const INTEGER: Kind = Kind(2);

    pub const FLOATING: Kind = Kind(3);

    pub const FIXED_LITERAL: Kind = Kind(4);

    pub const CHARACTER: Kind = Kind(5);

    pub const WIDE_CHARACTER: Kind = Kind(6);

    pub const STRING_LITERAL: Kind = Kind(7);

    pub const WIDE_STRING_LITERAL: Kind = Kind(8);

    pub const FALSE: Kind = Kind(16);

    pub const OBJECT: Kind = Kind(17);

    pub const TRUE: Kind = Kind(18);

    pub const VALUE_BASE: Kind = Kind(19);

    pub const ABSTRACT: Kind = Kind(20);

    pub const ANY: Kind = Kind(21);

    pub const ATTRIBUTE: Kind = Kind(22);

    pub const BOOLEAN: Kind = Kind(23);

    pub const CASE: Kind = Kind(24);

    pub const CHAR: Kind = Kind(25);

    pub const CONST: Kind = Kind(26);

    pub const CONTEXT: Kind = Kind(27);

    pub const CUSTOM: Kind = Kind(28);

    pub const DEFAULT: Kind = Kind(29);

    pub const DOUBLE: Kind = Kind(30);

    pub const ENUM: Kind = Kind(31);

    pub const EXCEPTION: Kind = Kind(32);

    pub const FACTORY: Kind = Kind(33);

    pub const FIXED: Kind = Kind(34);

    pub const FLOAT: Kind = Kind(35);

    pub const IN: Kind = Kind(36);

    pub const INOUT: Kind = Kind(37);

    pub const INTERFACE: Kind = Kind(38);

    pub const LOCAL: Kind = Kind(39);

    pub const LONG: Kind = Kind(40);

    pub const MODULE: Kind = Kind(41);

    pub const NATIVE: Kind = Kind(42);

    pub const OCTET: Kind = Kind(43);

    pub const ONEWAY: Kind = Kind(44);

    pub const OUT: Kind = Kind(45);

    pub const PRIVATE: Kind = Kind(46);

    pub const PUBLIC: Kind = Kind(47);

    pub const RAISES: Kind = Kind(48);

    pub const READONLY: Kind = Kind(49);

    pub const SEQUENCE: Kind = Kind(50);

    pub const SHORT: Kind = Kind(51);

    pub const STRING: Kind = Kind(52);

    pub const STRUCT: Kind = Kind(53);

    pub const SUPPORTS: Kind = Kind(54);

    pub const SWITCH: Kind = Kind(55);

    pub const TRUNCATABLE: Kind = Kind(56);

    pub const TYPEDEF: Kind = Kind(57);

    pub const UNION: Kind = Kind(58);

    pub const UNSIGNED: Kind = Kind(59);

    pub const VALUETYPE: Kind = Kind(60);

    pub const VOID: Kind = Kind(61);

    pub const WCHAR: Kind = Kind(62);

    pub const WSTRING: Kind = Kind(63);

    pub const SEMICOLON: Kind = Kind(64);

    pub const OPEN_BRACE: Kind = Kind(65);

    pub const CLOSE_BRACE: Kind = Kind(66);

    pub const COLON: Kind = Kind(67);

    pub const COMMA: Kind = Kind(68);

    pub const SCOPE: Kind = Kind(69);

    pub const EQUALS: Kind = Kind(70);

    pub const OPEN_PARENTHESIS: Kind = Kind(71);

    pub const CLOSE_PARENTHESIS: Kind = Kind(72);

    pub const OPEN_ANGLE: Kind = Kind(73);

    pub const CLOSE_ANGLE: Kind = Kind(74);

    pub const OPEN_BRACKET: Kind = Kind(75);

    pub const CLOSE_BRACKET: Kind = Kind(76);

    pub const BAR: Kind = Kind(77);

    pub const CARET: Kind = Kind(78);

    pub const AMPERSAND: Kind = Kind(79);

    pub const SHIFT_RIGHT: Kind = Kind(80);

    pub const SHIFT_LEFT: Kind = Kind(81);

    pub const PLUS: Kind = Kind(82);

    pub const MINUS: Kind = Kind(83);

    pub const STAR: Kind = Kind(84);

    pub const SLASH: Kind = Kind(85);

    pub const PERCENT: Kind = Kind(86);

    pub const TILDE: Kind = Kind(87);

    pub const LAST_KEYWORD: Kind = Kind::WSTRING;

    // What stands past the last token: no kind.
    pub const END: Kind = Kind(0);

    const ALL: [Kind; 80] = [
        Kind::IDENTIFIER,
        Kind::INTEGER,
        Kind::FLOATING,
        Kind::FIXED_LITERAL,
        Kind::CHARACTER,
        Kind::WIDE_CHARACTER,
        Kind::STRING_LITERAL,
        Kind::WIDE_STRING_LITERAL,
        Kind::FALSE,
        Kind::OBJECT,
        Kind::TRUE,
        Kind::VALUE_BASE,
        Kind::ABSTRACT,
        Kind::ANY,
        Kind::ATTRIBUTE,
        Kind::BOOLEAN,
        Kind::CASE,
        Kind::CHAR,
        Kind::CONST,
        Kind::CONTEXT,
        Kind::CUSTOM,
        Kind::DEFAULT,
        Kind::DOUBLE,
        Kind::ENUM,
        Kind::EXCEPTION,
        Kind::FACTORY,
        Kind::FIXED,
        Kind::FLOAT,
        Kind::IN,
        Kind::INOUT,
        Kind::INTERFACE,
        Kind::LOCAL,
        Kind::LONG,
        Kind::MODULE,
        Kind::NATIVE,
        Kind::OCTET,
        Kind::ONEWAY,
        Kind::OUT,
        Kind::PRIVATE,
        Kind::PUBLIC,
        Kind::RAISES,
        Kind::READONLY,
        Kind::SEQUENCE,
        Kind::SHORT,
        Kind::STRING,
        Kind::STRUCT,
        Kind::SUPPORTS,
        Kind::SWITCH,
        Kind::TRUNCATABLE,
        Kind::TYPEDEF,
        Kind::UNION,
        Kind::UNSIGNED,
        Kind::VALUETYPE,
        Kind::VOID,
        Kind::WCHAR,
        Kind::WSTRING,
        Kind::SEMICOLON,
        Kind::OPEN_BRACE,
        Kind::CLOSE_BRACE,
        Kind::COLON,
        Kind::COMMA,
        Kind::SCOPE,
        Kind::EQUALS,
        Kind::OPEN_PARENTHESIS,
        Kind::CLOSE_PARENTHESIS,
        Kind::OPEN_ANGLE,
        Kind::CLOSE_ANGLE,
        Kind::OPEN_BRACKET,
        Kind::CLOSE_BRACKET,
        Kind::BAR,
        Kind::CARET,
        Kind::AMPERSAND,
        Kind::SHIFT_RIGHT,
        Kind::SHIFT_LEFT,
        Kind::PLUS,
        Kind::MINUS,
        Kind::STAR,
        Kind::SLASH,
        Kind::PERCENT,
        Kind::TILDE,
    ];

    // Every kind, in order.
    pub fn all() -> [Kind; 80]
        ensures { result ≡ all_kinds }
    {
        Kind::ALL
    }
}

impl From<u32> for Kind {
    fn from(number: u32) -> Kind
        ensures { result ≡ number }
    {
        Kind(number)
    }
}

impl From<Kind> for u32 {
    fn from(kind: Kind) -> u32
        ensures { result ≡ kind }
    {
        kind.0
    }
}
