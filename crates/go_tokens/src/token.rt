//! What a token is.

ghost use Rattle.std.specs.Prelude.{◌+◌, ◌*◌, ◌<◌, ◌^◌};

use go_base::Span;

/// The sorts of tokens (Go specification: Tokens, Keywords, Operators and punctuation).
#[derive(Clone, Copy, Debug, PartialEq, Eq)]
pub enum TokenKind {
    Identifier,
    /// An integer literal.
    Integer,
    /// A rune literal.
    Rune,
    /// A string literal, interpreted or raw.
    Text,
    Break,
    Case,
    Chan,
    Const,
    Continue,
    Default,
    Defer,
    Else,
    Fallthrough,
    For,
    Func,
    Go,
    Goto,
    If,
    Import,
    Interface,
    Map,
    Package,
    Range,
    Return,
    Select,
    Struct,
    Switch,
    Type,
    Var,
    Plus,
    Minus,
    Star,
    Slash,
    Percent,
    Ampersand,
    Bar,
    Caret,
    ShiftLeft,
    ShiftRight,
    AndNot,
    PlusAssign,
    MinusAssign,
    StarAssign,
    SlashAssign,
    PercentAssign,
    AmpersandAssign,
    BarAssign,
    CaretAssign,
    ShiftLeftAssign,
    ShiftRightAssign,
    AndNotAssign,
    LogicalAnd,
    LogicalOr,
    Increment,
    Decrement,
    Equal,
    NotEqual,
    Less,
    LessEqual,
    Greater,
    GreaterEqual,
    Assign,
    Not,
    Define,
    LeftParenthesis,
    RightParenthesis,
    LeftBracket,
    RightBracket,
    LeftBrace,
    RightBrace,
    Comma,
    /// A semicolon, written or inserted; an inserted one has an empty span.
    Semicolon,
    Period,
    Colon,
}

/// A token and where it stands.
#[derive(Clone, Copy, Debug, PartialEq, Eq)]
pub struct Token {
    pub kind: TokenKind,
    pub span: Span,
}

/// A token and where it stands in its file: what a `Token` says, in less room, since all tokens of a row have one file. Its length
/// has 24 bits, which are split.
#[derive(Clone, Copy, Debug)]
pub(crate) struct PlacedKind {
    pub(crate) start: u32,
    pub(crate) kind: TokenKind,
    pub(crate) high: u8,
    pub(crate) low: u16,
    pub(crate) ghost fits: { start + (high * 65536 + low) < 2 ^ 32 },
}
