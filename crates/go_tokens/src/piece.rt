//! The pieces that a text is cut into.

/// What a piece of a text is.
#[derive(Clone, Copy, PartialEq, Eq, Debug)]
pub enum PieceKind {
    /// One character of white space.
    White,
    LineComment,
    BlockComment,
    /// An identifier or a keyword.
    Word,
    /// The run of a number, without the prefix `0x`.
    Number,
    /// The run of a number with the prefix `0x`.
    HexNumber,
    Rune,
    /// An interpreted string.
    Text,
    RawText,
    Operator,
    /// A character that begins no token.
    Stray,
}

/// Where a piece is, behind its first characters.
#[derive(Clone, Copy, PartialEq, Eq, Debug)]
pub enum Mode {
    InLine,
    /// Behind the slash of `/*`.
    Opened,
    InBlock,
    /// In a block comment, behind a star.
    AfterStar,
    InWord,
    /// In the run of a number, and whether behind an `e`.
    InRun(bool),
    /// In the run of a number with a prefix, and whether behind a `p`.
    InHexRun(bool),
    InRune,
    /// In a rune, behind a backslash.
    AfterRuneSlash,
    InText,
    /// In a string, behind a backslash.
    AfterSlash,
    InRaw,
    /// At the end.
    Whole,
}
