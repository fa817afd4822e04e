//! Families of values.

/// What values of basic types are.
#[derive(Clone, Copy, Debug, PartialEq, Eq)]
pub enum Family {
    Booleans,
    Integers,
    Texts,
}

/// The kind of an untyped value (Go specification: Constants).
#[derive(Clone, Copy, Debug, PartialEq, Eq)]
pub enum OpenKind {
    Boolean,
    Integer,
    Rune,
    Text,
}
