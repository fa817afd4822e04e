//! The binary operations on integers, and how one may trap.

/// A binary operation on integers (Go specification, "Arithmetic operators", "Min and max").
#[derive(Clone, Copy, PartialEq, Eq, Debug)]
pub enum Op {
    /// `+`
    Add,
    /// `-`
    Sub,
    /// `*`
    Mul,
    /// `/`, truncated toward zero.
    Div,
    /// `%`, with the sign of the dividend.
    Rem,
    /// `&`
    And,
    /// `|`
    Or,
    /// `^`
    Xor,
    /// `&^`, the bits of the left operand that the right one lacks.
    AndNot,
    /// `<<`
    Shl,
    /// `>>`, which copies the sign bit of a signed value.
    Shr,
    /// `min`, the lesser of two (Go specification, "Min and max").
    Min,
    /// `max`, the greater of two.
    Max,
}

/// Why an operation has no result (Go specification, "Run-time panics").
#[derive(Clone, Copy, PartialEq, Eq, Debug)]
pub enum Trap {
    /// A division or a remainder by zero.
    DivideZero,
    /// A shift by a negative count.
    NegativeShift,
}
