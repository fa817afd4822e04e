//! What nodes do by themselves, apart from their parts.

use go_grammar::kind::Comparison;
use go_ints::{Kind, Op};
use go_types::TypeId;

/// What a range clause goes over (Go specification: For statements with range clause).
#[derive(Clone, Copy, Debug)]
pub enum Items {
    /// So many numbers; the operand isn't evaluated.
    Fixed(u32),
    /// The elements of an array, as they are at the start.
    Elements,
    /// The elements of a slice, each as it is at its turn.
    Cells,
    /// The runes of a string.
    Runes,
    /// The whole numbers from 0 on that are below an integer.
    Numbers,
}

/// What is done to the values of all parts. Types are those of the zero values that it takes, and `bool` where there is none.
#[derive(Clone, Copy, Debug)]
pub enum Operation {
    /// An operator on integers of a kind (Arithmetic operators, Integer operators).
    Compute(Kind, Op),
    /// `+` on strings (String concatenation).
    Join,
    /// A comparison (Comparison operators).
    Compare(Comparison),
    /// `+x`, and a conversion that keeps the value (Conversions).
    Keep,
    /// `!x` (Logical operators).
    Not,
    /// `-x` (Arithmetic operators).
    Negate(Kind),
    /// `^x` (Arithmetic operators).
    Complement(Kind),
    /// A conversion between integers (Conversions between numeric types).
    Wrap(Kind),
    /// An integer as a string (Conversions to and from a string type).
    TextOfCode,
    /// A string as bytes (Conversions to and from a string type).
    BytesOfText,
    /// Bytes as a string (Conversions to and from a string type).
    TextOfBytes,
    /// A byte of a string (Index expressions).
    Byte,
    /// A slice expression, and which bounds it has (Slice expressions).
    Cut { low: bool, high: bool },
    /// `len` (Length and capacity).
    Length,
    /// `cap` (Length and capacity).
    Capacity,
    /// `min` (Min and max).
    Least,
    /// `max` (Min and max).
    Greatest,
    /// `make` of elements of this type (Making slices, maps and channels).
    MakeSlice(Option<TypeId>),
    /// `append` to elements of this type (Appending to and copying slices).
    Append(Option<TypeId>),
    /// `copy` (Appending to and copying slices).
    Copy,
    /// A literal of an array or a struct of this type (Composite literals).
    Build(Option<TypeId>),
    /// A literal of a slice (Composite literals).
    Gather,
    /// `fmt.Println`.
    Print,
    /// `panic` (Handling panics).
    PanicWith,
    /// An expression statement (Expression statements).
    Drop,
}

/// What a node does by itself.
#[derive(Clone, Copy, Debug)]
pub enum Plan {
    /// It has the value of its constant (Constant expressions).
    Constant,
    /// It is the function of this number (Function declarations).
    Function(u32),
    /// It is `nil`, of this type (Predeclared identifiers).
    Nil(Option<TypeId>),
    Local(u32),
    Variable(u32),
    /// A local that is declared, and only written.
    Declare(u32),
    /// The blank identifier.
    Ignore,
    /// All that its first part is.
    Inner,
    /// A field, by its number (Selectors).
    FieldOf(u32),
    /// An element of an array of this length (Index expressions).
    ElementOf(u32),
    /// An element of a slice (Index expressions).
    CellOf,
    Perform(Operation),
    /// `&&` (Logical operators).
    Both,
    /// `||` (Logical operators).
    Either,
    /// A call of a function (Calls).
    Apply,
    /// `x++` or `x--`, by the operation (IncDec statements).
    StepBy(Operation),
    /// `x op= y` (Assignment statements).
    OperateBy(Operation),
    /// So many parts get what the others give (Assignment statements).
    AssignTo(u32),
    /// So many parts get the zero value of the type (The zero value).
    ZeroTo(u32, Option<TypeId>),
    Skip,
    Returns,
    Breaks,
    Continues,
    Falls,
    Sequence,
    Branch,
    /// A switch: whether it has a tag, and the place of its default clause among the parts (Switch statements).
    Select { tag: bool, default: usize },
    /// A clause with so many expressions (Switch statements).
    CaseOf(u32),
    /// The default clause (Switch statements).
    Otherwise,
    /// A range clause with so many parts on its left (For statements with range clause).
    Iterate(u32, Items),
    /// A loop without range clause: whether it has a condition (For statements).
    Loop(bool),
}
