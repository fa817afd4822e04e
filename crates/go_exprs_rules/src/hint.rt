//! What a node tells its parts.

use go_types::TypeId;

/// What a part is told by its node.
#[derive(Clone, Copy, Debug, PartialEq, Eq)]
pub enum Hint {
    /// It is a value.
    Value,
    /// It is a whole right side, which may be a call of several results.
    Several,
    /// It is a type.
    TypePlace,
    /// It is a type in a slice's element or a function type.
    Loose,
    /// It stands inside parentheses, which are judged as a whole.
    Inside,
    /// It stands inside parentheses where one value is wanted: a call of several results is judged itself.
    OneInside,
    /// It is a type inside parentheses, in a slice's element or a function type.
    LooseInside,
    /// It is what is called.
    Callee,
    /// It is a statement.
    Statement,
    /// It is assigned to.
    Target,
    /// It is a name that is declared.
    Declares,
    /// Nothing is asked of it.
    Free,
    /// It is an element of a literal whose elements have this type.
    Element(TypeId),
    /// It is an element of a literal of this struct type.
    Member(TypeId),
    /// It is an element of a literal of another type, or of none.
    Elided,
}
