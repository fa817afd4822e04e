//! What the nodes of a typed tree stand for.

ghost use Rattle.std.specs.Prelude.{◌≡◌, IfOk};

use crate::constant::SharedConst;
use crate::constant_type::ConstantType;
use go_base::Memory;
use go_tree::object::Predeclared;
use go_types::TypeId;

/// The kind of an untyped value that is no constant (Go specification: Constants, Comparison operators, Operators). A text
/// that is untyped is always a constant.
#[derive(Clone, Copy, Debug, PartialEq, Eq)]
pub enum Untyped {
    Boolean,
    Integer,
    Rune,
}

/// What a node stands for; a type is a number of a table.
#[derive(Clone, Debug, Drop)]
pub enum Sort {
    /// A statement or a declaration.
    Nothing,
    /// An expression with a fault, or a name that has no type.
    Unknown,
    /// The blank identifier (Go specification: Blank identifier).
    Blank,
    /// `nil` (Predeclared identifiers).
    Nil,
    /// A predeclared function (Built-in functions).
    Builtin(Predeclared),
    /// `fmt.Println`.
    Println,
    /// The imported package `fmt` (Import declarations).
    Package,
    /// A type (Types).
    Type(TypeId),
    /// A value of a type (Expressions).
    Value(TypeId),
    /// A constant of a type (Constants).
    Constant(ConstantType, SharedConst),
    /// An untyped value that is no constant (Operators, Comparison operators).
    Open(Untyped),
    /// An untyped constant; its kind is that of its value (Constants).
    OpenConstant(SharedConst),
    /// The results of a call, none or several, of a function of this type (Calls).
    Results(TypeId),
}

impl Sort {
    /// The same once more; a constant is shared.
    ///
    /// # Errors
    ///
    /// Want of memory.
    pub fn shared(&self) -> Result<Sort, Memory>
        ensures { IfOk result (λ s. s ≡ self.now) }
    {
        Ok(self.clone()?)
    }
}

/// What typing says of a node.
#[derive(Clone, Debug, Drop)]
pub struct Label {
    pub sort: Sort,
    /// Whether a variable is named in it, within types too.
    pub varies: bool,
    /// Whether it has a call that is no constant.
    pub calls: bool,
}
