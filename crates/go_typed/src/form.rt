//! What the nodes of a typed tree are, without any spelling.

use go_grammar::kind::{Arithmetic, Kind, Operator, Sign, Step};
use go_tree::object::Predeclared;

/// What a node of a typed tree is. Behind it stand its parts in order; `?` marks a part that may be left out, and then has its
/// place all the same.
///
/// Locals are numbered by function, in order of declaration; fields are numbered by their places in their struct.
#[derive(Clone, Copy, Debug)]
pub enum Form {
    /// A function (Go specification: Function declarations): block?
    Function,
    /// An expression as a statement (Expression statements): x
    Expression,
    /// `x++` or `x--` (IncDec statements): x
    Step(Step),
    /// An assignment to so many targets (Assignment statements): targets.. values..
    Assign(u32),
    /// An assignment with an operator (Assignment statements): x y
    Operate(Arithmetic),
    /// A short declaration of so many names (Short variable declarations): names.. values..
    Define(u32),
    /// A declaration of variables (Variable declarations): specifications..
    Variables,
    /// A declaration of constants (Constant declarations): names..
    Constants,
    /// A declaration of types (Type declarations): names..
    TypeNames,
    /// A specification of so many variables (Variable declarations): names.. type? values..
    Specified(u32),
    /// A return statement (Return statements): values..
    Return,
    /// A break statement (Break statements).
    Break,
    /// A continue statement (Continue statements).
    Continue,
    /// A fallthrough statement (Fallthrough statements).
    Fallthrough,
    /// A block (Blocks): statements..
    Block,
    /// An if statement (If statements): first? condition block else?
    If,
    /// A switch statement (Expression switches): first? tag? clauses..
    Switch,
    /// A clause with so many values (Expression switches): values.. statements..
    Case(u32),
    /// The default clause (Expression switches): statements..
    Default,
    /// A loop with or without a condition (For statements): first? condition? post? block
    For,
    /// A loop over a value (For statements with range clause), which declares its names or assigns to so many targets: targets..
    /// operand block
    Range { defines: bool, targets: u32 },
    /// A local that is used (Operands).
    Local(u32),
    /// A local that is declared by `:=` or a range clause (Short variable declarations).
    New(u32),
    /// A local that is declared by `var`, `const` or `type` (Declarations and scope).
    Declared(u32),
    /// What is no local (Operands).
    Object(Referent),
    /// The blank identifier (Blank identifier).
    Blank,
    /// A literal of a basic type (Basic literals).
    Literal,
    /// An expression in parentheses (Operands): x
    Parenthesized,
    /// The field of this number (Selectors): x
    Selector(u32),
    /// An index expression (Index expressions): x index
    Index,
    /// A slice expression (Slice expressions): x low? high?
    Slice,
    /// A call (Calls), that of a predeclared function too: callee arguments..
    Call,
    /// A conversion (Conversions): type x
    Conversion,
    /// A composite literal (Composite literals), without its type where this is elided: type? elements..
    Composite,
    /// An operator with its operand (Arithmetic operators, Logical operators): x
    Unary(Sign),
    /// Two operands with an operator between them (Operators): x y
    Binary(Operator),
    /// The element for the field of this number (Composite literals): x
    Keyed(u32),
    /// A type (Types). What is inside it are no nodes.
    Type,
    /// A node that only holds parts of the node above, until that takes them.
    Held(Kind),
}

/// What a name means that names no local. Constants, types, variables and functions of the package are numbered each sort by
/// itself, in the order of files and places, so a further function moves the numbers of functions alone.
#[derive(Clone, Copy, Debug, PartialEq, Eq)]
pub enum Referent {
    Constant(u32),
    Type(u32),
    Variable(u32),
    Function(u32),
    /// A predeclared name (Predeclared identifiers).
    Predeclared(Predeclared),
    /// `fmt.Println`.
    Println,
}
