//! Kinds of nodes, and what may stand where.

/// An operator of arithmetic or of bits (Go specification: Arithmetic operators).
#[derive(Clone, Copy, Debug, PartialEq, Eq)]
pub enum Arithmetic {
    Add,
    Subtract,
    Or,
    Xor,
    Multiply,
    Divide,
    Remainder,
    ShiftLeft,
    ShiftRight,
    And,
    AndNot,
}

/// An operator that compares (Go specification: Comparison operators).
#[derive(Clone, Copy, Debug, PartialEq, Eq)]
pub enum Comparison {
    Equal,
    NotEqual,
    Less,
    LessEqual,
    Greater,
    GreaterEqual,
}

/// An operator between two operands (Go specification: Operators).
#[derive(Clone, Copy, Debug, PartialEq, Eq)]
pub enum Operator {
    /// `||`
    Either,
    /// `&&`
    Both,
    Compare(Comparison),
    Compute(Arithmetic),
}

/// An operator in front of its operand (Go specification: Operators).
#[derive(Clone, Copy, Debug, PartialEq, Eq)]
pub enum Sign {
    Plus,
    Minus,
    /// `!`
    Not,
    /// `^`
    Complement,
}

/// `++` or `--` (Go specification: IncDec statements).
#[derive(Clone, Copy, Debug, PartialEq, Eq)]
pub enum Step {
    Increment,
    Decrement,
}

/// What a declaration other than that of a function declares.
#[derive(Clone, Copy, Debug, PartialEq, Eq)]
pub enum Sort {
    Constant,
    Type,
    Variable,
}

/// How tightly an expression holds together (Go specification: Operator precedence).
#[derive(Clone, Copy, Debug, PartialEq, Eq)]
pub enum Level {
    Either,
    Both,
    Comparison,
    Sum,
    Product,
    Unary,
    Primary,
}

/// Whether a composite literal may begin with a name (Go specification: Composite literals).
#[derive(Clone, Copy, Debug, PartialEq, Eq)]
pub enum Place {
    Free,
    /// Between `if`, `for` or `switch` and the opening brace of its block, outside brackets.
    Header,
}

/// What a node of a syntax tree is.
#[derive(Clone, Copy, Debug, PartialEq, Eq)]
pub enum Kind {
    /// A source file (Source file organization).
    File,
    /// The imports of a file.
    Imports,
    /// An import declaration (Import declarations).
    Import,
    /// The path of an import.
    ImportPath,
    /// Paths in parentheses.
    ImportGroup,
    /// A declaration of constants, types or variables (Declarations and scope).
    Declaration(Sort),
    /// Specifications in parentheses.
    Group(Sort),
    /// One specification of a declaration.
    Specification(Sort),
    /// Names that are declared together.
    NameList,
    /// A name that is declared.
    DeclaredName,
    /// A type and values.
    TypedValues,
    /// Values without a type.
    Values,
    /// A function declaration (Function declarations).
    FunctionDeclaration,
    /// A signature (Function types).
    Signature,
    /// The parameters of a signature.
    Parameters,
    /// A named parameter and its type; names in front of it, each an entry of its own, share its type.
    Parameter,
    /// The results of a signature, in parentheses.
    Results,
    /// A type in parentheses (Types).
    ParenthesizedType,
    /// An array type, or without a length a slice type (Array types, Slice types).
    SequenceType,
    /// A function type (Function types).
    FunctionType,
    /// A struct type (Struct types).
    StructType,
    /// Fields that are declared together.
    Fields,
    /// A name as an operand or as a type (Operands).
    Name,
    /// An integer literal (Integer literals).
    Integer,
    /// A rune literal (Rune literals).
    Rune,
    /// A string literal (String literals).
    Text,
    /// An expression in parentheses (Operands).
    Parenthesized,
    /// An operator with its operand (Operators).
    Unary(Sign),
    /// Two operands with an operator between them (Operators).
    Binary(Operator),
    /// A field or a member (Selectors).
    Selector,
    /// An index or a slice expression (Index expressions, Slice expressions).
    Bracketed,
    /// The bounds of a slice expression, without the lower one.
    Bounds,
    /// The bounds of a slice expression, with the lower one.
    BoundsFrom,
    /// A call or a conversion (Calls, Conversions).
    Call,
    /// A composite literal (Composite literals).
    Composite,
    /// The braces of an element without a type of its own.
    LiteralValue,
    /// An element with its key.
    Keyed,
    /// Expressions with commas between them.
    ExpressionList,
    /// A block (Blocks).
    Block,
    /// A return statement (Return statements).
    Return,
    /// A break statement (Break statements).
    Break,
    /// A continue statement (Continue statements).
    Continue,
    /// A fallthrough statement (Fallthrough statements).
    Fallthrough,
    /// An expression as a statement (Expression statements).
    ExpressionStatement,
    /// `x++` or `x--` (IncDec statements).
    StepStatement(Step),
    /// What is assigned to, with its `=`.
    Targets,
    /// What is declared by `:=`, with that token.
    NewNames,
    /// An assignment (Assignment statements).
    Assignment,
    /// An assignment with an operator (Assignment statements).
    OperatorAssignment(Arithmetic),
    /// A short variable declaration (Short variable declarations).
    Define,
    /// An if statement (If statements).
    If,
    /// `else` and what follows it.
    Else,
    /// A semicolon and a condition.
    LateCondition,
    /// A simple statement and a condition.
    InitializedCondition,
    /// A switch statement (Switch statements).
    Switch,
    /// A semicolon and, if there is one, a tag.
    LateTag,
    /// A simple statement and, if there is one, a tag.
    InitializedTag,
    /// A case clause (Switch statements).
    Case,
    /// A default clause (Switch statements).
    Default,
    /// A for statement (For statements).
    For,
    /// The header of a loop without its first statement.
    ForClause,
    /// The header of a loop with its first statement.
    InitializedForClause,
    /// The header of a loop over a value.
    Range,
    /// The same, with an assignment.
    AssigningRange,
    /// The same, with new variables.
    DefiningRange,
}

/// What may stand at a place of a production.
#[derive(Clone, Copy, Debug, PartialEq, Eq)]
pub enum Category {
    File,
    Imports,
    Import,
    /// What stands behind `import`.
    ImportBody,
    ImportPath,
    /// A declaration outside functions.
    Declaration,
    /// What stands behind `const`, `type` or `var`.
    DeclarationBody(Sort),
    Specification(Sort),
    NameList,
    DeclaredName,
    /// What stands behind the names of a specification of constants.
    ConstantRest,
    /// What stands behind the names of a specification of variables.
    VariableRest,
    Signature,
    Parameters,
    /// An entry of the parameters.
    Entry,
    Result,
    Type,
    Fields,
    /// An expression whose operators outside brackets bind at least so tightly.
    Expression(Level, Place),
    /// The type of a composite literal.
    LiteralType(Place),
    Name,
    /// What stands in the brackets of an index or slice expression.
    Bracket,
    /// An element of a composite literal.
    Element,
    /// An element without its key.
    Value,
    ExpressionList(Place),
    /// The list in front of `=` or `:=`.
    LeftList(Place),
    Targets(Place),
    NewNames(Place),
    Block,
    Statement,
    /// The first statement of a header.
    Simple,
    /// The last statement of a loop's header.
    Post,
    Else,
    /// What stands behind `else`.
    Branch,
    IfHeader,
    SwitchHeader,
    ForHeader,
    Clause,
}
