//! Where a node stands, as far as names are concerned.

/// What a name is declared as (Go specification: Declarations and scope).
#[derive(Clone, Copy, Debug, PartialEq, Eq)]
pub enum Entity {
    Constant,
    Type,
    Variable,
    Parameter,
    Function,
}

/// The block that a name is declared in (Go specification: Blocks).
#[derive(Clone, Copy, Debug, PartialEq, Eq)]
pub enum Block {
    Package,
    /// The block that begins at the token of this number; a function's parameters belong to that of its body.
    Local(u32),
}

/// The tokens in which a name has its meaning: those from the number `from` up to `to`, without `to`.
#[derive(Clone, Copy, Debug, PartialEq, Eq)]
pub struct Scope {
    pub from: u32,
    pub to: u32,
}

/// How a name is declared.
#[derive(Clone, Copy, Debug, PartialEq, Eq)]
pub enum Manner {
    /// By a declaration, or as a parameter.
    Declared,
    /// By `:=`, where it may be one that was declared before (Go specification: Short variable declarations).
    Defined,
    /// By `:=` in front of `range`.
    Ranged,
}

/// What names are declared as, and where they are then in scope.
#[derive(Clone, Copy, Debug, PartialEq, Eq)]
pub struct Naming {
    pub entity: Entity,
    pub manner: Manner,
    pub scope: Scope,
    /// The first token of the statement or specification that declares them.
    pub statement: u32,
    /// The first token of the specification whose type and values they have, if there is one. For a constant without values it
    /// is an earlier one of the same group (Go specification: Constant declarations).
    pub source: Option<u32>,
}

/// What a name that stands here is for.
#[derive(Clone, Copy, Debug, PartialEq, Eq)]
pub enum Role {
    /// It is looked up.
    Operand,
    /// It is looked up, and it is a whole left side of an assignment.
    Assigned,
    /// It is looked up, and called.
    Called,
    /// It is looked up, and the operand of a selector that ends before the token `last`.
    Selected { last: u32, called: bool },
    /// It is declared.
    New(Naming),
    /// It is a field of the struct type that begins at the token `group`.
    Field { group: u32 },
    /// It is a key of the composite literal that begins at the token `group`.
    Key { group: u32 },
    /// It is a parameter, and `group` the first token of its list. Those of a function with a body have a scope.
    Parameter { group: u32, scope: Option<Scope> },
}

/// How a name stands in the right side of a type's declaration.
#[derive(Clone, Copy, Debug, PartialEq, Eq)]
pub enum Reach {
    /// In none of the other ways.
    Direct,
    /// In the element of a slice type, or in a function type.
    Indirect,
    /// In the length of an array type.
    Length,
}

/// The part of a declaration in which a name stands.
#[derive(Clone, Copy, Debug, PartialEq, Eq)]
pub enum Site {
    /// In none.
    Elsewhere,
    /// In a type of a specification of constants or variables, or in the signature of a function.
    Type {
        specification: u32,
    },
    /// In the value of this number of a specification; `alone` if it has just one.
    Value {
        specification: u32,
        column: usize,
        alone: bool,
    },
    /// In the right side of a type's specification.
    Right {
        specification: u32,
        reach: Reach,
    },
}

/// Where a node stands.
#[derive(Clone, Copy, Debug, PartialEq, Eq)]
pub struct Context {
    /// The innermost block.
    pub block: Block,
    /// The token behind that block.
    pub end: u32,
    /// What a name here is for.
    pub role: Role,
    /// The part of a declaration.
    pub site: Site,
    /// The specification, if it is in one.
    pub specification: Option<u32>,
    /// The specification whose values a constant without any has here, if there is one.
    pub source: Option<u32>,
    /// The number of the part in a list of names or values.
    pub column: usize,
    /// The first token of the struct type, composite literal or list of parameters around it, if it is in one.
    pub group: Option<u32>,
    /// The scope of the parameters of the signature, if they have one.
    pub parameters: Option<Scope>,
    /// Whether it is inside a declaration of constants.
    pub constant: bool,
    /// Whether it is inside the value of a package's variable.
    pub initial: bool,
    /// Whether it is a statement of a statement list.
    pub listed: bool,
    /// Whether there is something to break from.
    pub breaks: bool,
    /// Whether there is a loop to continue.
    pub continues: bool,
    /// Whether it is a clause with another one behind it.
    pub followed: bool,
    /// Whether it is the last statement of such a clause.
    pub falls: bool,
}
