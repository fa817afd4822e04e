//! What the nodes of a tree have to do with names. Numbers are those of tokens of the file.

use crate::context::{Block, Entity, Manner, Scope};
use crate::lookup::{LookupRole, LookupSite};

/// A name is declared, or, before `:=`, perhaps only named again.
#[derive(Clone, Copy, Debug, PartialEq, Eq)]
pub struct Declaration {
    /// The token of the name.
    pub name: u32,
    pub entity: Entity,
    pub manner: Manner,
    pub block: Block,
    /// Its scope, if it isn't one of the package.
    pub scope: Scope,
    /// The first token of the statement or specification.
    pub statement: u32,
    /// The first token of the specification whose type and values it has, if there is one.
    pub source: Option<u32>,
    /// Its number among the names that are declared together.
    pub column: u32,
}

/// A name is looked up.
#[derive(Clone, Copy, Debug)]
pub struct Use {
    /// The token of the name.
    pub name: u32,
    pub role: LookupRole,
    pub site: LookupSite,
    /// Whether it stands in a declaration of constants.
    pub constant: bool,
    /// Whether it stands in the value of a package's variable.
    pub initial: bool,
}

/// What must differ from the others of its group.
#[derive(Clone, Copy, Debug, PartialEq, Eq)]
pub enum Member {
    Field,
    Key,
    Parameter,
}

/// What a node has to do with names.
#[derive(Clone, Copy, Debug)]
pub enum Event {
    /// A path is imported.
    Import {
        path: u32,
    },
    Declaration(Declaration),
    Use(Use),
    /// A field, key or parameter is named.
    Member {
        member: Member,
        group: u32,
        name: u32,
    },
    /// A function has no body.
    Bodiless {
        first: u32,
        last: u32,
    },
    /// A statement of a statement list.
    Statement {
        first: u32,
        last: u32,
    },
    /// A `break`, `continue` or `fallthrough` where it may not stand.
    Misplaced {
        first: u32,
        last: u32,
    },
    /// A `default` behind another one of the same `switch`.
    SecondDefault {
        word: u32,
    },
}
