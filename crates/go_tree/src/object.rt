//! What names mean.

use crate::context::{Block, Entity, Scope};

/// A predeclared name of the profile (Go specification: Predeclared identifiers).
#[derive(Clone, Copy, Debug, PartialEq, Eq)]
pub enum Predeclared {
    Bool,
    String,
    Int,
    Int8,
    Int16,
    Int32,
    Int64,
    Uint,
    Uint8,
    Uint16,
    Uint32,
    Uint64,
    Byte,
    Rune,
    True,
    False,
    Iota,
    Nil,
    Append,
    Cap,
    Copy,
    Len,
    Make,
    Max,
    Min,
    Panic,
}

/// What a name means.
#[derive(Clone, Copy, Debug, PartialEq, Eq)]
pub enum Object {
    Predeclared(Predeclared),
    /// The imported package `fmt`.
    Import,
    /// An object of the package, by its number in the order of files and places.
    Package(usize),
    /// A constant, type, variable or parameter of the function of this number, by its own number in the order of declaration.
    /// Functions are numbered from 0 in the order of files and places.
    Local { function: usize, number: usize },
}

/// Where an object is declared.
#[derive(Clone, Copy, Debug, PartialEq, Eq)]
pub struct Declared {
    /// The file's number.
    pub file: u32,
    /// The number of the token of its name.
    pub name: u32,
    pub entity: Entity,
    /// The innermost block around it.
    pub block: Block,
    /// Its scope, if it is a local; of a function the tokens of its declaration.
    pub scope: Scope,
}

/// Where a name has a meaning.
#[derive(Clone, Copy, Debug, PartialEq, Eq)]
pub enum Extent {
    /// In the whole package.
    Everywhere,
    /// In the whole file of this number.
    Throughout(u32),
    /// In a file, from one token up to another.
    Between { file: u32, scope: Scope },
}
