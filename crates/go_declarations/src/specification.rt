//! Specifications of a package block.

use go_tree::context::Entity;
use go_tree::node::Node;

/// A specification of the package block, or a function (Go specification, "Constant declarations", "Type declarations", "Variable
/// declarations", "Function declarations").
#[derive(Drop)]
pub struct Specification<'a> {
    pub entity: Entity,
    /// The number of its file.
    pub file: usize,
    /// Its first token.
    pub first: u32,
    /// The token behind its last one.
    pub last: u32,
    /// Its number in its group, which is the value of `iota` in it.
    pub iota: usize,
    /// The tokens of its names.
    pub names: Vec<usize>,
    /// Its type, the right side of a type, or the signature of a function.
    pub of: Option<&'a Node>,
    /// Its values; a specification of constants without any has those that it repeats, where they are written.
    pub values: &'a [Option<Node>],
    /// The node itself.
    pub tree: &'a Node,
}
