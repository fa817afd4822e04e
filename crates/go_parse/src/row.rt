//! Nodes that have been read, and how many levels they have.

ghost use Rattle.std.specs.Prelude.{◌≡◌, ◌+◌, ◌^◌, ◌<◌, ◌≤◌, [], ◌∷◌, ◌++◌, max, Some, None, IfOk};
ghost use Rattle.go_grammar.specs.Trees.{last};
ghost use Rattle.go_tree.specs.Views.{view};

use go_tree::node::Node;
use std::alloc::{AllocError, Global};

/// A node, and how many levels its tree has.
#[derive(Drop)]
pub struct Grown {
    pub node: Node,
    pub depth: u32,
}

/// The first parts of a node that is being read: the place behind them, and how many levels they have.
#[derive(Drop)]
pub struct Row {
    pub parts: Vec<Option<Node>>,
    pub last: u32,
    pub levels: u32,
}

impl Row {
    /// No part yet.
    pub fn empty(alloc: Global, at: u32) -> Row
        ensures parts { result.parts.items ≡ [] }
        ensures last { result.last ≡ at }
        ensures levels { result.levels ≡ 0 }
    {
        Row {
            parts: Vec::new(alloc),
            last: at,
            levels: 0,
        }
    }

    /// The row with one part more.
    pub fn with(mut self, part: Grown) -> Result<Row, AllocError>
        ensures { IfOk result (λ r. (r.parts.items ≡ self.parts.items ++ Some part.node ∷ []) × (r.last ≡ last (view part.node)) × (r.levels ≡ max self.levels part.depth)) }
    {
        self.last = part.node.last();
        self.levels = self.levels.max(part.depth);
        self.parts.push(Some(part.node))?;
        Ok(self)
    }

    /// The row with one part more, which is left out.
    pub fn without(mut self) -> Result<Row, AllocError>
        ensures { IfOk result (λ r. (r.parts.items ≡ self.parts.items ++ None ∷ []) × (r.last ≡ self.last) × (r.levels ≡ self.levels)) }
    {
        self.parts.push(None)?;
        Ok(self)
    }
}
