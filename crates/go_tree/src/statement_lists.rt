//! The statement lists of a function by number.

ghost use Rattle.std.specs.Prelude.{◌≡◌, ◌++◌, IfOk, OnOk, length, slice_get};
ghost use Rattle.std.specs.Option.{option_map};
ghost use Rattle.go_tree.specs.Lists as lists;
ghost use Rattle.go_tree.specs.Lists.{lists_of, lists_among, own_list, seen};
ghost use Rattle.go_tree.specs.Views.{view, views};

use crate::node::Node;
use go_grammar::kind::Kind;
use std::alloc::{AllocError, Global};

/// The statement lists of a function: its block, and the blocks and clauses within it, numbered from 0. Each stands before
/// those within it, and otherwise they stand in order of place (Go specification: Blocks, Expression switches).
#[derive(Debug, Drop)]
pub struct StatementLists<'a> {
    nodes: Vec<&'a Node>,
}

impl<'a> StatementLists<'a> {
    /// The statement lists of a tree.
    ///
    /// # Errors
    ///
    /// Want of memory.
    pub fn of(alloc: Global, tree: &'a Node) -> Result<StatementLists<'a>, AllocError>
        ensures { IfOk result (λ ls. lists_of ls ≡ lists.statement_lists (view tree.now)) }
    {
        let mut nodes = Vec::new(alloc);
        push_lists(tree, &mut nodes)?;
        Ok(StatementLists { nodes })
    }

    /// How many there are.
    pub fn count(&self) -> usize
        ensures { result ≡ length (lists_of self.now) }
    {
        self.nodes.len()
    }

    /// The block or clause of this number, if there are so many.
    pub fn get(&self, number: usize) -> Option<&'a Node>
        ensures { slice_get (lists_of self.now) number ≡ option_map (λ n. view n.now) result }
    {
        self.nodes.get(number).copied()
    }
}

/// Puts the statement lists of a tree behind the others.
#[cycle(lists)]
fn push_lists<'a>(node: &'a Node, nodes: &mut Vec<&'a Node>) -> Result<(), AllocError>
    ensures { OnOk result (seen nodes.new.items ≡ seen nodes.old.items ++ lists.statement_lists (view node.now)) }
{
    push_own(node, nodes)?;
    push_among(node.parts(), nodes)
}

/// Puts the statement lists of the parts behind the others.
#[cycle(lists)]
fn push_among<'a>(parts: &'a [Option<Node>], nodes: &mut Vec<&'a Node>) -> Result<(), AllocError>
    ensures { OnOk result (seen nodes.new.items ≡ seen nodes.old.items ++ lists_among (views parts.now)) }
{
    for part in parts {
        if let Some(node) = part {
            push_lists(node, nodes)?;
        }
    }
    Ok(())
}

/// Puts a node behind the others, if it is a statement list.
fn push_own<'a>(node: &'a Node, nodes: &mut Vec<&'a Node>) -> Result<(), AllocError>
    ensures { OnOk result (seen nodes.new.items ≡ seen nodes.old.items ++ own_list (view node.now)) }
{
    if matches!(node.kind(), Kind::Block | Kind::Case | Kind::Default) {
        nodes.push(node)?;
    }
    Ok(())
}
