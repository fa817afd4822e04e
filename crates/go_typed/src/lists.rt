//! The statement lists of a function by number.

ghost use Rattle.std.specs.Prelude.{◌≡◌, ◌++◌, IfOk, OnOk, length, slice_get};
ghost use Rattle.std.specs.Option.{option_map};
ghost use Rattle.go_typed.specs.Lists as lists;
ghost use Rattle.go_typed.specs.Forms.{is_statement_list};
ghost use Rattle.go_typed.specs.Lists.{lists_of, own_list, seen_lists};
ghost use Rattle.go_typed.specs.Views.{view};

use crate::form::Form;
use crate::node::TypedNode;
use go_base::Memory;
use std::alloc::{AllocError, Global};

/// The statement lists of a typed tree: its blocks and clauses, numbered from 0. Each stands before those within it, and
/// otherwise they stand in order of place (Go specification: Blocks, Expression switches).
#[derive(Debug, Drop)]
pub struct StatementLists<'a> {
    nodes: Vec<&'a TypedNode>,
}

impl<'a> StatementLists<'a> {
    /// The statement lists of a tree.
    ///
    /// # Errors
    ///
    /// Want of memory.
    pub fn of(alloc: Global, tree: &'a TypedNode) -> Result<StatementLists<'a>, Memory>
        ensures { IfOk result (λ ls. lists_of ls ≡ lists.statement_lists (view tree.now)) }
    {
        let mut nodes = Vec::new(alloc);
        push_lists(tree, &mut nodes)?;
        Ok(StatementLists { nodes })
    }

    /// How many there are.
    pub fn count(&self) -> usize
        ensures { result ≡ length (lists_of self.now) }
    {
        self.nodes.len()
    }

    /// The block or clause of this number, if there are so many.
    pub fn get(&self, number: usize) -> Option<&'a TypedNode>
        ensures { slice_get (lists_of self.now) number ≡ option_map (λ n. view n.now) result }
    {
        self.nodes.get(number).copied()
    }
}

impl Form {
    /// Whether a node of this form holds statements in order.
    pub fn is_statement_list(&self) -> bool
        ensures { result ≡ is_statement_list self.now }
    {
        matches!(self, Form::Block | Form::Case(_) | Form::Default)
    }
}

/// Puts the statement lists of a tree behind the others.
fn push_lists<'a>(node: &'a TypedNode, nodes: &mut Vec<&'a TypedNode>) -> Result<(), AllocError>
    ensures { OnOk result (seen_lists nodes.new.items ≡ seen_lists nodes.old.items ++ lists.statement_lists (view node.now)) }
{
    push_own(node, nodes)?;
    for part in &node.parts {
        if let Some(part) = part {
            push_lists(part, nodes)?;
        }
    }
    Ok(())
}

/// Puts a node behind the others, if it is a statement list.
fn push_own<'a>(node: &'a TypedNode, nodes: &mut Vec<&'a TypedNode>) -> Result<(), AllocError>
    ensures { OnOk result (seen_lists nodes.new.items ≡ seen_lists nodes.old.items ++ own_list (view node.now)) }
{
    if node.form.is_statement_list() {
        nodes.push(node)?;
    }
    Ok(())
}
