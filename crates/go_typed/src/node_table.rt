//! The nodes of a tree by number.

ghost use Rattle.std.specs.Prelude.{◌≡◌, ◌+◌, ◌<◌, ◌^◌, ◌++◌, IfOk, OnOk, slice_get};
ghost use Rattle.std.specs.Option.{option_map};
ghost use Rattle.go_typed.specs.Funcs.{size};
ghost use Rattle.go_typed.specs.Lists.{statement_lists};
ghost use Rattle.go_typed.specs.NodeTables.{IsTableOf, inner_places, list_numbers, own_number, part_there};
ghost use Rattle.go_typed.specs.Places.{nodes};
ghost use Rattle.go_typed.specs.Views.{view};

use crate::node::TypedNode;
use go_base::Memory;
use std::alloc::{AllocError, Global};

/// Where a node stands.
#[derive(Clone, Copy, PartialEq, Eq, Debug)]
pub struct PartPlace {
    /// The number of the node that it is a part of.
    pub above: u32,
    /// Its place among the parts of that node, from 0.
    pub part: u32,
}

/// Where the nodes of a tree stand, and which of them are statement lists. Nodes are numbered from 0, each before those within
/// it and otherwise in order of place.
#[derive(Debug, Drop)]
pub struct NodeTable {
    /// The places of all nodes but the first, in their order.
    places: Vec<PartPlace>,
    /// The numbers of the statement lists, in their order.
    lists: Vec<u32>,
}

impl NodeTable {
    /// The table of a tree.
    ///
    /// # Errors
    ///
    /// Want of memory, also for a node with more than 2^32 parts, there or left out.
    pub fn of(alloc: Global, tree: &TypedNode) -> Result<NodeTable, Memory>
        requires { size (view tree.now) < 2 ^ 32 }
        ensures { IfOk result (λ t. IsTableOf (view tree.now) t) }
    {
        let mut table = NodeTable {
            places: Vec::new(alloc),
            lists: Vec::new(alloc),
        };
        table.push_node(0, tree)?;
        table.places.shrink_to_fit();
        table.lists.shrink_to_fit();
        Ok(table)
    }

    /// Puts what is within the node of a number behind the rest, and tells the number of the node behind it.
    fn push_node(&mut self, number: u32, node: &TypedNode) -> Result<u32, AllocError>
        requires { number + size (view node.now) < 2 ^ 32 }
        ensures next { IfOk result (λ n. n ≡ number + size (view node.now)) }
        ensures places { OnOk result (self.new.places.items ≡ self.old.places.items ++ inner_places number (view node.now)) }
        ensures lists { OnOk result (self.new.lists.items ≡ self.old.lists.items ++ list_numbers number (view node.now)) }
    {
        self.push_own(number, node)?;
        let mut next = number + 1;
        let mut index: usize = 0;
        for part in &node.parts {
            if let Some(part) = part {
                self.places.push(PartPlace {
                    above: number,
                    part: narrow(index)?,
                })?;
                next = self.push_node(next, part)?;
            }
            index += 1;
        }
        Ok(next)
    }

    /// Puts the number of a node behind the others, if it is a statement list.
    fn push_own(&mut self, number: u32, node: &TypedNode) -> Result<(), AllocError>
        ensures places { OnOk result (self.new.places.items ≡ self.old.places.items) }
        ensures lists { OnOk result (self.new.lists.items ≡ self.old.lists.items ++ own_number number (view node.now)) }
    {
        if node.form.is_statement_list() {
            self.lists.push(number)?;
        }
        Ok(())
    }

    /// The node of this number of the tree, if there are so many. It costs the way from the tree's root to it.
    pub fn node<'a>(&self, tree: &'a TypedNode, number: u32) -> Option<&'a TypedNode>
        requires { IsTableOf (view tree.now) self.now }
        ensures { slice_get (nodes (view tree.now)) number ≡ option_map (λ n. view n.now) result }
    {
        if number == 0 {
            return Some(tree);
        }
        let place = self.place(number - 1)?;
        let above = self.node(tree, place.above)?;
        part_at(&above.parts, place.part as usize)
    }

    /// The place of this number, if there are so many.
    fn place(&self, number: u32) -> Option<PartPlace>
        ensures { slice_get self.now.places.items number ≡ result }
    {
        self.places.get(number as usize).copied()
    }

    /// The number of the node that is the statement list of this number, if there are so many.
    fn list_node(&self, number: usize) -> Option<u32>
        ensures { slice_get self.now.lists.items number ≡ result }
    {
        self.lists.get(number).copied()
    }

    /// The statement list of this number of the tree, from 0, if there are so many. It costs the way from the tree's root to it.
    pub fn list<'a>(&self, tree: &'a TypedNode, number: usize) -> Option<&'a TypedNode>
        requires { IsTableOf (view tree.now) self.now }
        ensures { slice_get (statement_lists (view tree.now)) number ≡ option_map (λ n. view n.now) result }
    {
        let node = self.list_node(number)?;
        self.node(tree, node)
    }
}

/// The number in 32 bits.
fn narrow(number: usize) -> Result<u32, AllocError>
    ensures { IfOk result (λ n. n ≡ number) }
{
    u32::try_from(number).map_err(|_| AllocError)
}

/// The part of this number, if it is there.
fn part_at(parts: &[Option<TypedNode>], number: usize) -> Option<&TypedNode>
    ensures { part_there (slice_get parts.now number) ≡ option_map (λ n. n.now) result }
{
    match parts.get(number) {
        Some(Some(part)) => Some(part),
        _ => None,
    }
}
