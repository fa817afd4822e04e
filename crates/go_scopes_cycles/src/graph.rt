//! What needs what, as a graph.
//!
//! It is for searches only: what they find is tried against the names before it counts.

use crate::needs::source_of;
use crate::ranks::{Part, Place, full_part, partial_part};
use go_scopes_lookup::asked::Asked;
use go_scopes_lookup::found::Found;
use std::alloc::{AllocError, Global};
use std::collections::HashMap;

/// Why the one node needs the other one.
#[derive(Clone, Copy, Debug)]
pub enum Reason {
    /// It is a part of the declaration.
    Part,
    /// The name of this number stands in the part.
    Name(usize),
    /// What is needed of a declaration in part is needed of it in full too.
    Weaker,
}

/// A node that is needed.
#[derive(Clone, Copy, Debug)]
pub struct Edge {
    pub to: usize,
    pub reason: Reason,
}

/// Declarations and parts of specifications as nodes, each with the nodes that it needs.
#[derive(Drop)]
pub struct Graph {
    pub edges: Vec<Vec<Edge>>,
    /// The numbers of declarations, by their files and names.
    pub declared: HashMap<(u32, u32), usize>,
    /// The nodes of parts.
    parts: HashMap<Place, usize>,
    alloc: Global,
}

/// The node of a declaration that is needed in full or in part.
pub fn node_of(number: usize, full: bool) -> usize {
    number.saturating_mul(2).saturating_add(usize::from(full))
}

impl Graph {
    /// A graph with room for the nodes of so many declarations.
    fn new(alloc: Global, count: usize) -> Result<Graph, AllocError> {
        Ok(Graph {
            edges: Vec::with_capacity(alloc, count.saturating_mul(2))?,
            declared: HashMap::with_capacity(alloc, count)?,
            parts: HashMap::new(alloc),
            alloc,
        })
    }

    /// A new node.
    fn add_node(&mut self) -> Result<(), AllocError> {
        self.edges.push(Vec::new(self.alloc))?;
        Ok(())
    }

    /// The one node needs the other one.
    fn add_edge(&mut self, from: usize, to: usize, reason: Reason) -> Result<(), AllocError> {
        if from < self.edges.len() {
            self.edges[from].push(Edge { to, reason })?;
        }
        Ok(())
    }

    /// The nodes of the declarations.
    fn add_declared(&mut self, declared: &[Found<'_>]) -> Result<(), AllocError> {
        for (number, d) in declared.iter().enumerate() {
            self.declared.insert((d.file, d.declaration.name), number)?;
            self.add_node()?;
            self.add_node()?;
        }
        Ok(())
    }

    /// The node of a part.
    fn part(&mut self, place: Place) -> Result<usize, AllocError> {
        let next = self.edges.len();
        let node = *self.parts.entry(place)?.or_insert(next);
        if node == next {
            self.add_node()?;
        }
        Ok(node)
    }

    /// The name of this number stands in a part of a file, if it does, and calls for a declaration.
    fn add_need(
        &mut self,
        file: u32,
        part: Option<(u32, Part)>,
        name: usize,
        to: usize,
    ) -> Result<(), AllocError> {
        if let Some((specification, part)) = part {
            let from = self.part(((file, specification), part))?;
            self.add_edge(from, to, Reason::Name(name))?;
        }
        Ok(())
    }

    /// What the name of this number calls for.
    fn add_lookup(&mut self, name: usize, a: &Asked<'_>) -> Result<(), AllocError> {
        let site = a.lookup.site.get();
        if full_part(site).is_none() {
            return Ok(());
        }
        let Some(d) = source_of(a.meaning) else {
            return Ok(());
        };
        let Some(number) = self.declared.get(&(d.file, d.declaration.name)).copied() else {
            return Ok(());
        };
        self.add_need(a.file, full_part(site), name, node_of(number, true))?;
        self.add_need(a.file, partial_part(site), name, node_of(number, false))
    }

    /// A declaration needs what stands in the part, if something does: where it is needed itself in full, in part, or either way.
    fn add_part(
        &mut self,
        number: usize,
        place: Place,
        fully: bool,
        partly: bool,
    ) -> Result<(), AllocError> {
        let Some(to) = self.parts.get(&place).copied() else {
            return Ok(());
        };
        for (full, needs) in [(true, fully), (false, partly)] {
            if needs {
                self.add_edge(node_of(number, full), to, Reason::Part)?;
            }
        }
        Ok(())
    }

    /// A declaration needs what stands in the parts of its specification.
    fn add_parts(&mut self, number: usize, d: &Found<'_>, source: u32) -> Result<(), AllocError> {
        let column = d.declaration.column as usize;
        for (part, fully, partly) in [
            (Part::Always, true, true),
            (Part::Value(column), true, true),
            (Part::Full, true, false),
            (Part::Partial, false, true),
        ] {
            self.add_part(number, ((d.file, source), part), fully, partly)?;
        }
        Ok(())
    }

    /// What a declaration needs.
    fn add_needs(&mut self, number: usize, d: &Found<'_>) -> Result<(), AllocError> {
        self.add_edge(
            node_of(number, true),
            node_of(number, false),
            Reason::Weaker,
        )?;
        if let Some(source) = d.declaration.source {
            self.add_parts(number, d, source)?;
        }
        Ok(())
    }
}

/// The graph of what needs what.
pub fn graph_of(
    alloc: Global,
    lookups: &[Asked<'_>],
    declared: &[Found<'_>],
) -> Result<Graph, AllocError> {
    let mut graph = Graph::new(alloc, declared.len())?;
    graph.add_declared(declared)?;
    for (name, a) in lookups.iter().enumerate() {
        graph.add_lookup(name, a)?;
    }
    for (number, d) in declared.iter().enumerate() {
        graph.add_needs(number, d)?;
    }
    Ok(graph)
}
