//! The ranks of declarations, by the strongly connected components of what needs what.
//!
//! Nothing rests on the ranks being right: what they show is tried against the names before it counts.

use crate::graph::{Edge, Graph, node_of};
use crate::ranks::{Rank, Ranks};
use go_scopes_lookup::found::Found;
use std::alloc::{AllocError, Global};
use std::collections::HashMap;

/// The number in a row, or 0 behind its end.
fn at(row: &[usize], place: usize) -> usize {
    row.get(place).copied().unwrap_or(0)
}

/// Writes a number into a row.
fn put(row: &mut Vec<usize>, place: usize, number: usize) {
    if place < row.len() {
        row[place] = number;
    }
}

/// A search for strongly connected components (Tarjan). Those that need no others come first.
#[derive(Drop)]
struct Search<'a> {
    edges: &'a [Vec<Edge>],
    /// When each node was visited, from 1 on; 0 for one that wasn't.
    visits: Vec<usize>,
    /// The earliest visit of what is open and was seen from a node.
    lows: Vec<usize>,
    /// The component of each node, from 1 on; 0 for one without.
    components: Vec<usize>,
    /// The nodes that were visited and have no component.
    open: Vec<usize>,
    /// The nodes on the way, each with the number of its next edge.
    path: Vec<(usize, usize)>,
    visited: usize,
    closed: usize,
}

impl<'a> Search<'a> {
    fn new(alloc: Global, edges: &'a [Vec<Edge>]) -> Result<Search<'a>, AllocError> {
        let count = edges.len();
        Ok(Search {
            edges,
            visits: vec![in alloc; 0; count]?,
            lows: vec![in alloc; 0; count]?,
            components: vec![in alloc; 0; count]?,
            open: Vec::new(alloc),
            path: Vec::new(alloc),
            visited: 0,
            closed: 0,
        })
    }

    fn enter(&mut self, node: usize) -> Result<(), AllocError> {
        self.visited = self.visited.saturating_add(1);
        put(&mut self.visits, node, self.visited);
        put(&mut self.lows, node, self.visited);
        self.open.push(node)?;
        self.path.push((node, 0))?;
        Ok(())
    }

    fn lower(&mut self, node: usize, visit: usize) {
        let low = at(&self.lows, node).min(visit);
        put(&mut self.lows, node, low);
    }

    fn follow(&mut self, node: usize, next: usize) -> Result<(), AllocError> {
        let visit = at(&self.visits, next);
        if visit == 0 {
            return self.enter(next);
        }
        if at(&self.components, next) == 0 {
            self.lower(node, visit);
        }
        Ok(())
    }

    /// The open nodes from this one on are a component.
    fn close(&mut self, node: usize) {
        self.closed = self.closed.saturating_add(1);
        for _ in 0..self.open.len() {
            let Some(other) = self.open.pop() else {
                return;
            };
            put(&mut self.components, other, self.closed);
            if other == node {
                return;
            }
        }
    }

    fn leave(&mut self, node: usize) {
        let low = at(&self.lows, node);
        if low == at(&self.visits, node) {
            self.close(node);
        }
        if let Some((above, _)) = self.path.last().copied() {
            self.lower(above, low);
        }
    }

    fn next_of(&self, node: usize, number: usize) -> Option<usize> {
        Some(self.edges.get(node)?.get(number)?.to)
    }

    /// Goes along one edge, or back; says whether there was a way to go.
    fn step(&mut self) -> Result<bool, AllocError> {
        let Some((node, number)) = self.path.pop() else {
            return Ok(false);
        };
        match self.next_of(node, number) {
            None => self.leave(node),
            Some(next) => {
                self.path.push((node, number.saturating_add(1)))?;
                self.follow(node, next)?;
            }
        }
        Ok(true)
    }

    /// Visits all that is reached from a node, in at most `steps` steps.
    fn visit(&mut self, node: usize, steps: usize) -> Result<(), AllocError> {
        if at(&self.visits, node) != 0 {
            return Ok(());
        }
        self.enter(node)?;
        for _ in 0..steps {
            if !self.step()? {
                return Ok(());
            }
        }
        Ok(())
    }
}

/// As many steps as a search has: one for each node and each edge, and a last one.
fn steps_of(edges: &[Vec<Edge>]) -> usize {
    let mut steps: usize = 1;
    for row in edges {
        steps = steps.saturating_add(1).saturating_add(row.len());
    }
    steps
}

/// The components of the nodes.
fn components(alloc: Global, edges: &[Vec<Edge>]) -> Result<Vec<usize>, AllocError> {
    let steps = steps_of(edges);
    let count = edges.len();
    let mut search = Search::new(alloc, edges)?;
    for node in 0..count {
        search.visit(node, steps)?;
    }
    Ok(search.components)
}

/// Ranks by which no declaration needs one of a higher rank.
pub fn ranks(alloc: Global, graph: &Graph, declared: &[Found<'_>]) -> Result<Ranks, AllocError> {
    let components = components(alloc, &graph.edges)?;
    let mut ranks = HashMap::with_capacity(alloc, declared.len())?;
    for (number, d) in declared.iter().enumerate() {
        ranks.insert(
            (d.file, d.declaration.name),
            Rank {
                full: at(&components, node_of(number, true)),
                partial: at(&components, node_of(number, false)),
            },
        )?;
    }
    Ok(ranks)
}
