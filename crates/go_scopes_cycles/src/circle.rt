//! The shortest circle of names by which a declaration needs itself.
//!
//! Nothing rests on the circle being right: it is walked along the names before it counts.

use crate::graph::{Edge, Graph, Reason, node_of};
use go_scopes_lookup::found::Found;
use std::alloc::{AllocError, Global};

/// A node that was reached from another one.
#[derive(Clone, Copy, Debug)]
struct Reached {
    from: usize,
    reason: Reason,
}

/// A search from a declaration that is needed in part, by breadth.
#[derive(Drop)]
struct Search {
    /// The number of the declaration.
    number: usize,
    /// How each node was reached.
    reached: Vec<Option<Reached>>,
    /// The nodes in the order in which they were reached.
    queue: Vec<usize>,
}

impl Search {
    fn new(alloc: Global, number: usize, nodes: usize) -> Result<Search, AllocError> {
        let mut queue = Vec::new(alloc);
        queue.push(node_of(number, false))?;
        Ok(Search {
            number,
            reached: vec![in alloc; None; nodes]?,
            queue,
        })
    }

    /// How a node was reached.
    fn reached(&self, node: usize) -> Option<Reached> {
        self.reached.get(node).copied().flatten()
    }

    /// Goes along an edge, if its node is a new one.
    fn follow(&mut self, from: usize, edge: &Edge) -> Result<(), AllocError> {
        if edge.to < self.reached.len() && self.reached(edge.to).is_none() {
            self.reached[edge.to] = Some(Reached {
                from,
                reason: edge.reason,
            });
            self.queue.push(edge.to)?;
        }
        Ok(())
    }

    /// Goes along the edges of a node; answers the name that calls for the declaration itself.
    fn expand(&mut self, node: usize, edges: &[Edge]) -> Result<Option<usize>, AllocError> {
        for edge in edges {
            match edge.reason {
                Reason::Weaker => {}
                Reason::Name(name) if edge.to / 2 == self.number => return Ok(Some(name)),
                Reason::Part | Reason::Name(_) => self.follow(node, edge)?,
            }
        }
        Ok(None)
    }

    /// The names on the way to a node, and a last one.
    fn names_to(&self, alloc: Global, node: usize, last: usize) -> Result<Vec<usize>, AllocError> {
        let mut names = Vec::new(alloc);
        names.push(last)?;
        let mut node = node;
        for _ in 0..self.reached.len() {
            let Some(reached) = self.reached(node) else {
                break;
            };
            if let Reason::Name(name) = reached.reason {
                names.push(name)?;
            }
            node = reached.from;
        }
        names.reverse();
        Ok(names)
    }
}

/// The names of the shortest circle through the declaration; none where it doesn't need itself.
pub fn circle(alloc: Global, graph: &Graph, d: &Found<'_>) -> Result<Vec<usize>, AllocError> {
    let key = (d.file, d.declaration.name);
    let Some(number) = graph.declared.get(&key).copied() else {
        return Ok(Vec::new(alloc));
    };
    let mut search = Search::new(alloc, number, graph.edges.len())?;
    for place in 0..graph.edges.len() {
        let Some(node) = search.queue.get(place).copied() else {
            break;
        };
        let Some(edges) = graph.edges.get(node) else {
            break;
        };
        if let Some(last) = search.expand(node, edges)? {
            return search.names_to(alloc, node, last);
        }
    }
    Ok(Vec::new(alloc))
}
