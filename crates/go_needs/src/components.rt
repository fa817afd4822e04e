//! Numbers of nodes of a graph by which no edge leads to a higher number. Nothing rests on the numbers being right.

use std::alloc::{AllocError, Global};

/// A walk in depth along edges (Kosaraju's search for strongly connected components takes two of them).
#[derive(Drop)]
struct Walk<'a> {
    edges: &'a [Vec<usize>],
    /// The start from which each node was come to, from 1 on; 0 for one that wasn't.
    starts: Vec<usize>,
    /// The nodes on the way, each with the number of its next edge.
    path: Vec<(usize, usize)>,
    /// The nodes that were left.
    left: Vec<usize>,
    started: usize,
}

impl<'a> Walk<'a> {
    fn new(alloc: Global, edges: &'a [Vec<usize>]) -> Result<Walk<'a>, AllocError> {
        Ok(Walk {
            edges,
            starts: vec![in alloc; 0; edges.len()]?,
            path: Vec::new(alloc),
            left: Vec::new(alloc),
            started: 0,
        })
    }

    fn is_new(&self, node: usize) -> bool {
        matches!(self.starts.get(node), Some(0))
    }

    /// Comes to a node, if it wasn't come to before.
    fn enter(&mut self, node: usize) -> Result<(), AllocError> {
        if self.is_new(node) && node < self.starts.len() {
            self.starts[node] = self.started;
            self.path.push((node, 0))?;
        }
        Ok(())
    }

    fn next_of(&self, node: usize, number: usize) -> Option<usize> {
        self.edges.get(node)?.get(number).copied()
    }

    /// Goes along one edge, or back; says whether there was a way to go.
    fn step(&mut self) -> Result<bool, AllocError> {
        let Some((node, number)) = self.path.pop() else {
            return Ok(false);
        };
        match self.next_of(node, number) {
            None => self.left.push(node)?,
            Some(next) => {
                self.path.push((node, number.saturating_add(1)))?;
                self.enter(next)?;
            }
        }
        Ok(true)
    }

    /// Comes to all that is reached from a node, in at most `steps` steps.
    fn start(&mut self, node: usize, steps: usize) -> Result<(), AllocError> {
        if !self.is_new(node) {
            return Ok(());
        }
        self.started = self.started.saturating_add(1);
        self.enter(node)?;
        for _ in 0..steps {
            if !self.step()? {
                return Ok(());
            }
        }
        Ok(())
    }
}

/// As many steps as a walk has: one for each node and each edge, and a last one.
fn steps_of(edges: &[Vec<usize>]) -> usize {
    let mut steps: usize = 1;
    for row in edges {
        steps = steps.saturating_add(1).saturating_add(row.len());
    }
    steps
}

/// The nodes in the order in which a walk leaves them, reversed.
fn last_left_first(alloc: Global, edges: &[Vec<usize>]) -> Result<Vec<usize>, AllocError> {
    let steps = steps_of(edges);
    let mut walk = Walk::new(alloc, edges)?;
    for node in 0..edges.len() {
        walk.start(node, steps)?;
    }
    let mut order = walk.left;
    order.reverse();
    Ok(order)
}

/// So many empty rows.
pub fn empty_rows(alloc: Global, count: usize) -> Result<Vec<Vec<usize>>, AllocError> {
    let mut rows = Vec::new(alloc);
    for _ in 0..count {
        rows.push(Vec::new(alloc))?;
    }
    Ok(rows)
}

/// Puts a number into a row that there is.
pub fn push_number(
    rows: &mut Vec<Vec<usize>>,
    row: usize,
    number: usize,
) -> Result<(), AllocError> {
    if row < rows.len() {
        rows[row].push(number)?;
    }
    Ok(())
}

/// Puts down the edges of a node the other way round.
fn turn(back: &mut Vec<Vec<usize>>, node: usize, row: &[usize]) -> Result<(), AllocError> {
    for next in row {
        push_number(back, *next, node)?;
    }
    Ok(())
}

/// The edges the other way round.
fn turned(alloc: Global, edges: &[Vec<usize>]) -> Result<Vec<Vec<usize>>, AllocError> {
    let mut back = empty_rows(alloc, edges.len())?;
    for (node, row) in edges.iter().enumerate() {
        turn(&mut back, node, row)?;
    }
    Ok(back)
}

/// Numbers of the nodes, from 1 on: the same for those that lead to one another, and no higher for those that a node leads to.
pub fn components(alloc: Global, edges: &[Vec<usize>]) -> Result<Vec<usize>, AllocError> {
    let back = turned(alloc, edges)?;
    let order = last_left_first(alloc, &back)?;
    let steps = steps_of(edges);
    let mut walk = Walk::new(alloc, edges)?;
    for node in order {
        walk.start(node, steps)?;
    }
    Ok(walk.starts)
}
