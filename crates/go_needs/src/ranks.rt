//! Ranks of specifications, by which none needs one of a higher rank. Nothing rests on the ranks being right: they are tried against the
//! names before they count.

use crate::calls::Call;
use crate::components::{components, empty_rows, push_number};
use crate::groups::Group;
use crate::levels::fails_at;
use crate::owners::Owner;
use crate::ranked::rank_at;
use crate::search::Seed;
use go_scopes_cycles::ranks::Place;
use std::alloc::{AllocError, Global};
use std::collections::HashMap;

/// Numbers of specifications, by their files and tokens. Those that repeat an expression are one with that which has it.
type Nodes = HashMap<(u32, u32), usize>;

/// Numbers the specification of a declaration, if it has one.
fn add_node(nodes: &mut Nodes, owner: &Owner) -> Result<(), AllocError> {
    if let Some(source) = owner.source {
        let spot = (owner.file, source);
        if nodes.get(&spot).is_none() {
            let number = nodes.len();
            nodes.insert(spot, number)?;
        }
    }
    Ok(())
}

/// Numbers of the specifications that these have.
fn nodes_of(alloc: Global, owners: &[Owner], groups: &[Group]) -> Result<Nodes, AllocError> {
    let mut nodes = HashMap::new(alloc);
    for owner in owners {
        add_node(&mut nodes, owner)?;
    }
    for group in groups {
        if let Some(root) = &group.root {
            add_node(&mut nodes, root)?;
        }
    }
    Ok(nodes)
}

/// The number of the specification that a declaration has.
fn node_of(nodes: &Nodes, owner: &Owner) -> Option<usize> {
    nodes.get(&(owner.file, owner.source?)).copied()
}

/// The number of the specification in which a part is.
fn node_at(nodes: &Nodes, place: Option<Place>) -> Option<usize> {
    nodes.get(&place?.0).copied()
}

/// Of each specification those that its names call for.
fn edges_of(
    alloc: Global,
    nodes: &Nodes,
    owners: &[Owner],
    calls: &[Call],
) -> Result<Vec<Vec<usize>>, AllocError> {
    let mut edges = empty_rows(alloc, nodes.len())?;
    for call in calls {
        let Some(from) = node_at(nodes, call.full) else {
            continue;
        };
        let Some(owner) = owners.get(call.number) else {
            continue;
        };
        if let Some(to) = node_of(nodes, owner) {
            push_number(&mut edges, from, to)?;
        }
    }
    Ok(edges)
}

/// The rank of a specification, by those of all; 0 where it needs none.
fn rank_in(nodes: &Nodes, numbers: &[usize], group: &Group) -> usize {
    match &group.root {
        Some(root) => match node_of(nodes, root) {
            Some(node) => rank_at(numbers, node),
            None => 0,
        },
        None => 0,
    }
}

/// Ranks of the specifications of a package. None is above the number of its declarations and specifications.
pub fn ranks(
    alloc: Global,
    owners: &[Owner],
    groups: &[Group],
    calls: &[Call],
) -> Result<Vec<usize>, AllocError> {
    let nodes = nodes_of(alloc, owners, groups)?;
    let edges = edges_of(alloc, &nodes, owners, calls)?;
    let numbers = components(alloc, &edges)?;
    let mut ranks = Vec::new(alloc);
    for group in groups {
        ranks.push(rank_in(&nodes, &numbers, group))?;
    }
    Ok(ranks)
}

/// The objects of each rank in which or at which a rule fails.
fn failing_by_rank(
    alloc: Global,
    top: usize,
    ranks: &[usize],
    faulty: &[bool],
    assigning: &[bool],
) -> Result<Vec<Vec<usize>>, AllocError> {
    let mut rows = empty_rows(alloc, top.saturating_add(1))?;
    for (number, rank) in ranks.iter().enumerate() {
        if fails_at(faulty, number) || fails_at(assigning, number) {
            push_number(&mut rows, *rank, number)?;
        }
    }
    Ok(rows)
}

/// Puts down the objects of one rank.
fn add_seeds(seeds: &mut Vec<Seed>, rank: usize, numbers: &[usize]) -> Result<(), AllocError> {
    for number in numbers {
        seeds.push(Seed {
            rank,
            number: *number,
        })?;
    }
    Ok(())
}

/// The objects in which or at which a rule fails, with their ranks, those of the lowest rank first.
pub fn seeds(
    alloc: Global,
    top: usize,
    ranks: &[usize],
    faulty: &[bool],
    assigning: &[bool],
) -> Result<Vec<Seed>, AllocError> {
    let rows = failing_by_rank(alloc, top, ranks, faulty, assigning)?;
    let mut seeds = Vec::new(alloc);
    for (rank, numbers) in rows.iter().enumerate() {
        add_seeds(&mut seeds, rank, numbers)?;
    }
    Ok(seeds)
}
