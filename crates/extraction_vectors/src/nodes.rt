//! The nodes of a function by number.
use go_typed::node::TypedNode;
use std::alloc::{AllocError, Global};

/// The nodes of a tree, each before those within it and otherwise in order of place.
///
/// # Errors
///
/// Want of memory.
pub fn nodes_of(alloc: Global, tree: &TypedNode) -> Result<Vec<&TypedNode>, AllocError> {
    let mut nodes = Vec::new(alloc);
    push_nodes(tree, &mut nodes)?;
    Ok(nodes)
}

/// Puts the nodes of a tree behind the others.
fn push_nodes<'a>(node: &'a TypedNode, nodes: &mut Vec<&'a TypedNode>) -> Result<(), AllocError> {
    nodes.push(node)?;
    for part in &node.parts {
        if let Some(part) = part {
            push_nodes(part, nodes)?;
        }
    }
    Ok(())
}
