//! Trees whose tokens are counted from a function's first one.
ghost use Rattle.std.specs.Prelude.{◌≡◌, IfOk};
ghost use Rattle.go_tree.specs.Views.{view, views};
ghost use Rattle.go_stmts_defs.specs.Bodies.{based, all_based};

use go_base::Memory;
use go_tree::node::Node;
use std::alloc::Global;

/// The tree with its tokens counted from the token `base` on.
///
/// # Errors
///
/// Want of memory.
#[cycle(based)]
#[tactic(auto, using(crate::proofs::Bases::node_based))]
pub fn based(alloc: Global, base: u32, node: &Node) -> Result<Node, Memory>
    ensures { IfOk result (λ n. view n ≡ based base (view node.now)) }
{
    let kind = node.kind();
    let first = node.first().saturating_sub(base);
    let last = node.last().saturating_sub(base);
    let parts = all_based(alloc, base, node.parts())?;
    Ok(Node::new(kind, first, last, parts))
}

#[cycle(based)]
#[tactic(auto, using(crate::proofs::Bases::all_is))]
fn all_based(alloc: Global, base: u32, parts: &[Option<Node>]) -> Result<Vec<Option<Node>>, Memory>
    ensures { IfOk result (λ ns. views ns.items ≡ all_based base (views parts.now)) }
{
    let mut out = Vec::with_capacity(alloc, parts.len())?;
    for part in parts {
        match part {
            Some(node) => out.push(Some(based(alloc, base, node)?))?,
            None => out.push(None)?,
        }
    }
    Ok(out)
}
