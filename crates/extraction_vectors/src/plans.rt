//! Parameters and results as tables write them.
use crate::items::Items;
use crate::names::{add_node, add_type, local_name};
use go_base::Memory;
use go_typed::checked::Checked;
use go_typed::node::TypedNode;
use go_types::TypeId;
use param_choose::plan::{Param, PlanResult};
use std::alloc::Global;

/// Parameters, as `free NAME TYPE` or `hole START-END TYPE`, of windows whose template stands in the function of this number and these
/// nodes.
///
/// # Errors
///
/// Want of memory.
pub fn parameters_text(
    alloc: Global,
    package: &Checked,
    func: u32,
    nodes: &[&TypedNode],
    params: &[Param],
) -> Result<Items, Memory> {
    let mut out = Items::new(alloc);
    for param in params {
        match *param {
            Param::Free { local, ty } => {
                push_local(alloc, package, b"free", func, local, ty, &mut out)?;
            }
            Param::Hole { node, ty } => {
                out.begin(b"hole")?;
                if let Some(node) = nodes.get(node as usize) {
                    add_node(alloc, package, func, node, &mut out)?;
                }
                add_type(alloc, package, ty, &mut out)?;
            }
        }
    }
    Ok(out)
}

/// Results, as `assigned NAME TYPE` or `declared NAME TYPE`.
///
/// # Errors
///
/// Want of memory.
pub fn results_text(
    alloc: Global,
    package: &Checked,
    func: u32,
    results: &[PlanResult],
) -> Result<Items, Memory> {
    let mut out = Items::new(alloc);
    for found in results {
        match *found {
            PlanResult::Assigned { local, ty } => {
                push_local(alloc, package, b"assigned", func, local, ty, &mut out)?;
            }
            PlanResult::Declared { local, ty } => {
                push_local(alloc, package, b"declared", func, local, ty, &mut out)?;
            }
        }
    }
    Ok(out)
}

/// Puts a word, a local and its type behind the other items.
fn push_local(
    alloc: Global,
    package: &Checked,
    word: &[u8],
    func: u32,
    local: u32,
    ty: TypeId,
    out: &mut Items,
) -> Result<(), Memory> {
    out.begin(word)?;
    out.add(local_name(package, func, local))?;
    add_type(alloc, package, ty, out)
}
