//! What of a template is handed over in neither direction: the holes that stay in its text, and the names that it declares and that
//! nothing behind it needs.
use crate::items::Items;
use crate::names::{add_node, local_name};
use clone_window::mass::{is_hole, is_inside};
use go_base::Memory;
use go_typed::checked::Checked;
use go_typed::form::Form;
use go_typed::node::TypedNode;
use param_choose::plan::{Param, Plan, PlanResult};
use std::alloc::{AllocError, Global};

/// The holes that stay, as `hole START-END`, and the declared names that are no results, as `name NAME`, of a template with these
/// statements.
///
/// # Errors
///
/// Want of memory.
pub fn staying_text(
    alloc: Global,
    package: &Checked,
    func: u32,
    nodes: &[&TypedNode],
    statements: &[Option<TypedNode>],
    plan: &Plan,
) -> Result<Items, Memory> {
    let mut out = Items::new(alloc);
    let taken = taken_holes(alloc, nodes, plan.params.as_slice())?;
    let holes = holes_of(alloc, statements)?;
    push_staying(alloc, package, func, &holes, &taken, &mut out)?;
    push_names(alloc, package, func, statements, plan, &mut out)?;
    Ok(out)
}

/// Puts the holes that are not taken behind the other items.
fn push_staying(
    alloc: Global,
    package: &Checked,
    func: u32,
    holes: &[&TypedNode],
    taken: &[&TypedNode],
    out: &mut Items,
) -> Result<(), Memory> {
    for hole in holes {
        if !is_among(hole, taken) {
            out.begin(b"hole")?;
            add_node(alloc, package, func, hole, out)?;
        }
    }
    Ok(())
}

/// The holes of statements, in order of place.
fn holes_of<'a>(
    alloc: Global,
    statements: &'a [Option<TypedNode>],
) -> Result<Vec<&'a TypedNode>, AllocError> {
    let mut holes = Vec::new(alloc);
    for statement in statements {
        if let Some(statement) = statement {
            push_holes(false, statement, &mut holes)?;
        }
    }
    Ok(holes)
}

/// Puts the holes of a tree, which may stand inside a constant expression, behind the others.
fn push_holes<'a>(
    inside: bool,
    node: &'a TypedNode,
    out: &mut Vec<&'a TypedNode>,
) -> Result<(), AllocError> {
    if is_hole(inside, node) {
        out.push(node)?;
        return Ok(());
    }
    let within = is_inside(inside, node);
    for part in &node.parts {
        if let Some(part) = part {
            push_holes(within, part, out)?;
        }
    }
    Ok(())
}

/// The nodes of the holes that are parameters.
pub fn taken_holes<'a>(
    alloc: Global,
    nodes: &[&'a TypedNode],
    params: &[Param],
) -> Result<Vec<&'a TypedNode>, AllocError> {
    let mut taken = Vec::new(alloc);
    for param in params {
        if let Param::Hole { node, .. } = *param {
            if let Some(node) = nodes.get(node as usize) {
                taken.push(*node)?;
            }
        }
    }
    Ok(taken)
}

/// Whether a node has the tokens of one of others.
fn is_among(node: &TypedNode, others: &[&TypedNode]) -> bool {
    others.iter().any(|other| other.first == node.first && other.last == node.last)
}

/// Puts the declared names that are no results behind the other items.
fn push_names(
    alloc: Global,
    package: &Checked,
    func: u32,
    statements: &[Option<TypedNode>],
    plan: &Plan,
    out: &mut Items,
) -> Result<(), Memory> {
    let declared = declared_in(alloc, statements)?;
    for local in &declared {
        if !is_result(*local, plan.results.as_slice()) {
            out.begin(b"name")?;
            out.add(local_name(package, func, *local))?;
        }
    }
    Ok(())
}

/// The locals that statements declare in the block of their list, in order.
fn declared_in(alloc: Global, statements: &[Option<TypedNode>]) -> Result<Vec<u32>, AllocError> {
    let mut declared = Vec::new(alloc);
    for statement in statements {
        if let Some(statement) = statement {
            push_declared(statement, &mut declared)?;
        }
    }
    Ok(declared)
}

/// Puts the locals that a statement declares in the block of its list behind the others.
fn push_declared(statement: &TypedNode, out: &mut Vec<u32>) -> Result<(), AllocError> {
    match statement.form {
        Form::Define(_) | Form::Constants | Form::TypeNames => { push_new(&statement.parts, out) }
        Form::Variables => push_specified(&statement.parts, out),
        _ => Ok(()),
    }
}

/// Puts the locals that specifications declare behind the others.
fn push_specified(parts: &[Option<TypedNode>], out: &mut Vec<u32>) -> Result<(), AllocError> {
    for part in parts {
        if let Some(specification) = part {
            push_new(&specification.parts, out)?;
        }
    }
    Ok(())
}

/// Puts the locals that nodes declare by themselves behind the others.
fn push_new(parts: &[Option<TypedNode>], out: &mut Vec<u32>) -> Result<(), AllocError> {
    for part in parts {
        if let Some(node) = part {
            push_own(node, out)?;
        }
    }
    Ok(())
}

/// Puts the local that a node declares behind the others, if it does so itself.
fn push_own(node: &TypedNode, out: &mut Vec<u32>) -> Result<(), AllocError> {
    match node.form {
        Form::New(local) => out.push(local)?,
        Form::Declared(local) => out.push(local)?,
        _ => {}
    }
    Ok(())
}

/// Whether a local is a result that the template declares.
fn is_result(local: u32, results: &[PlanResult]) -> bool {
    results.iter().any(|found| match *found {
        PlanResult::Declared { local: other, .. } => other == local,
        PlanResult::Assigned { .. } => false,
    })
}
