//! The objects that each object names, where they have to be known before it. Nothing rests on the lists being right.

use go_base::Memory;
use go_declarations::Specification;
use go_declarations::judging::own_value;
use go_grammar::kind::Kind;
use go_needs::Needs;
use go_tree::context::Entity;
use go_tree::node::Node;
use go_tree::object::Object;
use go_tree::uses::Uses;
use std::alloc::Global;

/// Whether a type names what it needs later than its right side: that of the elements of a slice, and a function type.
fn is_later(node: &Node) -> bool {
    match node.kind() {
        Kind::FunctionType => true,
        Kind::SequenceType => matches!(node.parts(), [None, ..]),
        _ => false,
    }
}

/// Adds the object of the package that a node names, if it names one.
fn add_name(uses: &Uses, file: usize, node: &Node, found: &mut Vec<usize>) -> Result<(), Memory> {
    if matches!(node.kind(), Kind::Name) {
        if let Some(Object::Package(number)) = uses.object(file, node.first() as usize) {
            found.push(number)?;
        }
    }
    Ok(())
}

/// Adds the objects of the package that a tree names; of a type, where `at_once` says so, those alone that its right side needs.
#[cycle(each)]
fn add_names(
    uses: &Uses,
    file: usize,
    at_once: bool,
    node: &Node,
    found: &mut Vec<usize>,
) -> Result<(), Memory> {
    if at_once && is_later(node) {
        return Ok(());
    }
    add_name(uses, file, node, found)?;
    add_parts(uses, file, at_once, node.parts(), found)
}

#[cycle(each)]
fn add_parts(
    uses: &Uses,
    file: usize,
    at_once: bool,
    parts: &[Option<Node>],
    found: &mut Vec<usize>,
) -> Result<(), Memory> {
    for part in parts {
        let Some(node) = part else { continue };
        add_names(uses, file, at_once, node, found)?;
    }
    Ok(())
}

/// Adds those of a tree, if there is one.
fn add_part(
    uses: &Uses,
    file: usize,
    at_once: bool,
    part: Option<&Node>,
    found: &mut Vec<usize>,
) -> Result<(), Memory> {
    match part {
        Some(node) => add_names(uses, file, at_once, node, found),
        None => Ok(()),
    }
}

/// The objects that the object of this number names; of a type all of them, or those alone that its right side needs.
fn named_by(
    alloc: Global,
    uses: &Uses,
    specifications: &[Specification<'_>],
    needs: &Needs,
    number: usize,
    all: bool,
) -> Result<Vec<usize>, Memory> {
    let mut found = Vec::new(alloc);
    let Some(place) = needs.declaring(number) else {
        return Ok(found);
    };
    let Some(specification) = specifications.get(place.specification) else {
        return Ok(found);
    };
    let at_once = !all && matches!(specification.entity, Entity::Type);
    let value = own_value(specification, place.column);
    add_part(
        uses,
        specification.file,
        at_once,
        specification.of,
        &mut found,
    )?;
    add_part(uses, specification.file, false, value, &mut found)?;
    Ok(found)
}

/// The objects that each object names; of types all of them, or those alone that their right sides need.
pub fn naming(
    alloc: Global,
    uses: &Uses,
    specifications: &[Specification<'_>],
    needs: &Needs,
    all: bool,
) -> Result<Vec<Vec<usize>>, Memory> {
    let mut rows = Vec::new(alloc);
    for number in 0..uses.package_objects().len() {
        let row = named_by(alloc, uses, specifications, needs, number, all)?;
        rows.push(row)?;
    }
    Ok(rows)
}
