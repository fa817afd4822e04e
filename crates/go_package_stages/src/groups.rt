//! The objects of a package in groups: each by itself, or with those that need it and that it needs. Nothing rests on the groups.

use go_base::Memory;
use go_needs::components::{components, empty_rows, push_number};
use go_tree::context::Entity;
use go_tree::object::Declared;
use std::alloc::Global;

/// Objects that are judged together: one by itself, or types that name one another; and what they name besides.
#[derive(Drop)]
pub struct Group {
    pub members: Vec<usize>,
    pub are_types: bool,
    pub outside: Vec<usize>,
}

/// The number at a place.
fn component_at(components: &[usize], number: usize) -> usize {
    components.get(number).copied().unwrap_or(0)
}

/// Adds those that are named and belong to another group.
fn add_outside(
    components: &[usize],
    component: usize,
    named: &[usize],
    outside: &mut Vec<usize>,
) -> Result<(), Memory> {
    for number in named {
        if component_at(components, *number) != component {
            outside.push(*number)?;
        }
    }
    Ok(())
}

/// What the objects of a group name besides.
fn outside_of(
    alloc: Global,
    components: &[usize],
    naming: &[Vec<usize>],
    members: &[usize],
) -> Result<Vec<usize>, Memory> {
    let mut outside = Vec::new(alloc);
    for member in members {
        if let Some(named) = naming.get(*member) {
            let component = component_at(components, *member);
            add_outside(components, component, named, &mut outside)?;
        }
    }
    Ok(outside)
}

/// Whether the first one is a type.
fn is_type_first(objects: &[Declared], members: &[usize]) -> bool {
    let Some(first) = members.first() else {
        return false;
    };
    match objects.get(*first) {
        Some(declared) => matches!(declared.entity, Entity::Type),
        None => false,
    }
}

/// The objects of each component, in this order.
fn rows_of(
    alloc: Global,
    components: &[usize],
    order: &[usize],
) -> Result<Vec<Vec<usize>>, Memory> {
    let mut rows = empty_rows(alloc, components.len().saturating_add(1))?;
    for number in order {
        push_number(&mut rows, component_at(components, *number), *number)?;
    }
    Ok(rows)
}

/// Groups of the objects that name these, in an order in which each stands behind those that it needs; the objects of a group stand in
/// it as in `order`.
pub fn groups(
    alloc: Global,
    objects: &[Declared],
    naming: &[Vec<usize>],
    order: &[usize],
) -> Result<Vec<Group>, Memory> {
    let components = components(alloc, naming)?;
    let mut groups = Vec::new(alloc);
    for members in rows_of(alloc, &components, order)? {
        if members.is_empty() {
            continue;
        }
        let are_types = is_type_first(objects, &members);
        let outside = outside_of(alloc, &components, naming, &members)?;
        groups.push(Group {
            members,
            are_types,
            outside,
        })?;
    }
    Ok(groups)
}
