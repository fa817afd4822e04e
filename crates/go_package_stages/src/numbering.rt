//! Numbers by an order of groups of objects. Nothing rests on them.

use crate::groups::Group;
use crate::numbers::Numbers;
use go_base::Memory;
use go_needs::Bound;
use go_tree::context::Entity;
use go_tree::object::Declared;
use std::alloc::Global;

/// Numbers of which nothing is known.
fn no_numbers(alloc: Global, count: usize) -> Result<Numbers, Memory> {
    let none = Bound {
        at_once: 0,
        in_full: 0,
    };
    Ok(Numbers {
        stands: vec![in alloc; 0usize; count]?,
        told: vec![in alloc; 0usize; count]?,
        own: vec![in alloc; 0usize; count]?,
        reach: vec![in alloc; 0usize; count]?,
        told_bounds: vec![in alloc; none; count]?,
        own_bounds: vec![in alloc; none; count]?,
    })
}

/// Puts a number at a place that there is.
fn put(numbers: &mut Vec<usize>, place: usize, number: usize) {
    if place < numbers.len() {
        numbers[place] = number;
    }
}

/// Puts a bound at a place that there is.
fn put_bound(bounds: &mut Vec<Bound>, place: usize, at_once: usize, in_full: usize) {
    if place < bounds.len() {
        bounds[place] = Bound { at_once, in_full };
    }
}

/// Of each object how many types are in front of it.
fn type_places(alloc: Global, objects: &[Declared]) -> Result<Vec<usize>, Memory> {
    let mut places = Vec::new(alloc);
    let mut next: usize = 0;
    for declared in objects {
        places.push(next)?;
        if matches!(declared.entity, Entity::Type) {
            next = next.saturating_add(1);
        }
    }
    Ok(places)
}

/// All of a value is known at once.
fn put_value(numbers: &mut Numbers, number: usize, own: usize) {
    put(&mut numbers.stands, number, own);
    put(&mut numbers.told, number, own);
    put(&mut numbers.own, number, own);
    put_bound(&mut numbers.told_bounds, number, own, own);
    put_bound(&mut numbers.own_bounds, number, own, own);
}

/// Puts down the numbers of values, from one on; answers the next one.
fn put_values(numbers: &mut Numbers, members: &[usize], first: usize) -> usize {
    let mut next = first;
    for number in members {
        put_value(numbers, *number, next);
        next = next.saturating_add(1);
    }
    next
}

/// Puts down those of a type in a group of `count` types whose numbers begin at `first`. What it stands for is known from the start, and
/// its rules are judged when all right sides of the group are known.
fn put_type(numbers: &mut Numbers, number: usize, first: usize, count: usize, told: usize) {
    let behind = first.saturating_add(count);
    let own = told.saturating_add(count);
    let last = behind.saturating_add(count).saturating_sub(1);
    put(&mut numbers.told, number, told);
    put(&mut numbers.own, number, own);
    put_bound(
        &mut numbers.told_bounds,
        number,
        told,
        behind.saturating_sub(1),
    );
    put_bound(&mut numbers.own_bounds, number, own, last);
}

/// Puts down the numbers of types that name one another, from one on; answers the next one.
fn put_types(numbers: &mut Numbers, places: &[usize], members: &[usize], first: usize) -> usize {
    let count = members.len();
    let behind = first.saturating_add(count);
    let mut told = first;
    for number in members {
        put_type(numbers, *number, first, count, told);
        if let Some(place) = places.get(*number) {
            put(&mut numbers.reach, *place, behind.saturating_sub(1));
        }
        told = told.saturating_add(1);
    }
    behind.saturating_add(count)
}

/// Numbers for groups, each behind those in front of it.
pub fn numbers_for(
    alloc: Global,
    objects: &[Declared],
    groups: &[Group],
) -> Result<Numbers, Memory> {
    let places = type_places(alloc, objects)?;
    let mut numbers = no_numbers(alloc, objects.len())?;
    let mut next: usize = 1;
    for group in groups {
        next = if group.are_types {
            put_types(&mut numbers, &places, &group.members, next)
        } else {
            put_values(&mut numbers, &group.members, next)
        };
    }
    Ok(numbers)
}
