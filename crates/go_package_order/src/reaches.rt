//! Which declared types stand in types, by numbers of declared types: one number for each type that none of theirs is above.
ghost use Rattle.std.specs.Prelude.{◌≡◌, IfOk, map};
ghost use Rattle.go_package_order.specs.Reaches as specs;
ghost use Rattle.go_package_order.specs.Reaches.{AreReaches, are_closed, is_right_closed, most_of, shape_reach};

use go_base::Memory;
use go_package_rounds::Held;
use go_package_stages::numbers::number_at;
use go_typed::Sort;
use go_types::{Field, Shape, TypeId, Types};
use std::alloc::Global;

/// The greatest number of these types.
fn most_of(reaches: &[usize], of: &[TypeId]) -> usize
    ensures { result ≡ most_of reaches.now of.now }
{
    let mut most: usize = 0;
    for id in of {
        most = most.max(number_at(reaches, *id as usize));
    }
    most
}

/// The greatest number of the types of fields.
fn most_of_fields(reaches: &[usize], fields: &[Field]) -> usize
    ensures { result ≡ most_of reaches.now (map (λ f. f.ty) fields.now) }
{
    let mut most: usize = 0;
    for field in fields {
        most = most.max(number_at(reaches, field.ty as usize));
    }
    most
}

/// The number of a type of this shape, by those of its parts and of declared types.
fn shape_reach(reach: &[usize], reaches: &[usize], shape: &Shape) -> usize
    ensures { result ≡ shape_reach reach.now reaches.now shape.now }
{
    match shape {
        Shape::Bool | Shape::Text | Shape::Int(_) => 0,
        Shape::Array { elem, .. } | Shape::Slice { elem } => number_at(reaches, *elem as usize),
        Shape::Struct { fields } => most_of_fields(reaches, fields.as_slice()),
        Shape::Func { params, results } => {
            most_of(reaches, params.as_slice()).max(most_of(reaches, results.as_slice()))
        }
        Shape::Named { number } => number_at(reach, *number as usize),
    }
}

/// Numbers of all types, by those of declared types.
pub fn reaches_of(alloc: Global, types: &Types, reach: &[usize]) -> Result<Vec<usize>, Memory>
    ensures { IfOk result (λ v. AreReaches reach.now types.now.shapes v.items) }
{
    let mut reaches = Vec::new(alloc);
    for id in 0..types.count() {
        let most = shape_reach(reach, &reaches, types.shape(id));
        reaches.push(most)?;
    }
    Ok(reaches)
}

/// Whether the right side of a declared type, if it has one, has no greater number.
fn is_right_closed(reach: &[usize], reaches: &[usize], place: usize, right: Option<TypeId>) -> bool
    ensures { result ≡ is_right_closed reach.now reaches.now place right }
{
    match right {
        None => true,
        Some(id) => number_at(reaches, id as usize) <= number_at(reach, place),
    }
}

/// Whether those of all declared types have.
pub fn are_closed(reach: &[usize], reaches: &[usize], rights: &[Option<TypeId>]) -> bool
    ensures { result ≡ are_closed reach.now reaches.now 0 rights.now }
{
    for (place, right) in rights.iter().enumerate() {
        if !is_right_closed(reach, reaches, place, *right) {
            return false;
        }
    }
    true
}

/// The number of the type of what an object stands for.
fn sort_reach(reaches: &[usize], stands: &Sort) -> usize
    ensures { result ≡ specs.sort_reach reaches.now stands.now }
{
    match stands {
        Sort::Type(of) | Sort::Value(of) | Sort::Results(of) => number_at(reaches, *of as usize),
        Sort::Constant(of, _) => number_at(reaches, of.id() as usize),
        _ => 0,
    }
}

/// The same of each object.
pub fn held_reaches(alloc: Global, reaches: &[usize], all: &[Held]) -> Result<Vec<usize>, Memory>
    ensures { IfOk result (λ v. v.items ≡ map (λ h. specs.sort_reach reaches.now h.stands) all.now) }
{
    let mut found = Vec::new(alloc);
    for known in all {
        found.push(sort_reach(reaches, &known.stands))?;
    }
    Ok(found)
}
