//! Which holes of a template have other values in other windows.

ghost use Rattle.std.specs.Prelude.{◌≡◌, false, length, replicate, slice_get, IfOk};
ghost use Rattle.std.specs.Option.{option_map};
ghost use Rattle.go_typed.specs.Views.{sort_view, views};
ghost use Rattle.clone_window.specs.Sameness.{same_value, value_of};
ghost use Rattle.param_choose.specs.Holes as specs;
ghost use Rattle.param_choose.specs.Members.{members_in};
ghost use Rattle.param_choose.specs.Marks as rows;
ghost use Rattle.param_choose.specs.Shown.{holes_view, values_view};

use crate::holes::{Hole, holes_of};
use clone_window::alike::same_bytes;
use clone_window::run::statements;
use go_constants::Const;
use go_typed::checked::Checked;
use go_typed::node::TypedNode;
use go_typed::sort::Sort;
use go_typed::window::Window;
use std::alloc::{AllocError, Global};

/// Which of some holes have another value at their place in some window.
///
/// # Errors
///
/// Want of memory.
#[tactic(auto, using(crate::proofs::Members::member_there, crate::proofs::Members::member_missing))]
pub fn differing(
    alloc: Global,
    checked: &Checked,
    holes: &[Hole<'_>],
    windows: &[Window],
) -> Result<Vec<bool>, AllocError>
    ensures { IfOk result (λ v. v.items ≡ rows.differing (values_view holes.now) (replicate (length holes.now) false) (members_in checked.now windows.now)) }
{
    let mut found = unmarked(alloc, holes.len())?;
    for window in windows {
        if let Some(func) = checked.function(window.func) {
            found = or_differing(alloc, holes, statements(func, window), &found)?;
        }
    }
    Ok(found)
}

/// As many marks that are not set.
pub fn unmarked(alloc: Global, count: usize) -> Result<Vec<bool>, AllocError>
    ensures { IfOk result (λ v. v.items ≡ replicate count false) }
{
    vec![in alloc; false; count]
}

/// Which of some holes are marked, or have another value at their place in statements.
fn or_differing(
    alloc: Global,
    holes: &[Hole<'_>],
    statements: &[Option<TypedNode>],
    found: &[bool],
) -> Result<Vec<bool>, AllocError>
    ensures { IfOk result (λ v. v.items ≡ rows.either_each found.now (rows.differ_each (values_view holes.now) 0 (specs.holes_among 0 false (views statements.now)))) }
{
    let others = holes_of(alloc, statements)?;
    let row = differ_each(alloc, holes, &others)?;
    either_each(alloc, found, &row)
}

/// Which of some holes have another value than the ones at their places.
fn differ_each(
    alloc: Global,
    holes: &[Hole<'_>],
    others: &[Hole<'_>],
) -> Result<Vec<bool>, AllocError>
    ensures { IfOk result (λ v. v.items ≡ rows.differ_each (values_view holes.now) 0 (holes_view others.now)) }
{
    let mut row = Vec::with_capacity(alloc, holes.len())?;
    let mut index: usize = 0;
    for hole in holes {
        row.push(differs_at(hole.sort, others, index))?;
        index += 1;
    }
    Ok(row)
}

/// Whether a constant is not the value of the hole at a place.
fn differs_at(sort: &Sort, others: &[Hole<'_>], index: usize) -> bool
    ensures { result ≡ specs.differs_from (value_of (sort_view sort.now)) (slice_get (holes_view others.now) index) }
{
    match others.get(index) {
        Some(other) => differ(sort, other.sort),
        None => false,
    }
}

/// The one or the other, place by place.
#[tactic(auto, using(crate::proofs::Marks::either_is))]
pub fn either_each(alloc: Global, left: &[bool], right: &[bool]) -> Result<Vec<bool>, AllocError>
    ensures { IfOk result (λ v. v.items ≡ rows.either_each left.now right.now) }
{
    let mut row = Vec::with_capacity(alloc, left.len())?;
    let mut index: usize = 0;
    for mark in left {
        row.push(*mark || mark_at(right, index))?;
        index += 1;
    }
    Ok(row)
}

/// The mark of this place, if there is one.
pub fn mark_at(marks: &[bool], index: usize) -> bool
    ensures { result ≡ rows.mark_at marks.now index }
{
    match marks.get(index) {
        Some(mark) => *mark,
        None => false,
    }
}

/// Whether both are constants, of other values.
fn differ(a: &Sort, b: &Sort) -> bool
    ensures { result ≡ specs.differ (value_of (sort_view a.now)) (value_of (sort_view b.now)) }
{
    match (value_of(a), value_of(b)) {
        (Some(a), Some(b)) => !same_value(a, b),
        _ => false,
    }
}

/// The value of a constant.
fn value_of(sort: &Sort) -> Option<&Const>
    ensures { option_map (λ c. c.now) result ≡ value_of (sort_view sort.now) }
{
    match sort {
        Sort::Constant(_, value) => Some(value.get()),
        Sort::OpenConstant(value) => Some(value.get()),
        _ => None,
    }
}

/// Whether two constants are equal, whatever their kinds are.
fn same_value(a: &Const, b: &Const) -> bool
    ensures { result ≡ same_value a.now b.now }
{
    match (a, b) {
        (Const::Bool(a), Const::Bool(b)) => a == b,
        (Const::Int { value: a, .. }, Const::Int { value: b, .. }) => a == b,
        (Const::Text(a), Const::Text(b)) => same_bytes(a.as_slice(), b.as_slice()),
        _ => false,
    }
}
