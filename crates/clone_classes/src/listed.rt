//! Classes in order.

ghost use Rattle.std.specs.Prelude.{◌≡◌, IfOk, OnOk};
ghost use Rattle.std.specs.List.Sorted.{IsPermutation, IsSortedByKey};
ghost use Rattle.clone_window.specs.Bodies.{bodies_of};
ghost use Rattle.clone_classes.specs.Choices.{place_of};
ghost use Rattle.clone_classes.specs.Orders.{place_cmp, class_place, AreOrdered, IsListed, IsOrdered};

use crate::place::{Place, place_of};
use go_base::Memory;
use go_typed::checked::Checked;
use go_typed::window::{Class, Window, Windows};
use std::alloc::{AllocError, Global};

/// Groups as classes are listed: the members of each by function, first and last token, and the groups by their first members.
/// Functions are numbered by files and places, so this is the order by file, start and end.
///
/// # Errors
///
/// Want of memory.
pub fn listed(alloc: Global, checked: &Checked, groups: Vec<Class>) -> Result<Vec<Class>, Memory>
    ensures { IfOk result (λ cs. IsListed (place_of (bodies_of checked.now.functions)) groups.items cs.items) }
{
    let mut classes = in_themselves(alloc, checked, &groups)?;
    sort_classes(checked, &mut classes)?;
    Ok(classes)
}

/// Groups, each with its members in order.
fn in_themselves(
    alloc: Global,
    checked: &Checked,
    groups: &[Class],
) -> Result<Vec<Class>, AllocError>
    ensures { IfOk result (λ v. AreOrdered (place_of (bodies_of checked.now.functions)) groups.now v.items) }
{
    let mut classes = Vec::with_capacity(alloc, groups.len())?;
    for group in groups {
        classes.push(in_itself(alloc, checked, group)?)?;
    }
    Ok(classes)
}

/// A group with its members in order.
fn in_itself(alloc: Global, checked: &Checked, group: &Class) -> Result<Class, AllocError>
    ensures { IfOk result (λ c. IsOrdered (place_of (bodies_of checked.now.functions)) group.now c) }
{
    let mut members = Vec::from_slice(alloc, group.members.as_slice())?;
    sort_members(checked, &mut members)?;
    Ok(Class {
        members: Windows::of(members),
    })
}

/// Puts windows in order.
fn sort_members(checked: &Checked, windows: &mut Vec<Window>) -> Result<(), AllocError>
    ensures moved { IsPermutation windows.old.items windows.new.items }
    ensures sorted { OnOk result (IsSortedByKey (place_of (bodies_of checked.now.functions)) place_cmp windows.new.items) }
{
    windows.sort_by_cached_key(|window| place_of(checked, window))?;
    Ok(())
}

/// Puts classes in the order of their first members.
fn sort_classes(checked: &Checked, classes: &mut Vec<Class>) -> Result<(), AllocError>
    ensures moved { IsPermutation classes.old.items classes.new.items }
    ensures sorted { OnOk result (IsSortedByKey (class_place (place_of (bodies_of checked.now.functions))) place_cmp classes.new.items) }
{
    classes.sort_by_cached_key(|class| class_place(checked, class))?;
    Ok(())
}

/// The place of the first member of a class.
fn class_place(checked: &Checked, class: &Class) -> Place
    ensures { result ≡ class_place (place_of (bodies_of checked.now.functions)) class.now }
{
    match class.members.as_slice() {
        [first, ..] => place_of(checked, first),
        _ => Place {
            func: 0,
            from: 0,
            to: 0,
        },
    }
}
