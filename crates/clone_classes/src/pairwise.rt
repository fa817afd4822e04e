//! Clone classes by comparing every window with every other.

ghost use Rattle.std.specs.Prelude.{◌≡◌, ◌≤◌, ◌∷◌, ◌++◌, length, filter, nat_lt, if◌then◌else◌, [], IfOk, OnOk};
ghost use Rattle.std.specs.List.{list_any};
ghost use Rattle.clone_window.specs.Bodies.{bodies_of, same_in};
ghost use Rattle.clone_classes.specs.Classes.{class_led_by};
ghost use Rattle.clone_classes.specs.Listing.{listing_in, members_of, windows_of_all};

use clone_window::same::same;
use clone_window::windows::windows_of;
use go_base::{Memory, Steps};
use go_typed::checked::Checked;
use go_typed::window::{Class, Window, Windows};
use std::alloc::Global;
use std::sync::ledger::Ledger;

/// The clone classes of a package: the groups of two or more of its windows that are the same, found by comparing every window
/// with every other. It is slow, and plainly right.
///
/// # Errors
///
/// Want of memory.
pub fn pairwise<L: Ledger>(
    alloc: Global,
    checked: &Checked,
    min: u32,
    mass: u32,
    steps: &mut Steps<L>,
) -> Result<Vec<Class>, Memory>
    requires some { 1 ≤ min }
    requires at_most { min ≤ 32 }
    requires heavy { 1 ≤ mass }
    requires light { mass ≤ 1000 }
    ensures { IfOk result (λ cs. members_of cs.items ≡ listing_in (record { fewest = min; least = mass }) checked.now) }
{
    let windows = all_windows(alloc, checked, min, mass)?;
    let mut classes = Vec::new(alloc);
    for index in 0..windows.len() {
        let (earlier, later) = (&windows[..index], &windows[index + 1..]);
        push_class(
            alloc,
            checked,
            earlier,
            windows[index],
            later,
            steps,
            &mut classes,
        )?;
    }
    Ok(classes)
}

/// The windows of a package, in order.
///
/// # Errors
///
/// Want of memory.
pub fn all_windows(
    alloc: Global,
    checked: &Checked,
    min: u32,
    mass: u32,
) -> Result<Vec<Window>, Memory>
    requires some { 1 ≤ min }
    requires at_most { min ≤ 32 }
    requires heavy { 1 ≤ mass }
    requires light { mass ≤ 1000 }
    ensures { IfOk result (λ v. v.items ≡ windows_of_all (record { fewest = min; least = mass }) 0 (bodies_of checked.now.functions)) }
{
    let _types = checked.types();
    let mut out = Vec::new(alloc);
    for f in checked.functions() {
        let windows = windows_of(alloc, f, min, mass)?;
        out.extend_from_slice(&windows)?;
    }
    Ok(out)
}

/// Puts the class that a window leads among earlier and later ones behind the others, if it leads one.
fn push_class<L: Ledger>(
    alloc: Global,
    checked: &Checked,
    earlier: &[Window],
    window: Window,
    later: &[Window],
    steps: &mut Steps<L>,
    classes: &mut Vec<Class>,
) -> Result<(), Memory>
    ensures { OnOk result (members_of classes.new.items ≡ members_of classes.old.items
        ++ class_led_by (same_in checked.now) earlier.now window later.now) }
{
    if is_among(alloc, checked, window, earlier, steps)? {
        return Ok(());
    }
    let members = led_by(alloc, checked, window, later, steps)?;
    push_group(members, classes)
}

/// Puts a group of windows behind the classes, if there are two or more.
fn push_group(members: Vec<Window>, classes: &mut Vec<Class>) -> Result<(), Memory>
    ensures { OnOk result (members_of classes.new.items ≡ members_of classes.old.items ++ (if nat_lt 1 (length members.items) then members.items ∷ [] else [])) }
{
    if members.len() > 1 {
        classes.push(Class {
            members: Windows::of(members),
        })?;
    }
    Ok(())
}

/// Whether a window is the same as one of others.
fn is_among<L: Ledger>(
    alloc: Global,
    checked: &Checked,
    window: Window,
    others: &[Window],
    steps: &mut Steps<L>,
) -> Result<bool, Memory>
    ensures { IfOk result (λ b. b ≡ list_any (same_in checked.now window) others.now) }
{
    for other in others {
        if same(alloc, checked, window, *other, steps)? {
            return Ok(true);
        }
    }
    Ok(false)
}

/// A window and those of others that are the same.
fn led_by<L: Ledger>(
    alloc: Global,
    checked: &Checked,
    window: Window,
    others: &[Window],
    steps: &mut Steps<L>,
) -> Result<Vec<Window>, Memory>
    ensures { IfOk result (λ v. v.items ≡ window ∷ filter (same_in checked.now window) others.now) }
{
    let mut members = Vec::new(alloc);
    members.push(window)?;
    for other in others {
        if same(alloc, checked, window, *other, steps)? {
            members.push(*other)?;
        }
    }
    Ok(members)
}
