//! Which classes are maximal.

ghost use Rattle.std.specs.Prelude.{◌≡◌, ◌++◌, ◌∷◌, [], List, not, if◌then◌else◌, IfOk, OnOk};
ghost use Rattle.std.specs.HashMap.{get};
ghost use Rattle.std.specs.List.{list_all, list_any};
ghost use Rattle.go_typed.specs.declared.window.Window.{Window as Member};
ghost use Rattle.clone_window.specs.declared.bounds.Bounds.{Bounds as Limits};
ghost use Rattle.clone_classes.specs.Classes.{AllApart, Among};
ghost use Rattle.clone_classes.specs.Listing.{listing_in, members_of};
ghost use Rattle.clone_report.specs.Maximal as rules;
ghost use Rattle.clone_report.specs.Keys as keys;
ghost use Rattle.clone_report.specs.Keys.{same_run, is_in, numbered, Tells};

use crate::numbers::numbers_of;
use crate::run::{Run, extension};
use crate::side::Side;
use clone_classes::laws::no_window_stands_in_two;
use go_base::Memory;
use go_typed::checked::Checked;
use go_typed::window::{Class, Window};
use std::alloc::{AllocError, Global};
use std::collections::HashMap;

/// The numbers of the maximal classes of a package, counted from 1: those of its clone classes that no other one subsumes. One
/// class subsumes another where each member of that has an extension on one side, the same side for all, that is a member of it.
/// It takes two look-ups a member.
///
/// # Errors
///
/// Want of memory.
pub fn maximal(alloc: Global, checked: &Checked, classes: &[Class]) -> Result<Vec<u32>, Memory>
    requires { (bounds : Limits) × (members_of classes.now ≡ listing_in bounds checked.now) }
    ensures { IfOk result (λ v. v.items ≡ rules.maximal (members_of classes.now)) }
{
    no_window_stands_in_two();
    maximal_of(alloc, classes)
}

/// The same for any classes of which no two share a window.
fn maximal_of(alloc: Global, classes: &[Class]) -> Result<Vec<u32>, Memory>
    requires { AllApart (members_of classes.now) }
    ensures { IfOk result (λ v. v.items ≡ rules.maximal (members_of classes.now)) }
{
    let numbers = numbers_of(alloc, classes)?;
    let mut maximal = Vec::new(alloc);
    for index in 0..classes.len() {
        let number = number_of(index + 1)?;
        let subsumed = is_subsumed(&numbers, classes[index].members.as_slice());
        push_unless(subsumed, number, &mut maximal)?;
    }
    Ok(maximal)
}

/// A count as a number.
fn number_of(count: usize) -> Result<u32, Memory>
    ensures { IfOk result (λ n. n ≡ count) }
{
    u32::try_from(count).map_err(|_| Memory)
}

/// Puts the number of a class behind the others, unless it is subsumed.
fn push_unless(subsumed: bool, number: u32, out: &mut Vec<u32>) -> Result<(), AllocError>
    ensures { OnOk result (out.new.items ≡ out.old.items ++ (if not subsumed then number ∷ [] else [])) }
{
    if !subsumed {
        out.push(number)?;
    }
    Ok(())
}

/// Whether a class subsumes these windows, by the numbers of the classes that have their extensions.
fn is_subsumed(numbers: &HashMap<Run, usize>, members: &[Window]) -> bool
    ensures { (cs : List (List Member)) → Among cs members.now → AllApart cs → Tells (get same_run numbers.now) (numbered 0 cs)
        → result ≡ list_any (rules.is_subsumed_by members.now) cs }
{
    has_extensions(numbers, Side::Before, members) || has_extensions(numbers, Side::After, members)
}

/// Whether one class has the extensions of all these windows on a side.
fn has_extensions(numbers: &HashMap<Run, usize>, side: Side, members: &[Window]) -> bool
    ensures { (cs : List (List Member)) → Among cs members.now → AllApart cs → Tells (get same_run numbers.now) (numbered 0 cs)
        → result ≡ list_any (rules.is_subsumed_on side members.now) cs }
{
    match members {
        [first, ..] => match class_of(numbers, extension(side, *first)) {
            Some(number) => are_in(numbers, side, number, members),
            None => false,
        },
        [] => true,
    }
}

/// Whether the class of this number has the extensions of all these windows on a side.
fn are_in(numbers: &HashMap<Run, usize>, side: Side, number: usize, members: &[Window]) -> bool
    ensures { result ≡ list_all (is_in (get same_run numbers.now) side number) members.now }
{
    for member in members {
        if !is_in(numbers, side, number, *member) {
            return false;
        }
    }
    true
}

/// Whether the class of this number has the extension of a window on a side.
fn is_in(numbers: &HashMap<Run, usize>, side: Side, number: usize, member: Window) -> bool
    ensures { result ≡ is_in (get same_run numbers.now) side number member }
{
    match class_of(numbers, extension(side, member)) {
        Some(found) => found == number,
        None => false,
    }
}

/// The number of the class that has a run as a member, if there is one.
fn class_of(numbers: &HashMap<Run, usize>, run: Option<Run>) -> Option<usize>
    ensures { result ≡ keys.number_of (get same_run numbers.now) run }
{
    match run {
        Some(run) => numbers.get(&run).copied(),
        None => None,
    }
}
