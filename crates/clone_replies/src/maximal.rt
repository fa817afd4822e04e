//! Classes with their numbers, and what of each file is covered.

ghost use Rattle.std.specs.Prelude.{◌≡◌, suc, map, IfOk};
ghost use Rattle.clone_classes.specs.Listing.{members_of};
ghost use Rattle.clone_replies.specs.Classes.{listed_package};
ghost use Rattle.clone_replies.specs.Maximal.{class_at, maximal_text, members_at, numbered};

use crate::shown::{references, shown};
use clone_script::{NumberedClass, maximal_reply as script_reply};
use clone_window::span::function_places;
use go_base::{Bytes, Memory};
use go_typed::checked::Checked;
use go_typed::window::{Class, Window};
use std::alloc::{AllocError, Global};

/// The members of the class of a number, counted from 1; none where there is no such class.
fn members_at(classes: &[Class], number: u32) -> &[Window]
    ensures { result.now ≡ members_at (members_of classes.now) number }
{
    match number.checked_sub(1) {
        Some(index) => members_behind(classes, index as usize),
        None => &[],
    }
}

/// The members of the class behind so many others; none where there is no such class.
fn members_behind(classes: &[Class], index: usize) -> &[Window]
    ensures { result.now ≡ members_at (members_of classes.now) (suc index) }
{
    match classes.get(index) {
        Some(class) => class.members.as_slice(),
        None => &[],
    }
}

/// What the listing shows of the classes of these numbers, each with its number.
fn all_numbered(
    alloc: Global,
    checked: &Checked,
    classes: &[Class],
    numbers: &[u32],
) -> Result<Vec<NumberedClass>, AllocError>
    ensures { IfOk result (λ v. map numbered v.items ≡ map (class_at (listed_package checked.now) (members_of classes.now)) numbers.now) }
{
    let places = function_places(alloc, checked.files())?;
    let mut numbered = Vec::with_capacity(alloc, numbers.len())?;
    for number in numbers {
        let class = shown(alloc, checked, &places, members_at(classes, *number))?;
        numbered.push(NumberedClass {
            number: *number,
            class,
        })?;
    }
    Ok(numbered)
}

/// The reply to `maximal` of a package: how many classes these numbers name, these classes as the listing shows them, each a head and
/// a line for each member, and of each file how many of its statements are covered and how many it has. Classes are numbered from 1;
/// a number that none has shows a class without members. Of the files there is a pair each, in the order of their names.
///
/// # Errors
///
/// Want of memory.
pub fn maximal_reply(
    alloc: Global,
    checked: &Checked,
    classes: &[Class],
    maximal: &[u32],
    covered: &[(u32, u32)],
) -> Result<Bytes, Memory>
    ensures { IfOk result (λ reply. reply ≡ maximal_text checked.now.names (map (class_at (listed_package checked.now) (members_of classes.now)) maximal.now) covered.now) }
{
    let names = references(alloc, checked.names())?;
    let numbered = all_numbered(alloc, checked, classes, maximal)?;
    script_reply(alloc, &names, &numbered, covered)
}
