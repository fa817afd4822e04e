//! The classes of windows by number, in a table.

ghost use Rattle.std.specs.Prelude.{◌≡◌, ◌++◌, ℕ, List, map, IfOk, OnOk};
ghost use Rattle.std.specs.HashMap.{get};
ghost use Rattle.go_typed.specs.declared.window.Window.{Window as Member};
ghost use Rattle.clone_classes.specs.Listing.{members_of};
ghost use Rattle.clone_report.specs.Keys.{same_run, numbered, with_number, Tells};

use crate::run::{Run, run_of};
use go_base::Memory;
use go_typed::window::{Class, Window};
use std::alloc::{AllocError, Global};
use std::collections::HashMap;

/// The number of a class of each member, where classes are numbered from 0.
pub(crate) fn numbers_of(alloc: Global, classes: &[Class]) -> Result<HashMap<Run, usize>, Memory>
    ensures { IfOk result (λ m. Tells (get same_run m) (numbered 0 (members_of classes.now))) }
{
    let mut numbers = HashMap::new(alloc);
    for index in 0..classes.len() {
        put_class(&mut numbers, index, classes[index].members.as_slice())?;
    }
    Ok(numbers)
}

/// Notes the number of a class for each of its members.
fn put_class(
    numbers: &mut HashMap<Run, usize>,
    number: usize,
    members: &[Window],
) -> Result<(), AllocError>
    ensures { OnOk result ((ps : List (Member × ℕ)) → Tells (get same_run numbers.old) ps → Tells (get same_run numbers.new) (ps ++ map (with_number number) members.now)) }
{
    for member in members {
        numbers.insert(run_of(*member), number)?;
    }
    Ok(())
}
