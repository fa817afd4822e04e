//! Where members of classes end, in a table.

ghost use Rattle.std.specs.Prelude.{◌≡◌, ◌+◌, ◌++◌, List, IfOk, OnOk};
ghost use Rattle.std.specs.HashMap.{get};
ghost use Rattle.std.specs.List.{flat_map};
ghost use Rattle.go_typed.specs.declared.window.Window.{Window as Member};
ghost use Rattle.clone_classes.specs.Listing.{members_of};
ghost use Rattle.clone_report.specs.Ends as rules;
ghost use Rattle.clone_report.specs.Ends.{same_start, Reaches};

use go_base::Memory;
use go_typed::window::{Class, Window};
use std::alloc::{AllocError, Global};
use std::collections::HashMap;

/// A statement of a statement list of a function.
#[derive(Clone, Copy, Debug, PartialEq, Eq, Hash)]
pub(crate) struct Start {
    pub(crate) func: u32,
    pub(crate) list: u32,
    /// Its place in the list, from 0.
    pub(crate) first: u32,
}

/// Of each statement that members begin with, the place behind the last statement of these that goes furthest.
pub(crate) fn ends_of(alloc: Global, classes: &[Class]) -> Result<HashMap<Start, u64>, Memory>
    ensures { IfOk result (λ m. Reaches (get same_start m) (flat_map (λ c. c) (members_of classes.now))) }
{
    let mut ends = HashMap::new(alloc);
    for class in classes {
        put_class(&mut ends, class.members.as_slice())?;
    }
    Ok(ends)
}

/// Notes where these members end.
fn put_class(ends: &mut HashMap<Start, u64>, members: &[Window]) -> Result<(), AllocError>
    ensures { OnOk result ((ws : List Member) → Reaches (get same_start ends.old) ws → Reaches (get same_start ends.new) (ws ++ members.now)) }
{
    for member in members {
        let start = start_of(*member);
        let end = end_at(ends, start).max(end_of(*member));
        ends.insert(start, end)?;
    }
    Ok(())
}

/// The first statement of a window.
fn start_of(window: Window) -> Start
    ensures { result ≡ rules.start_of window }
{
    Start {
        func: window.func,
        list: window.list,
        first: window.first,
    }
}

/// The place behind the last statement of a window.
fn end_of(window: Window) -> u64
    ensures { result ≡ window.first + window.count }
{
    u64::from(window.first) + u64::from(window.count)
}

/// The place behind the last statement of the members that begin there, 0 where none does.
pub(crate) fn end_at(ends: &HashMap<Start, u64>, start: Start) -> u64
    ensures { result ≡ rules.end_at (get same_start ends.now) start }
{
    ends.get(&start).copied().unwrap_or(0)
}
