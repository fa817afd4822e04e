//! Groups of windows that are the same.

ghost use Rattle.std.specs.Prelude.{◌≡◌, ◌≤◌, ◌<◌, ◌+◌, ◌++◌, ◌∷◌, [], length, map, filter, IfOk, OnOk, OnErr};
ghost use Rattle.clone_window.specs.Bodies.{same_in};
ghost use Rattle.clone_classes.specs.Listing.{members_of};
ghost use Rattle.window_index.specs.Buckets.{is_some_left, is_two, joined, leads, others_in, without};
ghost use Rattle.window_index.specs.Groups.{first_led, rows, with_one};

use clone_window::same::same;
use go_base::{Memory, Steps};
use go_typed::checked::Checked;
use go_typed::window::{Class, Window, Windows};
use std::alloc::{AllocError, Global};
use std::marker::Model;
use std::sync::ledger::Ledger;

/// Groups of windows, each in the order in which its members came in.
#[derive(Debug, Drop)]
pub struct Groups {
    items: Vec<Vec<Window>>,
}

impl Model for Groups {
    ghost use Rattle.std.specs.Prelude.{List};
    ghost use Rattle.go_typed.specs.declared.window.Window.{Window};
    ghost use Rattle.window_index.specs.Groups.{rows};

    ghost Value = { List (List Window) };

    ghost view = { λ g. rows g.items.items };
}

impl Groups {
    /// One group, of one window.
    pub fn of(alloc: Global, window: Window) -> Result<Groups, AllocError>
        ensures { IfOk result (λ g. g ≡ (window ∷ []) ∷ []) }
    {
        let mut items = Vec::new(alloc);
        push_alone(alloc, window, &mut items)?;
        Ok(Groups { items })
    }

    /// Whether there is a group.
    pub fn is_some_left(&self) -> bool
        ensures { result ≡ is_some_left self.now }
    {
        !self.items.is_empty()
    }

    /// Puts a window into the first group that a window leads that is the same, else into one of its own. Each group is compared
    /// once at most.
    pub fn join<L: Ledger>(
        &mut self,
        alloc: Global,
        checked: &Checked,
        window: Window,
        steps: &mut Steps<L>,
    ) -> Result<(), Memory>
        ensures ok { OnOk result (self.new ≡ joined (same_in checked.now) window self.old) }
        ensures err { OnErr result (self.new ≡ self.old) }
        ensures compared { steps.new.compared ≤ steps.old.compared + length self.old }
        ensures others { steps.new ≡ record steps.old { compared = steps.new.compared } }
    {
        match first_led(alloc, checked, window, &self.items, steps)? {
            Some(number) => push_to(&mut self.items, number, window),
            None => Ok(push_alone(alloc, window, &mut self.items)?),
        }
    }

    /// Takes out the windows of a function, and the groups of which nothing is left.
    pub fn leave(&mut self, func: u32)
        ensures { self.new ≡ without func self.old }
    {
        leave_each(&mut self.items, func);
        self.items.retain(
            |group: &Vec<Window>| -> bool
                ensures { result ≡ is_some_left group.now.items }
            { !group.is_empty() },
        );
    }

    /// Puts the groups of two windows or more behind classes.
    pub fn push_classes(&self, alloc: Global, classes: &mut Vec<Class>) -> Result<(), Memory>
        ensures { OnOk result (members_of classes.new.items ≡ members_of classes.old.items ++ filter is_two self.now) }
    {
        for group in &self.items {
            if group.len() > 1 {
                classes.push(Class {
                    members: Windows::of(Vec::from_slice(alloc, group)?),
                })?;
            }
        }
        Ok(())
    }
}

/// Puts a group of one window behind the others.
fn push_alone(
    alloc: Global,
    window: Window,
    groups: &mut Vec<Vec<Window>>,
) -> Result<(), AllocError>
    ensures ok { OnOk result (rows groups.new.items ≡ rows groups.old.items ++ (window ∷ []) ∷ []) }
    ensures err { OnErr result (rows groups.new.items ≡ rows groups.old.items) }
{
    let mut group = Vec::new(alloc);
    group.push(window)?;
    groups.push(group)?;
    Ok(())
}

/// Puts a window behind the others of a group.
fn push_to(groups: &mut Vec<Vec<Window>>, number: usize, window: Window) -> Result<(), Memory>
    requires { number < length groups.old.items }
    ensures ok { OnOk result (rows groups.new.items ≡ with_one number window (rows groups.old.items)) }
    ensures err { OnErr result (rows groups.new.items ≡ rows groups.old.items) }
{
    groups[number].push(window)?;
    Ok(())
}

/// The number of the first group that a window leads that is the same.
fn first_led<L: Ledger>(
    alloc: Global,
    checked: &Checked,
    window: Window,
    groups: &[Vec<Window>],
    steps: &mut Steps<L>,
) -> Result<Option<usize>, Memory>
    ensures found { IfOk result (λ n. n ≡ first_led (same_in checked.now) window 0 (rows groups.now)) }
    ensures compared { steps.new.compared ≤ steps.old.compared + length groups.now }
    ensures others { steps.new ≡ record steps.old { compared = steps.new.compared } }
{
    for index in 0..groups.len() {
        if is_led(alloc, checked, window, &groups[index], steps)? {
            return Ok(Some(index));
        }
    }
    Ok(None)
}

/// Whether the first member of a group is the same as a window. It takes one comparison at most.
fn is_led<L: Ledger>(
    alloc: Global,
    checked: &Checked,
    window: Window,
    group: &[Window],
    steps: &mut Steps<L>,
) -> Result<bool, Memory>
    ensures led { IfOk result (λ b. b ≡ leads (same_in checked.now) window group.now) }
    ensures compared { steps.new.compared ≤ steps.old.compared + 1 }
    ensures others { steps.new ≡ record steps.old { compared = steps.new.compared } }
{
    match group {
        [first, ..] => same(alloc, checked, window, *first, steps),
        _ => Ok(false),
    }
}

/// Takes the windows of a function out of each group.
fn leave_each(groups: &mut Vec<Vec<Window>>, func: u32)
    ensures { rows groups.new.items ≡ map (others_in func) (rows groups.old.items) }
{
    for index in 0..groups.len() {
        leave_one(&mut groups[index], func);
    }
}

/// Takes the windows of a function out of a group.
fn leave_one(group: &mut Vec<Window>, func: u32)
    ensures { group.new.items ≡ others_in func group.old.items }
{
    group.retain(|window| window.func != func);
}
