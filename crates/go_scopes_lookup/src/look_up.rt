//! The look-up of all names of a package.

ghost use Rattle.std.specs.Prelude.{◌≡◌, ◌≤◌, ℕ, IfOk, length, map};
ghost use Rattle.go_scopes_events.specs.Scopes.{locals_of, AreSwept, AreNested, AreOrderly};
ghost use Rattle.go_tree.specs.Lookups.{asked_from};
ghost use Rattle.go_tree.specs.Meanings.{meanings};
ghost use Rattle.go_tree.specs.Objects.{objects, objects_from};
ghost use Rattle.go_scopes_lookup.specs.Views.{units_view, entry_view, asked_view};
ghost use Rattle.go_scopes_lookup.specs.Sited.{sited};
ghost use Rattle.go_scopes_lookup.specs.Sorted.{all_of, IsSorted};

use crate::asked::{Asked, push_asked, push_sited};
use crate::meaning::{Entry, meanings};
use crate::sorted::{Sorted, by_block};
use crate::sweep::event_meanings;
use crate::table::{owners_of, token_objects};
use crate::unit::Unit;
use go_base::Memory;
use go_tree::meant::Meant;
use std::alloc::Global;

/// What is looked up in a package, and what it means.
#[derive(Drop)]
pub struct LookedUp<'a> {
    /// The names that are looked up, in order, with their meanings.
    pub asked: Vec<Asked<'a>>,
    /// The objects of the tokens of each file.
    pub objects: Vec<Vec<Meant>>,
}

/// What is looked up in the files, and what it means, where the package has these meanings.
fn looked_up_in_files<'a>(
    alloc: Global,
    sorted: &Sorted<'a>,
    units: &'a [Unit<'a>],
) -> Result<LookedUp<'a>, Memory>
    requires few { length units.now ≤ 256 }
    requires sorted { IsSorted sorted.now }
    requires locals { (n : ℕ) → AreSwept 0 (locals_of n (all_of sorted.now)) × AreNested (locals_of n (all_of sorted.now)) }
    requires orderly { AreOrderly (units_view units.now) }
    ensures asked { IfOk result (λ l. map asked_view l.asked.items ≡ asked_from (all_of sorted.now) 0 (units_view units.entry.now)) }
    ensures objects { IfOk result (λ l. map (λ v. v.items) l.objects.items ≡ objects_from (all_of sorted.now) 0 (units_view units.entry.now)) }
{
    let owners = owners_of(alloc, &sorted.all)?;
    let mut asked = Vec::new(alloc);
    let mut objects = Vec::new(alloc);
    for (number, unit) in units.iter().enumerate() {
        let file = number as u32;
        let told = event_meanings(alloc, sorted, file, unit)?;
        push_asked(&mut asked, file, unit, &told)?;
        objects.push(token_objects(alloc, &owners, file, unit, &told)?)?;
    }
    asked.shrink_to_fit();
    Ok(LookedUp { asked, objects })
}

/// The names of the files that are looked up in parts of declarations, where the package has these meanings.
fn sited_in_files<'a>(
    alloc: Global,
    sorted: &Sorted<'a>,
    units: &'a [Unit<'a>],
) -> Result<Vec<Asked<'a>>, Memory>
    requires few { length units.now ≤ 256 }
    requires sorted { IsSorted sorted.now }
    requires locals { (n : ℕ) → AreSwept 0 (locals_of n (all_of sorted.now)) × AreNested (locals_of n (all_of sorted.now)) }
    requires orderly { AreOrderly (units_view units.now) }
    ensures { IfOk result (λ v. map asked_view v.items ≡ sited (asked_from (all_of sorted.now) 0 (units_view units.entry.now))) }
{
    let mut asked = Vec::new(alloc);
    for (number, unit) in units.iter().enumerate() {
        let file = number as u32;
        let told = event_meanings(alloc, sorted, file, unit)?;
        push_sited(&mut asked, file, unit, &told)?;
    }
    asked.shrink_to_fit();
    Ok(asked)
}

/// The names of a package with these entries that are looked up in parts of declarations, in order, with their meanings: those of
/// `looked_up` on which it rests what declarations need.
///
/// # Errors
///
/// Want of memory.
pub fn sited_names<'a>(
    alloc: Global,
    units: &'a [Unit<'a>],
    entries: &'a [Entry<'a>],
) -> Result<Vec<Asked<'a>>, Memory>
    requires few { length units.now ≤ 256 }
    requires orderly { AreOrderly (units_view units.now) }
    requires entries { map entry_view entries.now ≡ meanings (units_view units.now) }
    ensures { IfOk result (λ v. map asked_view v.items ≡ sited (asked_from (meanings (units_view units.entry.now)) 0 (units_view units.entry.now))) }
{
    let sorted = by_block(alloc, meanings(alloc, entries)?)?;
    sited_in_files(alloc, &sorted, units)
}

/// What is looked up in a package with these entries, and what it means.
///
/// # Errors
///
/// Want of memory.
pub fn looked_up<'a>(
    alloc: Global,
    units: &'a [Unit<'a>],
    entries: &'a [Entry<'a>],
) -> Result<LookedUp<'a>, Memory>
    requires few { length units.now ≤ 256 }
    requires orderly { AreOrderly (units_view units.now) }
    requires entries { map entry_view entries.now ≡ meanings (units_view units.now) }
    ensures asked { IfOk result (λ l. map asked_view l.asked.items ≡ asked_from (meanings (units_view units.entry.now)) 0 (units_view units.entry.now)) }
    ensures objects { IfOk result (λ l. map (λ v. v.items) l.objects.items ≡ objects (units_view units.entry.now)) }
{
    let sorted = by_block(alloc, meanings(alloc, entries)?)?;
    looked_up_in_files(alloc, &sorted, units)
}
