//! Which objects pass with all that they need, and which block the rule of a specification.

ghost use Rattle.std.specs.Prelude.{◌≡◌, not, IfOk, map, replicate, slice_get};
ghost use Rattle.std.specs.HashMap as hash;
ghost use Rattle.go_package_defs.specs.Verdicts.{is_in};
ghost use Rattle.go_needs.specs.Blocked.{passing_of, passings, not_passing, any_below, any_column, any_there, flags_from, blocks_at, blocking};
ghost use Rattle.go_needs.specs.Levels.{fails_at};
ghost use Rattle.go_scopes_cycles.specs.Ranks.{same_place};

use crate::declaring::Declaring;
use crate::groups::Group;
use crate::levels::fails_at;
use crate::nearest::{Nearest, near};
use crate::needs::Passing;
use crate::owners::Owner;
use std::alloc::{AllocError, Global};

/// Which objects fail a test.
pub fn failing(alloc: Global, tests: &[bool]) -> Result<Vec<bool>, AllocError>
    ensures { IfOk result (λ v. v.items ≡ map not tests.now) }
{
    let mut fails = Vec::new(alloc);
    for test in tests {
        fails.push(!*test)?;
    }
    Ok(fails)
}

/// Whether an object passes with all that it needs.
fn passing_of(nearest: &Nearest, tests: &[bool], number: usize, owner: &Owner) -> Passing
    ensures { result ≡ passing_of (hash.get same_place nearest.now) tests.now number owner.now }
{
    let own = fails_at(tests, number);
    Passing {
        at_once: own && near(nearest, owner, false).is_none(),
        in_full: own && near(nearest, owner, true).is_none(),
    }
}

/// Whether each object passes with all that it needs.
pub fn passings(
    alloc: Global,
    nearest: &Nearest,
    tests: &[bool],
    owners: &[Owner],
) -> Result<Vec<Passing>, AllocError>
    ensures { IfOk result (λ v. v.items ≡ passings (hash.get same_place nearest.now) tests.now 0 owners.now) }
{
    let mut all = Vec::new(alloc);
    for (number, owner) in owners.iter().enumerate() {
        all.push(passing_of(nearest, tests, number, owner))?;
    }
    Ok(all)
}

/// The answers for so many objects where none passes by itself.
pub fn none_passing(alloc: Global, count: usize) -> Result<Vec<Passing>, AllocError>
    ensures { IfOk result (λ v. v.items ≡ replicate count not_passing) }
{
    let none = Passing {
        at_once: false,
        in_full: false,
    };
    vec![in alloc; none; count]
}

/// Whether one of the columns below this one needs an object that fails.
fn any_below(nearest: &Nearest, root: &Owner, columns: usize) -> bool
    ensures { result ≡ any_below (hash.get same_place nearest.now) root.now columns }
{
    for column in (0..columns).rev() {
        let own = Owner {
            file: root.file,
            source: root.source,
            column,
        };
        if near(nearest, &own, false).is_some() {
            return true;
        }
    }
    false
}

/// Whether a specification needs an object that fails.
pub fn any_column(nearest: &Nearest, group: &Group) -> bool
    ensures { result ≡ any_column (hash.get same_place nearest.now) group.now }
{
    match &group.root {
        None => false,
        Some(root) => any_below(nearest, root, group.columns),
    }
}

/// Whether the specification of this number does, if there are so many.
fn any_there(nearest: &Nearest, groups: &[Group], number: usize) -> bool
    ensures { result ≡ any_there (hash.get same_place nearest.now) (slice_get groups.now number) }
{
    match groups.get(number) {
        None => false,
        Some(group) => any_column(nearest, group),
    }
}

/// Whether the number is among these.
fn is_in(numbers: &[usize], number: usize) -> bool
    ensures { result ≡ is_in numbers.now number }
{
    for own in numbers {
        if number == *own {
            return true;
        }
    }
    false
}

/// Of each object whether its number is among these.
pub fn flags(alloc: Global, numbers: &[usize], owners: &[Owner]) -> Result<Vec<bool>, AllocError>
    ensures { IfOk result (λ v. v.items ≡ flags_from numbers.now 0 owners.now) }
{
    let mut flags = Vec::new(alloc);
    for (number, _owner) in owners.iter().enumerate() {
        flags.push(is_in(numbers, number))?;
    }
    Ok(flags)
}

/// Whether an object blocks: it fails, or, where its own specification needs none that `needing` has, its assignment does.
fn blocks_at(
    needing: &Nearest,
    groups: &[Group],
    own: &[bool],
    faulty: &[bool],
    assigning: &[bool],
    number: usize,
    declaring: &Declaring,
) -> bool
    ensures { result ≡ blocks_at (hash.get same_place needing.now) groups.now own.now faulty.now assigning.now number declaring.now }
{
    !fails_at(own, number)
        && (fails_at(faulty, number)
            || (fails_at(assigning, number)
                && !any_there(needing, groups, declaring.specification)))
}

/// Which objects block.
pub fn blocking(
    alloc: Global,
    needing: &Nearest,
    groups: &[Group],
    own: &[bool],
    faulty: &[bool],
    assigning: &[bool],
    declaring: &[Declaring],
) -> Result<Vec<bool>, AllocError>
    ensures { IfOk result (λ v. v.items ≡ blocking (hash.get same_place needing.now) groups.now own.now faulty.now assigning.now 0 declaring.now) }
{
    let mut all = Vec::new(alloc);
    for (number, x) in declaring.iter().enumerate() {
        all.push(blocks_at(needing, groups, own, faulty, assigning, number, x))?;
    }
    Ok(all)
}
