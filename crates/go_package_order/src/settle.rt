//! Types that name one another are known in full together.
ghost use Rattle.std.specs.Prelude.{◌≡◌, ℕ, IfOk, IfSome, OnOk, Some, slice_get};
ghost use Rattle.go_types.specs.Tables.{Table};
ghost use Rattle.go_package_rounds.specs.World.{KnownStandings};
ghost use Rattle.go_exprs_types.specs.Naming.{KnownStanding};
ghost use Rattle.go_package_order.specs.Progress.{IsFoundIn};

use crate::progress::{Progress, put_standing};
use crate::standing::are_known;
use go_base::Memory;
use go_exprs_types::{Needed, Standing};
use go_package_rounds::Held;
use go_package_rounds::held::{is_sound, is_told};
use go_package_stages::Group;
use go_typed::Sort;

/// Whether an object passes one of two tests by itself: it has no fault, or it is told.
fn passes(all: &[Held], number: usize, sound: bool) -> bool {
    match all.get(number) {
        Some(known) if sound => is_sound(known),
        Some(known) => is_told(known),
        None => false,
    }
}

/// Whether all of them do.
fn all_pass(all: &[Held], numbers: &[usize], sound: bool) -> bool {
    for number in numbers {
        if !passes(all, *number, sound) {
            return false;
        }
    }
    true
}

/// Whether the types of a group are known in full: each of them passes, and all is known in full that they name besides.
fn are_full(all: &[Held], standings: &[Standing], group: &Group, sound: bool) -> bool {
    all_pass(all, &group.members, sound) && are_known(standings, &group.outside, Needed::InFull)
}

/// What the object of this number stands for, if there are so many.
fn standing_at(standings: &[Standing], number: usize) -> Option<&Standing>
    ensures { IfSome result (λ s. slice_get standings.now number ≡ Some s.now) }
{
    standings.get(number)
}

/// The same, but for nothing where it is needed in full.
fn hidden(standing: &Standing) -> Result<Standing, Memory>
    ensures { IfOk result (λ x. (n : ℕ) → KnownStanding n standing.now → KnownStanding n x) }
{
    Ok(Standing {
        in_full: Sort::Unknown,
        at_once: standing.at_once.shared()?,
        loosely: standing.loosely.shared()?,
    })
}

/// An object stands for nothing where it is needed in full.
fn hide(standings: &mut Vec<Standing>, number: usize) -> Result<(), Memory>
    ensures { OnOk result ((n : ℕ) → KnownStandings n standings.old.items → KnownStandings n standings.new.items) }
{
    let Some(standing) = standing_at(standings, number) else {
        return Ok(());
    };
    let hidden = hidden(standing)?;
    put_standing(standings, number, hidden);
    Ok(())
}

/// All of them do, unless they are known in full.
fn hide_unless(
    are_full: bool,
    standings: &mut Vec<Standing>,
    numbers: &[usize],
) -> Result<(), Memory>
    ensures { OnOk result ((n : ℕ) → KnownStandings n standings.old.items → KnownStandings n standings.new.items) }
{
    if are_full {
        return Ok(());
    }
    for number in numbers {
        hide(standings, *number)?;
    }
    Ok(())
}

/// Types of a group are known in full where each of them passes, and all is known in full that they name besides.
pub fn settle(progress: &mut Progress, group: &Group) -> Result<(), Memory>
    ensures { OnOk result ((t : Table) → IsFoundIn t progress.old → IsFoundIn t progress.new) }
{
    let sound = are_full(&progress.all, &progress.sound, group, true);
    let told = are_full(&progress.all, &progress.told, group, false);
    hide_unless(sound, &mut progress.sound, &group.members)?;
    hide_unless(told, &mut progress.told, &group.members)?;
    Ok(())
}
