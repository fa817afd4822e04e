//! What an object stands for in the scopes of those that are judged behind it.
ghost use Rattle.std.specs.Prelude.{ℕ, IfOk};
ghost use Rattle.go_package_rounds.specs.Held.{KnownHeld};
ghost use Rattle.go_exprs_types.specs.Naming.{KnownStanding};
ghost use Rattle.go_typed.specs.Views.{KnownSort};

use go_base::Memory;
use go_exprs_types::{Needed, Standing};
use go_package_rounds::Held;
use go_typed::Sort;

/// Whether an object stands for something where it is needed so.
fn is_known(standings: &[Standing], number: usize, need: Needed) -> bool {
    match standings.get(number) {
        Some(standing) => !matches!(standing.sort(need), Sort::Unknown),
        None => false,
    }
}

/// Whether all of these objects do.
pub fn are_known(standings: &[Standing], numbers: &[usize], need: Needed) -> bool {
    for number in numbers {
        if !is_known(standings, *number, need) {
            return false;
        }
    }
    true
}

/// How an object needs those that it names.
fn need_of(known: &Held) -> Needed {
    match &known.stands {
        Sort::Type(_) => Needed::AtOnce,
        _ => Needed::InFull,
    }
}

fn sort_if(passes: bool, sort: &Sort) -> Result<Sort, Memory>
    ensures { IfOk result (λ s. (n : ℕ) → KnownSort n sort.now → KnownSort n s) }
{
    if passes {
        sort.shared()
    } else {
        Ok(Sort::Unknown)
    }
}

/// What it stands for, known in full and at once if it passes.
fn standing_if(passes: bool, sort: &Sort) -> Result<Standing, Memory>
    ensures { IfOk result (λ x. (n : ℕ) → KnownSort n sort.now → KnownStanding n x) }
{
    Ok(Standing {
        in_full: sort_if(passes, sort)?,
        at_once: sort_if(passes, sort)?,
        loosely: sort.shared()?,
    })
}

/// What an object stands for that passes a test by itself, or doesn't, where the objects that it names stand for this.
pub fn standing_in(
    standings: &[Standing],
    named: &[usize],
    known: &Held,
    passes: bool,
) -> Result<Standing, Memory>
    ensures { IfOk result (λ x. (n : ℕ) → KnownHeld n known.now → KnownStanding n x) }
{
    if are_known(standings, named, need_of(known)) {
        Ok(standing_if(passes, &known.stands)?)
    } else {
        Ok(standing_if(false, &known.stands)?)
    }
}
