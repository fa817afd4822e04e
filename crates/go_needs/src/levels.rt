//! How far objects are from one that fails, and whether that is right.

ghost use Rattle.std.specs.Prelude.{◌≡◌, slice_get};
ghost use Rattle.std.specs.HashMap as hash;
ghost use Rattle.go_needs.specs.Levels.{level_of, settled, fails_at, is_settled, are_settled};
ghost use Rattle.go_scopes_cycles.specs.Ranks.{same_place};

use crate::nearest::{Nearest, near};
use crate::owners::Owner;

/// How many steps an object is from one that fails, where it is needed in part and in full. None where it needs none that fails.
#[derive(Clone, Copy, Debug)]
pub struct Levels {
    pub partly: Option<usize>,
    pub fully: Option<usize>,
}

/// The level of an object.
pub fn level_of(levels: &[Levels], number: usize, full: bool) -> Option<usize>
    ensures { result ≡ level_of levels.now number full }
{
    match levels.get(number) {
        None => None,
        Some(level) => { if full { level.fully } else { level.partly } }
    }
}

/// Whether an object fails.
pub fn fails_at(fails: &[bool], number: usize) -> bool
    ensures { result ≡ fails_at fails.now number }
{
    fails.get(number).copied().unwrap_or(false)
}

/// Whether a level is right, where `next` is the lowest one of what is needed at once.
fn settled(fails: bool, level: Option<usize>, next: Option<usize>, bound: usize) -> bool
    ensures { result ≡ settled fails level next bound }
{
    match (level, next) {
        (None, None) => !fails,
        (None, Some(_)) => false,
        (Some(level), None) => level <= bound && fails,
        (Some(level), Some(next)) => level <= bound && (fails || next < level),
    }
}

/// Whether the levels of an object are right.
fn is_settled(
    nearest: &Nearest,
    levels: &[Levels],
    fails: &[bool],
    bound: usize,
    number: usize,
    owner: &Owner,
) -> bool
    ensures { result ≡ is_settled (hash.get same_place nearest.now) levels.now fails.now bound number owner.now }
{
    let own = fails_at(fails, number);
    settled(
        own,
        level_of(levels, number, false),
        near(nearest, owner, false),
        bound,
    ) && settled(
        own,
        level_of(levels, number, true),
        near(nearest, owner, true),
        bound,
    )
}

/// Whether the levels of all objects are right.
pub fn are_settled(
    nearest: &Nearest,
    levels: &[Levels],
    fails: &[bool],
    bound: usize,
    owners: &[Owner],
) -> bool
    ensures { result ≡ are_settled (hash.get same_place nearest.now) levels.now fails.now bound 0 owners.now }
{
    for (number, owner) in owners.iter().enumerate() {
        if !is_settled(nearest, levels, fails, bound, number, owner) {
            return false;
        }
    }
    true
}
