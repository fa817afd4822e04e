//! Whether numbers bound the ranks of objects with all that they need.

ghost use Rattle.std.specs.Prelude.{◌≡◌, IfOk, map, slice_get};
ghost use Rattle.std.specs.HashMap as hash;
ghost use Rattle.go_needs.specs.Bounds as specs;
ghost use Rattle.go_needs.specs.Bounds.{level_under, is_low, bounds_one, is_bounded, are_bounded};
ghost use Rattle.go_scopes_cycles.specs.Ranks.{same_place};

use crate::levels::Levels;
use crate::nearest::{Nearest, near};
use crate::owners::Owner;
use std::alloc::{AllocError, Global};

/// A number that no rank is above of an object with all that it needs: where it is needed in part, and in full.
#[derive(Clone, Copy, Debug)]
pub struct Bound {
    pub at_once: usize,
    pub in_full: usize,
}

/// How far a bound is below the top.
fn level_under(top: usize, bound: &Bound) -> Levels
    ensures { result ≡ level_under top bound.now }
{
    Levels {
        partly: Some(top.saturating_sub(bound.at_once)),
        fully: Some(top.saturating_sub(bound.in_full)),
    }
}

/// How far bounds are below the top.
pub fn levels_under(alloc: Global, top: usize, bounds: &[Bound]) -> Result<Vec<Levels>, AllocError>
    ensures { IfOk result (λ v. v.items ≡ map (level_under top) bounds.now) }
{
    let mut levels = Vec::new(alloc);
    for bound in bounds {
        levels.push(level_under(top, bound))?;
    }
    Ok(levels)
}

/// Whether all that is needed at once is so far below the top, where `next` is the least distance.
pub fn is_low(distance: usize, next: Option<usize>) -> bool
    ensures { result ≡ is_low distance next }
{
    match next {
        None => true,
        Some(next) => distance <= next,
    }
}

/// Whether a number bounds the rank of an object and those of what it needs at once, where `next` is the least distance of these from
/// the top.
fn bounds_one(top: usize, rank: usize, bound: usize, next: Option<usize>) -> bool
    ensures { result ≡ bounds_one top rank bound next }
{
    rank <= bound && bound <= top && is_low(top.saturating_sub(bound), next)
}

/// Whether the object of this number has such numbers.
fn is_bounded(
    nearest: &Nearest,
    top: usize,
    ranks: &[usize],
    bounds: &[Bound],
    number: usize,
    owner: &Owner,
) -> bool
    ensures { result ≡ is_bounded (hash.get same_place nearest.now) top ranks.now bounds.now number owner.now }
{
    let Some(rank) = ranks.get(number).copied() else {
        return false;
    };
    let Some(bound) = bounds.get(number).copied() else {
        return false;
    };
    bounds_one(top, rank, bound.at_once, near(nearest, owner, false))
        && bounds_one(top, rank, bound.in_full, near(nearest, owner, true))
}

/// Whether all objects do.
pub fn are_bounded(
    nearest: &Nearest,
    top: usize,
    ranks: &[usize],
    bounds: &[Bound],
    owners: &[Owner],
) -> bool
    ensures { result ≡ are_bounded (hash.get same_place nearest.now) top ranks.now bounds.now 0 owners.now }
{
    for (number, owner) in owners.iter().enumerate() {
        if !is_bounded(nearest, top, ranks, bounds, number, owner) {
            return false;
        }
    }
    true
}
