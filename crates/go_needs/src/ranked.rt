//! Whether specifications need none of a higher rank, and which of them are seen by that to need a declaration with a fault.

ghost use Rattle.std.specs.Prelude.{◌≡◌, IfOk, map};
ghost use Rattle.std.specs.HashMap as hash;
ghost use Rattle.go_scopes_cycles.specs.Ranks.{same_place};
ghost use Rattle.go_needs.specs.Ranks as specs;
ghost use Rattle.go_needs.specs.Ranks.{own_bound, rank_by, low_below, is_ranked, are_ranked, descends, is_lower, is_lower_at, are_lower, is_under, any_under, all_from, shown};

use crate::bounds::{Bound, is_low};
use crate::declaring::Declaring;
use crate::groups::Group;
use crate::levels::{Levels, fails_at, level_of};
use crate::nearest::{Nearest, near};
use crate::owners::Owner;
use std::alloc::{AllocError, Global};

/// The rank of this number; 0 where there is none.
pub fn rank_at(ranks: &[usize], number: usize) -> usize
    ensures { result ≡ specs.rank_at ranks.now number }
{
    ranks.get(number).copied().unwrap_or(0)
}

/// The ranks of objects, by those of specifications.
pub fn object_ranks(
    alloc: Global,
    ranks: &[usize],
    declaring: &[Declaring],
) -> Result<Vec<usize>, AllocError>
    ensures { IfOk result (λ v. v.items ≡ map (rank_by ranks.now) declaring.now) }
{
    let mut all = Vec::new(alloc);
    for x in declaring {
        all.push(rank_at(ranks, x.specification))?;
    }
    Ok(all)
}

/// Ranks as bounds of themselves.
pub fn own_bounds(alloc: Global, ranks: &[usize]) -> Result<Vec<Bound>, AllocError>
    ensures { IfOk result (λ v. v.items ≡ map own_bound ranks.now) }
{
    let mut bounds = Vec::new(alloc);
    for rank in ranks {
        bounds.push(Bound {
            at_once: *rank,
            in_full: *rank,
        })?;
    }
    Ok(bounds)
}

/// Whether all that the columns below this one need at once is so far below the top.
fn low_below(nearest: &Nearest, root: &Owner, distance: usize, columns: usize) -> bool
    ensures { result ≡ low_below (hash.get same_place nearest.now) root.now distance columns }
{
    for column in (0..columns).rev() {
        let own = Owner {
            file: root.file,
            source: root.source,
            column,
        };
        if !is_low(distance, near(nearest, &own, false)) {
            return false;
        }
    }
    true
}

/// Whether a specification of this rank needs none of a higher one, where the map has the distances of ranks from the top.
fn is_ranked(nearest: &Nearest, top: usize, rank: usize, group: &Group) -> bool
    ensures { result ≡ is_ranked (hash.get same_place nearest.now) top rank group.now }
{
    if rank > top {
        return false;
    }
    match &group.root {
        None => true,
        Some(root) => low_below(nearest, root, top.saturating_sub(rank), group.columns),
    }
}

/// Whether all specifications with these ranks do.
pub fn are_ranked(nearest: &Nearest, top: usize, ranks: &[usize], groups: &[Group]) -> bool
    ensures { result ≡ are_ranked (hash.get same_place nearest.now) top ranks.now 0 groups.now }
{
    for (number, group) in groups.iter().enumerate() {
        if !is_ranked(nearest, top, rank_at(ranks, number), group) {
            return false;
        }
    }
    true
}

/// What is found of objects by a search from those that fail: their levels, and the greatest rank that one can have of those from which
/// each level was found.
#[derive(Clone, Copy)]
pub struct Tried<'a> {
    pub nearest: &'a Nearest,
    pub levels: &'a [Levels],
    pub grades: &'a [usize],
    pub ranks: &'a [usize],
}

/// Whether the next level is lower, and was found from one of no higher rank.
fn descends(next: Option<usize>, level: usize, grades: &[usize]) -> bool
    ensures { result ≡ descends next level grades.now }
{
    match next {
        None => false,
        Some(next) => next < level && rank_at(grades, next) <= rank_at(grades, level),
    }
}

/// Whether an object with a level fails and has no higher rank than is told of the level, or needs one of a lower level.
fn is_lower(
    fails: bool,
    rank: usize,
    level: Option<usize>,
    next: Option<usize>,
    grades: &[usize],
) -> bool
    ensures { result ≡ is_lower fails rank level next grades.now }
{
    match level {
        None => true,
        Some(level) => {
            (fails && rank <= rank_at(grades, level)) || descends(next, level, grades)
        }
    }
}

/// Whether that holds of the object of this number, in part and in full.
fn is_lower_at(
    tried: &Tried<'_>,
    faulty: &[bool],
    assigning: &[bool],
    number: usize,
    owner: &Owner,
) -> bool
    ensures { result ≡ is_lower_at (hash.get same_place tried.now.nearest.now) tried.now.levels.now tried.now.grades.now tried.now.ranks.now faulty.now assigning.now number owner.now }
{
    let fails = fails_at(faulty, number) || fails_at(assigning, number);
    let rank = rank_at(tried.ranks, number);
    is_lower(
        fails,
        rank,
        level_of(tried.levels, number, false),
        near(tried.nearest, owner, false),
        tried.grades,
    ) && is_lower(
        fails,
        rank,
        level_of(tried.levels, number, true),
        near(tried.nearest, owner, true),
        tried.grades,
    )
}

/// Whether it holds of all objects.
pub fn are_lower(tried: &Tried<'_>, faulty: &[bool], assigning: &[bool], owners: &[Owner]) -> bool
    ensures { result ≡ are_lower (hash.get same_place tried.now.nearest.now) tried.now.levels.now tried.now.grades.now tried.now.ranks.now faulty.now assigning.now 0 owners.now }
{
    for (number, owner) in owners.iter().enumerate() {
        if !is_lower_at(tried, faulty, assigning, number, owner) {
            return false;
        }
    }
    true
}

/// Whether a level is no higher than the bound, and was found from one under this rank.
fn is_under(grades: &[usize], bound: usize, rank: usize, level: Option<usize>) -> bool
    ensures { result ≡ is_under grades.now bound rank level }
{
    match level {
        None => false,
        Some(level) => level <= bound && rank_at(grades, level) < rank,
    }
}

/// Whether one of the columns below this one needs an object with such a level.
fn any_under(tried: &Tried<'_>, bound: usize, rank: usize, root: &Owner, columns: usize) -> bool
    ensures { result ≡ any_under (hash.get same_place tried.now.nearest.now) tried.now.grades.now bound rank root.now columns }
{
    for column in (0..columns).rev() {
        let own = Owner {
            file: root.file,
            source: root.source,
            column,
        };
        if is_under(tried.grades, bound, rank, near(tried.nearest, &own, false)) {
            return true;
        }
    }
    false
}

/// Whether none of these objects has a rank under this one.
fn all_from(rank: usize, ranks: &[usize], numbers: &[usize]) -> bool
    ensures { result ≡ all_from rank ranks.now numbers.now }
{
    for number in numbers {
        if rank > rank_at(ranks, *number) {
            return false;
        }
    }
    true
}

/// Whether a specification of this rank is seen to need an object that fails and has a rank under those of its own.
fn is_shown(tried: &Tried<'_>, bound: usize, rank: usize, group: &Group) -> bool
    ensures { result ≡ specs.is_shown (hash.get same_place tried.now.nearest.now) tried.now.grades.now bound tried.now.ranks.now rank group.now }
{
    match &group.root {
        None => false,
        Some(root) => {
            all_from(rank, tried.ranks, &group.numbers)
                && any_under(tried, bound, rank, root, group.columns)
        }
    }
}

/// The same of each specification with these ranks.
pub fn shown(
    alloc: Global,
    tried: &Tried<'_>,
    bound: usize,
    ranks: &[usize],
    groups: &[Group],
) -> Result<Vec<bool>, AllocError>
    ensures { IfOk result (λ v. v.items ≡ shown (hash.get same_place tried.now.nearest.now) tried.now.grades.now bound tried.now.ranks.now ranks.now 0 groups.now) }
{
    let mut all = Vec::new(alloc);
    for (number, group) in groups.iter().enumerate() {
        all.push(is_shown(tried, bound, rank_at(ranks, number), group))?;
    }
    Ok(all)
}
