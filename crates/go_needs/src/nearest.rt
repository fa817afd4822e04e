//! The lowest level of what the names of each part of a specification call for.

ghost use Rattle.std.specs.Prelude.{◌≡◌, true, false, Some, IfOk, OnOk};
ghost use Rattle.std.specs.HashMap as hash;
ghost use Rattle.go_needs.specs.Levels.{nearer, here, nearest, near_in, near, KnowsNearest, level_of};
ghost use Rattle.go_scopes_cycles.specs.Ranks.{Place, same_place};

use crate::calls::Call;
use crate::levels::{Levels, level_of};
use crate::owners::Owner;
use crate::parts::own_part;
use go_scopes_cycles::ranks::{Part, Place};
use std::alloc::{AllocError, Global};
use std::collections::HashMap;

/// The lowest level in each part, where there is one.
pub type Nearest = HashMap<Place, usize>;

/// The lower of two levels.
fn nearer(a: Option<usize>, b: Option<usize>) -> Option<usize>
    ensures { result ≡ nearer a b }
{
    match (a, b) {
        (Some(a), Some(b)) => Some(a.min(b)),
        (Some(a), None) => Some(a),
        (None, b) => b,
    }
}

/// The lowest level in a part.
fn level_at(nearest: &Nearest, place: Place) -> Option<usize>
    ensures { result ≡ hash.get same_place nearest.now place }
{
    if nearest.is_empty() {
        return None;
    }
    nearest.get(&place).copied()
}

/// Notes a level in a part, if there are both.
fn note(nearest: &mut Nearest, place: Option<Place>, level: Option<usize>) -> Result<(), AllocError>
    ensures { OnOk result ((k : Place) → hash.get same_place nearest.new k ≡ nearer (here place k level) (hash.get same_place nearest.old k)) }
{
    let Some(place) = place else {
        return Ok(());
    };
    let Some(level) = level else {
        return Ok(());
    };
    match nearest.get_mut(&place) {
        Some(lowest) => *lowest = level.min(*lowest),
        None => {
            nearest.insert(place, level)?;
        }
    }
    Ok(())
}

/// Notes the levels of what a name calls for.
fn add(nearest: &mut Nearest, levels: &[Levels], call: &Call) -> Result<(), AllocError>
    ensures { OnOk result ((k : Place) → hash.get same_place nearest.new k
        ≡ nearer (here call.now.full k (level_of levels.now call.now.number true)) (nearer (here call.now.partial k (level_of levels.now call.now.number false)) (hash.get same_place nearest.old k))) }
{
    note(nearest, call.partial, level_of(levels, call.number, false))?;
    note(nearest, call.full, level_of(levels, call.number, true))
}

/// The lowest level in each part.
pub fn nearest(alloc: Global, calls: &[Call], levels: &[Levels]) -> Result<Nearest, AllocError>
    ensures { IfOk result (λ m. KnowsNearest m levels.now calls.now) }
{
    let mut nearest = HashMap::new(alloc);
    for number in (0..calls.len()).rev() {
        let call = calls[number];
        add(&mut nearest, levels, &call)?;
    }
    Ok(nearest)
}

/// The lowest level of what stands in the parts of a specification in which a declaration needs it.
fn near_in(nearest: &Nearest, file: u32, source: u32, column: usize, full: bool) -> Option<usize>
    ensures { result ≡ near_in (hash.get same_place nearest.now) file (Some source) column full }
{
    let spot = (file, source);
    let always = level_at(nearest, (spot, Part::Always));
    let value = level_at(nearest, (spot, Part::Value(column)));
    let own = level_at(nearest, (spot, own_part(full)));
    nearer(always, nearer(value, own))
}

/// The lowest level of what a declaration needs at once, in full or in part.
pub fn near(nearest: &Nearest, owner: &Owner, full: bool) -> Option<usize>
    ensures { result ≡ near (hash.get same_place nearest.now) owner.now full }
{
    match owner.source {
        None => None,
        Some(source) => near_in(nearest, owner.file, source, owner.column, full),
    }
}
