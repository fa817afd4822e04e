//! Whether declarations need an object that fails.

ghost use Rattle.std.specs.Prelude.{◌≡◌, ℕ, Bool, List, IfOk, length};
ghost use Rattle.go_package_defs.specs.Sources.{Package};
ghost use Rattle.go_needs.specs.Reached.{AreCalls, TellFailing, Reaches};
ghost use Rattle.go_needs.specs.declared.owners.Owner as owner;

use crate::calls::Call;
use crate::levels::are_settled;
use crate::nearest::{Nearest, nearest};
use crate::owners::Owner;
use crate::search::levels;
use go_base::Memory;
use std::alloc::Global;

/// Where a declaration needs an object that fails, the map has a level in one of its parts. Where the levels that the search proposes
/// aren't right the answer is want of memory, which doesn't arise.
pub fn reached(
    alloc: Global,
    owners: &[Owner],
    calls: &[Call],
    fails: &[bool],
) -> Result<Nearest, Memory>
    ensures { IfOk result (λ m. (p : Package) (all : List owner.Owner) (f : ℕ → Bool) → AreCalls p owners.now all calls.now → TellFailing (length owners.now) fails.now f → Reaches m p all f) }
{
    let levels = levels(alloc, owners, calls, fails)?;
    let nearest = nearest(alloc, calls, &levels)?;
    let bound = owners.len().saturating_add(owners.len());
    if !are_settled(&nearest, &levels, fails, bound, owners) {
        return Err(Memory);
    }
    Ok(nearest)
}
