//! Whether the declarations of a package stand behind what they name, by numbers that say from when on objects are known.

ghost use Rattle.std.specs.Prelude.{◌≡◌, true, List, IfOk};
ghost use Rattle.go_declarations.specs.Views.{seen_all};
ghost use Rattle.go_needs.specs.Tells.{TellsNeeds};
ghost use Rattle.go_package_defs.specs.Knowledge.{State, outlines, rights_of};
ghost use Rattle.go_package_defs.specs.Sources.{Package, rounds};
ghost use Rattle.go_package_defs.specs.Verdicts.{known, next_states};
ghost use Rattle.go_package_stages.specs.Marked.{AreReached, AreClosed};

use crate::marked::{Trial, are_behind, marks_of};
use crate::numbers::Numbers;
use crate::settled::{are_bounds_for, are_within};
use go_base::Memory;
use go_declarations::Specification;
use go_needs::Needs;
use go_package_laws::laws::stages_settle;
use go_tree::uses::Uses;
use std::alloc::Global;

/// Whether each object is found behind what it names, by these numbers, where `reaches` has for each object a number that is below none
/// of those of the declared types in what it stands for. Then states that a round finds again are those of all rounds.
///
/// # Errors
///
/// Want of memory.
pub fn are_staged(
    alloc: Global,
    uses: &Uses,
    specifications: &[Specification<'_>],
    needs: &Needs,
    numbers: &Numbers,
    reaches: &[usize],
) -> Result<bool, Memory>
    ensures { IfOk result (λ b. b ≡ true → (p : Package) (found : List State) → TellsNeeds needs.now p (seen_all specifications.now) → p.uses ≡ uses.now
        → AreReached numbers.now.reach.items reaches.now found → AreClosed numbers.now.reach.items (rights_of p found)
        → next_states p (outlines p (seen_all specifications.now)) found 0 (outlines p (seen_all specifications.now)) ≡ found → known p (outlines p (seen_all specifications.now)) (rounds p) ≡ found) }
{
    stages_settle();
    let objects = uses.package_objects();
    let count = objects.len();
    let Some(most) = count.checked_add(count) else {
        return Ok(false);
    };
    if !are_within(numbers, objects, most) {
        return Ok(false);
    }
    let told = numbers.told_bounds.as_slice();
    let own = numbers.own_bounds.as_slice();
    if !are_bounds_for(
        alloc,
        specifications,
        needs,
        most,
        &numbers.told,
        told,
        count,
    )? {
        return Ok(false);
    }
    if !are_bounds_for(alloc, specifications, needs, most, &numbers.own, own, count)? {
        return Ok(false);
    }
    let in_own = marks_of(alloc, &numbers.stands, reaches, own)?;
    let in_told = marks_of(alloc, &numbers.stands, &[], told)?;
    let in_lengths = marks_of(alloc, &numbers.stands, reaches, told)?;
    let trial = Trial {
        uses,
        numbers,
        own: &in_own,
        told: &in_told,
        counted: &in_lengths,
    };
    Ok(are_behind(&trial, specifications, needs, count))
}
