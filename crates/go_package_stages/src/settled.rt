//! Whether numbers are right for the objects of a package.

ghost use Rattle.std.specs.Prelude.{◌≡◌, true, IfOk, length};
ghost use Rattle.go_declarations.specs.Views.{seen_all};
ghost use Rattle.go_needs.specs.Bounds.{AreBounds};
ghost use Rattle.go_needs.specs.Tells.{TellsNeeds};
ghost use Rattle.go_package_defs.specs.Knowledge.{outlines};
ghost use Rattle.go_package_defs.specs.Sources.{Package};
ghost use Rattle.go_package_stages.specs.Numbers.{at_most, types_told};

use crate::numbers::{Numbers, are_at_most, are_types_told};
use go_base::Memory;
use go_declarations::Specification;
use go_needs::{Bound, Needs};
use go_tree::object::Declared;
use std::alloc::Global;

/// Whether no number of an object is greater, and the right side of each type is known where those are that it reaches.
pub fn are_within(numbers: &Numbers, objects: &[Declared], most: usize) -> bool
    ensures stands { result ≡ true → at_most most numbers.now.stands.items ≡ true }
    ensures told { result ≡ true → at_most most numbers.now.told.items ≡ true }
    ensures own { result ≡ true → at_most most numbers.now.own.items ≡ true }
    ensures types { result ≡ true → types_told numbers.now 0 0 objects.now ≡ true }
{
    are_at_most(most, &numbers.stands)
        && are_at_most(most, &numbers.told)
        && are_at_most(most, &numbers.own)
        && are_types_told(numbers, objects)
}

/// Whether there is a bound for each of so many objects, and it is above none of the numbers of the object and of what it needs.
pub fn are_bounds_for(
    alloc: Global,
    specifications: &[Specification<'_>],
    needs: &Needs,
    most: usize,
    numbers: &[usize],
    bounds: &[Bound],
    count: usize,
) -> Result<bool, Memory>
    ensures many { IfOk result (λ b. b ≡ true → length bounds.now ≡ count) }
    ensures bounds { IfOk result (λ b. b ≡ true → (p : Package) → TellsNeeds needs.now p (seen_all specifications.now) → AreBounds numbers.now bounds.now (outlines p (seen_all specifications.now))) }
{
    let _specifications = specifications;
    if bounds.len() != count {
        return Ok(false);
    }
    needs.are_bounds(alloc, most, numbers, bounds)
}
