//! A package as its declarations are judged.

ghost use Rattle.std.specs.Prelude.{◌≡◌, Some, IfOk, IfSome, slice_get};
ghost use Rattle.go_package_defs.specs.Sources.{rounds};
ghost use Rattle.go_package_rounds.specs.World.{package_in};
ghost use Rattle.go_typed.specs.declared.form.Referent.TheVariants as referent;

use go_base::Memory;
use go_declarations::Specification;
use go_exprs_rules::Basics;
use go_needs::Needs;
use go_tree::file::File;
use go_tree::uses::Uses;
use go_typed::{Env, Referent};
use go_types::TypeId;

/// A package as its declarations are judged: its files, what its names mean, its specifications, what its objects need, their numbers
/// by sort (`env`, in which nothing stands for anything), its declared types by their numbers, and the types that rules give.
#[derive(Clone, Copy)]
pub struct World<'a> {
    pub files: &'a [File],
    pub uses: &'a Uses,
    pub specifications: &'a [Specification<'a>],
    pub needs: &'a Needs,
    pub env: &'a Env,
    pub named: &'a [TypeId],
    pub basics: Basics,
}

/// The specification of this number, if there are so many.
pub fn specification_at<'a>(world: &World<'a>, number: usize) -> Option<&'a Specification<'a>>
    ensures { IfSome result (λ s. slice_get world.now.specifications.now number ≡ Some s.now) }
{
    world.specifications.get(number)
}

/// The declared type of this number, if there are so many.
pub fn named_type(named: &[TypeId], number: usize) -> Option<TypeId>
    ensures { result ≡ slice_get named.now number }
{
    named.get(number).copied()
}

/// The number of an object among the types, if it is one.
pub fn type_number(env: &Env, number: usize) -> Option<u32>
    ensures { IfSome result (λ k. slice_get env.now.referents number ≡ Some (referent.Type k)) }
{
    match env.referent(number) {
        Some(Referent::Type(place)) => Some(place),
        _ => None,
    }
}

/// How many rounds there are at most: each object is needed in one of two ways, so no way from one to another is longer.
///
/// # Errors
///
/// Want of memory.
pub fn round_count(world: &World<'_>) -> Result<usize, Memory>
    ensures { IfOk result (λ n. n ≡ rounds (package_in world.now)) }
{
    let objects = world.uses.package_objects().len();
    match objects.checked_add(objects) {
        Some(most) => Ok(most),
        None => Err(Memory),
    }
}
