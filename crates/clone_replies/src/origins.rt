//! How many declared types names mean.

ghost use Rattle.std.specs.Prelude.{◌≡◌, ◌+◌, length, count_by, IfOk, OnOk};
ghost use Rattle.go_package_defs.specs.Checked.{origins};
ghost use Rattle.go_package_defs.specs.Knowledge.{is_type};

use go_base::Memory;
use go_tree::context::Entity;
use go_tree::object::Declared;
use go_tree::uses::Uses;
use go_typed::checked::Checked;

/// As many declared types have a place as the names of the package mean. `Memory` where it isn't so, and where these are too many.
pub fn all_placed(checked: &Checked) -> Result<(), Memory>
    ensures { OnOk result (length checked.now.origins ≡ length (origins checked.now.uses)) }
{
    let count = type_count(checked.uses())?;
    if count == checked.origins().len() {
        Ok(())
    } else {
        Err(Memory)
    }
}

/// How many declared types there are, in the package and in its functions.
fn type_count(uses: &Uses) -> Result<usize, Memory>
    ensures { IfOk result (λ n. n ≡ length (origins uses.now)) }
{
    let mut count = types_among(uses.package_objects());
    for number in 0..uses.functions() {
        let Some(locals) = uses.locals(number) else {
            return Err(Memory);
        };
        count = with_types(count, locals)?;
    }
    Ok(count)
}

/// A count with the types among these.
fn with_types(count: usize, objects: &[Declared]) -> Result<usize, Memory>
    ensures { IfOk result (λ n. n ≡ count + count_by (λ d. is_type d.entity) objects.now) }
{
    count.checked_add(types_among(objects)).ok_or(Memory)
}

/// How many of these are types.
fn types_among(objects: &[Declared]) -> usize
    ensures { result ≡ count_by (λ d. is_type d.entity) objects.now }
{
    objects
        .iter()
        .filter(|object| matches!(object.entity, Entity::Type))
        .count()
}
