//! The specifications that the objects of a package have.

ghost use Rattle.std.specs.Prelude.{◌≡◌, Some, IfOk, map};
ghost use Rattle.go_scopes_lookup.specs.Views.{found_view};
ghost use Rattle.go_needs.specs.Objects.{KnowsOwners, owner_by};

use crate::declaring::Table;
use crate::owners::{Owner, owner_of};
use go_base::Memory;
use go_scopes_lookup::found::Found;
use go_tree::object::Declared;
use std::alloc::{AllocError, Global};
use std::collections::HashMap;

/// The specifications of declarations, by the numbers of their files and of their names' tokens.
pub type Owned = HashMap<(usize, usize), Owner>;

/// The number of the file of a declaration.
fn file_of(d: &Found<'_>) -> usize
    ensures { result ≡ d.now.file }
{
    d.file as usize
}

/// The number of the token of its name.
fn name_of(d: &Found<'_>) -> usize
    ensures { result ≡ d.now.declaration.now.name }
{
    d.declaration.name as usize
}

/// The specifications of declarations; of several at one name the first.
pub fn owned_of(alloc: Global, found: &[Found<'_>]) -> Result<Owned, AllocError>
    ensures { IfOk result (λ m. KnowsOwners m (map found_view found.now)) }
{
    let mut owned = HashMap::new(alloc);
    for number in (0..found.len()).rev() {
        let d = found[number];
        owned.insert((file_of(&d), name_of(&d)), owner_of(&d))?;
    }
    Ok(owned)
}

/// The specifications of objects, with the numbers of their names as columns. Where no declaration is found at an object's name the
/// answer is want of memory, which doesn't arise.
pub fn owners_of(
    alloc: Global,
    owned: &Owned,
    table: &Table,
    objects: &[Declared],
) -> Result<Vec<Owner>, Memory>
    ensures { IfOk result (λ v. map Some v.items ≡ map (owner_by owned.now table.now) objects.now) }
{
    let mut all = Vec::new(alloc);
    for d in objects {
        let spot = (d.file as usize, d.name as usize);
        let Some(owner) = owned.get(&spot).copied() else {
            return Err(Memory);
        };
        let Some(declaring) = table.get(&spot).copied() else {
            return Err(Memory);
        };
        all.push(Owner {
            file: owner.file,
            source: owner.source,
            column: declaring.column,
        })?;
    }
    Ok(all)
}
