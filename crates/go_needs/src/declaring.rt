//! Which specification declares a name, and as which of its names.

ghost use Rattle.std.specs.Prelude.{◌≡◌, ℕ, Some, IfOk, OnOk, map, slice_get};
ghost use Rattle.std.specs.HashMap as hash;
ghost use Rattle.go_declarations.specs.Views.{seen_all};
ghost use Rattle.go_scopes_lookup.specs.Tables.{same_spot};
ghost use Rattle.go_needs.specs.Declaring.{over_names, KnowsDeclaring, declaring_by};

use go_base::Memory;
use go_declarations::Specification;
use go_tree::object::Declared;
use std::alloc::{AllocError, Global};
use std::collections::HashMap;

/// Which specification declares an object, and the number of its name in it.
#[derive(Clone, Copy, Debug)]
pub struct Declaring {
    /// The number of the specification.
    pub specification: usize,
    pub column: usize,
}

/// What declares names, by the numbers of their files and tokens.
pub type Table = HashMap<(usize, usize), Declaring>;

/// Notes the names of a specification, over those of others.
fn add_names(
    table: &mut Table,
    specification: usize,
    file: usize,
    names: &[usize],
) -> Result<(), AllocError>
    ensures { OnOk result ((n t : ℕ) → hash.get same_spot table.new (n, t) ≡ over_names specification file n t 0 names.now (hash.get same_spot table.old (n, t))) }
{
    for column in (0..names.len()).rev() {
        let declaring = Declaring {
            specification,
            column,
        };
        table.insert((file, names[column]), declaring)?;
    }
    Ok(())
}

/// What declares the names of specifications; of several the first one.
pub fn table_of(alloc: Global, specifications: &[Specification<'_>]) -> Result<Table, AllocError>
    ensures { IfOk result (λ m. KnowsDeclaring m (seen_all specifications.now)) }
{
    let mut table = HashMap::new(alloc);
    for number in (0..specifications.len()).rev() {
        let s = &specifications[number];
        add_names(&mut table, number, s.file, &s.names)?;
    }
    Ok(table)
}

/// What declares objects. Where a specification declares none of that name the answer is want of memory, which doesn't arise.
pub fn declaring_of(
    alloc: Global,
    table: &Table,
    objects: &[Declared],
) -> Result<Vec<Declaring>, Memory>
    ensures { IfOk result (λ v. map Some v.items ≡ map (declaring_by table.now) objects.now) }
{
    let mut all = Vec::new(alloc);
    for d in objects {
        let Some(declaring) = table.get(&(d.file as usize, d.name as usize)).copied() else {
            return Err(Memory);
        };
        all.push(declaring)?;
    }
    Ok(all)
}

/// What declares the object of this number.
pub fn declaring_at(declaring: &[Declaring], number: usize) -> Option<Declaring>
    ensures { result ≡ slice_get declaring.now number }
{
    declaring.get(number).copied()
}
