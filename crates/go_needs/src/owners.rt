//! The specifications that declarations have.

ghost use Rattle.std.specs.Prelude.{◌≡◌, ℕ, ◌&&◌, ◌||◌, nat_eq, IfOk, OnOk};
ghost use Rattle.std.specs.HashSet as set;
ghost use Rattle.go_scopes_lookup.specs.Tables.{same_spot};
ghost use Rattle.go_scopes_lookup.specs.Views.{found_view};
ghost use Rattle.go_tree.specs.Needs.{is_source};
ghost use Rattle.go_needs.specs.Owners.{owner_of, same_owner, has_source};

use go_scopes_cycles::columns::same_source;
use go_scopes_lookup::found::Found;
use std::alloc::{AllocError, Global};
use std::collections::HashSet;

/// The specification that a declaration has, if it has one, and its column in it.
#[derive(Clone, Copy, Debug)]
pub struct Owner {
    /// The number of the file.
    pub file: u32,
    /// The number of the specification's token.
    pub source: Option<u32>,
    pub column: usize,
}

/// The files and tokens of specifications.
pub type Sources = HashSet<(u32, u32)>;

/// The specification and the column of a declaration.
pub fn owner_of(d: &Found<'_>) -> Owner
    ensures { result ≡ owner_of (found_view d.now) }
{
    Owner {
        file: d.file,
        source: d.declaration.source,
        column: d.declaration.column as usize,
    }
}

/// Whether two declarations have one specification and one column.
pub fn same_owner(a: &Owner, b: &Owner) -> bool
    ensures { result ≡ same_owner a.now b.now }
{
    a.file == b.file && same_source(a.source, b.source) && a.column == b.column
}

/// Notes the specification of a declaration, if it has one.
fn note_source(sources: &mut Sources, o: &Owner) -> Result<(), AllocError>
    ensures { OnOk result ((n s : ℕ) → set.contains same_spot sources.new (n, s) ≡ ((nat_eq o.now.file n && is_source s o.now.source) || set.contains same_spot sources.old (n, s))) }
{
    if let Some(source) = o.source {
        sources.insert((o.file, source))?;
    }
    Ok(())
}

/// The specifications that these have.
pub fn sources_of(alloc: Global, owners: &[Owner]) -> Result<Sources, AllocError>
    ensures { IfOk result (λ m. (n s : ℕ) → set.contains same_spot m (n, s) ≡ has_source owners.now n s) }
{
    let mut sources = HashSet::new(alloc);
    for o in owners {
        note_source(&mut sources, o)?;
    }
    Ok(sources)
}
