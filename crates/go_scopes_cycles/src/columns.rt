//! The columns of specifications whose types and values declarations have.

ghost use Rattle.std.specs.Prelude.{◌≡◌, true, IfOk, map};
ghost use Rattle.go_scopes_lookup.specs.Views.{found_view, asked_view};
ghost use Rattle.go_scopes_cycles.specs.Columns.{AreAlike, same_source, is_listed, are_listed};

use crate::needs::source_of;
use go_scopes_lookup::asked::Asked;
use go_scopes_lookup::found::Found;
use std::alloc::{AllocError, Global};
use std::collections::HashMap;

/// The specification and the column whose type and value a declaration has.
#[derive(Clone, Copy, Debug)]
struct Column {
    specification: Option<u32>,
    number: u32,
}

/// The columns of declarations, by the numbers of their files and their names' tokens.
type Columns = HashMap<(u32, u32), Column>;

/// The columns of the declarations.
fn columns_of(alloc: Global, declared: &[Found<'_>]) -> Result<Columns, AllocError> {
    let mut columns = HashMap::new(alloc);
    for d in declared {
        let column = Column {
            specification: d.declaration.source,
            number: d.declaration.column,
        };
        columns.insert((d.file, d.declaration.name), column)?;
    }
    Ok(columns)
}

/// Whether two declarations have one specification, or neither has one.
pub fn same_source(a: Option<u32>, b: Option<u32>) -> bool
    ensures { result ≡ same_source a b }
{
    match (a, b) {
        (None, None) => true,
        (Some(a), Some(b)) => a == b,
        _ => false,
    }
}

/// Whether this is the column of the declaration.
fn is_listed(columns: &Columns, d: &Found<'_>) -> bool
    ensures { result ≡ is_listed columns.now (found_view d.now) }
{
    match columns.get(&(d.file, d.declaration.name)) {
        None => false,
        Some(column) => {
            same_source(column.specification, d.declaration.source)
                && column.number == d.declaration.column
        }
    }
}

/// Whether all declarations that the names call for have these columns.
fn are_listed(columns: &Columns, lookups: &[Asked<'_>]) -> bool
    ensures { result ≡ are_listed columns.now (map asked_view lookups.now) }
{
    for a in lookups {
        if let Some(d) = source_of(a.meaning) {
            if !is_listed(columns, &d) {
                return false;
            }
        }
    }
    true
}

/// Whether the declarations of one name that the names call for have one specification and one column.
pub fn are_alike(
    alloc: Global,
    lookups: &[Asked<'_>],
    declared: &[Found<'_>],
) -> Result<bool, AllocError>
    ensures { IfOk result (λ b. b ≡ true → AreAlike (map asked_view lookups.now)) }
{
    let columns = columns_of(alloc, declared)?;
    Ok(are_listed(&columns, lookups))
}
