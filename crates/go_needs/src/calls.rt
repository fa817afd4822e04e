//! The names in specifications that call for objects of the package.

ghost use Rattle.std.specs.Prelude.{◌≡◌, ℕ, List, Some, true, IfOk, map};
ghost use Rattle.std.specs.HashSet as set;
ghost use Rattle.go_scopes_lookup.specs.Tables.{same_spot};
ghost use Rattle.go_scopes_lookup.specs.Views.{found_view, asked_view};
ghost use Rattle.go_needs.specs.Calls.{is_counted, number_of, call_of, calls_of, is_fit, fits_one, fits};
ghost use Rattle.go_needs.specs.Owners.{has_source};
ghost use Rattle.go_needs.specs.declared.owners.Owner as owner;

use crate::owners::{Owner, Sources, owner_of, same_owner, sources_of};
use crate::parts::{full_place, partial_place};
use go_base::Memory;
use go_scopes_cycles::needs::source_of;
use go_scopes_cycles::ranks::Place;
use go_scopes_lookup::asked::Asked;
use go_scopes_lookup::found::Found;
use go_tree::context::Site;
use go_tree::object::Object;
use go_tree::uses::Uses;
use std::alloc::Global;

/// A name that calls for an object of the package.
#[derive(Clone, Copy, Debug)]
pub struct Call {
    /// The number of the object.
    pub number: usize,
    /// The part in which it is needed in full.
    pub full: Option<Place>,
    /// The part in which it is needed in part.
    pub partial: Option<Place>,
}

/// Whether a name stands in one of these specifications.
fn is_counted(sources: &Sources, file: u32, site: Site) -> bool
    ensures { (all : List owner.Owner) → ((n s : ℕ) → set.contains same_spot sources.now (n, s) ≡ has_source all n s) → result ≡ is_counted all file site }
{
    match site {
        Site::Elsewhere => false,
        Site::Type { specification } => sources.contains(&(file, specification)),
        Site::Value { specification, .. } => sources.contains(&(file, specification)),
        Site::Right { specification, .. } => sources.contains(&(file, specification)),
    }
}

/// The number of the object of the package that a declaration declares, if it does.
fn number_of(uses: &Uses, d: &Found<'_>) -> Option<usize>
    ensures { result ≡ number_of uses.now (found_view d.now) }
{
    match uses.object(d.file as usize, d.declaration.name as usize) {
        Some(Object::Package(number)) => Some(number),
        _ => None,
    }
}

/// Whether the object of this number has the specification and the column of the declaration.
fn is_fit(owners: &[Owner], number: usize, d: &Found<'_>) -> bool
    ensures { result ≡ is_fit owners.now (Some number) (found_view d.now) }
{
    match owners.get(number) {
        None => false,
        Some(o) => same_owner(o, &owner_of(d)),
    }
}

/// What a name calls for that stands in one of these specifications. Where it calls for no object of the package, or for one that has
/// another specification than its declaration, the answer is want of memory: names that mean what they do call for none such.
fn call_of(
    uses: &Uses,
    owners: &[Owner],
    sources: &Sources,
    a: &Asked<'_>,
) -> Result<Option<Call>, Memory>
    ensures call { (all : List owner.Owner) → ((n s : ℕ) → set.contains same_spot sources.now (n, s) ≡ has_source all n s) → IfOk result (λ c. c ≡ call_of uses.now all (asked_view a.now)) }
    ensures fits { (all : List owner.Owner) → ((n s : ℕ) → set.contains same_spot sources.now (n, s) ≡ has_source all n s) → IfOk result (λ c. fits_one uses.now owners.now all (asked_view a.now) ≡ true) }
{
    if !is_counted(sources, a.file, a.lookup.site.get()) {
        return Ok(None);
    }
    let Some(d) = source_of(a.meaning) else {
        return Ok(None);
    };
    let Some(number) = number_of(uses, &d) else {
        return Err(Memory);
    };
    if !is_fit(owners, number, &d) {
        return Err(Memory);
    }
    Ok(Some(Call {
        number,
        full: full_place(a.file, a.lookup.site.get()),
        partial: partial_place(a.file, a.lookup.site.get()),
    }))
}

/// What the names call for that stand in specifications of `all`.
pub fn calls_of(
    alloc: Global,
    uses: &Uses,
    owners: &[Owner],
    all: &[Owner],
    lookups: &[Asked<'_>],
) -> Result<Vec<Call>, Memory>
    ensures calls { IfOk result (λ v. v.items ≡ calls_of uses.now all.now (map asked_view lookups.now)) }
    ensures fits { IfOk result (λ v. fits uses.now owners.now all.now (map asked_view lookups.now) ≡ true) }
{
    let sources = sources_of(alloc, all)?;
    let mut calls = Vec::new(alloc);
    for a in lookups {
        if let Some(call) = call_of(uses, owners, &sources, a)? {
            calls.push(call)?;
        }
    }
    Ok(calls)
}
