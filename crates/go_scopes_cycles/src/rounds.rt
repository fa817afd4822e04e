//! What a declaration needs, what this needs, and so on, by the rounds of the definition.

ghost use Rattle.std.specs.Prelude.{◌≡◌, ◌∷◌, IfOk, OnOk, map, drop, [], false};
ghost use Rattle.go_tree.specs.Needs.{needs, needs_of, is_among, is_known, with_one, with_all, all_needed, needs_itself};
ghost use Rattle.go_scopes_lookup.specs.Views.{found_view, asked_view};
ghost use Rattle.go_scopes_cycles.specs.Views.{needed_view};

use crate::needs::{Needed, is_same, needed_by};
use go_scopes_lookup::asked::Asked;
use go_scopes_lookup::found::Found;
use std::alloc::{AllocError, Global};

/// Whether the declaration is among those that are needed.
pub fn is_among(d: &Found<'_>, all: &[Needed<'_>]) -> bool
    ensures { result ≡ is_among (found_view d.now) (map needed_view all.now) }
{
    for x in all {
        if is_same(d, &x.found) {
            return true;
        }
    }
    false
}

/// Whether the declaration is needed in this way already.
fn is_known(x: &Needed<'_>, all: &[Needed<'_>]) -> bool
    ensures { result ≡ is_known (needed_view x.now) (map needed_view all.now) }
{
    for other in all {
        if is_same(&x.found, &other.found) && x.full == other.full {
            return true;
        }
    }
    false
}

/// Puts it behind the others, where it isn't among them.
fn push_new<'a>(out: &mut Vec<Needed<'a>>, needed: Needed<'a>) -> Result<(), AllocError>
    ensures { OnOk result (map needed_view out.new.items ≡ with_one (needed_view needed.entry) (map needed_view out.old.items)) }
{
    if is_known(&needed, out) {
        return Ok(());
    }
    out.push(needed)?;
    Ok(())
}

/// What a declaration needs at once by one name, behind what is there and where it isn't.
#[tactic(auto, using(crate::proofs::AllNeeded::needs_some, crate::proofs::AllNeeded::needs_none))]
fn push_needed<'a>(
    out: &mut Vec<Needed<'a>>,
    a: &Asked<'a>,
    x: &Needed<'_>,
) -> Result<(), AllocError>
    ensures { OnOk result (map needed_view out.new.items ≡ with_all (needs (asked_view a.now ∷ []) (needed_view x.now)) (map needed_view out.old.items)) }
{
    match needed_by(a, x) {
        None => Ok(()),
        Some(needed) => push_new(out, needed),
    }
}

/// What a declaration needs at once, behind what is there and where it isn't.
fn push_needs<'a>(
    out: &mut Vec<Needed<'a>>,
    lookups: &[Asked<'a>],
    x: &Needed<'_>,
) -> Result<(), AllocError>
    ensures { OnOk result (map needed_view out.new.items ≡ with_all (needs (map asked_view lookups.now) (needed_view x.now)) (map needed_view out.old.items)) }
{
    for a in lookups {
        push_needed(out, a, x)?;
    }
    Ok(())
}

/// What some declarations need at once, behind what is there and where it isn't.
fn push_round<'a>(
    out: &mut Vec<Needed<'a>>,
    lookups: &[Asked<'a>],
    from: &[Needed<'a>],
) -> Result<(), AllocError>
    ensures { OnOk result (map needed_view out.new.items ≡ with_all (needs_of (map asked_view lookups.now) (map needed_view from.now)) (map needed_view out.old.items)) }
{
    for x in from {
        push_needs(out, lookups, x)?;
    }
    Ok(())
}

/// Some declarations, what they need, what these need, and so on. Each round looks at those that the last one added.
fn all_needed<'a>(
    alloc: Global,
    lookups: &[Asked<'a>],
    rounds: usize,
    start: &[Needed<'a>],
) -> Result<Vec<Needed<'a>>, AllocError>
    ensures { IfOk result (λ v. map needed_view v.items ≡ all_needed (map asked_view lookups.now) rounds (map needed_view start.now)) }
{
    let mut all = copy_from(alloc, start, 0)?;
    let mut fresh = copy_from(alloc, start, 0)?;
    for _round in 0..rounds {
        let end = all.len();
        push_round(&mut all, lookups, &fresh)?;
        if all.len() == end {
            return Ok(all);
        }
        fresh = copy_from(alloc, &all, end)?;
    }
    Ok(all)
}

/// A copy of the declarations from this number on.
fn copy_from<'a>(
    alloc: Global,
    all: &[Needed<'a>],
    start: usize,
) -> Result<Vec<Needed<'a>>, AllocError>
    ensures { IfOk result (λ v. v.items ≡ drop start all.now) }
{
    let mut copy = Vec::new(alloc);
    if start < all.len() {
        copy.extend_from_slice(&all[start..])?;
    }
    Ok(copy)
}

/// What a declaration needs, what this needs, and so on, by way of at most `rounds` others.
pub fn needed_through<'a>(
    alloc: Global,
    lookups: &[Asked<'a>],
    rounds: usize,
    d: &Found<'a>,
) -> Result<Vec<Needed<'a>>, AllocError>
    ensures { let asks = map asked_view lookups.now in
        IfOk result (λ v. map needed_view v.items ≡ all_needed asks rounds (with_all (needs asks (record { it = found_view d.now; full = false })) [])) }
{
    let first = Needed {
        found: *d,
        full: false,
    };
    let mut start = Vec::new(alloc);
    push_needs(&mut start, lookups, &first)?;
    all_needed(alloc, lookups, rounds, &start)
}

/// Whether a declaration needs itself, by way of at most `rounds` others.
pub fn needs_itself<'a>(
    alloc: Global,
    lookups: &[Asked<'a>],
    rounds: usize,
    d: &Found<'a>,
) -> Result<bool, AllocError>
    ensures { IfOk result (λ b. b ≡ needs_itself (map asked_view lookups.now) rounds (found_view d.now)) }
{
    let all = needed_through(alloc, lookups, rounds, d)?;
    Ok(is_among(d, &all))
}
