//! No declaration needs itself.

ghost use Rattle.std.specs.Prelude.{◌≡◌, ◌+◌, [], IfOk, length, map};
ghost use Rattle.std.specs.Option.{option_map};
ghost use Rattle.go_base.specs.declared.fault.FaultCode.{FaultCode};
ghost use Rattle.go_tree.specs.Failures.{place_if};
ghost use Rattle.go_tree.specs.Needs.{needs_itself, cycles};
ghost use Rattle.go_scopes_lookup.specs.Views.{found_view, asked_view};
ghost use Rattle.go_scopes_lookup.specs.Sited.{sited};
ghost use Rattle.go_scopes_cycles.specs.Order.{IsOrder};
ghost use Rattle.go_scopes.specs.Decided.{is_decided};
ghost use Rattle.go_scopes.specs.Noted.{noted};
ghost use Rattle.go_scopes.specs.Views.{failure_of};

use crate::failure::{is_earlier, note};
use go_base::{Fault, FaultCode};
use go_scopes_cycles::order::{Order, order_of};
use go_scopes_lookup::asked::Asked;
use go_scopes_lookup::found::Found;
use go_scopes_lookup::kinds::is_sited;
use std::alloc::{AllocError, Global};

/// Whether a fault that was found is reported before another one.
fn is_decided(found: Option<Fault>, other: Fault) -> bool
    ensures { result ≡ is_decided (option_map failure_of found) (failure_of other) }
{
    match found {
        None => false,
        Some(fault) => !is_earlier(other, fault),
    }
}

/// The rule at one declaration, which is looked at where its fault would be reported.
fn note_cycle<'a>(
    alloc: Global,
    found: Option<Fault>,
    lookups: &[Asked<'a>],
    rounds: usize,
    order: &Order,
    d: &Found<'a>,
) -> Result<Option<Fault>, AllocError>
    requires { IsOrder order.now (map asked_view lookups.now) }
    ensures { IfOk result (λ f. option_map failure_of f ≡ noted (option_map failure_of found) FaultCode.Cycle (place_if (needs_itself (map asked_view lookups.now) rounds (found_view d.now)) (found_view d.now).place [])) }
{
    let fault = Fault {
        code: FaultCode::Cycle,
        span: d.place(),
    };
    if is_decided(found, fault) {
        return Ok(found);
    }
    let fails = order.needs_itself(alloc, lookups, rounds, d)?;
    Ok(note(found, fails, FaultCode::Cycle, d.place()))
}

/// The names that stand in parts of declarations: no declaration needs another one.
fn sited<'a>(alloc: Global, lookups: &[Asked<'a>]) -> Result<Vec<Asked<'a>>, AllocError>
    ensures { IfOk result (λ v. map asked_view v.items ≡ sited (map asked_view lookups.now)) }
{
    let mut out = Vec::new(alloc);
    for a in lookups {
        if is_sited(a.lookup.site.get()) {
            out.push(*a)?;
        }
    }
    Ok(out)
}

/// No declaration needs itself (Go specification: Type declarations, Package initialization).
pub fn cycles<'a>(
    alloc: Global,
    found: Option<Fault>,
    lookups: &[Asked<'a>],
    declared: &[Found<'a>],
) -> Result<Option<Fault>, AllocError>
    ensures { IfOk result (λ f. option_map failure_of f ≡ noted (option_map failure_of found) FaultCode.Cycle (cycles (map asked_view lookups.now) (length declared.now + length declared.now) (map found_view declared.now))) }
{
    let sited = sited(alloc, lookups)?;
    cycles_among(alloc, found, &sited, declared)
}

/// The same, where these names are looked up.
fn cycles_among<'a>(
    alloc: Global,
    found: Option<Fault>,
    lookups: &[Asked<'a>],
    declared: &[Found<'a>],
) -> Result<Option<Fault>, AllocError>
    ensures { IfOk result (λ f. option_map failure_of f ≡ noted (option_map failure_of found) FaultCode.Cycle (cycles (map asked_view lookups.now) (length declared.now + length declared.now) (map found_view declared.now))) }
{
    let order = order_of(alloc, lookups, declared)?;
    let rounds = declared.len() + declared.len();
    let mut found = found;
    for d in declared {
        found = note_cycle(alloc, found, lookups, rounds, &order, d)?;
    }
    Ok(found)
}
