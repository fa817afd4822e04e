//! Left sides (Go specification: Assignment statements, IncDec statements, Short variable declarations).
ghost use Rattle.std.specs.Prelude.{◌≡◌, ◌++◌, IfOk, length, map};
ghost use Rattle.std.specs.List.{AllByRecursion};
ghost use Rattle.go_types.specs.Tables.{rights_of};
ghost use Rattle.go_typed.specs.Views.{seen, Known};
ghost use Rattle.go_typed.specs.Scopes.{KnownLocals};
ghost use Rattle.go_exprs_rules.specs.Faults.{least};
ghost use Rattle.go_exprs_rules.specs.Seen.{AreBasics};
ghost use Rattle.go_stmts_defs.specs.Assigning.{at_nil, assignment_failing};
ghost use Rattle.go_stmts_defs.specs.Rules.{each, not_a_target, not_a_variable, target_type, known_type, assign_failing, step_failing};
ghost use Rattle.go_exprs_calls.specs.Shown.{shown, AllShownKnown};
ghost use Rattle.go_stmts_rules.specs.Seen.{locals_in};

use crate::assign::{assignment, at_nil};
use crate::wanted::{known_types, target_types};
use go_base::{FaultCode, Memory};
use go_exprs_rules::fault::earlier;
use go_exprs_rules::nodes::{fault_at, sort_of};
use go_exprs_rules::shift::is_whole;
use go_exprs_rules::{Basics, Place, TypeFault};
use go_stmts_parts::targets::{is_target, is_variable};
use go_typed::{Locals, TypedNode};
use go_types::Types;
use std::alloc::Global;

/// The fault of what may not be assigned to.
fn not_a_target(types: &Types, target: &TypedNode) -> Option<TypeFault>
    requires { Known (length types.now.shapes) target.now }
    ensures { result ≡ least (not_a_target (rights_of types.now) (seen types.now target.now)) }
{
    if is_target(types, target) {
        None
    } else {
        Some(fault_at(types, target, FaultCode::LeftSide))
    }
}

/// The fault of what is no variable.
pub fn not_a_variable(types: &Types, target: &TypedNode) -> Option<TypeFault>
    requires { Known (length types.now.shapes) target.now }
    ensures { result ≡ least (not_a_variable (rights_of types.now) (seen types.now target.now)) }
{
    if is_variable(types, target) {
        None
    } else {
        Some(fault_at(types, target, FaultCode::LeftSide))
    }
}

/// The least fault of targets.
pub fn targets_fault(types: &Types, targets: &[&TypedNode]) -> Option<TypeFault>
    requires { AllShownKnown (length types.now.shapes) targets.now }
    ensures { result ≡ least (each (not_a_target (rights_of types.now)) (shown types.now targets.now)) }
{
    let mut first = None;
    for target in targets {
        first = earlier(first, not_a_target(types, target));
    }
    first
}

/// The least fault of values that are `nil`.
fn nils_fault(types: &Types, values: &[&TypedNode]) -> Option<TypeFault>
    requires { AllShownKnown (length types.now.shapes) values.now }
    ensures { result ≡ least (each at_nil (shown types.now values.now)) }
{
    let mut first = None;
    for value in values {
        first = earlier(first, at_nil(types, value));
    }
    first
}

/// The fault of an assignment.
#[tactic(auto, using(go_exprs_rules::proofs::Firsts::least_append))]
pub fn assign_fault(
    alloc: Global,
    types: &Types,
    basics: Basics,
    place: Place,
    targets: &[&TypedNode],
    values: &[&TypedNode],
) -> Result<Option<TypeFault>, Memory>
    requires basics { AreBasics types.now basics }
    requires targets { AllShownKnown (length types.now.shapes) targets.now }
    requires values { AllShownKnown (length types.now.shapes) values.now }
    ensures { IfOk result (λ o. o ≡ least (assign_failing (rights_of types.now) place.first place.last (shown types.now targets.now) (shown types.now values.now))) }
{
    let wanted = target_types(alloc, types, targets)?;
    Ok(earlier(
        targets_fault(types, targets),
        assignment(types, basics, place, &wanted, values),
    ))
}

/// The fault of a short variable declaration.
#[tactic(auto, using(go_exprs_rules::proofs::Firsts::least_append))]
pub fn define_fault(
    alloc: Global,
    types: &Types,
    basics: Basics,
    locals: &Locals,
    place: Place,
    names: &[&TypedNode],
    values: &[&TypedNode],
) -> Result<Option<TypeFault>, Memory>
    requires basics { AreBasics types.now basics }
    requires locals { KnownLocals (length types.now.shapes) locals.now }
    requires values { AllShownKnown (length types.now.shapes) values.now }
    ensures { let rights = rights_of types.now in let xs = shown types.now values.now in let ts = map (known_type (locals_in types.now locals.now)) (shown types.now names.now) in
        IfOk result (λ o. o ≡ least (each at_nil xs ++ assignment_failing rights place.first place.last ts xs)) }
{
    let wanted = known_types(alloc, types, locals, names)?;
    Ok(earlier(
        nils_fault(types, values),
        assignment(types, basics, place, &wanted, values),
    ))
}

/// The fault of an increment or decrement.
#[tactic(auto, using(go_exprs_rules::proofs::Firsts::least_append))]
pub fn step_fault(types: &Types, place: Place, target: &TypedNode) -> Option<TypeFault>
    requires { Known (length types.now.shapes) target.now }
    ensures { result ≡ least (step_failing (rights_of types.now) place.first place.last (seen types.now target.now)) }
{
    let own = if is_whole(types, sort_of(types, target)) {
        None
    } else {
        Some(place.fault(FaultCode::Operands))
    };
    earlier(not_a_variable(types, target), own)
}
