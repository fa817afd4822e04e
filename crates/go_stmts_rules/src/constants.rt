//! Declarations of variables and constants (Go specification: Variable declarations, Constant declarations).
ghost use Rattle.std.specs.Prelude.{◌≡◌, ◌<◌, ◌==◌, ◌∷◌, [], IfOk, if◌then◌else◌, length, map, replicate};
ghost use Rattle.std.specs.Option.{option_map};
ghost use Rattle.go_base.specs.declared.fault.FaultCode.TheVariants as code;
ghost use Rattle.go_types.specs.Tables.{type_of, rights_of};
ghost use Rattle.go_typed.specs.Views.{seen, Known, AllKnown};
ghost use Rattle.go_exprs_rules.specs.Faults.{least, fault_at};
ghost use Rattle.go_exprs_rules.specs.Seen.{AreBasics};
ghost use Rattle.go_exprs_rules.specs.TypeNodes.{part_type};
ghost use Rattle.go_stmts_defs.specs.Assigning.{assignment_failing, constant_failing, constants_failing};
ghost use Rattle.go_stmts_defs.specs.Rules.{type_there, values_there, variables_failing, constants_counted};
ghost use Rattle.go_exprs_calls.specs.Shown.{shown, AllShownKnown};
ghost use Rattle.go_stmts_rules.specs.Seen.{KnownWanted};

use crate::assign::assignment;
use crate::nodes::parts_behind;
use crate::wanted::same_types;
use go_base::{FaultCode, Memory};
use go_exprs_calls::arguments::present;
use go_exprs_rules::assign::unassignable;
use go_exprs_rules::fault::earlier;
use go_exprs_rules::nodes::{fault_at, sort_of};
use go_exprs_rules::sorts::is_constant;
use go_exprs_rules::{Basics, Place, TypeFault};
use go_typed::{Sort, TypedNode};
use go_types::{TypeId, Types};
use std::alloc::Global;

/// The type that a part stands for, if it is there.
fn part_type(types: &Types, part: &Option<TypedNode>) -> Option<TypeId>
    requires { AllKnown (length types.now.shapes) (part.now ∷ []) }
    ensures tree { option_map (type_of types.now.shapes) result ≡ part_type (option_map (seen types.now) part.now) }
    ensures known { KnownWanted (length types.now.shapes) result }
{
    let Some(node) = part else { return None };
    match sort_of(types, node) {
        Sort::Type(of) => Some(*of),
        _ => None,
    }
}

/// The type of a specification of so many names, if it has one.
pub fn type_there(types: &Types, parts: &[Option<TypedNode>], count: u32) -> Option<TypeId>
    requires { AllKnown (length types.now.shapes) parts.now }
    ensures tree { option_map (type_of types.now.shapes) result ≡ type_there count (map (option_map (seen types.now)) parts.now) }
    ensures known { KnownWanted (length types.now.shapes) result }
{
    match parts_behind(types, parts, count as usize) {
        [] => None,
        [part, ..] => part_type(types, part),
    }
}

/// The values of a specification of so many names.
///
/// # Errors
///
/// Want of memory.
pub fn values_there<'a>(
    alloc: Global,
    types: &Types,
    parts: &'a [Option<TypedNode>],
    count: u32,
) -> Result<Vec<&'a TypedNode>, Memory>
    requires { AllKnown (length types.now.shapes) parts.now }
    ensures nodes { IfOk result (λ ns. shown types.now ns.items ≡ values_there count (map (option_map (seen types.now)) parts.now)) }
    ensures known { IfOk result (λ ns. AllShownKnown (length types.now.shapes) ns.items) }
{
    present(alloc, types, parts_behind(types, parts, count as usize + 1))
}

/// The fault of values that are given to so many variables of a type, or of none.
fn given_fault(
    alloc: Global,
    types: &Types,
    basics: Basics,
    place: Place,
    count: u32,
    of: Option<TypeId>,
    values: &[&TypedNode],
) -> Result<Option<TypeFault>, Memory>
    requires basics { AreBasics types.now basics }
    requires of { KnownWanted (length types.now.shapes) of }
    requires values { AllShownKnown (length types.now.shapes) values.now }
    ensures { IfOk result (λ o. o ≡ least (assignment_failing (rights_of types.now) place.first place.last (replicate count (option_map (type_of types.now.shapes) of)) (shown types.now values.now))) }
{
    let wanted = same_types(alloc, types, count, of)?;
    Ok(assignment(types, basics, place, &wanted, values))
}

/// The fault of the values, if there are any, of so many variables of a type, or of none.
pub fn variables_fault(
    alloc: Global,
    types: &Types,
    basics: Basics,
    place: Place,
    count: u32,
    of: Option<TypeId>,
    values: &[&TypedNode],
) -> Result<Option<TypeFault>, Memory>
    requires basics { AreBasics types.now basics }
    requires of { KnownWanted (length types.now.shapes) of }
    requires values { AllShownKnown (length types.now.shapes) values.now }
    ensures { IfOk result (λ o. o ≡ least (variables_failing (rights_of types.now) place.first place.last count (option_map (type_of types.now.shapes) of) (shown types.now values.now))) }
{
    match values {
        [] => Ok(None),
        [_, ..] => given_fault(alloc, types, basics, place, count, of, values),
    }
}

/// The fault of a value of a constant: it is constant, and of the type, where there is one.
fn constant_fault(types: &Types, of: Option<TypeId>, value: &TypedNode) -> Option<TypeFault>
    requires of { KnownWanted (length types.now.shapes) of }
    requires value { Known (length types.now.shapes) value.now }
    ensures { result ≡ least (constant_failing (rights_of types.now) (option_map (type_of types.now.shapes) of) (seen types.now value.now)) }
{
    if !is_constant(types, sort_of(types, value)) {
        return Some(fault_at(types, value, FaultCode::Operands));
    }
    match of {
        Some(of) => unassignable(types, of, value),
        None => None,
    }
}

/// The least fault of the values of constants.
fn each_constant(types: &Types, of: Option<TypeId>, values: &[&TypedNode]) -> Option<TypeFault>
    requires of { KnownWanted (length types.now.shapes) of }
    requires values { AllShownKnown (length types.now.shapes) values.now }
    ensures { result ≡ least (constants_failing (rights_of types.now) (option_map (type_of types.now.shapes) of) (shown types.now values.now)) }
{
    let mut first = None;
    for value in values {
        first = earlier(first, constant_fault(types, of, value));
    }
    first
}

/// Whether there are so many values.
fn is_count(types: &Types, count: u32, values: &[&TypedNode]) -> bool
    ensures { result ≡ (count == length (shown types.now values.now)) }
{
    let _types = types;
    count as usize == values.len()
}

/// The fault of a number of values that isn't that of the names.
fn count_fault(types: &Types, place: Place, count: u32, values: &[&TypedNode]) -> Option<TypeFault>
    ensures { result ≡ least (if count == length (shown types.now values.now) then [] else fault_at code.Count place.first place.last) }
{
    if is_count(types, count, values) {
        None
    } else {
        Some(place.fault(FaultCode::Count))
    }
}

/// The fault of a specification of so many constants.
#[tactic(auto, using(go_exprs_rules::proofs::Firsts::least_append))]
pub fn constants_fault(
    types: &Types,
    place: Place,
    count: u32,
    of: Option<TypeId>,
    values: &[&TypedNode],
) -> Option<TypeFault>
    requires of { KnownWanted (length types.now.shapes) of }
    requires values { AllShownKnown (length types.now.shapes) values.now }
    ensures { result ≡ least (constants_counted (rights_of types.now) place.first place.last count (option_map (type_of types.now.shapes) of) (shown types.now values.now)) }
{
    earlier(
        count_fault(types, place, count, values),
        each_constant(types, of, values),
    )
}
