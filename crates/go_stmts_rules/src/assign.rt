//! Values that are given to variables (Go specification: Assignment statements, Variable declarations, Short variable declarations,
//! Return statements).
ghost use Rattle.std.specs.Prelude.{◌≡◌, ◌<◌, ◌==◌, IfSome, length, map};
ghost use Rattle.std.specs.List.{AllByRecursion};
ghost use Rattle.std.specs.Option.{option_map};
ghost use Rattle.go_types.specs.Tables.{type_of, rights_of};
ghost use Rattle.go_types_relations.specs.Tests.{underlying_of};
ghost use Rattle.go_typed.specs.Views.{seen, sort_seen, Known, KnownSort};
ghost use Rattle.go_exprs_rules.specs.Calls.{results_of};
ghost use Rattle.go_exprs_rules.specs.Faults.{least};
ghost use Rattle.go_exprs_rules.specs.Seen.{AreBasics};
ghost use Rattle.go_stmts_defs.specs.Assigning.{types_in, called_results, whole_results, at_nil, unassigned, all_unassigned, result_unassigned, results_unassigned, call_assigned, assignment_by, assignment_failing};
ghost use Rattle.go_exprs_calls.specs.Shown.{shown, AllShownKnown};
ghost use Rattle.go_stmts_rules.specs.Seen.{wanted_seen, KnownWanted, types_seen};

use go_base::FaultCode;
use go_exprs_rules::assign::{unassignable, undefaulted};
use go_exprs_rules::fault::earlier;
use go_exprs_rules::nodes::{fault_at, sort_of};
use go_exprs_rules::sorts::is_nil;
use go_exprs_rules::{Basics, Place, TypeFault};
use go_typed::{Sort, TypedNode};
use go_types::{Shape, TypeId, Types};
use go_types_relations::{assignable, underlying};

/// The types of the results of a function type.
#[tactic(auto, using(crate::proofs::Results::types_in_row))]
pub fn results_of<'a>(types: &'a Types, of: TypeId) -> &'a [TypeId]
    requires { of < length types.now.shapes }
    ensures tree { types_seen types.now result.now ≡ types_in (results_of (underlying_of (rights_of types.now) (type_of types.now.shapes of))) }
    ensures known { AllByRecursion (λ t. t < length types.now.shapes) result.now }
{
    match underlying(types, of) {
        Some(Shape::Func { results, .. }) => results.as_slice(),
        _ => &[],
    }
}

/// The results of a call, none or several.
fn called_results<'a>(types: &'a Types, sort: &Sort) -> Option<&'a [TypeId]>
    requires { KnownSort (length types.now.shapes) sort.now }
    ensures tree { option_map (λ rs. types_seen types.now rs.now) result ≡ called_results (rights_of types.now) (sort_seen types.now sort.now) }
    ensures known { IfSome result (λ rs. AllByRecursion (λ t. t < length types.now.shapes) rs.now) }
{
    match sort {
        Sort::Results(of) => Some(results_of(types, *of)),
        _ => None,
    }
}

/// The results of a call that is the whole right side.
pub fn whole_results<'a>(types: &'a Types, values: &[&TypedNode]) -> Option<&'a [TypeId]>
    requires { AllShownKnown (length types.now.shapes) values.now }
    ensures tree { option_map (λ rs. types_seen types.now rs.now) result ≡ whole_results (rights_of types.now) (shown types.now values.now) }
    ensures known { IfSome result (λ rs. AllByRecursion (λ t. t < length types.now.shapes) rs.now) }
{
    match values {
        [] => None,
        [value] => called_results(types, sort_of(types, value)),
        [_, _, ..] => None,
    }
}

/// The fault of a value that is `nil`.
pub fn at_nil(types: &Types, value: &TypedNode) -> Option<TypeFault>
    requires { Known (length types.now.shapes) value.now }
    ensures { result ≡ least (at_nil (seen types.now value.now)) }
{
    if is_nil(types, sort_of(types, value)) {
        Some(fault_at(types, value, FaultCode::Operands))
    } else {
        None
    }
}

/// The fault of a value that is given to a variable of a type, or to one that takes its type of the value.
pub fn unassigned(
    types: &Types,
    basics: Basics,
    wanted: Option<TypeId>,
    value: &TypedNode,
) -> Option<TypeFault>
    requires basics { AreBasics types.now basics }
    requires wanted { KnownWanted (length types.now.shapes) wanted }
    requires value { Known (length types.now.shapes) value.now }
    ensures { result ≡ least (unassigned (rights_of types.now) (option_map (type_of types.now.shapes) wanted) (seen types.now value.now)) }
{
    match wanted {
        Some(to) => unassignable(types, to, value),
        None => if is_nil(types, sort_of(types, value)) {
            Some(fault_at(types, value, FaultCode::Operands))
        } else {
            undefaulted(types, basics, value)
        },
    }
}

/// The least fault of values of which each is given to a variable.
fn all_unassigned(
    types: &Types,
    basics: Basics,
    wanted: &[Option<TypeId>],
    values: &[&TypedNode],
) -> Option<TypeFault>
    requires basics { AreBasics types.now basics }
    requires wanted { AllByRecursion (KnownWanted (length types.now.shapes)) wanted.now }
    requires values { AllShownKnown (length types.now.shapes) values.now }
    ensures { result ≡ least (all_unassigned (rights_of types.now) (wanted_seen types.now wanted.now) (shown types.now values.now)) }
{
    let mut first = None;
    for number in 0..wanted.len().min(values.len()) {
        first = earlier(
            first,
            unassigned(types, basics, wanted[number], values[number]),
        );
    }
    first
}

/// The fault of a result of a call that is given to a variable.
pub fn result_unassigned(
    types: &Types,
    call: &TypedNode,
    wanted: Option<TypeId>,
    of: TypeId,
) -> Option<TypeFault>
    requires wanted { KnownWanted (length types.now.shapes) wanted }
    requires of { of < length types.now.shapes }
    ensures { result ≡ least (result_unassigned (rights_of types.now) (seen types.now call.now) (option_map (type_of types.now.shapes) wanted) (type_of types.now.shapes of)) }
{
    match wanted {
        None => None,
        Some(to) => if assignable(types, of, to) {
            None
        } else {
            Some(fault_at(types, call, FaultCode::Assignable))
        },
    }
}

/// The least fault of results of a call of which each is given to a variable.
fn results_unassigned(
    types: &Types,
    call: &TypedNode,
    wanted: &[Option<TypeId>],
    results: &[TypeId],
) -> Option<TypeFault>
    requires wanted { AllByRecursion (KnownWanted (length types.now.shapes)) wanted.now }
    requires results { AllByRecursion (λ t. t < length types.now.shapes) results.now }
    ensures { result ≡ least (results_unassigned (rights_of types.now) (seen types.now call.now) (wanted_seen types.now wanted.now) (types_seen types.now results.now)) }
{
    let mut first = None;
    for number in 0..wanted.len().min(results.len()) {
        first = earlier(
            first,
            result_unassigned(types, call, wanted[number], results[number]),
        );
    }
    first
}

/// The least fault of the results of the call that is the only value.
fn call_assigned(
    types: &Types,
    wanted: &[Option<TypeId>],
    values: &[&TypedNode],
    results: &[TypeId],
) -> Option<TypeFault>
    requires wanted { AllByRecursion (KnownWanted (length types.now.shapes)) wanted.now }
    requires results { AllByRecursion (λ t. t < length types.now.shapes) results.now }
    ensures { result ≡ least (call_assigned (rights_of types.now) (wanted_seen types.now wanted.now) (shown types.now values.now) (types_seen types.now results.now)) }
{
    match values {
        [] => None,
        [call, ..] => results_unassigned(types, call, wanted, results),
    }
}

/// Whether there are as many variables as values.
fn are_as_many(types: &Types, wanted: &[Option<TypeId>], values: &[&TypedNode]) -> bool
    ensures { result ≡ (length (wanted_seen types.now wanted.now) == length (shown types.now values.now)) }
{
    let _types = types;
    wanted.len() == values.len()
}

/// Whether there are as many variables as results.
fn are_as_many_results(types: &Types, wanted: &[Option<TypeId>], results: &[TypeId]) -> bool
    ensures { result ≡ (length (wanted_seen types.now wanted.now) == length (types_seen types.now results.now)) }
{
    let _types = types;
    wanted.len() == results.len()
}

/// The fault of values that are given to variables, which stand at this place: `Count` here unless there are as many values as
/// variables, or one call with as many results, or the least fault of a value.
pub fn assignment(
    types: &Types,
    basics: Basics,
    place: Place,
    wanted: &[Option<TypeId>],
    values: &[&TypedNode],
) -> Option<TypeFault>
    requires basics { AreBasics types.now basics }
    requires wanted { AllByRecursion (KnownWanted (length types.now.shapes)) wanted.now }
    requires values { AllShownKnown (length types.now.shapes) values.now }
    ensures { result ≡ least (assignment_failing (rights_of types.now) place.first place.last (wanted_seen types.now wanted.now) (shown types.now values.now)) }
{
    match whole_results(types, values) {
        Some(results) => if are_as_many_results(types, wanted, results) {
            call_assigned(types, wanted, values, results)
        } else {
            Some(place.fault(FaultCode::Count))
        },
        None => if are_as_many(types, wanted, values) {
            all_unassigned(types, basics, wanted, values)
        } else {
            Some(place.fault(FaultCode::Count))
        },
    }
}
