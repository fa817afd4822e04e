//! Calls of functions.
ghost use Rattle.std.specs.Prelude.{◌≡◌, ◌==◌, ◌<◌, IfOk, IfSome, length, map};
ghost use Rattle.std.specs.List.{AllByRecursion};
ghost use Rattle.std.specs.Option.{option_map};
ghost use Rattle.go_base.specs.Gives.{Gives};
ghost use Rattle.go_types.specs.Trees.{row};
ghost use Rattle.go_types.specs.Tables.{type_of, rights_of};
ghost use Rattle.go_typed.specs.Views.{sort_seen, KnownSort};
ghost use Rattle.go_exprs_rules.specs.Faults.{least, judged};
ghost use Rattle.go_exprs_rules.specs.Seen.{one_fault};
ghost use Rattle.go_exprs_rules.specs.Sorts.{form_of_value, own_type};
ghost use Rattle.go_exprs_rules.specs.Calls.{parameters_of, row_length, called, function_call_failing, function_call_sort};
ghost use Rattle.go_exprs_calls.specs.Shown.{shown, AllShownKnown};

use crate::values::all_unassignable;
use go_base::FaultCode;
use go_exprs_rules::sorts::own_type;
use go_exprs_rules::{Place, TypeFault};
use go_typed::{Sort, TypedNode};
use go_types::{Shape, TypeId, Types};
use go_types_relations::underlying;

/// The types of the parameters of what is called, if it is a function.
pub(crate) fn parameters<'a>(types: &'a Types, callee: &Sort) -> Option<&'a [TypeId]>
    requires { KnownSort (length types.now.shapes) callee.now }
    ensures tree { option_map (λ ps. row (map (type_of types.now.shapes) ps.now)) result ≡ parameters_of (form_of_value (rights_of types.now) (sort_seen types.now callee.now)) }
    ensures known { IfSome result (λ ps. AllByRecursion (λ t. t < length types.now.shapes) ps.now) }
{
    match own_type(types, callee) {
        Some(of) => match underlying(types, of) {
            Some(Shape::Func { params, .. }) => Some(params.as_slice()),
            _ => None,
        },
        None => None,
    }
}

/// What a call of a function with these results stands for: the value of one result, or all.
fn called(types: &Types, of: TypeId, results: &[TypeId]) -> Sort
    requires of { of < length types.now.shapes }
    requires results { AllByRecursion (λ t. t < length types.now.shapes) results.now }
    ensures tree { sort_seen types.now result ≡ called (type_of types.now.shapes of) (row (map (type_of types.now.shapes) results.now)) }
    ensures known { KnownSort (length types.now.shapes) result }
{
    match results {
        [] => Sort::Results(of),
        [one] => Sort::Value(*one),
        [_, _, ..] => Sort::Results(of),
    }
}

/// What a call stands for.
fn called_sort(types: &Types, callee: &Sort) -> Sort
    requires { KnownSort (length types.now.shapes) callee.now }
    ensures tree { sort_seen types.now result ≡ function_call_sort (rights_of types.now) (own_type (sort_seen types.now callee.now)) }
    ensures known { KnownSort (length types.now.shapes) result }
{
    match own_type(types, callee) {
        Some(of) => match underlying(types, of) {
            Some(Shape::Func { results, .. }) => called(types, of, results.as_slice()),
            _ => Sort::Results(of),
        },
        None => Sort::Unknown,
    }
}

/// Whether there are as many types as nodes.
pub(crate) fn are_as_many(types: &Types, to: &[TypeId], nodes: &[&TypedNode]) -> bool
    ensures count { result ≡ (row_length (row (map (type_of types.now.shapes) to.now)) == length (shown types.now nodes.now)) }
    ensures same { result ≡ (length to.now == length nodes.now) }
{
    to.len() == nodes.len()
}

/// A call of a function: `Operands` here where it is no function, `Count` here where the numbers of arguments and parameters
/// disagree, or the least fault of an argument (Go specification, "Calls").
pub(crate) fn function_call(
    types: &Types,
    place: Place,
    callee: &Sort,
    nodes: &[&TypedNode],
) -> Result<Sort, TypeFault>
    requires callee { KnownSort (length types.now.shapes) callee.now }
    requires nodes { AllShownKnown (length types.now.shapes) nodes.now }
    ensures exact { let rights = rights_of types.now in let f = sort_seen types.now callee.now in let xs = shown types.now nodes.now in
        Gives (sort_seen types.now) one_fault result (judged (least (function_call_failing rights place.first place.last (parameters_of (form_of_value rights f)) xs)) (function_call_sort rights (own_type f))) }
    ensures known { IfOk result (KnownSort (length types.now.shapes)) }
{
    let Some(to) = parameters(types, callee) else {
        return Err(place.fault(FaultCode::Operands));
    };
    if !are_as_many(types, to, nodes) {
        return Err(place.fault(FaultCode::Count));
    }
    match all_unassignable(types, to, nodes) {
        Some(fault) => Err(fault),
        None => Ok(called_sort(types, callee)),
    }
}
