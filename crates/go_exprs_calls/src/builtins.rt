//! Predeclared functions.
ghost use Rattle.std.specs.Prelude.{◌≡◌, ◌∷◌, ◌<◌, [], Some, IfOk, IfSome, length};
ghost use Rattle.std.specs.Option.{option_map};
ghost use Rattle.go_base.specs.Gives.{Gives};
ghost use Rattle.go_types.specs.Tables.{type_of, rights_of};
ghost use Rattle.go_typed.specs.Views.{seen, sort_seen, Known, KnownSort};
ghost use Rattle.go_exprs_rules.specs.Faults.{least, judged, refusal_of};
ghost use Rattle.go_exprs_rules.specs.Seen.{AreBasics, one_fault};
ghost use Rattle.go_exprs_rules.specs.Sorts.{slice_element, form_of_value, own_type, int};
ghost use Rattle.go_exprs_rules.specs.Indexes.{value_or_unknown};
ghost use Rattle.go_types_relations.specs.Tests.{both_identical};
ghost use Rattle.go_typed.specs.Trees as trees;
ghost use Rattle.go_exprs_rules.specs.Calls.{copies, copy_failing, panic_failing, no_results, append_failing, appended_sort, builtin_failing, builtin_sort};
ghost use Rattle.go_exprs_calls.specs.Shown.{shown, AllShownKnown};

use crate::arguments::{divided, one, two};
use crate::extremes::extreme;
use crate::lengths::{is_text, length_of};
use crate::makes::make;
use crate::values::each_unassignable;
use go_base::FaultCode;
use go_exprs_rules::assign::printed;
use go_exprs_rules::nodes::sort_of;
use go_exprs_rules::sorts::own_type;
use go_exprs_rules::{Basics, Place, TypeError, TypeFault};
use go_ints::Op;
use go_tree::object::Predeclared;
use go_typed::{Sort, TypedNode};
use go_types::{Shape, TypeId, Types};
use go_types_relations::{identical, underlying};
use std::alloc::Global;

/// The type of the elements of a slice.
pub(crate) fn slice_element(types: &Types, sort: &Sort) -> Option<TypeId>
    requires { KnownSort (length types.now.shapes) sort.now }
    ensures known { IfSome result (λ t. t < length types.now.shapes) }
    ensures tree { option_map (type_of types.now.shapes) result ≡ slice_element (form_of_value (rights_of types.now) (sort_seen types.now sort.now)) }
{
    match own_type(types, sort) {
        Some(of) => match underlying(types, of) {
            Some(Shape::Slice { elem }) => Some(*elem),
            _ => None,
        },
        None => None,
    }
}

/// Whether the one slice takes the elements of the other one, or the bytes of a string.
fn copies(types: &Types, basics: Basics, to: &Sort, from: &Sort) -> bool
    requires basics { AreBasics types.now basics }
    requires to { KnownSort (length types.now.shapes) to.now }
    requires from { KnownSort (length types.now.shapes) from.now }
    ensures { let rights = rights_of types.now in result ≡ copies rights (slice_element (form_of_value rights (sort_seen types.now to.now))) (sort_seen types.now from.now) }
{
    let Some(to) = slice_element(types, to) else {
        return false;
    };
    is_identical_element(types, to, slice_element(types, from))
        || (is_text(types, from) && identical(types, to, basics.byte))
}

fn is_identical_element(types: &Types, to: TypeId, from: Option<TypeId>) -> bool
    requires to { to < length types.now.shapes }
    requires from { IfSome from (λ t. t < length types.now.shapes) }
    ensures { result ≡ both_identical (Some (type_of types.now.shapes to)) (option_map (type_of types.now.shapes) from) }
{
    match from {
        Some(from) => identical(types, to, from),
        None => false,
    }
}

/// `copy` (Go specification, "Appending to and copying slices").
fn copy(
    types: &Types,
    basics: Basics,
    place: Place,
    nodes: &[&TypedNode],
) -> Result<Sort, TypeFault>
    requires basics { AreBasics types.now basics }
    requires nodes { AllShownKnown (length types.now.shapes) nodes.now }
    ensures exact { Gives (sort_seen types.now) one_fault result (judged (least (copy_failing (rights_of types.now) place.first place.last (shown types.now nodes.now))) (trees.Value int)) }
    ensures known { IfOk result (KnownSort (length types.now.shapes)) }
{
    match two(types, nodes) {
        Some((to, from)) => copy_of(types, basics, place, to, from),
        None => Err(place.fault(FaultCode::Count)),
    }
}

/// `copy` of two arguments.
fn copy_of(
    types: &Types,
    basics: Basics,
    place: Place,
    to: &TypedNode,
    from: &TypedNode,
) -> Result<Sort, TypeFault>
    requires basics { AreBasics types.now basics }
    requires to { Known (length types.now.shapes) to.now }
    requires from { Known (length types.now.shapes) from.now }
    ensures exact { let xs = seen types.now to.now ∷ seen types.now from.now ∷ [] in Gives (sort_seen types.now) one_fault result (judged (least (copy_failing (rights_of types.now) place.first place.last xs)) (trees.Value int)) }
    ensures known { IfOk result (KnownSort (length types.now.shapes)) }
{
    if copies(types, basics, sort_of(types, to), sort_of(types, from)) {
        Ok(Sort::Value(basics.int))
    } else {
        Err(place.fault(FaultCode::Operands))
    }
}

/// `panic` (Go specification, "Handling panics").
fn panic(
    types: &Types,
    basics: Basics,
    place: Place,
    nodes: &[&TypedNode],
) -> Result<Sort, TypeFault>
    requires basics { AreBasics types.now basics }
    requires nodes { AllShownKnown (length types.now.shapes) nodes.now }
    ensures exact { Gives (sort_seen types.now) one_fault result (judged (least (panic_failing (rights_of types.now) place.first place.last (shown types.now nodes.now))) no_results) }
    ensures known { IfOk result (KnownSort (length types.now.shapes)) }
{
    match one(types, nodes) {
        Some(operand) => panic_of(types, basics, place, operand),
        None => Err(place.fault(FaultCode::Count)),
    }
}

/// `panic` of one argument.
fn panic_of(
    types: &Types,
    basics: Basics,
    place: Place,
    operand: &TypedNode,
) -> Result<Sort, TypeFault>
    requires basics { AreBasics types.now basics }
    requires operand { Known (length types.now.shapes) operand.now }
    ensures exact { let xs = seen types.now operand.now ∷ [] in Gives (sort_seen types.now) one_fault result (judged (least (panic_failing (rights_of types.now) place.first place.last xs)) no_results) }
    ensures known { IfOk result (KnownSort (length types.now.shapes)) }
{
    match printed(types, basics, place, operand) {
        Some(fault) => Err(fault),
        None => Ok(Sort::Results(basics.procedure)),
    }
}

fn appended(types: &Types, sort: &Sort) -> Sort
    requires { KnownSort (length types.now.shapes) sort.now }
    ensures tree { sort_seen types.now result ≡ value_or_unknown (own_type (sort_seen types.now sort.now)) }
    ensures known { KnownSort (length types.now.shapes) result }
{
    match own_type(types, sort) {
        Some(of) => Sort::Value(of),
        None => Sort::Unknown,
    }
}

/// `append` (Go specification, "Appending to and copying slices").
fn append_of(
    types: &Types,
    place: Place,
    first: &TypedNode,
    others: &[&TypedNode],
) -> Result<Sort, TypeFault>
    requires first { Known (length types.now.shapes) first.now }
    requires others { AllShownKnown (length types.now.shapes) others.now }
    ensures exact { let xs = seen types.now first.now ∷ shown types.now others.now in
        Gives (sort_seen types.now) one_fault result (judged (least (append_failing (rights_of types.now) place.first place.last xs)) (appended_sort xs)) }
    ensures known { IfOk result (KnownSort (length types.now.shapes)) }
{
    let to = sort_of(types, first);
    let Some(of) = slice_element(types, to) else {
        return Err(place.fault(FaultCode::Operands));
    };
    match each_unassignable(types, of, others) {
        Some(fault) => Err(fault),
        None => Ok(appended(types, to)),
    }
}

/// `append`, of all its arguments.
fn append(types: &Types, place: Place, nodes: &[&TypedNode]) -> Result<Sort, TypeFault>
    requires { AllShownKnown (length types.now.shapes) nodes.now }
    ensures exact { let rights = rights_of types.now in let xs = shown types.now nodes.now in
        Gives (sort_seen types.now) one_fault result (judged (least (append_failing rights place.first place.last xs)) (appended_sort xs)) }
    ensures known { IfOk result (KnownSort (length types.now.shapes)) }
{
    match divided(types, nodes) {
        Some((first, others)) => append_of(types, place, first, others),
        None => Err(place.fault(FaultCode::Count)),
    }
}

/// A call of a predeclared function (Go specification, "Built-in functions").
///
/// # Errors
///
/// The fault, or want of memory.
pub(crate) fn builtin(
    alloc: Global,
    types: &Types,
    basics: Basics,
    place: Place,
    function: Predeclared,
    nodes: &[&TypedNode],
) -> Result<Sort, TypeError>
    requires basics { AreBasics types.now basics }
    requires nodes { AllShownKnown (length types.now.shapes) nodes.now }
    ensures exact { let rights = rights_of types.now in let xs = shown types.now nodes.now in
        Gives (sort_seen types.now) refusal_of result (judged (least (builtin_failing rights place.first place.last function xs)) (builtin_sort rights function xs)) }
    ensures known { IfOk result (KnownSort (length types.now.shapes)) }
{
    match function {
        Predeclared::Len => length_of(alloc, types, basics, place, true, nodes),
        Predeclared::Cap => length_of(alloc, types, basics, place, false, nodes),
        Predeclared::Make => Ok(make(types, basics, place, nodes)?),
        Predeclared::Append => Ok(append(types, place, nodes)?),
        Predeclared::Copy => Ok(copy(types, basics, place, nodes)?),
        Predeclared::Panic => Ok(panic(types, basics, place, nodes)?),
        Predeclared::Min => extreme(alloc, types, basics, place, Op::Min, nodes),
        Predeclared::Max => extreme(alloc, types, basics, place, Op::Max, nodes),
        _ => Err(TypeError::Fault(place.fault(FaultCode::Operands))),
    }
}
