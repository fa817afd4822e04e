//! Range clauses (Go specification: For statements with range clause).
ghost use Rattle.std.specs.Prelude.{◌≡◌, ◌++◌, ◌<◌, ◌∷◌, IfOk, IfSome, length, map, nat_lt, take, drop};
ghost use Rattle.std.specs.List.{AllByRecursion};
ghost use Rattle.std.specs.Option.{option_map};
ghost use Rattle.go_types.specs.Tables.{type_of, rights_of};
ghost use Rattle.go_typed.specs.Views.{seen, sort_seen, Known, KnownSort, AllKnown};
ghost use Rattle.go_exprs_rules.specs.Faults.{least};
ghost use Rattle.go_exprs_rules.specs.Seen.{AreBasics};
ghost use Rattle.go_exprs_rules.specs.Tables.{present};
ghost use Rattle.go_exprs_rules.specs.Sorts.{element_of, form_of_value, value_type};
ghost use Rattle.go_exprs_rules.specs.Takes.{take_seen, KnownTake};
ghost use Rattle.go_stmts_defs.specs.Assigning.{takes};
ghost use Rattle.go_stmts_defs.specs.Rules.{element_types, number_types, range_types, element_unassigned, elements_unassigned, number_target, number_unassigned, numbers_unassigned, range_assigned};
ghost use Rattle.go_stmts_defs.specs.Rules.{targets_failing, range_failing, loop_failing, target_type, is_open_number, is_first_number, first_type, operand_takes};
ghost use Rattle.go_exprs_calls.specs.Shown.{shown, AllShownKnown};
ghost use Rattle.go_stmts_rules.specs.Seen.{types_seen, KnownWanted};
ghost use Rattle.go_stmts_rules.specs.Ranges.{pair_seen, KnownPair};

use crate::assign::{result_unassigned, unassigned};
use crate::branches::second_condition;
use crate::nodes::{behind, front, parts_behind};
use crate::targets::targets_fault;
use crate::values::type_or_default;
use crate::wanted::{target_type, value_type};
use go_base::{FaultCode, Memory};
use go_exprs_calls::arguments::present;
use go_exprs_rules::assign::undefaulted;
use go_exprs_rules::fault::earlier;
use go_exprs_rules::index::element;
use go_exprs_rules::nodes::{fault_at, sort_of};
use go_exprs_rules::shift::is_whole;
use go_exprs_rules::sorts::{const_family, family, is_family, own_type};
use go_exprs_rules::{Basics, Family, Place, Take, TypeFault};
use go_typed::{Form, Sort, TypedNode};
use go_types::{TypeId, Types};
use std::alloc::Global;

/// The types of the values of a range clause.
#[derive(Clone, Copy)]
pub struct Pair {
    /// Of the first ones: positions, or the numbers before an integer.
    pub first: TypeId,
    /// Of the second ones: elements or characters.
    pub second: TypeId,
}

/// What a range clause over an integer goes over: numbers; a second name counts as an `int`.
fn number_types(types: &Types, basics: Basics, sort: &Sort) -> Option<Pair>
    requires basics { AreBasics types.now basics }
    requires sort { KnownSort (length types.now.shapes) sort.now }
    ensures tree { option_map (pair_seen types.now) result ≡ number_types (value_type (sort_seen types.now sort.now)) }
    ensures known { IfSome result (KnownPair (length types.now.shapes)) }
{
    let first = value_type(types, basics, sort)?;
    Some(Pair {
        first,
        second: basics.int,
    })
}

/// What a range clause over an array or a slice goes over: positions and elements.
fn element_types(types: &Types, basics: Basics, sort: &Sort) -> Option<Pair>
    requires basics { AreBasics types.now basics }
    requires sort { KnownSort (length types.now.shapes) sort.now }
    ensures tree { option_map (pair_seen types.now) result ≡ element_types (element_of (form_of_value (rights_of types.now) (sort_seen types.now sort.now))) }
    ensures known { IfSome result (KnownPair (length types.now.shapes)) }
{
    let second = element(types, sort)?;
    Some(Pair {
        first: basics.int,
        second,
    })
}

/// What a range clause goes over: positions and elements or characters, or numbers.
pub fn range_types(types: &Types, basics: Basics, operand: &TypedNode) -> Option<Pair>
    requires basics { AreBasics types.now basics }
    requires operand { Known (length types.now.shapes) operand.now }
    ensures tree { option_map (pair_seen types.now) result ≡ range_types (rights_of types.now) (seen types.now operand.now) }
    ensures known { IfSome result (KnownPair (length types.now.shapes)) }
{
    let sort = sort_of(types, operand);
    let of = family(types, sort);
    if is_family(Family::Texts, of) {
        return Some(Pair {
            first: basics.int,
            second: basics.rune,
        });
    }
    if is_family(Family::Integers, of) {
        return number_types(types, basics, sort);
    }
    element_types(types, basics, sort)
}

/// The fault of an element that is given to a target.
fn element_fault(
    types: &Types,
    operand: &TypedNode,
    target: &TypedNode,
    of: TypeId,
) -> Option<TypeFault>
    requires target { Known (length types.now.shapes) target.now }
    requires of { of < length types.now.shapes }
    ensures { result ≡ least (element_unassigned (rights_of types.now) (seen types.now operand.now) (target_type (seen types.now target.now)) (type_of types.now.shapes of)) }
{
    let wanted = own_type(types, sort_of(types, target));
    result_unassigned(types, operand, wanted, of)
}

/// The least fault of the elements that are given to targets.
#[tactic(auto, using(go_exprs_rules::proofs::Firsts::least_append))]
fn elements_fault(
    types: &Types,
    operand: &TypedNode,
    targets: &[&TypedNode],
    pair: Pair,
) -> Option<TypeFault>
    requires targets { AllShownKnown (length types.now.shapes) targets.now }
    requires pair { KnownPair (length types.now.shapes) pair }
    ensures { result ≡ least (elements_unassigned (rights_of types.now) (seen types.now operand.now) (shown types.now targets.now) (pair_seen types.now pair)) }
{
    match targets {
        [] => None,
        [one] => element_fault(types, operand, one, pair.first),
        [one, other, ..] => earlier(
            element_fault(types, operand, one, pair.first),
            element_fault(types, operand, other, pair.second),
        ),
    }
}

/// The type of the target of a range clause over an integer, if there is one that has one.
fn number_target(types: &Types, targets: &[&TypedNode]) -> Option<TypeId>
    requires { AllShownKnown (length types.now.shapes) targets.now }
    ensures tree { option_map (type_of types.now.shapes) result ≡ number_target (shown types.now targets.now) }
    ensures known { KnownWanted (length types.now.shapes) result }
{
    match targets {
        [] => None,
        [target, ..] => target_type(types, target),
    }
}

/// Whether there are several targets.
fn are_several(types: &Types, targets: &[&TypedNode]) -> bool
    ensures { result ≡ nat_lt 1 (length (shown types.now targets.now)) }
{
    let _types = types;
    targets.len() > 1
}

/// Whether it is an untyped integer or rune constant.
fn is_open_number(types: &Types, sort: &Sort) -> bool
    ensures { result ≡ is_open_number (sort_seen types.now sort.now) }
{
    let _types = types;
    match sort {
        Sort::OpenConstant(constant) => is_family(
            Family::Integers,
            Some(const_family(constant.get())),
        ),
        _ => false,
    }
}

/// The fault of an integer that has a type, or takes its default type, and is given to targets.
#[tactic(auto, using(go_exprs_rules::proofs::Firsts::least_append))]
fn number_unassigned(
    types: &Types,
    basics: Basics,
    targets: &[&TypedNode],
    operand: &TypedNode,
    pair: Pair,
) -> Option<TypeFault>
    requires basics { AreBasics types.now basics }
    requires targets { AllShownKnown (length types.now.shapes) targets.now }
    requires operand { Known (length types.now.shapes) operand.now }
    requires pair { KnownPair (length types.now.shapes) pair }
    ensures { result ≡ least (number_unassigned (rights_of types.now) (shown types.now targets.now) (seen types.now operand.now) (pair_seen types.now pair)) }
{
    earlier(
        undefaulted(types, basics, operand),
        elements_fault(types, operand, targets, pair),
    )
}

/// The fault of an integer that is given to the targets of a range clause at this place: `Count` here where there are several. An
/// untyped constant takes the target's type.
fn numbers_unassigned(
    types: &Types,
    basics: Basics,
    place: Place,
    targets: &[&TypedNode],
    operand: &TypedNode,
    pair: Pair,
) -> Option<TypeFault>
    requires basics { AreBasics types.now basics }
    requires targets { AllShownKnown (length types.now.shapes) targets.now }
    requires operand { Known (length types.now.shapes) operand.now }
    requires pair { KnownPair (length types.now.shapes) pair }
    ensures { result ≡ least (numbers_unassigned (rights_of types.now) place.first place.last (shown types.now targets.now) (seen types.now operand.now) (pair_seen types.now pair)) }
{
    if are_several(types, targets) {
        return Some(place.fault(FaultCode::Count));
    }
    if is_open_number(types, sort_of(types, operand)) {
        return unassigned(types, basics, number_target(types, targets), operand);
    }
    number_unassigned(types, basics, targets, operand, pair)
}

/// The fault of a value of a range clause and of the targets that it is given to.
fn range_assigned(
    types: &Types,
    basics: Basics,
    place: Place,
    targets: &[&TypedNode],
    operand: &TypedNode,
) -> Option<TypeFault>
    requires basics { AreBasics types.now basics }
    requires targets { AllShownKnown (length types.now.shapes) targets.now }
    requires operand { Known (length types.now.shapes) operand.now }
    ensures { let x = seen types.now operand.now in let rights = rights_of types.now in
        result ≡ least (range_assigned rights place.first place.last (shown types.now targets.now) x (range_types rights x)) }
{
    match range_types(types, basics, operand) {
        Some(pair) => if is_whole(types, sort_of(types, operand)) {
            numbers_unassigned(types, basics, place, targets, operand, pair)
        } else {
            elements_fault(types, operand, targets, pair)
        },
        None => Some(fault_at(types, operand, FaultCode::Operands)),
    }
}

/// The fault of targets; names that are declared are none.
fn targets(types: &Types, defines: bool, targets: &[&TypedNode]) -> Option<TypeFault>
    requires { AllShownKnown (length types.now.shapes) targets.now }
    ensures { result ≡ least (targets_failing (rights_of types.now) defines (shown types.now targets.now)) }
{
    if defines {
        None
    } else {
        targets_fault(types, targets)
    }
}

/// The fault of a range clause: of the targets, and of what stands behind them.
#[tactic(auto, using(go_exprs_rules::proofs::Firsts::least_append))]
fn range_fault(
    types: &Types,
    basics: Basics,
    place: Place,
    defines: bool,
    left: &[&TypedNode],
    others: &[&TypedNode],
) -> Option<TypeFault>
    requires basics { AreBasics types.now basics }
    requires left { AllShownKnown (length types.now.shapes) left.now }
    requires others { AllShownKnown (length types.now.shapes) others.now }
    ensures { result ≡ least (range_failing (rights_of types.now) place.first place.last defines (shown types.now left.now) (shown types.now others.now)) }
{
    match others {
        [] => None,
        [operand, ..] => earlier(
            targets(types, defines, left),
            range_assigned(types, basics, place, left, operand),
        ),
    }
}

/// The fault of a loop.
pub fn loop_fault(
    alloc: Global,
    types: &Types,
    basics: Basics,
    place: Place,
    form: Form,
    parts: &[Option<TypedNode>],
) -> Result<Option<TypeFault>, Memory>
    requires basics { AreBasics types.now basics }
    requires parts { AllKnown (length types.now.shapes) parts.now }
    ensures { IfOk result (λ o. o ≡ least (loop_failing (rights_of types.now) form place.first place.last (map (option_map (seen types.now)) parts.now))) }
{
    match form {
        Form::Range { defines, targets } => {
            let nodes = present(alloc, types, parts)?;
            let left = front(types, &nodes, targets);
            let others = behind(types, &nodes, targets);
            Ok(range_fault(types, basics, place, defines, left, others))
        }
        _ => Ok(second_condition(types, parts)),
    }
}

/// Whether the first part is an untyped integer or rune constant.
fn is_first_number(types: &Types, parts: &[Option<TypedNode>]) -> bool
    requires { AllKnown (length types.now.shapes) parts.now }
    ensures { result ≡ is_first_number (map (option_map (seen types.now)) parts.now) }
{
    match parts {
        [Some(operand), ..] => is_open_number(types, sort_of(types, operand)),
        _ => false,
    }
}

/// Whether an untyped integer or rune constant stands behind so many targets.
fn is_number_behind(types: &Types, parts: &[Option<TypedNode>], count: u32) -> bool
    requires { AllKnown (length types.now.shapes) parts.now }
    ensures { result ≡ is_first_number (drop count (map (option_map (seen types.now)) parts.now)) }
{
    is_first_number(types, parts_behind(types, parts, count as usize))
}

/// The type of the first part, if it has one.
fn first_type(types: &Types, parts: &[Option<TypedNode>]) -> Option<TypeId>
    requires { AllKnown (length types.now.shapes) parts.now }
    ensures tree { option_map (type_of types.now.shapes) result ≡ first_type (map (option_map (seen types.now)) parts.now) }
    ensures known { KnownWanted (length types.now.shapes) result }
{
    match parts {
        [Some(target), ..] => target_type(types, target),
        _ => None,
    }
}

/// What the value of a range clause takes behind so many targets: an untyped integer or rune constant the type of the target, if it
/// has one.
pub fn operand_take(types: &Types, parts: &[Option<TypedNode>], count: u32) -> Take
    requires { AllKnown (length types.now.shapes) parts.now }
    ensures tree { takes (take_seen types.now result) ≡ operand_takes count (map (option_map (seen types.now)) parts.now) }
    ensures known { KnownTake (length types.now.shapes) result }
{
    if !is_number_behind(types, parts, count) {
        return Take::Default;
    }
    if count > 0 {
        type_or_default(types, first_type(types, parts))
    } else {
        Take::Default
    }
}
