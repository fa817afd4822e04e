//! What a declared name stands for by its type and its value, or which rule fails at its own assignment.
ghost use Rattle.std.specs.Prelude.{◌≡◌, ◌<◌, List, [], IfOk, IfSome, length, map, slice_get};
ghost use Rattle.std.specs.List.{AllByRecursion};
ghost use Rattle.std.specs.Option.{option_map};
ghost use Rattle.go_types.specs.Tables.{type_of, rights_of};
ghost use Rattle.go_typed.specs.Trees.{sort_of, Unknown};
ghost use Rattle.go_typed.specs.Views.{seen, sort_seen, Known, KnownSort};
ghost use Rattle.go_exprs_rules.specs.declared.fault.TypeFault as faults;
ghost use Rattle.go_exprs_rules.specs.Faults.{least};
ghost use Rattle.go_exprs_rules.specs.Seen.{AreBasics};
ghost use Rattle.go_types.specs.Trees.{row};
ghost use Rattle.go_types_relations.specs.Tests.{underlying_of};
ghost use Rattle.go_exprs_rules.specs.Calls.{results_of};
ghost use Rattle.go_exprs_rules.specs.Sorts.{value_type};
ghost use Rattle.go_stmts_defs.specs.Assigning.{called_results, unassigned, result_unassigned, constant_failing, constant_in, variable};
ghost use Rattle.go_package_defs.specs.Verdicts.{assigned, constant_assigned, result_assigned, value_assigned, shared_value, variable_by, variable_assigned, function_assigned};
ghost use Rattle.go_declarations.specs.Assigned.{ShowsAssigned, KnownAssigned};

use go_base::{FaultCode, Memory};
use go_exprs_rules::assign::{unassignable, undefaulted};
use go_exprs_rules::basics::default_type;
use go_exprs_rules::nodes::{fault_at, sort_of};
use go_exprs_rules::sorts::{is_constant, is_nil, open_kind};
use go_exprs_rules::{Basics, TypeFault};
use go_typed::{ConstantType, Sort, TypedNode};
use go_types::{Shape, TypeId, Types};
use go_types_relations::{assignable, underlying};

/// What a name stands for, and the least fault at its assignment, if there is one; then it stands for nothing known.
#[derive(Debug, Drop)]
pub struct Assigned {
    pub stands: Sort,
    pub failing: Option<TypeFault>,
}

/// The same of a sort and the least of the rules that fail.
fn outcome(types: &Types, stands: Sort, failing: Option<TypeFault>) -> Assigned
    requires { KnownSort (length types.now.shapes) stands }
    ensures shows { (fs : List faults.TypeFault) → failing ≡ least fs → ShowsAssigned types.now result (assigned (sort_seen types.now stands) fs) }
    ensures known { KnownAssigned (length types.now.shapes) result }
{
    let _types = types;
    match failing {
        None => Assigned { stands, failing },
        Some(_) => Assigned {
            stands: Sort::Unknown,
            failing,
        },
    }
}

/// What a name stands for at whose assignment no rule fails.
fn plain(types: &Types, stands: Sort) -> Assigned
    requires { KnownSort (length types.now.shapes) stands }
    ensures shows { ShowsAssigned types.now result (assigned (sort_seen types.now stands) []) }
    ensures known { KnownAssigned (length types.now.shapes) result }
{
    let _types = types;
    Assigned {
        stands,
        failing: None,
    }
}

/// A name that stands for nothing known.
pub fn unassigned_name(types: &Types) -> Assigned
    ensures shows { ShowsAssigned types.now result (assigned Unknown []) }
    ensures known { KnownAssigned (length types.now.shapes) result }
{
    let _types = types;
    Assigned {
        stands: Sort::Unknown,
        failing: None,
    }
}

/// The type of a value, or its default type.
fn value_type(types: &Types, basics: Basics, sort: &Sort) -> Option<TypeId>
    requires basics { AreBasics types.now basics }
    requires sort { KnownSort (length types.now.shapes) sort.now }
    ensures known { IfSome result (λ t. t < length types.now.shapes) }
    ensures tree { option_map (type_of types.now.shapes) result ≡ value_type (sort_seen types.now sort.now) }
{
    match sort {
        Sort::Value(of) => Some(*of),
        Sort::Constant(of, _) => Some(of.id()),
        _ => match open_kind(types, sort) {
            Some(kind) => Some(default_type(types, basics, kind)),
            None => None,
        },
    }
}

/// A variable of the type, if it has one.
fn variable(types: &Types, of: Option<TypeId>) -> Sort
    requires { IfSome of (λ t. t < length types.now.shapes) }
    ensures tree { sort_seen types.now result ≡ variable (option_map (type_of types.now.shapes) of) }
    ensures known { KnownSort (length types.now.shapes) result }
{
    let _types = types;
    match of {
        Some(of) => Sort::Value(of),
        None => Sort::Unknown,
    }
}

/// The fault of the value of a constant (Go specification, "Constant declarations"): `Operands` where it isn't constant, else that
/// of its type.
fn constant_failing(types: &Types, of: Option<TypeId>, value: &TypedNode) -> Option<TypeFault>
    requires of { IfSome of (λ t. t < length types.now.shapes) }
    requires value { Known (length types.now.shapes) value.now }
    ensures { result ≡ least (constant_failing (rights_of types.now) (option_map (type_of types.now.shapes) of) (seen types.now value.now)) }
{
    if !is_constant(types, sort_of(types, value)) {
        return Some(fault_at(types, value, FaultCode::Operands));
    }
    match of {
        Some(of) => unassignable(types, of, value),
        None => None,
    }
}

/// What a constant of this value and of the type stands for, where there is one.
fn constant_in(types: &Types, of: Option<TypeId>, value: &Sort) -> Result<Sort, Memory>
    requires of { IfSome of (λ t. t < length types.now.shapes) }
    requires value { KnownSort (length types.now.shapes) value.now }
    ensures tree { IfOk result (λ s. sort_seen types.now s ≡ constant_in (option_map (type_of types.now.shapes) of) (sort_seen types.now value.now)) }
    ensures known { IfOk result (KnownSort (length types.now.shapes)) }
{
    match (of, value) {
        (None, Sort::Constant(_, _)) => value.shared(),
        (None, Sort::OpenConstant(_)) => value.shared(),
        (Some(of), Sort::Constant(_, constant)) => {
            Ok(Sort::Constant(ConstantType::of(of)?, constant.clone()?))
        }
        (Some(of), Sort::OpenConstant(constant)) => {
            Ok(Sort::Constant(ConstantType::of(of)?, constant.clone()?))
        }
        (_, _) => Ok(Sort::Unknown),
    }
}

/// A constant of this type and this value (Go specification, "Constant declarations").
pub fn constant_assigned(
    types: &Types,
    of: Option<TypeId>,
    value: Option<&TypedNode>,
) -> Result<Assigned, Memory>
    requires of { IfSome of (λ t. t < length types.now.shapes) }
    requires value { IfSome value (λ x. Known (length types.now.shapes) x.now) }
    ensures shows { IfOk result (λ a. ShowsAssigned types.now a (constant_assigned (rights_of types.now) (option_map (type_of types.now.shapes) of) (option_map (λ x. seen types.now x.now) value.entry))) }
    ensures known { IfOk result (KnownAssigned (length types.now.shapes)) }
{
    match value {
        None => Ok(unassigned_name(types)),
        Some(value) => {
            let stands = constant_in(types, of, sort_of(types, value))?;
            Ok(outcome(types, stands, constant_failing(types, of, value)))
        }
    }
}

/// The fault of a value that is given to a variable of this type, or of none: `Operands` at `nil` without a type.
fn unassigned(
    types: &Types,
    basics: Basics,
    of: Option<TypeId>,
    value: &TypedNode,
) -> Option<TypeFault>
    requires basics { AreBasics types.now basics }
    requires of { IfSome of (λ t. t < length types.now.shapes) }
    requires value { Known (length types.now.shapes) value.now }
    ensures { result ≡ least (unassigned (rights_of types.now) (option_map (type_of types.now.shapes) of) (seen types.now value.now)) }
{
    match of {
        Some(of) => unassignable(types, of, value),
        None => if is_nil(types, sort_of(types, value)) {
            Some(fault_at(types, value, FaultCode::Operands))
        } else {
            undefaulted(types, basics, value)
        },
    }
}

/// A variable of this type, or of that of its value.
fn value_assigned(types: &Types, basics: Basics, of: Option<TypeId>, value: &TypedNode) -> Assigned
    requires basics { AreBasics types.now basics }
    requires of { IfSome of (λ t. t < length types.now.shapes) }
    requires value { Known (length types.now.shapes) value.now }
    ensures shows { ShowsAssigned types.now result (value_assigned (rights_of types.now) (option_map (type_of types.now.shapes) of) (seen types.now value.now)) }
    ensures known { KnownAssigned (length types.now.shapes) result }
{
    let known = match of {
        Some(of) => Some(of),
        None => value_type(types, basics, sort_of(types, value)),
    };
    outcome(
        types,
        variable(types, known),
        unassigned(types, basics, of, value),
    )
}

/// The types of the results of a function type.
fn result_row<'a>(types: &'a Types, of: TypeId) -> &'a [TypeId]
    requires { of < length types.now.shapes }
    ensures tree { row (map (type_of types.now.shapes) result.now) ≡ results_of (underlying_of (rights_of types.now) (type_of types.now.shapes of)) }
    ensures known { AllByRecursion (λ t. t < length types.now.shapes) result.now }
{
    match underlying(types, of) {
        Some(Shape::Func { results, .. }) => results.as_slice(),
        _ => &[],
    }
}

/// The results of a call, none or several, where the value is one.
#[tactic(auto, using(crate::proofs::Rows::types_in_row))]
fn results<'a>(types: &'a Types, sort: &Sort) -> Option<&'a [TypeId]>
    requires { KnownSort (length types.now.shapes) sort.now }
    ensures tree { option_map (λ rs. map (type_of types.now.shapes) rs.now) result ≡ called_results (rights_of types.now) (sort_seen types.now sort.now) }
    ensures known { IfSome result (λ rs. AllByRecursion (λ t. t < length types.now.shapes) rs.now) }
{
    match sort {
        Sort::Results(of) => Some(result_row(types, *of)),
        _ => None,
    }
}

/// The fault of a result of the call, which is given to a variable of this type, or of none.
fn result_unassigned(
    types: &Types,
    call: &TypedNode,
    of: Option<TypeId>,
    result_type: TypeId,
) -> Option<TypeFault>
    requires of { IfSome of (λ t. t < length types.now.shapes) }
    requires result_type { result_type < length types.now.shapes }
    ensures { result ≡ least (result_unassigned (rights_of types.now) (seen types.now call.now) (option_map (type_of types.now.shapes) of) (type_of types.now.shapes result_type)) }
{
    match of {
        Some(of) => if assignable(types, result_type, of) {
            None
        } else {
            Some(fault_at(types, call, FaultCode::Assignable))
        },
        None => None,
    }
}

/// A variable of this type, or of that of the result of this number of the call.
fn result_assigned(
    types: &Types,
    of: Option<TypeId>,
    call: &TypedNode,
    result_type: Option<TypeId>,
) -> Assigned
    requires of { IfSome of (λ t. t < length types.now.shapes) }
    requires result_type { IfSome result_type (λ t. t < length types.now.shapes) }
    ensures shows { ShowsAssigned types.now result (result_assigned (rights_of types.now) (option_map (type_of types.now.shapes) of) (seen types.now call.now) (option_map (type_of types.now.shapes) result_type)) }
    ensures known { KnownAssigned (length types.now.shapes) result }
{
    match result_type {
        None => plain(types, variable(types, of)),
        Some(result_type) => outcome(
            types,
            variable(types, Some(of.unwrap_or(result_type))),
            result_unassigned(types, call, of, result_type),
        ),
    }
}

/// The type of this number.
fn type_at(types: &Types, row: &[TypeId], number: usize) -> Option<TypeId>
    requires { AllByRecursion (λ t. t < length types.now.shapes) row.now }
    ensures known { IfSome result (λ t. t < length types.now.shapes) }
    ensures tree { option_map (type_of types.now.shapes) result ≡ slice_get (map (type_of types.now.shapes) row.now) number }
{
    let _types = types;
    row.get(number).copied()
}

/// A variable of this type and this value, which is its own, or stands for all names of its specification (`alone`) and is no call of
/// several results: then the first name alone has it.
fn shared_value(
    types: &Types,
    basics: Basics,
    of: Option<TypeId>,
    value: &TypedNode,
    alone: bool,
    column: usize,
) -> Assigned
    requires basics { AreBasics types.now basics }
    requires of { IfSome of (λ t. t < length types.now.shapes) }
    requires value { Known (length types.now.shapes) value.now }
    ensures shows { ShowsAssigned types.now result (shared_value (rights_of types.now) (option_map (type_of types.now.shapes) of) (seen types.now value.now) alone column) }
    ensures known { KnownAssigned (length types.now.shapes) result }
{
    match (alone, column) {
        (true, 0) => value_assigned(types, basics, of, value),
        (true, _) => plain(types, variable(types, of)),
        (false, _) => value_assigned(types, basics, of, value),
    }
}

/// A variable of this type and this value, which is its own, or that of all names of its specification (`alone`).
fn variable_by(
    types: &Types,
    basics: Basics,
    of: Option<TypeId>,
    value: &TypedNode,
    alone: bool,
    column: usize,
) -> Assigned
    requires basics { AreBasics types.now basics }
    requires of { IfSome of (λ t. t < length types.now.shapes) }
    requires value { Known (length types.now.shapes) value.now }
    ensures shows { let rights = rights_of types.now in let x = seen types.now value.now in
        ShowsAssigned types.now result (variable_by rights (option_map (type_of types.now.shapes) of) x alone column (called_results rights (sort_of x))) }
    ensures known { KnownAssigned (length types.now.shapes) result }
{
    match results(types, sort_of(types, value)) {
        Some(row) => result_assigned(types, of, value, type_at(types, row, column)),
        None => shared_value(types, basics, of, value, alone, column),
    }
}

/// A variable of this type and this value, where it has one (Go specification, "Variable declarations").
pub fn variable_assigned(
    types: &Types,
    basics: Basics,
    of: Option<TypeId>,
    value: Option<&TypedNode>,
    alone: bool,
    column: usize,
) -> Assigned
    requires basics { AreBasics types.now basics }
    requires of { IfSome of (λ t. t < length types.now.shapes) }
    requires value { IfSome value (λ x. Known (length types.now.shapes) x.now) }
    ensures shows { ShowsAssigned types.now result (variable_assigned (rights_of types.now) (option_map (type_of types.now.shapes) of) (option_map (λ x. seen types.now x.now) value.entry) alone column) }
    ensures known { KnownAssigned (length types.now.shapes) result }
{
    match value {
        None => plain(types, variable(types, of)),
        Some(value) => variable_by(types, basics, of, value, alone, column),
    }
}

/// A function of this type (Go specification, "Function declarations").
pub fn function_assigned(types: &Types, of: Option<TypeId>) -> Assigned
    requires { IfSome of (λ t. t < length types.now.shapes) }
    ensures shows { ShowsAssigned types.now result (function_assigned (option_map (type_of types.now.shapes) of)) }
    ensures known { KnownAssigned (length types.now.shapes) result }
{
    match of {
        Some(of) => plain(types, Sort::Value(of)),
        None => unassigned_name(types),
    }
}
