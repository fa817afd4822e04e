//! One declared name: its type and its value in a scope, what it stands for, and the rules that fail at it.
ghost use Rattle.std.specs.Prelude.{◌≡◌, ℕ, ◌<◌, List, IfOk, IfSome, length, slice_get};
ghost use Rattle.std.specs.Option.{option_map};
ghost use Rattle.go_tree.specs.Views.{view, views};
ghost use Rattle.go_types.specs.Tables.{Table, type_of, rights_of};
ghost use Rattle.go_types_relations.specs.Extends.{Grows};
ghost use Rattle.go_typed.specs.Views.{seen, sort_seen, Known};
ghost use Rattle.go_exprs_rules.specs.declared.fault.TypeFault as faults;
ghost use Rattle.go_exprs_rules.specs.Faults.{least, earlier};
ghost use Rattle.go_exprs_rules.specs.Hints.{hint_seen, KnownHint};
ghost use Rattle.go_exprs_rules.specs.Seen.{AreBasics};
ghost use Rattle.go_exprs_rules.specs.Sorts.{is_unknown};
ghost use Rattle.go_exprs_rules.specs.Tables.{is_lost};
ghost use Rattle.go_exprs_rules.specs.TypeNodes.{part_type};
ghost use Rattle.go_exprs_types.specs.Naming.{names, text_in, KnownScope};
ghost use Rattle.go_package_defs.specs.Declarations as declarations;
ghost use Rattle.go_package_defs.specs.Declarations.{trees_of, is_alone};
ghost use Rattle.go_package_defs.specs.Verdicts.{part_in, faults_in, type_hint, value_hint, own_value, assigned_as, are_judged, assigned_of, state_with, own_faults, value_state, type_faults, typed_type, right_found};
ghost use Rattle.go_declarations.specs.Assigned.{ShowsAssigned, KnownAssigned};
ghost use Rattle.go_declarations.specs.Judged.{PartRead, fault_in, KnownPart};
ghost use Rattle.go_declarations.specs.States.{ShowsState, KnownVerdict};
ghost use Rattle.go_declarations.specs.Views.{specification_view};

use crate::assigning::{
    Assigned, constant_assigned, function_assigned, unassigned_name, variable_assigned,
};
use crate::specification::Specification;
use go_base::Memory;
use go_exprs_engine::{Survey, survey};
use go_exprs_rules::fault::earlier;
use go_exprs_rules::nodes::sort_of;
use go_exprs_rules::{Basics, Hint, TypeFault};
use go_exprs_types::Scope;
use go_exprs_types::sequence::part_type;
use go_tree::context::Entity;
use go_tree::node::Node;
use go_typed::{Sort, TypedNode};
use go_types::{TypeId, Types};
use std::alloc::Global;

/// A type or a value, typed in the scope as a whole, where there is one.
///
/// # Errors
///
/// Want of memory.
pub fn survey_part(
    alloc: Global,
    types: &mut Types,
    scope: &Scope<'_>,
    hint: Hint,
    node: Option<&Node>,
) -> Result<Option<Survey>, Memory>
    requires scope { KnownScope (length types.old.shapes) scope.now }
    requires basics { AreBasics types.old scope.now.basics }
    requires hint { KnownHint (length types.old.shapes) hint }
    requires literals { PartRead (text_in scope.now) (option_map (λ n. view n.now) node) }
    ensures grows { Grows types.old types.new }
    ensures tree { IfOk result (λ o. option_map (λ w. seen types.new w.node) o ≡ part_in (names types.old scope.now) (hint_seen types.old hint) (option_map (λ n. view n.now) node.entry)) }
    ensures fault { IfOk result (λ o. fault_in o ≡ least (faults_in (names types.old scope.now) (hint_seen types.old hint) (option_map (λ n. view n.now) node.entry))) }
    ensures known { IfOk result (KnownPart (length types.new.shapes)) }
{
    types.count();
    match node {
        Some(node) => Ok(Some(survey(alloc, types, scope, hint, node)?)),
        None => Ok(None),
    }
}

/// What the type of a specification is told; a signature is asked nothing as a whole.
pub fn type_hint(entity: Entity) -> Hint
    ensures known { (n : ℕ) → KnownHint n result }
    ensures hint { (t : Table) → hint_seen t result ≡ type_hint entity }
{
    match entity {
        Entity::Function => Hint::Free,
        _ => Hint::TypePlace,
    }
}

/// How many of the parts there are.
fn count(parts: &[Option<Node>]) -> usize
    ensures { result ≡ length (trees_of (views parts.now)) }
{
    let mut number = 0;
    for part in parts {
        if part.is_some() {
            number += 1;
        }
    }
    number
}

/// The part of this number among those that there are.
fn present_at<'a>(parts: &'a [Option<Node>], number: usize) -> Option<&'a Node>
    ensures { option_map (λ n. view n.now) result ≡ slice_get (trees_of (views parts.now)) number }
{
    let mut left = number;
    for part in parts {
        let Some(node) = part else { continue };
        if left == 0 {
            return Some(node);
        }
        left -= 1;
    }
    None
}

/// Whether the one value of a specification of variables may be a call of several results, which is the value of all its names.
pub fn is_alone(specification: &Specification<'_>) -> bool
    ensures { result ≡ is_alone (specification_view specification.now) }
{
    matches!(specification.entity, Entity::Variable | Entity::Parameter)
        && count(specification.values) == 1
}

/// What the values of a specification are told.
pub fn value_hint(specification: &Specification<'_>) -> Hint
    ensures known { (n : ℕ) → KnownHint n result }
    ensures hint { (t : Table) → hint_seen t result ≡ value_hint (specification_view specification.now) }
{
    if is_alone(specification) {
        Hint::Several
    } else {
        Hint::Value
    }
}

/// The value of the name of this number in a specification, if it has one.
pub fn own_value<'a>(specification: &Specification<'a>, column: usize) -> Option<&'a Node>
    ensures { option_map (λ n. view n.now) result ≡ own_value (specification_view specification.now) column }
{
    let number = if is_alone(specification) { 0 } else { column };
    present_at(specification.values, number)
}

/// What is found of one declared name: what it stands for, and the least of the rules that fail in its type and its value, and at
/// its own assignment.
#[derive(Debug, Drop)]
pub struct Verdict {
    pub stands: Sort,
    pub fault: Option<TypeFault>,
    pub assigning: Option<TypeFault>,
}

/// What a name stands for by its type and its value, by what its specification declares.
fn assigned_as(
    types: &Types,
    basics: Basics,
    entity: Entity,
    alone: bool,
    column: usize,
    of: Option<&TypedNode>,
    value: Option<&TypedNode>,
) -> Result<Assigned, Memory>
    requires basics { AreBasics types.now basics }
    requires of { IfSome of (λ x. Known (length types.now.shapes) x.now) }
    requires value { IfSome value (λ x. Known (length types.now.shapes) x.now) }
    ensures shows { (d : declarations.Specification) → is_alone d ≡ alone → let t = part_type (option_map (λ x. seen types.now x.now) of.entry) in
        IfOk result (λ a. ShowsAssigned types.now a (assigned_as entity (rights_of types.now) d column t (option_map (λ x. seen types.now x.now) value.entry))) }
    ensures known { IfOk result (KnownAssigned (length types.now.shapes)) }
{
    let of = part_type(types, of);
    match entity {
        Entity::Constant => constant_assigned(types, of, value),
        Entity::Function => Ok(function_assigned(types, of)),
        Entity::Type => Ok(unassigned_name(types)),
        _ => Ok(variable_assigned(types, basics, of, value, alone, column)),
    }
}

/// Whether a part is one with a fault, or a name without a type.
fn is_lost(types: &Types, part: Option<&TypedNode>) -> bool
    requires { IfSome part (λ x. Known (length types.now.shapes) x.now) }
    ensures { result ≡ is_lost (option_map (λ x. seen types.now x.now) part.entry) }
{
    match part {
        Some(part) => is_unknown(types, sort_of(types, part)),
        None => false,
    }
}

fn is_unknown(_types: &Types, sort: &Sort) -> bool
    ensures { result ≡ is_unknown (sort_seen _types.now sort.now) }
{
    matches!(sort, Sort::Unknown)
}

/// Whether the assignment of a name is judged: no rule fails in its type and its value, and both are known.
fn are_judged(
    types: &Types,
    fault: Option<TypeFault>,
    of: Option<&TypedNode>,
    value: Option<&TypedNode>,
) -> bool
    requires of { IfSome of (λ x. Known (length types.now.shapes) x.now) }
    requires value { IfSome value (λ x. Known (length types.now.shapes) x.now) }
    ensures { (fs : List faults.TypeFault) → fault ≡ least fs → result ≡ are_judged fs (option_map (λ x. seen types.now x.now) of.entry) (option_map (λ x. seen types.now x.now) value.entry) }
{
    fault.is_none() && !is_lost(types, of) && !is_lost(types, value)
}

/// What a name stands for by its type and its value, in which this is the least fault.
fn assigned_of(
    types: &Types,
    basics: Basics,
    specification: &Specification<'_>,
    column: usize,
    fault: Option<TypeFault>,
    of: Option<&TypedNode>,
    value: Option<&TypedNode>,
) -> Result<Assigned, Memory>
    requires basics { AreBasics types.now basics }
    requires of { IfSome of (λ x. Known (length types.now.shapes) x.now) }
    requires value { IfSome value (λ x. Known (length types.now.shapes) x.now) }
    ensures shows { (fs : List faults.TypeFault) → fault ≡ least fs → let t = option_map (λ x. seen types.now x.now) of.entry in let x = option_map (λ x. seen types.now x.now) value.entry in
        IfOk result (λ a. ShowsAssigned types.now a (assigned_of (rights_of types.now) (specification_view specification.now) column fs t x)) }
    ensures known { IfOk result (KnownAssigned (length types.now.shapes)) }
{
    if !are_judged(types, fault, of, value) {
        return Ok(unassigned_name(types));
    }
    assigned_as(
        types,
        basics,
        specification.entity,
        is_alone(specification),
        column,
        of,
        value,
    )
}

/// The node of a part that was typed.
fn node_of<'a>(types: &Types, part: &'a Option<Survey>) -> Option<&'a TypedNode>
    requires { KnownPart (length types.now.shapes) part.now }
    ensures tree { option_map (λ x. seen types.now x.now) result ≡ option_map (λ w. seen types.now w.node) part.now }
    ensures known { IfSome result (λ x. Known (length types.now.shapes) x.now) }
{
    let _types = types;
    match part {
        Some(survey) => Some(&survey.node),
        None => None,
    }
}

fn fault_in(part: &Option<Survey>) -> Option<TypeFault>
    ensures { result ≡ fault_in part.now }
{
    match part {
        Some(survey) => survey.fault,
        None => None,
    }
}

/// The verdict on a name of this type and this value.
fn judged(
    types: &Types,
    basics: Basics,
    specification: &Specification<'_>,
    column: usize,
    of: &Option<Survey>,
    value: &Option<Survey>,
) -> Result<Verdict, Memory>
    requires basics { AreBasics types.now basics }
    requires of { KnownPart (length types.now.shapes) of.now }
    requires value { KnownPart (length types.now.shapes) value.now }
    ensures shows { (fs : List faults.TypeFault) → earlier (fault_in of.now) (fault_in value.now) ≡ least fs → let t = option_map (λ w. seen types.now w.node) of.now in let x = option_map (λ w. seen types.now w.node) value.now in
        IfOk result (λ v. ShowsState types.now v (state_with fs (assigned_of (rights_of types.now) (specification_view specification.now) column fs t x))) }
    ensures known { IfOk result (KnownVerdict (length types.now.shapes)) }
{
    let fault = earlier(fault_in(of), fault_in(value));
    let assigned = assigned_of(
        types,
        basics,
        specification,
        column,
        fault,
        node_of(types, of),
        node_of(types, value),
    )?;
    Ok(Verdict {
        stands: assigned.stands,
        fault,
        assigning: assigned.failing,
    })
}

/// The verdict on the name of this number in a specification of constants or variables, or on a function, in a scope: what it stands
/// for, and the least of the rules that fail in its type and its own value, and at its assignment (Go specification, "Constant
/// declarations", "Variable declarations", "Function declarations").
///
/// # Errors
///
/// Want of memory.
pub fn judge_name(
    alloc: Global,
    types: &mut Types,
    scope: &Scope<'_>,
    specification: &Specification<'_>,
    column: usize,
) -> Result<Verdict, Memory>
    requires scope { KnownScope (length types.old.shapes) scope.now }
    requires basics { AreBasics types.old scope.now.basics }
    requires of { PartRead (text_in scope.now) (specification_view specification.now).type_tree }
    requires value { PartRead (text_in scope.now) (own_value (specification_view specification.now) column) }
    ensures grows { Grows types.old types.new }
    ensures shows { let s = names types.old scope.now in let d = specification_view specification.now in
        IfOk result (λ v. ShowsState types.new v (value_state s d column (own_faults s d column))) }
    ensures known { IfOk result (KnownVerdict (length types.new.shapes)) }
{
    types.count();
    let of = survey_part(
        alloc,
        types,
        scope,
        type_hint(specification.entity),
        specification.of,
    )?;
    let value = survey_part(
        alloc,
        types,
        scope,
        value_hint(specification),
        own_value(specification, column),
    )?;
    judged(types, scope.basics, specification, column, &of, &value)
}

/// The right side of a type (Go specification, "Type declarations"): the type, where no rule fails in it.
///
/// # Errors
///
/// Want of memory.
pub fn right_side(
    alloc: Global,
    types: &mut Types,
    scope: &Scope<'_>,
    specification: &Specification<'_>,
) -> Result<Option<TypeId>, Memory>
    requires scope { KnownScope (length types.old.shapes) scope.now }
    requires basics { AreBasics types.old scope.now.basics }
    requires of { PartRead (text_in scope.now) (specification_view specification.now).type_tree }
    ensures grows { Grows types.old types.new }
    ensures right { let s = names types.old scope.now in let d = specification_view specification.now in
        IfOk result (λ t. option_map (type_of types.new.shapes) t ≡ right_found (type_faults s d) (typed_type s d)) }
    ensures known { IfOk result (λ t. IfSome t (λ i. i < length types.new.shapes)) }
{
    let hint = type_hint(specification.entity);
    let of = survey_part(alloc, types, scope, hint, specification.of)?;
    match fault_in(&of) {
        Some(_) => Ok(None),
        None => Ok(part_type(types, node_of(types, &of))),
    }
}

/// The least of the rules that fail in the type of a specification, or in the signature of a function.
///
/// # Errors
///
/// Want of memory.
pub fn type_fault(
    alloc: Global,
    types: &mut Types,
    scope: &Scope<'_>,
    specification: &Specification<'_>,
) -> Result<Option<TypeFault>, Memory>
    requires scope { KnownScope (length types.old.shapes) scope.now }
    requires basics { AreBasics types.old scope.now.basics }
    requires of { PartRead (text_in scope.now) (specification_view specification.now).type_tree }
    ensures grows { Grows types.old types.new }
    ensures fault { IfOk result (λ o. o ≡ least (type_faults (names types.old scope.now) (specification_view specification.now))) }
{
    let hint = type_hint(specification.entity);
    let of = survey_part(alloc, types, scope, hint, specification.of)?;
    Ok(fault_in(&of))
}
