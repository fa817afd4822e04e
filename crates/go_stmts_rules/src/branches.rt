//! Conditions, tags, cases and the ends of functions (Go specification: If statements, For statements, Expression switches,
//! Terminating statements).
ghost use Rattle.std.specs.Prelude.{◌≡◌, [], Some, IfOk, IfSome, length, map};
ghost use Rattle.std.specs.Option.{option_map};
ghost use Rattle.go_types.specs.Tables.{rights_of};
ghost use Rattle.go_typed.specs.Trees.{first_of, last_of};
ghost use Rattle.go_typed.specs.Views.{seen, sort_seen, Known, AllKnown, KnownSort};
ghost use Rattle.go_exprs_rules.specs.Faults.{least};
ghost use Rattle.go_exprs_rules.specs.Seen.{AreBasics};
ghost use Rattle.go_exprs_rules.specs.Tables.{on_one};
ghost use Rattle.go_stmts_defs.specs.Rules.{each, condition_failing, second_condition, tag_failing, second_tag, tag_at, case_failing, function_failing};
ghost use Rattle.go_exprs_calls.specs.Shown.{shown, AllShownKnown};
ghost use Rattle.go_stmts_rules.specs.Seen.{types_seen};

use crate::operations::fault_of;
use go_base::{FaultCode, Memory};
use go_exprs_rules::assign::undefaulted;
use go_exprs_rules::compare::compare;
use go_exprs_rules::fault::earlier;
use go_exprs_rules::nodes::{fault_at, sort_of};
use go_exprs_rules::sorts::{family, is_family, is_nil};
use go_exprs_rules::{Basics, Family, Place, TypeFault};
use go_grammar::kind::Comparison;
use go_stmts_parts::endings::terminates;
use go_typed::{Form, Label, Sort, TypedNode};
use go_types::{TypeId, Types};
use std::alloc::Global;

/// The fault of a condition that is no boolean.
fn condition(types: &Types, node: &TypedNode) -> Option<TypeFault>
    requires { Known (length types.now.shapes) node.now }
    ensures { result ≡ least (condition_failing (rights_of types.now) (Some (seen types.now node.now))) }
{
    if is_family(Family::Booleans, family(types, sort_of(types, node))) {
        None
    } else {
        Some(fault_at(types, node, FaultCode::Operands))
    }
}

/// The fault of the condition of an `if` or a loop.
pub fn second_condition(types: &Types, parts: &[Option<TypedNode>]) -> Option<TypeFault>
    requires { AllKnown (length types.now.shapes) parts.now }
    ensures { result ≡ least (second_condition (rights_of types.now) (map (option_map (seen types.now)) parts.now)) }
{
    match parts {
        [_, Some(node), ..] => condition(types, node),
        _ => None,
    }
}

/// The fault of a tag.
fn tag(types: &Types, basics: Basics, node: &TypedNode) -> Option<TypeFault>
    requires basics { AreBasics types.now basics }
    requires node { Known (length types.now.shapes) node.now }
    ensures { result ≡ least (tag_failing (rights_of types.now) (Some (seen types.now node.now))) }
{
    if is_nil(types, sort_of(types, node)) {
        Some(fault_at(types, node, FaultCode::Operands))
    } else {
        undefaulted(types, basics, node)
    }
}

/// The fault of the tag of a switch.
pub fn second_tag(types: &Types, basics: Basics, parts: &[Option<TypedNode>]) -> Option<TypeFault>
    requires basics { AreBasics types.now basics }
    requires parts { AllKnown (length types.now.shapes) parts.now }
    ensures { result ≡ least (second_tag (rights_of types.now) (map (option_map (seen types.now)) parts.now)) }
{
    match parts {
        [_, Some(node), ..] => tag(types, basics, node),
        _ => None,
    }
}

/// The tag, at the case that is compared with it.
fn tag_at(alloc: Global, types: &Types, tag: &Sort, value: &TypedNode) -> Result<TypedNode, Memory>
    requires tag { KnownSort (length types.now.shapes) tag.now }
    ensures node { IfOk result (λ n. seen types.now n ≡ tag_at (sort_seen types.now tag.now) (seen types.now value.now)) }
    ensures known { IfOk result (Known (length types.now.shapes)) }
{
    let _types = types;
    let label = Label {
        sort: tag.shared()?,
        varies: false,
        calls: false,
    };
    let parts = Vec::new(alloc);
    Ok(TypedNode::new(Form::Literal, value.first, value.last, label, parts))
}

/// The place of a node.
fn place_of(types: &Types, node: &TypedNode) -> Place
    ensures first { result.first ≡ first_of (seen types.now node.now) }
    ensures last { result.last ≡ last_of (seen types.now node.now) }
{
    let _types = types;
    Place {
        first: node.first,
        last: node.last,
    }
}

/// The fault of a case that can't be compared with the tag; of a tag of which nothing is known nothing is said.
fn case(
    alloc: Global,
    types: &Types,
    basics: Basics,
    tag: &Sort,
    value: &TypedNode,
) -> Result<Option<TypeFault>, Memory>
    requires basics { AreBasics types.now basics }
    requires tag { KnownSort (length types.now.shapes) tag.now }
    requires value { Known (length types.now.shapes) value.now }
    ensures { IfOk result (λ o. o ≡ least (case_failing (rights_of types.now) (sort_seen types.now tag.now) (seen types.now value.now))) }
{
    if matches!(tag, Sort::Unknown) {
        return Ok(None);
    }
    let left = tag_at(alloc, types, tag, value)?;
    let place = place_of(types, value);
    let made = compare(alloc, types, basics, place, Comparison::Equal, &left, value);
    fault_of(types, made)
}

/// The least fault of the values of a case.
pub fn cases_fault(
    alloc: Global,
    types: &Types,
    basics: Basics,
    tag: &Sort,
    values: &[&TypedNode],
) -> Result<Option<TypeFault>, Memory>
    requires basics { AreBasics types.now basics }
    requires tag { KnownSort (length types.now.shapes) tag.now }
    requires values { AllShownKnown (length types.now.shapes) values.now }
    ensures { IfOk result (λ o. o ≡ least (each (case_failing (rights_of types.now) (sort_seen types.now tag.now)) (shown types.now values.now))) }
{
    let mut first = None;
    for value in values {
        first = earlier(first, case(alloc, types, basics, tag, value)?);
    }
    Ok(first)
}

/// The fault of a function with results whose end can be reached, at its closing brace.
pub fn function_fault(
    types: &Types,
    results: &[TypeId],
    place: Place,
    parts: &[Option<TypedNode>],
) -> Option<TypeFault>
    requires { AllKnown (length types.now.shapes) parts.now }
    ensures { result ≡ least (on_one [] (function_failing (types_seen types.now results.now) place.last) (map (option_map (seen types.now)) parts.now)) }
{
    match parts {
        [Some(body)] => if results.is_empty() || terminates(types, body) {
            None
        } else {
            let brace = Place {
                first: place.last.saturating_sub(1),
                last: place.last,
            };
            Some(brace.fault(FaultCode::MissingReturn))
        },
        _ => None,
    }
}
