//! `min` and `max` (Go specification, "Min and max").
ghost use Rattle.std.specs.Prelude.{◌≡◌, ◌<◌, IfOk, IfSome, Some, length};
ghost use Rattle.std.specs.Option.{option_map};
ghost use Rattle.go_base.specs.Gives.{Gives};
ghost use Rattle.go_types.specs.Tables.{type_of, rights_of};
ghost use Rattle.go_typed.specs.Views.{sort_seen, KnownSort};
ghost use Rattle.go_exprs_rules.specs.Faults.{least, judged, refusal_of};
ghost use Rattle.go_exprs_rules.specs.Seen.{AreBasics, common_seen, KnownJoint};
ghost use Rattle.go_exprs_rules.specs.Takes.{take_seen, KnownTake};
ghost use Rattle.go_exprs_rules.specs.Calls as calls;
ghost use Rattle.go_exprs_calls.specs.Shown.{shown, AllShownKnown};

use crate::arguments::divided;
use go_base::{FaultCode, Memory};
use go_constants::{Const, ConstFault, ConstOp, fold};
use go_exprs_rules::basics::default_type;
use go_exprs_rules::compare::unordered;
use go_exprs_rules::fault::earlier;
use go_exprs_rules::nodes::{sort_of, unrepresented};
use go_exprs_rules::operators::{Joint, met};
use go_exprs_rules::sorts::{constant_of, is_constant};
use go_exprs_rules::unary::own;
use go_exprs_rules::{Basics, Place, Take, TypeError, TypeFault};
use go_ints::Op;
use go_typed::{ConstantType, SharedConst, Sort, TypedNode};
use go_types::{TypeId, Types};
use std::alloc::Global;

/// Where the arguments meet, of which others that stand in front meet in this.
fn all_met(types: &Types, first: Option<Joint>, nodes: &[&TypedNode]) -> Option<Joint>
    requires first { IfSome first (KnownJoint (length types.now.shapes)) }
    requires nodes { AllShownKnown (length types.now.shapes) nodes.now }
    ensures known { IfSome result (KnownJoint (length types.now.shapes)) }
    ensures tree { option_map (common_seen types.now) result ≡ calls.all_met (rights_of types.now) (option_map (common_seen types.now) first) (shown types.now nodes.now) }
{
    let mut joint = first;
    for node in nodes {
        joint = met(types, joint, own(types, sort_of(types, node)));
    }
    joint
}

/// Where all arguments meet: in one type, which untyped ones take, or untyped.
fn meeting(types: &Types, nodes: &[&TypedNode]) -> Option<Joint>
    requires { AllShownKnown (length types.now.shapes) nodes.now }
    ensures known { IfSome result (KnownJoint (length types.now.shapes)) }
    ensures tree { option_map (common_seen types.now) result ≡ calls.meeting (rights_of types.now) (shown types.now nodes.now) }
{
    match divided(types, nodes) {
        Some((first, others)) => all_met(types, own(types, sort_of(types, first)), others),
        None => None,
    }
}

fn are_constants(types: &Types, nodes: &[&TypedNode]) -> bool
    requires { AllShownKnown (length types.now.shapes) nodes.now }
    ensures { result ≡ calls.are_constants (shown types.now nodes.now) }
{
    for node in nodes {
        if !is_constant(types, sort_of(types, node)) {
            return false;
        }
    }
    true
}

/// The first of the untyped constants in the arguments that the type, which is of their kind, doesn't represent.
fn each_unrepresented(types: &Types, of: TypeId, nodes: &[&TypedNode]) -> Option<TypeFault>
    requires of { of < length types.now.shapes }
    requires nodes { AllShownKnown (length types.now.shapes) nodes.now }
    ensures { result ≡ least (calls.each_unrepresented (rights_of types.now) (type_of types.now.shapes of) (shown types.now nodes.now)) }
{
    let mut first = None;
    for node in nodes {
        first = earlier(first, unrepresented(types, of, node));
    }
    first
}

/// The first constant that the type doesn't represent which the untyped arguments take, if they take one.
fn refused(
    types: &Types,
    basics: Basics,
    constant: bool,
    joint: Joint,
    nodes: &[&TypedNode],
) -> Option<TypeFault>
    requires basics { AreBasics types.now basics }
    requires joint { KnownJoint (length types.now.shapes) joint }
    requires nodes { AllShownKnown (length types.now.shapes) nodes.now }
    ensures { result ≡ least (calls.extreme_refuse (rights_of types.now) constant (common_seen types.now joint) (shown types.now nodes.now)) }
{
    match joint {
        Joint::Type(of) => each_unrepresented(types, of, nodes),
        Joint::Kind(kind) => {
            if constant {
                return None;
            }
            each_unrepresented(types, default_type(types, basics, kind), nodes)
        }
    }
}

/// The fault of arguments that meet in this.
#[tactic(auto, using(go_exprs_rules::proofs::Firsts::least_or_else))]
fn fault_in(
    types: &Types,
    basics: Basics,
    place: Place,
    joint: Joint,
    nodes: &[&TypedNode],
) -> Option<TypeFault>
    requires basics { AreBasics types.now basics }
    requires joint { KnownJoint (length types.now.shapes) joint }
    requires nodes { AllShownKnown (length types.now.shapes) nodes.now }
    ensures { result ≡ least (calls.extreme_failing_in (rights_of types.now) place.first place.last (shown types.now nodes.now) (Some (common_seen types.now joint))) }
{
    if let Some(fault) = unordered(types, place, joint) {
        return Some(fault);
    }
    refused(types, basics, are_constants(types, nodes), joint, nodes)
}

/// The least or greatest of two constants, where both are there and ordered.
fn better(
    alloc: Global,
    op: Op,
    one: Option<Const>,
    other: Option<&Const>,
) -> Result<Option<Const>, Memory>
    ensures { IfOk result (λ v. v ≡ calls.better op one (option_map (λ c. c.now) other.entry)) }
{
    let (Some(one), Some(other)) = (one, other) else {
        return Ok(None);
    };
    match fold(alloc, ConstOp::Arith(op), &one, other) {
        Ok(value) => Ok(Some(value)),
        Err(ConstFault::Memory) => Err(Memory),
        Err(_) => Ok(None),
    }
}

/// The least or greatest of a constant and of all arguments, where each is a constant.
fn extreme_behind(
    alloc: Global,
    types: &Types,
    op: Op,
    first: Option<Const>,
    nodes: &[&TypedNode],
) -> Result<Option<Const>, Memory>
    requires { AllShownKnown (length types.now.shapes) nodes.now }
    ensures { IfOk result (λ v. v ≡ calls.extreme_behind op first (shown types.now nodes.now)) }
{
    let mut value = first;
    for node in nodes {
        value = better(alloc, op, value, constant_of(types, sort_of(types, node)))?;
    }
    Ok(value)
}

fn shared(constant: Option<&Const>) -> Result<Option<Const>, Memory>
    ensures { IfOk result (λ v. v ≡ option_map (λ c. c.now) constant.entry) }
{
    match constant {
        Some(constant) => Ok(Some(constant.shared()?)),
        None => Ok(None),
    }
}

/// The least or greatest of all arguments, where each is a constant.
fn extreme_value(
    alloc: Global,
    types: &Types,
    op: Op,
    nodes: &[&TypedNode],
) -> Result<Option<Const>, Memory>
    requires { AllShownKnown (length types.now.shapes) nodes.now }
    ensures { IfOk result (λ v. v ≡ calls.extreme_value op (shown types.now nodes.now)) }
{
    match divided(types, nodes) {
        Some((first, others)) => {
            let value = shared(constant_of(types, sort_of(types, first)))?;
            extreme_behind(alloc, types, op, value, others)
        }
        None => Ok(None),
    }
}

/// A constant with this value, or a value of the type that is none.
fn extreme_in(
    alloc: Global,
    types: &Types,
    basics: Basics,
    joint: Joint,
    value: Option<Const>,
) -> Result<Sort, Memory>
    requires basics { AreBasics types.now basics }
    requires joint { KnownJoint (length types.now.shapes) joint }
    ensures tree { IfOk result (λ s. sort_seen types.now s ≡ calls.extreme_in (Some (common_seen types.now joint)) value) }
    ensures known { IfOk result (KnownSort (length types.now.shapes)) }
{
    match (joint, value) {
        (Joint::Type(of), Some(value)) => Ok(Sort::Constant(
            ConstantType::of(of)?,
            SharedConst::of(alloc, value)?,
        )),
        (Joint::Type(of), None) => Ok(Sort::Value(of)),
        (Joint::Kind(_), Some(value)) => Ok(Sort::OpenConstant(SharedConst::of(alloc, value)?)),
        (Joint::Kind(kind), None) => Ok(Sort::Value(default_type(types, basics, kind))),
    }
}

/// `min` or `max` of these arguments, of which there is one.
fn extreme_of(
    alloc: Global,
    types: &Types,
    basics: Basics,
    place: Place,
    op: Op,
    nodes: &[&TypedNode],
) -> Result<Sort, TypeError>
    requires basics { AreBasics types.now basics }
    requires nodes { AllShownKnown (length types.now.shapes) nodes.now }
    ensures exact { let rights = rights_of types.now in let xs = shown types.now nodes.now in
        Gives (sort_seen types.now) refusal_of result (judged (least (calls.extreme_failing_in rights place.first place.last xs (calls.meeting rights xs))) (calls.extreme_sort rights op xs)) }
    ensures known { IfOk result (KnownSort (length types.now.shapes)) }
{
    let Some(joint) = meeting(types, nodes) else {
        return Err(TypeError::Fault(place.fault(FaultCode::Operands)));
    };
    if let Some(fault) = fault_in(types, basics, place, joint, nodes) {
        return Err(TypeError::Fault(fault));
    }
    let value = extreme_value(alloc, types, op, nodes)?;
    Ok(extreme_in(alloc, types, basics, joint, value)?)
}

/// `min` or `max`: one argument or more, all ordered, of one type, which untyped ones take; a constant where all are constants.
///
/// # Errors
///
/// `Count` here without an argument; `Operands` here where they are not ordered or not of one type; `Representable` at an untyped
/// constant that their type doesn't represent; want of memory.
pub(crate) fn extreme(
    alloc: Global,
    types: &Types,
    basics: Basics,
    place: Place,
    op: Op,
    nodes: &[&TypedNode],
) -> Result<Sort, TypeError>
    requires basics { AreBasics types.now basics }
    requires nodes { AllShownKnown (length types.now.shapes) nodes.now }
    ensures exact { let rights = rights_of types.now in let xs = shown types.now nodes.now in
        Gives (sort_seen types.now) refusal_of result (judged (least (calls.extreme_failing rights place.first place.last xs)) (calls.extreme_sort rights op xs)) }
    ensures known { IfOk result (KnownSort (length types.now.shapes)) }
{
    match divided(types, nodes) {
        Some(_) => extreme_of(alloc, types, basics, place, op, nodes),
        None => Err(TypeError::Fault(place.fault(FaultCode::Count))),
    }
}

/// What each argument of `min` or `max` takes: the type of the result; where that is untyped, its own default type.
pub(crate) fn extreme_take(types: &Types, basics: Basics, nodes: &[&TypedNode]) -> Take
    requires basics { AreBasics types.now basics }
    requires nodes { AllShownKnown (length types.now.shapes) nodes.now }
    ensures tree { take_seen types.now result ≡ calls.extreme_take (rights_of types.now) (shown types.now nodes.now) }
    ensures known { KnownTake (length types.now.shapes) result }
{
    match meeting(types, nodes) {
        None => Take::Stay,
        Some(Joint::Type(of)) => Take::As(of),
        Some(Joint::Kind(kind)) => {
            if are_constants(types, nodes) {
                return Take::Default;
            }
            Take::As(default_type(types, basics, kind))
        }
    }
}
