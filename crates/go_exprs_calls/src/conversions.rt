//! What conversions stand for.
ghost use Rattle.std.specs.Prelude.{◌≡◌, ◌<◌, IfOk, length};
ghost use Rattle.std.specs.Char.{encode_utf8};
ghost use Rattle.std.specs.Option.{option_map};
ghost use Rattle.go_base.specs.Gives.{Gives};
ghost use Rattle.go_types.specs.Tables.{type_of, rights_of};
ghost use Rattle.go_typed.specs.Trees as trees;
ghost use Rattle.go_typed.specs.Views.{seen, sort_seen, Known, KnownSort};
ghost use Rattle.go_exprs_rules.specs.Faults.{least, judged, refusal_of};
ghost use Rattle.go_exprs_rules.specs.Seen.{AreBasics};
ghost use Rattle.go_exprs_rules.specs.Calls.{text_of_number, text_of, constant_or_value, conversion_failing, conversion_sort, one_conversion, converted_sort};
ghost use Rattle.go_exprs_calls.specs.Shown.{shown, AllShownKnown};

use crate::arguments::one;
use go_base::{FaultCode, Memory};
use go_constants::{Const, SharedBytes};
use go_exprs_rules::conversion::{becomes_text, conversion, keeps_value};
use go_exprs_rules::nodes::sort_of;
use go_exprs_rules::sorts::constant_of;
use go_exprs_rules::{Basics, Place, TypeError};
use go_typed::{ConstantType, SharedConst, Sort, TypedNode};
use go_types::{TypeId, Types};
use std::alloc::Global;

/// The character of a number; `U+FFFD` of a number that is none.
fn character(value: i128) -> char
    ensures { encode_utf8 result ≡ text_of_number value }
{
    match u32::try_from(value) {
        Ok(value) => char::from_u32(value).unwrap_or('\u{FFFD}'),
        Err(_) => '\u{FFFD}',
    }
}

/// The text of an integer constant.
fn text_of(alloc: Global, constant: Option<&Const>) -> Result<SharedBytes, Memory>
    ensures { IfOk result (λ b. b ≡ text_of (option_map (λ c. c.now) constant.entry)) }
{
    match constant {
        Some(Const::Int { value, .. }) => {
            let mut buffer = [0; 4];
            let text = character(*value).encode_utf8(&mut buffer);
            SharedBytes::from_slice(alloc, text.as_bytes())
        }
        _ => SharedBytes::from_slice(alloc, &[]),
    }
}

/// A constant of a type, or else a value.
fn constant_or_value(
    alloc: Global,
    types: &Types,
    to: TypeId,
    constant: Option<&Const>,
) -> Result<Sort, Memory>
    requires { to < length types.now.shapes }
    ensures tree { IfOk result (λ s. sort_seen types.now s ≡ constant_or_value (type_of types.now.shapes to) (option_map (λ c. c.now) constant.entry)) }
    ensures known { IfOk result (KnownSort (length types.now.shapes)) }
{
    match constant {
        Some(constant) => {
            let constant = SharedConst::of(alloc, constant.shared()?)?;
            Ok(Sort::Constant(ConstantType::of(to)?, constant))
        }
        None => Ok(Sort::Value(to)),
    }
}

/// What a conversion stands for: a constant of the type's family keeps its value, an integer constant becomes the text of its
/// character (Go specification, "Conversions").
fn converted(alloc: Global, types: &Types, to: TypeId, operand: &Sort) -> Result<Sort, Memory>
    requires to { to < length types.now.shapes }
    requires operand { KnownSort (length types.now.shapes) operand.now }
    ensures tree { IfOk result (λ s. sort_seen types.now s ≡ conversion_sort (rights_of types.now) (type_of types.now.shapes to) (sort_seen types.now operand.now)) }
    ensures known { IfOk result (KnownSort (length types.now.shapes)) }
{
    let constant = constant_of(types, operand);
    if keeps_value(types, to, constant) {
        return constant_or_value(alloc, types, to, constant);
    }
    if becomes_text(types, to, constant) {
        let text = Const::Text(text_of(alloc, constant)?);
        return Ok(Sort::Constant(ConstantType::of(to)?, SharedConst::of(alloc, text)?));
    }
    Ok(Sort::Value(to))
}

/// A conversion of one operand.
fn converted_operand(
    alloc: Global,
    types: &Types,
    basics: Basics,
    place: Place,
    to: TypeId,
    operand: &TypedNode,
) -> Result<Sort, TypeError>
    requires basics { AreBasics types.now basics }
    requires to { to < length types.now.shapes }
    requires operand { Known (length types.now.shapes) operand.now }
    ensures exact { let rights = rights_of types.now in let t = type_of types.now.shapes to in let x = seen types.now operand.now in
        Gives (sort_seen types.now) refusal_of result (judged (least (conversion_failing rights place.first place.last t x)) (conversion_sort rights t (trees.sort_of x))) }
    ensures known { IfOk result (KnownSort (length types.now.shapes)) }
{
    match conversion(types, basics, place, to, operand) {
        Some(fault) => Err(TypeError::Fault(fault)),
        None => Ok(converted(alloc, types, to, sort_of(types, operand))?),
    }
}

/// A call whose callee is a type: a conversion, or `Count` here where there isn't one argument.
pub(crate) fn conversion_call(
    alloc: Global,
    types: &Types,
    basics: Basics,
    place: Place,
    to: TypeId,
    nodes: &[&TypedNode],
) -> Result<Sort, TypeError>
    requires basics { AreBasics types.now basics }
    requires to { to < length types.now.shapes }
    requires nodes { AllShownKnown (length types.now.shapes) nodes.now }
    ensures exact { let rights = rights_of types.now in let t = type_of types.now.shapes to in let xs = shown types.now nodes.now in
        Gives (sort_seen types.now) refusal_of result (judged (least (one_conversion rights place.first place.last t xs)) (converted_sort rights t xs)) }
    ensures known { IfOk result (KnownSort (length types.now.shapes)) }
{
    match one(types, nodes) {
        Some(operand) => converted_operand(alloc, types, basics, place, to, operand),
        None => Err(TypeError::Fault(place.fault(FaultCode::Count))),
    }
}
