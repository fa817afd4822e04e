//! `len` and `cap`.
ghost use Rattle.std.specs.Prelude.{◌≡◌, ◌∷◌, [], IfOk, length};
ghost use Rattle.go_base.specs.Gives.{Gives};
ghost use Rattle.go_types.specs.Tables.{rights_of};
ghost use Rattle.go_typed.specs.Trees.{sort_of, label_of};
ghost use Rattle.go_typed.specs.Views.{seen, sort_seen, Known, KnownSort};
ghost use Rattle.go_exprs_rules.specs.Faults.{least, judged, refusal_of};
ghost use Rattle.go_exprs_rules.specs.Seen.{AreBasics};
ghost use Rattle.go_exprs_rules.specs.Sorts.{is_text};
ghost use Rattle.go_exprs_rules.specs.Calls.{has_elements, constant_length, length_value, length_failing, length_sort};
ghost use Rattle.go_exprs_calls.specs.Shown.{shown, AllShownKnown};

use crate::arguments::one;
use go_base::{FaultCode, Memory};
use go_constants::Const;
use go_exprs_rules::index::{array_length, element, text_length};
use go_exprs_rules::nodes::sort_of;
use go_exprs_rules::sorts::{constant_of, family, is_family};
use go_exprs_rules::{Basics, Family, Place, TypeError};
use go_typed::{ConstantType, SharedConst, Sort, TypedNode};
use go_types::Types;
use std::alloc::Global;

/// Whether it is a string.
pub(crate) fn is_text(types: &Types, sort: &Sort) -> bool
    requires { KnownSort (length types.now.shapes) sort.now }
    ensures { result ≡ is_text (rights_of types.now) (sort_seen types.now sort.now) }
{
    is_family(Family::Texts, family(types, sort))
}

/// Whether it is an array or a slice.
fn has_elements(types: &Types, sort: &Sort) -> bool
    requires { KnownSort (length types.now.shapes) sort.now }
    ensures { result ≡ has_elements (rights_of types.now) (sort_seen types.now sort.now) }
{
    element(types, sort).is_some()
}

/// Whether a node has a call that is no constant.
fn has_calls(types: &Types, node: &TypedNode) -> bool
    ensures { result ≡ (label_of (seen types.now node.now)).calls }
{
    node.calls
}

/// The length that is constant: of a constant string, and of an array without a call that isn't constant.
fn constant_length(types: &Types, node: &TypedNode) -> Option<u64>
    requires { Known (length types.now.shapes) node.now }
    ensures { result ≡ constant_length (rights_of types.now) (seen types.now node.now) }
{
    let sort = sort_of(types, node);
    if let Some(length) = text_length(constant_of(types, sort)) {
        return Some(length);
    }
    if has_calls(types, node) {
        None
    } else {
        array_length(types, sort)
    }
}

/// What `len` or `cap` stands for by the length that is constant, where there is one.
fn length_value(
    alloc: Global,
    types: &Types,
    basics: Basics,
    known: Option<u64>,
) -> Result<Sort, Memory>
    requires { AreBasics types.now basics }
    ensures tree { IfOk result (λ s. sort_seen types.now s ≡ length_value known) }
    ensures known { IfOk result (KnownSort (length types.now.shapes)) }
{
    match known {
        Some(known) => {
            let value = i128::from(known);
            let constant = SharedConst::of(alloc, Const::Int { value, rune: false })?;
            Ok(Sort::Constant(ConstantType::of(basics.int)?, constant))
        }
        None => Ok(Sort::Value(basics.int)),
    }
}

/// `len` or `cap` of one argument.
fn length_of_operand(
    alloc: Global,
    types: &Types,
    basics: Basics,
    place: Place,
    texts: bool,
    operand: &TypedNode,
) -> Result<Sort, TypeError>
    requires basics { AreBasics types.now basics }
    requires operand { Known (length types.now.shapes) operand.now }
    ensures exact { let rights = rights_of types.now in let xs = seen types.now operand.now ∷ [] in
        Gives (sort_seen types.now) refusal_of result (judged (least (length_failing rights place.first place.last texts xs)) (length_sort rights xs)) }
    ensures known { IfOk result (KnownSort (length types.now.shapes)) }
{
    let sort = sort_of(types, operand);
    if (texts && is_text(types, sort)) || has_elements(types, sort) {
        Ok(length_value(alloc, types, basics, constant_length(types, operand))?)
    } else {
        Err(TypeError::Fault(place.fault(FaultCode::Operands)))
    }
}

/// `len`, or `cap`, which strings don't have (Go specification, "Length and capacity").
pub(crate) fn length_of(
    alloc: Global,
    types: &Types,
    basics: Basics,
    place: Place,
    texts: bool,
    nodes: &[&TypedNode],
) -> Result<Sort, TypeError>
    requires basics { AreBasics types.now basics }
    requires nodes { AllShownKnown (length types.now.shapes) nodes.now }
    ensures exact { let rights = rights_of types.now in let xs = shown types.now nodes.now in
        Gives (sort_seen types.now) refusal_of result (judged (least (length_failing rights place.first place.last texts xs)) (length_sort rights xs)) }
    ensures known { IfOk result (KnownSort (length types.now.shapes)) }
{
    match one(types, nodes) {
        Some(operand) => length_of_operand(alloc, types, basics, place, texts, operand),
        None => Err(TypeError::Fault(place.fault(FaultCode::Count))),
    }
}
