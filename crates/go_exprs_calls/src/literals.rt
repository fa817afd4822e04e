//! Composite literals.
ghost use Rattle.std.specs.Prelude.{◌≡◌, ◌<◌, [], IfOk, IfSome, length, map};
ghost use Rattle.std.specs.Option.{option_map};
ghost use Rattle.go_base.specs.Gives.{Gives};
ghost use Rattle.go_types.specs.Tables.{type_of, rights_of};
ghost use Rattle.go_types_relations.specs.Tests.{underlying_of};
ghost use Rattle.go_typed.specs.Trees as trees;
ghost use Rattle.go_typed.specs.Views.{seen, sort_seen, Known, KnownSort, AllKnown};
ghost use Rattle.go_exprs_rules.specs.Faults.{least, judged, refusal_of};
ghost use Rattle.go_exprs_rules.specs.Seen.{one_fault};
ghost use Rattle.go_exprs_rules.specs.Hints.{hint_seen, KnownHint};
ghost use Rattle.go_exprs_rules.specs.Sorts.{named_type};
ghost use Rattle.go_exprs_rules.specs.Literals.{literal_failing_in, literal_failing, literal_sort};
ghost use Rattle.go_exprs_rules.specs.Tables.{told_type, literal_type, on_literal};
ghost use Rattle.go_exprs_calls.specs.Shown.{shown, AllShownKnown};

use crate::arguments::{divided_parts, present};
use crate::elements::{elements_fault, fields_fault};
use go_base::FaultCode;
use go_exprs_rules::nodes::sort_of;
use go_exprs_rules::{Hint, Place, TypeError, TypeFault};
use go_typed::{Sort, TypedNode};
use go_types::{Shape, TypeId, Types};
use go_types_relations::underlying;
use std::alloc::Global;

fn told_type(types: &Types, hint: Hint) -> Option<TypeId>
    requires { KnownHint (length types.now.shapes) hint }
    ensures known { IfSome result (λ t. t < length types.now.shapes) }
    ensures tree { option_map (type_of types.now.shapes) result ≡ told_type (hint_seen types.now hint) }
{
    match hint {
        Hint::Element(of) => Some(of),
        _ => None,
    }
}

fn named_type(types: &Types, node: &TypedNode) -> Option<TypeId>
    requires { Known (length types.now.shapes) node.now }
    ensures known { IfSome result (λ t. t < length types.now.shapes) }
    ensures tree { option_map (type_of types.now.shapes) result ≡ named_type (trees.sort_of (seen types.now node.now)) }
{
    match sort_of(types, node) {
        Sort::Type(of) => Some(*of),
        _ => None,
    }
}

/// The type of a literal, which is written, or else told.
pub(crate) fn literal_type(types: &Types, hint: Hint, written: Option<&TypedNode>) -> Option<TypeId>
    requires hint { KnownHint (length types.now.shapes) hint }
    requires written { IfSome written (λ n. Known (length types.now.shapes) n.now) }
    ensures known { IfSome result (λ t. t < length types.now.shapes) }
    ensures tree { option_map (type_of types.now.shapes) result ≡ literal_type (hint_seen types.now hint) (option_map (λ n. seen types.now n.now) written.entry) }
{
    match written {
        Some(written) => named_type(types, written),
        None => told_type(types, hint),
    }
}

/// The fault of a literal of a type, by its underlying type.
fn literal_fault(types: &Types, place: Place, of: TypeId, nodes: &[&TypedNode]) -> Option<TypeFault>
    requires of { of < length types.now.shapes }
    requires nodes { AllShownKnown (length types.now.shapes) nodes.now }
    ensures { let rights = rights_of types.now in result ≡ least (literal_failing_in rights place.first place.last (underlying_of rights (type_of types.now.shapes of)) (shown types.now nodes.now)) }
{
    match underlying(types, of) {
        Some(Shape::Array { length, elem }) => {
            elements_fault(types, place, *elem, Some(u64::from(*length)), nodes)
        }
        Some(Shape::Slice { elem }) => elements_fault(types, place, *elem, None, nodes),
        Some(Shape::Struct { fields }) => fields_fault(types, place, fields.as_slice(), nodes),
        _ => Some(place.fault(FaultCode::Operands)),
    }
}

/// What a literal of a type, if it has one, stands for, with these elements.
fn literal_of(
    types: &Types,
    place: Place,
    of: Option<TypeId>,
    nodes: &[&TypedNode],
) -> Result<Sort, TypeFault>
    requires of { IfSome of (λ t. t < length types.now.shapes) }
    requires nodes { AllShownKnown (length types.now.shapes) nodes.now }
    ensures exact { let t = option_map (type_of types.now.shapes) of in
        Gives (sort_seen types.now) one_fault result (judged (least (literal_failing (rights_of types.now) place.first place.last t (shown types.now nodes.now))) (literal_sort t)) }
    ensures known { IfOk result (KnownSort (length types.now.shapes)) }
{
    let Some(of) = of else {
        return Err(place.fault(FaultCode::Operands));
    };
    match literal_fault(types, place, of, nodes) {
        Some(fault) => Err(fault),
        None => Ok(Sort::Value(of)),
    }
}

/// What a composite literal stands for (Go specification, "Composite literals"), of its type, if it is written, and its elements,
/// or the fault that is reported of it.
///
/// # Errors
///
/// `Operands` here for a type without literals and for keys that are no fields or are mixed with other elements, `Count` here for
/// a wrong number of fields, `ConstIndex` at the first element too many, the least fault of an element; want of memory.
pub fn literal(
    alloc: Global,
    types: &Types,
    place: Place,
    hint: Hint,
    parts: &[Option<TypedNode>],
) -> Result<Sort, TypeError>
    requires hint { KnownHint (length types.now.shapes) hint }
    requires parts { AllKnown (length types.now.shapes) parts.now }
    ensures exact { let rights = rights_of types.now in let h = hint_seen types.now hint in let ys = map (option_map (seen types.now)) parts.now in
        Gives (sort_seen types.now) refusal_of result (judged (least (on_literal [] h (literal_failing rights place.first place.last) ys)) (on_literal trees.Unknown h (λ t xs. literal_sort t) ys)) }
    ensures known { IfOk result (KnownSort (length types.now.shapes)) }
{
    let Some((written, others)) = divided_parts(types, parts) else {
        return Ok(Sort::Unknown);
    };
    let nodes = present(alloc, types, others)?;
    Ok(literal_of(types, place, literal_type(types, hint, written), &nodes)?)
}
