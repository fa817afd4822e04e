//! Elements of composite literals.
ghost use Rattle.std.specs.Prelude.{◌≡◌, ◌==◌, if◌then◌else◌, ◌<◌, IfSome, length, map};
ghost use Rattle.std.specs.List.{AllByRecursion, list_all};
ghost use Rattle.std.specs.Option.{option_map};
ghost use Rattle.go_types.specs.Trees.{row};
ghost use Rattle.go_types.specs.Tables.{type_of, rights_of};
ghost use Rattle.go_typed.specs.Trees.{parts_of};
ghost use Rattle.go_typed.specs.Views.{seen, Known};
ghost use Rattle.go_exprs_rules.specs.Faults.{least};
ghost use Rattle.go_exprs_rules.specs.Calls.{row_length, all_unassignable};
ghost use Rattle.go_exprs_rules.specs.Literals.{key_of, is_keyed, has_keys, is_below, first_part, too_many, elements_failing, keyed_type, given_to_field, keyed_unassignable, keyed_failing, ordered_failing, fields_failing};
ghost use Rattle.go_exprs_calls.specs.Shown.{shown, AllShownKnown};

use crate::values::each_unassignable;
use go_base::FaultCode;
use go_exprs_rules::assign::unassignable;
use go_exprs_rules::fault::earlier;
use go_exprs_rules::nodes::fault_at;
use go_exprs_rules::{Place, TypeFault};
use go_typed::{Form, TypedNode};
use go_types::{Field, TypeId, Types};

/// The number of the field of an element with a key.
pub(crate) fn key_of(types: &Types, node: &TypedNode) -> Option<u32>
    ensures { result ≡ key_of (seen types.now node.now) }
{
    match node.form {
        Form::Keyed(number) => Some(number),
        _ => None,
    }
}

fn is_keyed(types: &Types, node: &TypedNode) -> bool
    ensures { result ≡ is_keyed (seen types.now node.now) }
{
    key_of(types, node).is_some()
}

/// Whether an element has a key.
pub(crate) fn has_keys(types: &Types, nodes: &[&TypedNode]) -> bool
    ensures { result ≡ has_keys (shown types.now nodes.now) }
{
    for node in nodes {
        if is_keyed(types, node) {
            return true;
        }
    }
    false
}

/// The fault of the first element too many.
fn too_many(types: &Types, limit: Option<u64>, nodes: &[&TypedNode]) -> Option<TypeFault>
    ensures { result ≡ least (too_many limit (shown types.now nodes.now)) }
{
    let limit = limit? as usize;
    if limit < nodes.len() {
        Some(fault_at(types, nodes[limit], FaultCode::ConstIndex))
    } else {
        None
    }
}

/// The least fault of the elements of an array or slice literal: `Operands` here for an element with a key, else `ConstIndex` at
/// the first element too many and the faults of each element.
#[tactic(auto, using(go_exprs_rules::proofs::Firsts::least_append))]
pub(crate) fn elements_fault(
    types: &Types,
    place: Place,
    of: TypeId,
    limit: Option<u64>,
    nodes: &[&TypedNode],
) -> Option<TypeFault>
    requires of { of < length types.now.shapes }
    requires nodes { AllShownKnown (length types.now.shapes) nodes.now }
    ensures { result ≡ least (elements_failing (rights_of types.now) place.first place.last (type_of types.now.shapes of) limit (shown types.now nodes.now)) }
{
    if has_keys(types, nodes) {
        return Some(place.fault(FaultCode::Operands));
    }
    earlier(
        each_unassignable(types, of, nodes),
        too_many(types, limit, nodes),
    )
}

/// The type of the field of this number.
pub(crate) fn keyed_type(types: &Types, fields: &[Field], key: Option<u32>) -> Option<TypeId>
    requires { AllByRecursion (λ t. t < length types.now.shapes) (map (λ f. f.ty) fields.now) }
    ensures known { IfSome result (λ t. t < length types.now.shapes) }
    ensures tree { option_map (type_of types.now.shapes) result ≡ keyed_type (row (map (λ f. type_of types.now.shapes f.ty) fields.now)) key }
{
    let key = key? as usize;
    if key < fields.len() {
        Some(fields[key].ty)
    } else {
        None
    }
}

/// The value of an element with a key.
fn keyed_value<'a>(types: &Types, node: &'a TypedNode) -> Option<&'a TypedNode>
    requires { Known (length types.now.shapes) node.now }
    ensures known { IfSome result (λ n. Known (length types.now.shapes) n.now) }
    ensures tree { option_map (λ n. seen types.now n.now) result ≡ first_part (parts_of (seen types.now node.now)) }
{
    match node.parts.first() {
        Some(Some(value)) => Some(value),
        _ => None,
    }
}

/// The fault of an element with a key: that of its value, which is given to the field.
fn keyed_fault(types: &Types, fields: &[Field], node: &TypedNode) -> Option<TypeFault>
    requires fields { AllByRecursion (λ t. t < length types.now.shapes) (map (λ f. f.ty) fields.now) }
    requires node { Known (length types.now.shapes) node.now }
    ensures { let x = seen types.now node.now in let ts = row (map (λ f. type_of types.now.shapes f.ty) fields.now) in
        result ≡ least (given_to_field (rights_of types.now) (keyed_type ts (key_of x)) (first_part (parts_of x))) }
{
    match (
        keyed_type(types, fields, key_of(types, node)),
        keyed_value(types, node),
    ) {
        (Some(of), Some(value)) => unassignable(types, of, value),
        _ => None,
    }
}

/// The least fault of elements with keys.
fn keyed_unassignable(types: &Types, fields: &[Field], nodes: &[&TypedNode]) -> Option<TypeFault>
    requires fields { AllByRecursion (λ t. t < length types.now.shapes) (map (λ f. f.ty) fields.now) }
    requires nodes { AllShownKnown (length types.now.shapes) nodes.now }
    ensures { let ts = row (map (λ f. type_of types.now.shapes f.ty) fields.now) in result ≡ least (keyed_unassignable (rights_of types.now) ts (shown types.now nodes.now)) }
{
    let mut first = None;
    for node in nodes {
        first = earlier(first, keyed_fault(types, fields, node));
    }
    first
}

fn has_field(types: &Types, fields: &[Field], node: &TypedNode) -> bool
    ensures { result ≡ is_below (row_length (row (map (λ f. type_of types.now.shapes f.ty) fields.now))) (key_of (seen types.now node.now)) }
{
    match key_of(types, node) {
        Some(key) => (key as usize) < fields.len(),
        None => false,
    }
}

/// Whether each element has the key of a field.
fn have_fields(types: &Types, fields: &[Field], nodes: &[&TypedNode]) -> bool
    ensures { result ≡ list_all (λ x. is_below (row_length (row (map (λ f. type_of types.now.shapes f.ty) fields.now))) (key_of x)) (shown types.now nodes.now) }
{
    for node in nodes {
        if !has_field(types, fields, node) {
            return false;
        }
    }
    true
}

/// The least fault of elements of which one has a key: `Operands` here where one has none, or that of no field.
fn keyed_elements_fault(
    types: &Types,
    place: Place,
    fields: &[Field],
    nodes: &[&TypedNode],
) -> Option<TypeFault>
    requires fields { AllByRecursion (λ t. t < length types.now.shapes) (map (λ f. f.ty) fields.now) }
    requires nodes { AllShownKnown (length types.now.shapes) nodes.now }
    ensures { let ts = row (map (λ f. type_of types.now.shapes f.ty) fields.now) in result ≡ least (keyed_failing (rights_of types.now) place.first place.last ts (shown types.now nodes.now)) }
{
    if have_fields(types, fields, nodes) {
        keyed_unassignable(types, fields, nodes)
    } else {
        Some(place.fault(FaultCode::Operands))
    }
}

/// The least fault of values of which each is given to a field, in order.
fn fields_unassignable(types: &Types, fields: &[Field], nodes: &[&TypedNode]) -> Option<TypeFault>
    requires fields { AllByRecursion (λ t. t < length types.now.shapes) (map (λ f. f.ty) fields.now) }
    requires nodes { AllShownKnown (length types.now.shapes) nodes.now }
    requires count { length fields.now ≡ length nodes.now }
    ensures { let ts = row (map (λ f. type_of types.now.shapes f.ty) fields.now) in result ≡ least (all_unassignable (rights_of types.now) ts (shown types.now nodes.now)) }
{
    let mut first = None;
    for (number, node) in nodes.iter().enumerate() {
        first = earlier(first, unassignable(types, fields[number].ty, node));
    }
    first
}

fn are_all_fields(types: &Types, fields: &[Field], nodes: &[&TypedNode]) -> bool
    ensures count { result ≡ (row_length (row (map (λ f. type_of types.now.shapes f.ty) fields.now)) == length (shown types.now nodes.now)) }
    ensures same { result ≡ (length fields.now == length nodes.now) }
{
    fields.len() == nodes.len()
}

/// The least fault of elements without keys: `Count` here where there are not as many as fields.
fn ordered_fault(
    types: &Types,
    place: Place,
    fields: &[Field],
    nodes: &[&TypedNode],
) -> Option<TypeFault>
    requires fields { AllByRecursion (λ t. t < length types.now.shapes) (map (λ f. f.ty) fields.now) }
    requires nodes { AllShownKnown (length types.now.shapes) nodes.now }
    ensures { let ts = row (map (λ f. type_of types.now.shapes f.ty) fields.now) in result ≡ least (ordered_failing (rights_of types.now) place.first place.last ts (shown types.now nodes.now)) }
{
    if are_all_fields(types, fields, nodes) {
        fields_unassignable(types, fields, nodes)
    } else {
        Some(place.fault(FaultCode::Count))
    }
}

/// The least fault of one or more elements of a struct literal: all fields in order, or keys.
fn some_fields_fault(
    types: &Types,
    place: Place,
    fields: &[Field],
    nodes: &[&TypedNode],
) -> Option<TypeFault>
    requires fields { AllByRecursion (λ t. t < length types.now.shapes) (map (λ f. f.ty) fields.now) }
    requires nodes { AllShownKnown (length types.now.shapes) nodes.now }
    ensures { let ts = row (map (λ f. type_of types.now.shapes f.ty) fields.now) in let rights = rights_of types.now in let xs = shown types.now nodes.now in
        result ≡ least (if has_keys xs then keyed_failing rights place.first place.last ts xs else ordered_failing rights place.first place.last ts xs) }
{
    if has_keys(types, nodes) {
        keyed_elements_fault(types, place, fields, nodes)
    } else {
        ordered_fault(types, place, fields, nodes)
    }
}

/// The least fault of the elements of a struct literal: none, all fields in order, or keys.
pub(crate) fn fields_fault(
    types: &Types,
    place: Place,
    fields: &[Field],
    nodes: &[&TypedNode],
) -> Option<TypeFault>
    requires fields { AllByRecursion (λ t. t < length types.now.shapes) (map (λ f. f.ty) fields.now) }
    requires nodes { AllShownKnown (length types.now.shapes) nodes.now }
    ensures { let ts = row (map (λ f. type_of types.now.shapes f.ty) fields.now) in result ≡ least (fields_failing (rights_of types.now) place.first place.last ts (shown types.now nodes.now)) }
{
    match nodes {
        [] => None,
        [_, ..] => some_fields_fault(types, place, fields, nodes),
    }
}
