//! What arguments and elements take of their place.
ghost use Rattle.std.specs.Prelude.{◌≡◌, ◌<◌, ◌++◌, ◌∷◌, [], All, IfOk, OnOk, IfSome, length, map};
ghost use Rattle.std.specs.List.{AllByRecursion};
ghost use Rattle.std.specs.Option.{option_map};
ghost use Rattle.go_types.specs.Trees.{row};
ghost use Rattle.go_types.specs.Tables.{type_of, rights_of};
ghost use Rattle.go_typed.specs.Trees.{sort_of};
ghost use Rattle.go_typed.specs.Views.{seen, sort_seen, KnownSort, AllKnown};
ghost use Rattle.go_exprs_rules.specs.Calls as calls;
ghost use Rattle.go_exprs_rules.specs.Hints.{hint_seen, KnownHint};
ghost use Rattle.go_exprs_rules.specs.Literals as literals;
ghost use Rattle.go_exprs_rules.specs.Seen.{AreBasics};
ghost use Rattle.go_exprs_rules.specs.Settling.{stay};
ghost use Rattle.go_exprs_rules.specs.Sorts.{form_of_value, slice_element};
ghost use Rattle.go_exprs_calls.specs.Appended.{element_take};
ghost use Rattle.go_exprs_rules.specs.Tables.{on_first, on_literal};
ghost use Rattle.go_exprs_rules.specs.Takes.{take_seen, KnownTake};
ghost use Rattle.go_exprs_calls.specs.Shown.{shown, AllShownKnown};

use crate::arguments::{divided, divided_parts, first_part, present};
use crate::builtins::slice_element;
use crate::elements::{has_keys, key_of, keyed_type};
use crate::extremes::extreme_take;
use crate::functions::parameters;
use crate::literals::literal_type;
use go_base::Memory;
use go_exprs_rules::nodes::sort_of;
use go_exprs_rules::take::conversion_take;
use go_exprs_rules::{Basics, Hint, Take};
use go_tree::object::Predeclared;
use go_typed::{Sort, TypedNode};
use go_types::{Field, Shape, TypeId, Types};
use go_types_relations::underlying;
use std::alloc::{AllocError, Global};

/// Puts what one more part takes behind the others.
fn push_take(types: &Types, take: Take, takes: &mut Vec<Take>) -> Result<(), AllocError>
    requires take { KnownTake (length types.now.shapes) take }
    requires takes { All (KnownTake (length types.now.shapes)) takes.old.items }
    ensures tree { OnOk result (map (take_seen types.now) takes.new.items ≡ map (take_seen types.now) takes.old.items ++ take_seen types.now take ∷ []) }
    ensures known { OnOk result (All (KnownTake (length types.now.shapes)) takes.new.items) }
{
    takes.push(take)?;
    Ok(())
}

/// All take the same.
fn push_same(
    types: &Types,
    take: Take,
    nodes: &[&TypedNode],
    takes: &mut Vec<Take>,
) -> Result<(), AllocError>
    requires take { KnownTake (length types.now.shapes) take }
    requires takes { All (KnownTake (length types.now.shapes)) takes.old.items }
    ensures tree { OnOk result (map (take_seen types.now) takes.new.items ≡ map (take_seen types.now) takes.old.items ++ map (λ x. take_seen types.now take) (shown types.now nodes.now)) }
    ensures known { OnOk result (All (KnownTake (length types.now.shapes)) takes.new.items) }
{
    for _ in nodes {
        push_take(types, take, takes)?;
    }
    Ok(())
}

/// Each takes a type.
fn push_types(types: &Types, to: &[TypeId], takes: &mut Vec<Take>) -> Result<(), AllocError>
    requires to { AllByRecursion (λ t. t < length types.now.shapes) to.now }
    requires takes { All (KnownTake (length types.now.shapes)) takes.old.items }
    ensures tree { OnOk result (map (take_seen types.now) takes.new.items ≡ map (take_seen types.now) takes.old.items ++ calls.all_as (row (map (type_of types.now.shapes) to.now))) }
    ensures known { OnOk result (All (KnownTake (length types.now.shapes)) takes.new.items) }
{
    for of in to {
        push_take(types, Take::As(*of), takes)?;
    }
    Ok(())
}

/// Each takes the type of a field, in order.
fn push_fields(types: &Types, fields: &[Field], takes: &mut Vec<Take>) -> Result<(), AllocError>
    requires fields { AllByRecursion (λ t. t < length types.now.shapes) (map (λ f. f.ty) fields.now) }
    requires takes { All (KnownTake (length types.now.shapes)) takes.old.items }
    ensures tree { OnOk result (map (take_seen types.now) takes.new.items ≡ map (take_seen types.now) takes.old.items ++ calls.all_as (row (map (λ f. type_of types.now.shapes f.ty) fields.now))) }
    ensures known { OnOk result (All (KnownTake (length types.now.shapes)) takes.new.items) }
{
    for field in fields {
        push_take(types, Take::As(field.ty), takes)?;
    }
    Ok(())
}

/// What an element with a key takes: the type of its field.
fn keyed_take(types: &Types, fields: &[Field], node: &TypedNode) -> Take
    requires { AllByRecursion (λ t. t < length types.now.shapes) (map (λ f. f.ty) fields.now) }
    ensures tree { take_seen types.now result ≡ literals.as_optional (literals.keyed_type (row (map (λ f. type_of types.now.shapes f.ty) fields.now)) (literals.key_of (seen types.now node.now))) }
    ensures known { KnownTake (length types.now.shapes) result }
{
    match keyed_type(types, fields, key_of(types, node)) {
        Some(of) => Take::As(of),
        None => Take::Stay,
    }
}

/// Each takes the type of the field of its key.
fn push_keyed(
    types: &Types,
    fields: &[Field],
    nodes: &[&TypedNode],
    takes: &mut Vec<Take>,
) -> Result<(), AllocError>
    requires fields { AllByRecursion (λ t. t < length types.now.shapes) (map (λ f. f.ty) fields.now) }
    requires takes { All (KnownTake (length types.now.shapes)) takes.old.items }
    ensures tree { let ts = row (map (λ f. type_of types.now.shapes f.ty) fields.now) in
        OnOk result (map (take_seen types.now) takes.new.items ≡ map (take_seen types.now) takes.old.items ++ map (λ x. literals.as_optional (literals.keyed_type ts (literals.key_of x))) (shown types.now nodes.now)) }
    ensures known { OnOk result (All (KnownTake (length types.now.shapes)) takes.new.items) }
{
    for node in nodes {
        push_take(types, keyed_take(types, fields, node), takes)?;
    }
    Ok(())
}

/// Each is an operand of a conversion.
fn push_converted(
    types: &Types,
    to: TypeId,
    nodes: &[&TypedNode],
    takes: &mut Vec<Take>,
) -> Result<(), AllocError>
    requires to { to < length types.now.shapes }
    requires nodes { AllShownKnown (length types.now.shapes) nodes.now }
    requires takes { All (KnownTake (length types.now.shapes)) takes.old.items }
    ensures tree { let t = type_of types.now.shapes to in
        OnOk result (map (take_seen types.now) takes.new.items ≡ map (take_seen types.now) takes.old.items ++ map (λ x. calls.conversion_take (rights_of types.now) t (sort_of x)) (shown types.now nodes.now)) }
    ensures known { OnOk result (All (KnownTake (length types.now.shapes)) takes.new.items) }
{
    for node in nodes {
        push_take(
            types,
            conversion_take(types, to, sort_of(types, node)),
            takes,
        )?;
    }
    Ok(())
}

/// What the arguments of a function take: the types of the parameters.
fn push_function(
    types: &Types,
    callee: &Sort,
    nodes: &[&TypedNode],
    takes: &mut Vec<Take>,
) -> Result<(), AllocError>
    requires callee { KnownSort (length types.now.shapes) callee.now }
    requires takes { All (KnownTake (length types.now.shapes)) takes.old.items }
    ensures tree { let rights = rights_of types.now in let f = sort_seen types.now callee.now in
        OnOk result (map (take_seen types.now) takes.new.items ≡ map (take_seen types.now) takes.old.items ++ calls.function_takes (calls.parameters_of (form_of_value rights f)) (shown types.now nodes.now)) }
    ensures known { OnOk result (All (KnownTake (length types.now.shapes)) takes.new.items) }
{
    match parameters(types, callee) {
        Some(to) => push_types(types, to, takes),
        None => push_same(types, Take::Default, nodes, takes),
    }
}

/// What the arguments of a predeclared function take, of which the first one stays: the elements of `append` take the type of the
/// slice's, and the sizes of `make` take `int`.
fn push_behind(
    types: &Types,
    take: Take,
    nodes: &[&TypedNode],
    takes: &mut Vec<Take>,
) -> Result<(), AllocError>
    requires take { KnownTake (length types.now.shapes) take }
    requires takes { All (KnownTake (length types.now.shapes)) takes.old.items }
    ensures tree { OnOk result (map (take_seen types.now) takes.new.items ≡ map (take_seen types.now) takes.old.items ++ (stay ∷ map (λ x. take_seen types.now take) (shown types.now nodes.now))) }
    ensures known { OnOk result (All (KnownTake (length types.now.shapes)) takes.new.items) }
{
    push_take(types, Take::Stay, takes)?;
    push_same(types, take, nodes, takes)
}

/// What the elements of `append` take.
fn appended_take(types: &Types, to: &Sort) -> Take
    requires { KnownSort (length types.now.shapes) to.now }
    ensures tree { take_seen types.now result ≡ element_take (slice_element (form_of_value (rights_of types.now) (sort_seen types.now to.now))) }
    ensures known { KnownTake (length types.now.shapes) result }
{
    match slice_element(types, to) {
        Some(of) => Take::As(of),
        None => Take::Default,
    }
}

/// What the arguments of a predeclared function take.
fn push_builtin(
    types: &Types,
    basics: Basics,
    function: Predeclared,
    nodes: &[&TypedNode],
    takes: &mut Vec<Take>,
) -> Result<(), AllocError>
    requires basics { AreBasics types.now basics }
    requires nodes { AllShownKnown (length types.now.shapes) nodes.now }
    requires takes { All (KnownTake (length types.now.shapes)) takes.old.items }
    ensures tree { OnOk result (map (take_seen types.now) takes.new.items ≡ map (take_seen types.now) takes.old.items ++ calls.builtin_takes (rights_of types.now) function (shown types.now nodes.now)) }
    ensures known { OnOk result (All (KnownTake (length types.now.shapes)) takes.new.items) }
{
    let Some((first, others)) = divided(types, nodes) else {
        return Ok(());
    };
    match function {
        Predeclared::Make => push_behind(types, Take::As(basics.int), others, takes),
        Predeclared::Append => {
            push_behind(
                types,
                appended_take(types, sort_of(types, first)),
                others,
                takes,
            )
        }
        Predeclared::Min | Predeclared::Max => {
            push_same(types, extreme_take(types, basics, nodes), nodes, takes)
        }
        _ => push_same(types, Take::Default, nodes, takes),
    }
}

/// What the arguments of a call take.
fn push_arguments(
    types: &Types,
    basics: Basics,
    callee: &Sort,
    nodes: &[&TypedNode],
    takes: &mut Vec<Take>,
) -> Result<(), AllocError>
    requires basics { AreBasics types.now basics }
    requires callee { KnownSort (length types.now.shapes) callee.now }
    requires nodes { AllShownKnown (length types.now.shapes) nodes.now }
    requires takes { All (KnownTake (length types.now.shapes)) takes.old.items }
    ensures tree { OnOk result (map (take_seen types.now) takes.new.items ≡ map (take_seen types.now) takes.old.items ++ calls.call_takes (rights_of types.now) (sort_seen types.now callee.now) (shown types.now nodes.now)) }
    ensures known { OnOk result (All (KnownTake (length types.now.shapes)) takes.new.items) }
{
    match callee {
        Sort::Type(to) => push_converted(types, *to, nodes, takes),
        Sort::Builtin(function) => push_builtin(types, basics, *function, nodes, takes),
        _ => push_function(types, callee, nodes, takes),
    }
}

/// What the parts of a call take: the callee nothing, an argument the type of its parameter, or what the conversion or the
/// predeclared function gives it.
///
/// # Errors
///
/// Want of memory.
pub fn call_takes(
    alloc: Global,
    types: &Types,
    basics: Basics,
    parts: &[Option<TypedNode>],
) -> Result<Vec<Take>, Memory>
    requires basics { AreBasics types.now basics }
    requires parts { AllKnown (length types.now.shapes) parts.now }
    ensures tree { let rights = rights_of types.now in let ys = map (option_map (seen types.now)) parts.now in
        IfOk result (λ ks. map (take_seen types.now) ks.items ≡ on_first [] (λ f xs. stay ∷ calls.call_takes rights (sort_of f) xs) ys) }
    ensures known { IfOk result (λ ks. All (KnownTake (length types.now.shapes)) ks.items) }
{
    let mut takes = Vec::new(alloc);
    let Some((callee, others)) = first_part(types, parts) else {
        return Ok(takes);
    };
    push_take(types, Take::Stay, &mut takes)?;
    let nodes = present(alloc, types, others)?;
    push_arguments(types, basics, sort_of(types, callee), &nodes, &mut takes)?;
    Ok(takes)
}

/// What the elements of a struct literal take.
fn push_members(
    types: &Types,
    fields: &[Field],
    nodes: &[&TypedNode],
    takes: &mut Vec<Take>,
) -> Result<(), AllocError>
    requires fields { AllByRecursion (λ t. t < length types.now.shapes) (map (λ f. f.ty) fields.now) }
    requires takes { All (KnownTake (length types.now.shapes)) takes.old.items }
    ensures tree { let ts = row (map (λ f. type_of types.now.shapes f.ty) fields.now) in
        OnOk result (map (take_seen types.now) takes.new.items ≡ map (take_seen types.now) takes.old.items ++ literals.fields_take ts (shown types.now nodes.now)) }
    ensures known { OnOk result (All (KnownTake (length types.now.shapes)) takes.new.items) }
{
    if has_keys(types, nodes) {
        push_keyed(types, fields, nodes, takes)
    } else {
        push_fields(types, fields, takes)
    }
}

/// What the elements of a literal of a type, if it has one, take.
fn push_elements(
    types: &Types,
    of: Option<TypeId>,
    nodes: &[&TypedNode],
    takes: &mut Vec<Take>,
) -> Result<(), AllocError>
    requires of { IfSome of (λ t. t < length types.now.shapes) }
    requires takes { All (KnownTake (length types.now.shapes)) takes.old.items }
    ensures tree { let t = option_map (type_of types.now.shapes) of in
        OnOk result (map (take_seen types.now) takes.new.items ≡ map (take_seen types.now) takes.old.items ++ literals.literal_takes (rights_of types.now) t (shown types.now nodes.now)) }
    ensures known { OnOk result (All (KnownTake (length types.now.shapes)) takes.new.items) }
{
    let Some(of) = of else {
        return push_same(types, Take::Stay, nodes, takes);
    };
    match underlying(types, of) {
        Some(Shape::Array { elem, .. }) => push_same(types, Take::As(*elem), nodes, takes),
        Some(Shape::Slice { elem }) => push_same(types, Take::As(*elem), nodes, takes),
        Some(Shape::Struct { fields }) => push_members(types, fields.as_slice(), nodes, takes),
        _ => push_same(types, Take::Stay, nodes, takes),
    }
}

/// What the parts of a composite literal take: its type nothing, an element the type of the elements or of its field.
///
/// # Errors
///
/// Want of memory.
pub fn literal_takes(
    alloc: Global,
    types: &Types,
    hint: Hint,
    parts: &[Option<TypedNode>],
) -> Result<Vec<Take>, Memory>
    requires hint { KnownHint (length types.now.shapes) hint }
    requires parts { AllKnown (length types.now.shapes) parts.now }
    ensures tree { let rights = rights_of types.now in let h = hint_seen types.now hint in let ys = map (option_map (seen types.now)) parts.now in
        IfOk result (λ ks. map (take_seen types.now) ks.items ≡ on_literal [] h (λ t xs. stay ∷ literals.literal_takes rights t xs) ys) }
    ensures known { IfOk result (λ ks. All (KnownTake (length types.now.shapes)) ks.items) }
{
    let mut takes = Vec::new(alloc);
    let Some((written, others)) = divided_parts(types, parts) else {
        return Ok(takes);
    };
    push_take(types, Take::Stay, &mut takes)?;
    let nodes = present(alloc, types, others)?;
    push_elements(
        types,
        literal_type(types, hint, written),
        &nodes,
        &mut takes,
    )?;
    Ok(takes)
}
