//! Specifications and the names that they declare in place.
ghost use Rattle.std.specs.Prelude.{◌≡◌, ◌++◌, ◌∷◌, [], IfOk, OnOk, length, map, take};
ghost use Rattle.std.specs.Option.{option_map};
ghost use Rattle.go_typed.specs.Trees.{form_of, list_of, parts_of};
ghost use Rattle.go_typed.specs.Views.{seen, Known, AllKnown};
ghost use Rattle.go_exprs_rules.specs.Tables as tables;
ghost use Rattle.go_stmts_defs.specs.Laying.{is_values, typed_or_not, specification_parts, names_count, specified_names, all_names, is_group, specifications};

use crate::headers::opened;
use go_base::Memory;
use go_exprs_engine::layout::{first_cut, push_held};
use go_grammar::kind::{Kind, Sort};
use go_typed::{Form, TypedNode};
use go_types::Types;
use std::alloc::Global;

/// Typed parts, of which some may be left out.
type Parts = Vec<Option<TypedNode>>;

fn is_values(types: &Types, part: &Option<TypedNode>) -> bool
    ensures { result ≡ is_values (option_map (seen types.now) part.now) }
{
    let _types = types;
    match part {
        Some(node) => matches!(node.form, Form::Held(Kind::Values)),
        None => false,
    }
}

/// What stands behind the names: a type, values without a type, or both.
#[tactic(auto, using(crate::proofs::Behind::typed_or_not_is))]
fn typed_or_not(alloc: Global, types: &Types, part: Option<TypedNode>) -> Result<Parts, Memory>
    requires { AllKnown (length types.now.shapes) (part ∷ []) }
    ensures parts { IfOk result (λ ps. map (option_map (seen types.now)) ps.items ≡ typed_or_not (option_map (seen types.now) part)) }
    ensures known { IfOk result (λ ps. AllKnown (length types.now.shapes) ps.items) }
{
    let mut parts = Vec::new(alloc);
    if is_values(types, &part) {
        parts.push(None)?;
    }
    push_held(types, part, &mut parts)?;
    Ok(parts)
}

/// The same, without what is inside the type.
fn behind_names(alloc: Global, types: &Types, part: Option<TypedNode>) -> Result<Parts, Memory>
    requires { AllKnown (length types.now.shapes) (part ∷ []) }
    ensures parts { IfOk result (λ ps. map (option_map (seen types.now)) ps.items ≡ tables.first_cut (typed_or_not (option_map (seen types.now) part))) }
    ensures known { IfOk result (λ ps. AllKnown (length types.now.shapes) ps.items) }
{
    let mut parts = typed_or_not(alloc, types, part)?;
    first_cut(alloc, types, &mut parts);
    Ok(parts)
}

/// names.. type? values..
#[tactic(auto, using(crate::proofs::Appending::appended, crate::proofs::Appending::known_appended))]
pub(crate) fn specification_parts(
    alloc: Global,
    types: &Types,
    mut parts: Parts,
) -> Result<Parts, Memory>
    requires { AllKnown (length types.now.shapes) parts.items }
    ensures parts { IfOk result (λ ps. map (option_map (seen types.now)) ps.items ≡ specification_parts (map (option_map (seen types.now)) parts.items)) }
    ensures known { IfOk result (λ ps. AllKnown (length types.now.shapes) ps.items) }
{
    if parts.len() != 2 {
        return Ok(parts);
    }
    let (Some(values), Some(names)) = (parts.pop(), parts.pop()) else {
        return Ok(parts);
    };
    let mut out = Vec::new(alloc);
    push_held(types, names, &mut out)?;
    let mut behind = behind_names(alloc, types, values)?;
    out.append(&mut behind)?;
    Ok(out)
}

/// How many names a specification declares.
fn names_count(form: Form) -> usize
    ensures { result ≡ names_count form }
{
    match form {
        Form::Specified(count) => count as usize,
        Form::Held(Kind::Specification(Sort::Type)) => 1,
        _ => 0,
    }
}

/// The names that a specification declares.
#[tactic(auto, using(crate::proofs::Appending::known_taken))]
fn names_of(types: &Types, node: TypedNode) -> Parts
    requires { Known (length types.now.shapes) node }
    ensures parts { map (option_map (seen types.now)) result.items ≡ take (names_count (form_of (seen types.now node))) (list_of (parts_of (seen types.now node))) }
    ensures known { AllKnown (length types.now.shapes) result.items }
{
    let count = names_count(node.form);
    let mut names = opened(types, node);
    names.truncate(count);
    names
}

/// Puts the names that a specification declares behind the others.
#[tactic(auto, using(crate::proofs::Appending::appended, crate::proofs::Appending::known_appended))]
fn push_names(types: &Types, part: Option<TypedNode>, out: &mut Parts) -> Result<(), Memory>
    requires part { AllKnown (length types.now.shapes) (part ∷ []) }
    requires out { AllKnown (length types.now.shapes) out.old.items }
    ensures parts { OnOk result (map (option_map (seen types.now)) out.new.items ≡ map (option_map (seen types.now)) out.old.items ++ specified_names (option_map (seen types.now) part)) }
    ensures known { OnOk result (AllKnown (length types.now.shapes) out.new.items) }
{
    if let Some(node) = part {
        let mut names = names_of(types, node);
        out.append(&mut names)?;
    }
    Ok(())
}

/// The names that all specifications declare.
pub(crate) fn all_names(alloc: Global, types: &Types, parts: Parts) -> Result<Parts, Memory>
    requires { AllKnown (length types.now.shapes) parts.items }
    ensures parts { IfOk result (λ ps. map (option_map (seen types.now)) ps.items ≡ all_names (map (option_map (seen types.now)) parts.items)) }
    ensures known { IfOk result (λ ps. AllKnown (length types.now.shapes) ps.items) }
{
    let mut out = Vec::new(alloc);
    for part in parts {
        push_names(types, part, &mut out)?;
    }
    Ok(out)
}

fn is_group(form: Form) -> bool
    ensures { result ≡ is_group form }
{
    matches!(form, Form::Held(Kind::Group(_)))
}

/// The specifications of a declaration, in parentheses or without.
pub(crate) fn specifications(
    alloc: Global,
    types: &Types,
    mut parts: Parts,
) -> Result<Parts, Memory>
    requires { AllKnown (length types.now.shapes) parts.items }
    ensures parts { IfOk result (λ ps. map (option_map (seen types.now)) ps.items ≡ specifications (map (option_map (seen types.now)) parts.items)) }
    ensures known { IfOk result (λ ps. AllKnown (length types.now.shapes) ps.items) }
{
    if parts.len() != 1 {
        return Ok(parts);
    }
    match parts.pop() {
        Some(Some(node)) if is_group(node.form) => Ok(opened(types, node)),
        Some(part) => {
            parts.push(part)?;
            Ok(parts)
        }
        None => Ok(parts),
    }
}
