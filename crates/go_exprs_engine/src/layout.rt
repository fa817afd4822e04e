//! How the parts of a node are laid out.
ghost use Rattle.std.specs.Prelude.{◌≡◌, ◌++◌, ◌∷◌, [], IfOk, OnOk, None, length, map};
ghost use Rattle.std.specs.Option.{option_map};
ghost use Rattle.go_typed.specs.Views.{seen, sort_seen, Known, AllKnown};
ghost use Rattle.go_exprs_rules.specs.Tables.{is_held, held, all_held, leaf, is_type, cut, first_cut, is_make_call, call_parts, has_no_low, bounds_of, bracketed_parts, is_package, selector_parts, behind_first, layout};
ghost use Rattle.go_exprs_engine.specs.Layouts.{second_cut, is_package_alone};

use crate::told::is_make;
use go_base::Memory;
use go_exprs_rules::nodes::sort_of;
use go_grammar::kind::Kind;
use go_typed::{Form, Sort, TypedNode};
use go_types::Types;
use std::alloc::{AllocError, Global};

/// Typed parts, of which some may be left out.
type Parts = Vec<Option<TypedNode>>;

fn is_held(form: Form) -> bool
    ensures { result ≡ is_held form }
{
    matches!(form, Form::Held(_))
}

/// Puts the parts of a holder, or else the part itself, behind the others.
pub fn push_held(types: &Types, part: Option<TypedNode>, out: &mut Parts) -> Result<(), Memory>
    requires part { AllKnown (length types.now.shapes) (part ∷ []) }
    requires out { AllKnown (length types.now.shapes) out.old.items }
    ensures parts { OnOk result (map (option_map (seen types.now)) out.new.items ≡ map (option_map (seen types.now)) out.old.items ++ held (option_map (seen types.now) part)) }
    ensures known { OnOk result (AllKnown (length types.now.shapes) out.new.items) }
{
    match part {
        Some(mut node) => if is_held(node.form) {
            out.append(&mut node.parts)?;
        } else {
            out.push(Some(node))?;
        },
        None => out.push(None)?,
    }
    Ok(())
}

/// The parts, with those of each holder in its place.
pub fn all_held(alloc: Global, types: &Types, parts: Parts) -> Result<Parts, Memory>
    requires { AllKnown (length types.now.shapes) parts.items }
    ensures parts { IfOk result (λ ps. map (option_map (seen types.now)) ps.items ≡ all_held (map (option_map (seen types.now)) parts.items)) }
    ensures known { IfOk result (λ ps. AllKnown (length types.now.shapes) ps.items) }
{
    let mut out = Vec::new(alloc);
    for part in parts {
        push_held(types, part, &mut out)?;
    }
    Ok(out)
}

/// Takes out what is inside a type: it is no node.
fn cut(alloc: Global, types: &Types, part: &mut Option<TypedNode>)
    requires { AllKnown (length types.now.shapes) (part.old ∷ []) }
    ensures part { option_map (seen types.now) part.new ≡ cut (option_map (seen types.now) part.old) }
    ensures known { AllKnown (length types.now.shapes) (part.new ∷ []) }
{
    if let Some(node) = part {
        if is_type(types, sort_of(types, node)) {
            node.form = Form::Type;
            node.parts = Vec::new(alloc);
        }
    }
}

fn is_type(types: &Types, sort: &Sort) -> bool
    ensures { result ≡ is_type (sort_seen types.now sort.now) }
{
    matches!(sort, Sort::Type(_))
}

fn is_package(types: &Types, sort: &Sort) -> bool
    ensures { result ≡ is_package (sort_seen types.now sort.now) }
{
    matches!(sort, Sort::Package)
}

/// Takes out what is inside the first part, if that is a type.
pub fn first_cut(alloc: Global, types: &Types, parts: &mut [Option<TypedNode>])
    requires { AllKnown (length types.now.shapes) parts.old }
    ensures parts { map (option_map (seen types.now)) parts.new ≡ first_cut (map (option_map (seen types.now)) parts.old) }
    ensures known { AllKnown (length types.now.shapes) parts.new }
{
    if !parts.is_empty() {
        cut(alloc, types, &mut parts[0]);
    }
}

/// Takes out what is inside the second part, if that is a type.
fn second_cut(alloc: Global, types: &Types, parts: &mut [Option<TypedNode>])
    requires { AllKnown (length types.now.shapes) parts.old }
    ensures parts { map (option_map (seen types.now)) parts.new ≡ second_cut (map (option_map (seen types.now)) parts.old) }
    ensures known { AllKnown (length types.now.shapes) parts.new }
{
    if parts.len() > 1 {
        cut(alloc, types, &mut parts[1]);
    }
}

fn is_make_call(types: &Types, parts: &[Option<TypedNode>]) -> bool
    requires { AllKnown (length types.now.shapes) parts.now }
    ensures { result ≡ is_make_call (map (option_map (seen types.now)) parts.now) }
{
    match parts {
        [Some(callee), ..] => is_make(types, sort_of(types, callee)),
        _ => false,
    }
}

/// The callee that is a type, or the type that `make` is given, without its inside.
#[tactic(auto, using(crate::proofs::Layouts::call_is))]
fn call_parts(alloc: Global, types: &Types, parts: &mut [Option<TypedNode>])
    requires { AllKnown (length types.now.shapes) parts.old }
    ensures parts { map (option_map (seen types.now)) parts.new ≡ call_parts (map (option_map (seen types.now)) parts.old) }
    ensures known { AllKnown (length types.now.shapes) parts.new }
{
    if is_make_call(types, parts) {
        second_cut(alloc, types, parts);
    } else {
        first_cut(alloc, types, parts);
    }
}

fn is_package_alone(types: &Types, parts: &[Option<TypedNode>]) -> bool
    requires { AllKnown (length types.now.shapes) parts.now }
    ensures { result ≡ is_package_alone (map (option_map (seen types.now)) parts.now) }
{
    match parts {
        [Some(operand)] => is_package(types, sort_of(types, operand)),
        _ => false,
    }
}

/// `fmt.Println` is one node.
#[tactic(auto, using(crate::proofs::Layouts::selector_is))]
fn selector_parts(alloc: Global, types: &Types, parts: Parts) -> Parts
    requires { AllKnown (length types.now.shapes) parts.items }
    ensures parts { map (option_map (seen types.now)) result.items ≡ selector_parts (map (option_map (seen types.now)) parts.items) }
    ensures known { AllKnown (length types.now.shapes) result.items }
{
    if is_package_alone(types, &parts) {
        Vec::new(alloc)
    } else {
        parts
    }
}

fn has_no_low(types: &Types, part: &Option<TypedNode>) -> bool
    ensures { result ≡ has_no_low (option_map (seen types.now) part.now) }
{
    match part {
        Some(node) => matches!(node.form, Form::Held(Kind::Bounds)),
        None => false,
    }
}

/// The operand and its index, or both bounds, each of which may be left out.
fn bracketed_parts(types: &Types, mut parts: Parts) -> Result<Parts, Memory>
    requires { AllKnown (length types.now.shapes) parts.items }
    ensures parts { IfOk result (λ ps. map (option_map (seen types.now)) ps.items ≡ bracketed_parts (map (option_map (seen types.now)) parts.items)) }
    ensures known { IfOk result (λ ps. AllKnown (length types.now.shapes) ps.items) }
{
    if parts.len() < 2 {
        return Ok(parts);
    }
    parts.truncate(2);
    let Some(bounds) = parts.pop() else {
        return Ok(parts);
    };
    if has_no_low(types, &bounds) {
        parts.push(None)?;
    }
    push_held(types, bounds, &mut parts)?;
    Ok(parts)
}

/// The parts behind the first.
pub fn behind_first(types: &Types, mut parts: Parts) -> Parts
    requires { AllKnown (length types.now.shapes) parts.items }
    ensures parts { map (option_map (seen types.now)) result.items ≡ behind_first (map (option_map (seen types.now)) parts.items) }
    ensures known { AllKnown (length types.now.shapes) result.items }
{
    let _types = types;
    if !parts.is_empty() {
        parts.remove(0);
    }
    parts
}

/// The parts behind the place of a type that isn't written.
pub fn behind_gap(types: &Types, mut parts: Parts) -> Result<Parts, Memory>
    requires { AllKnown (length types.now.shapes) parts.items }
    ensures parts { IfOk result (λ ps. map (option_map (seen types.now)) ps.items ≡ None ∷ map (option_map (seen types.now)) parts.items) }
    ensures known { IfOk result (λ ps. AllKnown (length types.now.shapes) ps.items) }
{
    let _types = types;
    parts.insert(0, None)?;
    Ok(parts)
}

/// The parts of a node of the kind, as they stand in a typed node.
///
/// # Errors
///
/// Want of memory.
pub fn layout(alloc: Global, types: &Types, kind: Kind, mut parts: Parts) -> Result<Parts, Memory>
    requires { AllKnown (length types.now.shapes) parts.items }
    ensures parts { IfOk result (λ ps. map (option_map (seen types.now)) ps.items ≡ layout kind (map (option_map (seen types.now)) parts.items)) }
    ensures known { IfOk result (λ ps. AllKnown (length types.now.shapes) ps.items) }
{
    match kind {
        Kind::Selector => Ok(selector_parts(alloc, types, parts)),
        Kind::Bracketed => bracketed_parts(types, parts),
        Kind::Call => {
            call_parts(alloc, types, &mut parts);
            Ok(parts)
        }
        Kind::Composite => {
            first_cut(alloc, types, &mut parts);
            Ok(parts)
        }
        Kind::LiteralValue => behind_gap(types, parts),
        Kind::Keyed => Ok(behind_first(types, parts)),
        Kind::Fields => all_held(alloc, types, parts),
        Kind::StructType => all_held(alloc, types, parts),
        _ => Ok(parts),
    }
}
