//! Headers of `if`, `switch` and `for` in place.
ghost use Rattle.std.specs.Prelude.{◌≡◌, ◌∷◌, [], IfOk, None, length, map};
ghost use Rattle.std.specs.Option.{option_map};
ghost use Rattle.go_typed.specs.Trees.{list_of, parts_of};
ghost use Rattle.go_typed.specs.Views.{seen, Known, AllKnown};
ghost use Rattle.go_stmts_defs.specs.Laying.{header_parts, loop_header, if_parts, switch_parts, for_parts};

use go_base::Memory;
use go_exprs_engine::layout::{behind_gap, push_held};
use go_grammar::kind::Kind;
use go_typed::{Form, TypedNode};
use go_types::Types;
use std::alloc::Global;

/// Typed parts, of which some may be left out.
type Parts = Vec<Option<TypedNode>>;

/// The parts of a node.
pub(crate) fn opened(types: &Types, node: TypedNode) -> Parts
    requires { Known (length types.now.shapes) node }
    ensures parts { map (option_map (seen types.now)) result.items ≡ list_of (parts_of (seen types.now node)) }
    ensures known { AllKnown (length types.now.shapes) result.items }
{
    let _types = types;
    node.parts
}

/// The part behind the place of one that isn't written.
fn gap_before(alloc: Global, types: &Types, part: Option<TypedNode>) -> Result<Parts, Memory>
    requires { AllKnown (length types.now.shapes) (part ∷ []) }
    ensures parts { IfOk result (λ ps. map (option_map (seen types.now)) ps.items ≡ None ∷ option_map (seen types.now) part ∷ []) }
    ensures known { IfOk result (λ ps. AllKnown (length types.now.shapes) ps.items) }
{
    let _types = types;
    let mut parts = Vec::new(alloc);
    parts.push(None)?;
    parts.push(part)?;
    Ok(parts)
}

/// first? condition, or first? tag?
fn header_parts(alloc: Global, types: &Types, header: Option<TypedNode>) -> Result<Parts, Memory>
    requires { AllKnown (length types.now.shapes) (header ∷ []) }
    ensures parts { IfOk result (λ ps. map (option_map (seen types.now)) ps.items ≡ header_parts (option_map (seen types.now) header)) }
    ensures known { IfOk result (λ ps. AllKnown (length types.now.shapes) ps.items) }
{
    let Some(node) = header else {
        return gap_before(alloc, types, None);
    };
    match node.form {
        Form::Held(Kind::LateCondition) => behind_gap(types, opened(types, node)),
        Form::Held(Kind::LateTag) => behind_gap(types, opened(types, node)),
        Form::Held(Kind::InitializedCondition) => Ok(opened(types, node)),
        Form::Held(Kind::InitializedTag) => Ok(opened(types, node)),
        _ => gap_before(alloc, types, Some(node)),
    }
}

/// first? condition? post?, or of a range clause targets.. operand
#[tactic(auto, using(crate::proofs::Appending::appended, crate::proofs::Appending::known_appended))]
fn loop_header(alloc: Global, types: &Types, header: Option<TypedNode>) -> Result<Parts, Memory>
    requires { AllKnown (length types.now.shapes) (header ∷ []) }
    ensures parts { IfOk result (λ ps. map (option_map (seen types.now)) ps.items ≡ loop_header (option_map (seen types.now) header)) }
    ensures known { IfOk result (λ ps. AllKnown (length types.now.shapes) ps.items) }
{
    match header {
        Some(node) if matches!(node.form, Form::Held(Kind::ForClause)) => {
            behind_gap(types, opened(types, node))
        }
        Some(node) if matches!(node.form, Form::Held(_)) => Ok(opened(types, node)),
        header => {
            let mut parts = gap_before(alloc, types, header)?;
            parts.push(None)?;
            Ok(parts)
        }
    }
}

/// The parts of an `if`.
pub(crate) fn if_parts(alloc: Global, types: &Types, mut parts: Parts) -> Result<Parts, Memory>
    requires { AllKnown (length types.now.shapes) parts.items }
    ensures parts { IfOk result (λ ps. map (option_map (seen types.now)) ps.items ≡ if_parts (map (option_map (seen types.now)) parts.items)) }
    ensures known { IfOk result (λ ps. AllKnown (length types.now.shapes) ps.items) }
{
    if parts.len() != 3 {
        return Ok(parts);
    }
    let (Some(last), Some(block), Some(header)) = (parts.pop(), parts.pop(), parts.pop()) else {
        return Ok(parts);
    };
    let mut out = header_parts(alloc, types, header)?;
    out.push(block)?;
    push_held(types, last, &mut out)?;
    Ok(out)
}

/// The parts of a `switch`.
#[tactic(auto, using(crate::proofs::Appending::appended, crate::proofs::Appending::known_appended))]
pub(crate) fn switch_parts(alloc: Global, types: &Types, mut parts: Parts) -> Result<Parts, Memory>
    requires { AllKnown (length types.now.shapes) parts.items }
    ensures parts { IfOk result (λ ps. map (option_map (seen types.now)) ps.items ≡ switch_parts (map (option_map (seen types.now)) parts.items)) }
    ensures known { IfOk result (λ ps. AllKnown (length types.now.shapes) ps.items) }
{
    if parts.is_empty() {
        return Ok(parts);
    }
    let header = parts.remove(0);
    let mut out = header_parts(alloc, types, header)?;
    out.append(&mut parts)?;
    Ok(out)
}

/// The parts of a loop.
#[tactic(auto, using(crate::proofs::Appending::appended, crate::proofs::Appending::known_appended))]
pub(crate) fn for_parts(alloc: Global, types: &Types, mut parts: Parts) -> Result<Parts, Memory>
    requires { AllKnown (length types.now.shapes) parts.items }
    ensures parts { IfOk result (λ ps. map (option_map (seen types.now)) ps.items ≡ for_parts (map (option_map (seen types.now)) parts.items)) }
    ensures known { IfOk result (λ ps. AllKnown (length types.now.shapes) ps.items) }
{
    if parts.is_empty() {
        return Ok(parts);
    }
    let header = parts.remove(0);
    let mut out = loop_header(alloc, types, header)?;
    out.append(&mut parts)?;
    Ok(out)
}
