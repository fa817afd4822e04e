//! Nodes over parts that are typed.
ghost use Rattle.std.specs.Prelude.{◌≡◌, ℕ, [], IfOk, true, length, map};
ghost use Rattle.std.specs.Option.{option_map};
ghost use Rattle.go_typed.specs.Views.{seen, Known, AllKnown};
ghost use Rattle.go_typed.specs.Scopes.{KnownLocals};
ghost use Rattle.go_exprs_types.specs.Naming.{names, locals_seen, KnownScope};
ghost use Rattle.go_stmts_defs.specs.Frames.{Frame};
ghost use Rattle.go_stmts_defs.specs.Laying.{layout};
ghost use Rattle.go_stmts_defs.specs.Reading as reading;
ghost use Rattle.go_stmts.specs.Held.{HasScope};

use go_base::Memory;
use go_exprs_engine::label::label;
use go_exprs_rules::{Hint, Place};
use go_exprs_types::Scope;
use go_exprs_types::forms::name_form;
use go_grammar::kind::Kind;
use go_stmts_parts::layout::layout;
use go_typed::{Form, Locals, Sort, TypedNode};
use go_types::Types;
use std::alloc::Global;

/// Typed parts, of which some may be left out.
type Parts = Vec<Option<TypedNode>>;

/// Whether nodes of the kind only hold names or expressions.
pub(crate) fn is_list(kind: Kind) -> bool
    ensures { result ≡ reading.is_list kind }
{
    match kind {
        Kind::NameList
        | Kind::NewNames
        | Kind::Targets
        | Kind::ExpressionList
        | Kind::TypedValues
        | Kind::Values => true,
        _ => false,
    }
}

pub(crate) fn is_declared_name(kind: Kind) -> bool
    ensures { result ≡ reading.is_declared_name kind }
{
    matches!(kind, Kind::DeclaredName)
}

/// The parts of such a node as they are laid out.
fn list_parts(
    alloc: Global,
    types: &Types,
    locals: &Locals,
    kind: Kind,
    parts: Parts,
) -> Result<Parts, Memory>
    requires list { reading.is_list kind ≡ true }
    requires locals { KnownLocals (length types.now.shapes) locals.now }
    requires parts { AllKnown (length types.now.shapes) parts.items }
    ensures parts { IfOk result (λ ps. (s : Frame) (i : ℕ) → s.locals ≡ locals_seen types.now locals.now.sorts → map (option_map (seen types.now)) ps.items ≡ layout s kind i (map (option_map (seen types.now)) parts.items)) }
    ensures known { IfOk result (λ ps. AllKnown (length types.now.shapes) ps.items) }
{
    match kind {
        Kind::NewNames => layout(alloc, types, locals, Kind::NewNames, parts),
        Kind::Targets => layout(alloc, types, locals, Kind::Targets, parts),
        Kind::TypedValues => layout(alloc, types, locals, Kind::TypedValues, parts),
        Kind::Values => layout(alloc, types, locals, Kind::Values, parts),
        _ => Ok(parts),
    }
}

/// The node over its typed parts.
///
/// # Errors
///
/// Want of memory.
pub(crate) fn list_node(
    alloc: Global,
    types: &Types,
    locals: &Locals,
    kind: Kind,
    place: Place,
    parts: Parts,
) -> Result<TypedNode, Memory>
    requires list { reading.is_list kind ≡ true }
    requires locals { KnownLocals (length types.now.shapes) locals.now }
    requires parts { AllKnown (length types.now.shapes) parts.items }
    ensures tree { IfOk result (λ n. (s : Frame) → s.locals ≡ locals_seen types.now locals.now.sorts →
        seen types.now n ≡ reading.list_node s kind place.first place.last (layout s kind place.first (map (option_map (seen types.now)) parts.items))) }
    ensures known { IfOk result (Known (length types.now.shapes)) }
{
    let parts = list_parts(alloc, types, locals, kind, parts)?;
    let form = Form::Held(kind);
    let label = label(types, form, Sort::Nothing, &parts);
    Ok(TypedNode::new(form, place.first, place.last, label, parts))
}

/// The node of a name that is declared.
pub(crate) fn name_node(alloc: Global, types: &Types, scope: &Scope<'_>, place: Place) -> TypedNode
    requires scope { KnownScope (length types.now.shapes) scope.now }
    ensures tree { (s : Frame) → HasScope types.now scope.now s → seen types.now result ≡ reading.name_node s place.first place.last }
    ensures known { Known (length types.now.shapes) result }
{
    let form = name_form(types, scope, Hint::Declares, place.first);
    let parts = Vec::new(alloc);
    let label = label(types, form, Sort::Nothing, &parts);
    TypedNode::new(form, place.first, place.last, label, parts)
}
