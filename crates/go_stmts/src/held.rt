//! The parts of such nodes are typed from left to right, and then the node is made.
ghost use Rattle.std.specs.Prelude.{◌≡◌, [], IfOk, length, map};
ghost use Rattle.std.specs.Option.{option_map};
ghost use Rattle.go_base.specs.Gives.{Gives};
ghost use Rattle.go_tree.specs.Views.{view, views};
ghost use Rattle.go_types_relations.specs.Extends.{Grows};
ghost use Rattle.go_typed.specs.Views.{seen, Known, AllKnown};
ghost use Rattle.go_exprs_rules.specs.Faults.{refusal_of};
ghost use Rattle.go_exprs_rules.specs.Hints.{hint_seen, KnownHint};
ghost use Rattle.go_exprs_rules.specs.Seen.{AreBasics};
ghost use Rattle.go_exprs_types.specs.Naming.{text_in, KnownScope};
ghost use Rattle.go_exprs_engine.specs.Literals.{AllRead, PartsRead};
ghost use Rattle.go_stmts_defs.specs.Frames.{Frame};
ghost use Rattle.go_stmts.specs.Held.{HasScope, held_answer, left};

use crate::held_nodes::{is_declared_name, is_list, list_node, name_node};
use go_exprs_engine::engine::type_node;
use go_exprs_rules::{Hint, Place, TypeError};
use go_exprs_types::Scope;
use go_grammar::kind::Kind;
use go_stmts_parts::told::told;
use go_tree::node::Node;
use go_typed::TypedNode;
use go_types::Types;
use std::alloc::Global;

/// The typed tree of a part without statements that is told this, or its reported fault: of the first node in post-order that has
/// one, by the least place and then the least code.
///
/// # Errors
///
/// The fault, or want of memory.
#[cycle(holding)]
pub fn hold(
    alloc: Global,
    types: &mut Types,
    scope: &Scope<'_>,
    hint: Hint,
    node: &Node,
) -> Result<TypedNode, TypeError>
    requires scope { KnownScope (length types.old.shapes) scope.now }
    requires basics { AreBasics types.old scope.now.basics }
    requires hint { KnownHint (length types.old.shapes) hint }
    requires literals { AllRead (text_in scope.now) (view node.now) }
    ensures grows { Grows types.old types.new }
    ensures exact { (s : Frame) → HasScope types.old scope.now s → Gives (seen types.new) refusal_of result (held_answer s (hint_seen types.old hint) (view node.now)) }
    ensures known { IfOk result (Known (length types.new.shapes)) }
{
    types.count();
    let kind = node.kind();
    let first = node.first();
    let last = node.last();
    let place = Place { first, last };
    if is_list(kind) {
        let parts = hold_parts(alloc, types, scope, kind, hint, node.parts())?;
        return Ok(list_node(alloc, types, scope.locals, kind, place, parts)?);
    }
    if is_declared_name(kind) {
        return Ok(name_node(alloc, types, scope, place));
    }
    type_node(alloc, types, scope, hint, node)
}

/// The typed parts of a node of the kind that is told this, or the reported fault of the first that has one.
#[cycle(holding)]
fn hold_parts(
    alloc: Global,
    types: &mut Types,
    scope: &Scope<'_>,
    kind: Kind,
    hint: Hint,
    written: &[Option<Node>],
) -> Result<Vec<Option<TypedNode>>, TypeError>
    requires scope { KnownScope (length types.old.shapes) scope.now }
    requires basics { AreBasics types.old scope.now.basics }
    requires hint { KnownHint (length types.old.shapes) hint }
    requires literals { PartsRead (text_in scope.now) (views written.now) }
    ensures grows { Grows types.old types.new }
    ensures exact { (s : Frame) → HasScope types.old scope.now s →
        Gives (λ v. map (option_map (seen types.new)) v.items) refusal_of result (left s kind (hint_seen types.old hint) (views written.now) [] (views written.now)) }
    ensures known { IfOk result (λ v. AllKnown (length types.new.shapes) v.items) }
{
    types.count();
    let mut parts = Vec::with_capacity(alloc, written.len())?;
    for place in written {
        let Some(node) = place else {
            parts.push(None)?;
            continue;
        };
        let told = told(types, kind, hint, written, &parts, node.kind());
        let part = hold(alloc, types, scope, told, node)?;
        parts.push(Some(part))?;
    }
    Ok(parts)
}
