//! The engine: the parts of a node are typed from left to right, each by what it is told, and then the node is built.
ghost use Rattle.std.specs.Prelude.{◌≡◌, ◌<◌, [], IfOk, length, map};
ghost use Rattle.std.specs.Option.{option_map};
ghost use Rattle.go_base.specs.Gives.{Gives};
ghost use Rattle.go_tree.specs.Views.{view, views};
ghost use Rattle.go_types_relations.specs.Extends.{Grows};
ghost use Rattle.go_typed.specs.Views.{seen, Known, AllKnown};
ghost use Rattle.go_exprs_rules.specs.Faults.{judged, reported, refusal_of};
ghost use Rattle.go_exprs_rules.specs.Seen.{AreBasics};
ghost use Rattle.go_exprs_rules.specs.Hints.{hint_seen, KnownHint};
ghost use Rattle.go_exprs_rules.specs.Typing.{typings, faults_of_parts, answer};
ghost use Rattle.go_exprs_types.specs.Naming.{names, text_in, KnownScope};
ghost use Rattle.go_exprs_engine.specs.Literals.{AllRead, PartsRead};

use crate::build::build;
use crate::told;
use go_exprs_rules::{Hint, Place, TypeError};
use go_exprs_types::Scope;
use go_grammar::kind::Kind;
use go_tree::node::Node;
use go_typed::TypedNode;
use go_types::Types;
use std::alloc::Global;

/// The typed tree of an expression or a type that is told this, or its reported fault: of the first node in post-order that has
/// one, by the least place and then the least code.
///
/// # Errors
///
/// The fault, or want of memory.
#[cycle(typing)]
pub fn type_node(
    alloc: Global,
    types: &mut Types,
    scope: &Scope<'_>,
    hint: Hint,
    node: &Node,
) -> Result<TypedNode, TypeError>
    requires scope { KnownScope (length types.old.shapes) scope.now }
    requires basics { AreBasics types.old scope.now.basics }
    requires hint { KnownHint (length types.old.shapes) hint }
    requires literals { AllRead (text_in scope.now) (view node.now) }
    ensures grows { Grows types.old types.new }
    ensures exact { Gives (seen types.new) refusal_of result (answer (names types.old scope.now) (hint_seen types.old hint) (view node.now)) }
    ensures known { IfOk result (Known (length types.new.shapes)) }
{
    types.count();
    let kind = node.kind();
    let first = node.first();
    let last = node.last();
    let place = Place { first, last };
    let parts = type_parts(alloc, types, scope, kind, hint, node.parts())?;
    build(alloc, types, scope, kind, hint, place, parts)
}

/// The typed parts of a node of the kind that is told this, or the reported fault of the first that has one.
#[cycle(typing)]
fn type_parts(
    alloc: Global,
    types: &mut Types,
    scope: &Scope<'_>,
    kind: Kind,
    hint: Hint,
    written: &[Option<Node>],
) -> Result<Vec<Option<TypedNode>>, TypeError>
    requires scope { KnownScope (length types.old.shapes) scope.now }
    requires basics { AreBasics types.old scope.now.basics }
    requires hint { KnownHint (length types.old.shapes) hint }
    requires literals { PartsRead (text_in scope.now) (views written.now) }
    ensures grows { Grows types.old types.new }
    ensures exact { let s = names types.old scope.now in let h = hint_seen types.old hint in let ps = views written.now in
        Gives (λ v. map (option_map (seen types.new)) v.items) refusal_of result (judged (reported (faults_of_parts s kind h ps [] ps)) (typings s kind h ps [] ps)) }
    ensures known { IfOk result (λ v. AllKnown (length types.new.shapes) v.items) }
{
    types.count();
    let mut parts = Vec::with_capacity(alloc, written.len())?;
    for place in written {
        let Some(node) = place else {
            parts.push(None)?;
            continue;
        };
        let inner = told::part_scope(types, scope, kind, &parts);
        let told = told::hint(types, kind, hint, written, &parts, node.kind());
        let part = type_node(alloc, types, &inner, told, node)?;
        parts.push(Some(part))?;
    }
    Ok(parts)
}
