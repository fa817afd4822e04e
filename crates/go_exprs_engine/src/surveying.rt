//! The engine of go_exprs_engine where a fault doesn't end it.
ghost use Rattle.std.specs.Prelude.{◌≡◌, ◌<◌, [], IfOk, length, map};
ghost use Rattle.std.specs.Option.{option_map};
ghost use Rattle.go_tree.specs.Views.{view, views};
ghost use Rattle.go_types_relations.specs.Extends.{Grows};
ghost use Rattle.go_typed.specs.Views.{seen, Known, AllKnown};
ghost use Rattle.go_exprs_rules.specs.Faults.{least, joined};
ghost use Rattle.go_exprs_rules.specs.Seen.{AreBasics};
ghost use Rattle.go_exprs_rules.specs.Hints.{hint_seen, KnownHint};
ghost use Rattle.go_exprs_rules.specs.Typing.{typing, typings, faults, faults_of_parts};
ghost use Rattle.go_exprs_types.specs.Naming.{names, text_in, KnownScope};
ghost use Rattle.go_exprs_engine.specs.Literals.{AllRead, PartsRead};

use crate::survey_nodes::{Survey, build};
use crate::told;
use go_base::Memory;
use go_exprs_rules::fault::earlier;
use go_exprs_rules::{Hint, Place, TypeFault};
use go_exprs_types::Scope;
use go_grammar::kind::Kind;
use go_tree::node::Node;
use go_typed::TypedNode;
use go_types::Types;
use std::alloc::Global;

/// The parts of a node, and the least fault in them, if there is one.
#[derive(Debug, Drop)]
struct SurveyedParts {
    parts: Vec<Option<TypedNode>>,
    fault: Option<TypeFault>,
}

/// The typed tree of an expression or a type that is told this, in which each node with a fault stands for nothing known, and the
/// least of all its faults, by place and then by code. A node is judged where its parts are free of faults.
///
/// # Errors
///
/// Want of memory.
#[cycle(survey)]
pub fn survey(
    alloc: Global,
    types: &mut Types,
    scope: &Scope<'_>,
    hint: Hint,
    node: &Node,
) -> Result<Survey, Memory>
    requires scope { KnownScope (length types.old.shapes) scope.now }
    requires basics { AreBasics types.old scope.now.basics }
    requires hint { KnownHint (length types.old.shapes) hint }
    requires literals { AllRead (text_in scope.now) (view node.now) }
    ensures grows { Grows types.old types.new }
    ensures tree { IfOk result (λ w. seen types.new w.node ≡ typing (names types.old scope.now) (hint_seen types.old hint) (view node.now)) }
    ensures fault { IfOk result (λ w. w.fault ≡ least (joined (faults (names types.old scope.now) (hint_seen types.old hint) (view node.now)))) }
    ensures known { IfOk result (λ w. Known (length types.new.shapes) w.node) }
{
    types.count();
    let kind = node.kind();
    let first = node.first();
    let last = node.last();
    let typed = survey_parts(alloc, types, scope, kind, hint, node.parts())?;
    let one = build(
        alloc,
        types,
        scope,
        kind,
        hint,
        Place { first, last },
        typed.parts,
    )?;
    Ok(Survey {
        node: one.node,
        fault: earlier(typed.fault, one.fault),
    })
}

/// The typed parts of a node of the kind that is told this, and the least of all their faults.
#[cycle(survey)]
fn survey_parts(
    alloc: Global,
    types: &mut Types,
    scope: &Scope<'_>,
    kind: Kind,
    hint: Hint,
    written: &[Option<Node>],
) -> Result<SurveyedParts, Memory>
    requires scope { KnownScope (length types.old.shapes) scope.now }
    requires basics { AreBasics types.old scope.now.basics }
    requires hint { KnownHint (length types.old.shapes) hint }
    requires literals { PartsRead (text_in scope.now) (views written.now) }
    ensures grows { Grows types.old types.new }
    ensures parts { let ps = views written.now in
        IfOk result (λ w. map (option_map (seen types.new)) w.parts.items ≡ typings (names types.old scope.now) kind (hint_seen types.old hint) ps [] ps) }
    ensures fault { let ps = views written.now in
        IfOk result (λ w. w.fault ≡ least (joined (faults_of_parts (names types.old scope.now) kind (hint_seen types.old hint) ps [] ps))) }
    ensures known { IfOk result (λ w. AllKnown (length types.new.shapes) w.parts.items) }
{
    types.count();
    let mut parts = Vec::new(alloc);
    let mut fault = None;
    for place in written {
        let Some(node) = place else {
            parts.push(None)?;
            continue;
        };
        let inner = told::part_scope(types, scope, kind, &parts);
        let told = told::hint(types, kind, hint, written, &parts, node.kind());
        let one = survey(alloc, types, &inner, told, node)?;
        fault = earlier(fault, one.fault);
        parts.push(Some(one.node))?;
    }
    Ok(SurveyedParts { parts, fault })
}
