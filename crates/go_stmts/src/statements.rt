//! The walk: a node's parts from left to right, each in what is known where it begins, and then the node.
ghost use Rattle.std.specs.Prelude.{◌≡◌, false, IfOk, OnOk, length};
ghost use Rattle.go_grammar.specs.Trees.{kind_of};
ghost use Rattle.go_tree.specs.Views.{view, views};
ghost use Rattle.go_types_relations.specs.Extends.{Grows, Extends};
ghost use Rattle.go_typed.specs.Views.{seen, Known, AllKnown};
ghost use Rattle.go_exprs_rules.specs.Hints.{hint_seen, KnownHint};
ghost use Rattle.go_exprs_engine.specs.Literals.{AllRead, PartsRead};
ghost use Rattle.go_stmts_defs.specs.Frames.{Frame};
ghost use Rattle.go_stmts_defs.specs.Reading.{is_statement, reading, readings};
ghost use Rattle.std.specs.Prelude.{[]};
ghost use Rattle.go_stmts.specs.Signatures.{results_or};
ghost use Rattle.go_stmts.specs.State.{text_of, Shows, KnownState};
ghost use Rattle.go_stmts.specs.Walks.{IsReading, AreReadings};

use crate::beginning::begin;
use crate::building::left_out;
use crate::entering::enter;
use crate::finish::finish;
use crate::row::{Row, results_or};
use crate::state::scope_of;
use crate::{Enclosing, State, Surroundings, hold};
use go_exprs_rules::{Hint, Place, TypeError};
use go_grammar::kind::Kind;
use go_stmts_parts::told::told;
use go_tree::node::Node;
use go_typed::TypedNode;
use go_types::Types;
use std::alloc::Global;

/// Statements, declarations, and the nodes that hold statements.
fn is_statement(kind: Kind) -> bool
    ensures { result ≡ is_statement kind }
{
    match kind {
        Kind::FunctionDeclaration => true,
        Kind::Declaration(_) => true,
        Kind::Group(_) => true,
        Kind::Specification(_) => true,
        Kind::Block => true,
        Kind::Return => true,
        Kind::Break => true,
        Kind::Continue => true,
        Kind::Fallthrough => true,
        Kind::ExpressionStatement => true,
        Kind::StepStatement(_) => true,
        Kind::Assignment => true,
        Kind::OperatorAssignment(_) => true,
        Kind::Define => true,
        Kind::If => true,
        Kind::Else => true,
        Kind::LateCondition => true,
        Kind::InitializedCondition => true,
        Kind::Switch => true,
        Kind::LateTag => true,
        Kind::InitializedTag => true,
        Kind::Case => true,
        Kind::Default => true,
        Kind::For => true,
        Kind::ForClause => true,
        Kind::InitializedForClause => true,
        Kind::Range => true,
        Kind::AssigningRange => true,
        Kind::DefiningRange => true,
        _ => false,
    }
}

/// The typed tree of a part without statements; what is known stays.
fn hold_part(
    alloc: Global,
    types: &mut Types,
    surroundings: &Surroundings<'_>,
    state: &State<'_>,
    enclosing: Enclosing<'_>,
    hint: Hint,
    node: &Node,
) -> Result<TypedNode, TypeError>
    requires known { KnownState types.old surroundings.now state.now enclosing.tag.now enclosing.results.now }
    requires hint { KnownHint (length types.old.shapes) hint }
    requires literals { AllRead (text_of surroundings.now) (view node.now) }
    requires kind { is_statement (kind_of (view node.now)) ≡ false }
    ensures grows { Grows types.old types.new }
    ensures exact { (s : Frame) → Shows types.old surroundings.now state.now enclosing.entry.tag.now enclosing.entry.results.now s →
        IsReading types.new surroundings.now state.now enclosing.entry.tag.now enclosing.entry.results.now result (reading s (hint_seen types.old hint) (view node.now)) }
    ensures node { IfOk result (Known (length types.new.shapes)) }
{
    let _enclosing = enclosing;
    types.count();
    let scope = scope_of(surroundings, &state.locals);
    hold(alloc, types, &scope, hint, node)
}

/// The typed tree of a part of a body that is told this, and what is known behind it; or the fault that is reported: of the nodes in
/// post-order the first one that has a rule that fails decides, by the least place and then the least code (Go specification:
/// Statements, Declarations and scope).
///
/// # Errors
///
/// The fault, or want of memory. `Memory` is also answered where a local that no resolved name declares as a type is declared as one,
/// or where a local type contains one that has no right side, which resolved names don't make.
#[cycle(walking)]
pub fn walk<'a>(
    alloc: Global,
    types: &mut Types,
    surroundings: &Surroundings<'_>,
    state: &mut State<'a>,
    enclosing: Enclosing<'_>,
    hint: Hint,
    node: &'a Node,
) -> Result<TypedNode, TypeError>
    requires known { KnownState types.old surroundings.now state.old enclosing.tag.now enclosing.results.now }
    requires hint { KnownHint (length types.old.shapes) hint }
    requires literals { AllRead (text_of surroundings.now) (view node.now) }
    ensures extends { Extends types.old types.new }
    ensures exact { (s : Frame) → Shows types.old surroundings.now state.old enclosing.entry.tag.now enclosing.entry.results.now s →
        IsReading types.new surroundings.now state.new enclosing.entry.tag.now enclosing.entry.results.now result (reading s (hint_seen types.old hint) (view node.now)) }
    ensures known { OnOk result (KnownState types.new surroundings.now state.new enclosing.entry.tag.now enclosing.entry.results.now) }
    ensures node { IfOk result (Known (length types.new.shapes)) }
{
    types.count();
    let kind = node.kind();
    if !is_statement(kind) {
        return hold_part(alloc, types, surroundings, state, enclosing, hint, node);
    }
    let place = Place {
        first: node.first(),
        last: node.last(),
    };
    let iota = state.locals.iota();
    begin(types, surroundings, state, kind, place.first)?;
    let parts = node.parts();
    let row = walk_parts(
        alloc,
        types,
        surroundings,
        state,
        enclosing,
        kind,
        hint,
        parts,
    )?;
    finish(
        alloc,
        types,
        surroundings,
        state,
        enclosing,
        iota,
        kind,
        place,
        parts,
        row,
    )
}

/// The typed parts of a node of the kind that is told this, and what is known behind them; or the reported fault of the first that has
/// one.
#[cycle(walking)]
fn walk_parts<'a>(
    alloc: Global,
    types: &mut Types,
    surroundings: &Surroundings<'_>,
    state: &mut State<'a>,
    enclosing: Enclosing<'_>,
    kind: Kind,
    hint: Hint,
    written: &'a [Option<Node>],
) -> Result<Row, TypeError>
    requires known { KnownState types.old surroundings.now state.old enclosing.tag.now enclosing.results.now }
    requires hint { KnownHint (length types.old.shapes) hint }
    requires literals { PartsRead (text_of surroundings.now) (views written.now) }
    ensures extends { Extends types.old types.new }
    ensures exact { (s : Frame) → Shows types.old surroundings.now state.old enclosing.entry.tag.now enclosing.entry.results.now s →
        AreReadings types.new surroundings.now state.new enclosing.entry.results.now result (readings s kind (hint_seen types.old hint) (views written.now) [] [] (views written.now)) }
    ensures known { IfOk result (λ w. KnownState types.new surroundings.now state.new w.tag (results_or w.results enclosing.entry.results.now)) }
    ensures outer { OnOk result (KnownState types.new surroundings.now state.new enclosing.entry.tag.now enclosing.entry.results.now) }
    ensures parts { IfOk result (λ w. AllKnown (length types.new.shapes) w.parts.items) }
{
    types.count();
    let mut parts = Vec::with_capacity(alloc, written.len())?;
    let mut tag = enclosing.tag.shared()?;
    let mut results = None;
    for place in written {
        types.count();
        enter(
            alloc,
            types,
            surroundings.basics,
            state,
            &mut tag,
            &mut results,
            kind,
            &parts,
        )?;
        let Some(node) = place else {
            parts.push(left_out(alloc, types, surroundings, state, kind)?)?;
            continue;
        };
        let told = told(types, kind, hint, written, &parts, node.kind());
        let inside = Enclosing {
            tag: &tag,
            results: results_or(&results, enclosing.results),
        };
        let part = walk(alloc, types, surroundings, state, inside, told, node)?;
        parts.push(Some(part))?;
    }
    Ok(Row {
        parts,
        tag,
        results,
    })
}
