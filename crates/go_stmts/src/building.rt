//! The typed node of a statement over its parts, and what is read where a part is left out.
ghost use Rattle.std.specs.Prelude.{◌≡◌, ℕ, List, [], ◌∷◌, false, IfOk, IfSome, length, map};
ghost use Rattle.std.specs.Option.{option_map};
ghost use Rattle.go_base.specs.Gives.{Gives};
ghost use Rattle.go_tree.specs.Views.{view};
ghost use Rattle.go_types_relations.specs.Extends.{Grows};
ghost use Rattle.go_typed.specs.Views.{seen, Known, AllKnown};
ghost use Rattle.go_typed.specs.declared.sort.Sort as program;
ghost use Rattle.go_typed.specs.Scopes.{KnownLocals};
ghost use Rattle.go_exprs_rules.specs.Faults.{least, judged, reported, refusal_of};
ghost use Rattle.go_exprs_engine.specs.Literals.{AllRead};
ghost use Rattle.go_stmts_defs.specs.Frames.{Frame};
ghost use Rattle.go_stmts_defs.specs.Reading.{repeated, repeated_faults, left_out, left_out_faults};
ghost use Rattle.go_stmts.specs.Signatures.{is_type_specification, failing_over, built_over};
ghost use Rattle.go_stmts.specs.State.{text_of, Shows, KnownSurroundings, KnownState};

use crate::state::{Enclosing, State, Surroundings, scope_of};
use crate::{hold, statement};
use go_exprs_rules::{Hint, Place, TypeError};
use go_grammar::kind::{Kind, Sort as Declared};
use go_stmts_parts::form::form;
use go_stmts_parts::layout::layout;
use go_stmts_rules::Around;
use go_typed::TypedNode;
use go_types::Types;
use std::alloc::Global;

/// The typed node of a statement or a declaration of the kind over its typed parts, or the least fault of its rules; a specification of
/// a type is made otherwise.
///
/// # Errors
///
/// The fault, or want of memory.
pub fn build(
    alloc: Global,
    types: &Types,
    surroundings: &Surroundings<'_>,
    state: &State<'_>,
    enclosing: Enclosing<'_>,
    kind: Kind,
    place: Place,
    parts: Vec<Option<TypedNode>>,
) -> Result<TypedNode, TypeError>
    requires kind { is_type_specification kind ≡ false }
    requires known { KnownState types.now surroundings.now state.now enclosing.tag.now enclosing.results.now }
    requires parts { AllKnown (length types.now.shapes) parts.items }
    ensures exact { (s : Frame) → Shows types.now surroundings.now state.now enclosing.entry.tag.now enclosing.entry.results.now s → let xs = map (option_map (seen types.now)) parts.items in
        Gives (seen types.now) refusal_of result (judged (least (failing_over s kind place.first place.last xs)) (built_over s kind place.first place.last xs)) }
    ensures known { IfOk result (Known (length types.now.shapes)) }
{
    let form = form(types, kind, &parts)?;
    let parts = layout(alloc, types, &state.locals, kind, parts)?;
    let around = Around {
        locals: &state.locals,
        tag: enclosing.tag,
        results: enclosing.results,
        basics: surroundings.basics,
    };
    statement(alloc, types, around, kind, form, place, parts)
}

/// What a specification of constants without values repeats.
fn repeat(
    alloc: Global,
    types: &mut Types,
    surroundings: &Surroundings<'_>,
    state: &State<'_>,
) -> Result<Option<TypedNode>, TypeError>
    requires surroundings { KnownSurroundings types.old surroundings.now }
    requires locals { KnownLocals (length types.old.shapes) state.now.locals }
    requires source { IfSome state.now.source (λ n. AllRead (text_of surroundings.now) (view n.now)) }
    ensures grows { Grows types.old types.new }
    ensures exact { (x : program.Sort) (rs : List ℕ) (s : Frame) → Shows types.old surroundings.now state.now x rs s →
        Gives (option_map (seen types.new)) refusal_of result (judged (reported (repeated_faults s s.source)) (repeated s s.source)) }
    ensures known { IfOk result (λ n. AllKnown (length types.new.shapes) (n ∷ [])) }
{
    types.count();
    let Some(source) = state.source else {
        return Ok(None);
    };
    let scope = scope_of(surroundings, &state.locals);
    Ok(Some(hold(alloc, types, &scope, Hint::Value, source)?))
}

/// What stands where a part of a node of the kind is left out: a specification of constants without values repeats the last one's
/// (Go specification: Constant declarations).
///
/// # Errors
///
/// The fault that is reported of it, or want of memory.
pub fn left_out(
    alloc: Global,
    types: &mut Types,
    surroundings: &Surroundings<'_>,
    state: &State<'_>,
    kind: Kind,
) -> Result<Option<TypedNode>, TypeError>
    requires surroundings { KnownSurroundings types.old surroundings.now }
    requires locals { KnownLocals (length types.old.shapes) state.now.locals }
    requires source { IfSome state.now.source (λ n. AllRead (text_of surroundings.now) (view n.now)) }
    ensures grows { Grows types.old types.new }
    ensures exact { (x : program.Sort) (rs : List ℕ) (s : Frame) → Shows types.old surroundings.now state.now x rs s →
        Gives (option_map (seen types.new)) refusal_of result (judged (reported (left_out_faults s kind)) (left_out s kind)) }
    ensures known { IfOk result (λ n. AllKnown (length types.new.shapes) (n ∷ [])) }
{
    types.count();
    match kind {
        Kind::Specification(Declared::Constant) => repeat(alloc, types, surroundings, state),
        _ => Ok(None),
    }
}
