//! A node over its typed parts, and what is known behind it.
ghost use Rattle.std.specs.Prelude.{◌≡◌, ℕ, false, None, IfOk, OnOk, length, map};
ghost use Rattle.std.specs.Option.{option_map};
ghost use Rattle.go_grammar.specs.declared.kind.Kind.TheVariants as kinds;
ghost use Rattle.go_grammar.specs.declared.kind.Sort.TheVariants as declaring;
ghost use Rattle.go_grammar.specs.Trees.{Trees};
ghost use Rattle.go_tree.specs.Views.{views};
ghost use Rattle.go_types_relations.specs.Extends.{Extends};
ghost use Rattle.go_typed.specs.Views.{seen, Known, AllKnown};
ghost use Rattle.go_exprs_rules.specs.Faults.{reported};
ghost use Rattle.go_exprs_engine.specs.Literals.{PartsRead};
ghost use Rattle.go_stmts_defs.specs.Frames.{Frame};
ghost use Rattle.go_stmts_defs.specs.Reading.{Found, all_read, closed};
ghost use Rattle.go_stmts.specs.Signatures.{results_or, is_type_specification};
ghost use Rattle.go_stmts.specs.State.{text_of, Shows, KnownState};
ghost use Rattle.go_stmts.specs.Walks.{IsReading, IsBefore};

use crate::building::build;
use crate::leaving::leave;
use crate::row::{Row, results_or};
use crate::type_specification::{declared_type, late_arrays, right_side, set_right, type_node};
use crate::{Enclosing, State, Surroundings};
use go_exprs_rules::{Place, TypeError};
use go_grammar::kind::{Kind, Sort as Declared};
use go_stmts_parts::late::late_fault;
use go_tree::node::Node;
use go_typed::TypedNode;
use go_types::Types;
use std::alloc::Global;

/// A statement or a declaration over its typed parts, but for a specification of a type.
fn finish_statement<'a>(
    alloc: Global,
    types: &Types,
    surroundings: &Surroundings<'_>,
    state: &mut State<'a>,
    enclosing: Enclosing<'_>,
    iota: u32,
    kind: Kind,
    place: Place,
    written: &'a [Option<Node>],
    row: Row,
) -> Result<TypedNode, TypeError>
    requires kind { is_type_specification kind ≡ false }
    requires inside { KnownState types.now surroundings.now state.old row.tag (results_or row.results enclosing.results.now) }
    requires known { KnownState types.now surroundings.now state.old enclosing.tag.now enclosing.results.now }
    requires parts { AllKnown (length types.now.shapes) row.parts.items }
    requires literals { PartsRead (text_of surroundings.now) (views written.now) }
    ensures exact { (b s : Frame) (fs : Found) → IsBefore types.now iota enclosing.entry.tag.now enclosing.entry.results.now b →
        Shows types.now surroundings.now state.old row.tag (results_or row.results enclosing.entry.results.now) s → reported fs ≡ None →
        IsReading types.now surroundings.now state.new enclosing.entry.tag.now enclosing.entry.results.now result
        (closed b kind place.first place.last (views written.now) (all_read (map (option_map (seen types.now)) row.parts.items) fs s)) }
    ensures known { OnOk result (KnownState types.now surroundings.now state.new enclosing.entry.tag.now enclosing.entry.results.now) }
    ensures node { IfOk result (Known (length types.now.shapes)) }
{
    let Row {
        parts,
        tag,
        results,
    } = row;
    let inside = Enclosing {
        tag: &tag,
        results: results_or(&results, enclosing.results),
    };
    let node = build(
        alloc,
        types,
        surroundings,
        state,
        inside,
        kind,
        place,
        parts,
    )?;
    state.locals.set_iota(iota);
    leave(types, state, kind, written, &node)?;
    Ok(node)
}

/// A specification of a type over its right side, which the table takes.
fn finish_type(
    alloc: Global,
    types: &mut Types,
    surroundings: &Surroundings<'_>,
    state: &mut State<'_>,
    enclosing: Enclosing<'_>,
    iota: u32,
    place: Place,
    row: Row,
) -> Result<TypedNode, TypeError>
    requires inside { KnownState types.old surroundings.now state.old row.tag (results_or row.results enclosing.results.now) }
    requires known { KnownState types.old surroundings.now state.old enclosing.tag.now enclosing.results.now }
    requires parts { AllKnown (length types.old.shapes) row.parts.items }
    ensures extends { Extends types.old types.new }
    ensures exact { (b s : Frame) (fs : Found) (ps : Trees) → IsBefore types.old iota enclosing.entry.tag.now enclosing.entry.results.now b →
        Shows types.old surroundings.now state.old row.tag (results_or row.results enclosing.entry.results.now) s → reported fs ≡ None →
        IsReading types.new surroundings.now state.new enclosing.entry.tag.now enclosing.entry.results.now result
        (closed b (kinds.Specification declaring.Type) place.first place.last ps (all_read (map (option_map (seen types.old)) row.parts.items) fs s)) }
    ensures known { OnOk result (KnownState types.new surroundings.now state.new enclosing.entry.tag.now enclosing.entry.results.now) }
    ensures node { IfOk result (Known (length types.new.shapes)) }
{
    types.count();
    let named = declared_type(types, surroundings, state, place.first)?;
    let right = right_side(types, &row.parts);
    let late = late_arrays(alloc, types, &row.parts)?;
    let node = type_node(alloc, types, surroundings, state, named, place, row.parts)?;
    set_right(types, named, right)?;
    if let Some(fault) = late_fault(types, &late) {
        return Err(TypeError::Fault(fault));
    }
    state.locals.set_iota(iota);
    Ok(node)
}

/// A node of the kind over its typed parts, and what is known behind it.
///
/// # Errors
///
/// The least fault of the rules of the node, or want of memory.
pub(crate) fn finish<'a>(
    alloc: Global,
    types: &mut Types,
    surroundings: &Surroundings<'_>,
    state: &mut State<'a>,
    enclosing: Enclosing<'_>,
    iota: u32,
    kind: Kind,
    place: Place,
    written: &'a [Option<Node>],
    row: Row,
) -> Result<TypedNode, TypeError>
    requires inside { KnownState types.old surroundings.now state.old row.tag (results_or row.results enclosing.results.now) }
    requires known { KnownState types.old surroundings.now state.old enclosing.tag.now enclosing.results.now }
    requires parts { AllKnown (length types.old.shapes) row.parts.items }
    requires literals { PartsRead (text_of surroundings.now) (views written.now) }
    ensures extends { Extends types.old types.new }
    ensures exact { (b s : Frame) (fs : Found) → IsBefore types.old iota enclosing.entry.tag.now enclosing.entry.results.now b →
        Shows types.old surroundings.now state.old row.tag (results_or row.results enclosing.entry.results.now) s → reported fs ≡ None →
        IsReading types.new surroundings.now state.new enclosing.entry.tag.now enclosing.entry.results.now result
        (closed b kind place.first place.last (views written.now) (all_read (map (option_map (seen types.old)) row.parts.items) fs s)) }
    ensures known { OnOk result (KnownState types.new surroundings.now state.new enclosing.entry.tag.now enclosing.entry.results.now) }
    ensures node { IfOk result (Known (length types.new.shapes)) }
{
    types.count();
    match kind {
        Kind::Specification(Declared::Type) => {
            finish_type(
                alloc,
                types,
                surroundings,
                state,
                enclosing,
                iota,
                place,
                row,
            )
        }
        _ => finish_statement(
            alloc,
            types,
            surroundings,
            state,
            enclosing,
            iota,
            kind,
            place,
            written,
            row,
        ),
    }
}
