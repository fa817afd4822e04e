//! The typed node of a statement.
ghost use Rattle.std.specs.Prelude.{◌≡◌, IfOk, length, map};
ghost use Rattle.std.specs.Option.{option_map};
ghost use Rattle.go_base.specs.Gives.{Gives};
ghost use Rattle.go_typed.specs.Views.{seen, Known, AllKnown};
ghost use Rattle.go_exprs_rules.specs.Faults.{least, judged, refusal_of};
ghost use Rattle.go_exprs_rules.specs.Seen.{AreBasics};
ghost use Rattle.go_stmts_defs.specs.Frames.{Frame};
ghost use Rattle.go_stmts_defs.specs.Rules.{judges};
ghost use Rattle.go_stmts_rules.specs.Told.{Agrees, KnownAround};
ghost use Rattle.go_stmts.specs.Nodes.{statement_faults, statement_node};

use crate::give::give_all;
use go_base::Memory;
use go_exprs_engine::label::{is_judged, label};
use go_exprs_rules::{Place, TypeError, TypeFault};
use go_grammar::kind::Kind;
use go_stmts_rules::{Around, fault, takings};
use go_typed::{Form, Sort, TypedNode};
use go_types::Types;
use std::alloc::Global;

/// Whether the node is judged: its parts are free of faults; a loop is, though its names may stand for nothing known.
fn judges(types: &Types, kind: Kind, parts: &[Option<TypedNode>]) -> bool
    ensures { result ≡ judges kind (map (option_map (seen types.now)) parts.now) }
{
    match kind {
        Kind::For => true,
        _ => is_judged(types, parts),
    }
}

/// The least fault of the rules of the statement, where it is judged.
fn own_fault(
    alloc: Global,
    types: &Types,
    around: Around<'_>,
    kind: Kind,
    form: Form,
    place: Place,
    parts: &[Option<TypedNode>],
) -> Result<Option<TypeFault>, Memory>
    requires basics { AreBasics types.now around.basics }
    requires around { KnownAround (length types.now.shapes) around }
    requires parts { AllKnown (length types.now.shapes) parts.now }
    ensures { (s : Frame) → Agrees types.now around.entry s → IfOk result (λ o. o ≡ least (statement_faults s kind form place.first place.last (map (option_map (seen types.now)) parts.now))) }
{
    if judges(types, kind, parts) {
        fault(alloc, types, around, kind, form, place, parts)
    } else {
        Ok(None)
    }
}

/// The statement over parts that take what it gives them.
fn fitted(
    alloc: Global,
    types: &Types,
    around: Around<'_>,
    kind: Kind,
    form: Form,
    place: Place,
    mut parts: Vec<Option<TypedNode>>,
) -> Result<TypedNode, Memory>
    requires basics { AreBasics types.now around.basics }
    requires around { KnownAround (length types.now.shapes) around }
    requires parts { AllKnown (length types.now.shapes) parts.items }
    ensures tree { (s : Frame) → Agrees types.now around.entry s → IfOk result (λ n. seen types.now n ≡ statement_node s kind form place.first place.last (map (option_map (seen types.now)) parts.items)) }
    ensures known { IfOk result (Known (length types.now.shapes)) }
{
    let label = label(types, form, Sort::Nothing, &parts);
    let takings = takings(alloc, types, around, kind, form, &parts)?;
    give_all(types, around.basics, &takings, &mut parts)?;
    Ok(TypedNode::new(form, place.first, place.last, label, parts))
}

/// The typed node of a statement or a declaration of this kind and form over its parts as they are laid out, or the least fault of
/// its rules; the rules of a type's right side are not among them (Go specification: Statements).
///
/// # Errors
///
/// The fault, or want of memory.
pub fn statement(
    alloc: Global,
    types: &Types,
    around: Around<'_>,
    kind: Kind,
    form: Form,
    place: Place,
    parts: Vec<Option<TypedNode>>,
) -> Result<TypedNode, TypeError>
    requires basics { AreBasics types.now around.basics }
    requires around { KnownAround (length types.now.shapes) around }
    requires parts { AllKnown (length types.now.shapes) parts.items }
    ensures exact { (s : Frame) → Agrees types.now around.entry s → let ys = map (option_map (seen types.now)) parts.items in
        Gives (seen types.now) refusal_of result (judged (least (statement_faults s kind form place.first place.last ys)) (statement_node s kind form place.first place.last ys)) }
    ensures known { IfOk result (Known (length types.now.shapes)) }
{
    if let Some(fault) = own_fault(alloc, types, around, kind, form, place, &parts)? {
        return Err(TypeError::Fault(fault));
    }
    Ok(fitted(alloc, types, around, kind, form, place, parts)?)
}
