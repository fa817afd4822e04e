//! The signature of a function (Go specification: Function declarations).
ghost use Rattle.std.specs.Prelude.{◌≡◌, ◌∷◌, [], ◌<◌, IfOk, length, unwrap_or};
ghost use Rattle.std.specs.Option.{option_map};
ghost use Rattle.go_tree.specs.Views.{view, views};
ghost use Rattle.go_types.specs.Tables.{type_of};
ghost use Rattle.go_types_relations.specs.Extends.{Grows};
ghost use Rattle.go_typed.specs.Views.{seen, Known, AllKnown};
ghost use Rattle.go_exprs_rules.specs.Scopes.{free};
ghost use Rattle.go_exprs_rules.specs.Seen.{AreBasics};
ghost use Rattle.go_exprs_rules.specs.TypeNodes.{part_type};
ghost use Rattle.go_exprs_rules.specs.Typing.{typing};
ghost use Rattle.go_exprs_engine.specs.Literals.{AllRead, PartsRead};
ghost use Rattle.go_stmts_defs.specs.Bodies.{no_function, signature_in, signature_part, signature_of};
ghost use Rattle.go_stmts.specs.State.{text_of, KnownSurroundings};
ghost use Rattle.go_stmts.specs.Bodies.{no_sorts, scope_around};

use crate::Surroundings;
use crate::state::scope_of;
use go_base::Memory;
use go_exprs_engine::engine::type_node;
use go_exprs_rules::nodes::sort_of;
use go_exprs_rules::{Basics, Hint};
use go_exprs_types::sequence::named_type;
use go_tree::node::Node;
use go_typed::{Locals, TypedNode};
use go_types::{TypeId, Types};
use std::alloc::Global;

/// The typed tree of a signature; `Memory` also where a rule fails in it.
fn signature_node(
    alloc: Global,
    types: &mut Types,
    surroundings: &Surroundings<'_>,
    locals: &Locals,
    node: &Node,
) -> Result<TypedNode, Memory>
    requires known { KnownSurroundings types.old surroundings.now }
    requires locals { locals.now ≡ no_sorts }
    requires literals { AllRead (text_of surroundings.now) (view node.now) }
    ensures grows { Grows types.old types.new }
    ensures tree { IfOk result (λ n. seen types.new n ≡ typing (scope_around types.old surroundings.now) free (view node.now)) }
    ensures known { IfOk result (Known (length types.new.shapes)) }
{
    types.count();
    let scope = scope_of(surroundings, locals);
    match type_node(alloc, types, &scope, Hint::Free, node) {
        Ok(typed) => Ok(typed),
        Err(_) => Err(Memory),
    }
}

/// The typed tree of the first of some parts, if it is there.
fn first_typed(
    alloc: Global,
    types: &mut Types,
    surroundings: &Surroundings<'_>,
    locals: &Locals,
    parts: &[Option<Node>],
) -> Result<Option<TypedNode>, Memory>
    requires known { KnownSurroundings types.old surroundings.now }
    requires locals { locals.now ≡ no_sorts }
    requires literals { PartsRead (text_of surroundings.now) (views parts.now) }
    ensures grows { Grows types.old types.new }
    ensures tree { IfOk result (λ o. option_map (seen types.new) o ≡ signature_part (scope_around types.old surroundings.now) (signature_in (views parts.now))) }
    ensures known { IfOk result (λ o. AllKnown (length types.new.shapes) (o ∷ [])) }
{
    types.count();
    match parts {
        [Some(node), ..] => {
            let typed = signature_node(alloc, types, surroundings, locals, node)?;
            Ok(Some(typed))
        }
        _ => Ok(None),
    }
}

/// The typed signature of a function, in the scope around it.
///
/// # Errors
///
/// Want of memory; also where a rule fails in the signature, which the walk over the function reports.
pub(crate) fn signature(
    alloc: Global,
    types: &mut Types,
    surroundings: &Surroundings<'_>,
    function: &Node,
) -> Result<Option<TypedNode>, Memory>
    requires known { KnownSurroundings types.old surroundings.now }
    requires literals { AllRead (text_of surroundings.now) (view function.now) }
    ensures grows { Grows types.old types.new }
    ensures tree { IfOk result (λ o. option_map (seen types.new) o ≡ signature_of (scope_around types.old surroundings.now) (view function.now)) }
    ensures known { IfOk result (λ o. AllKnown (length types.new.shapes) (o ∷ [])) }
{
    types.count();
    let locals = Locals::new(Vec::new(alloc), 0);
    first_typed(alloc, types, surroundings, &locals, function.parts())
}

/// The type of a function; that of one without parameters and results where its signature has none.
pub(crate) fn signature_type(types: &Types, basics: Basics, signature: &Option<TypedNode>) -> TypeId
    requires signature { AllKnown (length types.now.shapes) (signature.now ∷ []) }
    requires basics { AreBasics types.now basics }
    ensures known { result < length types.now.shapes }
    ensures tree { type_of types.now.shapes result ≡ unwrap_or (part_type (option_map (seen types.now) signature.now)) no_function }
{
    let Some(node) = signature else {
        return basics.procedure;
    };
    match named_type(types, sort_of(types, node)) {
        Some(of) => of,
        None => basics.procedure,
    }
}
