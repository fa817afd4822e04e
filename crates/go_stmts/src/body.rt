//! Function declarations with their types (Go specification: Function declarations).
ghost use Rattle.std.specs.Prelude.{◌≡◌, ℕ, IfOk, OnOk, length};
ghost use Rattle.go_base.specs.Gives.{Gives};
ghost use Rattle.go_tree.specs.Views.{view};
ghost use Rattle.go_types.specs.Tables.{type_of, rights_of};
ghost use Rattle.go_types_relations.specs.Extends.{Extends};
ghost use Rattle.go_typed.specs.Contents.{func_content};
ghost use Rattle.go_exprs_rules.specs.Faults.{refusal_of};
ghost use Rattle.go_exprs_rules.specs.Scopes.{free};
ghost use Rattle.go_exprs_engine.specs.Literals.{AllRead};
ghost use Rattle.go_stmts_defs.specs.Bodies.{based, start, body_answer, body_answer_at};
ghost use Rattle.go_stmts_defs.specs.Reading.{reading};
ghost use Rattle.go_package_defs.specs.Bodies.{which_types, local_type};
ghost use Rattle.go_stmts.specs.State.{text_of, KnownSurroundings};
ghost use Rattle.go_stmts.specs.Walks.{frame_in};
ghost use Rattle.go_stmts.specs.Bodies.{scope_around, text_from, function_scope, KnownObjects, KnownFunction, AreNumbered, IsWalked, KnownWalked};

use crate::content::{function_of, no_locals};
use crate::own::own_types;
use crate::signature::signature;
use crate::{Enclosing, State, Surroundings, based, walk};
use go_exprs_rules::{Hint, TypeError};
use go_exprs_types::predeclared::basics;
use go_tokens::tokens::Tokens;
use go_tree::node::Node;
use go_tree::object::Declared;
use go_tree::uses::Uses;
use go_typed::{Env, Locals, Sort, TypedFunc, TypedNode};
use go_types::Types;
use std::alloc::Global;

/// The typed tree of a function, and what its locals stand for behind its body.
#[derive(Drop)]
pub(crate) struct Walked {
    pub(crate) root: TypedNode,
    pub(crate) locals: Locals,
}

/// The walk over a function of so many locals, or over a specification of variables, from its start.
pub(crate) fn walk_function(
    alloc: Global,
    types: &mut Types,
    surroundings: &Surroundings<'_>,
    count: usize,
    function: &Node,
) -> Result<Walked, TypeError>
    requires known { KnownSurroundings types.old surroundings.now }
    requires literals { AllRead (text_of surroundings.now) (view function.now) }
    ensures extends { Extends types.old types.new }
    ensures exact { (own : ℕ → ℕ) → AreNumbered types.old surroundings.now own →
        IsWalked types.new result (reading (start (scope_around types.old surroundings.now) count own) free (view function.now)) }
    ensures known { IfOk result (KnownWalked (length types.new.shapes)) }
    ensures around { IfOk result (λ w. KnownSurroundings types.new surroundings.now) }
{
    types.count();
    let locals = no_locals(alloc, count)?;
    let mut state = State {
        locals,
        source: None,
    };
    let tag = Sort::Unknown;
    let enclosing = Enclosing {
        tag: &tag,
        results: &[],
    };
    let root = walk(
        alloc,
        types,
        surroundings,
        &mut state,
        enclosing,
        Hint::Free,
        function,
    )?;
    Ok(Walked {
        root,
        locals: state.locals,
    })
}

/// The typed function of this number, of so many locals, whose tree counts its tokens from the function's first one; or the fault that is
/// reported, by these tokens. What surrounds it has the numbers of its own types.
///
/// # Errors
///
/// The fault, or want of memory, which is also answered as by `type_body`.
pub fn type_function(
    alloc: Global,
    types: &mut Types,
    surroundings: &Surroundings<'_>,
    number: u32,
    count: usize,
    function: &Node,
) -> Result<TypedFunc, TypeError>
    requires known { KnownSurroundings types.old surroundings.now }
    requires literals { AllRead (text_of surroundings.now) (view function.now) }
    ensures extends { Extends types.old types.new }
    ensures exact { (own : ℕ → ℕ) → AreNumbered types.old surroundings.now own →
        Gives (func_content (type_of types.new.shapes)) refusal_of result (body_answer (scope_around types.old surroundings.now) number count own (view function.now)) }
    ensures rights { (own : ℕ → ℕ) → AreNumbered types.old surroundings.now own →
        OnOk result (rights_of types.new ≡ (frame_in (reading (start (scope_around types.old surroundings.now) count own) free (view function.now))).around.rights) }
    ensures known { IfOk result (KnownFunction (length types.new.shapes)) }
{
    types.count();
    let signature = signature(alloc, types, surroundings, function);
    types.count();
    let Walked { root, locals } = walk_function(alloc, types, surroundings, count, function)?;
    let signature = signature?;
    let typed = function_of(
        alloc,
        types,
        surroundings,
        number,
        &signature,
        &locals,
        root,
        function.last(),
    )?;
    Ok(typed)
}

/// The typed function of this number and these locals, whose first token has the number `base` in its file; or the fault that is reported,
/// by tokens counted from that one: of the nodes in post-order the first one that has a rule that fails decides, by the least place and
/// then the least code (Go specification: Function declarations, Blocks).
///
/// The tokens are those of the file, of which `uses` says what each means; `env` says what the objects of the package stand for. The
/// function's own types get the next numbers of declared types, in the order of its locals, and behind the body the table has the right
/// sides that are read of it. Whatever is answered, the table of types only grows.
///
/// # Errors
///
/// The fault, or want of memory. `Memory` is also answered where a local that no resolved name declares as a type is declared as one, or
/// where a local type contains one that has no right side, which resolved names don't make.
pub fn type_body(
    alloc: Global,
    types: &mut Types,
    tokens: &Tokens,
    uses: &Uses,
    env: &Env,
    base: u32,
    number: u32,
    locals: &[Declared],
    function: &Node,
) -> Result<TypedFunc, TypeError>
    requires objects { KnownObjects (length types.old.shapes) env.now }
    requires literals { AllRead (text_from tokens.now base) (based base (view function.now)) }
    ensures extends { Extends types.old types.new }
    ensures exact { let bs = which_types locals.now in let s = function_scope types.old tokens.now uses.now env.now base bs in let own = local_type (length types.old.rights) bs in
        Gives (func_content (type_of types.new.shapes)) refusal_of result (body_answer_at base s number (length locals.now) own (view function.now)) }
    ensures rights { let bs = which_types locals.now in let s = function_scope types.old tokens.now uses.now env.now base bs in let own = local_type (length types.old.rights) bs in
        OnOk result (rights_of types.new ≡ (frame_in (reading (start s (length locals.now) own) free (based base (view function.now)))).around.rights) }
    ensures known { IfOk result (KnownFunction (length types.new.shapes)) }
{
    types.count();
    let function = based(alloc, base, function)?;
    let basics = basics(alloc, types)?;
    let own = own_types(alloc, types, locals)?;
    let surroundings = Surroundings {
        tokens,
        uses,
        env,
        basics,
        base,
        types: &own,
    };
    type_function(alloc, types, &surroundings, number, locals.len(), &function)
}
