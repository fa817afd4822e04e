//! The variables of a package with their types.
ghost use Rattle.std.specs.Prelude.{◌≡◌, [], IfOk, OnOk, length};
ghost use Rattle.go_base.specs.Gives.{Gives};
ghost use Rattle.go_tree.specs.Views.{view};
ghost use Rattle.go_types.specs.Tables.{rights_of};
ghost use Rattle.go_types_relations.specs.Extends.{Extends};
ghost use Rattle.go_typed.specs.Views.{seen, Known};
ghost use Rattle.go_exprs_rules.specs.Faults.{refusal_of};
ghost use Rattle.go_exprs_rules.specs.Scopes.{free};
ghost use Rattle.go_exprs_engine.specs.Literals.{AllRead};
ghost use Rattle.go_stmts_defs.specs.Bodies.{based, start};
ghost use Rattle.go_stmts_defs.specs.Reading.{reading};
ghost use Rattle.go_stmts.specs.Walks.{frame_in};
ghost use Rattle.go_stmts.specs.Bodies.{text_from, function_scope, KnownObjects, variables_answer};

use crate::body::walk_function;
use crate::{Surroundings, based};
use go_exprs_rules::TypeError;
use go_exprs_types::predeclared::basics;
use go_tokens::tokens::Tokens;
use go_tree::node::Node;
use go_tree::uses::Uses;
use go_typed::{Env, TypedNode};
use go_types::Types;
use std::alloc::Global;

/// The typed tree of a specification of variables of the package block, whose first token has the number `base` in its file; or the
/// fault that is reported, by tokens counted from that one (Go specification: Variable declarations).
///
/// The tokens are those of the file, of which `uses` says what each means; `env` says what the objects of the package stand for.
/// Whatever is answered, the table of types only grows, and behind the specification it has the right sides that are read of it.
///
/// # Errors
///
/// The fault, or want of memory, which is also answered as by `type_body`.
pub fn type_variables(
    alloc: Global,
    types: &mut Types,
    tokens: &Tokens,
    uses: &Uses,
    env: &Env,
    base: u32,
    specification: &Node,
) -> Result<TypedNode, TypeError>
    requires objects { KnownObjects (length types.old.shapes) env.now }
    requires literals { AllRead (text_from tokens.now base) (based base (view specification.now)) }
    ensures extends { Extends types.old types.new }
    ensures exact { let s = function_scope types.old tokens.now uses.now env.now base [] in
        Gives (seen types.new) refusal_of result (variables_answer (reading (start s 0 (λ n. n)) free (based base (view specification.now)))) }
    ensures rights { let s = function_scope types.old tokens.now uses.now env.now base [] in
        OnOk result (rights_of types.new ≡ (frame_in (reading (start s 0 (λ n. n)) free (based base (view specification.now)))).around.rights) }
    ensures known { IfOk result (Known (length types.new.shapes)) }
{
    types.count();
    let specification = based(alloc, base, specification)?;
    let basics = basics(alloc, types)?;
    let own = Vec::new(alloc);
    let surroundings = Surroundings {
        tokens,
        uses,
        env,
        basics,
        base,
        types: &own,
    };
    let walked = walk_function(alloc, types, &surroundings, 0, &specification)?;
    Ok(walked.root)
}
