//! Expressions of a file.

ghost use Rattle.std.specs.Prelude.{◌≡◌, IfOk, length};
ghost use Rattle.std.specs.Option.{option_map};
ghost use Rattle.go_base.specs.Gives.{Gives};
ghost use Rattle.go_tree.specs.Units.{word};
ghost use Rattle.go_tree.specs.Views.{view};
ghost use Rattle.go_types.specs.Tables.{Table};
ghost use Rattle.go_types_relations.specs.Extends.{Extends, Grows};
ghost use Rattle.go_typed.specs.Views.{seen, Known};
ghost use Rattle.go_exprs_rules.specs.Faults.{refusal_of};
ghost use Rattle.go_exprs_rules.specs.Seen.{AreBasics};
ghost use Rattle.go_exprs_types.specs.Naming.{names, text_in, KnownScope};
ghost use Rattle.go_exprs_engine.specs.Literals.{AllRead};
ghost use Rattle.go_exprs.specs.Contexts.{answer_in, context_seen, KnownContext};
ghost use Rattle.go_exprs.specs.Expressions.{scope_of, KnownNames, failure_at, with_bytes, failure_named};

use crate::context::{Context, refused, taken};
use crate::error::TypeError;
use go_base::Fault;
use go_exprs_engine::engine::type_node;
use go_exprs_engine::settle::give;
use go_exprs_rules::{Hint, TypeError as TokenError};
use go_exprs_types::Scope;
use go_exprs_types::predeclared::basics;
use go_scopes_lookup::unit::bytes_of;
use go_tokens::tokens::Tokens;
use go_tree::node::Node;
use go_tree::uses::Uses;
use go_typed::{Env, Locals, TypedNode};
use go_types::Types;
use std::alloc::Global;

/// The typed tree of an expression in its context, with its final types, or the fault that is reported, by its tokens.
///
/// # Errors
///
/// The fault, or want of memory.
pub fn type_in(
    alloc: Global,
    types: &mut Types,
    scope: &Scope<'_>,
    context: Context,
    node: &Node,
) -> Result<TypedNode, TokenError>
    requires scope { KnownScope (length types.old.shapes) scope.now }
    requires basics { AreBasics types.old scope.now.basics }
    requires context { KnownContext (length types.old.shapes) context }
    requires literals { AllRead (text_in scope.now) (view node.now) }
    ensures grows { Grows types.old types.new }
    ensures exact { Gives (seen types.new) refusal_of result (answer_in (names types.old scope.now) (context_seen types.old context) (view node.now)) }
    ensures known { IfOk result (Known (length types.new.shapes)) }
{
    types.count();
    let mut typed = type_node(alloc, types, scope, Hint::Value, node)?;
    if let Some(fault) = refused(types, scope.basics, context, &typed) {
        return Err(TokenError::Fault(fault));
    }
    let take = taken(types, scope.basics, context);
    give(types, scope.basics, take, &mut typed)?;
    Ok(typed)
}

/// The error with its fault by the bytes of the file.
fn placed(tokens: &Tokens, error: TokenError) -> TypeError
    ensures { failure_named result ≡ option_map (failure_at tokens.now) (refusal_of error) }
{
    match error {
        TokenError::Fault(fault) => TypeError::Fault(Fault {
            code: fault.code,
            span: bytes_of(tokens.file(), tokens, fault.first, fault.last),
        }),
        TokenError::Memory => TypeError::Memory,
    }
}

/// The typed tree of an expression of a file in its context, with its final types (Go specification, "Expressions", "Constants").
/// What untyped values have no type of takes the type that the context wants, or else its default type.
///
/// The tokens are those of the file, of which `uses` says what each means; `env` and `locals` say what the objects stand for. Types
/// that the expression makes are added to the table, whatever is answered; those that are there stay, and none is declared.
///
/// # Errors
///
/// `Fault` where a rule fails in the expression, or its context refuses it: of the first node in post-order with a rule that fails,
/// the fault at the least place, and of several there that with the least code; the context is judged last. `Memory` where memory
/// ran out.
pub fn type_expr(
    alloc: Global,
    tokens: &Tokens,
    env: &Env,
    uses: &Uses,
    locals: &Locals,
    types: &mut Types,
    expression: &Node,
    context: Context,
) -> Result<TypedNode, TypeError>
    requires names { KnownNames (length types.old.shapes) env.now locals.now }
    requires context { KnownContext (length types.old.shapes) context }
    requires literals { AllRead (word tokens.now) (view expression.now) }
    ensures grows { Grows types.old types.new }
    ensures exact { let s = scope_of types.old tokens.now uses.now env.now locals.now in
        (t : Table) → Extends types.new t → Gives (seen t) failure_named result (with_bytes tokens.now (answer_in s (context_seen types.old context) (view expression.now))) }
    ensures known { IfOk result (Known (length types.new.shapes)) }
{
    types.count();
    let basics = basics(alloc, types)?;
    let scope = Scope::of_body(tokens, uses, env, locals, basics, 0);
    match type_in(alloc, types, &scope, context, expression) {
        Ok(typed) => Ok(typed),
        Err(error) => Err(placed(tokens, error)),
    }
}
