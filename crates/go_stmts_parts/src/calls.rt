//! Calls that are statements.
ghost use Rattle.std.specs.Prelude.{◌≡◌, length};
ghost use Rattle.go_typed.specs.Trees.{sort_of};
ghost use Rattle.go_typed.specs.Views.{seen, sort_seen, Known, KnownSort};
ghost use Rattle.std.specs.Prelude.{IfSome};
ghost use Rattle.std.specs.Option.{option_map};
ghost use Rattle.go_stmts_defs.specs.Targets.{bare, is_panic, acts, is_statement_call, is_panic_call};
ghost use Rattle.go_stmts_defs.specs.Rows.{callee_of};

use crate::nodes::{first_there, form_of, parts_of};
use go_exprs_rules::nodes::sort_of;
use go_tree::object::Predeclared;
use go_typed::{Form, Sort, TypedNode};
use go_types::Types;

/// The node without its parentheses.
#[tactic(auto, using(crate::proofs::Rows::bare_by))]
fn bare<'a>(types: &Types, node: &'a TypedNode) -> &'a TypedNode
    requires { Known (length types.now.shapes) node.now }
    ensures node { seen types.now result.now ≡ bare (seen types.now node.now) }
    ensures known { Known (length types.now.shapes) result.now }
{
    if !matches!(form_of(types, node), Form::Parenthesized) {
        return node;
    }
    match first_there(types, parts_of(types, node)) {
        Some(inner) => bare(types, inner),
        None => node,
    }
}

/// What is called, if the node is a call.
fn callee<'a>(types: &Types, node: &'a TypedNode) -> Option<&'a Sort>
    requires { Known (length types.now.shapes) node.now }
    ensures callee { option_map (λ s. sort_seen types.now s.now) result ≡ callee_of (seen types.now node.now) }
    ensures known { IfSome result (λ s. KnownSort (length types.now.shapes) s.now) }
{
    if !matches!(form_of(types, node), Form::Call) {
        return None;
    }
    let callee = first_there(types, parts_of(types, node))?;
    Some(sort_of(types, callee))
}

/// Whether it is called for what it does: of the predeclared functions only `copy` and `panic` are.
fn acts(types: &Types, callee: &Sort) -> bool
    ensures { result ≡ acts (sort_seen types.now callee.now) }
{
    match callee {
        Sort::Builtin(Predeclared::Copy) => true,
        Sort::Builtin(Predeclared::Panic) => true,
        Sort::Builtin(_) => false,
        _ => true,
    }
}

fn is_panic(types: &Types, callee: &Sort) -> bool
    ensures { result ≡ is_panic (sort_seen types.now callee.now) }
{
    matches!(callee, Sort::Builtin(Predeclared::Panic))
}

/// Whether the expression may be a statement (Go specification: Expression statements).
#[tactic(auto, using(crate::proofs::Rows::statement_call_by))]
pub fn is_statement_call(types: &Types, node: &TypedNode) -> bool
    requires { Known (length types.now.shapes) node.now }
    ensures { result ≡ is_statement_call (seen types.now node.now) }
{
    match callee(types, bare(types, node)) {
        Some(callee) => acts(types, callee),
        None => false,
    }
}

/// Whether the expression is a call of `panic`.
#[tactic(auto, using(crate::proofs::Rows::panic_call_by))]
pub fn is_panic_call(types: &Types, node: &TypedNode) -> bool
    requires { Known (length types.now.shapes) node.now }
    ensures { result ≡ is_panic_call (seen types.now node.now) }
{
    match callee(types, bare(types, node)) {
        Some(callee) => is_panic(types, callee),
        None => false,
    }
}
