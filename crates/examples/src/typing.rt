//! Nodes with what is known of their names.

ghost use Rattle.std.specs.Prelude.{◌≡◌, length};
ghost use Rattle.go_tree.specs.Units.{word};
ghost use Rattle.go_tree.specs.Views.{view};
ghost use Rattle.go_exprs_engine.specs.Literals.{AllRead};

use crate::known::{are_known, is_in_table};
use go_exprs::{Context, TypeError, type_expr};
use go_tokens::tokens::Tokens;
use go_tree::node::Node;
use go_tree::uses::Uses;
use go_typed::{Env, Locals, TypedNode};
use go_types::Types;
use std::alloc::Global;

/// What is known of the names of a file.
#[derive(Clone, Copy)]
pub struct Names<'a> {
    pub uses: &'a Uses,
    pub env: &'a Env,
    pub locals: &'a Locals,
}

/// The typed tree of a value in its context. Where a number is none of the table, it answers want of memory.
pub fn value(
    alloc: Global,
    tokens: &Tokens,
    names: Names<'_>,
    types: &mut Types,
    node: &Node,
    context: Context,
) -> Result<TypedNode, TypeError>
    requires { AllRead (word tokens.now) (view node.now) }
{
    if !are_known(types, names.env, names.locals) || !is_in_table(types, context) {
        return Err(TypeError::Memory);
    }
    type_expr(
        alloc,
        tokens,
        names.env,
        names.uses,
        names.locals,
        types,
        node,
        context,
    )
}
