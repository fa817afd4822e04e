//! The walk.

ghost use Rattle.std.specs.Prelude.{◌≡◌, ◌++◌, OnOk, IfOk};
ghost use Rattle.go_grammar.specs.Grammar.{ends_named};
ghost use Rattle.go_grammar.specs.Trees.{kind_of, first, last, parts};
ghost use Rattle.go_tree.specs.Views.{view, views};
ghost use Rattle.go_tree.specs.Contexts.{file_context};
ghost use Rattle.go_tree.specs.Events.{is_more, events, events_of};

use crate::enter::{begin, ends_named, enter, file_context, pass};
use crate::own::{push_own, push_statement};
use go_tree::context::Context;
use go_tree::event::Event;
use go_tree::node::Node;
use std::alloc::{AllocError, Global};

/// What the nodes of a file's tree have to do with names, in the order of their tokens.
///
/// # Errors
///
/// Want of memory.
pub fn events(alloc: Global, file: &Node) -> Result<Vec<Event>, AllocError>
    ensures { IfOk result (λ v. v.items ≡ events (file_context (last (view file.now))) (view file.now)) }
{
    let mut out = Vec::new(alloc);
    walk(&file_context(file.last()), file, &mut out)?;
    out.shrink_to_fit();
    Ok(out)
}

/// Whether a part is there.
fn is_more(rest: &[Option<Node>]) -> bool
    ensures { result ≡ is_more (views rest.now) }
{
    for place in rest {
        if place.is_some() {
            return true;
        }
    }
    false
}

/// Puts what a node and those below it tell behind the others.
#[cycle(walk)]
fn walk(context: &Context, node: &Node, out: &mut Vec<Event>) -> Result<(), AllocError>
    ensures { OnOk result (out.new.items ≡ out.old.items ++ events context.now (view node.now)) }
{
    push_statement(context.listed, node.first(), node.last(), out)?;
    push_own(context, node, out)?;
    walk_parts(begin(context, node.kind()), node, out)
}

/// The same of the nodes below, where the context is the one in front of the node's parts.
#[cycle(walk)]
fn walk_parts(mut context: Context, node: &Node, out: &mut Vec<Event>) -> Result<(), AllocError>
    ensures { OnOk result (out.new.items ≡ out.old.items ++ events_of context (kind_of (view node.now)) (first (view node.now)) (last (view node.now)) (parts (view node.now)) 0 (parts (view node.now))) }
{
    let parts = node.parts();
    let named = ends_named(parts);
    for (number, place) in parts.iter().enumerate() {
        let Some(part) = place else {
            continue;
        };
        let more = is_more(&parts[number + 1..]);
        let below = enter(&context, node, named, number, part, more);
        walk(&below, part, out)?;
        context = pass(&context, part);
    }
    Ok(())
}
