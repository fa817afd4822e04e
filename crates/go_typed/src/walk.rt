//! The locals of a window, and the nodes over tokens.

ghost use Rattle.std.specs.Prelude.{◌≡◌, ◌+◌, ◌-◌, ◌^◌, ◌<◌, ◌++◌, IfOk, OnOk, length, min, slice_get};
ghost use Rattle.std.specs.Option.{option_map};
ghost use Rattle.go_typed.specs.Funcs as funcs;
ghost use Rattle.go_typed.specs.Funcs.{named_at, tree_of};
ghost use Rattle.go_typed.specs.Forms as forms;
ghost use Rattle.go_typed.specs.Lists.{statements_of};
ghost use Rattle.go_typed.specs.Places as places;
ghost use Rattle.go_typed.specs.Views.{view};
ghost use Rattle.go_typed.specs.Windows.{local_uses, use_at, uses_from};

use crate::form::Form;
use crate::func::TypedFunc;
use crate::node::TypedNode;
use crate::window::Window;
use go_base::Memory;
use std::alloc::{AllocError, Global};

/// A local that is named at a token.
#[derive(Clone, Copy, PartialEq, Eq, Debug)]
pub struct LocalUse {
    /// Its number in the function.
    pub local: u32,
    /// The number of the token, counted from the first one of the function.
    pub token: u32,
}

/// The locals that are named in a window, in the order of tokens; inside types too.
///
/// # Errors
///
/// Want of memory.
pub fn walk_locals(
    alloc: Global,
    func: &TypedFunc,
    window: &Window,
) -> Result<Vec<LocalUse>, Memory>
    ensures { IfOk result (λ uses. uses.items ≡ local_uses func.now window.now) }
{
    let last = (window.first as usize + window.count as usize).saturating_sub(1);
    let mut uses = Vec::new(alloc);
    if let Some(list) = func.list(window.list as usize) {
        if let Some(first) = list.statement(window.first as usize) {
            if let Some(last) = list.statement(last) {
                push_uses(func, first.first, last.last, &mut uses)?;
            }
        }
    }
    Ok(uses)
}

/// Puts the locals that are named at the tokens from one up to another behind the others.
fn push_uses(
    func: &TypedFunc,
    from: u32,
    to: u32,
    uses: &mut Vec<LocalUse>,
) -> Result<(), AllocError>
    ensures { OnOk result (uses.new.items ≡ uses.old.items ++ uses_from func.now.tokens from (to - from)) }
{
    for token in from..to {
        push_use(func, token, uses)?;
    }
    Ok(())
}

/// Puts the local that a token names behind the others, if it names one.
fn push_use(func: &TypedFunc, token: u32, uses: &mut Vec<LocalUse>) -> Result<(), AllocError>
    ensures { OnOk result (uses.new.items ≡ uses.old.items ++ use_at token (named_at func.now.tokens token)) }
{
    let Some(local) = func.local_at(token) else {
        return Ok(());
    };
    uses.push(LocalUse { local, token })?;
    Ok(())
}

/// The number of the innermost node over a token of the function. Nodes are numbered from 0, each before those within it and
/// otherwise in order of place.
pub fn node_at(func: &TypedFunc, token: u32) -> u32
    requires { token < length func.now.tokens }
    ensures { result ≡ places.innermost token (tree_of func.now) }
{
    innermost(func.root(), token)
}

/// The number of the innermost node over a token, counted from this one.
fn innermost(node: &TypedNode, token: u32) -> u32
    requires { funcs.size (view node.now) < 2 ^ 32 }
    ensures number { result ≡ places.innermost token (view node.now) }
    ensures within { result < funcs.size (view node.now) }
{
    let mut number: u32 = 1;
    for part in &node.parts {
        if let Some(part) = part {
            if part.covers(token) {
                return number + innermost(part, token);
            }
            number += part.size() as u32;
        }
    }
    0
}

impl TypedNode {
    /// How many nodes it has, itself included; 2^64-1 where there are more.
    pub fn size(&self) -> u64
        ensures { result ≡ min (funcs.size (view self.now)) (2 ^ 64 - 1) }
    {
        let mut size: u64 = 1;
        for part in &self.parts {
            if let Some(part) = part {
                size = size.saturating_add(part.size());
            }
        }
        size
    }

    /// Whether it stands over a token.
    pub fn covers(&self, token: u32) -> bool
        ensures { result ≡ places.covers (view self.now) token }
    {
        self.first <= token && token < self.last
    }

    /// The statement of this number of a statement list, from 0, if there are so many.
    pub fn statement(&self, number: usize) -> Option<&TypedNode>
        requires { number < 2 ^ 40 }
        ensures { slice_get (statements_of (view self.now)) number ≡ option_map (λ n. view n.now) result }
    {
        let mut left = number + self.form.values_count() as usize;
        for part in &self.parts {
            if let Some(part) = part {
                if left == 0 {
                    return Some(part);
                }
                left -= 1;
            }
        }
        None
    }
}

impl Form {
    /// How many parts of a node of this form stand in front of its statements.
    pub fn values_count(&self) -> u32
        ensures { result ≡ forms.values_count self.now }
    {
        match self {
            Form::Case(values) => *values,
            _ => 0,
        }
    }
}
