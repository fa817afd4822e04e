//! The holes of a window: constants that name no variable, as large as can be.

ghost use Rattle.std.specs.Prelude.{◌≡◌, ◌+◌, ◌-◌, ◌&&◌, ◌++◌, false, not, nat_lt, slice_get, IfOk, OnOk};
ghost use Rattle.std.specs.List.{list_any};
ghost use Rattle.go_typed.specs.declared.walk.LocalUse.{LocalUse as Use};
ghost use Rattle.go_typed.specs.Funcs.{size, sizes};
ghost use Rattle.go_typed.specs.Views.{sort_view, view, views};
ghost use Rattle.go_typed.specs.Windows.{uses_from};
ghost use Rattle.clone_window.specs.Sameness.{sort_at, standing};
ghost use Rattle.param_choose.specs.Holes.{holes_among, holes_in};
ghost use Rattle.param_choose.specs.Members.{declared_between};
ghost use Rattle.param_choose.specs.Shown.{hole_view, holes_view};

use crate::numbers::behind;
use crate::variables::{Extent, is_inside};
use clone_window::mass::{is_hole, is_inside as is_inside_constant};
use go_tree::object::Declared;
use go_typed::func::TypedFunc;
use go_typed::node::TypedNode;
use go_typed::sort::Sort;
use std::alloc::{AllocError, Global};

/// A hole.
#[derive(Clone, Copy)]
pub struct Hole<'a> {
    /// Its number among the nodes of its window.
    pub node: u32,
    /// The number of its first token in the function.
    pub from: u32,
    /// The number of the token behind its last one.
    pub upto: u32,
    /// What it stands for.
    pub sort: &'a Sort,
}

/// The holes of statements, in order of place.
///
/// # Errors
///
/// Want of memory.
pub fn holes_of<'a>(
    alloc: Global,
    statements: &'a [Option<TypedNode>],
) -> Result<Vec<Hole<'a>>, AllocError>
    ensures { IfOk result (λ v. holes_view v.items ≡ holes_among 0 false (views statements.now)) }
{
    let mut out = Vec::new(alloc);
    push_all_holes(0, false, statements, &mut out)?;
    Ok(out)
}

/// Puts the holes of a tree, whose node has a number, behind the others, and tells the number of the node behind it. The tree may
/// stand inside a constant expression.
#[cycle(holes)]
fn push_holes<'a>(
    number: u32,
    inside: bool,
    node: &'a TypedNode,
    out: &mut Vec<Hole<'a>>,
) -> Result<u32, AllocError>
    ensures next { IfOk result (λ n. n ≡ number + size (view node.now)) }
    ensures holes { OnOk result (holes_view out.new.items ≡ holes_view out.old.items ++ holes_in number inside (view node.now)) }
{
    if is_hole(inside, node) {
        out.push(Hole {
            node: number,
            from: node.first,
            upto: node.last,
            sort: &node.sort,
        })?;
        return behind(number, node.size());
    }
    let within = is_inside_constant(inside, node);
    push_all_holes(behind(number, 1)?, within, &node.parts, out)
}

/// The same for a row of parts.
#[cycle(holes)]
fn push_all_holes<'a>(
    number: u32,
    inside: bool,
    parts: &'a [Option<TypedNode>],
    out: &mut Vec<Hole<'a>>,
) -> Result<u32, AllocError>
    ensures next { IfOk result (λ n. n ≡ number + sizes (views parts.now)) }
    ensures holes { OnOk result (holes_view out.new.items ≡ holes_view out.old.items ++ holes_among number inside (views parts.now)) }
{
    let mut next = number;
    for part in parts {
        if let Some(node) = part {
            next = push_holes(next, inside, node, out)?;
        }
    }
    Ok(next)
}

/// Whether tokens of a function, from one up to another, name a constant or a type that is declared outside the window.
#[tactic(auto, using(crate::proofs::Tokens::any_next, crate::proofs::Tokens::no_uses))]
pub fn names_outer(
    func: &TypedFunc,
    declared: &[Declared],
    extent: Extent,
    from: u32,
    upto: u32,
) -> bool
    ensures { result ≡ list_any (λ (u : Use). nat_lt 1 (standing (sort_at func.now.locals u.local))
        && not (declared_between extent.first extent.from extent.upto (slice_get declared.now u.local))) (uses_from func.now.tokens from (upto - from)) }
{
    for token in from..upto {
        if let Some(local) = func.local_at(token) {
            if is_outer(func, declared, extent, local) {
                return true;
            }
        }
    }
    false
}

/// Whether a local is a constant or a type that is declared outside the window.
fn is_outer(func: &TypedFunc, declared: &[Declared], extent: Extent, local: u32) -> bool
    ensures { result ≡ (nat_lt 1 (standing (sort_at func.now.locals local)) && not (declared_between extent.first extent.from extent.upto (slice_get declared.now local))) }
{
    is_fixed(func, local) && !is_inside(declared, extent, local)
}

/// Whether a local is a constant or a type.
pub fn is_fixed(func: &TypedFunc, local: u32) -> bool
    ensures { result ≡ nat_lt 1 (standing (sort_at func.now.locals local)) }
{
    match func.locals().get(local as usize) {
        Some(sort) => stands_fixed(sort),
        None => false,
    }
}

/// Whether it is a constant or a type.
fn stands_fixed(sort: &Sort) -> bool
    ensures { result ≡ nat_lt 1 (standing (sort_view sort.now)) }
{
    matches!(
        sort,
        Sort::Constant(..) | Sort::OpenConstant(_) | Sort::Type(_)
    )
}
