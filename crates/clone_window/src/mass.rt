//! Holes, and the mass of trees.

ghost use Rattle.std.specs.Prelude.{◌≡◌, ℕ};
ghost use Rattle.go_typed.specs.declared.node.TypedNode.TheViews.{out-TypedNode};
ghost use Rattle.go_typed.specs.Views.{view, views, label_at, sort_view};
ghost use Rattle.clone_window.specs.Masses as specs;
ghost use Rattle.clone_window.specs.Masses.{mass, masses};
ghost use Rattle.clone_window.specs.Caps.{capped};
ghost use Rattle.clone_window.specs.Weights.{mass_at};

use crate::outline::{is_expression, outline_of};
use go_typed::form::Form;
use go_typed::node::TypedNode;
use go_typed::sort::Sort;

fn is_constant(sort: &Sort) -> bool
    ensures { result ≡ specs.is_constant (sort_view sort.now) }
{
    matches!(sort, Sort::Constant(..) | Sort::OpenConstant(_))
}

/// Whether a node is a constant expression (Go specification: Constant expressions).
pub fn is_constant_expression(node: &TypedNode) -> bool
    ensures { let n = out-TypedNode node.now in result ≡ specs.is_constant_expression n.form (label_at n) }
{
    is_constant(&node.sort) && is_expression(node.form)
}

/// Whether a node, which may stand inside a constant expression, is a hole: a constant expression that names no variable, as
/// large as can be.
pub fn is_hole(inside: bool, node: &TypedNode) -> bool
    ensures { let n = out-TypedNode node.now in result ≡ specs.is_hole inside n.form (label_at n) }
{
    !inside && is_constant_expression(node) && !node.varies
}

/// Whether the parts of a node, which may itself stand inside a constant expression, stand inside one.
pub fn is_inside(inside: bool, node: &TypedNode) -> bool
    ensures { let n = out-TypedNode node.now in result ≡ specs.is_inside inside n.form (label_at n) }
{
    inside || is_constant_expression(node)
}

/// How much a node weighs without its parts.
fn weight(form: Form) -> u32
    ensures { result ≡ specs.weight form }
{
    if outline_of(form).kind < 50 { 1 } else { 0 }
}

/// The mass of a node if its parts have this mass; it ends at the last number.
pub fn mass_over(inside: bool, node: &TypedNode, parts: u32) -> u32
    ensures { let n = out-TypedNode node.now in (m : ℕ) → parts ≡ capped m → result ≡ capped (mass_at inside n.form (label_at n) m) }
{
    if is_hole(inside, node) {
        return 1;
    }
    weight(node.form).saturating_add(parts)
}

/// The mass of a tree, which may stand inside a constant expression. It has no bound, so it ends at the last number.
#[cycle(mass)]
pub fn mass_of(inside: bool, node: &TypedNode) -> u32
    ensures { result ≡ capped (mass inside (view node.now)) }
{
    let within = is_inside(inside, node);
    let parts = masses_of(within, &node.parts);
    mass_over(inside, node, parts)
}

/// The mass of a row of parts; it ends at the last number.
#[cycle(mass)]
pub fn masses_of(inside: bool, parts: &[Option<TypedNode>]) -> u32
    ensures { result ≡ capped (masses inside (views parts.now)) }
{
    let mut sum: u32 = 0;
    for part in parts {
        if let Some(node) = part {
            sum = sum.saturating_add(mass_of(inside, node));
        }
    }
    sum
}
