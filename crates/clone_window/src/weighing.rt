//! The masses of all statements of a tree, found in one walk over it.

ghost use Rattle.std.specs.Prelude.{◌≡◌, ◌<◌, ◌++◌, ℕ, List, [], ◌∷◌, Some, true, length, slice_get, sum, IfOk, OnOk};
ghost use Rattle.go_typed.specs.Forms.{is_statement_list};
ghost use Rattle.go_typed.specs.Trees.{form_of};
ghost use Rattle.go_typed.specs.Views.{view, views};
ghost use Rattle.clone_window.specs.Caps.{capped};
ghost use Rattle.clone_window.specs.Masses.{mass, masses};
ghost use Rattle.clone_window.specs.Weights.{list_masses, row_masses, rows, weights, weights_among};

use crate::mass::{is_inside, mass_of, mass_over};
use go_typed::node::TypedNode;
use std::alloc::{AllocError, Global};

/// The masses of the statements of each statement list of a tree, by the numbers of the lists. Each node is looked at once.
///
/// # Errors
///
/// Want of memory.
pub fn weights_of(alloc: Global, root: &TypedNode) -> Result<Vec<Vec<u32>>, AllocError>
    ensures { IfOk result (λ t. rows t.items ≡ weights (view root.now)) }
{
    let mut table = Vec::new(alloc);
    weigh(alloc, false, root, &mut table)?;
    Ok(table)
}

/// Puts the masses of the statements of each statement list of a tree behind the others. It tells the mass of the tree, which
/// may stand inside a constant expression.
#[cycle(weighing)]
fn weigh(
    alloc: Global,
    inside: bool,
    node: &TypedNode,
    table: &mut Vec<Vec<u32>>,
) -> Result<u32, AllocError>
    ensures mass { IfOk result (λ m. m ≡ capped (mass inside (view node.now))) }
    ensures rows { OnOk result (rows table.new.items ≡ rows table.old.items ++ weights (view node.now)) }
{
    if node.form.is_statement_list() {
        let number = table.len();
        table.push(Vec::new(alloc))?;
        let masses = weigh_each(alloc, &node.parts, table)?;
        let mass = list_mass(inside, node, &masses);
        put_row(table, number, masses);
        Ok(mass)
    } else {
        let within = is_inside(inside, node);
        let parts = weigh_parts(alloc, within, &node.parts, table)?;
        Ok(mass_over(inside, node, parts))
    }
}

/// Does this with parts of a node that is no statement list, and tells their mass.
#[cycle(weighing)]
fn weigh_parts(
    alloc: Global,
    inside: bool,
    parts: &[Option<TypedNode>],
    table: &mut Vec<Vec<u32>>,
) -> Result<u32, AllocError>
    ensures mass { IfOk result (λ m. m ≡ capped (masses inside (views parts.now))) }
    ensures rows { OnOk result (rows table.new.items ≡ rows table.old.items ++ weights_among (views parts.now)) }
{
    let mut sum: u32 = 0;
    for part in parts {
        if let Some(node) = part {
            sum = sum.saturating_add(weigh(alloc, inside, node, table)?);
        }
    }
    Ok(sum)
}

/// Does this with the parts of a statement list, and tells the mass of each part that is there.
#[cycle(weighing)]
fn weigh_each(
    alloc: Global,
    parts: &[Option<TypedNode>],
    table: &mut Vec<Vec<u32>>,
) -> Result<Vec<u32>, AllocError>
    ensures masses { IfOk result (λ v. v.items ≡ row_masses (views parts.now)) }
    ensures rows { OnOk result (rows table.new.items ≡ rows table.old.items ++ weights_among (views parts.now)) }
{
    let mut out = Vec::with_capacity(alloc, parts.len())?;
    for part in parts {
        if let Some(node) = part {
            out.push(weigh(alloc, false, node, table)?)?;
        }
    }
    Ok(out)
}

/// The mass of a statement list, by the masses of its parts.
fn list_mass(inside: bool, list: &TypedNode, each: &[u32]) -> u32
    requires list { is_statement_list (form_of (view list.now)) ≡ true }
    requires each { each.now ≡ list_masses (view list.now) }
    ensures { result ≡ capped (mass inside (view list.now)) }
{
    if inside {
        return mass_of(true, list);
    }
    mass_over(false, list, sum_of(each))
}

/// The sum of numbers; it ends at the last number.
fn sum_of(numbers: &[u32]) -> u32
    ensures { result ≡ capped (sum numbers.now) }
{
    let mut sum: u32 = 0;
    for number in numbers {
        sum = sum.saturating_add(*number);
    }
    sum
}

/// Sets the row of this number.
fn put_row(table: &mut Vec<Vec<u32>>, number: usize, masses: Vec<u32>)
    requires { number < length table.old.items }
    ensures { (before after : List (List ℕ)) → rows table.old.items ≡ before ++ [] ∷ after → number ≡ length before
        → rows table.new.items ≡ before ++ masses.items ∷ after }
{
    table[number] = masses;
}

/// The row of this number; an empty one where there is none.
pub fn row_at(table: &[Vec<u32>], number: u32) -> &[u32]
    ensures { (row : List ℕ) → slice_get (rows table.now) number ≡ Some row → result.now ≡ row }
{
    match table.get(number as usize) {
        Some(masses) => masses,
        None => &[],
    }
}
