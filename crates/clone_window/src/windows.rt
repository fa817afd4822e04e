//! The windows of a function.

ghost use Rattle.std.specs.Prelude.{◌≡◌, ◌+◌, ◌<◌, ◌≤◌, ◌^◌, ◌++◌, ◌∷◌, [], ◌&&◌, nat_le, List, ℕ, map, length, take, drop, slice_get, Some, IfOk, OnOk, if◌then◌else◌};
ghost use Rattle.go_typed.specs.Funcs.{size, sizes, tree_of};
ghost use Rattle.go_typed.specs.Forms.{values_count};
ghost use Rattle.go_typed.specs.Lists.{lists_among};
ghost use Rattle.go_typed.specs.Views.{view, views};
ghost use Rattle.clone_window.specs.Caps.{capped};
ghost use Rattle.clone_window.specs.Weights.{row_masses, rows, weights, weights_among};
ghost use Rattle.clone_window.specs.Windows.{list_count, windows, windows_at, windows_from, windows_in, windows_among, windows_along};

use crate::bounds::Bounds;
use crate::weighing::{row_at, weights_of};
use go_base::Memory;
use go_typed::form::Form;
use go_typed::func::TypedFunc;
use go_typed::node::TypedNode;
use go_typed::window::Window;
use std::alloc::{AllocError, Global};

/// The most statements of a window.
const MOST: usize = 32;

/// The windows of a function: each run of `min` to 32 adjoining statements of one statement list whose mass is at least `mass`,
/// by their first statements and then by their last ones. Each node is looked at twice, and each statement 32 times.
///
/// # Errors
///
/// Want of memory.
pub fn windows_of(alloc: Global, f: &TypedFunc, min: u32, mass: u32) -> Result<Vec<Window>, Memory>
    requires some { 1 ≤ min }
    requires at_most { min ≤ 32 }
    requires heavy { 1 ≤ mass }
    requires light { mass ≤ 1000 }
    ensures { IfOk result (λ v. v.items ≡ windows (record { fewest = min; least = mass }) f.now.number (tree_of f.now)) }
{
    let bounds = Bounds {
        fewest: min,
        least: mass,
    };
    let weights = weights_of(alloc, f.root())?;
    let mut out = Vec::new(alloc);
    push_windows_in(bounds, f.number(), 0, f.root(), &weights, &mut out)?;
    Ok(out)
}

/// Puts the windows in a tree, whose first statement list has the number `next`, behind the others, and tells the number of the
/// statement list behind the tree. The table has the masses of the statements of each list.
#[cycle(windows)]
fn push_windows_in(
    bounds: Bounds,
    func: u32,
    next: u32,
    node: &TypedNode,
    table: &[Vec<u32>],
    out: &mut Vec<Window>,
) -> Result<u32, AllocError>
    requires some { 1 ≤ bounds.fewest }
    requires room { next + size (view node.now) < 2 ^ 32 }
    requires table { take (length (weights (view node.now))) (drop next (rows table.now)) ≡ weights (view node.now) }
    ensures number { IfOk result (λ n. n ≡ next + list_count (view node.now)) }
    ensures windows { OnOk result (out.new.items ≡ out.old.items ++ windows_in bounds func next (view node.now)) }
{
    if node.form.is_statement_list() {
        let list = ListPlace {
            number: next,
            ahead: ahead_of_statements(node.form),
        };
        push_windows_along(bounds, func, list, &node.parts, table, out)
    } else {
        push_windows_among(bounds, func, next, &node.parts, table, out)
    }
}

/// The same for the parts of a node that is no statement list.
#[cycle(windows)]
fn push_windows_among(
    bounds: Bounds,
    func: u32,
    next: u32,
    parts: &[Option<TypedNode>],
    table: &[Vec<u32>],
    out: &mut Vec<Window>,
) -> Result<u32, AllocError>
    requires some { 1 ≤ bounds.fewest }
    requires room { next + sizes (views parts.now) < 2 ^ 32 }
    requires table { take (length (weights_among (views parts.now))) (drop next (rows table.now)) ≡ weights_among (views parts.now) }
    ensures number { IfOk result (λ n. n ≡ next + length (lists_among (views parts.now))) }
    ensures windows { OnOk result (out.new.items ≡ out.old.items ++ windows_among bounds func next (views parts.now)) }
{
    let mut next = next;
    for part in parts {
        if let Some(node) = part {
            next = push_windows_in(bounds, func, next, node, table, out)?;
        }
    }
    Ok(next)
}

/// A statement list: its number, and how many parts stand ahead of its statements.
#[derive(Clone, Copy, Debug)]
struct ListPlace {
    number: u32,
    ahead: u32,
}

/// The same for the parts of a statement list, whose masses are in the row of its number.
#[cycle(windows)]
fn push_windows_along(
    bounds: Bounds,
    func: u32,
    list: ListPlace,
    parts: &[Option<TypedNode>],
    table: &[Vec<u32>],
    out: &mut Vec<Window>,
) -> Result<u32, AllocError>
    requires some { 1 ≤ bounds.fewest }
    requires room { list.number + 1 + sizes (views parts.now) < 2 ^ 32 }
    requires row { slice_get (rows table.now) list.number ≡ Some (row_masses (views parts.now)) }
    requires table { take (length (weights_among (views parts.now))) (drop (list.number + 1) (rows table.now)) ≡ weights_among (views parts.now) }
    ensures number { IfOk result (λ n. n ≡ list.number + 1 + length (lists_among (views parts.now))) }
    ensures windows { OnOk result (out.new.items
        ≡ out.old.items ++ windows_along bounds func list.number list.ahead (list.number + 1) 0 (views parts.now)) }
{
    let masses = row_at(table, list.number);
    let mut next = list.number + 1;
    let mut index: u32 = 0;
    for part in parts {
        if let Some(node) = part {
            push_windows_from(bounds, func, list, index, &masses[index as usize..], out)?;
            next = push_windows_in(bounds, func, next, node, table, out)?;
            index += 1;
        }
    }
    Ok(next)
}

/// How many parts of a node of this form stand ahead of its statements: the values of a clause.
fn ahead_of_statements(form: Form) -> u32
    ensures { result ≡ values_count form }
{
    match form {
        Form::Case(values) => values,
        _ => 0,
    }
}

/// Puts the windows that begin with one part of a statement list behind the others, by the masses of the parts from there on.
fn push_windows_from(
    bounds: Bounds,
    func: u32,
    list: ListPlace,
    index: u32,
    masses: &[u32],
    out: &mut Vec<Window>,
) -> Result<(), AllocError>
    requires { 1 ≤ bounds.fewest }
    ensures { (ms : List ℕ) → masses.now ≡ map capped ms → OnOk result (out.new.items ≡ out.old.items ++ windows_from bounds func list.number list.ahead index ms) }
{
    if list.ahead <= index {
        push_windows_at(bounds, func, list.number, index - list.ahead, masses, out)?;
    }
    Ok(())
}

/// Puts the windows that begin with one statement behind the others, by the masses of the statements from there on.
fn push_windows_at(
    bounds: Bounds,
    func: u32,
    list: u32,
    first: u32,
    masses: &[u32],
    out: &mut Vec<Window>,
) -> Result<(), AllocError>
    requires { 1 ≤ bounds.fewest }
    ensures { OnOk result (out.new.items ≡ out.old.items ++ windows_at bounds func list first masses.now) }
{
    let mut sum: u32 = 0;
    for index in 0..MOST.min(masses.len()) {
        sum = sum.saturating_add(masses[index]);
        let run = Window {
            func,
            list,
            first,
            count: index as u32 + 1,
        };
        push_heavy(bounds, run, sum, out)?;
    }
    Ok(())
}

/// Puts a run of statements behind the others, if it is a window by its count and its mass.
fn push_heavy(
    bounds: Bounds,
    run: Window,
    mass: u32,
    out: &mut Vec<Window>,
) -> Result<(), AllocError>
    ensures { OnOk result (out.new.items ≡ out.old.items
        ++ (if nat_le bounds.fewest run.count && nat_le bounds.least mass then run ∷ [] else [])) }
{
    if bounds.fewest <= run.count && bounds.least <= mass {
        out.push(run)?;
    }
    Ok(())
}
