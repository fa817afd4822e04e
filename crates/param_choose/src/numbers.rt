//! The numbers of nodes, each before those within it and otherwise in order of place.

ghost use Rattle.std.specs.Prelude.{◌≡◌, ◌+◌, ◌++◌, Some, slice_get, IfOk, OnOk};
ghost use Rattle.go_typed.specs.Forms.{values_count};
ghost use Rattle.go_typed.specs.Funcs.{size, sizes, tree_of};
ghost use Rattle.go_typed.specs.NodeTables.{list_numbers, numbers_among, own_number};
ghost use Rattle.go_typed.specs.Views.{view, views};
ghost use Rattle.param_choose.specs.Members.{start_in};
ghost use Rattle.param_choose.specs.Members as specs;

use go_typed::func::TypedFunc;
use go_typed::node::TypedNode;
use go_typed::window::Window;
use std::alloc::{AllocError, Global};

/// The number of a window's first statement among the nodes of its function; 0 where the function has no such window.
///
/// # Errors
///
/// Want of memory.
pub fn start_of(alloc: Global, func: &TypedFunc, window: &Window) -> Result<u32, AllocError>
    ensures { IfOk result (λ n. n ≡ start_in (tree_of func.now) window.now) }
{
    let mut numbers = Vec::new(alloc);
    push_list_numbers(0, func.root(), &mut numbers)?;
    match numbers.get(window.list as usize) {
        Some(number) => match func.list(window.list as usize) {
            Some(list) => statement_number(*number, list, window.first),
            None => Ok(0),
        },
        None => Ok(0),
    }
}

/// Puts the numbers of the statement lists of a tree, whose node has a number, behind the others, and tells the number of the node
/// behind it.
#[cycle(numbers)]
fn push_list_numbers(number: u32, node: &TypedNode, out: &mut Vec<u32>) -> Result<u32, AllocError>
    ensures next { IfOk result (λ n. n ≡ number + size (view node.now)) }
    ensures lists { OnOk result (out.new.items ≡ out.old.items ++ list_numbers number (view node.now)) }
{
    push_own_number(number, node, out)?;
    push_numbers_among(behind(number, 1)?, &node.parts, out)
}

/// The same for a row of parts.
#[cycle(numbers)]
fn push_numbers_among(
    number: u32,
    parts: &[Option<TypedNode>],
    out: &mut Vec<u32>,
) -> Result<u32, AllocError>
    ensures next { IfOk result (λ n. n ≡ number + sizes (views parts.now)) }
    ensures lists { OnOk result (out.new.items ≡ out.old.items ++ numbers_among number (views parts.now)) }
{
    let mut next = number;
    for part in parts {
        if let Some(node) = part {
            next = push_list_numbers(next, node, out)?;
        }
    }
    Ok(next)
}

/// Puts the number of a node behind the others, if it is a statement list.
fn push_own_number(number: u32, node: &TypedNode, out: &mut Vec<u32>) -> Result<(), AllocError>
    ensures { OnOk result (out.new.items ≡ out.old.items ++ own_number number (view node.now)) }
{
    if node.form.is_statement_list() {
        out.push(number)?;
    }
    Ok(())
}

/// The number of a statement of a statement list, which has itself a number.
fn statement_number(number: u32, list: &TypedNode, statement: u32) -> Result<u32, AllocError>
    ensures { IfOk result (λ n. n ≡ specs.statement_number (Some number) (Some (view list.now)) statement) }
{
    let ahead = u64::from(list.form.values_count()) + u64::from(statement);
    number_past(behind(number, 1)?, ahead, &list.parts)
}

/// The number of the node behind so many parts, the first of which has a number.
fn number_past(number: u32, count: u64, parts: &[Option<TypedNode>]) -> Result<u32, AllocError>
    ensures { IfOk result (λ n. n ≡ specs.number_past number count (views parts.now)) }
{
    let mut number = number;
    let mut left = count;
    for part in parts {
        if left == 0 {
            return Ok(number);
        }
        if let Some(node) = part {
            number = behind(number, node.size())?;
            left -= 1;
        }
    }
    Ok(number)
}

/// The number of the node behind one of a number and a size.
///
/// # Errors
///
/// Want of memory, which is said of numbers from 2^32 on.
pub fn behind(number: u32, size: u64) -> Result<u32, AllocError>
    ensures { IfOk result (λ n. n ≡ number + size) }
{
    let Ok(size) = u32::try_from(size) else {
        return Err(AllocError);
    };
    match number.checked_add(size) {
        Some(sum) => Ok(sum),
        None => Err(AllocError),
    }
}
