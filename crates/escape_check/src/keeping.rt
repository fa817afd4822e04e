//! Terminating statements (Go specification: Terminating statements) that stay so where a call takes the place of a window.

ghost use Rattle.std.specs.Prelude.{◌≡◌, ◌≤◌, ◌||◌, List, true, false, None, Some, map, slice_get, IfOk, IfSome, OnOk};
ghost use Rattle.std.specs.List.{AllByRecursion, list_all, list_any};
ghost use Rattle.std.specs.Option.{option_map};
ghost use Rattle.go_exprs_rules.specs.Tables.{on_one};
ghost use Rattle.go_stmts_defs.specs.Ending.{breaks, is_default_clause, last_falls, loop_ends, part_breaks, terminates};
ghost use Rattle.go_stmts_defs.specs.Targets.{is_panic_call};
ghost use Rattle.go_stmts_defs.specs.Rows.{all_clauses_end, both_branches, last_ends, part_ends};
ghost use Rattle.go_types.specs.Tables.{Table};
ghost use Rattle.go_typed.specs.Funcs.{FuncView, size, sizes};
ghost use Rattle.go_typed.specs.Trees.{first_of};
ghost use Rattle.go_typed.specs.Views.{seen, view, views};
ghost use Rattle.escape_check.specs.Called.{all_called, called, last_or, staying};
ghost use Rattle.escape_check.specs.Endings.{tree_terminates};
ghost use Rattle.escape_check.specs.Keeping.{Extends, KeepEnds, Keeps, KeepsEnd, LeavesOut, Spares, begins_by};

use crate::ends::{
    Gap, first_there, form_of, has_default, is_fallthrough, is_panic_statement, parts_of,
};
use go_typed::form::Form;
use go_typed::func::TypedFunc;
use go_typed::node::TypedNode;
use go_types::Types;
use std::alloc::{AllocError, Global};
use std::collections::HashSet;

/// A window of no tokens.
const NOWHERE: Gap = Gap { from: 0, upto: 0 };

// ---- breaks

/// Whether no `break` in a tree leaves the loop or switch around it, wherever a call takes the place of a window.
#[cycle(staying)]
fn never_breaks(types: &Types, node: &TypedNode) -> bool
    ensures { result ≡ true → (g : Gap) → breaks (called g (seen types.now node.now)) ≡ false }
{
    let parts = parts_of(types, node);
    match form_of(types, node) {
        Form::Break => false,
        Form::If | Form::Block | Form::Case(_) | Form::Default => none_breaks(types, parts),
        _ => true,
    }
}

/// The same of each of some parts.
#[cycle(staying)]
fn none_breaks(types: &Types, parts: &[Option<TypedNode>]) -> bool
    ensures { result ≡ true → (g : Gap) → AllByRecursion (λ x. part_breaks (option_map (called g) x) ≡ false) (map (option_map (seen types.now)) parts.now) }
{
    for part in parts {
        if let Some(node) = part {
            if !never_breaks(types, node) {
                return false;
            }
        }
    }
    true
}

/// A loop without a condition, and without a `break` that leaves it.
fn loop_keeps(types: &Types, parts: &[Option<TypedNode>]) -> bool
    ensures { result ≡ true → (g : Gap) → loop_ends (all_called g (map (option_map (seen types.now)) parts.now)) ≡ true }
{
    match parts {
        [_, None, _, Some(block)] => never_breaks(types, block),
        [_, None, _, None] => true,
        _ => false,
    }
}

// ---- parts that no call changes

/// Whether the one part of an expression statement calls `panic`.
fn calls_panic(types: &Types, parts: &[Option<TypedNode>]) -> bool
    ensures { (g : Gap) → result ≡ on_one false is_panic_call (all_called g (map (option_map (seen types.now)) parts.now)) }
{
    is_panic_statement(types, NOWHERE, parts)
}

/// Whether one of the clauses is the default one.
fn has_default_clause(types: &Types, clauses: &[Option<TypedNode>]) -> bool
    ensures { (g : Gap) → result ≡ list_any is_default_clause (all_called g (map (option_map (seen types.now)) clauses.now)) }
{
    has_default(types, NOWHERE, clauses)
}

/// Whether no part begins behind a token.
fn none_behind(parts: &[Option<TypedNode>], token: u32) -> bool
    ensures { result ≡ list_all (begins_by token) parts.now }
{
    for part in parts {
        if let Some(node) = part {
            if token < node.first {
                return false;
            }
        }
    }
    true
}

/// The last part of a statement list, where it is there and no part begins behind it. It stays where a window leaves its first token.
#[tactic(auto, using(crate::proofs::Parts::part_within))]
fn last_in_order<'a>(types: &Types, parts: &'a [Option<TypedNode>]) -> Option<&'a TypedNode>
    ensures part { IfSome result (λ n. (g : Gap) → LeavesOut g (first_of (view n.now))
        → Some (seen types.now n.now) ≡ last_or None (staying g 0 (map (option_map (seen types.now)) parts.entry.now))) }
    ensures smaller { IfSome result (λ n. size (view n.now) ≤ sizes (views parts.entry.now)) }
{
    let _types = types;
    if parts.is_empty() {
        return None;
    }
    let end = parts.len() - 1;
    let Some(last) = &parts[end] else {
        return None;
    };
    if !none_behind(parts, last.first) {
        return None;
    }
    Some(last)
}

/// Notes the first token of a statement.
fn note(noted: &mut HashSet<u32>, node: &TypedNode) -> Result<(), AllocError>
    ensures noted { OnOk result (Extends noted.old noted.new) }
    ensures spared { OnOk result ((g : Gap) → Spares g noted.new → LeavesOut g (first_of (view node.now))) }
{
    noted.insert(node.first)?;
    Ok(())
}

// ---- terminating statements

/// Whether the part is there and terminating, wherever a call takes the place of a window that has no noted token.
#[cycle(keeping)]
fn part_keeps(
    types: &Types,
    part: &Option<TypedNode>,
    noted: &mut HashSet<u32>,
) -> Result<bool, AllocError>
    ensures noted { OnOk result (Extends noted.old noted.new) }
    ensures ends { IfOk result (λ b. Keeps b noted.new (λ g. part_ends (option_map (called g) (option_map (seen types.now) part.now)))) }
{
    match part {
        Some(node) => keeps_end(types, node, noted),
        None => Ok(false),
    }
}

/// The same of the last part of a statement list.
#[cycle(keeping)]
fn list_keeps(
    types: &Types,
    parts: &[Option<TypedNode>],
    noted: &mut HashSet<u32>,
) -> Result<bool, AllocError>
    ensures noted { OnOk result (Extends noted.old noted.new) }
    ensures ends { IfOk result (λ b. Keeps b noted.new (λ g. last_ends (all_called g (staying g 0 (map (option_map (seen types.now)) parts.now))))) }
{
    let Some(last) = last_in_order(types, parts) else {
        return Ok(false);
    };
    note(noted, last)?;
    keeps_end(types, last, noted)
}

/// Whether the last part of a statement list is `fallthrough`, wherever a call takes the place of a window that has no noted token.
fn falls_last(
    types: &Types,
    parts: &[Option<TypedNode>],
    noted: &mut HashSet<u32>,
) -> Result<bool, AllocError>
    ensures noted { OnOk result (Extends noted.old noted.new) }
    ensures falls { IfOk result (λ b. Keeps b noted.new (λ g. last_falls (all_called g (staying g 0 (map (option_map (seen types.now)) parts.now))))) }
{
    let Some(last) = last_in_order(types, parts) else {
        return Ok(false);
    };
    note(noted, last)?;
    Ok(is_fallthrough(form_of(types, last)))
}

/// The same of a clause's statements, whose last one may be `fallthrough` too.
#[cycle(keeping)]
fn clause_keeps(
    types: &Types,
    parts: &[Option<TypedNode>],
    noted: &mut HashSet<u32>,
) -> Result<bool, AllocError>
    ensures noted { OnOk result (Extends noted.old noted.new) }
    ensures ends { IfOk result (λ b. Keeps b noted.new (λ g. last_ends (all_called g (staying g 0 (map (option_map (seen types.now)) parts.now)))
        || last_falls (all_called g (staying g 0 (map (option_map (seen types.now)) parts.now))))) }
{
    if falls_last(types, parts, noted)? {
        return Ok(true);
    }
    list_keeps(types, parts, noted)
}

/// The same of both branches of an `if`.
#[cycle(keeping)]
fn branches_keep(
    types: &Types,
    parts: &[Option<TypedNode>],
    noted: &mut HashSet<u32>,
) -> Result<bool, AllocError>
    ensures noted { OnOk result (Extends noted.old noted.new) }
    ensures ends { IfOk result (λ b. Keeps b noted.new (λ g. both_branches (all_called g (map (option_map (seen types.now)) parts.now)))) }
{
    match parts {
        [_, _, block, other] => {
            if !part_keeps(types, block, noted)? {
                return Ok(false);
            }
            part_keeps(types, other, noted)
        }
        _ => Ok(false),
    }
}

/// The same of each clause.
#[cycle(keeping)]
fn all_keep(
    types: &Types,
    clauses: &[Option<TypedNode>],
    noted: &mut HashSet<u32>,
) -> Result<bool, AllocError>
    ensures noted { OnOk result (Extends noted.old noted.new) }
    ensures ends { IfOk result (λ b. Keeps b noted.new (λ g. list_all part_ends (all_called g (map (option_map (seen types.now)) clauses.now)))) }
{
    for clause in clauses {
        if !part_keeps(types, clause, noted)? {
            return Ok(false);
        }
    }
    Ok(true)
}

/// The same of a switch: it has a default clause and no `break` that leaves it.
#[cycle(keeping)]
fn clauses_keep(
    types: &Types,
    parts: &[Option<TypedNode>],
    noted: &mut HashSet<u32>,
) -> Result<bool, AllocError>
    ensures noted { OnOk result (Extends noted.old noted.new) }
    ensures ends { IfOk result (λ b. Keeps b noted.new (λ g. all_clauses_end (all_called g (map (option_map (seen types.now)) parts.now)))) }
{
    match parts {
        [_, _, clauses @ ..] => {
            if !has_default_clause(types, clauses) || !none_breaks(types, clauses) {
                return Ok(false);
            }
            all_keep(types, clauses, noted)
        }
        _ => Ok(false),
    }
}

/// Whether a statement is terminating, wherever a call takes the place of a window that has no noted token. Each statement on whose place
/// that rests is noted by its first token.
#[cycle(keeping)]
fn keeps_end(types: &Types, node: &TypedNode, noted: &mut HashSet<u32>) -> Result<bool, AllocError>
    ensures noted { OnOk result (Extends noted.old noted.new) }
    ensures ends { IfOk result (λ b. Keeps b noted.new (λ g. terminates (called g (seen types.now node.now)))) }
{
    let parts = parts_of(types, node);
    match form_of(types, node) {
        Form::Return => Ok(true),
        Form::Expression => Ok(calls_panic(types, parts)),
        Form::Block => list_keeps(types, parts, noted),
        Form::If => branches_keep(types, parts, noted),
        Form::For => Ok(loop_keeps(types, parts)),
        Form::Switch => clauses_keep(types, parts, noted),
        Form::Case(_) | Form::Default => clause_keeps(types, parts, noted),
        _ => Ok(false),
    }
}

// ---- functions

/// The first tokens of the statements on whose places it rests that a function ends in a terminating statement, if it does. It does so too
/// where a call takes the place of a window that has none of them.
fn end_of(
    alloc: Global,
    types: &Types,
    func: &TypedFunc,
) -> Result<Option<HashSet<u32>>, AllocError>
    ensures { IfOk result (λ o. KeepsEnd types.now func.now o) }
{
    let root = func.root();
    let Some(body) = first_there(types, parts_of(types, root)) else {
        return Ok(None);
    };
    let mut noted = HashSet::new(alloc);
    if keeps_end(types, body, &mut noted)? {
        return Ok(Some(noted));
    }
    Ok(None)
}

/// The same of each function: each is looked at once.
pub(crate) fn ends_of(
    alloc: Global,
    types: &Types,
    functions: &[TypedFunc],
) -> Result<Vec<Option<HashSet<u32>>>, AllocError>
    ensures { IfOk result (λ v. KeepEnds types.now functions.now v.items) }
{
    let mut ends = Vec::with_capacity(alloc, functions.len())?;
    for func in functions {
        ends.push(end_of(alloc, types, func)?)?;
    }
    Ok(ends)
}

/// Whether a window from one token up to another has tokens, but none of these. Each of its tokens is looked at once.
fn spares(noted: &HashSet<u32>, from: u32, upto: u32) -> bool
    ensures { result ≡ true → Spares (record { from = from; upto = upto }) noted.now }
{
    if upto <= from {
        return false;
    }
    for token in from..upto {
        if noted.contains(&token) {
            return false;
        }
    }
    true
}

/// What is noted of the function of this number, if there are so many.
fn noted_of(ends: &[Option<HashSet<u32>>], number: u32) -> Option<&Option<HashSet<u32>>>
    ensures { slice_get ends.entry.now number ≡ option_map (λ o. o.now) result }
{
    ends.get(number as usize)
}

/// Whether the window of a function of this number has tokens, but none on which the function's end rests.
pub(crate) fn leaves_end(ends: &[Option<HashSet<u32>>], number: u32, gap: Gap) -> bool
    ensures { result ≡ true → (t : Table) (fs : List FuncView) (f : FuncView) → KeepEnds t fs ends.now → slice_get fs number ≡ Some f → tree_terminates (called gap (seen t f.root)) ≡ true }
{
    match noted_of(ends, number) {
        Some(Some(noted)) => spares(noted, gap.from, gap.upto),
        _ => false,
    }
}
