//! How many statements of a file are covered.

ghost use Rattle.std.specs.Prelude.{◌≡◌, ◌+◌, ◌-◌, ◌&&◌, ◌||◌, nat_le, nat_lt, slice_get, false, length, IfOk, OnOk};
ghost use Rattle.std.specs.HashMap.{get};
ghost use Rattle.go_typed.specs.Forms.{values_count};
ghost use Rattle.go_typed.specs.Lists.{lists_among};
ghost use Rattle.go_typed.specs.Views.{view, views};
ghost use Rattle.clone_window.specs.Bodies.{bodies_of, body_of};
ghost use Rattle.clone_window.specs.Windows.{list_count};
ghost use Rattle.clone_classes.specs.Listing.{members_of};
ghost use Rattle.clone_report.specs.Covered as rules;
ghost use Rattle.clone_report.specs.Covered.{coverage, coverages, is_placed, statements_along, statements_among, statements_from, statements_in, statements_there};
ghost use Rattle.clone_report.specs.Ends.{added, furthest, same_start, stands_by};

use crate::ends::{Start, end_at, ends_of};
use crate::tally::{Tally, next};
use clone_window::span::{FunctionPlace, function_places};
use go_base::Memory;
use go_typed::checked::Checked;
use go_typed::form::Form;
use go_typed::func::TypedFunc;
use go_typed::node::TypedNode;
use go_typed::window::Class;
use std::alloc::Global;
use std::collections::HashMap;

/// Of the statements in all statement lists of the functions of a file, how many are covered by members of classes, and how many
/// there are. A statement is covered where it, or a statement that contains it, stands in a member. Files are numbered from 0 in
/// the order of their names; a file that the package doesn't have has no statements. Each member and each node is looked at once.
///
/// # Errors
///
/// Want of memory; also where there are more statements than numbers.
pub fn covered(
    alloc: Global,
    checked: &Checked,
    classes: &[Class],
    file: u32,
) -> Result<(u32, u32), Memory>
    ensures { IfOk result (λ n. n ≡ coverage (members_of classes.now) checked.now.files (bodies_of checked.now.functions) file) }
{
    let ends = ends_of(alloc, classes)?;
    let places = function_places(alloc, checked.files())?;
    let tally = tally_of(checked, &ends, &places, file as usize)?;
    Ok((tally.covered, tally.statements))
}

/// The same of each file, in the order of their names.
///
/// # Errors
///
/// Want of memory; also where a file has more statements than numbers.
pub fn covered_files(
    alloc: Global,
    checked: &Checked,
    classes: &[Class],
) -> Result<Vec<(u32, u32)>, Memory>
    ensures { IfOk result (λ v. v.items ≡ coverages (members_of classes.now) checked.now.files (bodies_of checked.now.functions)) }
{
    let ends = ends_of(alloc, classes)?;
    let places = function_places(alloc, checked.files())?;
    let mut out = Vec::new(alloc);
    for file in 0..checked.files().len() {
        let tally = tally_of(checked, &ends, &places, file)?;
        out.push((tally.covered, tally.statements))?;
    }
    Ok(out)
}

/// The statements of the functions of a file, counted.
fn tally_of(
    checked: &Checked,
    ends: &HashMap<Start, u64>,
    places: &[FunctionPlace],
    file: usize,
) -> Result<Tally, Memory>
    ensures { IfOk result (λ t. t ≡ added (record { covered = 0; statements = 0 })
        (statements_from (stands_by (get same_start ends.now)) places.now file 0 (bodies_of checked.now.functions))) }
{
    let _types = checked.types();
    let mut tally = Tally {
        covered: 0,
        statements: 0,
    };
    for f in checked.functions() {
        count_function(ends, places, file, f, &mut tally)?;
    }
    Ok(tally)
}

/// Counts the statements of a function, if it stands in a file.
fn count_function(
    ends: &HashMap<Start, u64>,
    places: &[FunctionPlace],
    file: usize,
    f: &TypedFunc,
    tally: &mut Tally,
) -> Result<(), Memory>
    ensures { OnOk result (tally.new ≡ added tally.old (statements_there (stands_by (get same_start ends.now)) places.now file f.now.number (body_of f.now))) }
{
    let number = f.number();
    if !is_placed(places, number, file) {
        return Ok(());
    }
    count_in(ends, number, 0, false, f.root(), tally)?;
    Ok(())
}

/// Whether the function of this number stands in a file, by the places of the functions.
fn is_placed(places: &[FunctionPlace], number: u32, file: usize) -> bool
    ensures { result ≡ is_placed file (slice_get places.now number) }
{
    match places.get(number as usize) {
        Some(place) => place.file == file,
        None => false,
    }
}

/// Counts the statements in a tree of a function, whose first statement list has the number `first`, and tells the number of the
/// list behind the tree. Where the tree lies within a statement that is covered, `inside`, all are.
#[cycle(counting)]
fn count_in(
    ends: &HashMap<Start, u64>,
    func: u32,
    first: u32,
    inside: bool,
    node: &TypedNode,
    tally: &mut Tally,
) -> Result<u32, Memory>
    ensures number { IfOk result (λ n. n ≡ first + list_count (view node.now)) }
    ensures counted { OnOk result (tally.new ≡ added tally.old (statements_in (stands_by (get same_start ends.now) func) inside first (view node.now))) }
{
    if node.form.is_statement_list() {
        let list = ListPlace {
            number: first,
            ahead: ahead_of_statements(node.form),
        };
        count_along(ends, func, list, inside, &node.parts, tally)
    } else {
        count_among(ends, func, first, inside, &node.parts, tally)
    }
}

/// The same for the parts of a node that is no statement list.
#[cycle(counting)]
fn count_among(
    ends: &HashMap<Start, u64>,
    func: u32,
    first: u32,
    inside: bool,
    parts: &[Option<TypedNode>],
    tally: &mut Tally,
) -> Result<u32, Memory>
    ensures number { IfOk result (λ n. n ≡ first + length (lists_among (views parts.now))) }
    ensures counted { OnOk result (tally.new ≡ added tally.old (statements_among (stands_by (get same_start ends.now) func) inside first (views parts.now))) }
{
    let mut behind = first;
    for part in parts {
        if let Some(node) = part {
            behind = count_in(ends, func, behind, inside, node, tally)?;
        }
    }
    Ok(behind)
}

/// A statement list: its number, and how many parts stand ahead of its statements.
#[derive(Clone, Copy, Debug)]
struct ListPlace {
    number: u32,
    ahead: u32,
}

/// The same for the parts of a statement list.
#[cycle(counting)]
fn count_along(
    ends: &HashMap<Start, u64>,
    func: u32,
    list: ListPlace,
    inside: bool,
    parts: &[Option<TypedNode>],
    tally: &mut Tally,
) -> Result<u32, Memory>
    ensures number { IfOk result (λ n. n ≡ list.number + 1 + length (lists_among (views parts.now))) }
    ensures counted { OnOk result (tally.new ≡ added tally.old
        (statements_along (stands_by (get same_start ends.now) func) inside list.number list.ahead (list.number + 1) 0 (views parts.now))) }
{
    let mut behind = next(list.number)?;
    let mut index: u32 = 0;
    let mut end: u64 = 0;
    for part in parts {
        if let Some(node) = part {
            end = end_from(ends, func, list, index, end);
            let covered = is_covered(inside, list, index, end);
            count_own(list, index, covered, tally)?;
            behind = count_in(ends, func, behind, covered, node, tally)?;
            index = next(index)?;
        }
    }
    Ok(behind)
}

/// How many parts of a node of this form stand ahead of its statements: the values of a clause.
fn ahead_of_statements(form: Form) -> u32
    ensures { result ≡ values_count form }
{
    match form {
        Form::Case(values) => values,
        _ => 0,
    }
}

/// The furthest end of the members that begin with a part of a list or before it, by that of those that begin before it.
fn end_from(ends: &HashMap<Start, u64>, func: u32, list: ListPlace, index: u32, end: u64) -> u64
    requires { end ≡ furthest (get same_start ends.now) func list.number (index - list.ahead) }
    ensures { result ≡ furthest (get same_start ends.now) func list.number (index + 1 - list.ahead) }
{
    if index < list.ahead {
        return end;
    }
    let start = Start {
        func,
        list: list.number,
        first: index - list.ahead,
    };
    end.max(end_at(ends, start))
}

/// Whether a part of a list lies within a covered statement, or is a statement that stands in a member, by the furthest end of
/// those that begin with it or before it.
fn is_covered(inside: bool, list: ListPlace, index: u32, end: u64) -> bool
    ensures { result ≡ (inside || (nat_le list.ahead index && nat_lt (index - list.ahead) end)) }
{
    inside || list.ahead <= index && u64::from(index - list.ahead) < end
}

/// Counts a part of a list, if it is a statement.
fn count_own(list: ListPlace, index: u32, covered: bool, tally: &mut Tally) -> Result<(), Memory>
    ensures { OnOk result (tally.new ≡ added tally.old (rules.own list.ahead index covered)) }
{
    if list.ahead <= index {
        tally.count(covered)?;
    }
    Ok(())
}
