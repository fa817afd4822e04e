//! Which locals of a template occur behind the windows.

ghost use Rattle.std.specs.Prelude.{◌≡◌, ℕ, List, Some, false, map, nat_eq, nat_lt, length, replicate, slice_get, slice_set, IfOk};
ghost use Rattle.std.specs.HashMap as hash_map;
ghost use Rattle.std.specs.List.{zip};
ghost use Rattle.go_tree.specs.Uses.{UsesView};
ghost use Rattle.go_typed.specs.Funcs.{tree_of};
ghost use Rattle.go_typed.specs.Trees.{Typeds};
ghost use Rattle.go_typed.specs.Views.{views};
ghost use Rattle.clone_window.specs.Sameness.{all_locals};
ghost use Rattle.clone_window.specs.Spans as spans;
ghost use Rattle.param_choose.specs.Ends as last_uses;
ghost use Rattle.param_choose.specs.Ends.{place_in};
ghost use Rattle.param_choose.specs.Members.{member_over, members_in, second_of};
ghost use Rattle.param_choose.specs.Marks as marks;

use crate::differ::{either_each, unmarked};
use clone_window::locals::locals_of;
use clone_window::run::statements;
use clone_window::span::last_from;
use go_base::Memory;
use go_typed::checked::Checked;
use go_typed::func::TypedFunc;
use go_typed::node::TypedNode;
use go_typed::window::Window;
use std::alloc::{AllocError, Global};
use std::collections::HashMap;

/// Which of some locals of a template have a local that stands where they do in some window and occurs behind that window. Each
/// function of the package is looked at once, and each window.
///
/// # Errors
///
/// Want of memory.
#[tactic(auto, using(crate::proofs::Members::member_there, crate::proofs::Members::member_missing))]
pub fn needed(
    alloc: Global,
    checked: &Checked,
    template: &[Option<TypedNode>],
    locals: &[u32],
    windows: &[Window],
) -> Result<Vec<bool>, Memory>
    ensures { IfOk result (λ v. v.items ≡ marks.needed (views template.now) locals.now (replicate (length locals.now) false) (members_in checked.now windows.now)) }
{
    let ends = all_ends(alloc, checked.functions())?;
    let places = places_of(alloc, &locals_of(alloc, template)?)?;
    let mut found = unmarked(alloc, locals.len())?;
    for window in windows {
        if let Some(func) = checked.function(window.func) {
            let ends = ends_at(&ends, window.func);
            found = or_later(alloc, func, window, ends, &places, locals, &found)?;
        }
    }
    Ok(found)
}

/// Which of some locals of a template, which stand at these places, are marked, or have a local that stands where they do in a window
/// and occurs behind it.
#[tactic(auto, using(crate::proofs::Ends::ends_occur))]
fn or_later(
    alloc: Global,
    func: &TypedFunc,
    window: &Window,
    ends: &[usize],
    places: &HashMap<u32, usize>,
    locals: &[u32],
    found: &[bool],
) -> Result<Vec<bool>, Memory>
    requires { ends.now ≡ last_uses.ends_of func.now }
    ensures { (ps : Typeds ℕ) (u : UsesView) → ((n : ℕ) → hash_map.get nat_eq places.now n ≡ place_in (all_locals false ps) n)
        → IfOk result (λ v. v.items ≡ marks.either_each found.now (marks.later_each ps locals.now (member_over u window.now func.now.locals func.now.tokens (tree_of func.now)))) }
{
    func.root();
    let row = later_each(alloc, places, ends, statements(func, window), locals)?;
    Ok(either_each(alloc, found, &row)?)
}

/// Which of some locals of a template, which stand at these places, have a local of statements that occurs behind these.
fn later_each(
    alloc: Global,
    places: &HashMap<u32, usize>,
    ends: &[usize],
    statements: &[Option<TypedNode>],
    locals: &[u32],
) -> Result<Vec<bool>, Memory>
    ensures { (left : List ℕ) → ((n : ℕ) → hash_map.get nat_eq places.now n ≡ place_in left n)
        → IfOk result (λ v. v.items ≡ map (λ n. nat_lt (spans.last_from 0 (views statements.now)) (last_uses.end_at ends.now (second_of (zip left (all_locals false (views statements.now))) n))) locals.now) }
{
    let others = locals_of(alloc, statements)?;
    let upto = last_from(0, statements) as usize;
    let mut row = Vec::with_capacity(alloc, locals.len())?;
    for local in locals {
        row.push(is_later(places, &others, ends, upto, *local))?;
    }
    Ok(row)
}

/// Whether the local that stands where a local of the template does occurs behind a token.
fn is_later(
    places: &HashMap<u32, usize>,
    others: &[u32],
    ends: &[usize],
    upto: usize,
    local: u32,
) -> bool
    ensures { (left : List ℕ) → ((n : ℕ) → hash_map.get nat_eq places.now n ≡ place_in left n)
        → result ≡ nat_lt upto (last_uses.end_at ends.now (second_of (zip left others.now) local)) }
{
    upto < end_at(ends, local_at(places, others, local))
}

/// The local that stands where a local of the template does, by the places of these.
#[tactic(auto, using(crate::proofs::Ends::second_at))]
pub fn local_at(places: &HashMap<u32, usize>, others: &[u32], local: u32) -> u32
    ensures { (left : List ℕ) → ((n : ℕ) → hash_map.get nat_eq places.now n ≡ place_in left n) → result ≡ second_of (zip left others.now) local }
{
    match places.get(&local) {
        Some(place) => match others.get(*place) {
            Some(other) => *other,
            None => local,
        },
        None => local,
    }
}

/// The first place of each local in a row.
#[tactic(auto, using(crate::proofs::Ends::place_more))]
pub fn places_of(alloc: Global, locals: &[u32]) -> Result<HashMap<u32, usize>, AllocError>
    ensures { IfOk result (λ m. (n : ℕ) → hash_map.get nat_eq m n ≡ place_in locals.now n) }
{
    let mut places = HashMap::new(alloc);
    for index in 0..locals.len() {
        if !places.contains_key(&locals[index]) {
            places.insert(locals[index], index)?;
        }
    }
    Ok(places)
}

/// For each local of a function the number behind the last token that names it; 0 where there is no such local.
pub fn end_at(ends: &[usize], local: u32) -> usize
    ensures { result ≡ last_uses.end_at ends.now local }
{
    match ends.get(local as usize) {
        Some(end) => *end,
        None => 0,
    }
}

/// The row of a function; an empty one where there is none.
pub fn ends_at(ends: &[Vec<usize>], number: u32) -> &[usize]
    ensures { (row : List ℕ) → slice_get (map (λ v. v.items) ends.now) number ≡ Some row → result.now ≡ row }
{
    match ends.get(number as usize) {
        Some(row) => row,
        None => &[],
    }
}

/// For each function, and each local of it, the number behind the last token that names the local; 0 where none does.
pub fn all_ends(alloc: Global, functions: &[TypedFunc]) -> Result<Vec<Vec<usize>>, AllocError>
    ensures { IfOk result (λ v. map (λ row. row.items) v.items ≡ map last_uses.ends_of functions.now) }
{
    let mut out = Vec::with_capacity(alloc, functions.len())?;
    for func in functions {
        out.push(ends_of(alloc, func)?)?;
    }
    Ok(out)
}

/// The same of a function.
fn ends_of(alloc: Global, func: &TypedFunc) -> Result<Vec<usize>, AllocError>
    ensures { IfOk result (λ v. v.items ≡ last_uses.ends_of func.now) }
{
    let mut ends = no_ends(alloc, func.locals().len())?;
    let tokens = func.tokens();
    for token in 0..tokens.len() {
        if let Some(local) = tokens[token].local() {
            put_end(&mut ends, local as usize, token + 1);
        }
    }
    Ok(ends)
}

/// As many times 0.
fn no_ends(alloc: Global, count: usize) -> Result<Vec<usize>, AllocError>
    ensures { IfOk result (λ v. v.items ≡ replicate count 0) }
{
    vec![in alloc; 0; count]
}

/// Sets the number of a local, if there is such a local.
fn put_end(ends: &mut Vec<usize>, local: usize, end: usize)
    ensures { ends.new.items ≡ slice_set ends.old.items local end }
{
    if local < ends.len() {
        ends[local] = end;
    }
}
