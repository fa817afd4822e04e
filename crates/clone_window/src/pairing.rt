//! When locals are paired one to one.

ghost use Rattle.std.specs.Prelude.{◌≡◌, ℕ, map, nat_eq, slice_get, IfOk};
ghost use Rattle.std.specs.Option.{option_map, unwrap_or};
ghost use Rattle.std.specs.List.{list_all, zip};
ghost use Rattle.go_typed.specs.Views.{sort_view};
ghost use Rattle.clone_window.specs.Sameness.{are_alike, is_matched, is_one_to_one, sort_at};
ghost use Rattle.clone_window.specs.Pairing.{is_settled};

use crate::alike::are_alike;
use go_base::Memory;
use go_typed::sort::Sort;
use std::alloc::Global;
use std::collections::HashMap;

/// Whether locals are paired one to one: two pairs have one first local exactly where they have one second local.
///
/// # Errors
///
/// Want of memory.
pub fn is_one_to_one(alloc: Global, left: &[u32], right: &[u32]) -> Result<bool, Memory>
    ensures { IfOk result (λ b. b ≡ is_one_to_one (zip left.now right.now)) }
{
    Ok(is_settled(alloc, left, right)? && is_settled(alloc, right, left)?)
}

/// Whether no local of the first row is paired with two of the second one.
fn is_settled(alloc: Global, left: &[u32], right: &[u32]) -> Result<bool, Memory>
    ensures { IfOk result (λ b. b ≡ is_settled (zip left.now right.now)) }
{
    let mut partners = HashMap::new(alloc);
    for index in 0..left.len().min(right.len()) {
        match partners.get(&left[index]) {
            Some(partner) => {
                if *partner != right[index] {
                    return Ok(false);
                }
            }
            None => {
                partners.insert(left[index], right[index])?;
            }
        }
    }
    Ok(true)
}

/// Whether the two locals of each pair are alike in what they stand for.
pub fn are_matched(here: &[Sort], there: &[Sort], left: &[u32], right: &[u32]) -> bool
    ensures { result ≡ list_all (is_matched nat_eq (map sort_view here.now) (map sort_view there.now)) (zip left.now right.now) }
{
    for index in 0..left.len().min(right.len()) {
        if !is_matched(here, there, left[index], right[index]) {
            return false;
        }
    }
    true
}

/// Whether two locals are alike in what they stand for.
fn is_matched(here: &[Sort], there: &[Sort], local: u32, other: u32) -> bool
    ensures { result ≡ are_alike nat_eq (sort_at (map sort_view here.now) local) (sort_at (map sort_view there.now) other) }
{
    let unknown = Sort::Unknown;
    let sort = sort_or(sort_of(here, local), &unknown);
    are_alike(sort, sort_or(sort_of(there, other), &unknown))
}

/// What a local of a function stands for, if there is such a local.
fn sort_of(sorts: &[Sort], local: u32) -> Option<&Sort>
    ensures { slice_get (map sort_view sorts.now) local ≡ option_map (λ s. sort_view s.now) result }
{
    sorts.get(local as usize)
}

/// What a local stands for, or the other sort where there is no such local.
fn sort_or<'a>(sort: Option<&'a Sort>, other: &'a Sort) -> &'a Sort
    ensures { sort_view result.now ≡ unwrap_or (option_map (λ s. sort_view s.now) sort.entry) (sort_view other.now) }
{
    match sort {
        Some(sort) => sort,
        None => other,
    }
}
