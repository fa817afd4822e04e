//! Ranks of declarations, by which most are seen not to need themselves.

ghost use Rattle.std.specs.Prelude.{◌≡◌, ◌≤◌, Bool, IfOk, OnOk, map};
ghost use Rattle.std.specs.HashMap as hash;
ghost use Rattle.go_scopes_cycles.specs.Ranks.{rank_of, bound_of, full_part, partial_part, is_within, HasRank, Grows, Covers, CoversAll, is_ranked, are_ranked, is_above, are_above};
ghost use Rattle.go_scopes_lookup.specs.Views.{found_view, asked_view};

use crate::needs::source_of;
use go_scopes_lookup::asked::Asked;
use go_scopes_lookup::found::Found;
use go_tree::context::{Reach, Site};
use std::alloc::{AllocError, Global};
use std::collections::HashMap;

/// The ranks of a declaration that is needed in full, and of one that is needed in part.
#[derive(Clone, Copy, Debug)]
pub struct Rank {
    pub full: usize,
    pub partial: usize,
}

/// The ranks of declarations, by the numbers of their files and their names' tokens.
pub type Ranks = HashMap<(u32, u32), Rank>;

/// A part of a specification.
#[derive(Clone, Copy, Debug, PartialEq, Eq, Hash)]
pub enum Part {
    /// What each of its names needs in full.
    Always,
    /// What a name with this column needs.
    Value(usize),
    /// What a type needs that is needed in full.
    Full,
    /// What a type needs that is needed in part.
    Partial,
}

/// A part of the specification of this number of a file.
pub type Place = ((u32, u32), Part);

/// The greatest rank in each part.
pub type Bounds = HashMap<Place, usize>;

/// The rank of a declaration.
pub fn rank_of(ranks: &Ranks, d: &Found<'_>, full: bool) -> usize
    ensures { result ≡ rank_of ranks.now d.now.file d.now.declaration.now.name full }
{
    match ranks.get(&(d.file, d.declaration.name)) {
        None => usize::MAX,
        Some(rank) => { if full { rank.full } else { rank.partial } }
    }
}

/// The greatest rank in the part.
fn bound_of(bounds: &Bounds, place: Place) -> usize
    ensures { result ≡ bound_of bounds.now place }
{
    bounds.get(&place).copied().unwrap_or(0)
}

/// The specification and part of a name that is needed in full.
pub fn full_part(site: Site) -> Option<(u32, Part)>
    ensures { result ≡ full_part site }
{
    match site {
        Site::Elsewhere => None,
        Site::Type { specification } => Some((specification, Part::Always)),
        Site::Value {
            specification,
            column,
            alone,
        } => {
            if alone {
                Some((specification, Part::Always))
            } else {
                Some((specification, Part::Value(column)))
            }
        }
        Site::Right {
            specification,
            reach,
        } => match reach {
            Reach::Direct | Reach::Indirect => Some((specification, Part::Full)),
            Reach::Length => Some((specification, Part::Always)),
        },
    }
}

/// The specification and part of a name that is needed in part.
pub fn partial_part(site: Site) -> Option<(u32, Part)>
    ensures { result ≡ partial_part site }
{
    match site {
        Site::Right {
            specification,
            reach: Reach::Direct,
        } => { Some((specification, Part::Partial)) }
        _ => None,
    }
}

/// Notes a rank in a part, if there is one.
fn raise(
    bounds: &mut Bounds,
    file: u32,
    part: Option<(u32, Part)>,
    rank: usize,
) -> Result<(), AllocError>
    ensures grows { OnOk result (Grows bounds.old bounds.new) }
    ensures has { OnOk result (HasRank bounds.new file part rank) }
{
    let Some((specification, part)) = part else {
        return Ok(());
    };
    let place = ((file, specification), part);
    let bound = bound_of(bounds, place).max(rank);
    bounds.insert(place, bound)?;
    Ok(())
}

/// Notes the ranks of the declaration that the name calls for.
fn add(bounds: &mut Bounds, ranks: &Ranks, a: &Asked<'_>) -> Result<(), AllocError>
    ensures grows { OnOk result (Grows bounds.old bounds.new) }
    ensures covers { OnOk result (Covers bounds.new ranks.now (asked_view a.now)) }
{
    let Some(d) = source_of(a.meaning) else {
        return Ok(());
    };
    let site = a.lookup.site.get();
    raise(bounds, a.file, full_part(site), rank_of(ranks, &d, true))?;
    raise(
        bounds,
        a.file,
        partial_part(site),
        rank_of(ranks, &d, false),
    )?;
    Ok(())
}

/// The greatest rank in each part.
pub fn bounds(alloc: Global, lookups: &[Asked<'_>], ranks: &Ranks) -> Result<Bounds, AllocError>
    ensures { IfOk result (λ m. CoversAll m ranks.now (map asked_view lookups.now)) }
{
    let mut bounds = HashMap::new(alloc);
    for number in (0..lookups.len()).rev() {
        add(&mut bounds, ranks, &lookups[number])?;
    }
    Ok(bounds)
}

/// Whether what the declaration needs has no higher rank.
fn is_within(bounds: &Bounds, d: &Found<'_>, full: bool, rank: usize) -> bool
    ensures { result ≡ is_within bounds.now (found_view d.now) full rank }
{
    let Some(source) = d.declaration.source else {
        return true;
    };
    let own = if full { Part::Full } else { Part::Partial };
    bound_of(bounds, ((d.file, source), Part::Always)) <= rank
        && bound_of(
            bounds,
            ((d.file, source), Part::Value(d.declaration.column as usize)),
        ) <= rank
        && bound_of(bounds, ((d.file, source), own)) <= rank
}

/// Whether a declaration needs none of a higher rank than its own.
fn is_ranked(bounds: &Bounds, ranks: &Ranks, d: &Found<'_>) -> bool
    ensures { result ≡ is_ranked bounds.now ranks.now (found_view d.now) }
{
    is_within(bounds, d, true, rank_of(ranks, d, true))
        && is_within(bounds, d, false, rank_of(ranks, d, false))
}

/// Whether this holds of all that the names call for.
pub fn are_ranked(bounds: &Bounds, ranks: &Ranks, lookups: &[Asked<'_>]) -> bool
    ensures { result ≡ are_ranked bounds.now ranks.now (map asked_view lookups.now) }
{
    for a in lookups {
        if let Some(d) = source_of(a.meaning) {
            if !is_ranked(bounds, ranks, &d) {
                return false;
            }
        }
    }
    true
}

/// Whether a declaration needs only ones of lower ranks than its own, in full and in part.
pub fn is_above(bounds: &Bounds, ranks: &Ranks, d: &Found<'_>) -> bool
    ensures { result ≡ is_above bounds.now ranks.now (found_view d.now) }
{
    let own = rank_of(ranks, d, false);
    1 <= own && own <= rank_of(ranks, d, true) && is_within(bounds, d, false, own - 1)
}

/// Whether this holds of all that the names call for.
pub fn are_above(bounds: &Bounds, ranks: &Ranks, lookups: &[Asked<'_>]) -> bool
    ensures { result ≡ are_above bounds.now ranks.now (map asked_view lookups.now) }
{
    for a in lookups {
        if let Some(d) = source_of(a.meaning) {
            if !is_above(bounds, ranks, &d) {
                return false;
            }
        }
    }
    true
}
