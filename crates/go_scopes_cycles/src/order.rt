//! The order of the declarations of a package by what needs what.

ghost use Rattle.std.specs.Prelude.{◌≡◌, ℕ, List, true, false, Some, IsPermutation, is_some, IfOk, IfSome, map};
ghost use Rattle.std.specs.List.Sorted.{IsNonDecreasingBy};
ghost use Rattle.go_tree.specs.Needs.{needs_itself};
ghost use Rattle.go_scopes_lookup.specs.Views.{found_view, asked_view};
ghost use Rattle.go_tree.specs.Lookups as rules;
ghost use Rattle.go_scopes_cycles.specs.Ranks.{rank_of};
ghost use Rattle.go_scopes_cycles.specs.Order.{IsOrder, rank_shown, NeedsBelow, is_placed, are_placed, StandInOrder};

use crate::circle::circle;
use crate::columns::are_alike;
use crate::graph::{Graph, graph_of};
use crate::ranks::{Bounds, Ranks, are_above, are_ranked, bounds, is_above, rank_of};
use crate::rounds::needs_itself;
use crate::search::ranks;
use crate::walk::is_circle;
use go_scopes_lookup::asked::Asked;
use go_scopes_lookup::found::Found;
use std::alloc::{AllocError, Global};

/// What needs what in a package, with what shows whether a declaration needs itself.
#[derive(Drop)]
pub struct Order {
    ranks: Ranks,
    bounds: Bounds,
    /// Whether no name calls for a declaration that needs one of a higher rank.
    holds: bool,
    /// Whether the declarations of one name that the names call for are alike.
    alike: bool,
    /// Whether all declarations that names call for need only ones of lower ranks.
    ordered: bool,
    graph: Graph,
}

/// The order of the declarations by what needs what.
pub fn order_of(
    alloc: Global,
    lookups: &[Asked<'_>],
    declared: &[Found<'_>],
) -> Result<Order, AllocError>
    ensures { IfOk result (λ o. IsOrder o (map asked_view lookups.now)) }
{
    let graph = graph_of(alloc, lookups, declared)?;
    let ranks = ranks(alloc, &graph, declared)?;
    let bounds = bounds(alloc, lookups, &ranks)?;
    let holds = are_ranked(&bounds, &ranks, lookups);
    let alike = are_alike(alloc, lookups, declared)?;
    let ordered = are_above(&bounds, &ranks, lookups);
    Ok(Order {
        ranks,
        bounds,
        holds,
        alike,
        ordered,
        graph,
    })
}

/// The declarations by their ranks.
fn by_rank<'a>(
    alloc: Global,
    ranks: &Ranks,
    declared: &[Found<'a>],
) -> Result<Vec<Found<'a>>, AllocError>
    ensures all { IfOk result (λ v. IsPermutation declared.now v.items) }
    ensures order { IfOk result (λ v. IsNonDecreasingBy (λ d. rank_of ranks.now d.file d.declaration.now.name false) v.items) }
{
    let mut sorted = Vec::from_slice(alloc, declared)?;
    sorted.sort_by_key(|d| rank_of(ranks, d, false))?;
    Ok(sorted)
}

impl Order {
    /// What the ranks or a circle show of a declaration: whether it needs itself, by way of at most `rounds` others. It doesn't
    /// where the ranks show that it needs only ones of lower ranks, and does where there is a circle. None where neither shows
    /// anything.
    pub fn shown<'a>(
        &self,
        alloc: Global,
        lookups: &[Asked<'a>],
        rounds: usize,
        d: &Found<'a>,
    ) -> Result<Option<bool>, AllocError>
        requires { IsOrder self.now (map asked_view lookups.now) }
        ensures itself { IfOk result (λ shown. IfSome shown (λ b. b ≡ needs_itself (map asked_view lookups.now) rounds (found_view d.now))) }
        ensures placed { is_placed self.now (found_view d.now) ≡ true → IfOk result (λ shown. shown ≡ Some false) }
    {
        if self.is_placed(d) {
            return Ok(Some(false));
        }
        let names = circle(alloc, &self.graph, d)?;
        if self.alike && is_circle(lookups, rounds, d, &names) {
            return Ok(Some(true));
        }
        Ok(None)
    }

    /// The rank of a declaration: all that it needs at once has lower ranks. So declarations that are sorted by their ranks stand
    /// each behind those that it needs. None where the ranks don't show it, as where a declaration needs itself.
    pub fn rank(&self, d: &Found<'_>) -> Option<usize>
        ensures rank { result ≡ rank_shown self.now (found_view d.now) }
        ensures below { IfSome result (λ r. (asks : List rules.Asked) → IsOrder self.now asks → NeedsBelow self.now r asks (found_view d.now)) }
    {
        if self.ordered && is_above(&self.bounds, &self.ranks, d) {
            Some(rank_of(&self.ranks, d, false))
        } else {
            None
        }
    }

    /// Whether the ranks show that a declaration needs only ones of lower ranks.
    fn is_placed(&self, d: &Found<'_>) -> bool
        ensures { result ≡ is_placed self.now (found_view d.now) }
    {
        self.holds && is_above(&self.bounds, &self.ranks, d)
    }

    /// Whether they show it of all these.
    fn are_placed(&self, declared: &[Found<'_>]) -> bool
        ensures { result ≡ are_placed self.now (map found_view declared.now) }
    {
        for d in declared {
            if !self.is_placed(d) {
                return false;
            }
        }
        true
    }

    /// The declarations in the order of their ranks: each stands behind those that it needs, at once or through others. None
    /// where the ranks don't show that each needs only ones of lower ranks, as where one needs itself.
    ///
    /// # Errors
    ///
    /// Want of memory.
    pub fn in_order<'a>(
        &self,
        alloc: Global,
        declared: &[Found<'a>],
    ) -> Result<Option<Vec<Found<'a>>>, AllocError>
        ensures answers { IfOk result (λ o. is_some o ≡ are_placed self.now (map found_view declared.now)) }
        ensures all { IfOk result (λ o. IfSome o (λ v. IsPermutation declared.now v.items)) }
        ensures order { IfOk result (λ o. IfSome o (λ v. (asks : List rules.Asked) → IsOrder self.now asks → StandInOrder asks (map found_view v.items))) }
    {
        if !self.are_placed(declared) {
            return Ok(None);
        }
        Ok(Some(by_rank(alloc, &self.ranks, declared)?))
    }

    /// Whether a declaration needs itself, by way of at most `rounds` others (Go specification: Type declarations, Package
    /// initialization).
    ///
    /// The rounds of the definition decide it where neither the ranks nor a circle do, which doesn't happen if the searches are
    /// right.
    pub fn needs_itself<'a>(
        &self,
        alloc: Global,
        lookups: &[Asked<'a>],
        rounds: usize,
        d: &Found<'a>,
    ) -> Result<bool, AllocError>
        requires { IsOrder self.now (map asked_view lookups.now) }
        ensures { IfOk result (λ b. b ≡ needs_itself (map asked_view lookups.now) rounds (found_view d.now)) }
    {
        match self.shown(alloc, lookups, rounds, d)? {
            Some(itself) => Ok(itself),
            None => needs_itself(alloc, lookups, rounds, d),
        }
    }
}
