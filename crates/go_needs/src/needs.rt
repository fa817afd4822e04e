//! What the objects of a package need.

ghost use Rattle.std.specs.Prelude.{◌≡◌, ◌≤◌, ℕ, Bool, List, Some, true, IfOk, IfSome, length, map, nat_lt, slice_get, is_some};
ghost use Rattle.go_scopes_events.specs.Scopes.{AreOrderly};
ghost use Rattle.go_tree.specs.Declarations.{found};
ghost use Rattle.go_tree.specs.File.{FileTree};
ghost use Rattle.go_scopes.specs.Resolve.{units_of};
ghost use Rattle.go_scopes_lookup.specs.Views.{units_view};
ghost use Rattle.go_declarations.specs.Views.{seen_all};
ghost use Rattle.go_package_defs.specs.Declarations as declarations;
ghost use Rattle.go_package_defs.specs.Knowledge.{Outline, State, outlines};
ghost use Rattle.go_package_defs.specs.Sources.{Package, package_of, source_of};
ghost use Rattle.go_package_defs.specs.Verdicts.{is_blocked};
ghost use Rattle.go_needs.specs.Bounds.{AreBounds};
ghost use Rattle.go_needs.specs.Passing.{ArePassing, is_faulty, is_misassigned};
ghost use Rattle.go_needs.specs.Ranks.{AreRanks, rank_by};
ghost use Rattle.go_needs.specs.Calls.{calls_of, fits};
ghost use Rattle.go_needs.specs.Tells.{TellsDeclared, TellsNeeds, all_owners, names_asked};

use crate::blocked::{any_column, blocking, failing, flags, none_passing, passings};
use crate::bounds::{Bound, are_bounded, levels_under};
use crate::calls::{Call, calls_of};
use crate::declaring::{Declaring, declaring_at, declaring_of, table_of};
use crate::groups::{Group, all_of, group_at, groups_of};
use crate::nearest::nearest;
use crate::objects::{owned_of, owners_of};
use crate::owners::Owner;
use crate::ranked::{Tried, are_lower, are_ranked, object_ranks, own_bounds, shown};
use crate::ranks::{ranks, seeds};
use crate::reached::reached;
use crate::search::graded_levels;
use go_base::Memory;
use go_declarations::Specification;
use go_scopes::names::entries_of;
use go_scopes_lookup::found::all_found;
use go_scopes_lookup::look_up::sited_names;
use go_scopes_lookup::unit::Unit;
use go_tree::uses::Uses;
use std::alloc::Global;

/// What the objects of a package need, at once or through others.
#[derive(Debug, Drop)]
pub struct Needs {
    declaring: Vec<Declaring>,
    owners: Vec<Owner>,
    groups: Vec<Group>,
    calls: Vec<Call>,
}

/// Whether an object passes a test with all that it needs: where it is needed in part, and in full.
#[derive(Clone, Copy, Debug)]
pub struct Passing {
    pub at_once: bool,
    pub in_full: bool,
}

/// What is held of the declarations of a package.
#[derive(Drop)]
struct Held {
    declaring: Vec<Declaring>,
    owners: Vec<Owner>,
    groups: Vec<Group>,
}

/// What is held of the declarations of a package with these files and specifications.
fn held_of(
    alloc: Global,
    uses: &Uses,
    units: &[Unit<'_>],
    specifications: &[Specification<'_>],
) -> Result<Held, Memory>
    requires { length units.now ≤ 256 }
    ensures { IfOk result (λ h. (p : Package) → p.uses ≡ uses.now → p.declared ≡ found (units_view units.now) → TellsDeclared h p (seen_all specifications.now)) }
{
    let owned = owned_of(alloc, &all_found(alloc, units)?)?;
    let table = table_of(alloc, specifications)?;
    let declaring = declaring_of(alloc, &table, uses.package_objects())?;
    let owners = owners_of(alloc, &owned, &table, uses.package_objects())?;
    let groups = groups_of(alloc, uses, &owned, specifications)?;
    Ok(Held {
        declaring,
        owners,
        groups,
    })
}

/// The names in specifications that call for objects of the package with these files.
fn calls_in<'a>(
    alloc: Global,
    uses: &Uses,
    units: &'a [Unit<'a>],
    held: &Held,
) -> Result<Vec<Call>, Memory>
    requires few { length units.now ≤ 256 }
    requires orderly { AreOrderly (units_view units.now) }
    ensures calls { IfOk result (λ v. v.items ≡ calls_of uses.now (all_owners held.now) (names_asked (units_view units.entry.now))) }
    ensures fits { IfOk result (λ v. fits uses.now held.now.owners.items (all_owners held.now) (names_asked (units_view units.entry.now)) ≡ true) }
{
    let entries = entries_of(alloc, units)?;
    let asked = sited_names(alloc, units, &entries)?;
    let all = all_of(alloc, &held.owners, &held.groups)?;
    calls_of(alloc, uses, &held.owners, &all, &asked)
}

/// What the objects of a package need, whose files have these units, whose names mean this and which has these specifications. The
/// files are numbered from 0 by their places.
///
/// # Errors
///
/// Want of memory.
pub fn needs_of<'a>(
    alloc: Global,
    units: &'a [Unit<'a>],
    uses: &Uses,
    specifications: &[Specification<'_>],
) -> Result<Needs, Memory>
    requires few { length units.now ≤ 256 }
    requires orderly { AreOrderly (units_view units.now) }
    ensures { IfOk result (λ n. (fs : List FileTree) → units_view units.entry.now ≡ units_of fs → TellsNeeds n (package_of (map source_of fs) uses.now) (seen_all specifications.now)) }
{
    let held = held_of(alloc, uses, units, specifications)?;
    let calls = calls_in(alloc, uses, units, &held)?;
    Ok(Needs {
        declaring: held.declaring,
        owners: held.owners,
        groups: held.groups,
        calls,
    })
}

impl Needs {
    /// Which specification declares the object of this number, if there are so many objects.
    pub fn declaring(&self, number: usize) -> Option<Declaring>
        ensures answers { (p : Package) (ds : List declarations.Specification) → TellsNeeds self.now p ds → is_some result ≡ nat_lt number (length p.uses.package_level) }
        ensures specification { IfSome result (λ x. (p : Package) (ds : List declarations.Specification) (o : Outline) → TellsNeeds self.now p ds →
            slice_get (outlines p ds) number ≡ Some o → slice_get ds x.specification ≡ Some o.specification) }
        ensures column { IfSome result (λ x. (p : Package) (ds : List declarations.Specification) (o : Outline) → TellsNeeds self.now p ds →
            slice_get (outlines p ds) number ≡ Some o → x.column ≡ o.column) }
    {
        declaring_at(&self.declaring, number)
    }

    /// Of each object whether it passes a test with all that it needs, by a search from those that fail it.
    fn passing_by_search(&self, alloc: Global, tests: &[bool]) -> Result<Vec<Passing>, Memory>
        ensures { IfOk result (λ v. (p : Package) (ds : List declarations.Specification) (ss : List State) (test : State → Bool) → TellsNeeds self.now p ds →
            length ss ≡ length p.uses.package_level → tests.now ≡ map test ss → ArePassing test (outlines p ds) ss v.items) }
    {
        let fails = failing(alloc, tests)?;
        let nearest = reached(alloc, &self.owners, &self.calls, &fails)?;
        Ok(passings(alloc, &nearest, tests, &self.owners)?)
    }

    /// Of each object whether it passes a test with all that it needs, at once or through others. `tests` says which objects pass by
    /// themselves: where none does, none passes with what it needs either, and nothing is searched.
    ///
    /// # Errors
    ///
    /// Want of memory.
    pub fn passing(&self, alloc: Global, tests: &[bool]) -> Result<Vec<Passing>, Memory>
        ensures { IfOk result (λ v. (p : Package) (ds : List declarations.Specification) (ss : List State) (test : State → Bool) → TellsNeeds self.now p ds →
            length ss ≡ length p.uses.package_level → tests.now ≡ map test ss → ArePassing test (outlines p ds) ss v.items) }
    {
        if tests.contains(&true) {
            self.passing_by_search(alloc, tests)
        } else {
            Ok(none_passing(alloc, self.owners.len())?)
        }
    }

    /// Whether these numbers are above no rank of an object and of what it needs, at once or through others. It is told of ranks and
    /// numbers up to `top`.
    ///
    /// # Errors
    ///
    /// Want of memory.
    pub fn are_bounds(
        &self,
        alloc: Global,
        top: usize,
        ranks: &[usize],
        bounds: &[Bound],
    ) -> Result<bool, Memory>
        ensures { IfOk result (λ b. b ≡ true → (p : Package) (ds : List declarations.Specification) → TellsNeeds self.now p ds → AreBounds ranks.now bounds.now (outlines p ds)) }
    {
        let levels = levels_under(alloc, top, bounds)?;
        let nearest = nearest(alloc, &self.calls, &levels)?;
        Ok(are_bounded(&nearest, top, ranks, bounds, &self.owners))
    }

    /// Whether the specification of this number needs a declaration with a fault, so that its own rule isn't judged. `faulty` says in
    /// which objects' types and expressions a rule fails, `assigning` at which objects' own assignments.
    ///
    /// # Errors
    ///
    /// Want of memory.
    pub fn is_blocked(
        &self,
        alloc: Global,
        specification: usize,
        faulty: &[bool],
        assigning: &[bool],
    ) -> Result<bool, Memory>
        ensures { IfOk result (λ b. (p : Package) (ds : List declarations.Specification) (ss : List State) (d : declarations.Specification) → TellsNeeds self.now p ds →
            length ss ≡ length p.uses.package_level → slice_get ds specification ≡ Some d → faulty.now ≡ map is_faulty ss → assigning.now ≡ map is_misassigned ss → b ≡ is_blocked p (outlines p ds) ss d) }
    {
        let Some(group) = group_at(&self.groups, specification) else {
            return Ok(false);
        };
        let own = flags(alloc, &group.numbers, &self.owners)?;
        let needing = reached(alloc, &self.owners, &self.calls, &own)?;
        let failing = blocking(
            alloc,
            &needing,
            &self.groups,
            &own,
            faulty,
            assigning,
            &self.declaring,
        )?;
        let nearest = reached(alloc, &self.owners, &self.calls, &failing)?;
        Ok(any_column(&nearest, group))
    }

    /// Whether no specification needs an object of a higher rank than its own, by these ranks of specifications and of objects, none of
    /// which is above `top`.
    fn are_ranks(
        &self,
        alloc: Global,
        top: usize,
        ranks: &[usize],
        own: &[usize],
    ) -> Result<bool, Memory>
        ensures { IfOk result (λ b. b ≡ true → (p : Package) (ds : List declarations.Specification) → TellsNeeds self.now p ds → AreRanks ranks.now own.now p ds) }
    {
        let bounds = own_bounds(alloc, own)?;
        let levels = levels_under(alloc, top, &bounds)?;
        let nearest = nearest(alloc, &self.calls, &levels)?;
        if !are_bounded(&nearest, top, own, &bounds, &self.owners) {
            return Ok(false);
        }
        Ok(are_ranked(&nearest, top, ranks, &self.groups))
    }

    /// Of each specification whether a search from the objects with a fault, those of the lowest rank first, comes to it from one under
    /// its own rank; of none where that can't be told.
    fn shown(
        &self,
        alloc: Global,
        top: usize,
        ranks: &[usize],
        own: &[usize],
        faulty: &[bool],
        assigning: &[bool],
    ) -> Result<Vec<bool>, Memory>
        ensures { IfOk result (λ v. (p : Package) (ds : List declarations.Specification) (ss : List State) (n : ℕ) (d : declarations.Specification) → TellsNeeds self.now p ds →
            AreRanks ranks.now own.now p ds → own.now ≡ map (rank_by ranks.now) self.now.declaring.items →
            length ss ≡ length p.uses.package_level → slice_get ds n ≡ Some d → faulty.now ≡ map is_faulty ss → assigning.now ≡ map is_misassigned ss →
            slice_get v.items n ≡ Some true → is_blocked p (outlines p ds) ss d ≡ true) }
    {
        let seeds = seeds(alloc, top, own, faulty, assigning)?;
        let found = graded_levels(alloc, &self.owners, &self.calls, &seeds)?;
        let nearest = nearest(alloc, &self.calls, &found.levels)?;
        let tried = Tried {
            nearest: &nearest,
            levels: &found.levels,
            grades: &found.grades,
            ranks: own,
        };
        if !are_lower(&tried, faulty, assigning, &self.owners) {
            return Ok(Vec::new(alloc));
        }
        let bound = self.owners.len().saturating_add(self.owners.len());
        Ok(shown(alloc, &tried, bound, ranks, &self.groups)?)
    }

    /// Of each specification whether it is seen at once, by an order of all of them, that it needs a declaration with a fault, so that its
    /// own rule isn't judged; `faulty` and `assigning` are those of `is_blocked`, which tells of one specification whether it does. One
    /// that isn't seen may need such a declaration too. It is meant to be so only where specifications need one another in a circle, as
    /// `const a, b = 1, c` and `const c, d = a, 2` do.
    ///
    /// # Errors
    ///
    /// Want of memory.
    pub fn blocked_in_order(
        &self,
        alloc: Global,
        faulty: &[bool],
        assigning: &[bool],
    ) -> Result<Vec<bool>, Memory>
        ensures { IfOk result (λ v. (p : Package) (ds : List declarations.Specification) (ss : List State) (n : ℕ) (d : declarations.Specification) → TellsNeeds self.now p ds →
            length ss ≡ length p.uses.package_level → slice_get ds n ≡ Some d → faulty.now ≡ map is_faulty ss → assigning.now ≡ map is_misassigned ss →
            slice_get v.items n ≡ Some true → is_blocked p (outlines p ds) ss d ≡ true) }
    {
        let top = self.owners.len().saturating_add(self.groups.len());
        let ranks = ranks(alloc, &self.owners, &self.groups, &self.calls)?;
        let own = object_ranks(alloc, &ranks, &self.declaring)?;
        if self.are_ranks(alloc, top, &ranks, &own)? {
            self.shown(alloc, top, &ranks, &own, faulty, assigning)
        } else {
            Ok(Vec::new(alloc))
        }
    }
}
