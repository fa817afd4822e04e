//! The results that a template declares, in other members.

ghost use Rattle.std.specs.Prelude.{◌≡◌, filter, IfOk};
ghost use Rattle.go_typed.specs.Packages.{PackageView};
ghost use Rattle.param_choose.specs.Members.{occurs_later};
ghost use Rattle.escape_check.specs.Shown.{IsSound, KnowsPlaces, member_view, results_in};

use crate::member::Member;
use clone_window::locals::locals_of;
use go_base::Memory;
use param_choose::later::{end_at, local_at};
use std::alloc::Global;
use std::collections::HashMap;

/// The locals that a template declares and that are results, with the places of its locals.
#[derive(Clone, Copy)]
pub(crate) struct Declared<'a> {
    pub template: &'a Member<'a>,
    /// The numbers of these locals.
    pub locals: &'a [u32],
    /// The first place of each local among those that the template's nodes name, in order.
    pub places: &'a HashMap<u32, usize>,
}

impl Declared<'_> {
    /// The locals of a member that stand where these do.
    pub(crate) fn in_member(&self, alloc: Global, member: &Member<'_>) -> Result<Vec<u32>, Memory>
        ensures { KnowsPlaces self.now → IfOk result (λ v. v.items ≡ results_in self.now (member_view member.now)) }
    {
        let others = locals_of(alloc, member.statements)?;
        let mut locals = Vec::with_capacity(alloc, self.locals.len())?;
        for local in self.locals {
            locals.push(local_at(self.places, &others, *local))?;
        }
        Ok(locals)
    }
}

/// Those of some locals of a member's function that occur behind the member.
pub(crate) fn later_among(
    alloc: Global,
    member: &Member<'_>,
    locals: &[u32],
) -> Result<Vec<u32>, Memory>
    ensures { (p : PackageView) → IsSound p member.now → IfOk result (λ v. v.items ≡ filter (occurs_later (member_view member.now)) locals.now) }
{
    let mut later = Vec::new(alloc);
    for local in locals {
        if occurs_later(member, *local) {
            later.push(*local)?;
        }
    }
    Ok(later)
}

/// Whether a local of a member's function occurs behind the member.
#[tactic(auto, using(crate::proofs::Later::occurs_told))]
pub fn occurs_later(member: &Member<'_>, local: u32) -> bool
    ensures { (p : PackageView) → IsSound p member.now → result ≡ occurs_later (member_view member.now) local }
{
    member.func.root();
    (member.upto as usize) < end_at(member.ends, local)
}
