//! Rules on single members.

ghost use Rattle.std.specs.Prelude.{◌≡◌, ℕ, List, map, Some, None, IfOk};
ghost use Rattle.std.specs.List.{AllByRecursion};
ghost use Rattle.std.specs.Option.{option_map};
ghost use Rattle.go_typed.specs.Packages.{PackageView};
ghost use Rattle.param_choose.specs.Members.{Member as Chosen};
ghost use Rattle.escape_check.specs.Places.{each_refused, first_of};
ghost use Rattle.escape_check.specs.Places as places;
ghost use Rattle.escape_check.specs.Shown.{IsSound, member_view, place_view, refused_view};

use crate::member::Member;
use crate::place::{Place, Refused};
use go_base::Memory;
use go_typed::checked::Checked;
use std::alloc::Global;

/// A rule on a member by itself.
pub(crate) trait MemberRule {
    /// The places where it fails in a member of a package, in order.
    ghost places: { Self → PackageView → Chosen ℕ → List places.Place };

    /// What the rule's own tables owe the package.
    ghost knows: { Self → PackageView → Type 0 };

    /// The first place where it fails in a member, if it does.
    fn place(
        &self,
        alloc: Global,
        checked: &Checked,
        member: &Member<'_>,
    ) -> Result<Option<Place>, Memory>
        requires knows { knows self.now checked.now }
        requires sound { IsSound checked.now member.now }
        ensures { IfOk result (λ p. option_map place_view p ≡ first_of (places self.now checked.now (member_view member.now))) };
}

/// The first member in which a rule fails, with the first place there.
///
/// # Errors
///
/// Want of memory, which is also said of 2^32 members.
pub(crate) fn first_refused<R: MemberRule>(
    alloc: Global,
    checked: &Checked,
    code: u8,
    rule: &R,
    members: &[Member<'_>],
) -> Result<Option<Refused>, Memory>
    requires knows { R.knows rule.now checked.now }
    requires sound { AllByRecursion (IsSound checked.now) members.now }
    ensures { IfOk result (λ r. option_map refused_view r ≡ each_refused code (R.places rule.now checked.now) (map member_view members.now)) }
{
    for (number, member) in members.iter().enumerate() {
        if let Some(place) = rule.place(alloc, checked, member)? {
            return Ok(Some(refused_in(code, number, place)?));
        }
    }
    Ok(None)
}

/// A refusal of the member of this number.
pub(crate) fn refused_in(code: u8, number: usize, place: Place) -> Result<Refused, Memory>
    ensures { IfOk result (λ r. refused_view r ≡ record { code = code; member = number; place = Some (place_view place) }) }
{
    let Ok(member) = u32::try_from(number) else {
        return Err(Memory);
    };
    Ok(Refused {
        code,
        member,
        place: Some(place),
    })
}
