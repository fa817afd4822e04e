//! Members that overlap earlier ones.

ghost use Rattle.std.specs.Prelude.{◌≡◌, ℕ, List, ◌++◌, [], ◌∷◌, map, IfOk, OnOk, not, false};
ghost use Rattle.std.specs.List.{AllByRecursion, list_any};
ghost use Rattle.std.specs.Option.{option_map};
ghost use Rattle.param_choose.specs.Members.{Member as Chosen};
ghost use Rattle.escape_check.specs.Places.{sources_in};
ghost use Rattle.escape_check.specs.Shown.{IsSound, member_view, refused_view};
ghost use Rattle.escape_check.specs.Statements.{meets, overlap_refused};
ghost use Rattle.escape_check.specs.Tokens.{Covered};

use crate::member::Member;
use crate::place::Refused;
use crate::rule::refused_in;
use go_base::Memory;
use go_typed::checked::Checked;
use std::alloc::{AllocError, Global};
use std::collections::HashSet;

/// The first member that overlaps an earlier one or repeats it. Each token of a member is looked at once, up to the first overlap.
///
/// # Errors
///
/// Want of memory.
pub(crate) fn first_overlap(
    alloc: Global,
    checked: &Checked,
    members: &[Member<'_>],
) -> Result<Option<Refused>, Memory>
    requires { AllByRecursion (IsSound checked.now) members.now }
    ensures { IfOk result (λ r. option_map refused_view r ≡ overlap_refused (sources_in checked.now) (map member_view members.now)) }
{
    let mut taken = HashSet::new(alloc);
    for (number, member) in members.iter().enumerate() {
        if !take(&mut taken, member)? {
            let place = member.window_place(checked);
            return Ok(Some(refused_in(3, number, place)?));
        }
    }
    Ok(None)
}

/// Notes the tokens of a member, each with the number of its function, and tells whether all of them are new. The set has the
/// tokens of earlier members.
fn take(taken: &mut HashSet<(u32, u32)>, member: &Member<'_>) -> Result<bool, AllocError>
    ensures new { IfOk result (λ new. (ms : List (Chosen ℕ)) → Covered taken.old ms → new ≡ not (list_any (meets (member_view member.now)) ms)) }
    ensures taken { OnOk result ((ms : List (Chosen ℕ)) → Covered taken.old ms → list_any (meets (member_view member.now)) ms ≡ false → Covered taken.new (ms ++ member_view member.now ∷ [])) }
{
    for token in member.from..member.upto {
        if !taken.insert((member.window.func, token))? {
            return Ok(false);
        }
    }
    Ok(true)
}
