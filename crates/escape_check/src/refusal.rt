//! The refusal of windows.

ghost use Rattle.std.specs.Prelude.{◌≡◌, ◌≤◌, Some, map, length, slice_get, IfOk};
ghost use Rattle.std.specs.List.{AllByRecursion};
ghost use Rattle.std.specs.Option.{option_map};
ghost use Rattle.go_typed.specs.Contents.{content};
ghost use Rattle.go_typed.specs.Funcs.{tree_of};
ghost use Rattle.param_choose.specs.Members.{member_over, members_in};
ghost use Rattle.escape_check.specs.Places.{first_refused, or_refused, sources_in};
ghost use Rattle.escape_check.specs.Refusals.{escape_refusals, name_refusals, refused, refused_by, statement_refusals};
ghost use Rattle.escape_check.specs.Shown.{IsSound, member_view, refusal_view, refused_view};

use crate::branches::{Branches, Falls, Returns};
use crate::escapes::Escapes;
use crate::keeping::ends_of;
use crate::lost::LostEnds;
use crate::member::{Member, member_of, members_of};
use crate::overlap::first_overlap;
use crate::place::Refused;
use crate::report::{Refusal, reported};
use crate::rule::first_refused;
use crate::shadow::Shadowed;
use crate::sites::site_refusal;
use crate::used::is_in_use;
use crate::written::LocalNames;
use go_base::Memory;
use go_typed::checked::Checked;
use go_typed::func::TypedFunc;
use go_typed::window::Window;
use param_choose::choice::choice_of;
use param_choose::later::all_ends;
use std::alloc::Global;

/// The refusal of windows that are the same, the first of which is the template, under a name for the new function: that of the least
/// code that applies, with the first window to which it applies and the first place there; none where no code applies. Where the package
/// doesn't have the first window's function there is none.
///
/// It looks at each token and each node of the package and of the windows. Where a window has the first token of a statement on which its
/// function's end rests, it looks at that function's body again. For each window it looks up each name in the types of the results that
/// occur later: each look-up takes maps, and a binary search among the places where the name's local meaning changes in that file.
///
/// # Errors
///
/// Want of memory.
#[tactic(auto, using(crate::proofs::MappedRefusals::refusal_seen, crate::proofs::MappedRefusals::nothing_refused))]
pub fn refusal(
    alloc: Global,
    checked: &Checked,
    members: &[Window],
    name: &[u8],
) -> Result<Option<Refusal>, Memory>
    requires { length checked.now.files ≤ 256 }
    ensures { IfOk result (λ r. option_map refusal_view r ≡ refused (content checked.now) name.now members.now) }
{
    let [template, ..] = members else {
        return Ok(None);
    };
    let Some(func) = checked.function(template.func) else {
        return Ok(None);
    };
    match first_of(alloc, checked, func, template, members, name)? {
        Some(refused) => Ok(Some(reported(checked, refused))),
        None => Ok(None),
    }
}

/// The first refusal of windows, one of which, of this function, is the template.
#[tactic(auto, using(crate::proofs::Whole::found_early, crate::proofs::Whole::found_late, crate::proofs::Whole::template_shown, crate::proofs::KnownTypes::handed_known))]
fn first_of(
    alloc: Global,
    checked: &Checked,
    func: &TypedFunc,
    template: &Window,
    windows: &[Window],
    name: &[u8],
) -> Result<Option<Refused>, Memory>
    requires few { length checked.now.files ≤ 256 }
    requires function { slice_get checked.now.functions template.now.func ≡ Some func.now }
    ensures { IfOk result (λ r. option_map refused_view r ≡ refused_by checked.now name.now (members_in checked.now windows.now) (member_over checked.now.uses template.now func.now.locals func.now.tokens (tree_of func.now))) }
{
    let ends = all_ends(alloc, checked.functions())?;
    let members = members_of(alloc, checked, &ends, windows)?;
    if let Some(refused) = early_refusal(alloc, checked, &members, name)? {
        return Ok(Some(refused));
    }
    // What is handed over has types of the package's own table.
    let _ = checked.types();
    let choice = choice_of(alloc, checked, func, template, windows)?;
    let template = member_of(checked, &ends, func, *template);
    site_refusal(alloc, checked, &template, &choice, &members)
}

/// The first refusal that doesn't rest on what is handed over.
#[tactic(auto, using(crate::proofs::Alike::or_none))]
fn early_refusal(
    alloc: Global,
    checked: &Checked,
    members: &[Member<'_>],
    name: &[u8],
) -> Result<Option<Refused>, Memory>
    requires { AllByRecursion (IsSound checked.now) members.now }
    ensures { IfOk result (λ r. option_map refused_view r ≡ or_refused (first_refused (statement_refusals (sources_in checked.now) (map member_view members.now)))
        (or_refused (first_refused (escape_refusals (sources_in checked.now) (content checked.now).functions (map member_view members.now)))
        (first_refused (name_refusals (sources_in checked.now) name.now (map member_view members.now))))) }
{
    if let Some(refused) = statement_refusal(alloc, checked, members)? {
        return Ok(Some(refused));
    }
    if let Some(refused) = escape_refusal(alloc, checked, members)? {
        return Ok(Some(refused));
    }
    name_refusal(alloc, checked, members, name)
}

/// The first refusal for what statements do.
#[tactic(auto, using(crate::proofs::Alike::or_none))]
fn statement_refusal(
    alloc: Global,
    checked: &Checked,
    members: &[Member<'_>],
) -> Result<Option<Refused>, Memory>
    requires { AllByRecursion (IsSound checked.now) members.now }
    ensures { IfOk result (λ r. option_map refused_view r ≡ first_refused (statement_refusals (sources_in checked.now) (map member_view members.now))) }
{
    if let Some(refused) = first_overlap(alloc, checked, members)? {
        return Ok(Some(refused));
    }
    if let Some(refused) = first_refused(alloc, checked, 4, &Returns, members)? {
        return Ok(Some(refused));
    }
    if let Some(refused) = first_refused(alloc, checked, 5, &Branches, members)? {
        return Ok(Some(refused));
    }
    first_refused(alloc, checked, 6, &Falls, members)
}

/// The first refusal for what leaves the windows, and for ends of functions.
#[tactic(auto, using(crate::proofs::Alike::or_none))]
fn escape_refusal(
    alloc: Global,
    checked: &Checked,
    members: &[Member<'_>],
) -> Result<Option<Refused>, Memory>
    requires { AllByRecursion (IsSound checked.now) members.now }
    ensures { IfOk result (λ r. option_map refused_view r ≡ first_refused (escape_refusals (sources_in checked.now) (content checked.now).functions (map member_view members.now))) }
{
    if let Some(refused) = first_refused(alloc, checked, 7, &Escapes, members)? {
        return Ok(Some(refused));
    }
    if let Some(refused) = first_refused(alloc, checked, 8, &LocalNames, members)? {
        return Ok(Some(refused));
    }
    let ends = ends_of(alloc, checked.types(), checked.functions())?;
    let rule = LostEnds { ends: &ends };
    first_refused(alloc, checked, 9, &rule, members)
}

/// The first refusal for names that are spelled alike.
#[tactic(auto, using(crate::proofs::Alike::or_none))]
fn name_refusal(
    alloc: Global,
    checked: &Checked,
    members: &[Member<'_>],
    name: &[u8],
) -> Result<Option<Refused>, Memory>
    requires { AllByRecursion (IsSound checked.now) members.now }
    ensures { IfOk result (λ r. option_map refused_view r ≡ first_refused (name_refusals (sources_in checked.now) name.now (map member_view members.now))) }
{
    if is_in_use(checked, name) {
        return Ok(Some(Refused {
            code: 10,
            member: 0,
            place: None,
        }));
    }
    first_refused(alloc, checked, 11, &Shadowed, members)
}
