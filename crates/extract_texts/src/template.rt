//! Templates: the first of some windows, with what is read once for all of them.

ghost use Rattle.std.specs.Prelude.{◌≡◌, Some, map, slice_get, IfOk};
ghost use Rattle.param_choose.specs.Ends.{ends_of};
ghost use Rattle.extract_texts.specs.Shown.{IsTemplate};

use clone_window::locals::locals_of;
use escape_check::member::{Member, member_of};
use go_base::Memory;
use go_typed::checked::Checked;
use go_typed::func::TypedFunc;
use go_typed::window::Window;
use param_choose::choice::{Choice, choice_of};
use param_choose::later::places_of;
use std::alloc::Global;
use std::collections::HashMap;

/// The first of some windows, with what the new function takes and gives.
#[derive(Drop)]
pub struct Template<'a> {
    pub windows: &'a [Window],
    /// The first window.
    pub member: Member<'a>,
    /// What the windows hand over, by the numbers of the first one.
    pub choice: Choice,
    /// The first place of each local among those that the nodes of the first window name, in order.
    pub places: HashMap<u32, usize>,
}

/// The template of windows that are the same, which is the first of them and stands in this function. The rows say for each function
/// where its locals occur last.
///
/// # Errors
///
/// Want of memory.
pub fn template_of<'a>(
    alloc: Global,
    checked: &'a Checked,
    ends: &'a [Vec<usize>],
    func: &'a TypedFunc,
    first: &Window,
    windows: &'a [Window],
) -> Result<Template<'a>, Memory>
    requires ends { map (λ row. row.items) ends.now ≡ map ends_of checked.now.functions }
    requires function { slice_get checked.now.functions first.now.func ≡ Some func.now }
    requires first { slice_get windows.now 0 ≡ Some first.now }
    ensures windows { IfOk result (λ t. t.windows.now ≡ windows.entry.now) }
    ensures template { IfOk result (λ t. IsTemplate checked.entry.now t) }
{
    let member = member_of(checked, ends, func, *first);
    let choice = choice_of(alloc, checked, func, first, windows)?;
    let places = places_of(alloc, &locals_of(alloc, member.statements)?)?;
    Ok(Template {
        windows,
        member,
        choice,
        places,
    })
}
