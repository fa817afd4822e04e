//! Files that no longer use what they import.

ghost use Rattle.std.specs.Prelude.{◌≡◌, ℕ, ◌&&◌, ◌||◌, not, map, nat_eq, slice_get, IfOk, OnOk};
ghost use Rattle.std.specs.HashSet as set;
ghost use Rattle.std.specs.List.{AllByRecursion, list_any};
ghost use Rattle.go_scopes.specs.Resolve.{units_of};
ghost use Rattle.go_scopes_lookup.specs.Tables.{same_spot};
ghost use Rattle.go_scopes_lookup.specs.Views.{asked_view, units_view};
ghost use Rattle.go_tree.specs.Lookups.{is_import, object_asked};
ghost use Rattle.escape_check.specs.Lookups.{all_asked, imports, is_import_in, keeps_import};
ghost use Rattle.escape_check.specs.Places.{sources_in};
ghost use Rattle.escape_check.specs.Shown.{IsSound, covers_token, member_view};

use crate::member::Member;
use crate::place::Place;
use crate::rule::MemberRule;
use go_base::Memory;
use go_scopes_lookup::asked::Asked;
use go_scopes_lookup::meaning::{imports_fmt, object_by};
use go_scopes_lookup::unit::Unit;
use go_tree::object::Object;
use go_typed::checked::Checked;
use std::alloc::{AllocError, Global};
use std::collections::HashSet;

/// A file that imports `fmt` has no use of it after the replacement.
#[derive(Clone, Copy)]
pub(crate) struct LostImports<'a> {
    /// These files.
    pub files: &'a HashSet<u32>,
}

impl MemberRule for LostImports<'_> {
    ghost use Rattle.std.specs.Prelude.{nat_eq};
    ghost use Rattle.std.specs.HashSet as set;
    ghost use Rattle.escape_check.specs.Places.{file_of, place_if, sources_in, window_place};

    ghost places = { λ rule p m. place_if (set.contains nat_eq rule.files.now (file_of (sources_in p) m)) (window_place (sources_in p) m) };

    ghost knows = { λ _ _. Unit };

    fn place(
        &self,
        _alloc: Global,
        checked: &Checked,
        member: &Member<'_>,
    ) -> Result<Option<Place>, Memory> {
        if self.files.contains(&member.file) {
            return Ok(Some(member.window_place(checked)));
        }
        Ok(None)
    }
}

/// The files that import `fmt` and have no use of it after the members are replaced; what stands in the template stays. Each name that
/// is looked up in the package is looked at once, and each token of the members.
///
/// # Errors
///
/// Want of memory, which is also said of 2^32 files.
pub(crate) fn lost_files(
    alloc: Global,
    checked: &Checked,
    units: &[Unit<'_>],
    asked: &[Asked<'_>],
    template: &Member<'_>,
    members: &[Member<'_>],
) -> Result<HashSet<u32>, Memory>
    requires units { units_view units.now ≡ units_of checked.now.files }
    requires asked { map asked_view asked.now ≡ all_asked (sources_in checked.now) }
    requires template { IsSound checked.now template.now }
    requires sound { AllByRecursion (IsSound checked.now) members.now }
    ensures { IfOk result (λ s. (n : ℕ) → set.contains nat_eq s n
        ≡ (imports (slice_get (units_view units.now) n) && not (keeps_import (sources_in checked.now) (member_view template.now) (map member_view members.now) n))) }
{
    let replaced = tokens_of(alloc, members)?;
    let kept = kept_files(alloc, &replaced, asked, template)?;
    let mut lost = HashSet::new(alloc);
    for (file, unit) in units.iter().enumerate() {
        let Ok(file) = u32::try_from(file) else {
            return Err(Memory);
        };
        if !kept.contains(&file) && imports_fmt(alloc, unit)? {
            lost.insert(file)?;
        }
    }
    Ok(lost)
}

/// The tokens of members, each with the number of its file.
fn tokens_of(alloc: Global, members: &[Member<'_>]) -> Result<HashSet<(u32, u64)>, AllocError>
    ensures { IfOk result (λ s. (file token : ℕ) → set.contains same_spot s (file, token) ≡ list_any (covers_token file token) (members.now)) }
{
    let mut tokens = HashSet::new(alloc);
    for member in members {
        add_tokens(&mut tokens, member)?;
    }
    Ok(tokens)
}

/// Adds those of a member.
fn add_tokens(tokens: &mut HashSet<(u32, u64)>, member: &Member<'_>) -> Result<(), AllocError>
    ensures { OnOk result ((file token : ℕ) → set.contains same_spot tokens.new (file, token) ≡ (set.contains same_spot tokens.old (file, token) || covers_token file token member.now)) }
{
    let first = u64::from(member.first);
    for token in member.from..member.upto {
        tokens.insert((member.file, first + u64::from(token)))?;
    }
    Ok(())
}

/// The files in which a use of `fmt` stays. The set has the tokens of the members.
fn kept_files(
    alloc: Global,
    replaced: &HashSet<(u32, u64)>,
    asked: &[Asked<'_>],
    template: &Member<'_>,
) -> Result<HashSet<u32>, AllocError>
    ensures { IfOk result (λ s. (n : ℕ) → set.contains nat_eq s n ≡ list_any (λ a. is_import_in n a
        && (covers_token a.file a.it.name template.now || not (set.contains same_spot replaced.now (a.file, a.it.name)))) (map asked_view asked.now)) }
{
    let mut kept = HashSet::new(alloc);
    for name in asked {
        if is_import(name) && stays(replaced, template, name) {
            kept.insert(name.file)?;
        }
    }
    Ok(kept)
}

/// Whether a name means the import.
fn is_import(name: &Asked<'_>) -> bool
    ensures { result ≡ is_import (object_asked (asked_view name.now)) }
{
    matches!(object_by(name.name(), name.meaning), Some(Object::Import))
}

/// Whether a name stands in the template or in no member.
fn stays(replaced: &HashSet<(u32, u64)>, template: &Member<'_>, name: &Asked<'_>) -> bool
    ensures { result ≡ (covers_token (asked_view name.now).file (asked_view name.now).it.name template.now || not (set.contains same_spot replaced.now ((asked_view name.now).file, (asked_view name.now).it.name))) }
{
    let token = u64::from(name.lookup.name);
    template.has_token(name.file, token) || !replaced.contains(&(name.file, token))
}
