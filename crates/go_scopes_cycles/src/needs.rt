//! What a declaration needs at once.

ghost use Rattle.std.specs.Prelude.{◌≡◌};
ghost use Rattle.std.specs.Option.{option_map};
ghost use Rattle.go_tree.specs.Needs.{right_way, is_source, way, is_same};
ghost use Rattle.go_scopes_cycles.specs.Needs.{source_of, way_of, needed_by};
ghost use Rattle.go_scopes_lookup.specs.Views.{found_view, meaning_view, asked_view};
ghost use Rattle.go_scopes_cycles.specs.Views.{needed_view};

use go_scopes_lookup::asked::Asked;
use go_scopes_lookup::found::Found;
use go_scopes_lookup::meaning::Meaning;
use go_tree::context::{Reach, Site};
use go_tree::event::Declaration;

/// A declaration that is needed: in full, or, if it is a type, in part.
#[derive(Clone, Copy)]
pub struct Needed<'a> {
    pub found: Found<'a>,
    pub full: bool,
}

/// In which way a type needs a name of its right side, if it does.
fn right_way(full: bool, reach: Reach) -> Option<bool>
    ensures { result ≡ right_way full reach }
{
    if full {
        return Some(true);
    }
    match reach {
        Reach::Direct => Some(false),
        Reach::Indirect => None,
        Reach::Length => Some(true),
    }
}

/// Whether this is the specification of a declaration.
fn is_source(specification: u32, source: Option<u32>) -> bool
    ensures { result ≡ is_source specification source }
{
    match source {
        None => false,
        Some(source) => specification == source,
    }
}

/// In which way a declaration needs a name at the site, if it does: in full or not.
fn way(d: &Declaration, full: bool, site: Site) -> Option<bool>
    ensures { result ≡ way d.now full site }
{
    match site {
        Site::Type { specification } if is_source(specification, d.source) => Some(true),
        Site::Value {
            specification,
            column,
            alone,
        } if is_source(specification, d.source) && (column == d.column as usize || alone) => {
            Some(true)
        }
        Site::Right {
            specification,
            reach,
        } if is_source(specification, d.source) => right_way(full, reach),
        _ => None,
    }
}

/// The declaration that the meaning comes from.
pub fn source_of<'a>(meaning: Option<Meaning<'a>>) -> Option<Found<'a>>
    ensures { option_map found_view result ≡ source_of (option_map meaning_view meaning.entry) }
{
    match meaning {
        Some(meaning) => meaning.entry.source,
        None => None,
    }
}

/// In which way the declaration needs the name, if it does.
fn way_of(a: &Asked<'_>, x: &Needed<'_>) -> Option<bool>
    ensures { result ≡ way_of (asked_view a.now) (needed_view x.now) }
{
    if a.file == x.found.file {
        way(x.found.declaration, x.full, a.lookup.site.get())
    } else {
        None
    }
}

/// The declaration that the name calls for where the other one needs it, if it does.
pub fn needed_by<'a>(a: &Asked<'a>, x: &Needed<'_>) -> Option<Needed<'a>>
    ensures { option_map needed_view result ≡ needed_by (asked_view a.now) (needed_view x.now) }
{
    match (way_of(a, x), source_of(a.meaning)) {
        (Some(full), Some(found)) => Some(Needed { found, full }),
        _ => None,
    }
}

/// Whether two are one declaration.
pub fn is_same(d: &Found<'_>, other: &Found<'_>) -> bool
    ensures { result ≡ is_same (found_view d.now) (found_view other.now) }
{
    d.file == other.file && d.declaration.name == other.declaration.name
}
