//! A circle of names, along which a declaration is seen to need itself.

ghost use Rattle.std.specs.Prelude.{◌≡◌, Some, map};
ghost use Rattle.std.specs.Option.{option_map};
ghost use Rattle.go_scopes_lookup.specs.Views.{found_view, asked_view};
ghost use Rattle.go_scopes_cycles.specs.Circles.{step, walked, comes_back, is_circle};
ghost use Rattle.go_scopes_cycles.specs.Views.{needed_view};

use crate::needs::{Needed, is_same, needed_by};
use go_scopes_lookup::asked::Asked;
use go_scopes_lookup::found::Found;

/// The declaration that the name of this number calls for where the other one needs it, if it does.
fn step<'a>(lookups: &[Asked<'a>], x: &Needed<'a>, name: usize) -> Option<Needed<'a>>
    ensures { option_map needed_view result ≡ step (map asked_view lookups.now) (Some (needed_view x.now)) name }
{
    match lookups.get(name) {
        None => None,
        Some(a) => needed_by(a, x),
    }
}

/// Where a walk along the names ends.
fn walked<'a>(lookups: &[Asked<'a>], first: Needed<'a>, names: &[usize]) -> Option<Needed<'a>>
    ensures { option_map needed_view result ≡ walked (map asked_view lookups.now) (Some (needed_view first.entry)) names.now }
{
    let mut x = first;
    for name in names {
        x = step(lookups, &x, *name)?;
    }
    Some(x)
}

/// Whether the walk ended at the declaration itself.
fn comes_back(d: &Found<'_>, end: Option<Needed<'_>>) -> bool
    ensures { result ≡ comes_back (found_view d.now) (option_map needed_view end.entry) }
{
    match end {
        None => false,
        Some(x) => is_same(d, &x.found),
    }
}

/// Whether the declaration needs itself along the names, by way of at most `rounds` others.
pub fn is_circle<'a>(lookups: &[Asked<'a>], rounds: usize, d: &Found<'a>, names: &[usize]) -> bool
    ensures { result ≡ is_circle (map asked_view lookups.now) rounds (found_view d.now) names.now }
{
    let [_, others @ ..] = names else {
        return false;
    };
    let first = Needed {
        found: *d,
        full: false,
    };
    others.len() <= rounds && comes_back(d, walked(lookups, first, names))
}
