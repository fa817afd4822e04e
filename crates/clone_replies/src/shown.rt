//! What the listing shows of classes.

ghost use Rattle.std.specs.Prelude.{◌≡◌, false, map, slice_get, IfOk};
ghost use Rattle.std.specs.Option.{option_map};
ghost use Rattle.go_typed.specs.Packages.{PackageView};
ghost use Rattle.clone_window.specs.Masses.{masses};
ghost use Rattle.clone_window.specs.Spans as spans;
ghost use Rattle.clone_window.specs.Spans.{bytes_of, places_from};
ghost use Rattle.clone_classes.specs.Listing.{members_of};
ghost use Rattle.clone_replies.specs.Classes.{listed_package, shown_class, statements_in, window_bytes};
ghost use Rattle.clone_replies.specs.Listing.{shown};

use clone_script::ListedClass;
use clone_window::run::mass;
use clone_window::span::{FunctionPlace, function_places, range_of, span_at_place};
use go_base::{Name, Span};
use go_typed::checked::Checked;
use go_typed::window::{Class, Window};
use std::alloc::{AllocError, Global};

/// The bytes of a window, by the places of the functions. A window that the package doesn't have has none, at the start of the
/// first file.
fn window_span(checked: &Checked, places: &[FunctionPlace], window: Window) -> Span
    requires { places.now ≡ places_from 0 checked.now.files }
    ensures { bytes_of result ≡ window_bytes (listed_package checked.now) window }
{
    match found_span(checked, places, window) {
        Some(span) => span,
        None => Span {
            file: 0,
            start: 0,
            end: 0,
        },
    }
}

/// The bytes of a window, if the package has it.
fn found_span(checked: &Checked, places: &[FunctionPlace], window: Window) -> Option<Span>
    requires { places.now ≡ places_from 0 checked.now.files }
    ensures { option_map bytes_of result ≡ spans.window_span checked.now window }
{
    let f = checked.function(window.func)?;
    let range = range_of(f, &window)?;
    let place = *places.get(window.func as usize)?;
    span_at_place(checked.files(), place, range)
}

/// The bytes of windows.
fn window_spans(
    alloc: Global,
    checked: &Checked,
    places: &[FunctionPlace],
    windows: &[Window],
) -> Result<Vec<Span>, AllocError>
    requires { places.now ≡ places_from 0 checked.now.files }
    ensures { IfOk result (λ v. map bytes_of v.items ≡ map (window_bytes (listed_package checked.now)) windows.now) }
{
    let mut spans = Vec::with_capacity(alloc, windows.len())?;
    for window in windows {
        spans.push(window_span(checked, places, *window))?;
    }
    Ok(spans)
}

/// The mass of a window: a package has fewer nodes than numbers.
fn window_mass(checked: &Checked, window: Window) -> u32
    ensures { result ≡ masses false (statements_in (listed_package checked.now) window) }
{
    match checked.function(window.func) {
        Some(f) => {
            let _root = f.root();
            mass(f, window)
        }
        None => 0,
    }
}

/// What the listing shows of a class with these members.
pub fn shown(
    alloc: Global,
    checked: &Checked,
    places: &[FunctionPlace],
    windows: &[Window],
) -> Result<ListedClass, AllocError>
    requires { places.now ≡ places_from 0 checked.now.files }
    ensures { IfOk result (λ x. shown x ≡ shown_class (listed_package checked.now) windows.now) }
{
    let members = window_spans(alloc, checked, places, windows)?;
    match windows {
        [first, ..] => Ok(ListedClass {
            members,
            statements: first.count,
            mass: window_mass(checked, *first),
        }),
        [] => Ok(ListedClass {
            members,
            statements: 0,
            mass: 0,
        }),
    }
}

/// What the listing shows of classes.
pub fn all_shown(
    alloc: Global,
    checked: &Checked,
    classes: &[Class],
) -> Result<Vec<ListedClass>, AllocError>
    ensures { IfOk result (λ v. map shown v.items ≡ map (shown_class (listed_package checked.now)) (members_of classes.now)) }
{
    let places = function_places(alloc, checked.files())?;
    let mut listed = Vec::with_capacity(alloc, classes.len())?;
    for class in classes {
        listed.push(shown(alloc, checked, &places, class.members.as_slice())?)?;
    }
    Ok(listed)
}

/// References to names.
pub fn references<'a>(alloc: Global, names: &'a [Name]) -> Result<Vec<&'a Name>, AllocError>
    ensures { IfOk result (λ v. map (λ name. name.now) v.items ≡ names.now) }
{
    let mut references = Vec::with_capacity(alloc, names.len())?;
    for name in names {
        references.push(name)?;
    }
    Ok(references)
}
