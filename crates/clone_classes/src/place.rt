//! Where windows lie.

ghost use Rattle.std.specs.Prelude.{◌≡◌, map, IfOk};
ghost use Rattle.std.specs.List.{list_any};
ghost use Rattle.go_typed.specs.Views.{views};
ghost use Rattle.clone_window.specs.Bodies.{bodies_of};
ghost use Rattle.clone_classes.specs.Choices.{meets, place_of, place_over};
ghost use Rattle.clone_classes.specs.Ends.{is_behind, reaches};

use clone_window::run::statements;
use clone_window::span::last_from;
use go_base::Memory;
use go_typed::checked::Checked;
use go_typed::node::TypedNode;
use go_typed::window::Window;
use std::alloc::Global;

/// Tokens of a function, in order by function, first and last token.
#[derive(Clone, Copy, Debug, PartialEq, Eq, PartialOrd, Ord)]
pub struct Place {
    /// The number of the function in its package.
    pub func: u32,
    /// The number of the first token, counted from the first one of the function.
    pub from: u32,
    /// The number of the token behind the last one.
    pub to: u32,
}

impl Place {
    /// Whether two places share a token.
    pub fn meets(self, other: Place) -> bool
        ensures { result ≡ meets self other }
    {
        self.func == other.func && self.from < other.to && other.from < self.to
    }

    /// Whether it lies in a later function than another place, or behind it in the same.
    pub(crate) fn is_behind(self, other: Place) -> bool
        ensures { result ≡ is_behind other self }
    {
        other.func < self.func || other.func == self.func && other.to <= self.from
    }

    /// Whether another place reaches no further.
    pub(crate) fn reaches(self, other: Place) -> bool
        ensures { result ≡ reaches self other }
    {
        other.func < self.func || other.func == self.func && other.to <= self.to
    }

    /// Whether it shares a token with one of other places.
    pub fn meets_any(self, others: &[Place]) -> bool
        ensures { result ≡ list_any (meets self) others.now }
    {
        for other in others {
            if self.meets(*other) {
                return true;
            }
        }
        false
    }
}

/// The places of windows of a package.
///
/// # Errors
///
/// Want of memory.
pub fn places_of(alloc: Global, checked: &Checked, windows: &[Window]) -> Result<Vec<Place>, Memory>
    ensures { IfOk result (λ v. v.items ≡ map (place_of (bodies_of checked.now.functions)) windows.now) }
{
    let mut places = Vec::with_capacity(alloc, windows.len())?;
    for window in windows {
        places.push(place_of(checked, window))?;
    }
    Ok(places)
}

/// Where a window of a package lies: from the first token of its first statement to the last one of its last statement.
pub fn place_of(checked: &Checked, window: &Window) -> Place
    ensures { result ≡ place_of (bodies_of checked.now.functions) window.now }
{
    match checked.function(window.func) {
        Some(f) => place_over(window.func, statements(f, window)),
        None => place_over(window.func, &[]),
    }
}

/// Where statements of a function lie.
fn place_over(func: u32, statements: &[Option<TypedNode>]) -> Place
    ensures { result ≡ place_over func (views statements.now) }
{
    match statements {
        [Some(first), others @ ..] => Place {
            func,
            from: first.first,
            to: last_from(first.last, others),
        },
        _ => Place {
            func,
            from: 0,
            to: 0,
        },
    }
}
