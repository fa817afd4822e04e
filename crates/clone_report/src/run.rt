//! Runs of statements as keys of tables, and extensions of windows.

ghost use Rattle.std.specs.Prelude.{◌≡◌};
ghost use Rattle.std.specs.Option.{option_map};
ghost use Rattle.clone_report.specs.Maximal as rules;
ghost use Rattle.clone_report.specs.Keys as keys;

use crate::side::Side;
use go_typed::window::Window;

/// A run of adjoining statements of one statement list.
#[derive(Clone, Copy, Debug, PartialEq, Eq, Hash)]
pub(crate) struct Run {
    func: u32,
    list: u32,
    first: u32,
    count: u64,
}

/// The run of the statements of a window.
pub(crate) fn run_of(window: Window) -> Run
    ensures { result ≡ keys.run_of window }
{
    Run {
        func: window.func,
        list: window.list,
        first: window.first,
        count: u64::from(window.count),
    }
}

/// The run of a window with one adjoining statement more on a side; none in front of the first statement of a list. Whether there
/// is a statement behind the last one isn't asked.
pub(crate) fn extension(side: Side, window: Window) -> Option<Run>
    ensures { result ≡ option_map keys.run_of (rules.extension side window) }
{
    match side {
        Side::Before => before(window),
        Side::After => Some(after(window)),
    }
}

/// The run with the statement in front of a window.
fn before(window: Window) -> Option<Run>
    ensures { result ≡ option_map keys.run_of (rules.before window.first window) }
{
    if window.first == 0 {
        return None;
    }
    Some(Run {
        func: window.func,
        list: window.list,
        first: window.first - 1,
        count: u64::from(window.count) + 1,
    })
}

/// The run with the statement behind a window.
fn after(window: Window) -> Run
    ensures { result ≡ keys.run_of (rules.after window) }
{
    Run {
        func: window.func,
        list: window.list,
        first: window.first,
        count: u64::from(window.count) + 1,
    }
}
