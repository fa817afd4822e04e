//! The least of some faults.

ghost use Rattle.std.specs.Prelude.{◌≡◌, []};
ghost use Rattle.std.specs.Option.{option_map};
ghost use Rattle.go_tree.specs.Failures.{is_earlier, earlier, place_if};
ghost use Rattle.go_scopes_lookup.specs.Views.{place_of};
ghost use Rattle.go_scopes.specs.Noted.{noted};
ghost use Rattle.go_scopes.specs.Views.{failure_of};

use go_base::{Fault, FaultCode, Span};

/// Whether the first is reported before the second.
pub fn is_earlier(a: Fault, b: Fault) -> bool
    ensures { result ≡ is_earlier (failure_of a) (failure_of b) }
{
    let (p, q) = (a.span, b.span);
    if p.file != q.file {
        p.file < q.file
    } else if p.start != q.start {
        p.start < q.start
    } else if p.end != q.end {
        p.end < q.end
    } else {
        a.code.number() < b.code.number()
    }
}

/// The earlier of a fault that may be there and another one.
pub fn earlier(found: Option<Fault>, other: Fault) -> Option<Fault>
    ensures { option_map failure_of result ≡ earlier (option_map failure_of found) (failure_of other) }
{
    match found {
        None => Some(other),
        Some(fault) => {
            if is_earlier(other, fault) {
                Some(other)
            } else {
                Some(fault)
            }
        }
    }
}

/// The earlier of a fault that may be there and one that there is if the rule fails.
pub fn note(found: Option<Fault>, fails: bool, code: FaultCode, span: Span) -> Option<Fault>
    ensures { option_map failure_of result ≡ noted (option_map failure_of found) code (place_if fails (place_of span) []) }
{
    if fails {
        earlier(found, Fault { code, span })
    } else {
        found
    }
}
