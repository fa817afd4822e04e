//! What is told of a refusal.

ghost use Rattle.std.specs.Prelude.{◌≡◌};
ghost use Rattle.escape_check.specs.Places.{reported, sources_in};
ghost use Rattle.escape_check.specs.Shown.{refusal_view, refused_view};

use crate::place::{Refused, bytes_of};
use go_base::Span;
use go_typed::checked::Checked;

/// Why windows may not be taken out into a function.
#[derive(Clone, Copy, Debug, PartialEq, Eq)]
pub struct Refusal {
    /// 3: a window overlaps an earlier one; 4: it returns; 5: a `break` or `continue` leaves it; 6: a `fallthrough` does; 7: a constant
    /// or type that it declares occurs later; 8: a name can't be written in the new function; 9: a function no longer ends in a
    /// terminating statement; 10: the name of the new function is in use; 11: a declared name is spelled like a free local; 12: a name
    /// is hidden at a site; 13: an import is no longer used; 14: a variable is no longer used; 15: a type is declared in a function;
    /// 16: a predeclared type is hidden.
    pub code: u8,
    /// The place of the window among the windows, from 0; 0 for the code 10.
    pub member: u32,
    /// The bytes of the place; none for the code 10.
    pub span: Option<Span>,
}

/// A refusal with the bytes of its place.
pub(crate) fn reported(checked: &Checked, refused: Refused) -> Refusal
    ensures { refusal_view result ≡ reported (sources_in checked.now) (refused_view refused) }
{
    let span = match refused.place {
        Some(place) => Some(bytes_of(checked, place)),
        None => None,
    };
    Refusal {
        code: refused.code,
        member: refused.member,
        span,
    }
}
