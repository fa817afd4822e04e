//! Parts of specifications, in which names stand.

ghost use Rattle.std.specs.Prelude.{◌≡◌};
ghost use Rattle.go_scopes_cycles.specs.Ranks.{own_part};
ghost use Rattle.go_needs.specs.Parts.{full_place, partial_place};

use go_scopes_cycles::ranks::{Part, Place};
use go_tree::context::{Reach, Site};

/// Where a name of the file stands that is needed in full, if it stands in a specification.
pub fn full_place(file: u32, site: Site) -> Option<Place>
    ensures { result ≡ full_place file site }
{
    match site {
        Site::Elsewhere => None,
        Site::Type { specification } => Some(((file, specification), Part::Always)),
        Site::Value {
            specification,
            column,
            alone,
        } => {
            if alone {
                Some(((file, specification), Part::Always))
            } else {
                Some(((file, specification), Part::Value(column)))
            }
        }
        Site::Right {
            specification,
            reach,
        } => match reach {
            Reach::Direct | Reach::Indirect => Some(((file, specification), Part::Full)),
            Reach::Length => Some(((file, specification), Part::Always)),
        },
    }
}

/// Where a name of the file stands that is needed in part, if it does.
pub fn partial_place(file: u32, site: Site) -> Option<Place>
    ensures { result ≡ partial_place file site }
{
    match site {
        Site::Right {
            specification,
            reach: Reach::Direct,
        } => { Some(((file, specification), Part::Partial)) }
        _ => None,
    }
}

/// The part in which a type needs what stands there, in full or in part.
pub fn own_part(full: bool) -> Part
    ensures { result ≡ own_part full }
{
    if full { Part::Full } else { Part::Partial }
}
