//! Values that are given to variables, and values that are printed, one after the other.
ghost use Rattle.std.specs.Prelude.{◌≡◌, ◌<◌, length, map};
ghost use Rattle.std.specs.List.{AllByRecursion};
ghost use Rattle.go_types.specs.Trees.{row};
ghost use Rattle.go_types.specs.Tables.{type_of, rights_of};
ghost use Rattle.go_exprs_rules.specs.Faults.{least};
ghost use Rattle.go_exprs_rules.specs.Seen.{AreBasics};
ghost use Rattle.go_exprs_rules.specs.Calls.{each_unassignable, all_unassignable, all_printed};
ghost use Rattle.go_exprs_calls.specs.Shown.{shown, AllShownKnown};

use go_exprs_rules::assign::{printed, unassignable};
use go_exprs_rules::fault::earlier;
use go_exprs_rules::{Basics, Place, TypeFault};
use go_typed::TypedNode;
use go_types::{TypeId, Types};

/// The least fault of values that are given to variables of one type.
pub(crate) fn each_unassignable(
    types: &Types,
    to: TypeId,
    nodes: &[&TypedNode],
) -> Option<TypeFault>
    requires to { to < length types.now.shapes }
    requires nodes { AllShownKnown (length types.now.shapes) nodes.now }
    ensures { result ≡ least (each_unassignable (rights_of types.now) (type_of types.now.shapes to) (shown types.now nodes.now)) }
{
    let mut first = None;
    for node in nodes {
        first = earlier(first, unassignable(types, to, node));
    }
    first
}

/// The least fault of values of which each is given to a variable of its type.
pub(crate) fn all_unassignable(
    types: &Types,
    to: &[TypeId],
    nodes: &[&TypedNode],
) -> Option<TypeFault>
    requires to { AllByRecursion (λ t. t < length types.now.shapes) to.now }
    requires nodes { AllShownKnown (length types.now.shapes) nodes.now }
    requires count { length to.now ≡ length nodes.now }
    ensures { result ≡ least (all_unassignable (rights_of types.now) (row (map (type_of types.now.shapes) to.now)) (shown types.now nodes.now)) }
{
    let mut first = None;
    for (number, node) in nodes.iter().enumerate() {
        first = earlier(first, unassignable(types, to[number], node));
    }
    first
}

/// The least fault of values that are printed.
pub(crate) fn all_printed(
    types: &Types,
    basics: Basics,
    place: Place,
    nodes: &[&TypedNode],
) -> Option<TypeFault>
    requires basics { AreBasics types.now basics }
    requires nodes { AllShownKnown (length types.now.shapes) nodes.now }
    ensures { result ≡ least (all_printed (rights_of types.now) place.first place.last (shown types.now nodes.now)) }
{
    let mut first = None;
    for node in nodes {
        first = earlier(first, printed(types, basics, place, node));
    }
    first
}
