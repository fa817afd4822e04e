//! Values that are given to variables, and values that are printed.
ghost use Rattle.std.specs.Prelude.{◌≡◌, ◌<◌, IfSome, length};
ghost use Rattle.std.specs.Option.{option_map};
ghost use Rattle.go_types.specs.Tables.{type_of, rights_of};
ghost use Rattle.go_typed.specs.Trees.{sort_of};
ghost use Rattle.go_typed.specs.Views.{seen, sort_seen, Known, KnownSort};
ghost use Rattle.go_exprs_rules.specs.Faults.{least};
ghost use Rattle.go_exprs_rules.specs.Seen.{AreBasics};
ghost use Rattle.go_exprs_rules.specs.Settling.{undefaulted, untyped_unassignable, unassignable};
ghost use Rattle.go_exprs_rules.specs.Calls.{printed};

use crate::basics::{Basics, default_type};
use crate::family::OpenKind;
use crate::fault::{Place, TypeFault};
use crate::nodes::{fault_at, sort_of, unrepresented};
use crate::sorts::{family, has_nil, open_kind, suits};
use go_base::FaultCode;
use go_typed::{Sort, TypedNode};
use go_types::{TypeId, Types};
use go_types_relations::assignable;

/// The first of the constants in a node that its default type doesn't represent.
pub fn undefaulted(types: &Types, basics: Basics, node: &TypedNode) -> Option<TypeFault>
    requires basics { AreBasics types.now basics }
    requires node { Known (length types.now.shapes) node.now }
    ensures { result ≡ least (undefaulted (rights_of types.now) (seen types.now node.now)) }
{
    match open_kind(types, sort_of(types, node)) {
        Some(kind) => unrepresented(types, default_type(types, basics, kind), node),
        None => None,
    }
}

fn untyped_unassignable(
    types: &Types,
    to: TypeId,
    kind: Option<OpenKind>,
    node: &TypedNode,
) -> Option<TypeFault>
    requires to { to < length types.now.shapes }
    requires node { Known (length types.now.shapes) node.now }
    ensures { result ≡ least (untyped_unassignable (rights_of types.now) (type_of types.now.shapes to) kind (seen types.now node.now)) }
{
    match kind {
        Some(kind) => if suits(types, kind, to) {
            unrepresented(types, to, node)
        } else {
            Some(fault_at(types, node, FaultCode::Assignable))
        },
        None => Some(fault_at(types, node, FaultCode::Assignable)),
    }
}

/// The fault of a value that is given to a variable of a type (Go specification, "Assignability"): `Assignable` at the value, or
/// `Representable` at an untyped constant of the type's kind that it doesn't have.
pub fn unassignable(types: &Types, to: TypeId, node: &TypedNode) -> Option<TypeFault>
    requires to { to < length types.now.shapes }
    requires node { Known (length types.now.shapes) node.now }
    ensures { result ≡ least (unassignable (rights_of types.now) (type_of types.now.shapes to) (seen types.now node.now)) }
{
    let sort = sort_of(types, node);
    match sort {
        Sort::Unknown => None,
        Sort::Value(from) => if assignable(types, *from, to) {
            None
        } else {
            Some(fault_at(types, node, FaultCode::Assignable))
        },
        Sort::Constant(from, _) => if assignable(types, from.id(), to) {
            None
        } else {
            Some(fault_at(types, node, FaultCode::Assignable))
        },
        Sort::Nil => if has_nil(types, to) {
            None
        } else {
            Some(fault_at(types, node, FaultCode::Assignable))
        },
        _ => untyped_unassignable(types, to, open_kind(types, sort), node),
    }
}

/// The fault of a value that is printed or given to `panic`: `Operands` at the call where it is no boolean, integer or text.
pub fn printed(types: &Types, basics: Basics, place: Place, node: &TypedNode) -> Option<TypeFault>
    requires basics { AreBasics types.now basics }
    requires node { Known (length types.now.shapes) node.now }
    ensures { result ≡ least (printed (rights_of types.now) place.first place.last (seen types.now node.now)) }
{
    match family(types, sort_of(types, node)) {
        Some(_) => undefaulted(types, basics, node),
        None => Some(place.fault(FaultCode::Operands)),
    }
}
