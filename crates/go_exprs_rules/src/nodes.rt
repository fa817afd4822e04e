//! What is asked of a typed node.
ghost use Rattle.std.specs.Prelude.{◌≡◌, ◌<◌, [], ◌∷◌, length};
ghost use Rattle.go_types.specs.Tables.{type_of, rights_of};
ghost use Rattle.go_typed.specs.Trees.{sort_of};
ghost use Rattle.go_typed.specs.Views.{seen, sort_seen, Known, KnownSort};
ghost use Rattle.go_exprs_rules.specs.Faults.{least};
ghost use Rattle.go_exprs_rules.specs.Settling.{at_part, unrepresented};

use crate::fault::{Place, TypeFault, earlier};
use crate::sorts::{constant_of, is_open, represents};
use go_base::FaultCode;
use go_typed::{Sort, TypedNode};
use go_types::{TypeId, Types};

/// What a node stands for.
pub fn sort_of<'a>(types: &Types, node: &'a TypedNode) -> &'a Sort
    requires { Known (length types.now.shapes) node.now }
    ensures tree { sort_seen types.now result.now ≡ sort_of (seen types.now node.now) }
    ensures known { KnownSort (length types.now.shapes) result.now }
{
    &node.sort
}

/// The fault of a rule that fails at a node.
pub fn fault_at(_types: &Types, node: &TypedNode, code: FaultCode) -> TypeFault
    ensures { at_part code (seen _types.now node.now) ≡ result ∷ [] }
{
    let place = Place {
        first: node.first,
        last: node.last,
    };
    place.fault(code)
}

/// The first of the untyped constants in a node that the type, which is of their kind, doesn't represent, where the node takes it.
pub fn unrepresented(types: &Types, of: TypeId, node: &TypedNode) -> Option<TypeFault>
    requires of { of < length types.now.shapes }
    requires node { Known (length types.now.shapes) node.now }
    ensures { result ≡ least (unrepresented (rights_of types.now) (type_of types.now.shapes of) (seen types.now node.now)) }
{
    let sort = sort_of(types, node);
    if !is_open(types, sort) {
        return None;
    }
    if let Some(constant) = constant_of(types, sort) {
        return if represents(types, of, constant) {
            None
        } else {
            Some(fault_at(types, node, FaultCode::Representable))
        };
    }
    let mut first = None;
    for part in &node.parts {
        let Some(part) = part else { continue };
        first = earlier(first, unrepresented(types, of, part));
    }
    first
}
