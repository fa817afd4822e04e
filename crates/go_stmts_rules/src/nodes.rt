//! The parts of a statement that are there.
ghost use Rattle.std.specs.Prelude.{◌≡◌, length, take, drop};
ghost use Rattle.go_typed.specs.Views.{AllKnown};
ghost use Rattle.go_exprs_calls.specs.Shown.{shown, AllShownKnown};

use go_typed::TypedNode;
use go_types::Types;

/// The first nodes, of this number if there are so many.
pub fn front<'a>(types: &Types, nodes: &'a [&'a TypedNode], count: u32) -> &'a [&'a TypedNode]
    requires { AllShownKnown (length types.now.shapes) nodes.now }
    ensures nodes { shown types.now result.now ≡ take count (shown types.now nodes.now) }
    ensures known { AllShownKnown (length types.now.shapes) result.now }
{
    &nodes[..nodes.len().min(count as usize)]
}

/// The nodes behind the first ones of this number.
pub fn behind<'a>(types: &Types, nodes: &'a [&'a TypedNode], count: u32) -> &'a [&'a TypedNode]
    requires { AllShownKnown (length types.now.shapes) nodes.now }
    ensures nodes { shown types.now result.now ≡ drop count (shown types.now nodes.now) }
    ensures known { AllShownKnown (length types.now.shapes) result.now }
{
    &nodes[nodes.len().min(count as usize)..]
}

/// The parts behind the first ones of this number.
pub fn parts_behind<'a>(
    types: &Types,
    parts: &'a [Option<TypedNode>],
    count: usize,
) -> &'a [Option<TypedNode>]
    requires { AllKnown (length types.now.shapes) parts.now }
    ensures parts { result.now ≡ drop count parts.now }
    ensures known { AllKnown (length types.now.shapes) result.now }
{
    &parts[parts.len().min(count)..]
}
