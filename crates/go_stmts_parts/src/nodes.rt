//! What is asked of a typed node and its parts.
ghost use Rattle.std.specs.Prelude.{◌≡◌, ◌<◌, ◌≤◌, IfSome, length, map};
ghost use Rattle.std.specs.Option.{option_map};
ghost use Rattle.go_typed.specs.Funcs.{size, sizes};
ghost use Rattle.go_typed.specs.Trees.{form_of, list_of, parts_of};
ghost use Rattle.go_typed.specs.Views.{seen, view, views, Known, AllKnown};
ghost use Rattle.go_stmts_defs.specs.Rows.{first_there};

use go_typed::{Form, TypedNode};
use go_types::Types;

/// What the node is.
pub fn form_of(types: &Types, node: &TypedNode) -> Form
    ensures { result ≡ form_of (seen types.now node.now) }
{
    let _types = types;
    node.form
}

/// Its parts, in order.
pub fn parts_of<'a>(types: &Types, node: &'a TypedNode) -> &'a [Option<TypedNode>]
    requires { Known (length types.now.shapes) node.now }
    ensures parts { map (option_map (seen types.now)) result.now ≡ list_of (parts_of (seen types.now node.now)) }
    ensures known { AllKnown (length types.now.shapes) result.now }
    ensures smaller { sizes (views result.now) < size (view node.now) }
{
    let _types = types;
    &node.parts
}

/// The first of some parts, if it is there.
pub fn first_there<'a>(types: &Types, parts: &'a [Option<TypedNode>]) -> Option<&'a TypedNode>
    requires { AllKnown (length types.now.shapes) parts.now }
    ensures part { option_map (λ n. seen types.now n.now) result ≡ first_there (map (option_map (seen types.now)) parts.now) }
    ensures known { IfSome result (λ n. Known (length types.now.shapes) n.now) }
    ensures smaller { IfSome result (λ n. size (view n.now) ≤ sizes (views parts.now)) }
{
    let _types = types;
    match parts {
        [Some(first), ..] => Some(first),
        _ => None,
    }
}
