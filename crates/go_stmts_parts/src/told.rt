//! What the parts of statements and declarations are told.
ghost use Rattle.std.specs.Prelude.{◌≡◌, length, map};
ghost use Rattle.std.specs.Option.{option_map};
ghost use Rattle.go_tree.specs.Views.{views};
ghost use Rattle.go_typed.specs.Views.{seen};
ghost use Rattle.go_exprs_rules.specs.Hints.{hint_seen, KnownHint};
ghost use Rattle.go_stmts_defs.specs.Laying.{alone_or_value, behind_names, specification_told, first_then, told};

use go_exprs_rules::Hint;
use go_grammar::kind::{Kind, Sort};
use go_tree::node::Node;
use go_typed::TypedNode;
use go_types::Types;

/// A call of several results stands alone.
#[tactic(auto, using(crate::proofs::Written::count_views))]
fn alone_or_value(types: &Types, written: &[Option<Node>], outer: Hint) -> Hint
    requires { KnownHint (length types.now.shapes) outer }
    ensures known { KnownHint (length types.now.shapes) result }
    ensures tree { hint_seen types.now result ≡ alone_or_value (views written.now) (hint_seen types.now outer) }
{
    let _types = types;
    match outer {
        Hint::Several if written.len() > 1 => Hint::Value,
        _ => outer,
    }
}

fn behind_names(types: &Types, kind: Kind, values: Hint) -> Hint
    requires { KnownHint (length types.now.shapes) values }
    ensures known { KnownHint (length types.now.shapes) result }
    ensures tree { hint_seen types.now result ≡ behind_names kind (hint_seen types.now values) }
{
    let _types = types;
    match kind {
        Kind::TypedValues => values,
        Kind::Values => values,
        _ => Hint::TypePlace,
    }
}

/// Of a specification the names, and then a type or values.
fn specification_told(types: &Types, values: Hint, elders: &[Option<TypedNode>], next: Kind) -> Hint
    requires { KnownHint (length types.now.shapes) values }
    ensures known { KnownHint (length types.now.shapes) result }
    ensures tree { hint_seen types.now result ≡ specification_told (hint_seen types.now values) (map (option_map (seen types.now)) elders.now) next }
{
    match elders {
        [] => Hint::Declares,
        _ => behind_names(types, next, values),
    }
}

fn first_then(types: &Types, first: Hint, others: Hint, elders: &[Option<TypedNode>]) -> Hint
    requires first { KnownHint (length types.now.shapes) first }
    requires others { KnownHint (length types.now.shapes) others }
    ensures known { KnownHint (length types.now.shapes) result }
    ensures tree { hint_seen types.now result ≡ first_then (hint_seen types.now first) (hint_seen types.now others) (map (option_map (seen types.now)) elders.now) }
{
    let _types = types;
    match elders {
        [] => first,
        _ => others,
    }
}

/// What the next part of a node of the kind is told: by what the node was told, by all its parts as they are written, by those in
/// front of the next one, and by the next one's kind.
pub fn told(
    types: &Types,
    kind: Kind,
    outer: Hint,
    written: &[Option<Node>],
    elders: &[Option<TypedNode>],
    next: Kind,
) -> Hint
    requires { KnownHint (length types.now.shapes) outer }
    ensures known { KnownHint (length types.now.shapes) result }
    ensures tree { hint_seen types.now result ≡ told kind (hint_seen types.now outer) (views written.now) (map (option_map (seen types.now)) elders.now) next }
{
    match kind {
        Kind::Specification(Sort::Type) => Hint::TypePlace,
        Kind::Specification(Sort::Variable) => {
            specification_told(types, Hint::Several, elders, next)
        }
        Kind::Specification(Sort::Constant) => {
            specification_told(types, Hint::Value, elders, next)
        }
        Kind::TypedValues => first_then(types, Hint::TypePlace, outer, elders),
        Kind::Values => outer,
        Kind::ExpressionList => alone_or_value(types, written, outer),
        Kind::NameList => Hint::Declares,
        Kind::NewNames => Hint::Declares,
        Kind::Targets => Hint::Target,
        Kind::Assignment => first_then(types, Hint::Free, Hint::Several, elders),
        Kind::Define => first_then(types, Hint::Free, Hint::Several, elders),
        Kind::ExpressionStatement => Hint::Statement,
        Kind::Return => Hint::Several,
        _ => Hint::Value,
    }
}
