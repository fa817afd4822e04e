//! Arguments, and elements of a literal.
ghost use Rattle.std.specs.Prelude.{◌≡◌, ◌∷◌, [], Some, IfOk, IfSome, IfNone, length, map};
ghost use Rattle.std.specs.Option.{option_map};
ghost use Rattle.go_typed.specs.Views.{seen, Known, AllKnown};
ghost use Rattle.go_exprs_rules.specs.Tables as tables;
ghost use Rattle.go_exprs_calls.specs.Shown.{shown, AllShownKnown};
ghost use Rattle.go_exprs_calls.specs.Arguments.{HasNoFirst, IsNotOne, IsNotTwo};

use go_base::Memory;
use go_typed::TypedNode;
use go_types::Types;
use std::alloc::Global;

/// The parts that are there, in order.
///
/// # Errors
///
/// Want of memory.
pub fn present<'a>(
    alloc: Global,
    types: &Types,
    parts: &'a [Option<TypedNode>],
) -> Result<Vec<&'a TypedNode>, Memory>
    requires { AllKnown (length types.now.shapes) parts.now }
    ensures nodes { IfOk result (λ ns. shown types.now ns.items ≡ tables.present (map (option_map (seen types.now)) parts.now)) }
    ensures known { IfOk result (λ ns. AllShownKnown (length types.now.shapes) ns.items) }
{
    let mut nodes = Vec::new(alloc);
    for part in parts {
        let Some(part) = part else { continue };
        nodes.push(part)?;
    }
    Ok(nodes)
}

/// The first node and the others, if there is one.
pub(crate) fn divided<'a>(
    types: &Types,
    nodes: &'a [&'a TypedNode],
) -> Option<(&'a TypedNode, &'a [&'a TypedNode])>
    requires { AllShownKnown (length types.now.shapes) nodes.now }
    ensures none { IfNone result (shown types.now nodes.now ≡ []) }
    ensures some { IfSome result (λ p. shown types.now nodes.now ≡ seen types.now p.0.now ∷ shown types.now p.1.now) }
    ensures known { IfSome result (λ p. Known (length types.now.shapes) p.0.now × AllShownKnown (length types.now.shapes) p.1.now) }
{
    match nodes {
        [] => None,
        [first, others @ ..] => Some((first, others)),
    }
}

/// The first part, if it is there, and the others.
pub(crate) fn first_part<'a>(
    types: &Types,
    parts: &'a [Option<TypedNode>],
) -> Option<(&'a TypedNode, &'a [Option<TypedNode>])>
    requires { AllKnown (length types.now.shapes) parts.now }
    ensures none { IfNone result (HasNoFirst parts.now) }
    ensures some { IfSome result (λ p. parts.now ≡ Some p.0.now ∷ p.1.now) }
    ensures known { IfSome result (λ p. Known (length types.now.shapes) p.0.now × AllKnown (length types.now.shapes) p.1.now) }
{
    match parts {
        [] => None,
        [first, others @ ..] => match first {
            Some(first) => Some((first, others)),
            None => None,
        },
    }
}

/// The first part, which may be left out, and the others.
pub(crate) fn divided_parts<'a>(
    types: &Types,
    parts: &'a [Option<TypedNode>],
) -> Option<(Option<&'a TypedNode>, &'a [Option<TypedNode>])>
    requires { AllKnown (length types.now.shapes) parts.now }
    ensures none { IfNone result (parts.now ≡ []) }
    ensures some { IfSome result (λ p. parts.now ≡ option_map (λ n. n.now) p.0 ∷ p.1.now) }
    ensures known { IfSome result (λ p. IfSome p.0 (λ n. Known (length types.now.shapes) n.now) × AllKnown (length types.now.shapes) p.1.now) }
{
    match parts {
        [] => None,
        [first, others @ ..] => Some((first.as_ref(), others)),
    }
}

/// The one node, if there is only one.
pub(crate) fn one<'a>(types: &Types, nodes: &'a [&'a TypedNode]) -> Option<&'a TypedNode>
    requires { AllShownKnown (length types.now.shapes) nodes.now }
    ensures some { IfSome result (λ n. shown types.now nodes.now ≡ seen types.now n.now ∷ []) }
    ensures none { IfNone result (IsNotOne (shown types.now nodes.now)) }
    ensures known { IfSome result (λ n. Known (length types.now.shapes) n.now) }
{
    match nodes {
        [] => None,
        [one] => Some(one),
        [_, _, ..] => None,
    }
}

/// The two nodes, if there are only two.
pub(crate) fn two<'a>(
    types: &Types,
    nodes: &'a [&'a TypedNode],
) -> Option<(&'a TypedNode, &'a TypedNode)>
    requires { AllShownKnown (length types.now.shapes) nodes.now }
    ensures some { IfSome result (λ p. shown types.now nodes.now ≡ seen types.now p.0.now ∷ seen types.now p.1.now ∷ []) }
    ensures none { IfNone result (IsNotTwo (shown types.now nodes.now)) }
    ensures known { IfSome result (λ p. Known (length types.now.shapes) p.0.now × Known (length types.now.shapes) p.1.now) }
{
    match nodes {
        [] => None,
        [_] => None,
        [one, two] => Some((one, two)),
        [_, _, _, ..] => None,
    }
}
