//! What the parts of a statement take is given to them.
ghost use Rattle.std.specs.Prelude.{◌≡◌, ◌∷◌, [], All, OnOk, length, map};
ghost use Rattle.std.specs.Option.{option_map};
ghost use Rattle.go_typed.specs.Views.{seen, sort_seen, Known, AllKnown, KnownSort};
ghost use Rattle.go_exprs_rules.specs.Seen.{AreBasics};
ghost use Rattle.go_stmts_defs.specs.Assigning.{stands};
ghost use Rattle.go_stmts_defs.specs.Rules.{given_part, given_optional, all_given};
ghost use Rattle.go_stmts_rules.specs.Seen.{taking_seen, KnownTaking};

use go_base::Memory;
use go_exprs_engine::settle::give;
use go_exprs_rules::Basics;
use go_stmts_rules::Taking;
use go_typed::{Sort, TypedNode};
use go_types::Types;

/// The node stands for this from now on.
fn stand(types: &Types, sort: Sort, node: &mut TypedNode)
    requires sort { KnownSort (length types.now.shapes) sort }
    requires node { Known (length types.now.shapes) node.old }
    ensures tree { seen types.now node.new ≡ given_part (stands (sort_seen types.now sort)) (seen types.now node.old) }
    ensures known { Known (length types.now.shapes) node.new }
{
    let _types = types;
    node.sort = sort;
}

/// A node takes what is said for it.
fn give_node(
    types: &Types,
    basics: Basics,
    taking: &Taking,
    node: &mut TypedNode,
) -> Result<(), Memory>
    requires basics { AreBasics types.now basics }
    requires taking { KnownTaking (length types.now.shapes) taking.now }
    requires node { Known (length types.now.shapes) node.old }
    ensures tree { OnOk result (seen types.now node.new ≡ given_part (taking_seen types.now taking.now) (seen types.now node.old)) }
    ensures known { OnOk result (Known (length types.now.shapes) node.new) }
{
    match taking {
        Taking::Takes(take) => give(types, basics, *take, node)?,
        Taking::Stands(sort) => stand(types, sort.shared()?, node),
    }
    Ok(())
}

/// A part, if there is one, takes what is said for it.
fn give_part(
    types: &Types,
    basics: Basics,
    taking: &Taking,
    part: &mut Option<TypedNode>,
) -> Result<(), Memory>
    requires basics { AreBasics types.now basics }
    requires taking { KnownTaking (length types.now.shapes) taking.now }
    requires part { AllKnown (length types.now.shapes) (part.old ∷ []) }
    ensures tree { OnOk result (option_map (seen types.now) part.new ≡ given_optional (taking_seen types.now taking.now) (option_map (seen types.now) part.old)) }
    ensures known { OnOk result (AllKnown (length types.now.shapes) (part.new ∷ [])) }
{
    if let Some(node) = part {
        give_node(types, basics, taking, node)?;
    }
    Ok(())
}

/// Each part takes what is said for it; those for which nothing is said take nothing.
///
/// # Errors
///
/// Want of memory.
pub(crate) fn give_all(
    types: &Types,
    basics: Basics,
    takings: &[Taking],
    parts: &mut [Option<TypedNode>],
) -> Result<(), Memory>
    requires basics { AreBasics types.now basics }
    requires takings { All (KnownTaking (length types.now.shapes)) takings.now }
    requires parts { AllKnown (length types.now.shapes) parts.old }
    ensures tree { OnOk result (map (option_map (seen types.now)) parts.new ≡ all_given (map (taking_seen types.now) takings.now) (map (option_map (seen types.now)) parts.old)) }
    ensures known { OnOk result (AllKnown (length types.now.shapes) parts.new) }
{
    for number in 0..parts.len().min(takings.len()) {
        give_part(types, basics, &takings[number], &mut parts[number])?;
    }
    Ok(())
}
