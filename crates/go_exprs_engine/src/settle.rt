//! Untyped values take types.
ghost use Rattle.std.specs.Prelude.{◌≡◌, ◌<◌, ◌^◌, ◌∷◌, [], OnErr, OnOk, length, map};
ghost use Rattle.std.specs.Option.{option_map};
ghost use Rattle.std.specs.List.{All};
ghost use Rattle.go_types.specs.Tables.{type_of};
ghost use Rattle.go_typed.specs.Trees.{sort_of};
ghost use Rattle.go_typed.specs.Views.{seen, sort_seen, Known, AllKnown, KnownSort};
ghost use Rattle.go_exprs_rules.specs.Seen.{AreBasics};
ghost use Rattle.go_exprs_rules.specs.Takes.{take_seen, KnownTake};
ghost use Rattle.go_exprs_rules.specs.Sorts.{retyped};
ghost use Rattle.go_exprs_rules.specs.Settling.{settled, given};
ghost use Rattle.go_exprs_rules.specs.Tables.{take_optional, all_given};

use go_base::Memory;
use go_exprs_rules::basics::default_type;
use go_exprs_rules::nodes::sort_of;
use go_exprs_rules::sorts::{open_kind, takes_type};
use go_exprs_rules::{Basics, Take};
use go_typed::{ConstantType, Sort, TypedNode};
use go_types::Types;

/// What is untyped takes the type, and so does `nil`; a constant keeps its value.
fn retype(types: &Types, of: ConstantType, sort: &mut Sort)
    requires of { of < length types.now.shapes }
    requires sort { KnownSort (length types.now.shapes) sort.old }
    ensures tree { sort_seen types.now sort.new ≡ retyped (type_of types.now.shapes of) (sort_seen types.now sort.old) }
    ensures known { KnownSort (length types.now.shapes) sort.new }
{
    *sort = match std::mem::replace(sort, Sort::Unknown) {
        Sort::Open(_) | Sort::Nil => Sort::Value(of.id()),
        Sort::OpenConstant(constant) => Sort::Constant(of, constant),
        other => other,
    };
}

/// An untyped node and its untyped operands take the type; so does `nil`, in parentheses too.
pub fn settle(types: &Types, of: ConstantType, node: &mut TypedNode)
    requires of { of < length types.now.shapes }
    requires node { Known (length types.now.shapes) node.old }
    ensures tree { seen types.now node.new ≡ settled (type_of types.now.shapes of) (seen types.now node.old) }
    ensures known { Known (length types.now.shapes) node.new }
{
    if takes_type(types, sort_of(types, node)) {
        retype(types, of, &mut node.sort);
        for part in node.parts.iter_mut() {
            if let Some(part) = part {
                settle(types, of, part);
            }
        }
    }
}

/// A node takes what its place gives.
///
/// # Errors
///
/// Want of memory, and only in a table of more than 2^32 types.
pub fn give(types: &Types, basics: Basics, take: Take, node: &mut TypedNode) -> Result<(), Memory>
    requires basics { AreBasics types.now basics }
    requires take { KnownTake (length types.now.shapes) take }
    requires node { Known (length types.now.shapes) node.old }
    ensures refused { OnErr result (2 ^ 32 < length types.now.shapes) }
    ensures tree { OnOk result (seen types.now node.new ≡ given (take_seen types.now take) (seen types.now node.old)) }
    ensures known { OnOk result (Known (length types.now.shapes) node.new) }
{
    match take {
        Take::Stay => {}
        Take::As(of) => settle(types, ConstantType::of(of)?, node),
        Take::Default => {
            if let Some(kind) = open_kind(types, sort_of(types, node)) {
                let of = ConstantType::of(default_type(types, basics, kind))?;
                settle(types, of, node);
            }
        }
    }
    Ok(())
}

/// A part, if there is one, takes what its place gives.
fn give_part(
    types: &Types,
    basics: Basics,
    take: Take,
    part: &mut Option<TypedNode>,
) -> Result<(), Memory>
    requires basics { AreBasics types.now basics }
    requires take { KnownTake (length types.now.shapes) take }
    requires part { AllKnown (length types.now.shapes) (part.old ∷ []) }
    ensures refused { OnErr result (2 ^ 32 < length types.now.shapes) }
    ensures tree { OnOk result (option_map (seen types.now) part.new ≡ take_optional (take_seen types.now take) (option_map (seen types.now) part.old)) }
    ensures known { OnOk result (AllKnown (length types.now.shapes) (part.new ∷ [])) }
{
    if let Some(node) = part {
        give(types, basics, take, node)?;
    }
    Ok(())
}

/// Each part takes what is said for it; those for which nothing is said take nothing.
///
/// # Errors
///
/// Want of memory, and only in a table of more than 2^32 types.
pub fn give_all(
    types: &Types,
    basics: Basics,
    takes: &[Take],
    parts: &mut [Option<TypedNode>],
) -> Result<(), Memory>
    requires basics { AreBasics types.now basics }
    requires takes { All (KnownTake (length types.now.shapes)) takes.now }
    requires parts { AllKnown (length types.now.shapes) parts.old }
    ensures refused { OnErr result (2 ^ 32 < length types.now.shapes) }
    ensures tree { OnOk result (map (option_map (seen types.now)) parts.new ≡ all_given (map (take_seen types.now) takes.now) (map (option_map (seen types.now)) parts.old)) }
    ensures known { OnOk result (AllKnown (length types.now.shapes) parts.new) }
{
    for number in 0..parts.len().min(takes.len()) {
        give_part(types, basics, takes[number], &mut parts[number])?;
    }
    Ok(())
}
