//! What the parts of a statement take.
ghost use Rattle.std.specs.Prelude.{◌≡◌, ◌++◌, ◌∷◌, ◌-◌, [], All, IfOk, OnOk, IfSome, length, map, take};
ghost use Rattle.std.specs.Option.{option_map};
ghost use Rattle.go_types.specs.Tables.{type_of, rights_of};
ghost use Rattle.go_typed.specs.Views.{seen, Known, AllKnown};
ghost use Rattle.go_exprs_rules.specs.Seen.{AreBasics};
ghost use Rattle.go_exprs_rules.specs.Settling.{stay};
ghost use Rattle.go_exprs_rules.specs.Takes.{take_seen, KnownTake};
ghost use Rattle.go_stmts_defs.specs.Assigning.{takes};
ghost use Rattle.go_exprs_rules.specs.Tables.{present};
ghost use Rattle.go_grammar.specs.declared.kind.Kind.TheVariants as kinds;
ghost use Rattle.go_typed.specs.declared.form.Form.TheVariants as forms;
ghost use Rattle.go_stmts_defs.specs.Frames.{Frame};
ghost use Rattle.go_stmts_defs.specs.Rules as rules;
ghost use Rattle.go_exprs_calls.specs.Shown.{shown, AllShownKnown};
ghost use Rattle.go_stmts_rules.specs.Seen.{taking_seen, KnownTaking};
ghost use Rattle.go_stmts_rules.specs.Told.{Agrees, KnownAround};

use crate::around::Around;
use crate::constants::{type_there, values_there};
use crate::failing::names_in;
use crate::names::{push_constants, push_elements, push_names};
use crate::nodes::{behind, front};
use crate::operations::operands_take;
use crate::ranges::operand_take;
use crate::taking::Taking;
use crate::values::{
    push, push_each, push_rests, push_returned, push_same, push_values, type_or_default,
};
use crate::wanted::{known_types, same_types, target_types};
use go_base::Memory;
use go_exprs_calls::arguments::present;
use go_exprs_rules::nodes::sort_of;
use go_exprs_rules::sorts::own_type;
use go_exprs_rules::{Basics, Take};
use go_grammar::kind::{Arithmetic, Kind, Sort as Declared};
use go_typed::{Form, TypedNode};
use go_types::Types;
use std::alloc::Global;

/// Typed parts, as they are laid out.
type Parts<'a> = &'a [Option<TypedNode>];

/// What the operands of an assignment with an operator take.
fn operated(
    types: &Types,
    basics: Basics,
    operator: Arithmetic,
    parts: Parts<'_>,
    takings: &mut Vec<Taking>,
) -> Result<(), Memory>
    requires basics { AreBasics types.now basics }
    requires parts { AllKnown (length types.now.shapes) parts.now }
    requires takings { All (KnownTaking (length types.now.shapes)) takings.old.items }
    ensures tree { (s : Frame) → s.around.rights ≡ rights_of types.now →
        OnOk result (map (taking_seen types.now) takings.new.items ≡ map (taking_seen types.now) takings.old.items ++ rules.taking s (kinds.OperatorAssignment operator) forms.Return (map (option_map (seen types.now)) parts.now)) }
    ensures known { OnOk result (All (KnownTaking (length types.now.shapes)) takings.new.items) }
{
    if let [Some(left), Some(right)] = parts {
        let both = operands_take(
            types,
            basics,
            operator,
            sort_of(types, left),
            sort_of(types, right),
        );
        push(types, Taking::Takes(both.left), takings)?;
        push(types, Taking::Takes(both.right), takings)?;
    }
    Ok(())
}

/// What the parts of an assignment to so many targets take.
fn assigned(
    alloc: Global,
    types: &Types,
    count: u32,
    parts: Parts<'_>,
    takings: &mut Vec<Taking>,
) -> Result<(), Memory>
    requires parts { AllKnown (length types.now.shapes) parts.now }
    requires takings { All (KnownTaking (length types.now.shapes)) takings.old.items }
    ensures tree { OnOk result (map (taking_seen types.now) takings.new.items ≡ map (taking_seen types.now) takings.old.items ++ rules.split_at count rules.assign_takes (map (option_map (seen types.now)) parts.now)) }
    ensures known { OnOk result (All (KnownTaking (length types.now.shapes)) takings.new.items) }
{
    let nodes = present(alloc, types, parts)?;
    let targets = front(types, &nodes, count);
    let values = behind(types, &nodes, count);
    let wanted = target_types(alloc, types, targets)?;
    push_rests(types, targets, takings)?;
    push_values(types, &wanted, values, takings)?;
    Ok(())
}

/// What the parts of a short declaration of so many names take.
fn defined(
    alloc: Global,
    types: &Types,
    around: Around<'_>,
    count: u32,
    parts: Parts<'_>,
    takings: &mut Vec<Taking>,
) -> Result<(), Memory>
    requires basics { AreBasics types.now around.basics }
    requires around { KnownAround (length types.now.shapes) around }
    requires parts { AllKnown (length types.now.shapes) parts.now }
    requires takings { All (KnownTaking (length types.now.shapes)) takings.old.items }
    ensures tree { (s : Frame) → Agrees types.now around.entry s →
        OnOk result (map (taking_seen types.now) takings.new.items ≡ map (taking_seen types.now) takings.old.items ++ rules.split_at count (rules.define_takes s) (map (option_map (seen types.now)) parts.now)) }
    ensures known { OnOk result (All (KnownTaking (length types.now.shapes)) takings.new.items) }
{
    let nodes = present(alloc, types, parts)?;
    let names = front(types, &nodes, count);
    let values = behind(types, &nodes, count);
    let wanted = known_types(alloc, types, around.locals, names)?;
    push_names(alloc, types, around.basics, &wanted, values, takings)?;
    push_values(types, &wanted, values, takings)?;
    Ok(())
}

/// What the parts of a specification of so many variables take.
fn variables(
    alloc: Global,
    types: &Types,
    basics: Basics,
    count: u32,
    parts: Parts<'_>,
    takings: &mut Vec<Taking>,
) -> Result<(), Memory>
    requires basics { AreBasics types.now basics }
    requires parts { AllKnown (length types.now.shapes) parts.now }
    requires takings { All (KnownTaking (length types.now.shapes)) takings.old.items }
    ensures tree { let ys = map (option_map (seen types.now)) parts.now in
        OnOk result (map (taking_seen types.now) takings.new.items ≡ map (taking_seen types.now) takings.old.items ++ rules.variables_take (rights_of types.now) count (rules.type_there count ys) (rules.values_there count ys)) }
    ensures known { OnOk result (All (KnownTaking (length types.now.shapes)) takings.new.items) }
{
    let of = type_there(types, parts, count);
    let values = values_there(alloc, types, parts, count)?;
    let wanted = same_types(alloc, types, count, of)?;
    push_names(alloc, types, basics, &wanted, &values, takings)?;
    push(types, Taking::Takes(Take::Stay), takings)?;
    push_values(types, &wanted, &values, takings)?;
    Ok(())
}

/// What the parts of a specification of so many constants take.
fn constants(
    alloc: Global,
    types: &Types,
    count: u32,
    parts: Parts<'_>,
    takings: &mut Vec<Taking>,
) -> Result<(), Memory>
    requires parts { AllKnown (length types.now.shapes) parts.now }
    requires takings { All (KnownTaking (length types.now.shapes)) takings.old.items }
    ensures tree { let ys = map (option_map (seen types.now)) parts.now in
        OnOk result (map (taking_seen types.now) takings.new.items ≡ map (taking_seen types.now) takings.old.items ++ rules.specified_constants count (rules.type_there count ys) (rules.values_there count ys)) }
    ensures known { OnOk result (All (KnownTaking (length types.now.shapes)) takings.new.items) }
{
    let of = type_there(types, parts, count);
    let values = values_there(alloc, types, parts, count)?;
    push_constants(types, of, count as usize, &values, takings)?;
    push(types, Taking::Takes(Take::Stay), takings)?;
    push_each(types, of, &values, takings)?;
    Ok(())
}

/// What returned values take.
fn returned(
    alloc: Global,
    types: &Types,
    around: Around<'_>,
    parts: Parts<'_>,
    takings: &mut Vec<Taking>,
) -> Result<(), Memory>
    requires around { KnownAround (length types.now.shapes) around }
    requires parts { AllKnown (length types.now.shapes) parts.now }
    requires takings { All (KnownTaking (length types.now.shapes)) takings.old.items }
    ensures tree { (s : Frame) → Agrees types.now around.entry s →
        OnOk result (map (taking_seen types.now) takings.new.items ≡ map (taking_seen types.now) takings.old.items ++ rules.returned s.results (present (map (option_map (seen types.now)) parts.now))) }
    ensures known { OnOk result (All (KnownTaking (length types.now.shapes)) takings.new.items) }
{
    let values = present(alloc, types, parts)?;
    push_returned(types, around.results, &values, takings)?;
    Ok(())
}

/// What the first statement, if there is one, and the condition or the tag behind it take.
fn headed(types: &Types, take: Take, takings: &mut Vec<Taking>) -> Result<(), Memory>
    requires take { KnownTake (length types.now.shapes) take }
    requires takings { All (KnownTaking (length types.now.shapes)) takings.old.items }
    ensures tree { OnOk result (map (taking_seen types.now) takings.new.items ≡ map (taking_seen types.now) takings.old.items ++ (takes stay ∷ takes (take_seen types.now take) ∷ [])) }
    ensures known { OnOk result (All (KnownTaking (length types.now.shapes)) takings.new.items) }
{
    push(types, Taking::Takes(Take::Stay), takings)?;
    push(types, Taking::Takes(take), takings)?;
    Ok(())
}

/// What the parts of a loop take.
fn looped(
    types: &Types,
    basics: Basics,
    form: Form,
    parts: Parts<'_>,
    takings: &mut Vec<Taking>,
) -> Result<(), Memory>
    requires basics { AreBasics types.now basics }
    requires parts { AllKnown (length types.now.shapes) parts.now }
    requires takings { All (KnownTaking (length types.now.shapes)) takings.old.items }
    ensures tree { OnOk result (map (taking_seen types.now) takings.new.items ≡ map (taking_seen types.now) takings.old.items ++ rules.loop_takes form (map (option_map (seen types.now)) parts.now)) }
    ensures known { OnOk result (All (KnownTaking (length types.now.shapes)) takings.new.items) }
{
    match form {
        Form::Range { targets, .. } => {
            push_same(types, Take::Stay, targets as usize, takings)?;
            let take = operand_take(types, parts, targets);
            push(types, Taking::Takes(take), takings)?;
            Ok(())
        }
        _ => headed(types, Take::As(basics.boolean), takings),
    }
}

/// The last of some nodes.
fn last_of<'a>(types: &Types, nodes: &'a [&'a TypedNode]) -> Option<&'a TypedNode>
    requires { AllShownKnown (length types.now.shapes) nodes.now }
    ensures node { option_map (λ n. seen types.now n.now) result ≡ rules.last_part (shown types.now nodes.now) }
    ensures known { IfSome result (λ n. Known (length types.now.shapes) n.now) }
{
    let _types = types;
    match nodes.split_last() {
        Some((last, _)) => Some(last),
        None => None,
    }
}

/// What the names of a range clause stand for, by its last part, the value that it goes over.
fn ranged(
    alloc: Global,
    types: &Types,
    basics: Basics,
    parts: Parts<'_>,
    takings: &mut Vec<Taking>,
) -> Result<(), Memory>
    requires basics { AreBasics types.now basics }
    requires parts { AllKnown (length types.now.shapes) parts.now }
    requires takings { All (KnownTaking (length types.now.shapes)) takings.old.items }
    ensures tree { let ys = map (option_map (seen types.now)) parts.now in
        OnOk result (map (taking_seen types.now) takings.new.items ≡ map (taking_seen types.now) takings.old.items ++ rules.range_stands (rights_of types.now) (length ys - 1) (rules.last_part (present ys))) }
    ensures known { OnOk result (All (KnownTaking (length types.now.shapes)) takings.new.items) }
{
    let nodes = present(alloc, types, parts)?;
    if let Some(operand) = last_of(types, &nodes) {
        push_elements(
            types,
            basics,
            parts.len().saturating_sub(1),
            operand,
            takings,
        )?;
    }
    Ok(())
}

/// What so many values of a case take: the tag's type, or their default types.
fn compared(
    types: &Types,
    around: Around<'_>,
    count: u32,
    takings: &mut Vec<Taking>,
) -> Result<(), Memory>
    requires around { KnownAround (length types.now.shapes) around }
    requires takings { All (KnownTaking (length types.now.shapes)) takings.old.items }
    ensures tree { (s : Frame) → Agrees types.now around.entry s → OnOk result (map (taking_seen types.now) takings.new.items ≡ map (taking_seen types.now) takings.old.items ++ rules.taking s kinds.Case (forms.Case count) []) }
    ensures known { OnOk result (All (KnownTaking (length types.now.shapes)) takings.new.items) }
{
    let take = type_or_default(types, own_type(types, around.tag));
    push_same(types, take, count as usize, takings)?;
    Ok(())
}

/// Puts what the parts of a statement take behind the rest.
fn push_takings(
    alloc: Global,
    types: &Types,
    around: Around<'_>,
    kind: Kind,
    form: Form,
    parts: Parts<'_>,
    takings: &mut Vec<Taking>,
) -> Result<(), Memory>
    requires basics { AreBasics types.now around.basics }
    requires around { KnownAround (length types.now.shapes) around }
    requires parts { AllKnown (length types.now.shapes) parts.now }
    requires takings { All (KnownTaking (length types.now.shapes)) takings.old.items }
    ensures tree { (s : Frame) → Agrees types.now around.entry s →
        OnOk result (map (taking_seen types.now) takings.new.items ≡ map (taking_seen types.now) takings.old.items ++ rules.taking s kind form (map (option_map (seen types.now)) parts.now)) }
    ensures known { OnOk result (All (KnownTaking (length types.now.shapes)) takings.new.items) }
{
    let basics = around.basics;
    match kind {
        Kind::OperatorAssignment(operator) => operated(types, basics, operator, parts, takings),
        Kind::Assignment => assigned(alloc, types, names_in(form), parts, takings),
        Kind::Define => defined(alloc, types, around, names_in(form), parts, takings),
        Kind::Specification(Declared::Variable) => {
            variables(alloc, types, basics, names_in(form), parts, takings)
        }
        Kind::Specification(Declared::Constant) => {
            constants(alloc, types, names_in(form), parts, takings)
        }
        Kind::Return => returned(alloc, types, around, parts, takings),
        Kind::If => headed(types, Take::As(basics.boolean), takings),
        Kind::For => looped(types, basics, form, parts, takings),
        Kind::DefiningRange => ranged(alloc, types, basics, parts, takings),
        Kind::Switch => headed(types, Take::Default, takings),
        Kind::Case => compared(types, around, names_in(form), takings),
        _ => Ok(()),
    }
}

/// What the parts of a statement or a declaration take, in order, by its kind, its form and its parts as they are laid out; further
/// ones take nothing.
///
/// # Errors
///
/// Want of memory.
pub fn takings(
    alloc: Global,
    types: &Types,
    around: Around<'_>,
    kind: Kind,
    form: Form,
    parts: &[Option<TypedNode>],
) -> Result<Vec<Taking>, Memory>
    requires basics { AreBasics types.now around.basics }
    requires around { KnownAround (length types.now.shapes) around }
    requires parts { AllKnown (length types.now.shapes) parts.now }
    ensures tree { (s : Frame) → Agrees types.now around.entry s → IfOk result (λ ks. map (taking_seen types.now) ks.items ≡ rules.taking s kind form (map (option_map (seen types.now)) parts.now)) }
    ensures known { IfOk result (λ ks. All (KnownTaking (length types.now.shapes)) ks.items) }
{
    let mut takings = Vec::new(alloc);
    push_takings(alloc, types, around, kind, form, parts, &mut takings)?;
    Ok(takings)
}
