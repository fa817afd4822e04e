//! Functions that no longer end in a terminating statement.

ghost use Rattle.std.specs.Prelude.{◌≡◌, ◌<◌, true, length, map};
ghost use Rattle.go_types.specs.Tables.{type_of};
ghost use Rattle.go_types.specs.Trees.{row};
ghost use Rattle.go_exprs_rules.specs.Names.{is_row_empty};
ghost use Rattle.go_typed.specs.Forms.{is_function};
ghost use Rattle.go_typed.specs.Trees.{form_of};
ghost use Rattle.go_typed.specs.Views.{seen, view};
ghost use Rattle.escape_check.specs.Called.{called};
ghost use Rattle.escape_check.specs.Endings.{has_results, tree_terminates};
ghost use Rattle.escape_check.specs.Keeping.{KeepEnds};
ghost use Rattle.escape_check.specs.Shown.{IsSound};

use crate::ends::{Gap, first_there, parts_of, terminates};
use crate::keeping::leaves_end;
use crate::member::Member;
use crate::place::Place;
use crate::rule::MemberRule;
use go_base::Memory;
use go_typed::checked::Checked;
use go_typed::node::TypedNode;
use go_types::{Shape, TypeId, Types};
use go_types_relations::shape;
use std::alloc::Global;
use std::collections::HashSet;

/// With the window replaced by a call statement, a function with results doesn't end in a terminating statement (Go specification:
/// Terminating statements).
#[derive(Clone, Copy)]
pub(crate) struct LostEnds<'a> {
    /// For each function of the package the first tokens of the statements on whose places its end rests.
    pub ends: &'a [Option<HashSet<u32>>],
}

impl MemberRule for LostEnds<'_> {
    ghost use Rattle.go_typed.specs.Contents.{content};
    ghost use Rattle.escape_check.specs.Endings.{lost_ends};
    ghost use Rattle.escape_check.specs.Keeping.{KeepEnds};
    ghost use Rattle.escape_check.specs.Places.{sources_in};

    ghost places = { λ _ p m. lost_ends (sources_in p) (content p).functions m };

    ghost knows = { λ rule p. KeepEnds p.types p.functions rule.ends.now };

    fn place(
        &self,
        _alloc: Global,
        checked: &Checked,
        member: &Member<'_>,
    ) -> Result<Option<Place>, Memory> {
        let types = checked.types();
        if has_results(types, member.func.signature())
            && !ends_with_call(checked, self.ends, member)
        {
            return Ok(Some(member.window_place(checked)));
        }
        Ok(None)
    }
}

/// Whether a function of this type has results.
fn has_results(types: &Types, signature: TypeId) -> bool
    requires { signature < length types.now.shapes }
    ensures { result ≡ has_results (type_of types.now.shapes signature) }
{
    match shape(types, signature) {
        Shape::Func { results, .. } => !is_empty(types, results.as_slice()),
        _ => false,
    }
}

fn is_empty(_types: &Types, types: &[TypeId]) -> bool
    ensures { result ≡ is_row_empty (row (map (type_of _types.now.shapes) types.now)) }
{
    match types {
        [] => true,
        [_, ..] => false,
    }
}

/// Whether the body of a member's function ends in a terminating statement, where a call stands in place of the window. The body is looked
/// at only where the window has tokens on which its end rests.
fn ends_with_call(checked: &Checked, ends: &[Option<HashSet<u32>>], member: &Member<'_>) -> bool
    requires ends { KeepEnds checked.now.types checked.now.functions ends.now }
    requires sound { IsSound checked.now member.now }
    ensures { result ≡ tree_terminates (called (record { from = member.now.from; upto = member.now.upto }) (seen checked.now.types member.now.func.now.root)) }
{
    let gap = Gap {
        from: member.from,
        upto: member.upto,
    };
    leaves_end(ends, member.window.func, gap) || body_ends(checked.types(), gap, member.func.root())
}

/// Whether the body of a function ends so.
fn body_ends(types: &Types, gap: Gap, root: &TypedNode) -> bool
    requires { is_function (form_of (view root.now)) ≡ true }
    ensures { result ≡ tree_terminates (called gap (seen types.now root.now)) }
{
    match first_there(types, parts_of(types, root)) {
        Some(body) => terminates(types, gap, body),
        None => false,
    }
}
