//! The tag of a switch (Go specification: Expression switches).
ghost use Rattle.std.specs.Prelude.{◌≡◌, ◌∷◌, [], IfOk, length, map};
ghost use Rattle.std.specs.Option.{option_map};
ghost use Rattle.go_typed.specs.Views.{seen, sort_seen, AllKnown, KnownSort};
ghost use Rattle.go_exprs_rules.specs.Seen.{AreBasics};
ghost use Rattle.go_stmts_defs.specs.Reading.{tag_in, tag_of, last_of_list, tag_behind};
ghost use Rattle.go_stmts.specs.Tags.{holds_tag};

use go_base::Memory;
use go_exprs_rules::Basics;
use go_exprs_rules::basics::default_type;
use go_exprs_rules::nodes::sort_of;
use go_exprs_rules::sorts::{const_kind, untyped_kind};
use go_grammar::kind::Kind;
use go_stmts_parts::nodes::{form_of, parts_of};
use go_typed::{ConstantType, Form, Sort, TypedNode};
use go_types::Types;

/// What a tag stands for: an untyped one takes its default type.
fn tag_in(types: &Types, basics: Basics, sort: &Sort) -> Result<Sort, Memory>
    requires basics { AreBasics types.now basics }
    requires sort { KnownSort (length types.now.shapes) sort.now }
    ensures tree { IfOk result (λ x. sort_seen types.now x ≡ tag_in (sort_seen types.now sort.now)) }
    ensures known { IfOk result (KnownSort (length types.now.shapes)) }
{
    match sort.shared()? {
        Sort::Value(of) => Ok(Sort::Value(of)),
        Sort::Constant(of, constant) => Ok(Sort::Constant(of, constant)),
        Sort::Open(untyped) => {
            let of = default_type(types, basics, untyped_kind(untyped));
            Ok(Sort::Value(of))
        }
        Sort::OpenConstant(constant) => {
            let of = default_type(types, basics, const_kind(constant.get()));
            Ok(Sort::Constant(ConstantType::of(of)?, constant))
        }
        _ => Ok(Sort::Unknown),
    }
}

/// What the tag that a part is stands for; one that is left out is `true`.
fn tag_of(types: &Types, basics: Basics, part: &Option<TypedNode>) -> Result<Sort, Memory>
    requires basics { AreBasics types.now basics }
    requires part { AllKnown (length types.now.shapes) (part.now ∷ []) }
    ensures tree { IfOk result (λ x. sort_seen types.now x ≡ tag_of (option_map (seen types.now) part.now)) }
    ensures known { IfOk result (KnownSort (length types.now.shapes)) }
{
    match part {
        Some(node) => tag_in(types, basics, sort_of(types, node)),
        None => Ok(Sort::Value(basics.boolean)),
    }
}

/// What the tag stands for that is the last of some parts.
#[tactic(auto, using(crate::proofs::Lasts::last_listed))]
fn last_tag(types: &Types, basics: Basics, parts: &[Option<TypedNode>]) -> Result<Sort, Memory>
    requires basics { AreBasics types.now basics }
    requires parts { AllKnown (length types.now.shapes) parts.now }
    ensures tree { IfOk result (λ x. sort_seen types.now x ≡ tag_of (last_of_list (map (option_map (seen types.now)) parts.now))) }
    ensures known { IfOk result (KnownSort (length types.now.shapes)) }
{
    match parts.split_last() {
        Some((last, _)) => tag_of(types, basics, last),
        None => Ok(Sort::Value(basics.boolean)),
    }
}

/// Whether a node only holds a tag behind a first statement or a semicolon.
fn holds_tag(form: Form) -> bool
    ensures { result ≡ holds_tag form }
{
    matches!(
        form,
        Form::Held(Kind::LateTag) | Form::Held(Kind::InitializedTag)
    )
}

/// The tag that the part in front of the braces of a switch gives.
///
/// # Errors
///
/// Want of memory.
#[tactic(auto, using(crate::proofs::Lasts::tag_by))]
pub fn tag_behind(types: &Types, basics: Basics, part: &Option<TypedNode>) -> Result<Sort, Memory>
    requires basics { AreBasics types.now basics }
    requires part { AllKnown (length types.now.shapes) (part.now ∷ []) }
    ensures tree { IfOk result (λ x. sort_seen types.now x ≡ tag_behind (option_map (seen types.now) part.now)) }
    ensures known { IfOk result (KnownSort (length types.now.shapes)) }
{
    match part {
        Some(node) => if holds_tag(form_of(types, node)) {
            last_tag(types, basics, parts_of(types, node))
        } else {
            tag_in(types, basics, sort_of(types, node))
        },
        None => Ok(Sort::Value(basics.boolean)),
    }
}
