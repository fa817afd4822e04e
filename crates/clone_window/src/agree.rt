//! When trees agree node by node, and name fields of the same names.

ghost use Rattle.std.specs.Prelude.{◌≡◌, ◌&&◌, false, nat_eq};
ghost use Rattle.go_types.specs.Tables.{rights_of};
ghost use Rattle.go_typed.specs.Trees.{Nothing};
ghost use Rattle.go_typed.specs.Views.{sort_view, view, views};
ghost use Rattle.clone_window.specs.Fields.{field_name, field_text, names_field, same_field};
ghost use Rattle.clone_window.specs.Kinds.{outline};
ghost use Rattle.clone_window.specs.Sameness.{agree_besides, compared, same_outline};
ghost use Rattle.clone_window.specs.Named as specs;
ghost use Rattle.clone_window.specs.Named.{all_named};

use crate::alike::{agree_besides, same_outline, same_type};
use crate::fields::same_field;
use crate::mass::{is_hole, is_inside};
use crate::outline::outline_of;
use go_typed::form::{Form, Referent};
use go_typed::node::TypedNode;
use go_typed::sort::Sort;
use go_types::Types;

/// Whether two trees agree node by node, up to locals and constants, and name fields of the same names at corresponding places. Each
/// may stand inside a constant expression, and in a composite literal that stands for an owner.
#[cycle(agree)]
fn agree_named(
    types: &Types,
    inside: bool,
    other_inside: bool,
    owner: &Sort,
    other_owner: &Sort,
    node: &TypedNode,
    other: &TypedNode,
) -> bool
    ensures { result ≡ specs.agree_named (field_text types.now) inside other_inside (sort_view owner.now) (sort_view other_owner.now) (view node.now) (view other.now) }
{
    if is_hole(inside, node) {
        return is_hole(other_inside, other) && same_type(&node.sort, &other.sort);
    }
    if is_hole(other_inside, other) {
        return false;
    }
    let within = is_inside(inside, node);
    let other_within = is_inside(other_inside, other);
    agree_alone(node.form, other.form, &node.sort, &other.sort)
        && same_field(
            types,
            owner,
            other_owner,
            node.form,
            other.form,
            &node.parts,
            &other.parts,
        )
        && all_named(
            types,
            within,
            other_within,
            &node.sort,
            &other.sort,
            &node.parts,
            &other.parts,
        )
}

/// Whether two nodes that are no holes agree but for their parts.
fn agree_alone(form: Form, other: Form, sort: &Sort, other_sort: &Sort) -> bool
    ensures { result ≡ (same_outline (outline form) (outline other) && agree_besides nat_eq (compared form) (compared other) (sort_view sort.now) (sort_view other_sort.now)) }
{
    same_shape(form, other) && agree_besides(form, other, sort, other_sort)
}

/// Whether nodes of these forms show the same by themselves. The commonest forms are told apart without their outlines.
fn same_shape(form: Form, other: Form) -> bool
    ensures { result ≡ same_outline (outline form) (outline other) }
{
    match (form, other) {
        (Form::Expression, Form::Expression)
        | (Form::Block, Form::Block)
        | (Form::If, Form::If)
        | (Form::For, Form::For)
        | (Form::Return, Form::Return)
        | (Form::Call, Form::Call)
        | (Form::Index, Form::Index)
        | (Form::Literal, Form::Literal)
        | (Form::Local(_), Form::Local(_))
        | (Form::New(_), Form::New(_)) => true,
        (Form::Object(Referent::Function(number)), Form::Object(Referent::Function(other))) => {
            number == other
        }
        _ => same_outline(outline_of(form), outline_of(other)),
    }
}

/// Whether two rows of parts agree part by part, a part that is left out with one that is left out, and name fields of the same names.
#[cycle(agree)]
fn all_named(
    types: &Types,
    inside: bool,
    other_inside: bool,
    owner: &Sort,
    other_owner: &Sort,
    parts: &[Option<TypedNode>],
    others: &[Option<TypedNode>],
) -> bool
    ensures { result ≡ all_named (field_text types.now) inside other_inside (sort_view owner.now) (sort_view other_owner.now) (views parts.now) (views others.now) }
{
    if parts.len() != others.len() {
        return false;
    }
    let mut index: usize = 0;
    for part in parts {
        match (part, &others[index]) {
            (Some(node), Some(other)) => {
                if !agree_named(types, inside, other_inside, owner, other_owner, node, other) {
                    return false;
                }
            }
            (None, None) => {}
            _ => return false,
        }
        index += 1;
    }
    true
}

/// Whether two runs of statements agree node by node, up to locals and constants, and name fields of the same names.
pub fn statements_agree(
    types: &Types,
    statements: &[Option<TypedNode>],
    others: &[Option<TypedNode>],
) -> bool
    ensures { result ≡ all_named (field_text types.now) false false Nothing Nothing (views statements.now) (views others.now) }
{
    let nothing = Sort::Nothing;
    all_named(types, false, false, &nothing, &nothing, statements, others)
}
