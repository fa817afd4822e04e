//! What a node's label says of its parts.
ghost use Rattle.std.specs.Prelude.{◌≡◌, length, map};
ghost use Rattle.std.specs.Option.{option_map};
ghost use Rattle.std.specs.List.{list_any};
ghost use Rattle.go_types.specs.Tables.{type_of};
ghost use Rattle.go_typed.specs.Trees.{label_mapped};
ghost use Rattle.go_typed.specs.Views.{seen, sort_seen, label_view};
ghost use Rattle.go_exprs_rules.specs.Tables.{is_variable_name, is_call, varies_in, calls_in, label, is_lost, is_judged};

use go_exprs_rules::sorts::is_constant;
use go_typed::{Form, Label, Referent, Sort, TypedNode};
use go_types::Types;

/// Whether it names a variable.
fn is_variable_name(types: &Types, form: Form, sort: &Sort) -> bool
    ensures { result ≡ is_variable_name form (sort_seen types.now sort.now) }
{
    match form {
        Form::Local(_) => matches!(sort, Sort::Value(_)),
        Form::Object(Referent::Variable(_)) => true,
        _ => false,
    }
}

fn is_call(form: Form) -> bool
    ensures { result ≡ is_call form }
{
    matches!(form, Form::Call)
}

/// Whether a variable is named in one of the parts.
fn varies(types: &Types, parts: &[Option<TypedNode>]) -> bool
    ensures { result ≡ list_any varies_in (map (option_map (seen types.now)) parts.now) }
{
    for part in parts {
        if let Some(part) = part {
            if part.varies {
                return true;
            }
        }
    }
    false
}

/// Whether one of the parts has a call that isn't constant.
fn calls(types: &Types, parts: &[Option<TypedNode>]) -> bool
    ensures { result ≡ list_any calls_in (map (option_map (seen types.now)) parts.now) }
{
    for part in parts {
        if let Some(part) = part {
            if part.calls {
                return true;
            }
        }
    }
    false
}

/// The label of a node of this form over these parts, which stands for this.
pub fn label(types: &Types, form: Form, sort: Sort, parts: &[Option<TypedNode>]) -> Label
    ensures sort { result.sort ≡ sort }
    ensures label { label_mapped (type_of types.now.shapes) (label_view result) ≡ label form (sort_seen types.now sort) (map (option_map (seen types.now)) parts.now) }
{
    let named = is_variable_name(types, form, &sort);
    let called = is_call(form) && !is_constant(types, &sort);
    Label {
        varies: named || varies(types, parts),
        calls: called || calls(types, parts),
        sort,
    }
}

/// Whether no part is one with a fault, or a name without a type. A node is judged where it is so.
pub fn is_judged(types: &Types, parts: &[Option<TypedNode>]) -> bool
    ensures { result ≡ is_judged (map (option_map (seen types.now)) parts.now) }
{
    for part in parts {
        if let Some(part) = part {
            if matches!(part.sort, Sort::Unknown) {
                return false;
            }
        }
    }
    true
}
