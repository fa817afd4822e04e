//! Variables, and what may be assigned to.
ghost use Rattle.std.specs.Prelude.{◌≡◌, Bool, length};
ghost use Rattle.go_types.specs.Tables.{rights_of};
ghost use Rattle.go_typed.specs.Trees.{form_of, sort_of};
ghost use Rattle.go_typed.specs.Views.{seen, sort_seen, Known, KnownSort};
ghost use Rattle.go_exprs_rules.specs.Sorts.{form_of_value, is_unknown};
ghost use Rattle.go_exprs_rules.specs.Names.{is_blank};
ghost use Rattle.go_exprs_rules.specs.Tables.{is_variable_name};
ghost use Rattle.go_stmts_defs.specs.Targets.{varies_by, through, is_variable, is_target};
ghost use Rattle.go_stmts_parts.specs.Passings.{passed};

use crate::nodes::{first_there, form_of, parts_of};
use go_exprs_rules::nodes::sort_of;
use go_exprs_rules::sorts::own_type;
use go_typed::{Form, Referent, Sort, TypedNode};
use go_types::{Shape, Types};
use go_types_relations::underlying;

/// Whether the node names a variable.
fn is_variable_name(types: &Types, node: &TypedNode) -> bool
    requires { Known (length types.now.shapes) node.now }
    ensures { result ≡ is_variable_name (form_of (seen types.now node.now)) (sort_of (seen types.now node.now)) }
{
    match form_of(types, node) {
        Form::Local(_) => matches!(sort_of(types, node), Sort::Value(_)),
        Form::Object(Referent::Variable(_)) => true,
        _ => false,
    }
}

/// What makes a part of an operand a variable.
#[derive(Clone, Copy, PartialEq, Eq)]
enum Passing {
    /// It is one where the operand is.
    AsOperand,
    Always,
    Never,
}

/// An element of an array is a variable where the array is, an element of a slice always.
fn element_passing(types: &Types, operand: &Sort) -> Passing
    requires { KnownSort (length types.now.shapes) operand.now }
    ensures { (b : Bool) → passed result b ≡ varies_by (form_of_value (rights_of types.now) (sort_seen types.now operand.now)) b }
{
    match own_type(types, operand) {
        Some(of) => match underlying(types, of) {
            Some(Shape::Slice { .. }) => Passing::Always,
            Some(Shape::Array { .. }) => Passing::AsOperand,
            _ => Passing::Never,
        },
        None => Passing::Never,
    }
}

/// What makes a node of this form over an operand a variable.
fn passing_of(types: &Types, form: Form, operand: &Sort) -> Passing
    requires { KnownSort (length types.now.shapes) operand.now }
    ensures { (b : Bool) → passed result b ≡ through (rights_of types.now) form (sort_seen types.now operand.now) b }
{
    match form {
        Form::Parenthesized => Passing::AsOperand,
        Form::Selector(_) => Passing::AsOperand,
        Form::Index => element_passing(types, operand),
        _ => Passing::Never,
    }
}

/// Whether it is a variable: a local or package variable, an element of a slice, or a part of an array or struct that is a
/// variable (Go specification: Variables, Assignment statements).
#[tactic(auto, using(crate::proofs::Rows::variable_by))]
pub fn is_variable(types: &Types, node: &TypedNode) -> bool
    requires { Known (length types.now.shapes) node.now }
    ensures { result ≡ is_variable (rights_of types.now) (seen types.now node.now) }
{
    if is_variable_name(types, node) {
        return true;
    }
    let Some(operand) = first_there(types, parts_of(types, node)) else {
        return false;
    };
    match passing_of(types, form_of(types, node), sort_of(types, operand)) {
        Passing::Always => true,
        Passing::AsOperand => is_variable(types, operand),
        Passing::Never => false,
    }
}

/// Whether it may stand on the left of `=`; of what has a fault nothing is said.
pub fn is_target(types: &Types, node: &TypedNode) -> bool
    requires { Known (length types.now.shapes) node.now }
    ensures { result ≡ is_target (rights_of types.now) (seen types.now node.now) }
{
    match sort_of(types, node) {
        Sort::Blank => true,
        Sort::Unknown => true,
        _ => is_variable(types, node),
    }
}
