//! When two nodes or two locals stand for the same.

ghost use Rattle.std.specs.Prelude.{◌≡◌, nat_eq};
ghost use Rattle.std.specs.Option.{option_map};
ghost use Rattle.go_typed.specs.Views.{sort_view};
ghost use Rattle.clone_window.specs.Sameness as specs;
ghost use Rattle.clone_window.specs.Sameness.{value_of, are_alike};
ghost use Rattle.go_types_relations.specs.Identity.{same_name};
ghost use Rattle.clone_window.specs.ShownSameness.{final_view, compared_view};

use crate::outline::Outline;
use go_constants::Const;
use go_typed::form::Form;
use go_typed::sort::{Sort, Untyped};
use go_types::TypeId;

/// Whether two constants are equal, whatever their kinds are.
fn same_value(a: &Const, b: &Const) -> bool
    ensures { result ≡ specs.same_value a.now b.now }
{
    match (a, b) {
        (Const::Bool(a), Const::Bool(b)) => a == b,
        (Const::Int { value: a, .. }, Const::Int { value: b, .. }) => a == b,
        (Const::Text(a), Const::Text(b)) => same_bytes(a.as_slice(), b.as_slice()),
        _ => false,
    }
}

/// Whether bytes are equal.
pub fn same_bytes(a: &[u8], b: &[u8]) -> bool
    ensures { result ≡ same_name a.now b.now }
{
    a == b
}

/// The number of the kind of an untyped constant: boolean, integer, rune and string, from 0 (Go specification: Constants).
fn const_kind(value: &Const) -> u32
    ensures { result ≡ specs.const_kind value.now }
{
    match value {
        Const::Bool(_) => 0,
        Const::Int { rune: false, .. } => 1,
        Const::Int { rune: true, .. } => 2,
        Const::Text(_) => 3,
    }
}

/// The number of the kind of an untyped value, as of an untyped constant.
fn untyped_kind(untyped: Untyped) -> u32
    ensures { result ≡ specs.untyped_kind untyped }
{
    match untyped {
        Untyped::Boolean => 0,
        Untyped::Integer => 1,
        Untyped::Rune => 2,
    }
}

/// The type of a value, a constant or a type itself; that of an untyped one is its kind.
#[derive(Clone, Copy, Debug)]
pub enum Final {
    Type(TypeId),
    Kind(u32),
    Nothing,
}

/// The type of what a node or a local stands for.
fn final_of(sort: &Sort) -> Final
    ensures { final_view result ≡ specs.final (sort_view sort.now) }
{
    match sort {
        Sort::Type(ty) => Final::Type(*ty),
        Sort::Value(ty) => Final::Type(*ty),
        Sort::Constant(ty, _) => Final::Type(ty.id()),
        Sort::Open(untyped) => Final::Kind(untyped_kind(*untyped)),
        Sort::OpenConstant(value) => Final::Kind(const_kind(value.get())),
        _ => Final::Nothing,
    }
}

/// Whether types are identical. In one package equal numbers stand for identical types.
fn same_final(a: Final, b: Final) -> bool
    ensures { result ≡ specs.same_final nat_eq (final_view a) (final_view b) }
{
    match (a, b) {
        (Final::Type(a), Final::Type(b)) => a == b,
        (Final::Kind(a), Final::Kind(b)) => a == b,
        (Final::Nothing, Final::Nothing) => true,
        _ => false,
    }
}

/// Whether two sorts have identical types.
pub fn same_type(a: &Sort, b: &Sort) -> bool
    ensures { result ≡ specs.same_final nat_eq (specs.final (sort_view a.now)) (specs.final (sort_view b.now)) }
{
    same_final(final_of(a), final_of(b))
}

/// Whether it is a variable (1), a constant (2), a type (3) or none of these (0).
fn standing(sort: &Sort) -> u32
    ensures { result ≡ specs.standing (sort_view sort.now) }
{
    match sort {
        Sort::Value(_) | Sort::Open(_) => 1,
        Sort::Constant(..) | Sort::OpenConstant(_) => 2,
        Sort::Type(_) => 3,
        _ => 0,
    }
}

/// The value of a constant.
fn value_of(sort: &Sort) -> Option<&Const>
    ensures { option_map (λ c. c.now) result ≡ value_of (sort_view sort.now) }
{
    match sort {
        Sort::Constant(_, value) => Some(value.get()),
        Sort::OpenConstant(value) => Some(value.get()),
        _ => None,
    }
}

fn same_values(a: Option<&Const>, b: Option<&Const>) -> bool
    ensures { result ≡ specs.same_values (option_map (λ c. c.now) a.entry) (option_map (λ c. c.now) b.entry) }
{
    match (a, b) {
        (Some(a), Some(b)) => same_value(a, b),
        (None, None) => true,
        _ => false,
    }
}

fn same_literal(a: Option<&Const>, b: Option<&Const>) -> bool
    ensures { result ≡ specs.same_literal (option_map (λ c. c.now) a.entry) (option_map (λ c. c.now) b.entry) }
{
    match (a, b) {
        (Some(a), Some(b)) => const_kind(a) == const_kind(b) && same_value(a, b),
        (None, None) => true,
        _ => false,
    }
}

/// Whether both are variables, constants or types, of identical types, and constants of equal values.
pub fn are_alike(a: &Sort, b: &Sort) -> bool
    ensures { result ≡ are_alike nat_eq (sort_view a.now) (sort_view b.now) }
{
    standing(a) == standing(b) && same_type(a, b) && same_values(value_of(a), value_of(b))
}

/// Whether nodes show the same by themselves.
pub fn same_outline(a: Outline, b: Outline) -> bool
    ensures { result ≡ specs.same_outline a b }
{
    a.kind == b.kind && a.operator == b.operator && a.count == b.count
}

/// What two nodes of a form must also agree in.
#[derive(Clone, Copy, Debug)]
pub enum Compared {
    Form,
    Sort,
    Literal,
}

fn compared_of(form: Form) -> Compared
    ensures { compared_view result ≡ specs.compared form }
{
    match form {
        Form::Type | Form::Blank => Compared::Sort,
        Form::Literal => Compared::Literal,
        _ => Compared::Form,
    }
}

fn compare(a: Compared, b: Compared, x: &Sort, y: &Sort) -> bool
    ensures { result ≡ specs.agree_besides nat_eq (compared_view a) (compared_view b) (sort_view x.now) (sort_view y.now) }
{
    match (a, b) {
        (Compared::Form, Compared::Form) => true,
        (Compared::Sort, Compared::Sort) => are_alike(x, y),
        (Compared::Literal, Compared::Literal) => same_literal(value_of(x), value_of(y)),
        _ => false,
    }
}

/// Whether nodes of these forms agree in what they stand for, as far as that is compared.
pub fn agree_besides(a: Form, b: Form, x: &Sort, y: &Sort) -> bool
    ensures { result ≡ specs.agree_besides nat_eq (specs.compared a) (specs.compared b) (sort_view x.now) (sort_view y.now) }
{
    compare(compared_of(a), compared_of(b), x, y)
}
