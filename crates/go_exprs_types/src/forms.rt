//! The forms of names.
ghost use Rattle.std.specs.Prelude.{◌≡◌, ℕ, Some, length};
ghost use Rattle.std.specs.Option.{option_map};
ghost use Rattle.go_tree.specs.declared.object.Object.TheVariants as object;
ghost use Rattle.go_types.specs.Tables.{Table};
ghost use Rattle.go_typed.specs.Views.{sort_seen};
ghost use Rattle.go_exprs_rules.specs.Hints.{hint_seen};
ghost use Rattle.go_exprs_rules.specs.Names.{predeclared_sort, object_form, declared_form, form_or_type, object_sort, name_form};
ghost use Rattle.go_exprs_rules.specs.Tables.{is_type};
ghost use Rattle.go_exprs_rules.specs.Sorts.{known};
ghost use Rattle.go_exprs_types.specs.Naming.{names, need_seen, object_in, KnownScope};

use crate::names::need_of;
use crate::scope::{Scope, local_sort, package_sort};
use crate::standing::Needed;
use go_exprs_rules::Hint;
use go_tree::object::{Object, Predeclared};
use go_typed::{Form, Referent, Sort};
use go_types::Types;

/// The number of a local that a token means, as forms hold it.
fn local_number(scope: &Scope<'_>, token: u32, function: usize, number: usize) -> u32
    requires { object_in scope.now token ≡ Some (object.Local function number) }
    ensures { result ≡ number }
{
    scope.object(token);
    scope
        .uses
        .object(scope.tokens.file() as usize, scope.place(token));
    match scope.uses.local(function, number) {
        Some(local) => number.min(local.name as usize) as u32,
        None => unreachable!(),
    }
}

/// Whether a predeclared name is that of a type (Go specification, "Predeclared identifiers").
fn names_type(name: Predeclared) -> bool
    ensures { (iota : ℕ) → result ≡ is_type (predeclared_sort iota name) }
{
    match name {
        Predeclared::True
        | Predeclared::False
        | Predeclared::Iota
        | Predeclared::Nil
        | Predeclared::Append
        | Predeclared::Cap
        | Predeclared::Copy
        | Predeclared::Len
        | Predeclared::Make
        | Predeclared::Max
        | Predeclared::Min
        | Predeclared::Panic => false,
        _ => true,
    }
}

/// The form of a token's name that is used.
fn object_form(scope: &Scope<'_>, token: u32) -> Form
    ensures { (t : Table) → result ≡ object_form (names t scope.now) (object_in scope.now token) }
{
    match scope.object(token) {
        None => Form::Blank,
        Some(Object::Import) => Form::Object(Referent::Println),
        Some(Object::Predeclared(name)) => Form::Object(Referent::Predeclared(name)),
        Some(Object::Package(number)) => Form::Object(scope.referent(number)),
        Some(Object::Local { function, number }) => {
            Form::Local(local_number(scope, token, function, number))
        }
    }
}

/// The form of a token's name that is declared.
fn declared_form(scope: &Scope<'_>, token: u32) -> Form
    ensures { (t : Table) → result ≡ declared_form (names t scope.now) (object_in scope.now token) }
{
    match scope.object(token) {
        None => Form::Blank,
        Some(Object::Import) => Form::Object(Referent::Println),
        Some(Object::Predeclared(name)) => Form::Object(Referent::Predeclared(name)),
        Some(Object::Package(number)) => Form::Object(scope.referent(number)),
        Some(Object::Local { function, number }) => {
            Form::Declared(local_number(scope, token, function, number))
        }
    }
}

/// Whether an object is a type where it is needed so.
fn is_type(types: &Types, scope: &Scope<'_>, need: Needed, object: Option<Object>) -> bool
    requires { KnownScope (length types.now.shapes) scope.now }
    ensures { result ≡ is_type (object_sort (names types.now scope.now) (need_seen need) object) }
{
    match object {
        None | Some(Object::Import) => false,
        Some(Object::Predeclared(name)) => names_type(name),
        Some(Object::Package(number)) => {
            is_type_sort(types, package_sort(types, scope, need, number))
        }
        Some(Object::Local { function, number }) => {
            is_type_sort(types, local_sort(types, scope, function, number))
        }
    }
}

fn is_type_sort(_types: &Types, sort: Option<&Sort>) -> bool
    ensures { result ≡ is_type (known (option_map (λ s. sort_seen _types.now s.now) sort.entry)) }
{
    matches!(sort, Some(Sort::Type(_)))
}

/// The form of a name where it is told this (Go specification, "Operands").
#[tactic(auto, using(crate::proofs::TypeForms::form_of_type, crate::proofs::TypeForms::form_of_others))]
pub fn name_form(types: &Types, scope: &Scope<'_>, hint: Hint, token: u32) -> Form
    requires { KnownScope (length types.now.shapes) scope.now }
    ensures { result ≡ name_form (names types.now scope.now) (hint_seen types.now hint) token }
{
    match hint {
        Hint::Declares | Hint::Free => declared_form(scope, token),
        _ => used_form(types, scope, need_of(types, scope, hint), token),
    }
}

/// The form of a name that is used, where it is needed so: that of a type, or of its object.
#[tactic(auto, using(crate::proofs::TypeForms::form_of_type, crate::proofs::TypeForms::form_of_others))]
fn used_form(types: &Types, scope: &Scope<'_>, need: Needed, token: u32) -> Form
    requires { KnownScope (length types.now.shapes) scope.now }
    ensures { let s = names types.now scope.now in let o = object_in scope.now token in
        result ≡ form_or_type (object_sort s (need_seen need) o) (object_form s o) }
{
    if is_type(types, scope, need, scope.object(token)) {
        Form::Type
    } else {
        object_form(scope, token)
    }
}
