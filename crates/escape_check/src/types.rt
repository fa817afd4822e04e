//! Types of parameters and results that can't be written, or that mean another type where they are.

ghost use Rattle.std.specs.Prelude.{◌≡◌, map};
ghost use Rattle.std.specs.List.{list_any};
ghost use Rattle.escape_check.specs.Places.{sources_in};
ghost use Rattle.escape_check.specs.Types as specs;
ghost use Rattle.escape_check.specs.Written.{type_name_view};

use crate::place::name_text;
use crate::type_names::{TypeName, type_object};
use go_scopes_lookup::unit::same;
use go_tree::object::Object;
use go_typed::checked::Checked;

/// Whether one of the names is that of a type declared in a function.
pub(crate) fn any_local(checked: &Checked, names: &[TypeName<'_>]) -> bool
    ensures { result ≡ list_any (specs.is_local_type (sources_in checked.now)) (map type_name_view names.now) }
{
    for name in names {
        if is_local_type(checked, name) {
            return true;
        }
    }
    false
}

fn is_local_type(checked: &Checked, name: &TypeName<'_>) -> bool
    ensures { result ≡ specs.is_local_type (sources_in checked.now) (type_name_view name.now) }
{
    match name.number {
        Some(number) => matches!(type_object(checked, number), Some(Object::Local { .. })),
        None => false,
    }
}

/// Whether one of the names is that of a predeclared type and is declared in the package block. There are twelve such types.
pub(crate) fn any_taken(checked: &Checked, names: &[TypeName<'_>]) -> bool
    ensures { result ≡ list_any (specs.is_taken (sources_in checked.now)) (map type_name_view names.now) }
{
    for name in names {
        if is_taken(checked, name) {
            return true;
        }
    }
    false
}

fn is_taken(checked: &Checked, name: &TypeName<'_>) -> bool
    ensures { result ≡ specs.is_taken (sources_in checked.now) (type_name_view name.now) }
{
    match name.number {
        Some(_) => false,
        None => is_declared_in_package(checked, name.name),
    }
}

/// Whether the package block declares a name.
fn is_declared_in_package(checked: &Checked, name: &[u8]) -> bool
    ensures { result ≡ specs.is_declared_in_package (sources_in checked.now) name.now }
{
    for declared in checked.uses().package_objects() {
        if same(name_text(checked, *declared), name) {
            return true;
        }
    }
    false
}
