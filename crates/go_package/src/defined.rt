//! Whether all declared types have right sides.
ghost use Rattle.std.specs.Prelude.{◌≡◌, ◌<◌, true, length, slice_get, IfSome};
ghost use Rattle.std.specs.List.{list_all};
ghost use Rattle.go_types.specs.Changes.{declaration};
ghost use Rattle.go_types.specs.Tables.{is_declaration};
ghost use Rattle.go_typed.specs.Packages.{is_there};
ghost use Rattle.go_package.specs.Checks.{declared_at};

use go_types::{Shape, TypeId, Types};

/// Whether the type is a declared one.
fn is_declared(types: &Types, number: TypeId) -> bool
    requires { number < length types.now.shapes }
    ensures { result ≡ declared_at (slice_get types.now.shapes number) }
{
    matches!(types.shape(number), Shape::Named { .. })
}

/// How many declared types there are, if each has its right side.
pub(crate) fn defined_types(types: &Types) -> Option<u64>
    ensures { IfSome result (λ n. (n ≡ length types.now.rights) × (list_all is_there types.now.rights ≡ true)) }
{
    let mut count: u64 = 0;
    for number in 0..types.count() {
        if is_declared(types, number) {
            if types.is_open(number) {
                return None;
            }
            count += 1;
        }
    }
    Some(count)
}
