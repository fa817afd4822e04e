//! Operands among values.

ghost use Rattle.std.specs.Prelude.{◌≡◌, drop};
ghost use Rattle.go_values.specs.Views.{views};

use go_values::Value;

/// The values behind the first ones.
pub fn above(values: &[Value], base: usize) -> &[Value]
    ensures { views result.now ≡ drop base (views values.now) }
{
    if base < values.len() {
        &values[base..]
    } else {
        &[]
    }
}
