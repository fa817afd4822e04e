//! Operations on integers and booleans.

ghost use Rattle.std.specs.Prelude.{◌≡◌, [], ◌∷◌, pos, ◌-ℤ◌};
ghost use Rattle.go_ints.specs.Kinds.{IsWord, wrapped_into};
ghost use Rattle.go_meaning.specs.Values.{Truth, Whole};
ghost use Rattle.go_meaning.specs.Computations.{World};
ghost use Rattle.go_meaning.specs.Operations.{Compute, Not, Negate, Complement, Wrap, Gives, perform};
ghost use Rattle.go_values.specs.Views.{view};
ghost use Rattle.go_values.specs.Deeds.{deed};

use crate::arithmetic::arith;
use crate::panic::Panic;
use crate::value::Value;
use go_ints::{Kind, Op, Trap, wrap};

/// `a op b` for integers of the kind (Go specification, "Arithmetic operators", "Integer overflow").
///
/// # Errors
///
/// A division by zero, or a shift by a negative count.
pub fn compute(kind: Kind, op: Op, a: &Value, b: &Value) -> Result<Value, Panic>
    ensures { (w : World) → perform (Compute kind op) (view a.now ∷ view b.now ∷ []) w ≡ deed w result }
{
    match arith(kind, op, a.whole(), b.whole()) {
        Ok(z) => Ok(Value::Whole(z)),
        Err(Trap::DivideZero) => Err(Panic::Divide),
        Err(Trap::NegativeShift) => Err(Panic::Shift),
    }
}

/// `!x` (Go specification, "Logical operators").
pub fn not(x: &Value) -> Value
    ensures { (w : World) → perform Not (view x.now ∷ []) w ≡ Gives (view result ∷ []) w }
{
    Value::Truth(!x.is_true())
}

/// `-x` at the kind (Go specification, "Arithmetic operators").
pub fn negate(kind: Kind, x: &Value) -> Value
    ensures { (w : World) → perform (Negate kind) (view x.now ∷ []) w ≡ Gives (view result ∷ []) w }
{
    Value::Whole(wrap_into(kind, opposite(kind, x.whole())))
}

/// `^x` at the kind (Go specification, "Arithmetic operators").
pub fn complement(kind: Kind, x: &Value) -> Value
    ensures { (w : World) → perform (Complement kind) (view x.now ∷ []) w ≡ Gives (view result ∷ []) w }
{
    Value::Whole(wrap_into(kind, !x.whole()))
}

/// The conversion to an integer type of the kind (Go specification, "Conversions between numeric types").
pub fn convert(kind: Kind, x: &Value) -> Value
    ensures { (w : World) → perform (Wrap kind) (view x.now ∷ []) w ≡ Gives (view result ∷ []) w }
{
    Value::Whole(wrap_into(kind, x.whole()))
}

macro_rules! at_kind {
    ($kind:expr, $x:expr; $($name:ident $bits:literal $signed:literal),*) => {
        match $kind {
            $(Kind::$name => wrap::<$bits, $signed>($x),)*
        }
    };
}

/// The opposite of the value of the kind that `x` wraps to.
fn opposite(kind: Kind, x: i128) -> i128
    ensures { result ≡ pos 0 -ℤ wrapped_into kind x }
{
    0 - within_word(kind, x)
}

/// The value of the kind that `x` wraps to, with its bounds.
pub(crate) fn within_word(kind: Kind, x: i128) -> i128
    ensures value { result ≡ wrapped_into kind x }
    ensures word { IsWord result }
{
    wrap_into(kind, x)
}

/// The value of the kind that `x` wraps to.
pub(crate) fn wrap_into(kind: Kind, x: i128) -> i128
    ensures { result ≡ wrapped_into kind x }
{
    at_kind!(kind, x;
        Int8 8 true, Int16 16 true, Int32 32 true, Int64 64 true,
        Uint8 8 false, Uint16 16 false, Uint32 32 false, Uint64 64 false,
        Int 64 true, Uint 64 false)
}
