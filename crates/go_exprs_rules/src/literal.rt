//! Literals of basic types.
ghost use Rattle.std.specs.Prelude.{◌≡◌, true, Ok, IfOk};
ghost use Rattle.std.specs.Str.{IsUtf8, chars};
ghost use Rattle.go_base.specs.Gives.{Gives};
ghost use Rattle.go_tokens.specs.Literals.{is_one, rune_elements};
ghost use Rattle.go_typed.specs.Trees.{OpenConstant};
ghost use Rattle.go_typed.specs.Views.{sort_seen};
ghost use Rattle.go_exprs_rules.specs.Faults.{least, judged, refusal_of};
ghost use Rattle.go_exprs_rules.specs.Names.{integer_constant, rune_constant, text_constant, integer_failing};

use crate::fault::{Place, TypeError};
use go_base::{FaultCode, Memory};
use go_constants::{Const, SharedBytes};
use go_tokens::value::{integer_value, rune_value, string_value};
use go_typed::{SharedConst, Sort};
use go_types::Types;
use std::alloc::Global;

/// What an integer literal stands for (Go specification, "Integer literals"), or `Representable` where it is 2^127 or more.
///
/// # Errors
///
/// The fault, or want of memory.
pub fn integer(alloc: Global, types: &Types, place: Place, bytes: &[u8]) -> Result<Sort, TypeError>
    ensures { Gives (sort_seen types.now) refusal_of result (judged (least (integer_failing place.first place.last bytes.now)) (OpenConstant (integer_constant bytes.now))) }
{
    match integer_value(bytes) {
        Some(value) => {
            let constant = Const::Int { value, rune: false };
            Ok(Sort::OpenConstant(SharedConst::of(alloc, constant)?))
        }
        None => Err(TypeError::Fault(place.fault(FaultCode::Representable))),
    }
}

/// What a rune literal stands for (Go specification, "Rune literals").
///
/// # Errors
///
/// Want of memory.
pub fn rune(alloc: Global, types: &Types, bytes: &[u8]) -> Result<Sort, Memory>
    requires utf8 { IsUtf8 bytes.now }
    requires one { is_one (rune_elements (chars bytes.now)) ≡ true }
    ensures { IfOk result (λ s. sort_seen types.now s ≡ OpenConstant (rune_constant (chars bytes.now))) }
{
    let constant = Const::Int {
        value: i128::from(rune_value(bytes)),
        rune: true,
    };
    Ok(Sort::OpenConstant(SharedConst::of(alloc, constant)?))
}

/// What a string literal stands for (Go specification, "String literals").
///
/// # Errors
///
/// Want of memory.
pub fn text(alloc: Global, types: &Types, bytes: &[u8]) -> Result<Sort, Memory>
    requires { IsUtf8 bytes.now }
    ensures { IfOk result (λ s. sort_seen types.now s ≡ OpenConstant (text_constant (chars bytes.now))) }
{
    let value = string_value(alloc, bytes)?;
    let constant = Const::Text(SharedBytes::of(value)?);
    Ok(Sort::OpenConstant(SharedConst::of(alloc, constant)?))
}
