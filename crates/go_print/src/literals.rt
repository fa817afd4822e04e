//! The literals of constants.
ghost use Rattle.std.specs.Prelude.{◌≡◌, ◌++◌, ◌<◌, codes, IfOk, OnOk};
ghost use Rattle.std.specs.Fmt.{signed_decimal};
ghost use Rattle.go_print.specs.Literals.{digit, escaped, byte_text, bytes_text, boolean_text, literal_text};

use go_base::{Bytes, Memory};
use go_constants::Const;
use std::alloc::{AllocError, Global};

/// A lower-case hexadecimal digit.
fn digit(value: u8) -> u8
    requires { value < 16 }
    ensures { result ≡ digit value }
{
    if value < 10 {
        b'0' + value
    } else {
        b'a' + (value - 10)
    }
}

/// Puts a byte of a string literal behind the others (Go specification, "String literals").
fn push_byte(out: &mut Vec<u8>, byte: u8) -> Result<(), AllocError>
    ensures { OnOk result (out.new.items ≡ out.old.items ++ byte_text byte) }
{
    match byte {
        b'"' => out.extend_from_slice(b"\\\""),
        b'\\' => out.extend_from_slice(b"\\\\"),
        b' '..=b'~' => Ok(out.push(byte)?),
        _ => {
            out.extend_from_slice(b"\\x")?;
            out.push(digit(byte / 16))?;
            Ok(out.push(digit(byte % 16))?)
        }
    }
}

fn push_bytes(out: &mut Vec<u8>, bytes: &[u8]) -> Result<(), AllocError>
    ensures { OnOk result (out.new.items ≡ out.old.items ++ bytes_text bytes.now) }
{
    for byte in bytes {
        push_byte(out, *byte)?;
    }
    Ok(())
}

fn push_text(out: &mut Vec<u8>, bytes: &[u8]) -> Result<(), AllocError>
    ensures { OnOk result (out.new.items ≡ out.old.items ++ codes "\"" ++ bytes_text bytes.now ++ codes "\"") }
{
    out.push(b'"')?;
    push_bytes(out, bytes)?;
    Ok(out.push(b'"')?)
}

fn push_whole(alloc: Global, out: &mut Vec<u8>, value: i128) -> Result<(), AllocError>
    ensures { OnOk result (out.new.items ≡ out.old.items ++ signed_decimal value) }
{
    let text = value.to_string(alloc)?;
    out.extend_from_slice(text.as_bytes())
}

/// The text of a boolean constant.
fn boolean_text(value: bool) -> &'static [u8]
    ensures { result.now ≡ boolean_text value }
{
    if value { b"true" } else { b"false" }
}

/// The literal of a constant's value: a number in decimal, a string between quotation marks, `true` or `false` (Go
/// specification, "Constants").
///
/// # Errors
///
/// Want of memory.
pub fn literal_text(alloc: Global, value: &Const) -> Result<Bytes, Memory>
    ensures { IfOk result (λ text. text ≡ literal_text value.now) }
{
    let mut out = Vec::new(alloc);
    match value {
        Const::Bool(value) => out.extend_from_slice(boolean_text(*value))?,
        Const::Int { value, .. } => push_whole(alloc, &mut out, *value)?,
        Const::Text(bytes) => push_text(&mut out, bytes.as_slice())?,
    }
    Ok(Bytes::of(out))
}
