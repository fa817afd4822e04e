//! Printing (documentation of the package fmt, `Println`).

ghost use Rattle.std.specs.Prelude.{◌≡◌, ◌++◌, [], OnErr, OnOk, IfOk};
ghost use Rattle.std.specs.Fmt.{signed_decimal};
ghost use Rattle.go_meaning.specs.Operations.{Gives, Print, perform};
ghost use Rattle.go_meaning.specs.Texts.{line_of, shown};
ghost use Rattle.go_values.specs.Views.{view, views};
ghost use Rattle.go_values.specs.Lines.{rest_of_line};
ghost use Rattle.go_values.specs.Worlds.{world_view};

use crate::value::Value;
use crate::world::World;
use go_base::Memory;
use std::alloc::Global;

fn push_number(alloc: Global, out: &mut Vec<u8>, number: i128) -> Result<(), Memory>
    ensures { OnOk result (out.new.items ≡ out.old.items ++ signed_decimal number) }
{
    let text = number.to_string(alloc)?;
    out.extend_from_slice(text.as_bytes())?;
    Ok(())
}

/// Puts what is printed of a value behind the others.
fn push_shown(alloc: Global, out: &mut Vec<u8>, value: &Value) -> Result<(), Memory>
    ensures { OnOk result (out.new.items ≡ out.old.items ++ shown (view value.now)) }
{
    match value {
        Value::Truth(true) => out.extend_from_slice(b"true")?,
        Value::Truth(false) => out.extend_from_slice(b"false")?,
        Value::Whole(number) => push_number(alloc, out, *number)?,
        Value::Text(bytes) => out.extend_from_slice(bytes.as_slice())?,
        _ => (),
    }
    Ok(())
}

/// What is printed of values behind others, each behind a blank, and a newline.
fn push_rest(alloc: Global, out: &mut Vec<u8>, values: &[Value]) -> Result<(), Memory>
    ensures { OnOk result (out.new.items ≡ out.old.items ++ rest_of_line (views values.now)) }
{
    for value in values {
        out.push(b' ')?;
        push_shown(alloc, out, value)?;
    }
    out.push(b'\n')?;
    Ok(())
}

/// The line that is printed of values.
fn line(alloc: Global, values: &[Value]) -> Result<Vec<u8>, Memory>
    ensures { IfOk result (λ l. l.items ≡ line_of (views values.now)) }
{
    let mut line = Vec::new(alloc);
    match values {
        [] => line.push(b'\n')?,
        [first, rest @ ..] => {
            push_shown(alloc, &mut line, first)?;
            push_rest(alloc, &mut line, rest)?;
        }
    }
    Ok(line)
}

impl World {
    /// Prints values with blanks between them and a newline: integers in decimal, booleans as `true` or `false`, strings as they
    /// are. Where memory is wanting the world stays as it was.
    ///
    /// # Errors
    ///
    /// Want of memory.
    pub fn print(&mut self, alloc: Global, values: &[Value]) -> Result<(), Memory>
        ensures value { OnOk result (perform Print (views values.now) (world_view self.old) ≡ Gives [] (world_view self.new)) }
        ensures err { OnErr result (world_view self.new ≡ world_view self.old) }
    {
        let line = line(alloc, values)?;
        self.output.extend_from_slice(line.as_slice())?;
        Ok(())
    }
}
