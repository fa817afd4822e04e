//! Words of windows.

ghost use Rattle.std.specs.Prelude.{◌≡◌, ◌++◌, ◌∷◌, [], OnOk};
ghost use Rattle.alpha_hash_defs.specs.Words.{length_if, named, number, one_if};
ghost use Rattle.alpha_hash.specs.Shown.{shown};

use std::alloc::AllocError;

/// A word of a window.
#[derive(Clone, Copy, Debug)]
pub enum Word {
    Number(u64),
    /// The name of a local.
    Local(u32),
}

/// Puts a number behind the other words.
pub fn push_number(value: u64, out: &mut Vec<Word>) -> Result<(), AllocError>
    ensures { OnOk result (shown out.new.items ≡ shown out.old.items ++ number value ∷ []) }
{
    out.push(Word::Number(value))?;
    Ok(())
}

/// Puts a number behind the other words, where a condition holds.
pub fn push_if(condition: bool, number: u64, out: &mut Vec<Word>) -> Result<(), AllocError>
    ensures { OnOk result (shown out.new.items ≡ shown out.old.items ++ one_if condition number) }
{
    if condition {
        push_number(number, out)?;
    }
    Ok(())
}

/// Puts the length of a list behind the other words, where a condition holds.
pub fn push_length_if(condition: bool, length: u64, out: &mut Vec<Word>) -> Result<(), AllocError>
    ensures { OnOk result (shown out.new.items ≡ shown out.old.items ++ length_if condition length) }
{
    if condition {
        push_number(length, out)?;
    }
    Ok(())
}
