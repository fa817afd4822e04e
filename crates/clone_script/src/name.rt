ghost use Rattle.std.specs.Prelude.{◌≡◌, ◌≢◌, ◌≤◌, ◌+◌, length, IfOk, IfErr, Some};
ghost use Rattle.go_base.specs.Gives.{Gives};
ghost use Rattle.clone_script.specs.Reading.{script_refusal, whole, first_byte, next_byte, name_from, name_at};
ghost use Rattle.clone_script.specs.declared.error.ScriptError.TheVariants as errors;

use crate::error::ScriptError;

/// What is still to come of a character in UTF-8: how many bytes, and between which the next one lies.
#[derive(Clone, Copy)]
pub struct Character {
    pub left: u8,
    pub low: u8,
    pub high: u8,
}

fn some_character(left: u8, low: u8, high: u8) -> Option<Character>
    ensures { result ≡ Some (record { left = left; low = low; high = high }) }
{
    Some(Character { left, low, high })
}

/// A character's first byte (The Unicode Standard, table 3-7). In a name it is above 32 and not 127.
#[tactic(auto, unfolding(crate::specs::Reading::first_byte))]
fn first_byte(byte: u8) -> Option<Character>
    ensures { result ≡ first_byte byte }
{
    match byte {
        33..=126 => some_character(0, 0x80, 0xBF),
        0xC2..=0xDF => some_character(1, 0x80, 0xBF),
        0xE0 => some_character(2, 0xA0, 0xBF),
        0xED => some_character(2, 0x80, 0x9F),
        0xE1..=0xEF => some_character(2, 0x80, 0xBF),
        0xF0 => some_character(3, 0x90, 0xBF),
        0xF1..=0xF3 => some_character(3, 0x80, 0xBF),
        0xF4 => some_character(3, 0x80, 0x8F),
        _ => None,
    }
}

/// One more byte of a name.
#[tactic(auto, unfolding(crate::specs::Reading::next_byte))]
fn next_byte(character: Character, byte: u8) -> Option<Character>
    ensures { result ≡ next_byte character byte }
{
    if character.left == 0 {
        return first_byte(byte);
    }
    if byte < character.low || character.high < byte {
        return None;
    }
    Some(Character {
        left: character.left - 1,
        low: 0x80,
        high: 0xBF,
    })
}

/// How many bytes the name at the front has, and the bytes behind the one that ends it.
#[tactic(auto, unfolding(crate::specs::Reading::name_from))]
fn name_end(bytes: &[u8], end: u8) -> Result<(usize, &[u8]), ScriptError>
    ensures value { Gives (λ x. (x.0, x.1.now)) script_refusal result (name_from end 0 whole bytes.now) }
    ensures some { IfOk result (λ x. 1 ≤ x.0) }
    ensures few { IfOk result (λ x. x.0 ≤ 255) }
    ensures inside { IfOk result (λ x. x.0 ≤ length bytes.now) }
    ensures memory { IfErr result (λ e. e ≢ errors.Memory) }
{
    let mut character = Character {
        left: 0,
        low: 0x80,
        high: 0xBF,
    };
    let mut count: usize = 0;
    let mut rest = bytes;
    while let [byte, after @ ..] = rest {
        if *byte == end && character.left == 0 && count > 0 {
            return Ok((count, after));
        }
        let Some(next) = next_byte(character, *byte) else {
            return Err(ScriptError::Bad);
        };
        count += 1;
        if count + usize::from(next.left) > 255 {
            return Err(ScriptError::Bad);
        }
        character = next;
        rest = after;
    }
    Err(ScriptError::More)
}

/// The name at the front, which is ended by the byte `end`, and the bytes behind that one.
#[tactic(auto, unfolding(crate::specs::Reading::name_at))]
pub fn name_at(bytes: &[u8], end: u8) -> Result<(&[u8], &[u8]), ScriptError>
    ensures value { Gives (λ x. (x.0.now, x.1.now)) script_refusal result (name_at end bytes.now) }
    ensures some { IfOk result (λ x. 1 ≤ length x.0.now) }
    ensures few { IfOk result (λ x. length x.0.now ≤ 255) }
    ensures memory { IfErr result (λ e. e ≢ errors.Memory) }
{
    let (count, rest) = name_end(bytes, end)?;
    Ok((&bytes[..count], rest))
}
