ghost use Rattle.std.specs.Prelude.{◌≡◌, ◌≢◌, ◌≤◌, IfOk, IfErr};
ghost use Rattle.go_base.specs.Gives.{Gives};
ghost use Rattle.clone_script.specs.Reading.{script_refusal, with_digit, next_number, number_from, number_at};
ghost use Rattle.clone_script.specs.declared.error.ScriptError.TheVariants as errors;

use crate::error::ScriptError;

/// The number with one more digit, if the byte is one and the number is within the limit.
#[tactic(auto, unfolding(crate::specs::Reading::with_digit))]
pub fn with_digit(number: u32, byte: u8, limit: u32) -> Option<u32>
    ensures { result ≡ with_digit limit number byte }
{
    if !byte.is_ascii_digit() {
        return None;
    }
    let next = u64::from(number) * 10 + u64::from(byte - b'0');
    if next <= u64::from(limit) {
        Some(next as u32)
    } else {
        None
    }
}

#[tactic(auto, unfolding(crate::specs::Reading::next_number))]
pub fn next_number(number: u32, byte: u8, limit: u32) -> Option<u32>
    ensures { result ≡ next_number limit number byte }
{
    if number > 0 {
        with_digit(number, byte, limit)
    } else {
        None
    }
}

/// The rest of a number, whose digits so far write `number`, and the bytes behind the one that ends it.
#[tactic(auto, unfolding(crate::specs::Reading::number_from))]
fn number_from(number: u32, bytes: &[u8], end: u8, limit: u32) -> Result<(u32, &[u8]), ScriptError>
    ensures memory { IfErr result (λ e. e ≢ errors.Memory) }
    ensures value { Gives (λ x. (x.0, x.1.now)) script_refusal result (number_from limit end number bytes.now) }
{
    let mut value = number;
    let mut rest = bytes;
    while let [byte, after @ ..] = rest {
        if *byte == end {
            return Ok((value, after));
        }
        let Some(next) = next_number(value, *byte, limit) else {
            return Err(ScriptError::Bad);
        };
        value = next;
        rest = after;
    }
    Err(ScriptError::More)
}

/// The number at the front, which is at most `limit` and is ended by the byte `end`, and the bytes behind
/// that one.
#[tactic(auto, unfolding(crate::specs::Reading::number_at))]
pub fn number_at(bytes: &[u8], end: u8, limit: u32) -> Result<(u32, &[u8]), ScriptError>
    ensures memory { IfErr result (λ e. e ≢ errors.Memory) }
    ensures value { Gives (λ x. (x.0, x.1.now)) script_refusal result (number_at limit end bytes.now) }
{
    let [byte, after @ ..] = bytes else {
        return Err(ScriptError::More);
    };
    let Some(number) = with_digit(0, *byte, limit) else {
        return Err(ScriptError::Bad);
    };
    number_from(number, after, end, limit)
}
