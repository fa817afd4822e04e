ghost use Rattle.std.specs.Prelude.{◌≡◌, ◌≤◌, length, IfOk};
ghost use Rattle.go_base.specs.Gives.{Gives};
ghost use Rattle.clone_script.specs.Reading.{script_refusal};
ghost use Rattle.clone_script.specs.Members.{least_room, numbers_at, choice_at};

use crate::choice::{Choice, MemberNumbers};
use crate::command::behind;
use crate::error::ScriptError;
use crate::number::{next_number, with_digit};
use std::alloc::Global;

/// How many bytes of the line follow at least: a newline behind the digits of a number, and a digit and a newline elsewhere.
fn least_room(number: Option<u32>) -> usize
    ensures { result ≡ least_room number }
{
    match number {
        Some(_) => 1,
        None => 2,
    }
}

/// The numbers at the front, which are separated by one blank and ended by a newline, and the bytes behind the newline. All that is
/// read has at most `room` bytes.
#[tactic(auto, unfolding(crate::specs::Members::numbers_from))]
fn numbers_at(alloc: Global, bytes: &[u8], room: usize) -> Result<(Vec<u32>, &[u8]), ScriptError>
    ensures value { Gives (λ x. (x.0.items, x.1.now)) script_refusal result (numbers_at room bytes.now) }
    ensures some { IfOk result (λ x. 1 ≤ length x.0.items) }
{
    let mut numbers = Vec::new(alloc);
    let mut number = None;
    let mut left = room;
    let mut rest = bytes;
    while left >= least_room(number) {
        let [byte, after @ ..] = rest else {
            return Err(ScriptError::More);
        };
        left -= 1;
        rest = after;
        match number {
            None => {
                let Some(first) = with_digit(0, *byte, u32::MAX) else {
                    return Err(ScriptError::Bad);
                };
                number = Some(first);
            }
            Some(value) if *byte == b'\n' => {
                numbers.push(value)?;
                return Ok((numbers, after));
            }
            Some(value) if *byte == b' ' => {
                numbers.push(value)?;
                number = None;
            }
            Some(value) => {
                let Some(next) = next_number(value, *byte, u32::MAX) else {
                    return Err(ScriptError::Bad);
                };
                number = Some(next);
            }
        }
    }
    Err(ScriptError::Bad)
}

/// The choice at the front, whose line may have `room` bytes more, and the bytes behind the line.
#[tactic(auto, unfolding(crate::specs::Members::choice_at))]
pub fn choice_at(alloc: Global, bytes: &[u8], room: usize) -> Result<(Choice, &[u8]), ScriptError>
    ensures { Gives (λ x. (x.0, x.1.now)) script_refusal result (choice_at room bytes.now) }
{
    match behind(bytes, b"all\n") {
        Ok(rest) => Ok((Choice::All, rest)),
        Err(ScriptError::Bad) => {
            let (numbers, rest) = numbers_at(alloc, bytes, room)?;
            Ok((Choice::Members(MemberNumbers::of(numbers)), rest))
        }
        Err(error) => Err(error),
    }
}
