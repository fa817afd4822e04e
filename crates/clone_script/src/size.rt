ghost use Rattle.std.specs.Prelude.{◌≡◌, ◌≢◌, ◌≤◌, ◌<◌, ◌+◌, ◌++◌, List, ℕ, IfErr, length};
ghost use Rattle.go_base.specs.Gives.{Gives};
ghost use Rattle.clone_script.specs.Reading.{script_refusal};
ghost use Rattle.clone_script.specs.Sizes.{size_behind, size_at};
ghost use Rattle.clone_script.specs.Grammar.{Fits, spelling, behind_line, IsBeginning};
ghost use Rattle.clone_script.specs.declared.command.Command.{Command};
ghost use Rattle.clone_script.specs.declared.error.ScriptError.TheVariants as errors;

use crate::command::{KEYWORDS, Keyword, MAX_LENGTH, MAX_TURNS, keyword_of};
use crate::error::ScriptError;
use crate::name::name_at;
use crate::number::number_at;

/// LEN at the end of the line whose keyword was read, and the bytes behind the line.
#[tactic(auto, unfolding(crate::specs::Sizes::size_behind))]
fn size_behind(keyword: Keyword, bytes: &[u8]) -> Result<(u32, &[u8]), ScriptError>
    ensures value { Gives (λ x. (x.0, x.1.now)) script_refusal result (size_behind keyword bytes.now) }
    ensures memory { IfErr result (λ e. e ≢ errors.Memory) }
{
    match keyword {
        Keyword::Edit => {
            let (_, rest) = name_at(bytes, b' ')?;
            let (_, rest) = number_at(rest, b' ', u32::MAX)?;
            let (_, rest) = number_at(rest, b' ', u32::MAX)?;
            number_at(rest, b'\n', MAX_LENGTH)
        }
        Keyword::Add => {
            let (_, rest) = name_at(bytes, b' ')?;
            number_at(rest, b'\n', MAX_LENGTH)
        }
        Keyword::Run => {
            let (_, rest) = number_at(bytes, b' ', MAX_TURNS)?;
            number_at(rest, b'\n', MAX_LENGTH)
        }
        _ => Err(ScriptError::Bad),
    }
}

/// LEN at the end of the line at the front, and the bytes behind the line.
#[tactic(auto, unfolding(crate::specs::Sizes::size_at))]
fn size_at(bytes: &[u8]) -> Result<(u32, &[u8]), ScriptError>
    ensures value { Gives (λ x. (x.0, x.1.now)) script_refusal result (size_at bytes.now) }
    ensures memory { IfErr result (λ e. e ≢ errors.Memory) }
{
    let (keyword, rest) = keyword_of(bytes, &KEYWORDS)?;
    size_behind(keyword, rest)
}

/// How many bytes a command has of which these are the beginning, where they have its whole line. Otherwise
/// one more than there are.
pub fn bytes_wanted(bytes: &[u8]) -> usize
    requires { IsBeginning bytes.now }
    // More than there are.
    ensures more { length bytes.now < result }
    // With fewer bytes, whatever they are, the command isn't whole.
    ensures unfinished { (later : List ℕ) → length bytes.now + length later < result → IsBeginning (bytes.now ++ later) }
    // A command whose line stands in the bytes has so many.
    ensures exact { (c : Command) (rest : List ℕ) → Fits c → bytes.now ++ rest ≡ spelling c → length rest ≤ behind_line c → result ≡ length (spelling c) }
{
    match size_at(bytes) {
        Ok((size, rest)) => bytes.len().saturating_sub(rest.len()) + size as usize + 1,
        Err(_) => bytes.len() + 1,
    }
}
