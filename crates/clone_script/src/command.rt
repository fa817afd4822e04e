ghost use Rattle.std.specs.Prelude.{◌≡◌, ◌≢◌, ◌≤◌, ◌+◌, ◌-◌, List, ℕ, length, take, IfOk, IfErr, Ok, Err};
ghost use Rattle.std.specs.Result.{IsErrOf};
ghost use Rattle.go_base.specs.Gives.{Gives};
ghost use Rattle.clone_script.specs.Reading.{bad, more, script_refusal, literal_at, name_at, bytes_at};
ghost use Rattle.clone_script.specs.Commands.{most_line, spelling_of, keywords, keyword_of, behind_keyword, command_at, command_of, Answers};
ghost use Rattle.clone_script.specs.Grammar.{spelling, Spells, BeginsWith, IsBeginning, IsBad};
ghost use Rattle.clone_script.specs.declared.command.Command.{Command};
ghost use Rattle.clone_script.specs.declared.command.Keyword.TheVariants as keyword;
ghost use Rattle.clone_script.specs.declared.error.ScriptError.TheVariants as errors;

use crate::choice::Choice;
use crate::error::ScriptError;
use crate::member_list::choice_at;
use crate::name::name_at;
use crate::number::number_at;
use go_base::{Bytes, Name, NameError};
use std::alloc::Global;

/// The greatest LEN of a command.
pub const MAX_LENGTH: u32 = 1_048_576;

/// The greatest TURNS of a command.
pub const MAX_TURNS: u32 = 1_000_000_000;

/// The most bytes of a command's line, with its newline.
pub const MAX_LINE: usize = 65_536;

/// A command of a script.
#[derive(Debug, Drop)]
pub enum Command {
    /// `edit`: these bytes in the place of those from `start` to before `end`.
    Edit {
        name: Name,
        start: u32,
        end: u32,
        bytes: Bytes,
    },
    /// `add`: a file more.
    Add {
        name: Name,
        bytes: Bytes,
    },
    /// `drop`: a file less.
    Remove {
        name: Name,
    },
    /// `classes`: the clone classes.
    Classes,
    /// `maximal`: the maximal clone classes, and how much of each file is covered.
    Maximal,
    /// `stat`: the numbers of the package.
    Stat,
    /// `extract`: members of the class with this number in the listing become calls of a new function of this name.
    Extract {
        class: u32,
        name: Name,
        choice: Choice,
    },
    /// `run`: the package is run for so many turns at most, with these bytes as its input.
    Run {
        turns: u32,
        input: Bytes,
    },
    /// `show`: the bytes of a file.
    Show {
        name: Name,
    },
    /// `save`: all files are written into the folder.
    Save,
    /// `quit`: the end of the script.
    Quit,
}

/// The first word of a command.
#[derive(Clone, Copy)]
pub enum Keyword {
    Edit,
    Add,
    Drop,
    Classes,
    Maximal,
    Stat,
    Extract,
    Run,
    Show,
    Save,
    Quit,
}

/// The first words of all commands.
pub const KEYWORDS: [Keyword; 11] = [
    Keyword::Edit,
    Keyword::Add,
    Keyword::Drop,
    Keyword::Classes,
    Keyword::Maximal,
    Keyword::Stat,
    Keyword::Extract,
    Keyword::Run,
    Keyword::Show,
    Keyword::Save,
    Keyword::Quit,
];

impl Keyword {
    /// The word with the blank or the newline behind it.
    fn spelling(self) -> &'static [u8]
        ensures { result.now ≡ spelling_of self }
    {
        match self {
            Keyword::Edit => b"edit ",
            Keyword::Add => b"add ",
            Keyword::Drop => b"drop ",
            Keyword::Classes => b"classes\n",
            Keyword::Maximal => b"maximal\n",
            Keyword::Stat => b"stat\n",
            Keyword::Extract => b"extract ",
            Keyword::Run => b"run ",
            Keyword::Show => b"show ",
            Keyword::Save => b"save\n",
            Keyword::Quit => b"quit\n",
        }
    }
}

/// The bytes behind these ones.
#[tactic(auto, unfolding(crate::specs::Reading::literal_at))]
pub fn behind<'a>(bytes: &'a [u8], word: &[u8]) -> Result<&'a [u8], ScriptError>
    ensures memory { IfErr result (λ e. e ≢ errors.Memory) }
    ensures value { Gives (λ rest. (tt, rest.now)) script_refusal result (literal_at word.now bytes.now) }
{
    let mut rest = bytes;
    let mut left = word;
    while let [letter, letters @ ..] = left {
        let [byte, after @ ..] = rest else {
            return Err(ScriptError::More);
        };
        if *byte != *letter {
            return Err(ScriptError::Bad);
        }
        rest = after;
        left = letters;
    }
    Ok(rest)
}

/// The first of these keywords that the bytes begin with, or may begin with.
#[tactic(auto, unfolding(crate::specs::Commands::keyword_of))]
pub fn keyword_of<'a>(
    bytes: &'a [u8],
    keywords: &[Keyword],
) -> Result<(Keyword, &'a [u8]), ScriptError>
    ensures memory { IfErr result (λ e. e ≢ errors.Memory) }
    ensures value { Gives (λ x. (x.0, x.1.now)) script_refusal result (keyword_of keywords.now bytes.now) }
{
    let mut left = keywords;
    while let [keyword, others @ ..] = left {
        match behind(bytes, keyword.spelling()) {
            Ok(rest) => return Ok((*keyword, rest)),
            Err(ScriptError::Bad) => left = others,
            Err(error) => return Err(error),
        }
    }
    Err(ScriptError::Bad)
}

/// The name at the front.
fn name_of(alloc: Global, bytes: &[u8], end: u8) -> Result<(Name, &[u8]), ScriptError>
    ensures { Gives (λ x. (x.0, x.1.now)) script_refusal result (name_at end bytes.now) }
{
    let (name, rest) = name_at(bytes, end)?;
    match Name::of(alloc, name) {
        Ok(name) => Ok((name, rest)),
        Err(NameError::Form) => Err(ScriptError::Bad),
        Err(NameError::Memory) => Err(ScriptError::Memory),
    }
}

/// So many bytes, and those behind the newline that follows them.
#[tactic(auto, using(crate::proofs::Texts::bytes_short, crate::proofs::Texts::bytes_cut))]
fn text_at(bytes: &[u8], length: u32) -> Result<(&[u8], &[u8]), ScriptError>
    ensures { Gives (λ x. (x.0.now, x.1.now)) script_refusal result (bytes_at length bytes.now) }
{
    if bytes.len() < length as usize {
        return Err(ScriptError::More);
    }
    let (text, rest) = bytes.split_at(length as usize);
    let after = behind(rest, b"\n")?;
    Ok((text, after))
}

fn bytes_of(alloc: Global, bytes: &[u8], length: u32) -> Result<(Bytes, &[u8]), ScriptError>
    ensures { Gives (λ x. (x.0, x.1.now)) script_refusal result (bytes_at length bytes.now) }
{
    let (text, rest) = text_at(bytes, length)?;
    Ok((Bytes::from_slice(alloc, text)?, rest))
}

#[tactic(auto, unfolding(crate::specs::Commands::behind_keyword))]
fn edit_of(alloc: Global, bytes: &[u8]) -> Result<(Command, &[u8]), ScriptError>
    ensures { Gives (λ x. (x.0, x.1.now)) script_refusal result (behind_keyword keyword.Edit bytes.now) }
{
    let (name, rest) = name_of(alloc, bytes, b' ')?;
    let (start, rest) = number_at(rest, b' ', u32::MAX)?;
    let (end, rest) = number_at(rest, b' ', u32::MAX)?;
    let (length, rest) = number_at(rest, b'\n', MAX_LENGTH)?;
    let (bytes, rest) = bytes_of(alloc, rest, length)?;
    let command = Command::Edit {
        name,
        start,
        end,
        bytes,
    };
    Ok((command, rest))
}

#[tactic(auto, unfolding(crate::specs::Commands::behind_keyword))]
fn add_of(alloc: Global, bytes: &[u8]) -> Result<(Command, &[u8]), ScriptError>
    ensures { Gives (λ x. (x.0, x.1.now)) script_refusal result (behind_keyword keyword.Add bytes.now) }
{
    let (name, rest) = name_of(alloc, bytes, b' ')?;
    let (length, rest) = number_at(rest, b'\n', MAX_LENGTH)?;
    let (bytes, rest) = bytes_of(alloc, rest, length)?;
    Ok((Command::Add { name, bytes }, rest))
}

#[tactic(auto, unfolding(crate::specs::Commands::behind_keyword))]
fn drop_of(alloc: Global, bytes: &[u8]) -> Result<(Command, &[u8]), ScriptError>
    ensures { Gives (λ x. (x.0, x.1.now)) script_refusal result (behind_keyword keyword.Drop bytes.now) }
{
    let (name, rest) = name_of(alloc, bytes, b'\n')?;
    Ok((Command::Remove { name }, rest))
}

/// How many bytes of the line of `extract` are left behind the blank that follows the name, where these many are read of what stands
/// behind the keyword.
fn room_behind(read: usize) -> usize
    ensures { result ≡ most_line - (length (spelling_of keyword.Extract) + read) }
{
    let word = Keyword::Extract.spelling();
    MAX_LINE.saturating_sub(word.len()).saturating_sub(read)
}

#[tactic(auto, using(crate::proofs::Lengths::room_is), unfolding(crate::specs::Commands::behind_keyword))]
fn extract_of(alloc: Global, bytes: &[u8]) -> Result<(Command, &[u8]), ScriptError>
    ensures { Gives (λ x. (x.0, x.1.now)) script_refusal result (behind_keyword keyword.Extract bytes.now) }
{
    let (class, rest) = number_at(bytes, b' ', u32::MAX)?;
    let (name, rest) = name_of(alloc, rest, b' ')?;
    let room = room_behind(bytes.len().saturating_sub(rest.len()));
    let (choice, rest) = choice_at(alloc, rest, room)?;
    let command = Command::Extract {
        class,
        name,
        choice,
    };
    Ok((command, rest))
}

#[tactic(auto, unfolding(crate::specs::Commands::behind_keyword))]
fn run_of(alloc: Global, bytes: &[u8]) -> Result<(Command, &[u8]), ScriptError>
    ensures { Gives (λ x. (x.0, x.1.now)) script_refusal result (behind_keyword keyword.Run bytes.now) }
{
    let (turns, rest) = number_at(bytes, b' ', MAX_TURNS)?;
    let (length, rest) = number_at(rest, b'\n', MAX_LENGTH)?;
    let (input, rest) = bytes_of(alloc, rest, length)?;
    Ok((Command::Run { turns, input }, rest))
}

#[tactic(auto, unfolding(crate::specs::Commands::behind_keyword))]
fn show_of(alloc: Global, bytes: &[u8]) -> Result<(Command, &[u8]), ScriptError>
    ensures { Gives (λ x. (x.0, x.1.now)) script_refusal result (behind_keyword keyword.Show bytes.now) }
{
    let (name, rest) = name_of(alloc, bytes, b'\n')?;
    Ok((Command::Show { name }, rest))
}

/// The command whose keyword was read, and the bytes behind it.
#[tactic(auto, unfolding(crate::specs::Commands::behind_keyword))]
fn behind_keyword(
    alloc: Global,
    keyword: Keyword,
    bytes: &[u8],
) -> Result<(Command, &[u8]), ScriptError>
    ensures { Gives (λ x. (x.0, x.1.now)) script_refusal result (behind_keyword keyword bytes.now) }
{
    match keyword {
        Keyword::Edit => edit_of(alloc, bytes),
        Keyword::Add => add_of(alloc, bytes),
        Keyword::Drop => drop_of(alloc, bytes),
        Keyword::Classes => Ok((Command::Classes, bytes)),
        Keyword::Maximal => Ok((Command::Maximal, bytes)),
        Keyword::Stat => Ok((Command::Stat, bytes)),
        Keyword::Extract => extract_of(alloc, bytes),
        Keyword::Run => run_of(alloc, bytes),
        Keyword::Show => show_of(alloc, bytes),
        Keyword::Save => Ok((Command::Save, bytes)),
        Keyword::Quit => Ok((Command::Quit, bytes)),
    }
}

#[tactic(auto, unfolding(crate::specs::Commands::command_at))]
fn command_at(alloc: Global, bytes: &[u8]) -> Result<(Command, &[u8]), ScriptError>
    ensures { Gives (λ x. (x.0, x.1.now)) script_refusal result (command_at bytes.now) }
{
    let (keyword, rest) = keyword_of(bytes, &KEYWORDS)?;
    behind_keyword(alloc, keyword, rest)
}

/// The command at the front, and how many bytes it takes.
#[tactic(auto, unfolding(crate::specs::Commands::command_of))]
fn command_of(alloc: Global, bytes: &[u8]) -> Result<(Command, usize), ScriptError>
    ensures { Answers result (command_of bytes.now) }
{
    let (command, rest) = command_at(alloc, bytes)?;
    Ok((command, bytes.len().saturating_sub(rest.len())))
}

/// The command at the front of the bytes, and how many of them it takes. Answers `Bad` exactly where the
/// bytes neither begin with a command nor are the beginning of one, and `More` exactly where they are the
/// beginning of a command and not the whole of it, no bytes included.
pub fn next_command(alloc: Global, bytes: &[u8]) -> Result<(Command, usize), ScriptError>
    // What is taken is a command.
    ensures found { IfOk result (λ x. (x.1 ≤ length bytes.now) × Spells (take x.1 bytes.now) x.0) }
    // A command at the front is taken, whatever follows it.
    ensures taken { (c : Command) (rest : List ℕ) → BeginsWith bytes.now c rest → Answers result (Ok (c, length (spelling c))) }
    ensures bad { IsErrOf result errors.Bad → IsBad bytes.now }
    ensures refused { IsBad bytes.now → Answers result (Err bad) }
    ensures more { IsErrOf result errors.More → IsBeginning bytes.now }
    ensures unfinished { IsBeginning bytes.now → Answers result (Err more) }
    // The same as one function of the bytes.
    ensures exact { Answers result (command_of bytes.now) }
{
    command_of(alloc, bytes)
}
