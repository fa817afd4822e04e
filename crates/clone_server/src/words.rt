//! The words behind the program's own name.

ghost use Rattle.std.specs.Prelude.{◌≡◌, ◌↔◌, IfOk};
ghost use Rattle.std.specs.Option.{option_map};
ghost use Rattle.clap.specs.Words.{app_of, rows_of, found_of, kind_of};
ghost use Rattle.go_base.specs.Gives.{Gives};
ghost use Rattle.clone_server.specs.Words.{goclone, said_of, all_said, said_by, number_or, seed_or_none, rows_of_words, words_of, words_refusal, taken_or_not, texts_of};

use crate::number::{whole_number, whole_or_zero};
use clap::error::ErrorKind;
use clap::{Arg, ArgAction, ArgMatches, Command, Error};
use std::alloc::{AllocError, Global};

/// What is written where the words are not taken.
pub const USAGE: &[u8; 51] = b"usage: goclone [--min N] [--mass N] [--make N] DIR\n";
/// The most of `--min`: the most statements of a window.
const MOST_STATEMENTS: u32 = 32;
/// The most of `--mass`.
const MOST_MASS: u32 = 1000;

/// What the words say.
#[derive(Clone, Copy, Debug)]
pub struct Words<'a> {
    /// The fewest statements of a window, from 1 to 32, and 2 where nothing is said.
    pub min: u32,
    /// The least mass of a window, from 1 to 1000, and 8 where nothing is said.
    pub mass: u32,
    /// The number that the package is made from, where one is said: then the folder isn't looked at.
    pub make: Option<u32>,
    /// The folder of the package.
    pub dir: &'a str,
}

/// Why words say nothing.
#[derive(Clone, Copy, Debug, PartialEq, Eq)]
pub enum WordsError {
    /// The words are others than those of the usage line.
    NotTaken,
    /// Memory ran out.
    Memory,
}

impl From<AllocError> for WordsError {
    ghost use Rattle.clone_server.specs.declared.words.WordsError.TheVariants as errors;

    ghost from_gives = { λ _ e. e ≡ errors.Memory };

    fn from(_error: AllocError) -> WordsError {
        WordsError::Memory
    }
}

/// The number of an option, or the one that stands for none.
fn number_or(text: Option<&str>, most: u32, fallback: u32) -> Option<u32>
    ensures { result ≡ number_or most fallback (option_map (λ t. t.now) text.entry) }
{
    match text {
        None => Some(fallback),
        Some(text) => whole_number(text.as_bytes(), most),
    }
}

/// The number that a package is made from, if one is given: none is fine, and one that can't be read isn't.
fn seed_or_none(text: Option<&str>) -> Option<Option<u32>>
    ensures { result ≡ seed_or_none (option_map (λ t. t.now) text.entry) }
{
    match text {
        None => Some(None),
        Some(text) => Some(Some(whole_or_zero(text.as_bytes(), u32::MAX)?)),
    }
}

/// The numbers and the folder, if all are there.
fn all_said<'a>(
    min: Option<u32>,
    mass: Option<u32>,
    make: Option<Option<u32>>,
    dir: Option<&'a str>,
) -> Option<Words<'a>>
    ensures { option_map said_of result ≡ all_said min mass make (option_map (λ t. t.now) dir.entry) }
{
    match (min, mass, make, dir) {
        (Some(min), Some(mass), Some(make), Some(dir)) => Some(Words {
            min,
            mass,
            make,
            dir,
        }),
        _ => None,
    }
}

/// What the matches say.
fn said<'a>(matches: &ArgMatches<'a>) -> Option<Words<'a>>
    ensures { option_map said_of result ≡ said_by (rows_of (found_of matches.now)) }
{
    let min = number_or(matches.get_str("min"), MOST_STATEMENTS, 2);
    let mass = number_or(matches.get_str("mass"), MOST_MASS, 8);
    let make = seed_or_none(matches.get_str("make"));
    all_said(min, mass, make, matches.get_str("dir"))
}

/// The command, as `clap` knows it.
fn command<'a>(alloc: Global) -> Result<Command<'a>, AllocError>
    ensures { IfOk result (λ c. app_of c ≡ goclone) }
{
    let min = Arg::new(alloc, "min").long("min").action(ArgAction::Set);
    let mass = Arg::new(alloc, "mass").long("mass").action(ArgAction::Set);
    let make = Arg::new(alloc, "make").long("make").action(ArgAction::Set);
    let dir = Arg::new(alloc, "dir").required(true).action(ArgAction::Set);
    let named = Command::new(alloc, "goclone").no_binary_name(true);
    named.arg(min)?.arg(mass)?.arg(make)?.arg(dir)
}

/// The words are not taken, unless memory ran out.
fn cause(error: Error) -> WordsError
    ensures { (result ≡ WordsError.Memory) ↔ (kind_of error ≡ ErrorKind.OutOfMemory) }
{
    if error.kind() == ErrorKind::OutOfMemory {
        WordsError::Memory
    } else {
        WordsError::NotTaken
    }
}

/// The matches of the words, as `clap` finds them.
fn matches_of<'a>(alloc: Global, words: &'a [String]) -> Result<ArgMatches<'a>, WordsError>
    ensures { Gives (λ m. rows_of (found_of m)) words_refusal result (rows_of_words (texts_of words.entry.now)) }
{
    match command(alloc)?.try_get_matches_from(words) {
        Ok(matches) => Ok(matches),
        Err(error) => Err(cause(error)),
    }
}

/// Words that say nothing are not taken.
fn taken_or_not(said: Option<Words>) -> Result<Words, WordsError>
    ensures { result ≡ taken_or_not said.entry }
{
    match said {
        Some(said) => Ok(said),
        None => Err(WordsError::NotTaken),
    }
}

/// What the words say, where they are those of the usage line: `--min` with a whole number from 1 to 32, `--mass` with one
/// from 1 to 1000, `--make` with one from 0 to 4,294,967,295, and a folder. Numbers are written in digits alone, of which the first
/// is no 0 unless it is the only one.
#[tactic(auto, unfolding(crate::specs::Words::words_of))]
pub fn words_of<'a>(alloc: Global, words: &'a [String]) -> Result<Words<'a>, WordsError>
    ensures { Gives said_of words_refusal result (words_of (texts_of words.entry.now)) }
{
    let matches = matches_of(alloc, words)?;
    taken_or_not(said(&matches))
}
