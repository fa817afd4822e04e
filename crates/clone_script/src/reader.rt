ghost use Rattle.std.specs.Prelude.{◌≡◌, ◌++◌, [], IfOk, OnOk, OnErr};
ghost use Rattle.std.specs.Result.{IsErrOf};
ghost use Rattle.go_base.specs.Gives.{Gives};
ghost use Rattle.clone_script.specs.Reading.{script_refusal};
ghost use Rattle.clone_script.specs.Commands.{command_at};
ghost use Rattle.clone_script.specs.Grammar.{BeginsWith, IsBeginning, IsBad};
ghost use Rattle.clone_script.specs.declared.error.ScriptError.TheVariants as errors;

use crate::command::{Command, next_command};
use crate::error::ScriptError;
use crate::size::bytes_wanted;
use go_base::Memory;
use std::alloc::Global;
use std::marker::Model;

/// Takes the commands of a script whose bytes come in pieces. Contracts see the pending bytes: those that
/// came and are in no command that was taken.
///
/// A command's line is looked at with each piece until it is whole. The bytes that follow it are counted, and not
/// looked at again. A line has at most 291 bytes, and that of `extract` at most 65,536. So the cost is linear in
/// the script's bytes, however they come, but for lines of `extract`: these are looked at once for each piece.
#[derive(Debug, Drop)]
pub struct CommandReader {
    bytes: Vec<u8>,
    /// How many of the bytes are in commands that were taken.
    taken: usize,
    /// How many pending bytes there must be at least before a command is whole.
    wanted: usize,
}

impl Model for CommandReader {
    ghost use Rattle.std.specs.Prelude.{List, ℕ, ◌≤◌, length, drop};
    ghost use Rattle.clone_script.specs.Sizes.{Wants};

    ghost Value = { List ℕ };

    ghost view = { λ r. drop r.taken r.bytes.items };

    ghost invariant = { λ r. (r.taken ≤ length r.bytes.items) × Wants r.wanted (drop r.taken r.bytes.items) };
}

impl CommandReader {
    /// A reader without pending bytes.
    pub fn new(alloc: Global) -> CommandReader
        ensures { result ≡ [] }
    {
        CommandReader {
            bytes: Vec::new(alloc),
            taken: 0,
            wanted: 0,
        }
    }

    /// The pending bytes.
    pub fn pending(&self) -> &[u8]
        ensures { result.now ≡ self.now }
    {
        &self.bytes[self.taken..]
    }

    /// Lets go of the bytes of commands that were taken. An `Err` changes nothing.
    fn compact(&mut self) -> Result<(), Memory>
        ensures { self.new ≡ self.old }
    {
        let pending = self.bytes.split_off(self.taken)?;
        self.bytes = pending;
        self.taken = 0;
        Ok(())
    }

    /// Puts a piece of the script behind the pending bytes. An `Err` changes nothing.
    pub fn push(&mut self, piece: &[u8]) -> Result<(), Memory>
        ensures ok { OnOk result (self.new ≡ self.old ++ piece.now) }
        ensures err { OnErr result (self.new ≡ self.old) }
    {
        if self.taken > self.bytes.len() / 2 {
            self.compact()?;
        }
        self.bytes.extend_from_slice(piece)?;
        Ok(())
    }

    /// Takes the command at the front of the pending bytes. Answers `Bad` exactly where they neither begin
    /// with a command nor are the beginning of one, and `More` exactly where they are the beginning of a
    /// command and not the whole of it, no bytes included. An `Err` changes nothing.
    pub fn next_command(&mut self, alloc: Global) -> Result<Command, ScriptError>
        ensures found { IfOk result (λ c. BeginsWith self.old c self.new) }
        ensures bad { IsErrOf result errors.Bad → IsBad self.old }
        ensures more { IsErrOf result errors.More → IsBeginning self.old }
        ensures err { OnErr result (self.new ≡ self.old) }
        // The same as one function of the pending bytes.
        ensures exact { Gives (λ c. (c, self.new)) script_refusal result (command_at self.old) }
    {
        if self.pending().len() < self.wanted {
            return Err(ScriptError::More);
        }
        match next_command(alloc, self.pending()) {
            Ok((command, length)) => {
                self.taken += length;
                self.wanted = 0;
                Ok(command)
            }
            Err(ScriptError::More) => {
                self.wanted = bytes_wanted(self.pending());
                Err(ScriptError::More)
            }
            Err(error) => Err(error),
        }
    }
}
