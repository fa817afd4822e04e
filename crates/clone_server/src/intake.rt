//! Commands, one after the other.

ghost use Rattle.std.specs.Prelude.{◌≡◌, ◌<◌, ◌-◌, List, ℕ, [], length, false, Some, IfOk, IfSome, IfNone};
ghost use Rattle.clone_script.specs.Script.{at_end};
ghost use Rattle.clone_server.specs.Taking.{IsWithin, consumed, outcome_of, CountsIntake, Finds, EndsBehind, Gets, Comes, IsCommand};

use crate::piece::read_piece;
use crate::step::{End, IntakeError, Step};
use clone_script::{Command, CommandReader, ScriptError};
use port_io::Source;
use std::alloc::Global;
use std::marker::Model;

/// The most bytes that are taken of a script.
const MOST_SCRIPT: u32 = 16_777_216;
/// The most bytes that are asked for at once.
const MOST_PIECE: u32 = 4096;

/// The bytes of a script that came and are in no command that was taken, and how many came in all.
#[derive(Debug, Drop)]
pub struct Intake {
    reader: CommandReader,
    count: u32,
}

impl Model for Intake {
    ghost use Rattle.std.specs.Prelude.{◌≤◌, length};
    ghost use Rattle.clone_script.specs.Script.{most_script};
    ghost use Rattle.clone_server.specs.Taking.{Taken};

    ghost Value = { Taken };

    ghost view = { λ i. record { pending = i.reader; count = i.count } };

    ghost invariant = { λ i. (length i.reader ≤ i.count) × (i.count ≤ most_script) };
}

impl Intake {
    /// Nothing came yet.
    pub fn new(alloc: Global) -> Intake
        ensures { result ≡ record { pending = []; count = 0 } }
    {
        Intake {
            reader: CommandReader::new(alloc),
            count: 0,
        }
    }

    /// Where the pending bytes begin in the script.
    fn offset(&self) -> u32
        ensures { result ≡ self.now.count - length self.now.pending }
    {
        self.count - self.reader.pending().len() as u32
    }

    /// What is found in the pending bytes.
    fn find(&mut self, alloc: Global) -> Result<Option<Step>, IntakeError>
        ensures found { Finds self.old result self.new }
        ensures before { IsWithin self.old }
        ensures within { IsWithin self.new }
        ensures consumed { IfOk result (λ found. IfSome found (λ step. IsCommand step → consumed self.old < consumed self.new)) }
    {
        match self.reader.next_command(alloc) {
            Ok(Command::Quit) => Ok(Some(Step::End(End::Done))),
            Ok(command) => Ok(Some(Step::Command(command))),
            Err(ScriptError::Bad) => {
                let offset = self.offset();
                Ok(Some(Step::End(End::Bad { offset })))
            }
            Err(ScriptError::More) => Ok(None),
            Err(ScriptError::Memory) => Err(IntakeError::Memory),
        }
    }

    /// The end of a script of which nothing more comes, though no whole command is pending.
    fn end(&self) -> End
        ensures { outcome_of result ≡ at_end false self.now.count self.now.pending }
    {
        if self.reader.pending().is_empty() {
            End::Done
        } else {
            End::Bad {
                offset: self.offset(),
            }
        }
    }

    /// The end of a script of which as many bytes came as are taken at most: one more byte is asked for.
    fn end_behind<S: Source>(&self, alloc: Global, script: &mut S) -> Result<End, IntakeError>
        ensures count { CountsIntake result (S.faults script.old) (S.faults script.new) }
        ensures told { (left : List ℕ) → S.left script.old ≡ Some left → EndsBehind self.now left result (S.left script.new) }
    {
        let piece = read_piece(alloc, script, 1)?;
        Ok(if piece.is_empty() {
            self.end()
        } else {
            End::Long
        })
    }

    /// Takes a further piece of the script, or tells how it ends where nothing more comes.
    fn take_more<S: Source>(
        &mut self,
        alloc: Global,
        script: &mut S,
    ) -> Result<Option<End>, IntakeError>
        ensures count { CountsIntake result (S.faults script.old) (S.faults script.new) }
        ensures grows { IfOk result (λ end. IfNone end ((self.old.count < self.new.count) × (consumed self.new ≡ consumed self.old))) }
        ensures within { IsWithin self.new }
        ensures told { (left : List ℕ) → S.left script.old ≡ Some left → Gets self.old left result self.new (S.left script.new) }
    {
        let room = MOST_SCRIPT - self.count;
        if room == 0 {
            return Ok(Some(self.end_behind(alloc, script)?));
        }
        let piece = read_piece(alloc, script, room.min(MOST_PIECE) as usize)?;
        if piece.is_empty() {
            return Ok(Some(self.end()));
        }
        self.reader.push(&piece)?;
        self.count += piece.len() as u32;
        Ok(None)
    }

    /// The next command of the script, as soon as its bytes came, or how the script ends.
    pub fn next<S: Source>(&mut self, alloc: Global, script: &mut S) -> Result<Step, IntakeError>
        // The script's count rose exactly where a read failed.
        ensures count { CountsIntake result (S.faults script.old) (S.faults script.new) }
        // A command takes a byte or more, and no more bytes come than are taken at most.
        ensures consumed { IfOk result (λ step. IsCommand step → consumed self.old < consumed self.new) }
        ensures within { IsWithin self.new }
        // Where the script is told: the next command, or the end, of the definition of scripts.
        ensures told { (left : List ℕ) → S.left script.old ≡ Some left → Comes self.old left result self.new (S.left script.new) }
    {
        loop {
            match self.find(alloc)? {
                Some(step) => return Ok(step),
                None => {}
            }
            match self.take_more(alloc, script)? {
                Some(end) => return Ok(Step::End(end)),
                None => {}
            }
        }
    }
}
