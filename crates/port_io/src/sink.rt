ghost use Rattle.std.specs.Prelude.{◌≡◌, ◌==◌, ◌↔◌, ℕ, ◌<◌, ◌≤◌, List, [], ◌++◌, length, take, Option, Some, None, Ok, Err, IfOk, IfErr, IsErr, OnOk, OnErr, IfSome, if◌then◌else◌};
ghost use Rattle.std.specs.IoError.{error_kind};
ghost use Rattle.port_io.specs.Faults.{CountsWrite};

use crate::calls::{Calls, raise};
use std::alloc::{AllocError, Global};
use std::io;
use std::io::{ErrorKind, Write};
use thiserror::Error;

/// Why a sink took nothing.
#[derive(Clone, Copy, Debug, PartialEq, Eq, Error)]
pub enum SinkError {
    #[error("a write failed")]
    Failed,
    #[error("out of memory")]
    Memory,
}

impl From<AllocError> for SinkError {
    ghost use Rattle.port_io.specs.declared.sink.SinkError.TheVariants as errors;

    ghost from_gives = { λ _ e. e ≡ errors.Memory };

    fn from(_error: AllocError) -> SinkError {
        SinkError::Memory
    }
}

/// Where bytes go.
pub trait Sink {
    /// The bytes that were written, where they are told.
    ghost written: { Self → Option (List ℕ) };

    /// How many writes failed. The count stands still at 2^64 - 1.
    ghost faults: { Self → ℕ };

    /// Appends bytes of the front of the piece, one or more, and answers how many.
    fn write(&mut self, bytes: &[u8]) -> Result<usize, SinkError>
        requires { 0 < length bytes.now }
        ensures some { IfOk result (λ n. 1 ≤ n) }
        ensures bound { IfOk result (λ n. n ≤ length bytes.now) }
        ensures appended { IfOk result (λ n. IfSome (written self.old) (λ before.
            written self.new ≡ Some (before ++ take n bytes.now))) }
        ensures kept { OnErr result (IfSome (written self.old) (λ before. written self.new ≡ Some before)) }
        ensures count { CountsWrite result (faults self.old) (faults self.new) };
}

/// What was written.
#[derive(Drop)]
struct Record {
    bytes: Vec<u8>,
}

impl Record {
    fn new(alloc: Global) -> Record
        ensures { result.bytes.items ≡ [] }
    {
        Record {
            bytes: Vec::new(alloc),
        }
    }

    fn append(&mut self, bytes: &[u8]) -> Result<usize, SinkError>
        ensures ok { IfOk result (λ n. n ≡ length bytes.now) }
        ensures appended { OnOk result (self.new.bytes.items ≡ self.old.bytes.items ++ bytes.now) }
        ensures kept { OnErr result (self.new.bytes.items ≡ self.old.bytes.items) }
        ensures memory { IfErr result (λ e. e ≡ SinkError.Memory) }
    {
        self.bytes.extend_from_slice(bytes)?;
        Ok(bytes.len())
    }
}

/// Memory that keeps what is written, with writes that fail by their numbers, counted from 1.
#[derive(Drop)]
pub struct MemSink {
    kept: Record,
    calls: Calls,
    faults: u64,
}

impl MemSink {
    ghost use Rattle.port_io.specs.Calls.{planned};
    ghost use Rattle.port_io.specs.Plans.{sink_plan};

    /// An empty sink, of which the calls with these numbers fail.
    pub fn new(alloc: Global, failing: Vec<u64>) -> MemSink
        ensures written { ⟦<MemSink as Sink>⟧.written result ≡ Some [] }
        ensures faults { ⟦<MemSink as Sink>⟧.faults result ≡ 0 }
        ensures plan { sink_plan result ≡ planned failing.items }
    {
        MemSink {
            kept: Record::new(alloc),
            calls: Calls::new(failing),
            faults: 0,
        }
    }

    /// What was written.
    pub fn written(&self) -> &[u8]
        ensures { ⟦<MemSink as Sink>⟧.written self.now ≡ Some result.now }
    {
        self.kept.bytes.as_slice()
    }
}

impl Sink for MemSink {
    ghost use Rattle.port_io.specs.Calls.{FollowsPlan, is_failed_write};
    ghost use Rattle.port_io.specs.Plans.{sink_plan};

    ghost written = { λ s. Some s.kept.bytes.items };

    ghost faults = { λ s. s.faults };

    fn write(&mut self, bytes: &[u8]) -> Result<usize, SinkError>
        requires { 0 < length bytes.now }
        ensures some { IfOk result (λ n. 1 ≤ n) }
        ensures bound { IfOk result (λ n. n ≤ length bytes.now) }
        ensures appended { IfOk result (λ n. IfSome (⟦<MemSink as Sink>⟧.written self.old) (λ before.
            ⟦<MemSink as Sink>⟧.written self.new ≡ Some (before ++ take n bytes.now))) }
        ensures kept { OnErr result (⟦<MemSink as Sink>⟧.written self.new ≡ ⟦<MemSink as Sink>⟧.written self.old) }
        ensures count { CountsWrite result (⟦<MemSink as Sink>⟧.faults self.old) (⟦<MemSink as Sink>⟧.faults self.new) }
        ensures plan { FollowsPlan (sink_plan self.old) (sink_plan self.new) (is_failed_write result) }
        ensures whole { IfOk result (λ n. n ≡ length bytes.now) }
    {
        if self.calls.next_fails() {
            self.faults = raise(self.faults);
            return Err(SinkError::Failed);
        }
        self.kept.append(bytes)
    }
}

/// Memory that keeps what is written, whose writes never fail.
#[derive(Drop)]
pub struct SureSink {
    kept: Record,
}

impl SureSink {
    /// An empty sink.
    pub fn new(alloc: Global) -> SureSink
        ensures { ⟦<SureSink as Sink>⟧.written result ≡ Some [] }
    {
        SureSink {
            kept: Record::new(alloc),
        }
    }

    /// What was written.
    pub fn written(&self) -> &[u8]
        ensures { ⟦<SureSink as Sink>⟧.written self.now ≡ Some result.now }
    {
        self.kept.bytes.as_slice()
    }
}

impl Sink for SureSink {
    ghost written = { λ s. Some s.kept.bytes.items };

    ghost faults = { λ _. 0 };

    fn write(&mut self, bytes: &[u8]) -> Result<usize, SinkError>
        requires { 0 < length bytes.now }
        ensures some { IfOk result (λ n. 1 ≤ n) }
        ensures bound { IfOk result (λ n. n ≤ length bytes.now) }
        ensures appended { IfOk result (λ n. IfSome (⟦<SureSink as Sink>⟧.written self.old) (λ before.
            ⟦<SureSink as Sink>⟧.written self.new ≡ Some (before ++ take n bytes.now))) }
        ensures kept { OnErr result (⟦<SureSink as Sink>⟧.written self.new ≡ ⟦<SureSink as Sink>⟧.written self.old) }
        ensures count { CountsWrite result (⟦<SureSink as Sink>⟧.faults self.old) (⟦<SureSink as Sink>⟧.faults self.new) }
        ensures whole { IfOk result (λ n. n ≡ length bytes.now) }
    {
        self.kept.append(bytes)
    }
}

/// A stream of std, as a file or standard output. What was written is told where the writer tells it, as a
/// `Vec` does; a file and standard output tell nothing.
#[derive(Drop)]
pub struct FileSink<W: Write> {
    writer: W,
    faults: u64,
}

impl<W: Write> FileSink<W> {
    /// A sink that writes to the writer.
    pub fn new(writer: W) -> FileSink<W>
        ensures written { ⟦<FileSink<W> as Sink>⟧.written result ≡ W.contents writer }
        ensures faults { ⟦<FileSink<W> as Sink>⟧.faults result ≡ 0 }
    {
        FileSink { writer, faults: 0 }
    }
}

/// A failed write, unless memory ran out.
fn cause(error: io::Error) -> SinkError
    ensures { (result ≡ SinkError.Memory) ↔ (error_kind error ≡ ErrorKind.OutOfMemory) }
{
    if error.kind() == ErrorKind::OutOfMemory {
        SinkError::Memory
    } else {
        SinkError::Failed
    }
}

/// How many bytes a writer took. One that took none has failed.
fn taken(outcome: io::Result<usize>) -> Result<usize, SinkError>
    ensures ok { IfOk outcome (λ n. result ≡ (if n == 0 then Err SinkError.Failed else Ok n)) }
    ensures err { IfErr outcome (λ _. IsErr result) }
    ensures memory { IfErr outcome (λ error. (result ≡ Err SinkError.Memory) ↔ (error_kind error ≡ ErrorKind.OutOfMemory)) }
{
    match outcome {
        Ok(0) => Err(SinkError::Failed),
        Ok(n) => Ok(n),
        Err(error) => Err(cause(error)),
    }
}

/// The outcome as it is, counted where it is a fault.
fn counted(outcome: Result<usize, SinkError>, faults: &mut u64) -> Result<usize, SinkError>
    ensures same { result ≡ outcome }
    ensures count { CountsWrite outcome faults.old faults.new }
{
    if let Err(SinkError::Failed) = &outcome {
        *faults = raise(*faults);
    }
    outcome
}

impl<W: Write> Sink for FileSink<W> {
    ghost written = { λ s. W.contents s.writer };

    ghost faults = { λ s. s.faults };

    fn write(&mut self, bytes: &[u8]) -> Result<usize, SinkError> {
        let outcome = taken(self.writer.write(bytes));
        counted(outcome, &mut self.faults)
    }
}
