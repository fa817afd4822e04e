ghost use Rattle.std.specs.Prelude.{◌≡◌, ℕ, ◌<◌, ◌≤◌, List, length, drop, Option, Some, None, IfOk, OnErr, IfSome, IsOk, is_err};
ghost use Rattle.port_io.specs.Faults.{CountsRead};
ghost use Rattle.port_io.specs.Streams.{TakesFront, FillsFront};

use crate::calls::{Calls, raise};
use go_base::Bytes;
use std::io::Read;
use thiserror::Error;

/// A read failed.
#[derive(Clone, Copy, Debug, PartialEq, Eq, Error)]
#[error("a read failed")]
pub struct Failed;

/// Where bytes come from.
pub trait Source {
    /// The bytes that are left, where they are told.
    ghost left: { Self → Option (List ℕ) };

    /// How many reads failed. The count stands still at 2^64 - 1.
    ghost faults: { Self → ℕ };

    /// Moves bytes that are left to the front of the buffer, and answers how many.
    fn read(&mut self, buf: &mut [u8]) -> Result<usize, Failed>
        requires { 0 < length buf.old }
        ensures bound { IfOk result (λ n. n ≤ length buf.new) }
        ensures bytes { IfOk result (λ n. IfSome (left self.old) (λ bytes.
            TakesFront bytes (left self.new) buf.new n)) }
        ensures kept { OnErr result (IfSome (left self.old) (λ bytes. left self.new ≡ Some bytes)) }
        ensures count { CountsRead result (faults self.old) (faults self.new) };
}

/// Bytes, and how many of them were taken.
#[derive(Drop)]
struct Supply {
    bytes: Bytes,
    taken: usize,
    ghost within: { taken ≤ length bytes },
}

impl Supply {
    fn new(bytes: Bytes) -> Supply
        ensures { drop result.taken result.bytes ≡ bytes }
    {
        Supply { bytes, taken: 0 }
    }

    fn read(&mut self, buf: &mut [u8]) -> usize
        requires { 0 < length buf.old }
        ensures bound { result ≤ length buf.new }
        ensures bytes { TakesFront (drop self.old.taken self.old.bytes) (Some (drop self.new.taken self.new.bytes)) buf.new result }
        ensures fills { FillsFront (drop self.old.taken self.old.bytes) buf.old buf.new result }
    {
        let left = &self.bytes.as_slice()[self.taken..];
        let n = left.len().min(buf.len());
        buf[..n].copy_from_slice(&left[..n]);
        self.taken += n;
        n
    }
}

/// Bytes in memory, with reads that fail by their numbers, counted from 1.
#[derive(Drop)]
pub struct MemSource {
    supply: Supply,
    calls: Calls,
    faults: u64,
}

impl MemSource {
    ghost use Rattle.port_io.specs.Calls.{planned};
    ghost use Rattle.port_io.specs.Plans.{source_plan};

    /// A source of these bytes, of which the calls with these numbers fail.
    pub fn new(bytes: Bytes, failing: Vec<u64>) -> MemSource
        ensures left { ⟦<MemSource as Source>⟧.left result ≡ Some bytes }
        ensures faults { ⟦<MemSource as Source>⟧.faults result ≡ 0 }
        ensures plan { source_plan result ≡ planned failing.items }
    {
        MemSource {
            supply: Supply::new(bytes),
            calls: Calls::new(failing),
            faults: 0,
        }
    }
}

impl Source for MemSource {
    ghost use Rattle.port_io.specs.Calls.{FollowsPlan};
    ghost use Rattle.port_io.specs.Plans.{source_plan};

    ghost left = { λ s. Some (drop s.supply.taken s.supply.bytes) };

    ghost faults = { λ s. s.faults };

    fn read(&mut self, buf: &mut [u8]) -> Result<usize, Failed>
        requires { 0 < length buf.old }
        ensures bound { IfOk result (λ n. n ≤ length buf.new) }
        ensures bytes { IfOk result (λ n. IfSome (⟦<MemSource as Source>⟧.left self.old) (λ bytes.
            TakesFront bytes (⟦<MemSource as Source>⟧.left self.new) buf.new n)) }
        ensures kept { OnErr result (⟦<MemSource as Source>⟧.left self.new ≡ ⟦<MemSource as Source>⟧.left self.old) }
        ensures count { CountsRead result (⟦<MemSource as Source>⟧.faults self.old) (⟦<MemSource as Source>⟧.faults self.new) }
        ensures plan { FollowsPlan (source_plan self.old) (source_plan self.new) (is_err result) }
        ensures fills { IfOk result (λ n. IfSome (⟦<MemSource as Source>⟧.left self.old) (λ bytes. FillsFront bytes buf.old buf.new n)) }
        ensures untouched { OnErr result (buf.new ≡ buf.old) }
    {
        if self.calls.next_fails() {
            self.faults = raise(self.faults);
            return Err(Failed);
        }
        Ok(self.supply.read(buf))
    }
}

/// Bytes in memory, whose reads never fail.
#[derive(Drop)]
pub struct SureSource {
    supply: Supply,
}

impl SureSource {
    /// A source of these bytes.
    pub fn new(bytes: Bytes) -> SureSource
        ensures { ⟦<SureSource as Source>⟧.left result ≡ Some bytes }
    {
        SureSource {
            supply: Supply::new(bytes),
        }
    }
}

impl Source for SureSource {
    ghost left = { λ s. Some (drop s.supply.taken s.supply.bytes) };

    ghost faults = { λ _. 0 };

    fn read(&mut self, buf: &mut [u8]) -> Result<usize, Failed>
        requires { 0 < length buf.old }
        ensures ok { IsOk result }
        ensures bound { IfOk result (λ n. n ≤ length buf.new) }
        ensures bytes { IfOk result (λ n. IfSome (⟦<SureSource as Source>⟧.left self.old) (λ bytes.
            TakesFront bytes (⟦<SureSource as Source>⟧.left self.new) buf.new n)) }
        ensures fills { IfOk result (λ n. IfSome (⟦<SureSource as Source>⟧.left self.old) (λ bytes. FillsFront bytes buf.old buf.new n)) }
    {
        Ok(self.supply.read(buf))
    }
}

/// A stream of std, as a file or standard input. What is left is told where the reader tells it, as a slice
/// does; a file and standard input tell nothing.
#[derive(Drop)]
pub struct FileSource<R: Read> {
    reader: R,
    faults: u64,
}

impl<R: Read> FileSource<R> {
    /// A source of what the reader reads.
    pub fn new(reader: R) -> FileSource<R>
        ensures left { ⟦<FileSource<R> as Source>⟧.left result ≡ R.remaining reader }
        ensures faults { ⟦<FileSource<R> as Source>⟧.faults result ≡ 0 }
    {
        FileSource { reader, faults: 0 }
    }
}

impl<R: Read> Source for FileSource<R> {
    ghost left = { λ s. R.remaining s.reader };

    ghost faults = { λ s. s.faults };

    fn read(&mut self, buf: &mut [u8]) -> Result<usize, Failed> {
        match self.reader.read(buf) {
            Ok(n) => Ok(n),
            Err(_) => {
                self.faults = raise(self.faults);
                Err(Failed)
            }
        }
    }
}
