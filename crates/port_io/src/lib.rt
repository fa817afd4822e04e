//! The outside of the program as three traits: a source of bytes, a sink for bytes, and a folder
//! of files, each with a count of its faults.
//!
//! The contract: an object may tell what it holds, and then each call says what it took, put or
//! changed. Each call that answers `Failed` has raised the object's count of faults by one, up to
//! the count's last value, and no other call has. So a caller that blames the outside can show that
//! the outside is to blame.
//!
//! Each trait has three implementations: in memory with calls that fail by their numbers
//! (`MemSource`, `MemSink`, `MemFolder`), in memory without faults (`SureSource`, `SureSink`,
//! `SureFolder`), and over std's streams and folders (`FileSource`, `FileSink`, `DirFolder`). The
//! objects in memory fail at the listed calls and at no others. A `FileSource` and a `FileSink` tell
//! what the stream below them tells, so their promises hold of every reader and writer; a
//! `DirFolder` tells no contents. All counts begin at 0.
#![tactic(auto)]

mod calls;
mod folder;
mod sink;
mod source;
mod store;

pub use folder::{DirFolder, Folder, FolderError, MemFolder, SureFolder};
pub use sink::{FileSink, MemSink, Sink, SinkError, SureSink};
pub use source::{Failed, FileSource, MemSource, Source, SureSource};
