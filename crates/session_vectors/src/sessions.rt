//! Whole runs of the program over folders, scripts and sinks in memory, as the tables write them.
use case_tables::folders::{file_of, folder_of};
use clone_program::Goclone;
use clone_server::serve::serve;
use go_base::{Bytes, Memory};
use port_io::{MemFolder, MemSink, MemSource};
use std::alloc::Global;

/// What a run is given.
#[derive(Drop)]
pub struct Session<'a> {
    /// The words behind the program's name, divided by blanks, and `-` for none.
    pub words: &'a str,
    /// Which call fails, as `folder 4`, and `-` for none.
    pub failing: &'a str,
    /// The files of the folder, as `NAME=BYTES`, divided by blanks, and `-` for none.
    pub folder: &'a str,
    pub script: Vec<u8>,
}

/// What became of a run.
#[derive(Drop)]
pub struct Ended {
    pub status: u8,
    pub written: Vec<u8>,
    folder: MemFolder,
}

/// The numbers of the calls of this object that fail.
fn failing_of(alloc: Global, failing: &str, object: &str) -> Result<Vec<u64>, Memory> {
    let mut calls = Vec::new(alloc);
    if let Some((which, number)) = failing.split_once(' ') {
        if which == object {
            calls.push(number.parse::<u64>().unwrap_or(0))?;
        }
    }
    Ok(calls)
}

/// The words of a row.
pub fn words_of(alloc: Global, text: &str) -> Result<Vec<String>, Memory> {
    let mut words = Vec::new(alloc);
    if text == "-" {
        return Ok(words);
    }
    for word in text.split(' ') {
        words.push(String::from_str(alloc, word)?)?;
    }
    Ok(words)
}

/// The folder among the words: the first one that is no option and no number of one.
fn dir_of(words: &str) -> &str {
    let mut is_number = false;
    for word in words.split(' ') {
        if is_number {
            is_number = false;
        } else if word == "--min" || word == "--mass" || word == "--make" {
            is_number = true;
        } else if !word.starts_with("--") {
            return word;
        }
    }
    words
}

impl Session<'_> {
    /// Runs the program over objects in memory.
    pub fn ended(&self, alloc: Global) -> Result<Ended, Memory> {
        let words = words_of(alloc, self.words)?;
        let failing = failing_of(alloc, self.failing, "folder")?;
        let mut folder = folder_of(alloc, dir_of(self.words), self.folder, failing)?;
        let failing = failing_of(alloc, self.failing, "source")?;
        let mut script = MemSource::new(Bytes::from_slice(alloc, &self.script)?, failing);
        let mut out = MemSink::new(alloc, failing_of(alloc, self.failing, "sink")?);
        let status = serve::<Goclone, MemFolder, MemSource, MemSink>(
            alloc,
            &words,
            &mut folder,
            &mut script,
            &mut out,
        );
        Ok(Ended {
            status,
            written: Vec::from_slice(alloc, out.written())?,
            folder,
        })
    }
}

impl Ended {
    /// Whether the folder holds these files.
    pub fn holds(&self, alloc: Global, words: &str, files: &str) -> Result<bool, Memory> {
        if files == "-" {
            return Ok(true);
        }
        for file in files.split(' ') {
            let (name, wanted) = file_of(alloc, file)?;
            match self.folder.find(dir_of(words), &name) {
                Some(bytes) if bytes.as_slice() == wanted.as_slice() => {}
                _ => return Ok(false),
            }
        }
        Ok(true)
    }

    /// The status and what was written, for a difference.
    pub fn shown(&self, alloc: Global) -> Result<String, Memory> {
        let written = match std::str::from_utf8(&self.written) {
            Ok(text) => text,
            Err(_) => "(no text)",
        };
        let text = format!(in alloc; "status {} written {:?}", self.status, written)?;
        Ok(text)
    }
}
