//! Folders as tables write them.
use crate::digits::pieces;
use go_base::{Memory, Name};
use port_io::MemFolder;
use std::alloc::Global;

/// The name and the bytes of a file, written `NAME=BYTES`.
///
/// # Errors
///
/// Want of memory, also where it isn't written so.
pub fn file_of(alloc: Global, text: &str) -> Result<(Name, Vec<u8>), Memory> {
    let Some((name, bytes)) = text.split_once('=') else {
        return Err(Memory);
    };
    match Name::of(alloc, name.as_bytes()) {
        Ok(name) => Ok((name, pieces(alloc, bytes)?)),
        Err(_) => Err(Memory),
    }
}

/// The folder that holds these files, as `NAME=BYTES`, divided by blanks, and `-` for none. Of its calls the ones with these numbers
/// fail.
///
/// # Errors
///
/// Want of memory, also where a file isn't written so.
pub fn folder_of(
    alloc: Global,
    dir: &str,
    files: &str,
    failing: Vec<u64>,
) -> Result<MemFolder, Memory> {
    let mut folder = MemFolder::new(alloc, failing);
    if files == "-" {
        return Ok(folder);
    }
    for file in files.split(' ') {
        let (name, bytes) = file_of(alloc, file)?;
        folder.add(dir, &name, &bytes)?;
    }
    Ok(folder)
}

/// Texts, each in hexadecimal digits, divided by blanks, as files with names by their numbers.
///
/// # Errors
///
/// Want of memory.
pub fn numbered(alloc: Global, texts: &str) -> Result<String, Memory> {
    let mut folder = String::new(alloc);
    for (number, text) in texts.split(' ').enumerate() {
        if number > 0 {
            folder.push_str(" ")?;
        }
        let file = format!(in alloc; "f{number:03}.go={text}")?;
        folder.push_str(file.as_str())?;
    }
    Ok(folder)
}
