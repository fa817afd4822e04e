//! The table `make`: a number, words with `--make`, the status, how many bytes are written, their SHA-256, their first line, and the
//! SHA-256 of the file that is made.
use crate::sessions::{Session, words_of};
use case_tables::digits::pieces;
use case_tables::table::Table;
use clone_server::made::made;
use go_base::Memory;
use sha2::{Digest, Sha256};
use std::alloc::Global;

pub struct Make;

/// Whether this is the SHA-256 of the bytes, in hex.
fn is_digest(alloc: Global, bytes: &[u8], digest: &str) -> Result<bool, Memory> {
    let mut hasher = Sha256::new();
    hasher.update(bytes);
    Ok(hasher.finalize().as_slice() == pieces(alloc, digest)?.as_slice())
}

/// Whether the package that the words ask for is one file with this SHA-256.
fn is_made(alloc: Global, words: &str, digest: &str) -> Result<bool, Memory> {
    let words = words_of(alloc, words)?;
    let seed = match clone_server::words_of(alloc, &words) {
        Ok(said) => said.make,
        Err(_) => None,
    };
    let Some(seed) = seed else {
        return Ok(false);
    };
    match made(alloc, seed)?.as_slice() {
        [file] => is_digest(alloc, file.bytes.as_slice(), digest),
        _ => Ok(false),
    }
}

impl Table for Make {
    fn name(&self) -> &'static str {
        "make"
    }

    fn difference(&self, alloc: Global, fields: &[&str]) -> Result<Option<String>, Memory> {
        let [_, words, status, count, digest, first, text, ..] = fields else {
            return Ok(Some(String::from_str(alloc, "not seven fields")?));
        };
        let session = Session {
            words,
            failing: "folder 1",
            folder: "-",
            script: Vec::new(alloc),
        };
        let ended = session.ended(alloc)?;
        let is_status = status.parse::<u8>().ok() == Some(ended.status);
        let is_count = count.parse::<usize>().ok() == Some(ended.written.len());
        let is_first = ended.written.starts_with(first.as_bytes());
        if is_status
            && is_count
            && is_first
            && is_digest(alloc, &ended.written, digest)?
            && is_made(alloc, words, text)?
        {
            Ok(None)
        } else {
            Ok(Some(ended.shown(alloc)?))
        }
    }
}
