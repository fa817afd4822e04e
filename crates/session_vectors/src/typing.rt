//! A table of checks: a number, the files in hexadecimal digits, divided by blanks, and `ok` or the fault of the whole check.
use crate::sessions::Session;
use case_tables::folders::numbered;
use case_tables::table::Table;
use go_base::Memory;
use std::alloc::Global;

/// A table of checks.
pub struct Typing {
    /// Its name.
    pub name: &'static str,
}

impl Table for Typing {
    fn name(&self) -> &'static str {
        self.name
    }

    fn difference(&self, alloc: Global, fields: &[&str]) -> Result<Option<String>, Memory> {
        let [_, texts, wanted, ..] = fields else {
            return Ok(Some(String::from_str(alloc, "not three fields")?));
        };
        let folder = numbered(alloc, texts)?;
        let session = Session {
            words: "--min 32 --mass 1000 d",
            failing: "-",
            folder: folder.as_str(),
            script: Vec::from_slice(alloc, b"classes\n")?,
        };
        let ended = session.ended(alloc)?;
        let said = match std::str::from_utf8(&ended.written) {
            Ok(reply) => says(alloc, reply, wanted)?,
            Err(_) => false,
        };
        if said {
            Ok(None)
        } else {
            Ok(Some(ended.shown(alloc)?))
        }
    }
}

/// Whether a reply says what is wanted: no fault, or one with this code at this place.
fn says(alloc: Global, reply: &str, wanted: &str) -> Result<bool, Memory> {
    let parts: Vec<&str> = wanted.split(' ').collect(alloc)?;
    let [_, code, file, span] = parts.as_slice() else {
        return Ok(wanted == "ok" && reply.starts_with("classes "));
    };
    let number = file.parse::<u32>().unwrap_or(0);
    let head = format!(in alloc; "fault {code} ")?;
    let place = format!(in alloc; " f{number:03}.go:{span}\n")?;
    Ok(reply.starts_with(head.as_str()) && reply.ends_with(place.as_str()))
}
