//! The table `scripts`: a number, words, which call fails, the folder, the script, and then the status, what is written and
//! the folder afterwards. Long bytes are pieces divided by `+`.
use crate::sessions::Session;
use case_tables::digits::pieces;
use case_tables::table::Table;
use go_base::Memory;
use std::alloc::Global;

/// A table of sessions.
pub struct Scripts {
    /// Its name.
    pub name: &'static str,
}

impl Table for Scripts {
    fn name(&self) -> &'static str {
        self.name
    }

    fn difference(&self, alloc: Global, fields: &[&str]) -> Result<Option<String>, Memory> {
        let [
            _,
            words,
            failing,
            folder,
            script,
            status,
            written,
            after,
            ..
        ] = fields
        else {
            return Ok(Some(String::from_str(alloc, "not eight fields")?));
        };
        let session = Session {
            words,
            failing,
            folder,
            script: pieces(alloc, script)?,
        };
        let ended = session.ended(alloc)?;
        let wanted = pieces(alloc, written)?;
        let files = if *after == "same" { *folder } else { *after };
        let is_status = status.parse::<u8>().ok() == Some(ended.status);
        if is_status
            && ended.written.as_slice() == wanted.as_slice()
            && ended.holds(alloc, words, files)?
        {
            Ok(None)
        } else {
            Ok(Some(ended.shown(alloc)?))
        }
    }
}
