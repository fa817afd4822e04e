//! The table `maximal`: a number, the two options, the files, and the reply to `maximal` with `; ` for each newline but the last.
use crate::listings::lines;
use crate::sessions::Session;
use case_tables::table::Table;
use go_base::Memory;
use std::alloc::Global;

pub struct Maximal;

impl Table for Maximal {
    fn name(&self) -> &'static str {
        "maximal"
    }

    fn difference(&self, alloc: Global, fields: &[&str]) -> Result<Option<String>, Memory> {
        let [_, min, mass, folder, reply, ..] = fields else {
            return Ok(Some(String::from_str(alloc, "not five fields")?));
        };
        let words = format!(in alloc; "--min {min} --mass {mass} d")?;
        let session = Session {
            words: words.as_str(),
            failing: "-",
            folder,
            script: Vec::from_slice(alloc, b"maximal\n")?,
        };
        let ended = session.ended(alloc)?;
        if ended.status == 0 && ended.written.as_slice() == lines(alloc, reply)?.as_bytes() {
            Ok(None)
        } else {
            Ok(Some(ended.shown(alloc)?))
        }
    }
}
