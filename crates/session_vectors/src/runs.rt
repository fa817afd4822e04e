//! A table of runs: a number, the files in hexadecimal digits, divided by blanks, the input, the turns, the outcome, and the output.
use crate::sessions::Session;
use case_tables::digits::pieces;
use case_tables::folders::numbered;
use case_tables::table::Table;
use go_base::Memory;
use std::alloc::Global;

/// A table of runs.
pub struct Runs {
    /// Its name.
    pub name: &'static str,
}

impl Table for Runs {
    fn name(&self) -> &'static str {
        self.name
    }

    fn difference(&self, alloc: Global, fields: &[&str]) -> Result<Option<String>, Memory> {
        let [_, texts, input, turns, outcome, output, ..] = fields else {
            return Ok(Some(String::from_str(alloc, "not six fields")?));
        };
        let folder = numbered(alloc, texts)?;
        let input = pieces(alloc, input)?;
        let session = Session {
            words: "d",
            failing: "-",
            folder: folder.as_str(),
            script: command(alloc, turns, &input)?,
        };
        let ended = session.ended(alloc)?;
        let wanted = reply(alloc, outcome, output)?;
        if ended.status == 0 && ended.written.as_slice() == wanted.as_slice() {
            Ok(None)
        } else {
            Ok(Some(ended.shown(alloc)?))
        }
    }
}

/// The command that runs a package.
fn command(alloc: Global, turns: &str, input: &[u8]) -> Result<Vec<u8>, Memory> {
    let line = format!(in alloc; "run {turns} {}\n", input.len())?;
    let mut bytes = Vec::from_slice(alloc, line.as_bytes())?;
    bytes.extend_from_slice(input)?;
    bytes.push(b'\n')?;
    Ok(bytes)
}

/// The reply to it: the outcome with the length of the output, and the output; a package without `main` has a line alone.
fn reply(alloc: Global, outcome: &str, output: &str) -> Result<Vec<u8>, Memory> {
    if outcome.starts_with("no run") {
        let line = format!(in alloc; "{outcome}\n")?;
        return Ok(Vec::from_slice(alloc, line.as_bytes())?);
    }
    let output = pieces(alloc, output)?;
    let line = format!(in alloc; "{outcome} {}\n", output.len())?;
    let mut bytes = Vec::from_slice(alloc, line.as_bytes())?;
    bytes.extend_from_slice(&output)?;
    bytes.push(b'\n')?;
    Ok(bytes)
}
