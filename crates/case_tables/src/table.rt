//! Tables of cases: one case a line, its fields divided by tabs. A line that begins with `#` is a
//! comment.
use anyhow::Result;
use go_base::Memory;
use std::alloc::Global;
use std::io::ErrorKind;
use std::rt::Files;
use std::{fs, io};

/// A table of cases.
pub trait Table {
    /// The table's name. Its file has the ending `.tsv`.
    fn name(&self) -> &'static str;

    /// What is wrong in a case with these fields, or nothing.
    ///
    /// # Errors
    ///
    /// Want of memory.
    fn difference(&self, alloc: Global, fields: &[&str]) -> Result<Option<String>, Memory>;
}

/// Tries each case of the table, prints each difference, and then how many cases agree.
///
/// # Errors
///
/// A file that can't be read, a line that can't be written, or want of memory.
pub fn run<T: Table>(rt: &HostRuntime, table: &T) -> Result<()> {
    let path = format!(in rt.alloc(); "{}.tsv", table.name())?;
    let text = match fs::read_to_string(rt, path.as_str()) {
        Ok(text) => text,
        Err(error) if error.kind() == ErrorKind::NotFound => return Ok(()),
        Err(error) => return Err(error.into()),
    };
    let mut agreed = 0u64;
    let mut cases = 0u64;
    for line in text.lines() {
        if line.is_empty() || line.starts_with('#') {
            continue;
        }
        cases = cases.saturating_add(1);
        match difference_in(rt.alloc(), table, line)? {
            None => agreed = agreed.saturating_add(1),
            Some(difference) => println!(rt; "{}: {line}: {difference}", table.name())?,
        }
    }
    println!(rt; "{} {agreed} of {cases}", table.name())?;
    Ok(())
}

fn difference_in<T: Table>(alloc: Global, table: &T, line: &str) -> Result<Option<String>, Memory> {
    let fields: Vec<&str> = line.split('\t').collect(alloc)?;
    table.difference(alloc, fields.as_slice())
}
