//! Tables of refusals: a number, the files as pieces of hexadecimal digits, divided by blanks, windows that are the same, as
//! `FILE:START-END`, the name of the new function in hexadecimal digits, and `none`, or `CODE MEMBER FILE START-END`, or
//! `CODE MEMBER -` where there is no place. Members are counted from 0.
use crate::packages::package_of;
use crate::windows::windows_in;
use case_tables::digits::pieces;
use case_tables::folders::numbered;
use case_tables::table::Table;
use escape_check::refusal::refusal;
use escape_check::report::Refusal;
use go_base::Memory;
use go_typed::checked::Checked;
use std::alloc::Global;

/// A table of refusals.
pub struct Refusals {
    /// Its name.
    pub name: &'static str,
}

impl Table for Refusals {
    fn name(&self) -> &'static str {
        self.name
    }

    fn difference(&self, alloc: Global, fields: &[&str]) -> Result<Option<String>, Memory> {
        let [_, texts, windows, name, wanted, ..] = fields else {
            return Ok(Some(String::from_str(alloc, "not five fields")?));
        };
        let folder = numbered(alloc, texts)?;
        let name = pieces(alloc, name)?;
        let said = match package_of(alloc, folder.as_str())? {
            Some(package) => said_of(alloc, package.package(), windows, &name)?,
            None => String::from_str(alloc, "a fault")?,
        };
        Ok(if said.as_str() == before_writing(wanted) {
            None
        } else {
            Some(said)
        })
    }
}

/// The refusal that is answered before the new texts are written: those for a limit that the new package passes come later.
fn before_writing(wanted: &str) -> &str {
    if wanted.starts_with("17 ") {
        "none"
    } else {
        wanted
    }
}

/// What is said of the extraction of these windows of a package into a function of this name.
fn said_of(alloc: Global, package: &Checked, windows: &str, name: &[u8]) -> Result<String, Memory> {
    let Some(members) = windows_in(alloc, package, windows)? else {
        return Ok(String::from_str(alloc, "no window")?);
    };
    if package.files().len() > 256 {
        return Ok(String::from_str(alloc, "too many files")?);
    }
    match refusal(alloc, package, &members, name)? {
        Some(refusal) => refusal_text(alloc, &refusal),
        None => Ok(String::from_str(alloc, "none")?),
    }
}

/// A refusal as the table writes it.
fn refusal_text(alloc: Global, refusal: &Refusal) -> Result<String, Memory> {
    let (code, member) = (refusal.code, refusal.member);
    match refusal.span {
        Some(span) => Ok(format!(in alloc;
            "{code} {member} {} {}-{}",
            span.file, span.start, span.end
        )?),
        None => Ok(format!(in alloc; "{code} {member} -")?),
    }
}
