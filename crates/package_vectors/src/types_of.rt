//! The tables of types: a number, the files in hexadecimal digits, divided by blanks, and a field for each variable and constant that is
//! not blank and no parameter, in the order of files and places: `var NAME TYPE` or `const NAME TYPE = VALUE`, with `local `
//! before it in a function. In some of them the fields tell of the last file alone.
use crate::declared_names::{declared_names, last_names};
use crate::packages::package_of;
use case_tables::folders::numbered;
use case_tables::table::Table;
use go_base::Memory;
use std::alloc::Global;

/// A table of types.
pub struct TypesOf {
    /// Its name.
    pub name: &'static str,
    /// Whether its fields tell of the last file alone.
    pub of_last: bool,
}

impl Table for TypesOf {
    fn name(&self) -> &'static str {
        self.name
    }

    fn difference(&self, alloc: Global, fields: &[&str]) -> Result<Option<String>, Memory> {
        let [_, texts, wanted @ ..] = fields else {
            return Ok(Some(String::from_str(alloc, "not two fields")?));
        };
        let folder = numbered(alloc, texts)?;
        let Some(package) = package_of(alloc, folder.as_str())? else {
            return Ok(Some(String::from_str(alloc, "a fault")?));
        };
        let names = if self.of_last {
            last_names(alloc, package.package())?
        } else {
            declared_names(alloc, package.package())?
        };
        compared(alloc, &names, wanted)
    }
}

/// The lines of the names, if they are not those that are wanted.
fn compared(alloc: Global, names: &[u8], wanted: &[&str]) -> Result<Option<String>, Memory> {
    let mut lines = String::new(alloc);
    for line in wanted {
        lines.push_str(line)?;
        lines.push_str("\n")?;
    }
    if names == lines.as_bytes() {
        return Ok(None);
    }
    match std::str::from_utf8(names) {
        Ok(text) => Ok(Some(format!(in alloc; "{text:?}")?)),
        Err(_) => Ok(Some(String::from_str(alloc, "(no text)")?)),
    }
}
