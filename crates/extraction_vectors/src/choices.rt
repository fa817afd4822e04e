//! Tables of choices: a number, the files in hexadecimal digits, divided by blanks, windows that are the same, as `FILE:START-END`, the
//! parameters and the results of their extraction, what is neither, and how many comments it drops.
use crate::dropped::dropped;
use crate::nodes::nodes_of;
use crate::packages::package_of;
use crate::plans::{parameters_text, results_text};
use crate::staying::{staying_text, taken_holes};
use crate::windows::windows_in;
use case_tables::folders::numbered;
use case_tables::table::Table;
use clone_window::run::statements;
use go_base::Memory;
use go_typed::checked::Checked;
use go_typed::func::TypedFunc;
use go_typed::window::Window;
use param_choose::choose::choose;
use std::alloc::Global;

/// A table of choices.
pub struct Choices {
    /// Its name.
    pub name: &'static str,
}

impl Table for Choices {
    fn name(&self) -> &'static str {
        self.name
    }

    fn difference(&self, alloc: Global, fields: &[&str]) -> Result<Option<String>, Memory> {
        let [_, texts, windows, wanted @ ..] = fields else {
            return Ok(Some(String::from_str(alloc, "not three fields")?));
        };
        let folder = numbered(alloc, texts)?;
        let said = match package_of(alloc, folder.as_str())? {
            Some(package) => said_of(alloc, package.package(), windows)?,
            None => Vec::from_slice(alloc, b"a fault\n")?,
        };
        compared(alloc, &said, wanted)
    }
}

/// What is said of these windows of a package.
fn said_of(alloc: Global, package: &Checked, windows: &str) -> Result<Vec<u8>, Memory> {
    let Some(members) = windows_in(alloc, package, windows)? else {
        return Ok(Vec::from_slice(alloc, b"no window\n")?);
    };
    if let [template, ..] = members.as_slice() {
        if let Some(func) = package.function(template.func) {
            return written(alloc, package, func, template, &members);
        }
    }
    Ok(Vec::from_slice(alloc, b"no function\n")?)
}

/// What is handed over, what stays and what is dropped, a line for each field.
fn written(
    alloc: Global,
    package: &Checked,
    func: &TypedFunc,
    template: &Window,
    members: &[Window],
) -> Result<Vec<u8>, Memory> {
    let plan = choose(alloc, package, members)?;
    let nodes = nodes_of(alloc, func.root())?;
    let run = statements(func, template);
    let params = plan.params.as_slice();
    let number = template.func;
    let mut out = Vec::new(alloc);
    let parameters = parameters_text(alloc, package, number, &nodes, params)?;
    push_line(parameters.text(), &mut out)?;
    let results = results_text(alloc, package, number, plan.results.as_slice())?;
    push_line(results.text(), &mut out)?;
    let staying = staying_text(alloc, package, number, &nodes, run, &plan)?;
    push_line(staying.text(), &mut out)?;
    let holes = taken_holes(alloc, &nodes, params)?;
    let count = format!(in alloc; "{}", dropped(package, members, &holes))?;
    push_line(count.as_bytes(), &mut out)?;
    Ok(out)
}

/// Puts a line behind the others.
fn push_line(text: &[u8], out: &mut Vec<u8>) -> Result<(), Memory> {
    out.extend_from_slice(text)?;
    Ok(out.push(b'\n')?)
}

/// The lines that are said, if they are not the fields that are wanted.
fn compared(alloc: Global, said: &[u8], wanted: &[&str]) -> Result<Option<String>, Memory> {
    let mut lines = String::new(alloc);
    for field in wanted {
        lines.push_str(field)?;
        lines.push_str("\n")?;
    }
    if said == lines.as_bytes() {
        return Ok(None);
    }
    match std::str::from_utf8(said) {
        Ok(text) => Ok(Some(format!(in alloc; "{text:?}")?)),
        Err(_) => Ok(Some(String::from_str(alloc, "(no text)")?)),
    }
}
