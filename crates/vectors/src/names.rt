//! Tables of packages: a number, the files in hexadecimal digits, divided by blanks, and `ok` or the fault of the names.
use case_tables::digits::bytes_of;
use case_tables::table::Table;
use go_base::{Fault, Memory};
use go_parse::{ParseError, parse};
use go_scopes::error::ResolveError;
use go_scopes::resolve::resolve;
use go_tokens::error::LexError;
use go_tokens::lex::lex;
use go_tree::file::File;
use std::alloc::Global;

/// The bytes of the longest file.
const LONGEST: usize = 1_048_576;

/// A table of packages.
pub struct Names {
    /// Its name.
    pub name: &'static str,
}

impl Table for Names {
    fn name(&self) -> &'static str {
        self.name
    }

    fn difference(&self, alloc: Global, fields: &[&str]) -> Result<Option<String>, Memory> {
        let [_, texts, wanted] = fields else {
            return Ok(Some(String::from_str(alloc, "not three fields")?));
        };
        let got = answer(alloc, texts)?;
        if got.as_str() == *wanted {
            Ok(None)
        } else {
            Ok(Some(got))
        }
    }
}

/// The file of this number, or none where it has no tree.
fn file_of(alloc: Global, number: u32, text: &str) -> Result<Option<File>, Memory> {
    let bytes = bytes_of(alloc, text)?;
    if bytes.len() > LONGEST {
        return Ok(None);
    }
    let tokens = match lex(alloc, number, &bytes) {
        Ok(tokens) => tokens,
        Err(LexError::Fault(_)) => return Ok(None),
        Err(LexError::Memory) => return Err(Memory),
    };
    match parse(alloc, &tokens) {
        Ok(file) => Ok(Some(file)),
        Err(ParseError::Fault(_)) => Ok(None),
        Err(ParseError::Memory) => Err(Memory),
    }
}

/// What the package's names mean or lack, as the table writes it.
fn answer(alloc: Global, texts: &str) -> Result<String, Memory> {
    let mut files = Vec::new(alloc);
    let mut number = 0u32;
    for text in texts.split(' ') {
        match file_of(alloc, number, text)? {
            Some(file) => files.push(file)?,
            None => return Ok(String::from_str(alloc, "no tree")?),
        }
        number = number.saturating_add(1);
    }
    if files.len() > 256 {
        return Ok(String::from_str(alloc, "too many files")?);
    }
    match resolve(alloc, &files) {
        Ok(_) => Ok(String::from_str(alloc, "ok")?),
        Err(ResolveError::Fault(fault)) => shown(alloc, fault),
        Err(ResolveError::Memory) => Err(Memory),
    }
}

fn shown(alloc: Global, fault: Fault) -> Result<String, Memory> {
    let (code, span) = (fault.code.number(), fault.span);
    let text = format!(in alloc; "fault {code} {} {}-{}", span.file, span.start, span.end)?;
    Ok(text)
}
