//! Tables of files: a name, a file in hexadecimal digits (`-` for none), and `tree`, its tree written out, or its fault.

ghost use Rattle.std.specs.Prelude.{◌≤◌, length};

use case_tables::digits::bytes_of;
use case_tables::table::Table;
use go_base::Memory;
use go_parse::{ParseError, parse};
use go_tokens::error::LexError;
use go_tokens::lex::lex;
use go_tree::file::File;
use std::alloc::Global;

/// The bytes of the longest file.
const LONGEST: usize = 1_048_576;

/// A table of files.
pub struct Parsing {
    /// Its name.
    pub name: &'static str,
}

impl Table for Parsing {
    fn name(&self) -> &'static str {
        self.name
    }

    fn difference(&self, alloc: Global, fields: &[&str]) -> Result<Option<String>, Memory> {
        let [_, text, wanted] = fields else {
            return Ok(Some(String::from_str(alloc, "not three fields")?));
        };
        let bytes = bytes_of(alloc, text)?;
        if bytes.len() > LONGEST {
            return Ok(Some(String::from_str(alloc, "too long")?));
        }
        let got = answer(alloc, &bytes, *wanted != "tree")?;
        if got.as_str() == *wanted {
            Ok(None)
        } else {
            Ok(Some(got))
        }
    }
}

/// The file's tree, which is written out or not, or its fault, as the table writes it.
fn answer(alloc: Global, bytes: &[u8], is_whole: bool) -> Result<String, Memory>
    requires { length bytes.now ≤ 1048576 }
{
    let fault = match lex(alloc, 0, bytes) {
        Ok(tokens) => match parse(alloc, &tokens) {
            Ok(file) => return written(alloc, &file, is_whole),
            Err(ParseError::Fault(fault)) => fault,
            Err(ParseError::Memory) => return Err(Memory),
        },
        Err(LexError::Fault(fault)) => fault,
        Err(LexError::Memory) => return Err(Memory),
    };
    Ok(format!(in alloc; "fault {}", fault.code.number())?)
}

/// The word for a file that has a tree, or the tree.
fn written(alloc: Global, file: &File, is_whole: bool) -> Result<String, Memory> {
    if is_whole {
        Ok(format!(in alloc; "{:?}", file.root())?)
    } else {
        Ok(String::from_str(alloc, "tree")?)
    }
}
