//! Windows by their bytes.
use clone_window::span::{FunctionPlace, TokenRange, function_places, span_at_place};
use go_base::Memory;
use go_tree::file::File;
use go_typed::checked::Checked;
use go_typed::lists::StatementLists;
use go_typed::node::TypedNode;
use go_typed::window::Window;
use std::alloc::{AllocError, Global};
use std::collections::HashMap;

/// Where a statement stands.
#[derive(Clone, Copy, Debug, PartialEq, Eq)]
struct StatementPlace {
    /// The number of its function.
    func: u32,
    /// The number of its statement list in the function.
    list: u32,
    /// Its place in the list.
    index: u32,
}

/// The statements of a package by the byte of a file at which each begins, and by the one at which it ends. No other statement of a
/// statement list begins there, or ends there.
#[derive(Drop)]
pub struct Statements {
    starts: HashMap<(u32, u32), StatementPlace>,
    ends: HashMap<(u32, u32), StatementPlace>,
}

impl Statements {
    /// The statements of a package. Each statement list is looked at once.
    ///
    /// # Errors
    ///
    /// Want of memory.
    pub fn of(alloc: Global, package: &Checked) -> Result<Statements, Memory> {
        let places = function_places(alloc, package.files())?;
        let mut statements = Statements {
            starts: HashMap::new(alloc),
            ends: HashMap::new(alloc),
        };
        for func in package.functions() {
            if let Some(place) = places.get(func.number() as usize) {
                let lists = StatementLists::of(alloc, func.root())?;
                statements.add_lists(package.files(), *place, func.number(), &lists)?;
            }
        }
        Ok(statements)
    }

    /// Adds the statements of the statement lists of a function.
    fn add_lists(
        &mut self,
        files: &[File],
        place: FunctionPlace,
        func: u32,
        lists: &StatementLists<'_>,
    ) -> Result<(), AllocError> {
        let mut list: u32 = 0;
        for number in 0..lists.count() {
            if let Some(node) = lists.get(number) {
                self.add_list(files, place, func, list, node)?;
            }
            list = list.saturating_add(1);
        }
        Ok(())
    }

    /// Adds the statements of one statement list.
    fn add_list(
        &mut self,
        files: &[File],
        place: FunctionPlace,
        func: u32,
        list: u32,
        node: &TypedNode,
    ) -> Result<(), AllocError> {
        let ahead = node.form.values_count() as usize;
        let mut index: u32 = 0;
        for part in node.parts.iter().skip(ahead) {
            if let Some(statement) = part {
                let at = StatementPlace { func, list, index };
                self.add(files, place, at, statement)?;
            }
            index = index.saturating_add(1);
        }
        Ok(())
    }

    /// Adds a statement.
    fn add(
        &mut self,
        files: &[File],
        place: FunctionPlace,
        at: StatementPlace,
        statement: &TypedNode,
    ) -> Result<(), AllocError> {
        let range = TokenRange {
            from: statement.first,
            to: statement.last,
        };
        if let Some(span) = span_at_place(files, place, range) {
            self.starts.insert((span.file, span.start), at)?;
            self.ends.insert((span.file, span.end), at)?;
        }
        Ok(())
    }

    /// The window over these bytes of the file of this number, if there is one.
    pub fn window(&self, place: BytePlace) -> Option<Window> {
        let first = self.starts.get(&(place.file, place.start))?;
        let last = self.ends.get(&(place.file, place.end))?;
        if first.func != last.func || first.list != last.list || last.index < first.index {
            return None;
        }
        Some(Window {
            func: first.func,
            list: first.list,
            first: first.index,
            count: (last.index - first.index).saturating_add(1),
        })
    }
}

/// Bytes of a file.
#[derive(Clone, Copy, Debug, PartialEq, Eq)]
pub struct BytePlace {
    /// The number of the file.
    pub file: u32,
    /// The offset of the first one.
    pub start: u32,
    /// The offset behind the last one.
    pub end: u32,
}

/// The place that a table writes as `FILE:START-END`.
pub fn place_in(text: &str) -> BytePlace {
    let (file, bytes) = match text.split_once(':') {
        Some((file, bytes)) => (file, bytes),
        None => (text, ""),
    };
    let (start, end) = match bytes.split_once('-') {
        Some((start, end)) => (start, end),
        None => (bytes, ""),
    };
    BytePlace {
        file: number(file),
        start: number(start),
        end: number(end),
    }
}

/// The number that a text is, and 0 where it is none.
fn number(text: &str) -> u32 {
    text.parse::<u32>().unwrap_or(0)
}

/// The windows over these places, divided by blanks; nothing where one of them is no window.
///
/// # Errors
///
/// Want of memory.
pub fn windows_in(
    alloc: Global,
    package: &Checked,
    texts: &str,
) -> Result<Option<Vec<Window>>, Memory> {
    let statements = Statements::of(alloc, package)?;
    let mut windows = Vec::new(alloc);
    for text in texts.split(' ') {
        match statements.window(place_in(text)) {
            Some(window) => windows.push(window)?,
            None => return Ok(None),
        }
    }
    Ok(Some(windows))
}
