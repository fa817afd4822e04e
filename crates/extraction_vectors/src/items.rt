//! Lists as tables write them.
use std::alloc::{AllocError, Global};

/// A text of items with `, ` between them, and `-` for none.
#[derive(Drop)]
pub struct Items {
    text: Vec<u8>,
}

impl Items {
    /// No items.
    pub fn new(alloc: Global) -> Items {
        Items {
            text: Vec::new(alloc),
        }
    }

    /// Begins an item with a word.
    pub fn begin(&mut self, word: &[u8]) -> Result<(), AllocError> {
        if !self.text.is_empty() {
            self.text.extend_from_slice(b", ")?;
        }
        self.text.extend_from_slice(word)
    }

    /// Adds a further word to the last item.
    pub fn add(&mut self, word: &[u8]) -> Result<(), AllocError> {
        self.text.push(b' ')?;
        self.text.extend_from_slice(word)
    }

    /// The whole text.
    pub fn text(&self) -> &[u8] {
        if self.text.is_empty() {
            b"-"
        } else {
            self.text.as_slice()
        }
    }
}
