//! A page in memory. If several nodes are dialled at once, the lines of one wait here until all before them are printed.

use std::alloc::{AllocError, Global};
use std::cell::Cell;

/// A page of text. It can be written through a shared reference, like the screen.
#[derive(Drop)]
pub struct Page {
    // Where memory for the text comes from.
    alloc: Global,
    text: Cell<String>,
}

impl Page {
    /// A page without text.
    pub fn new(alloc: Global) -> Page {
        Page {
            alloc,
            text: Cell::new(String::new(alloc)),
        }
    }

    /// Appends a text. If memory runs out, the page stays as it was.
    pub fn push(&self, text: &str) -> Result<(), AllocError> {
        let mut all = self.text.replace(String::new(self.alloc));
        let put = all.push_str(text);
        self.text.set(all);
        put
    }

    /// Its text.
    pub fn into_text(self) -> String {
        self.text.into_inner()
    }
}
