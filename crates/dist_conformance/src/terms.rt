//! What the `$` words of rows stand for.

use crate::faults::ReadFault;
use crate::texts::split;
use std::alloc::{AllocError, Global};

/// What a suite is played against, as texts.
#[derive(Clone, Copy)]
pub struct SuiteNames<'a> {
    /// The node under test, by its full name: what `$node` stands for.
    pub node: &'a [u8],
    /// The host of the names that talks use: `$host`. It is that of the node.
    pub host: &'a [u8],
    /// A word in the talks' names, which keeps two suites apart that are played at once, or nothing.
    pub tag: &'a [u8],
    /// The port of the port mapper under test, in digits: `$mapper`.
    pub mapper: &'a [u8],
}

/// What the words stand for in one talk.
#[derive(Clone, Copy)]
pub struct TalkTerms<'a> {
    /// Where what is read takes its memory.
    pub alloc: Global,
    /// The talk's own short name: `$short`.
    pub short: &'a [u8],
    /// What is the same in all talks.
    pub names: SuiteNames<'a>,
    /// The word of the family, and `$` where the row is none: no word has that byte.
    pub variable: &'a [u8],
    /// What it stands for in this talk.
    pub value: &'a [u8],
}

impl<'a> TalkTerms<'a> {
    // The first word of a row's vocabulary with which a text begins, by what it stands for, and what stands behind it.
    fn fill<'t>(&self, text: &'t [u8]) -> Option<(&'a [u8], &'t [u8])> {
        let table: [(&[u8], &'a [u8]); 5] = [
            (b"short", self.short),
            (b"host", self.names.host),
            (b"node", self.names.node),
            (b"mapper", self.names.mapper),
            (self.variable, self.value),
        ];
        for (word, value) in &table {
            if let Some(rest) = text.strip_prefix(*word) {
                return Some((*value, rest));
            }
        }
        None
    }

    /// The full name that the talk says. It fails only where memory runs out.
    pub fn own_name(&self) -> Result<Vec<u8>, AllocError> {
        let mut name = Vec::from_slice(self.alloc, self.short)?;
        name.push(b'@')?;
        name.extend_from_slice(self.names.host)?;
        Ok(name)
    }

    /// A text for this talk: each word behind a `$` replaced by what it stands for. It is bad where one stands for nothing.
    pub fn expand(&self, text: &[u8]) -> Result<Vec<u8>, ReadFault> {
        let parts = split(self.alloc, text, b'$')?;
        let mut whole = Vec::new(self.alloc);
        let mut is_first = true;
        for part in &parts {
            let (value, rest) = if is_first {
                (b"" as &[u8], *part)
            } else {
                self.fill(*part).ok_or(ReadFault::Bad)?
            };
            is_first = false;
            whole.extend_from_slice(value)?;
            whole.extend_from_slice(rest)?;
        }
        Ok(whole)
    }
}
