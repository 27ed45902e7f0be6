//! Forms of names: a host alone, and a name without its host.
ghost use Rattle.std.specs.Prelude.{◌≡◌, ◌==◌, [], length, OnOk, OnErr};
ghost use Rattle.dist_names.specs.{Answer.AnswersName, Order.is_listed};
ghost use Rattle.dist_core_setup.specs.Changing.{with_name, without_name};
ghost use Rattle.dist_c_guest.specs.Forms.{form_of_text, has_form, stand_for};

use crate::reading::parts_at;
use dist_names::{ByteString, NameError, NodeName, are_visible, is_same_text, short_part};
use std::alloc::{AllocError, Global};
use std::marker::Model;

// The longest host, and the longest name without its host: each stands in a name beside an `@` and one byte at least.
const LONGEST: usize = 253;

/// Whether a text is a host alone, without an `@`, or a name without its host, whose last byte is its only `@`.
pub fn has_form(text: &[u8]) -> bool
    ensures { result ≡ has_form text.now }
{
    text.len() <= short_part(text).len() + 1
}

/// A text that has a form, to be kept: its host or its name has 1 to 253 bytes, each of which may stand in a name.
///
/// Refused as `TooShort`, `TooLong`, `BadByte`, then `NoMemory`.
pub fn form_of(alloc: Global, text: &[u8]) -> Result<ByteString, NameError>
    ensures { AnswersName result (form_of_text text.now) }
{
    let part = short_part(text);
    if part.is_empty() {
        return Err(NameError::TooShort);
    }
    if part.len() > LONGEST {
        return Err(NameError::TooLong);
    }
    if !are_visible(text) {
        return Err(NameError::BadByte);
    }
    match ByteString::from_slice(alloc, text) {
        Ok(form) => Ok(form),
        Err(_) => Err(NameError::NoMemory),
    }
}

/// Forms that are kept beside a node: each stands for all names that have it.
#[derive(Drop)]
pub struct Forms {
    texts: Vec<ByteString>,
}

impl Model for Forms {
    ghost use Rattle.std.specs.Prelude.{List, ℕ};

    ghost Value = { List (List ℕ) };

    ghost view = { λ f. f.texts.items };
}

impl Forms {
    /// None. It takes no memory.
    pub fn none(alloc: Global) -> Forms
        ensures { result ≡ [] }
    {
        Forms {
            texts: Vec::new(alloc),
        }
    }

    /// Whether there are none.
    pub fn is_empty(&self) -> bool
        ensures { result ≡ (length self.now == 0) }
    {
        self.texts.is_empty()
    }

    /// Whether one with these bytes is among them.
    pub fn lists(&self, text: &[u8]) -> bool
        ensures { result ≡ is_listed self.now text.now }
    {
        self.texts
            .iter()
            .any(|one| is_same_text(text, one.as_slice()))
    }

    /// Adds a form, where it isn't among them yet. Where memory runs out they stay as they were.
    pub fn add(&mut self, form: ByteString) -> Result<(), AllocError>
        ensures ok { OnOk result (self.new ≡ with_name self.old form) }
        ensures err { OnErr result (self.new ≡ self.old) }
    {
        if self.lists(form.as_slice()) {
            return Ok(());
        }
        self.texts.push(form)?;
        Ok(())
    }

    /// Takes a form out, where it is among them. It takes no memory.
    pub fn remove(&mut self, form: &[u8])
        ensures { self.new ≡ without_name self.old form.now }
    {
        self.texts.retain(|one| !is_same_text(form, one.as_slice()));
    }

    /// Whether one of them stands for this name: its host is one, or it itself up to its `@`.
    pub fn stand_for(&self, name: &NodeName) -> bool
        ensures { result ≡ stand_for self.now name.now }
    {
        let (short, _) = parts_at(name.bytes(), name.short().len() + 1);
        self.lists(name.host()) || self.lists(short)
    }
}
