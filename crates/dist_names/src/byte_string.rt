ghost use Rattle.std.specs.Prelude.{◌≡◌, ◌↔◌, ◌++◌, ◌==◌, [], length, IfOk, IsOk, IsTrue, OnOk, OnErr};
ghost use Rattle.std.specs.Cmp.{Rules.comparing, Lexicographic.pointwise};
ghost use Rattle.std.proofs.Common.{rules};

use std::alloc::{AllocError, Global};
use std::marker::Model;

/// A row of bytes as it came or as it is sent: a name that nobody has checked, a text, the body of a frame.
///
/// Contracts see it as the list of its bytes, so that values that hold one are compared by what they say.
#[derive(Debug, Drop)]
pub struct ByteString {
    bytes: Vec<u8>,
}

impl Model for ByteString {
    ghost use Rattle.std.specs.Prelude.{ℕ, List};

    ghost Value = { List ℕ };

    ghost view = { λ n. n.bytes.items };
}

impl ByteString {
    /// No bytes. It takes no memory.
    pub fn new(alloc: Global) -> ByteString
        ensures { result ≡ [] }
    {
        ByteString {
            bytes: Vec::new(alloc),
        }
    }

    /// The row of these bytes. It takes no memory.
    pub fn from_vec(bytes: Vec<u8>) -> ByteString
        ensures { result ≡ bytes.items }
    {
        ByteString { bytes }
    }

    /// A row of a copy of these bytes.
    pub fn from_slice(alloc: Global, bytes: &[u8]) -> Result<ByteString, AllocError>
        ensures { IfOk result (λ row. row ≡ bytes.now) }
    {
        Ok(ByteString {
            bytes: Vec::from_slice(alloc, bytes)?,
        })
    }

    /// Its bytes.
    pub fn as_slice(&self) -> &[u8]
        ensures { result.now ≡ self.now }
    {
        &self.bytes
    }

    /// How many bytes it has.
    pub fn len(&self) -> usize
        ensures { result ≡ length self.now }
    {
        self.bytes.len()
    }

    /// Whether it has no bytes.
    pub fn is_empty(&self) -> bool
        ensures { result ≡ (length self.now == 0) }
    {
        self.bytes.is_empty()
    }

    /// Its bytes, given back. It takes no memory.
    pub fn into_vec(self) -> Vec<u8>
        ensures { result.items ≡ self }
    {
        let ByteString { bytes } = self;
        bytes
    }

    /// Appends these bytes. An `Err` changes nothing.
    pub fn append(&mut self, more: &[u8]) -> Result<(), AllocError>
        ensures ok { OnOk result (self.new ≡ self.old ++ more.now) }
        ensures err { OnErr result (self.new ≡ self.old) }
    {
        self.bytes.extend_from_slice(more)?;
        Ok(())
    }

    /// An equal row. That of no bytes takes no memory.
    pub fn try_clone(&self, alloc: Global) -> Result<ByteString, AllocError>
        ensures same { IfOk result (λ copy. copy ≡ self.now) }
        ensures empty { self.now ≡ [] → IsOk result }
    {
        if self.bytes.is_empty() {
            return Ok(ByteString::new(alloc));
        }
        ByteString::from_slice(alloc, &self.bytes)
    }

    /// Whether the two rows have the same bytes.
    pub fn is_same(&self, other: &ByteString) -> bool
        ensures computed { result ≡ pointwise ◌==◌ self.now other.now }
        ensures each { IsTrue result ↔ (self.now ≡ other.now) }
    {
        self.as_slice() == other.as_slice()
    }
}

impl PartialEq for ByteString {
    ghost eq = { pointwise ◌==◌ };

    ghost laws = { Prim.search (comparing, rules) };

    fn eq(&self, other: &ByteString) -> bool {
        self.is_same(other)
    }
}

impl Eq for ByteString {
    ghost laws = { Prim.search (comparing, rules) };
}
