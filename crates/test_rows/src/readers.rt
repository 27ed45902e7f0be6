//! A reader that fails.

use std::io;
use std::io::{Error, ErrorKind, Read};

/// Reads a text by a list of calls, repeats the last forever, and counts them. A call is the most bytes that it gives; or `E`,
/// the end; or a failure: `I` interrupted, `W` would block, `U` unexpected end, `F` other.
#[derive(Drop)]
pub struct Scripted<'t> {
    /// What is not read yet.
    pub text: &'t [u8],
    /// The calls to come, joined by commas.
    pub calls: &'t str,
    /// How many calls were made.
    pub reads: u64,
}

// The most bytes that a call gives, none at the end, or how it fails.
fn most_of(call: &str) -> Result<usize, ErrorKind> {
    match call.as_bytes().first() {
        Some(b'F') => Err(ErrorKind::Other),
        Some(b'I') => Err(ErrorKind::Interrupted),
        Some(b'W') => Err(ErrorKind::WouldBlock),
        Some(b'U') => Err(ErrorKind::UnexpectedEof),
        _ => Ok(call.parse::<usize>().unwrap_or(0)),
    }
}

impl Read for Scripted<'_> {
    fn read(&mut self, buf: &mut [u8]) -> io::Result<usize> {
        self.reads = self.reads.saturating_add(1);
        let calls = self.calls;
        let (call, rest) = calls.split_once(',').unwrap_or((calls, calls));
        self.calls = rest;
        match most_of(call) {
            Ok(most) => {
                let n = most.min(buf.len()).min(self.text.len());
                buf[..n].copy_from_slice(&self.text[..n]);
                self.text = &self.text[n..];
                Ok(n)
            }
            Err(kind) => Err(Error::from(kind)),
        }
    }
}
