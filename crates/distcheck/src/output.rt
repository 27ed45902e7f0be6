//! Prints.

ghost use Rattle.std.specs.{Prelude.OnOk, Io.KnownBytes.Appends};

use crate::fault::Fault;
use std::io::{self, ErrorKind, Write};

// Writes a text at once.
fn write_flushed<W: Write>(out: &mut W, text: &str) -> io::Result<()>
    ensures { OnOk result (Appends (W.contents out.old) (W.contents out.new) text.now) }
{
    out.write_all(text.as_bytes())?;
    out.flush()?;
    Ok(())
}

/// Prints a text, and flushes.
pub fn print<W: Write>(out: &mut W, text: &str) -> Result<(), Fault>
    ensures { OnOk result (Appends (W.contents out.old) (W.contents out.new) text.now) }
{
    match write_flushed(out, text) {
        Ok(()) => Ok(()),
        Err(error) if error.kind() == ErrorKind::OutOfMemory => Err(Fault::NoMemory),
        Err(_) => Err(Fault::WriteFailed),
    }
}
