//! Where the texts of results are written.

ghost use Rattle.std.specs.{Prelude.◌≡◌, Prelude.OnOk, Prelude.false, Io.KnownBytes.Appends};
ghost use Rattle.distping_report.specs.Sinks.{Prints};

use distping_words::Fault;
use std::io::{self, ErrorKind, Write};
use std::marker::Model;

/// Where the texts of results are written. Contracts see what its writer holds.
#[derive(Drop)]
pub struct ResultSink<W: Write> {
    writer: W,
    is_closed: bool,
}

impl<W: Write> Model for ResultSink<W> {
    ghost use Rattle.distping_report.specs.Sinks.{SinkState};

    ghost Value = { SinkState };

    ghost view = { λ s. record { contents = W.contents s.writer; is_closed = s.is_closed } };
}

// Writes a text at once.
fn write_flushed<W: Write>(writer: &mut W, text: &str) -> io::Result<()>
    ensures { OnOk result (Appends (W.contents writer.old) (W.contents writer.new) text.now) }
{
    writer.write_all(text.as_bytes())?;
    writer.flush()?;
    Ok(())
}

impl<W: Write> ResultSink<W> {
    /// Texts are written to this writer.
    pub fn new(writer: W) -> ResultSink<W>
        ensures { result ≡ record { contents = W.contents writer; is_closed = false } }
    {
        ResultSink {
            writer,
            is_closed: false,
        }
    }

    /// Whether the reader of the output closed it before a text was written.
    pub fn is_closed(&self) -> bool
        ensures { result ≡ self.now.is_closed }
    {
        self.is_closed
    }

    /// Writes a text, and flushes it. It is no fault that nobody reads it: a run goes on to its verdict.
    pub fn print(&mut self, text: &str) -> Result<(), Fault>
        ensures { OnOk result (Prints text.now self.old self.new) }
    {
        match write_flushed(&mut self.writer, text) {
            Ok(()) => Ok(()),
            Err(error) if error.kind() == ErrorKind::BrokenPipe => {
                self.is_closed = true;
                Ok(())
            }
            Err(error) => Err(error.into()),
        }
    }
}
