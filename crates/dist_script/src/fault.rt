//! What stops the playing of a script before its end, and how that is reported.

ghost use Rattle.std.specs.Prelude.{◌≡◌, ◌++◌, IsOk, IfErr, OnOk};
ghost use Rattle.dist_script.specs.{Fault.status_of, Fault.fault_text, Fault.fault_line, Texts.text_of, Texts.PutsFront};
ghost use Rattle.dist_script.specs.declared.fault.ScriptFault.TheVariants.{NoMemory, WriteFailed};

use crate::pieces::{Piece, put};
use std::alloc::AllocError;
use std::io::{self, Write};
use thiserror::Error;

/// What stops the playing of a script. Its `Display` comes after `distnode: ` on standard error.
#[derive(Clone, Copy, Debug, Error)]
pub enum ScriptFault {
    /// The script has more than 1,048,576 bytes.
    #[error("script too long")]
    TooLong,
    /// This line, counted from 1 over all lines, is not a line of a script.
    #[error("bad line {0}")]
    BadLine(usize),
    /// No line of the script sets up a node.
    #[error("no node")]
    NoNode,
    /// Two lines of the script set up nodes with one name.
    #[error("same name")]
    SameName,
    /// The input could not be read.
    #[error("ReadFailed")]
    ReadFailed,
    /// The output could not be written.
    #[error("WriteFailed")]
    WriteFailed,
    /// Out of memory.
    #[error("NoMemory")]
    NoMemory,
}

// The words for a fault; those of a bad line have its number after them.
fn message(fault: ScriptFault) -> (Piece<'static>, Piece<'static>)
    ensures { text_of result.0 ++ text_of result.1 ≡ fault_text fault }
{
    match fault {
        ScriptFault::BadLine(number) => (Piece::Text(b"bad line "), Piece::Number(number as u64)),
        ScriptFault::TooLong => (Piece::Text(b"script too long"), Piece::Text(b"")),
        ScriptFault::NoNode => (Piece::Text(b"no node"), Piece::Text(b"")),
        ScriptFault::SameName => (Piece::Text(b"same name"), Piece::Text(b"")),
        ScriptFault::ReadFailed => (Piece::Text(b"ReadFailed"), Piece::Text(b"")),
        ScriptFault::WriteFailed => (Piece::Text(b"WriteFailed"), Piece::Text(b"")),
        ScriptFault::NoMemory => (Piece::Text(b"NoMemory"), Piece::Text(b"")),
    }
}

impl ScriptFault {
    /// The exit status: 2 if the script is at fault, else 1.
    pub fn status(self) -> u8
        ensures { result ≡ status_of self }
    {
        match self {
            ScriptFault::TooLong
            | ScriptFault::BadLine(_)
            | ScriptFault::NoNode
            | ScriptFault::SameName => 2,
            _ => 1,
        }
    }

    /// Reports the fault on standard error and returns the exit status. If it can't be reported, only the rest of its line is lost.
    #[tactic(auto, using(crate::proofs::Fronts::front_either))]
    pub fn report_to<E: Write>(self, err: &mut E) -> u8
        ensures status { result ≡ status_of self }
        ensures line { PutsFront (fault_line self) (E.contents err.old) (E.contents err.new) }
    {
        let (words, number) = message(self);
        let _ = put(
            err,
            &[
                Piece::Text(b"distnode: "),
                words,
                number,
                Piece::Text(b"\n"),
            ],
        );
        self.status()
    }
}

impl From<AllocError> for ScriptFault {
    ghost from_gives = { λ _ fault. fault ≡ NoMemory };

    fn from(_error: AllocError) -> ScriptFault {
        ScriptFault::NoMemory
    }
}

/// The outcome of a write; one that failed becomes a fault.
pub fn or_write_failed(outcome: io::Result<()>) -> Result<(), ScriptFault>
    ensures ok { OnOk result (IsOk outcome) }
    ensures fault { IfErr result (λ fault. fault ≡ WriteFailed) }
{
    match outcome {
        Ok(()) => Ok(()),
        Err(_) => Err(ScriptFault::WriteFailed),
    }
}
