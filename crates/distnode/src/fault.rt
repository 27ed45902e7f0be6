//! What stops a command early, and how that is reported.

ghost use Rattle.std.specs.Prelude.{◌≡◌};
ghost use Rattle.dist_program.specs.Sentences.{word_fault_status};
ghost use Rattle.dist_script.specs.Texts.{PutsFront};
ghost use Rattle.distnode.specs.Fault.{status_of, fault_text, line_of, fault_line, port_line, fault_of, fault_of_text};
ghost use Rattle.distnode.specs.declared.fault.Fault.TheVariants.{NoMemory};

use dist_audit::AuditError;
use dist_epmd_calls::LookupError;
use dist_program::{TextError, WordFault};
use dist_run_hosts::RunError;
use dist_script::{Piece, ScriptFault, put};
use dist_secret::CookieError;
use std::alloc::AllocError;
use std::io::Write;

/// What ends a command.
#[derive(Clone, Copy, Debug, PartialEq, Eq)]
pub enum Fault {
    /// The words of the command line are not a command of this program. `--help` and `--version` are not commands.
    BadCommandLine,
    /// The file is not a nodes file: it has more than 1,048,576 bytes, is not UTF-8, or breaks a rule.
    BadNodesFile,
    /// The run of the nodes ended early.
    RunEnded(RunError),
    /// The input could not be read.
    ReadFailed,
    /// The output could not be written.
    WriteFailed,
    /// The file could not be opened.
    OpenFailed,
    /// The file has no cookie.
    NoCookie(CookieError),
    /// No program listens at the port of the port mapper.
    ConnectFailed,
    /// The port mapper did not answer the question.
    NoAnswer(LookupError),
    /// The port mapper's answer was printed, and ends inside a line.
    AnswerCut,
    /// The run of the nodes was printed, and the audit refused it.
    AuditRefused(AuditError),
    /// The run of the nodes was printed, and a node takes somebody outside for another one.
    Fooled,
    /// No memory was left.
    NoMemory,
}

impl From<TextError> for Fault {
    ghost from_gives = { λ error made. made ≡ fault_of_text error };

    fn from(error: TextError) -> Fault {
        match error {
            TextError::NoText => Fault::BadCommandLine,
            TextError::NoMemory => Fault::NoMemory,
        }
    }
}

impl From<AllocError> for Fault {
    ghost from_gives = { λ _ made. made ≡ NoMemory };

    fn from(_error: AllocError) -> Fault {
        Fault::NoMemory
    }
}

// How reading a nodes file fails, by how reading a script does: a text at fault is a bad nodes file.
impl From<ScriptFault> for Fault {
    ghost from_gives = { λ fault made. made ≡ fault_of fault };

    fn from(fault: ScriptFault) -> Fault {
        match fault {
            ScriptFault::ReadFailed => Fault::ReadFailed,
            ScriptFault::WriteFailed => Fault::WriteFailed,
            ScriptFault::NoMemory => Fault::NoMemory,
            ScriptFault::TooLong
            | ScriptFault::BadLine(_)
            | ScriptFault::NoNode
            | ScriptFault::SameName => Fault::BadNodesFile,
        }
    }
}

impl Fault {
    /// The exit status: 2 if the user's input is at fault, else 1.
    pub fn status(self) -> u8
        ensures { result ≡ status_of self }
    {
        match self {
            Fault::BadCommandLine | Fault::BadNodesFile => 2,
            _ => 1,
        }
    }

    /// The text on standard error: the fault's name, or that of the error in it.
    pub fn text(self) -> &'static str
        ensures { result.now ≡ fault_text self }
    {
        match self {
            Fault::BadCommandLine => "bad command line",
            Fault::BadNodesFile => "bad nodes file",
            Fault::RunEnded(error) => error.name(),
            Fault::ReadFailed => "ReadFailed",
            Fault::WriteFailed => "WriteFailed",
            Fault::OpenFailed => "OpenFailed",
            Fault::NoCookie(error) => error.name(),
            Fault::ConnectFailed => "ConnectFailed",
            Fault::NoAnswer(error) => error.name(),
            Fault::AnswerCut => "Ended",
            Fault::AuditRefused(error) => error.name(),
            Fault::Fooled =>
                "Fooled: a node outside the file is up under the name of one of its nodes",
            Fault::NoMemory => "NoMemory",
        }
    }

    /// Reports the fault on standard error, and returns the exit status. If its line can't be written whole, just the rest of it is lost.
    pub fn report_to<E: Write>(self, err: &mut E) -> u8
        ensures status { result ≡ status_of self }
        ensures line { PutsFront (fault_line self) (E.contents err.old) (E.contents err.new) }
    {
        put_line(self.text(), err);
        self.status()
    }
}

// Writes the program's name and these words in a line, as far as they can be written.
#[tactic(auto, using(dist_script::proofs::Fronts::front_either))]
fn put_line<E: Write>(text: &str, err: &mut E)
    ensures { PutsFront (line_of text.now) (E.contents err.old) (E.contents err.new) }
{
    let _ = put(
        err,
        &[
            Piece::Text(b"distnode: "),
            Piece::Text(text.as_bytes()),
            Piece::Text(b"\n"),
        ],
    );
}

/// Reports on standard error why ERL_EPMD_PORT is not a port, and returns the exit status. Its line is written like that of a fault.
pub fn report_port<E: Write>(error: &WordFault, err: &mut E) -> u8
    ensures status { result ≡ word_fault_status error.now }
    ensures line { PutsFront (port_line error.now) (E.contents err.old) (E.contents err.new) }
{
    put_line(error.text(), err);
    error.status()
}
