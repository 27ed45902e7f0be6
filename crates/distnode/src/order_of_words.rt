//! The order that the words of the command line give.

ghost use Rattle.std.specs.Prelude.{◌≡◌, ◌⊎◌, IfErr, IfOk, map};
ghost use Rattle.clap.specs.Words.{kind_of};
ghost use Rattle.distnode.specs.{declared.order_of_words.Order.Order, CommandLine.Asks};

use crate::fault::Fault;
use crate::matched::order_in;
use crate::program::program;
use clap::error::ErrorKind;
use std::alloc::Global;

/// What the program is asked to do.
#[derive(Clone, Copy)]
pub enum Order<'a> {
    /// Play the script on standard input.
    Enact,
    /// Print the digest of the cookie in this file and the challenge.
    Cookie { file: &'a str, challenge: u32 },
    /// Print the names that the port mapper at this port knows.
    Names { port: u16 },
    /// Run the nodes of the nodes file at this path.
    Run { file: &'a str },
}

// Why the parser refuses the words. Asking for help or the version is no command either.
fn refusal_of(error: &clap::Error) -> Fault
    ensures memory { kind_of error.now ≡ ErrorKind.OutOfMemory → result ≡ Fault.NoMemory }
    ensures one { (result ≡ Fault.BadCommandLine) ⊎ (result ≡ Fault.NoMemory) }
{
    match error.kind() {
        ErrorKind::OutOfMemory => Fault::NoMemory,
        _ => Fault::BadCommandLine,
    }
}

/// The order that the words after the program's name give: that of the command which the parser matches in them, with its file and its
/// number. If they name no port, the port mapper's is `mapper_port`. `BadCommandLine` if the parser matches no
/// command.
pub fn order_of<'a>(
    alloc: Global,
    words: &'a [&'a str],
    mapper_port: u16,
) -> Result<Order<'a>, Fault>
    ensures ok { IfOk result (Asks mapper_port (map (λ word. word.now) words.now)) }
    ensures bad { result ≡ Err Fault.BadCommandLine → (order : Order) → Asks mapper_port (map (λ word. word.now) words.now) order → ⊥ }
    ensures err { IfErr result (λ fault. (fault ≡ Fault.BadCommandLine) ⊎ (fault ≡ Fault.NoMemory)) }
{
    match program(alloc)?.try_get_matches_from(words) {
        Ok(matches) => order_in(&matches, mapper_port).ok_or(Fault::BadCommandLine),
        Err(error) => Err(refusal_of(&error)),
    }
}
