//! The port of the port mapper, where the command line names none, and the numbers that it names.
//!
//! One rule for all programs: ERL_EPMD_PORT names it, and where that is not set it is 4369. A text that is not a port number from 1
//! to 65,535 is refused. `epmd` and Erlang nodes take the number at its beginning, or 0 if there is none; nobody wants a wrong
//! port, so our programs do not silently go to another one. Our own choice.

ghost use Rattle.std.specs.{Prelude.◌≡◌, Prelude.SomeIff, Str.Parse.digits_value};
ghost use Rattle.dist_program.specs.PortTexts.{GivesNumber, GivesPort, NamesPort};

use crate::sentences::{number_sentence, with_word};
use crate::text_error::TextError;
use crate::variables::variable;
use crate::word_fault::WordFault;
use dist_names::number_16;
use std::alloc::Global;

/// Where a port mapper listens, unless the environment or the command line says otherwise. Source: ERTS User's Guide, epmd.
pub const MAPPER_PORT: u16 = 4369;

// The port number that a text writes.
fn number_named(text: &[u8]) -> Option<u16>
    ensures { SomeIff result (NamesPort text.now) (digits_value 10 text.now) }
{
    let number = number_16(text)?;
    if number == 0 {
        return None;
    }
    Some(number)
}

/// The number from 1 to 65,535 that the word behind the option `--ID` writes, if there is one, by the same rule.
pub fn option_number(
    alloc: Global,
    program: &str,
    id: &str,
    word: Option<&str>,
) -> Result<Option<u16>, WordFault>
    ensures { GivesNumber program.now id.now word.entry result }
{
    let Some(word) = word else {
        return Ok(None);
    };
    match number_named(word.as_bytes()) {
        Some(number) => Ok(Some(number)),
        None => Err(WordFault::Bad(number_sentence(alloc, program, id, word)?)),
    }
}

/// The port that the text of ERL_EPMD_PORT names: decimal digits, leading zeros allowed, of a number from 1 to 65,535. `Bad` for
/// every other text; `NoMemory` where there is no memory even for that refusal.
pub fn port_in(alloc: Global, text: &str) -> Result<u16, WordFault>
    ensures { GivesPort text.now result }
{
    match number_named(text.as_bytes()) {
        Some(port) => Ok(port),
        None => {
            let front = "ERL_EPMD_PORT is no port number from 1 to 65535: ";
            Err(WordFault::Bad(with_word(alloc, front, text)?))
        }
    }
}

/// The port of the port mapper, where the command line names none: that of ERL_EPMD_PORT, else 4369.
pub fn mapper_port(rt: &HostRuntime) -> Result<u16, WordFault> {
    match variable(rt, "ERL_EPMD_PORT") {
        Ok(Some(text)) => port_in(rt.alloc(), &text),
        Ok(None) => Ok(MAPPER_PORT),
        Err(TextError::NoText) => {
            let text = "ERL_EPMD_PORT is no port number from 1 to 65535: it is no UTF-8";
            Err(WordFault::Bad(String::from_str(rt.alloc(), text)?))
        }
        Err(TextError::NoMemory) => Err(WordFault::NoMemory),
    }
}
