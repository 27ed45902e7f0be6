//! How a fault ends a program.

ghost use Rattle.std.specs.Prelude.{◌≡◌};

use std::fmt::Display;
use std::io::Write;

/// Prints what ended a program, in a line after the program's name, and returns the exit status. If it cannot be printed,
/// only the text is lost.
pub fn report<E: Write, D: Display>(err: &mut E, program: &str, fault: &D, status: u8) -> u8
    ensures { result ≡ status }
{
    let _ = writeln!(err, "{program}: {fault}");
    status
}
