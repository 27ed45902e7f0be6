//! The pieces of a line: the program's own text, and escaped text from outside.

ghost use Rattle.std.specs.{Prelude.◌≡◌, Prelude.◌++◌, Prelude.◌∷◌, Prelude.[], Prelude.IfOk, Prelude.OnOk, Prelude.string_bytes, List.flat_map};
ghost use Rattle.distping_report.specs.Texts.{flag_text, piece_text};

use dist_flags::Dflag;
use dist_names::{Flags, escape, quote};
use std::alloc::{AllocError, Global};
use std::io::Write;
use std::net::IpAddr;

/// A piece of a line. Bytes from another machine or the command line can only be a name or foreign bytes, and so are escaped.
#[derive(Clone, Copy)]
pub enum LinePiece<'a> {
    /// The program's own text.
    Text(&'static str),
    /// A name from outside: escaped, and between double quotes.
    Name(&'a [u8]),
    /// Other bytes from outside: escaped.
    Foreign(&'a [u8]),
    /// Text that is already escaped.
    Escaped(&'a str),
    /// A number in decimal digits.
    Number(u32),
    /// Flags in hexadecimal digits.
    Digits(Flags),
    /// The names of flags, with a blank before each.
    Names(Flags),
    /// An address without a port.
    Host(IpAddr),
}

// Appends a blank and a flag's name to a text, if it is among these flags.
fn push_flag(text: &mut String, flags: Flags, flag: Dflag) -> Result<(), AllocError>
    ensures { OnOk result (string_bytes text.new ≡ string_bytes text.old ++ flag_text flags.0 flag) }
{
    if flags.has(flag.flags()) {
        text.push_str(" ")?;
        text.push_str(flag.name())?;
    }
    Ok(())
}

// Appends the names of these flags to a text, in the order of `all`.
fn push_flags(text: &mut String, flags: Flags, all: &[Dflag]) -> Result<(), AllocError>
    ensures { OnOk result (string_bytes text.new ≡ string_bytes text.old ++ flat_map (flag_text flags.0) all.now) }
{
    for flag in all {
        push_flag(text, flags, *flag)?;
    }
    Ok(())
}

/// Appends a piece to a text.
pub fn push_piece(alloc: Global, text: &mut String, piece: LinePiece<'_>) -> Result<(), AllocError>
    ensures { OnOk result (string_bytes text.new ≡ string_bytes text.old ++ piece_text piece.entry) }
{
    match piece {
        LinePiece::Text(part) => text.push_str(part),
        LinePiece::Name(bytes) => text.push_str(&quote(alloc, bytes)?),
        LinePiece::Foreign(bytes) => text.push_str(&escape(alloc, bytes)?),
        LinePiece::Escaped(part) => text.push_str(part),
        LinePiece::Number(number) => write!(text, "{number}"),
        LinePiece::Digits(flags) => write!(text, "{:x}", flags.0),
        LinePiece::Names(flags) => push_flags(text, flags, &Dflag::all()),
        LinePiece::Host(host) => write!(text, "{host}"),
    }
}

/// A line of these pieces.
pub fn line_of(alloc: Global, pieces: &[LinePiece<'_>]) -> Result<String, AllocError>
    ensures { IfOk result (λ line. string_bytes line ≡ flat_map piece_text pieces.now ++ 10 ∷ []) }
{
    let mut line = String::new(alloc);
    for piece in pieces {
        push_piece(alloc, &mut line, *piece)?;
    }
    line.push('\n')?;
    Ok(line)
}
