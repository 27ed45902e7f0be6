//! Pieces of printed lines: words, numbers and digits.

ghost use Rattle.std.specs.Prelude.{◌≤◌, ◌≡◌, ◌*◌, length, take, drop, decimal, OnOk, OnErr, IfOk, IfErr};
ghost use Rattle.std.specs.Io.KnownBytes.{Appends, Keeps};
ghost use Rattle.hex.specs.Hex.{encode_lower};
ghost use Rattle.dist_script.specs.{Texts.text_of, Texts.texts_of, Texts.PutsFront, declared.fault.ScriptFault.TheVariants.WriteFailed};

use crate::fault::ScriptFault;
use dist_names::Flags;
use std::io::{ErrorKind, Write};

/// The most bytes whose digits are written at once.
const MOST_BYTES: usize = 32;

/// The most decimal digits of a number below 2^64.
const MOST_DECIMALS: usize = 20;

/// A piece of a printed line.
#[derive(Clone, Copy)]
pub enum Piece<'a> {
    /// These bytes as they stand.
    Text(&'a [u8]),
    /// A number in decimal digits.
    Number(u64),
    /// Flags in 16 hexadecimal digits of lower case.
    Flags(Flags),
    /// Bytes as hexadecimal digits of lower case.
    Digits(&'a [u8]),
}

/// Writes these pieces, one behind the other. Where a write fails, what was written is a beginning of them.
#[tactic(auto, using(crate::proofs::Fronts::none_put, crate::proofs::Printing::put_more, crate::proofs::Printing::put_all))]
pub fn put<W: Write>(out: &mut W, pieces: &[Piece<'_>]) -> Result<(), ScriptFault>
    ensures text { OnOk result (Appends (W.contents out.old) (W.contents out.new) (texts_of pieces.now)) }
    ensures cut { OnErr result (PutsFront (texts_of pieces.now) (W.contents out.old) (W.contents out.new)) }
    ensures fault { IfErr result (λ fault. fault ≡ WriteFailed) }
{
    for piece in pieces {
        put_piece(out, *piece)?;
    }
    Ok(())
}

/// Writes a piece. A caller that knows of which kind it is has only the code of that kind.
#[inline(always)]
pub fn put_piece<W: Write>(out: &mut W, piece: Piece<'_>) -> Result<(), ScriptFault>
    ensures text { OnOk result (Appends (W.contents out.old) (W.contents out.new) (text_of piece.entry)) }
    ensures cut { OnErr result (PutsFront (text_of piece.entry) (W.contents out.old) (W.contents out.new)) }
    ensures fault { IfErr result (λ fault. fault ≡ WriteFailed) }
{
    match piece {
        Piece::Text(text) => put_bytes(out, text),
        Piece::Number(value) => put_number(out, value),
        Piece::Flags(flags) => put_digits(out, &flags.0.to_be_bytes()),
        Piece::Digits(bytes) => put_digits(out, bytes),
    }
}

fn put_number<W: Write>(out: &mut W, number: u64) -> Result<(), ScriptFault>
    ensures text { OnOk result (Appends (W.contents out.old) (W.contents out.new) (decimal number)) }
    ensures cut { OnErr result (PutsFront (decimal number) (W.contents out.old) (W.contents out.new)) }
    ensures fault { IfErr result (λ fault. fault ≡ WriteFailed) }
{
    let mut room = [0u8; MOST_DECIMALS];
    let start = write_decimals(number, &mut room);
    put_bytes(out, &room[start..])
}

// Writes a number in decimal digits at the end of a room, and returns where they begin.
fn write_decimals(number: u64, room: &mut [u8]) -> usize
    requires { length room.old ≡ 20 }
    ensures start { result ≤ 20 }
    ensures digits { drop result room.new ≡ decimal number }
{
    itoa::write_digits(number, room, MOST_DECIMALS)
}

#[tactic(auto, using(crate::proofs::Fronts::none_put))]
fn put_digits<W: Write>(out: &mut W, bytes: &[u8]) -> Result<(), ScriptFault>
    ensures text { OnOk result (Appends (W.contents out.old) (W.contents out.new) (encode_lower bytes.now)) }
    ensures cut { OnErr result (PutsFront (encode_lower bytes.now) (W.contents out.old) (W.contents out.new)) }
    ensures fault { IfErr result (λ fault. fault ≡ WriteFailed) }
{
    let mut rest = bytes;
    while !rest.is_empty() {
        let (piece, behind) = rest.split_at(rest.len().min(MOST_BYTES));
        short_hex(out, piece)?;
        rest = behind;
    }
    Ok(())
}

// Writes the two digits, in lower case, of each byte.
fn write_digits(bytes: &[u8], room: &mut [u8])
    requires { length room.old ≡ 2 * length bytes.now }
    ensures { room.new ≡ encode_lower bytes.now }
{
    let _ = hex::encode_to_slice(bytes, room);
}

fn short_hex<W: Write>(out: &mut W, bytes: &[u8]) -> Result<(), ScriptFault>
    requires { length bytes.now ≤ 32 }
    ensures text { OnOk result (Appends (W.contents out.old) (W.contents out.new) (encode_lower bytes.now)) }
    ensures cut { OnErr result (PutsFront (encode_lower bytes.now) (W.contents out.old) (W.contents out.new)) }
    ensures fault { IfErr result (λ fault. fault ≡ WriteFailed) }
{
    let mut room = [0u8; 2 * MOST_BYTES];
    let digits = &mut room[..2 * bytes.len()];
    write_digits(bytes, digits);
    put_bytes(out, digits)
}

/// Writes these bytes. Where a write fails, what was written is a beginning of them, which `write_all` doesn't say.
#[tactic(auto, using(crate::proofs::Fronts::none_put))]
pub fn put_bytes<W: Write>(out: &mut W, bytes: &[u8]) -> Result<(), ScriptFault>
    ensures text { OnOk result (Appends (W.contents out.old) (W.contents out.new) bytes.now) }
    ensures cut { OnErr result (PutsFront bytes.now (W.contents out.old) (W.contents out.new)) }
    ensures fault { IfErr result (λ fault. fault ≡ WriteFailed) }
{
    let mut rest = bytes;
    'writes: for _ in 0..u64::MAX {
        if rest.is_empty() {
            return Ok(());
        }
        let (_, behind) = rest.split_at(put_some(out, rest)?);
        rest = behind;
    }
    Err(ScriptFault::WriteFailed)
}

// One write of these bytes, of which there are some. Returns how many of them were written: none where it was interrupted.
#[tactic(auto, using(crate::proofs::Fronts::interrupted))]
fn put_some<W: Write>(out: &mut W, bytes: &[u8]) -> Result<usize, ScriptFault>
    ensures few { IfOk result (λ count. count ≤ length bytes.now) }
    ensures text { IfOk result (λ count. Appends (W.contents out.old) (W.contents out.new) (take count bytes.now)) }
    ensures kept { OnErr result (Keeps (W.contents out.old) (W.contents out.new)) }
    ensures fault { IfErr result (λ fault. fault ≡ WriteFailed) }
{
    match out.write(bytes) {
        Ok(0) => Err(ScriptFault::WriteFailed),
        Ok(count) => Ok(count),
        Err(error) if error.kind() == ErrorKind::Interrupted => Ok(0),
        Err(_) => Err(ScriptFault::WriteFailed),
    }
}
