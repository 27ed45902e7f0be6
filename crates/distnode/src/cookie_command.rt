//! The command `cookie`: the length of a file's cookie, and a digest made with it.

ghost use Rattle.std.specs.{Prelude.◌≡◌, Prelude.◌≤◌, Prelude.IfErr, Prelude.IfOk, Prelude.OnOk, Io.KnownBytes.Appends};
ghost use Rattle.distnode.specs.{Fault.status_of, Printed.cookie_line, Printed.PrintsCookie, Stopped.EndsByFault, Stopped.StopsCookie};

use crate::fault::Fault;
use crate::output::write_text;
use dist_script::{Piece, ScriptFault, put};
use dist_secret::{Cookie, digest, read_cookie};
use std::alloc::{AllocError, Global};
use std::io::{Read, Write};

fn print<W: Write>(out: &mut W, cookie: &Cookie, challenge: u32) -> Result<(), ScriptFault>
    ensures { OnOk result (Appends (W.contents out.old) (W.contents out.new) (cookie_line cookie.now challenge)) }
{
    let made = digest(cookie, challenge);
    put(
        out,
        &[
            Piece::Text(b"cookie of "),
            Piece::Number(cookie.len() as u64),
            Piece::Text(b" bytes, digest of "),
            Piece::Number(u64::from(challenge)),
            Piece::Text(b" is "),
            Piece::Digits(&made),
            Piece::Text(b"\n"),
        ],
    )
}

// The line that is printed.
fn line_of(alloc: Global, cookie: &Cookie, challenge: u32) -> Result<Vec<u8>, AllocError>
    ensures { IfOk result (λ line. line.items ≡ cookie_line cookie.now challenge) }
{
    let mut line = Vec::new(alloc);
    match print(&mut line, cookie, challenge) {
        Ok(()) => Ok(line),
        Err(_) => Err(AllocError),
    }
}

// Reads the cookie of a file, and prints its line.
#[tactic(auto, using(crate::proofs::Stopped::cut_line))]
fn perform<R: Read, W: Write>(
    alloc: Global,
    file: &mut R,
    challenge: u32,
    out: &mut W,
) -> Result<(), Fault>
    ensures status { IfErr result (λ fault. status_of fault ≡ 1) }
    ensures printed { OnOk result (PrintsCookie (R.remaining file.old) (R.remaining file.new) challenge (W.contents out.old) (W.contents out.new)) }
    ensures stopped { IfErr result (StopsCookie (R.remaining file.old) (R.remaining file.new) challenge (W.contents out.old) (W.contents out.new)) }
{
    let cookie = match read_cookie(alloc, file) {
        Ok(cookie) => cookie,
        Err(error) => return Err(Fault::NoCookie(error)),
    };
    let Ok(line) = line_of(alloc, &cookie, challenge) else {
        return Err(Fault::NoMemory);
    };
    match write_text(out, line.as_slice()) {
        Ok(()) => Ok(()),
        Err(_) => Err(Fault::WriteFailed),
    }
}

/// Prints how many bytes the cookie of a file has, and the digest of it and a challenge; never the cookie itself. Returns the exit
/// status: 0, or 1 for a fault, which is reported on `err`: why the file has no cookie, a write that failed, or out of memory.
pub fn cookie<R: Read, W: Write, E: Write>(
    alloc: Global,
    file: &mut R,
    challenge: u32,
    out: &mut W,
    err: &mut E,
) -> u8
    ensures status { result ≤ 1 }
    ensures printed { result ≡ 0 → PrintsCookie (R.remaining file.old) (R.remaining file.new) challenge (W.contents out.old) (W.contents out.new) }
    ensures silent { result ≡ 0 → E.contents err.new ≡ E.contents err.old }

    // With status 1 a fault ended it, whose line was written to `err`: the file has no cookie, for the first reason that holds, and
    // nothing was printed; or just a prefix of its line was printed.
    ensures fault { result ≡ 1 → EndsByFault
        (StopsCookie (R.remaining file.old) (R.remaining file.new) challenge (W.contents out.old) (W.contents out.new))
        1 (E.contents err.old) (E.contents err.new) }
{
    match perform(alloc, file, challenge, out) {
        Ok(()) => 0,
        Err(fault) => fault.report_to(err),
    }
}
