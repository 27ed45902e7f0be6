//! The command `names`: asks a port mapper which nodes it knows.

ghost use Rattle.std.specs.{Prelude.◌≡◌, Prelude.◌≤◌, Prelude.IfErr, Prelude.IfOk, Prelude.OnOk, Prelude.true, List.All};
ghost use Rattle.dist_names.specs.Escaped.{IsPrintableOrLineFeed};
ghost use Rattle.distnode.specs.{Fault.status_of, Printed.PrintsNames, Printed.answer_text, Printed.has_whole_lines, Stopped.EndsByFault, Stopped.StopsNames};

use crate::fault::Fault;
use crate::output::write_text;
use dist_epmd_calls::ask_names;
use dist_names::{ByteString, escape_lines};
use dist_stream::Stream;
use std::alloc::{AllocError, Global};
use std::io::Write;

/// The most turns. A turn is one read or one write, even a quiet one. A real port mapper writes each line of its answer by itself, so
/// it may take one read for each node: an `epmd` holds some 1,018, and there is room for 1,024. Our own choice.
const MOST_TURNS: usize = 1280;

// The text of an answer as it is printed. A terminal acts on some bytes, and any program that listens at the port may have sent them; so
// each line is escaped for it.
fn answer_text(alloc: Global, text: ByteString, is_terminal: bool) -> Result<Vec<u8>, AllocError>
    ensures text { IfOk result (λ bytes. bytes.items ≡ answer_text is_terminal text) }
    ensures printable { IfOk result (λ bytes. is_terminal ≡ true → All IsPrintableOrLineFeed bytes.items) }
    ensures err { IfErr result (λ _. is_terminal ≡ true) }
{
    if is_terminal {
        Ok(escape_lines(alloc, text.as_slice())?.into_bytes())
    } else {
        Ok(text.into_vec())
    }
}

// Whether a text consists of whole lines, or is empty.
fn has_whole_lines(text: &[u8]) -> bool
    ensures { result ≡ has_whole_lines text.now }
{
    text.is_empty() || text.ends_with(b"\n")
}

// Asks, and prints the answer.
#[tactic(auto, using(crate::proofs::Stopped::all_names, crate::proofs::Stopped::part_of_names, crate::proofs::Stopped::cut_names))]
fn perform<S: Stream, W: Write>(
    alloc: Global,
    stream: &mut S,
    is_terminal: bool,
    out: &mut W,
) -> Result<(), Fault>
    ensures status { IfErr result (λ fault. status_of fault ≡ 1) }
    ensures printed { OnOk result (PrintsNames is_terminal (S.meaning stream.old) (S.meaning stream.new) MOST_TURNS
        (W.contents out.old) (W.contents out.new)) }
    ensures stopped { IfErr result (StopsNames is_terminal (S.meaning stream.old) (S.meaning stream.new) MOST_TURNS
        (W.contents out.old) (W.contents out.new)) }
{
    let (_port, text) = match ask_names(alloc, stream, MOST_TURNS) {
        Ok(answer) => answer,
        Err(error) => return Err(Fault::NoAnswer(error)),
    };
    let is_whole = has_whole_lines(text.as_slice());
    let Ok(bytes) = answer_text(alloc, text, is_terminal) else {
        return Err(Fault::NoMemory);
    };
    let Ok(()) = write_text(out, bytes.as_slice()) else {
        return Err(Fault::WriteFailed);
    };
    if is_whole {
        Ok(())
    } else {
        Err(Fault::AnswerCut)
    }
}

/// Asks a port mapper for the nodes that it knows, and prints the text of its answer: unchanged, or on a terminal with each line escaped.
/// Returns the exit status: 0, or 1 for a fault, which is reported on `err`: the question failed, the text ended inside a line, a write
/// failed, or memory ran out for the escaped answer.
pub fn names<S: Stream, W: Write, E: Write>(
    alloc: Global,
    stream: &mut S,
    is_terminal: bool,
    out: &mut W,
    err: &mut E,
) -> u8
    ensures status { result ≤ 1 }
    ensures printed { result ≡ 0 → PrintsNames is_terminal (S.meaning stream.old) (S.meaning stream.new) MOST_TURNS
        (W.contents out.old) (W.contents out.new) }
    ensures silent { result ≡ 0 → E.contents err.new ≡ E.contents err.old }

    // With status 1 a fault ended it, whose line was written to `err`: the question has no answer, for the first reason that holds, and
    // nothing was printed; or the answer was, and ends inside a line; or just a prefix of it was.
    ensures fault { result ≡ 1 → EndsByFault
        (StopsNames is_terminal (S.meaning stream.old) (S.meaning stream.new) MOST_TURNS (W.contents out.old) (W.contents out.new))
        1 (E.contents err.old) (E.contents err.new) }
{
    match perform(alloc, stream, is_terminal, out) {
        Ok(()) => 0,
        Err(fault) => fault.report_to(err),
    }
}
