//! What is printed: a text as a whole, and what `-names` prints of an answer.

ghost use Rattle.std.specs.{Prelude.◌≡◌, Prelude.IfErr, Prelude.IfOk, Prelude.OnOk, Io.KnownBytes.Appends, String.string_bytes};
ghost use Rattle.distmapd.specs.{declared.fault.Fault.TheVariants.WriteFailed, Listing.Prints, Listing.has_whole_lines, Listing.listing};

use crate::answer::ReceivedAnswer;
use crate::fault::Fault;
use dist_names::escape_lines;
use std::alloc::{AllocError, Global};
use std::io::Write;

/// Writes a text, to the last byte, and flushes it. The only fault is WriteFailed.
pub fn print<W: Write>(out: &mut W, text: &str) -> Result<(), Fault>
    ensures text { OnOk result (Appends (W.contents out.old) (W.contents out.new) text.now) }
    ensures fault { IfErr result (λ fault. fault ≡ WriteFailed) }
{
    if out.write_all(text.as_bytes()).is_ok() && out.flush().is_ok() {
        Ok(())
    } else {
        Err(Fault::WriteFailed)
    }
}

// Whether the text consists of whole lines, or is empty.
fn has_whole_lines(text: &[u8]) -> bool
    ensures { result ≡ has_whole_lines text.now }
{
    text.is_empty() || text.ends_with(b"\n")
}

// The port mapper's port, and its lines. A name may have any bytes; those that are not printable are escaped.
#[tactic(auto, unfolding(crate::specs::Listing::listing))]
fn listing(alloc: Global, port: u32, text: &[u8]) -> Result<String, AllocError>
    ensures { IfOk result (λ printed. string_bytes printed ≡ listing port text.now) }
{
    let lines = escape_lines(alloc, text)?;
    let end = if has_whole_lines(text) { "" } else { "\n" };
    format!(in alloc; "epmd: up and running on port {port} with data:\n{lines}{end}")
}

/// Prints the part of an answer that arrived.
///
/// `AnswerCut` if it was printed but is not whole: its end did not arrive, or arrived in mid-line. `NoAnswer` if not even the port
/// arrived, and `NoMemory`: then nothing is printed. `WriteFailed` if it could not be printed whole.
pub fn print_answer<W: Write>(
    alloc: Global,
    answer: &ReceivedAnswer,
    out: &mut W,
) -> Result<(), Fault>
    ensures { Prints (W.contents out.old) (W.contents out.new) answer.now result }
{
    let Some((port, text)) = answer.bytes.split_first_chunk::<4>() else {
        return Err(Fault::NoAnswer);
    };
    let printed = listing(alloc, u32::from_be_bytes(*port), text)?;
    print(out, &printed)?;
    if answer.is_ended && has_whole_lines(text) {
        Ok(())
    } else {
        Err(Fault::AnswerCut)
    }
}
