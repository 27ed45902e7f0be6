//! Writes what the commands print, as a whole.

ghost use Rattle.std.specs.{Prelude.OnErr, Prelude.OnOk, Io.KnownBytes.Appends};
ghost use Rattle.dist_script.specs.Texts.{PutsFront};

use dist_script::{ScriptFault, or_write_failed, put_bytes};
use std::io::Write;

/// Writes a text, to the last byte, and flushes it. If a write or the flush fails, a prefix of the text was written.
#[tactic(auto, using(crate::proofs::Stopped::unflushed))]
pub fn write_text<W: Write>(out: &mut W, text: &[u8]) -> Result<(), ScriptFault>
    ensures text { OnOk result (Appends (W.contents out.old) (W.contents out.new) text.now) }
    ensures cut { OnErr result (PutsFront text.now (W.contents out.old) (W.contents out.new)) }
{
    put_bytes(out, text)?;
    or_write_failed(out.flush())?;
    Ok(())
}
