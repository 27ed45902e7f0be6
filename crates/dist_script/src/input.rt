//! Reads a whole input, up to the most bytes that one has.

ghost use Rattle.std.specs.Prelude.{◌≡◌, ◌⊎◌, ◌+◌, ◌≤◌, ◌++◌, ℕ, List, length, IfOk, IfErr, OnOk, OnErr};
ghost use Rattle.std.specs.Io.KnownBytes.{Consumes, IsAtEnd};
ghost use Rattle.dist_script.specs.{Fault.StopsReading, declared.fault.ScriptFault.TheVariants.ReadFailed, declared.fault.ScriptFault.TheVariants.NoMemory};

use crate::fault::ScriptFault;
use std::alloc::Global;
use std::io::Read;

/// The most bytes of a script, our own choice.
const MOST_BYTES: usize = 1048576;

const PIECE: usize = 16384;

// One read of the next piece, whose bytes are put behind the text. Returns how many there were.
#[tactic(auto, using(crate::proofs::Inputs::none_read))]
fn read_piece<R: Read>(input: &mut R, text: &mut Vec<u8>) -> Result<usize, ScriptFault>
    ensures grows { IfOk result (λ count. length text.new.items ≡ length text.old.items + count) }
    ensures piece { IfOk result (λ count. (piece : List ℕ) × (text.new.items ≡ text.old.items ++ piece)
        × Consumes (R.remaining input.old) (R.remaining input.new) piece) }
    ensures end { IfOk result (λ count. count ≡ 0 → IsAtEnd (R.remaining input.new)) }
    ensures stopped { OnErr result ((piece : List ℕ) × Consumes (R.remaining input.old) (R.remaining input.new) piece) }
    ensures fault { IfErr result (λ fault. (fault ≡ ReadFailed) ⊎ (fault ≡ NoMemory)) }
{
    let mut room = [0u8; PIECE];
    match input.read(&mut room) {
        Ok(count) => match text.extend_from_slice(&room[..count]) {
            Ok(()) => Ok(count),
            Err(_) => Err(ScriptFault::NoMemory),
        },
        Err(_) => Err(ScriptFault::ReadFailed),
    }
}

/// The whole input, of at most 1,048,576 bytes. Reading stops with the read that shows that it is too long. It fails with
/// `ReadFailed`, `TooLong` or `NoMemory`.
#[tactic(auto, using(crate::proofs::Inputs::too_long, crate::proofs::Inputs::not_read))]
pub fn read_text<R: Read>(alloc: Global, input: &mut R) -> Result<Vec<u8>, ScriptFault>
    ensures most { IfOk result (λ text. length text.items ≤ MOST_BYTES) }
    ensures bytes { IfOk result (λ text. Consumes (R.remaining input.old) (R.remaining input.new) text.items) }
    ensures end { OnOk result (IsAtEnd (R.remaining input.new)) }
    ensures stopped { IfErr result (λ fault. StopsReading (R.remaining input.old) (R.remaining input.new) fault) }
{
    let mut text = Vec::new(alloc);
    'pieces: while text.len() <= MOST_BYTES {
        if read_piece(input, &mut text)? == 0 {
            return Ok(text);
        }
    }
    Err(ScriptFault::TooLong)
}
