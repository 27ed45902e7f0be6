ghost use Rattle.std.specs.Prelude.{◌≡◌, ℕ, ◌<◌, ◌≤◌, List, length, take, is_none, false, IsTrue, IsErrOf, ◌↔◌, IfSome, IfNone, MatchOption};
ghost use Rattle.std.specs.Io.KnownBytes.{Consumes, Keeps, IsAtEnd};
ghost use Rattle.dist_secret.specs.Hearing.{Hears, AnswersUnlessFailed};

use crate::cookie::Cookie;
use crate::cookie_error::CookieError;
use std::alloc::Global;
use std::io::Read;

// One more than a text may have, so that a longer one is known without reading it to its end.
const MOST_READ: usize = 4097;

// One read. None is made after one that failed.
fn read_once<R: Read>(reader: &mut R, has_failed: &mut bool, room: &mut [u8]) -> Option<usize>
    requires { has_failed.old ≡ false }
    ensures len { length room.new ≡ length room.old }
    ensures marks { has_failed.new ≡ is_none result }
    ensures fits { IfSome result (λ n. n ≤ length room.new) }
    ensures kept { IfNone result (Keeps (R.remaining reader.old) (R.remaining reader.new)) }
    ensures taken { IfSome result (λ n. Consumes (R.remaining reader.old) (R.remaining reader.new) (take n room.new)) }
    ensures end { IfSome result (λ n. n ≡ 0 → 0 < length room.new → IsAtEnd (R.remaining reader.new)) }
{
    match reader.read(room) {
        Ok(n) => Some(n),
        Err(_error) => {
            *has_failed = true;
            None
        }
    }
}

// Fills the buffer from the front until it is full or nothing more comes, and returns how far. `None` where a read failed.
fn fill<R: Read>(reader: &mut R, has_failed: &mut bool, room: &mut [u8]) -> Option<usize>
    requires { has_failed.old ≡ false }
    ensures marks { has_failed.new ≡ is_none result }
    ensures len { length room.new ≡ length room.old }
    ensures filled { IfSome result (λ n. n ≤ length room.new) }
    ensures taken { MatchOption result
        ((bytes : List ℕ) × Consumes (R.remaining reader.old) (R.remaining reader.new) bytes × (length bytes < length room.new))
        (λ n. Consumes (R.remaining reader.old) (R.remaining reader.new) (take n room.new)) }
    ensures end { IfSome result (λ n. n < length room.new → IsAtEnd (R.remaining reader.new)) }
{
    let mut at = 0;
    while at < room.len() {
        match read_once(reader, has_failed, &mut room[at..]) {
            Some(0) => return Some(at),
            Some(n) => at += n,
            None => return None,
        }
    }
    Some(at)
}

// Reads until the buffer is full or nothing more comes, and takes the cookie of the bytes read.
fn take_cookie<R: Read>(
    alloc: Global,
    reader: &mut R,
    has_failed: &mut bool,
) -> Result<Cookie, CookieError>
    requires { has_failed.old ≡ false }
    ensures hears { Hears (R.remaining reader.old) (R.remaining reader.new) result }

    // `ReadFailed` is returned exactly where a read failed.
    ensures marks { IsErrOf result CookieError.ReadFailed ↔ IsTrue has_failed.new }
{
    let mut room = [0u8; MOST_READ];
    let Some(len) = fill(reader, has_failed, &mut room) else {
        return Err(CookieError::ReadFailed);
    };
    Cookie::from_bytes(alloc, &room[..len])
}

/// The cookie of all that a reader gives, in pieces of any size.
///
/// At most 4,097 bytes are read, and no read is made after one that failed, one that gave no bytes, or the one that
/// filled the 4,097. Refusals, the first that holds: ReadFailed, and then those of [`Cookie::from_bytes`].
pub fn read_cookie<R: Read>(alloc: Global, reader: &mut R) -> Result<Cookie, CookieError>
    // Unless a read failed, the answer is the cookie of all that the reader had to give, or the refusal of that.
    ensures exact { IfSome (R.remaining reader.old) (λ text. AnswersUnlessFailed result text) }

    // What was taken from the reader, and what was returned for it.
    ensures hears { Hears (R.remaining reader.old) (R.remaining reader.new) result }
{
    let mut has_failed = false;
    take_cookie(alloc, reader, &mut has_failed)
}
