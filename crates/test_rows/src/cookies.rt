//! Cookies: `text BYTES` makes a cookie of a text, `digest TEXT CHALLENGE` its digest with a challenge, and `file BYTES CALL,CALL..`
//! reads the text with these calls of its reader; without calls in the row, with the pieces of the run.

use crate::digits::{bytes_in, put_bytes, put_number, put_word, word};
use crate::readers::Scripted;
use crate::refusals::put_refused;
use dist_secret::{Cookie, CookieError, digest, read_cookie};
use std::alloc::Global;

/// Reports the cookie or the refusal, for a file also the number of reads; or the digest.
pub fn put_cookie(alloc: Global, printed: &mut String, case: &str, pieces: &str) -> Option<()> {
    let text = bytes_in(alloc, word(case, 1))?;
    match word(case, 0) {
        "text" => put_found(alloc, printed, Cookie::from_bytes(alloc, &text)),
        "digest" => put_digest(alloc, printed, &text, word(case, 2)),
        _ => put_file(alloc, printed, &text, calls_of(word(case, 2), pieces)),
    }
}

fn put_found(
    alloc: Global,
    printed: &mut String,
    found: Result<Cookie, CookieError>,
) -> Option<()> {
    match found {
        Ok(cookie) => put_bytes(alloc, printed, cookie.bytes()),
        Err(why) => put_refused(printed, &why),
    }
}

fn put_digest(alloc: Global, printed: &mut String, text: &[u8], challenge: &str) -> Option<()> {
    let challenge = challenge.parse::<u32>().ok()?;
    let cookie = Cookie::from_bytes(alloc, text).ok()?;
    put_bytes(alloc, printed, &digest(&cookie, challenge))
}

// The calls that a row names, or those of the run.
fn calls_of<'c>(said: &'c str, pieces: &str) -> &'c str {
    if !said.is_empty() {
        said
    } else if pieces == "bytes" {
        "1"
    } else {
        "5000"
    }
}

fn put_file(alloc: Global, printed: &mut String, text: &[u8], calls: &str) -> Option<()> {
    let reads = 0;
    let mut reader = Scripted { text, calls, reads };
    put_found(alloc, printed, read_cookie(alloc, &mut reader))?;
    put_word(printed, "reads")?;
    put_number(printed, reader.reads)
}
