//! The cookie that is tried: that of the named file, or of the home folder, if it has one.

ghost use Rattle.std.specs.Prelude.{◌≡◌, IfOk, None};
ghost use Rattle.distping_words.specs.declared.command.CookieSource.TheVariants.{Nowhere};

use crate::command::{Choices, CookieSource};
use crate::refusal::Refusal;
use dist_names::{escape, quote};
use dist_program::{CookieFault, cookie_at, home_cookie};
use dist_secret::{Cookie, CookieError};
use std::alloc::{AllocError, Global};
use std::fs::{self, File};
use std::io;

// An error in the system's words, safe to print.
fn words_of(alloc: Global, error: &io::Error) -> Result<String, AllocError> {
    let text = format!(in alloc; "{error}")?;
    escape(alloc, text.as_bytes())
}

// Why the file at this path cannot be read.
fn reason(rt: &HostRuntime, path: &str) -> Result<String, AllocError> {
    let alloc = rt.alloc();
    let kind = match fs::metadata(rt, path) {
        Ok(metadata) => metadata.file_type(),
        Err(error) => return words_of(alloc, &error),
    };
    if kind.is_dir() {
        return String::from_str(alloc, "it is a folder");
    }
    if !kind.is_file() {
        return String::from_str(alloc, "it is a pipe, a socket or a device");
    }
    match File::open(rt, path) {
        Ok(_) => String::from_str(alloc, "a read failed"),
        Err(error) => words_of(alloc, &error),
    }
}

// The sentence about a file that cannot be read: its path, and the reason.
fn sentence(rt: &HostRuntime, path: &str) -> Result<String, AllocError> {
    let (file, why) = (quote(rt.alloc(), path.as_bytes())?, reason(rt, path)?);
    format!(in rt.alloc(); "OpenFailed: the cookie's file {file}: {why}")
}

// The refusal of the file at this path for this fault. Of a file that cannot be read it has path and reason.
fn refuse_file(rt: &HostRuntime, path: &str, fault: CookieFault) -> Refusal {
    match fault {
        CookieFault::OpenFailed
        | CookieFault::NotStored
        | CookieFault::NoCookie(CookieError::ReadFailed) => match sentence(rt, path) {
            Ok(sentence) => Refusal::CookieUnread(sentence),
            Err(error) => Refusal::from(error),
        },
        fault => Refusal::NoCookie(fault),
    }
}

/// The cookie of the named file, or of the home folder, if it has one.
pub fn cookie_of(rt: &HostRuntime, choices: &Choices<'_>) -> Result<Option<Cookie>, Refusal>
    ensures none { choices.now.cookie ≡ Nowhere → IfOk result (λ cookie. cookie ≡ None) }
{
    match choices.cookie {
        CookieSource::Nowhere => Ok(None),
        CookieSource::File(path) => match cookie_at(rt, path, choices.takes_any_file) {
            Ok(cookie) => Ok(Some(cookie)),
            Err(fault) => Err(refuse_file(rt, path, fault)),
        },
        CookieSource::Home => Ok(home_cookie(rt, choices.takes_any_file)?),
    }
}
