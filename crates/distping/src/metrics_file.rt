//! The file of `--prometheus`: replaced whole, by way of a fresh file beside it, so that whoever reads it never sees a part.
//!
//! Nothing but a regular file is ever replaced, and no link is followed.

use dist_names::{escape, quote};
use dist_program::draw;
use distping_words::{Fault, Refusal};
use std::alloc::AllocError;
use std::fs::{self, File};
use std::io::{self, ErrorKind, Write};

// Why the file is not written.
#[derive(Drop)]
enum Unwritten {
    // It is there, and no regular file.
    Kind,
    // The system's error.
    Error(io::Error),
    // Memory ran out.
    NoMemory,
}

impl From<io::Error> for Unwritten {
    fn from(error: io::Error) -> Unwritten {
        Unwritten::Error(error)
    }
}

impl From<AllocError> for Unwritten {
    fn from(_error: AllocError) -> Unwritten {
        Unwritten::NoMemory
    }
}

// Whether a file may take this path: nothing is there yet, or a regular file.
fn check_place(rt: &HostRuntime, path: &str) -> Result<(), Unwritten> {
    match fs::symlink_metadata(rt, path) {
        Ok(metadata) if metadata.is_file() => Ok(()),
        Ok(_) => Err(Unwritten::Kind),
        Err(error) if error.kind() == ErrorKind::NotFound => Ok(()),
        Err(error) => Err(Unwritten::Error(error)),
    }
}

// A path beside this one that nobody foresees.
fn path_beside(rt: &HostRuntime, path: &str) -> Result<String, Unwritten> {
    let number = draw(rt)?;
    Ok(format!(in rt.alloc(); "{path}.{number:08x}.tmp")?)
}

// Writes these bytes to a file that was not there before.
fn write_fresh(rt: &HostRuntime, path: &str, bytes: &[u8]) -> io::Result<()> {
    let mut file = File::create_new(rt, path)?;
    file.write_all(bytes)
}

// Replaces the file by one of these bytes.
fn replace(rt: &HostRuntime, path: &str, bytes: &[u8]) -> Result<(), Unwritten> {
    check_place(rt, path)?;
    let beside = path_beside(rt, path)?;
    let mut done = write_fresh(rt, &beside, bytes);
    if done.is_ok() {
        done = fs::rename(rt, beside.as_str(), path);
    }
    if let Err(error) = done {
        let _ = fs::remove_file(rt, beside.as_str());
        return Err(Unwritten::Error(error));
    }
    Ok(())
}

// Tries whether a file can be made beside it.
fn try_place(rt: &HostRuntime, path: &str) -> Result<(), Unwritten> {
    check_place(rt, path)?;
    let beside = path_beside(rt, path)?;
    write_fresh(rt, &beside, b"")?;
    Ok(fs::remove_file(rt, beside.as_str())?)
}

// The sentence about a file that is not written: its path, and the reason.
fn sentence(rt: &HostRuntime, path: &str, why: &Unwritten) -> Result<String, AllocError> {
    let alloc = rt.alloc();
    let file = quote(alloc, path.as_bytes())?;
    let reason = match why {
        Unwritten::Kind => String::from_str(alloc, "it is no regular file")?,
        Unwritten::NoMemory => String::from_str(alloc, "out of memory")?,
        Unwritten::Error(error) => {
            let text = format!(in alloc; "{error}")?;
            escape(alloc, text.as_bytes())?
        }
    };
    format!(in alloc; "WriteFailed: the file of --prometheus {file}: {reason}")
}

/// Refuses the file at this path if it can't be replaced: it is a link, a folder, a pipe or a device, or no file can be made beside it.
pub fn check_metrics(rt: &HostRuntime, path: &str) -> Result<(), Refusal> {
    match try_place(rt, path) {
        Ok(()) => Ok(()),
        Err(why) => Err(Refusal::BadWord(sentence(rt, path, &why)?)),
    }
}

/// Replaces the file at this path by one of these bytes. Returns the sentence about why not, if it is not written.
pub fn replace_metrics(
    rt: &HostRuntime,
    path: &str,
    bytes: &[u8],
) -> Result<Option<String>, Fault> {
    match replace(rt, path, bytes) {
        Ok(()) => Ok(None),
        Err(why) => Ok(Some(sentence(rt, path, &why)?)),
    }
}
