//! The cookie: which file has it, and whether that file may be read. Like a node, a program takes no file that others than
//! its owner may use, unless it is told to, and none whose bytes somebody else sends while it waits.

ghost use Rattle.std.specs.Prelude.{◌≡◌, ◌↔◌, ◌⊎◌, IfErr, IsTrue, None, Some, option_copied};
ghost use Rattle.std.specs.Fs.{IsDir, IsFile};
ghost use Rattle.dist_program.specs.CookieFile.{is_private, ReadsCookie, RefusesFile};

use crate::cookie_fault::CookieFault;
use crate::text_error::TextError;
use crate::variables::variable;
use dist_names::quote;
use dist_secret::{Cookie, read_cookie};
use std::alloc::{AllocError, Global};
use std::fs::{self, File, FileType};
use std::io::Read;
use std::os::unix::fs::PermissionsExt;

// The bits of a file's mode by which its group and all others may read, write and run it.
const OTHERS: u32 = 0o077;

/// Whether only the owner of a file of this mode may use it.
pub fn is_private(mode: u32) -> bool
    ensures { result ≡ is_private mode }
{
    mode & OTHERS == 0
}

// Whether nobody but its owner may use an open file: false where the system does not give its mode.
fn is_private_file(file: &File) -> bool {
    let metadata = file.metadata();
    metadata.is_ok_and(|it| is_private(it.permissions().mode()))
}

// Whether a file of this kind stands on a disk. The bytes of a pipe, a socket or a device come when somebody else sends them. (A
// folder is opened, and cannot be read.)
fn is_stored(kind: FileType) -> bool
    ensures { IsTrue result ↔ (IsFile kind ⊎ IsDir kind) }
{
    kind.is_file() || kind.is_dir()
}

/// Opens the file at this path, where its kind is one that is read without waiting. The kind is checked before: a named pipe
/// cannot even be opened before somebody writes into it.
pub fn open_cookie(rt: &HostRuntime, path: &str) -> Result<File, CookieFault>
    ensures { IfErr result (λ fault. (fault ≡ CookieFault.OpenFailed) ⊎ (fault ≡ CookieFault.NotStored)) }
{
    let Ok(metadata) = fs::metadata(rt, path) else {
        return Err(CookieFault::OpenFailed);
    };
    if !is_stored(metadata.file_type()) {
        return Err(CookieFault::NotStored);
    }
    File::open(rt, path).map_err(|_| CookieFault::OpenFailed)
}

/// The cookie in an open file.
pub fn cookie_in<F: Read>(alloc: Global, file: &mut F) -> Result<Cookie, CookieFault>
    ensures { ReadsCookie (F.remaining file.old) (F.remaining file.new) result }
{
    match read_cookie(alloc, file) {
        Ok(cookie) => Ok(cookie),
        Err(error) => Err(CookieFault::NoCookie(error)),
    }
}

/// The cookie in the file at this path. The file that was opened is the one that is checked, so that no other can be put in its
/// place in between. With `is_unsafe` it may be one that others than its owner can use.
#[tactic(auto, using(crate::proofs::Cookies::unopened, crate::proofs::Cookies::unread))]
pub fn cookie_at(rt: &HostRuntime, path: &str, is_unsafe: bool) -> Result<Cookie, CookieFault>
    ensures { IfErr result (RefusesFile (Some path.now) is_unsafe) }
{
    let mut file = open_cookie(rt, path)?;
    if is_unsafe || is_private_file(&file) {
        cookie_in(rt.alloc(), &mut file)
    } else {
        Err(CookieFault::NotPrivate(quote(rt.alloc(), path.as_bytes())?))
    }
}

// The file of the home folder that has the cookie, where `erl` looks for it. A folder whose name is not UTF-8 counts as none.
fn home_file(rt: &HostRuntime) -> Result<Option<String>, AllocError> {
    match variable(rt, "HOME") {
        Ok(Some(home)) => Ok(Some(format!(in rt.alloc(); "{home}/.erlang.cookie")?)),
        Ok(None) | Err(TextError::NoText) => Ok(None),
        Err(TextError::NoMemory) => Err(AllocError),
    }
}

/// The cookie of the home folder, `$HOME/.erlang.cookie`: `None` where there is no such folder, or no file in it that can be opened.
#[tactic(auto, using(crate::proofs::Cookies::somewhere))]
pub fn home_cookie(rt: &HostRuntime, is_unsafe: bool) -> Result<Option<Cookie>, CookieFault>
    ensures { IfErr result (RefusesFile None is_unsafe) }
{
    let Some(path) = home_file(rt)? else {
        return Ok(None);
    };
    match cookie_at(rt, &path, is_unsafe) {
        Ok(cookie) => Ok(Some(cookie)),
        Err(CookieFault::OpenFailed) => Ok(None),
        Err(fault) => Err(fault),
    }
}

/// The cookie of the named file, or else of the home folder; where that has none, it could not be opened.
pub fn find_cookie(
    rt: &HostRuntime,
    file: Option<&str>,
    is_unsafe: bool,
) -> Result<Cookie, CookieFault>
    ensures { IfErr result (RefusesFile (option_copied file.entry) is_unsafe) }
{
    match file {
        Some(path) => cookie_at(rt, path, is_unsafe),
        None => home_cookie(rt, is_unsafe)?.ok_or(CookieFault::OpenFailed),
    }
}
