//! Standard error, as the log is written to it: what it does not take at once is lost, so that nothing waits.

use libc::STDERR_FILENO;
use libc::net::{POLLOUT, poll};
use libc::types::pollfd;
use std::io::{self, ErrorKind, Write};

// The path by which standard error can be opened anew. Source: proc(5).
const OWN_STANDARD_ERROR: &[u8] = b"/proc/self/fd/2";

/// Standard error.
#[derive(Drop)]
pub struct StandardError {
    fd: i32,
    // Whether only a part of the last line was written.
    is_cut: bool,
}

// A descriptor for the terminal that standard error is, with writes that do not wait: a terminal reports that it has room even if it
// has less than a line. It is opened anew, so that the shell, which shares the open file, does not get the setting. If it can't be
// opened, as behind `su`, the shell does get it: a node that waits for its registration is worse.
fn terminal() -> i32 {
    let anew = os::open_append(OWN_STANDARD_ERROR);
    let fd = if anew < 0 { STDERR_FILENO } else { anew };
    let _ = os::set_nonblocking(fd, true);
    fd
}

/// What a descriptor is ready for, of writing alone, and what is wrong with it: no bit if it is neither. `None`: the system does not say.
pub fn ready_events(fd: i32) -> Option<i16> {
    let mut fds = [pollfd {
        fd,
        events: POLLOUT,
        revents: 0,
    }];
    (poll(&mut fds, 0) >= 0).then_some(fds[0].revents)
}

impl StandardError {
    /// It takes no memory.
    pub fn open() -> StandardError {
        let fd = if libc::isatty(STDERR_FILENO) == 1 {
            terminal()
        } else {
            STDERR_FILENO
        };
        StandardError { fd, is_cut: false }
    }

    // Ends a line of which only a part was written, so that the next begins a new one. Returns whether that is done.
    fn end_line(&mut self) -> bool {
        if self.is_cut {
            self.is_cut = libc::write(self.fd, b"\n") != 1;
        }
        !self.is_cut
    }
}

impl Write for StandardError {
    // It does not wait: a pipe or a socket that has room takes a line. The runtime ignores SIGPIPE from the start, so a write that has no
    // reader fails and does not end the program.
    fn write(&mut self, bytes: &[u8]) -> io::Result<usize> {
        if ready_events(self.fd).is_some_and(|events| events & POLLOUT != 0)
            && self.end_line()
            && let Ok(count) = usize::try_from(libc::write(self.fd, bytes))
        {
            self.is_cut = 0 < count && count < bytes.len();
            return Ok(count);
        }
        Err(io::Error::from(ErrorKind::WouldBlock))
    }

    fn flush(&mut self) -> io::Result<()> {
        Ok(())
    }
}
