//! Notifies the service manager that the program listens (systemd, sd_notify(3)).

use libc::net::{AF_UNIX, MSG_DONTWAIT, MSG_NOSIGNAL, SOCK_CLOEXEC, SOCK_DGRAM, sendto, socket};

// The message.
const READY: &[u8] = b"READY=1\n";

// The size of an address, and where the name begins in it, after the address family. Source: unix(7).
const ADDRESS: usize = 128;

const NAME: usize = 2;

// The most bytes of a name.
const MOST: usize = 107;

/// Sends the message to the socket of this name. Returns whether it was taken. A name that begins with `@` is not a file's: a 0 replaces
/// the `@`.
pub fn say_ready(name: &[u8]) -> bool {
    if name.is_empty() || name.len() > MOST {
        return false;
    }
    let mut address = [0u8; ADDRESS];
    address[..NAME].copy_from_slice(&(AF_UNIX as u16).to_ne_bytes());
    address[NAME..NAME + name.len()].copy_from_slice(name);
    if address[NAME] == b'@' {
        address[NAME] = 0;
    }
    let length = (NAME + name.len()) as u32;
    let fd = unsafe { socket(AF_UNIX, SOCK_DGRAM | SOCK_CLOEXEC, 0) };
    if fd < 0 {
        return false;
    }
    let sent = unsafe { sendto(fd, READY, MSG_NOSIGNAL | MSG_DONTWAIT, &address, length) };
    let _ = libc::close(fd);
    sent == READY.len() as isize
}
