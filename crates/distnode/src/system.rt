//! What a command uses from outside beside its streams.

use dist_stream::Stream;
use std::io::{self, Read};

/// The files and the port mapper that an order names, and whether standard output is a terminal.
///
/// Contracts see what the file at each path contains, and the state of a new connection to the port mapper at each port, each if it is
/// known.
pub trait System {
    ghost use Rattle.std.specs.Prelude.{◌≡◌, ℕ, Bool, List, Option, IfOk};
    ghost use Rattle.dist_stream.specs.Stream.{StreamState};

    /// A file that was opened.
    type File: Read + Drop;

    /// A connection to a port mapper.
    type Talk: Stream + Drop;

    ghost bytes_at: { Self → List ℕ → Option (List ℕ) };

    ghost talk_at: { Self → ℕ → StreamState };

    ghost has_terminal: { Self → Bool };

    /// Opens the file at a path.
    fn open(&self, path: &str) -> io::Result<Self::File>
        ensures { IfOk result (λ file. Self.File.remaining file ≡ bytes_at self.now path.now) };

    /// Opens the file of a cookie at a path. A pipe, a socket or a device is refused, since a read of it may wait.
    fn open_cookie(&self, path: &str) -> io::Result<Self::File>
        ensures { IfOk result (λ file. Self.File.remaining file ≡ bytes_at self.now path.now) };

    /// Connects to the port mapper at a port of this host.
    fn connect(&self, port: u16) -> io::Result<Self::Talk>
        ensures { IfOk result (λ talk. Self.Talk.meaning talk ≡ talk_at self.now port) };

    /// Whether standard output is a terminal.
    fn is_terminal(&self) -> bool
        ensures { result ≡ has_terminal self.now };
}
