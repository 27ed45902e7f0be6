//! The process as a command sees it: its files, its connections, and its terminal.

ghost use Rattle.std.specs.Prelude.{None};
ghost use Rattle.dist_stream.specs.Stream.{new_stream};

use crate::system::System;
use dist_program::{open_cookie, talk_here};
use dist_stream::DeadlineStream;
use std::fs::File;
use std::io::{self, ErrorKind, IsTerminal};

/// The system of the process. Contracts don't know what a file or a connection gives.
#[derive(Clone, Copy)]
pub struct HostSystem<'a> {
    rt: &'a HostRuntime,
    // Whether standard output was a terminal when the program began.
    is_terminal: bool,
}

impl<'a> HostSystem<'a> {
    /// The system of this runtime.
    pub fn new(rt: &'a HostRuntime) -> HostSystem<'a> {
        HostSystem {
            rt,
            is_terminal: rt.stdout().is_terminal(),
        }
    }
}

impl<'a> System for HostSystem<'a> {
    type File = File;

    type Talk = DeadlineStream<&'a HostRuntime>;

    ghost bytes_at = { λ _ _. None };

    ghost talk_at = { λ _ _. new_stream None None };

    ghost has_terminal = { λ s. s.is_terminal };

    fn open(&self, path: &str) -> io::Result<File> {
        File::open(self.rt, path)
    }

    fn open_cookie(&self, path: &str) -> io::Result<File> {
        match open_cookie(self.rt, path) {
            Ok(file) => Ok(file),
            Err(_) => Err(io::Error::from(ErrorKind::InvalidInput)),
        }
    }

    // The connection is made within 8 seconds, and falls quiet 5 seconds later.
    fn connect(&self, port: u16) -> io::Result<DeadlineStream<&'a HostRuntime>> {
        talk_here(self.rt, port)
    }

    fn is_terminal(&self) -> bool {
        self.is_terminal
    }
}
