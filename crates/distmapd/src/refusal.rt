//! Why the words are refused, and which of them is bad.

use thiserror::Error;

/// Why a word is bad.
#[derive(Clone, Copy, Debug, PartialEq, Eq, Error)]
pub enum WordError {
    /// The program has no such word.
    #[error("no such word: 'distmapd --help' lists them")]
    UnknownWord,
    /// A word of `epmd` for something that this program does not do.
    #[error("-daemon, -kill, -stop, -d and -relaxed_command_check are not done here: it stays in the foreground, and a signal ends it")]
    NotDone,
    /// The port is not a number from 1 to 65,535.
    #[error("-port and --epmd-port want a number from 1 to 65535")]
    BadPort,
    /// The time is not a number of seconds from 1 to 4,294,967,295.
    #[error("-packet_timeout wants a number of seconds from 1 to 4294967295")]
    BadTimeout,
    /// The most clients are not a number from 1 to 4,294,967,295.
    #[error("-max_clients wants a number from 1 to 4294967295")]
    BadClients,
    /// The log has no such form.
    #[error("-log wants text or json")]
    BadLog,
    /// The place of the figures is neither a port from 1 to 65,535 nor an IP address and such a port.
    #[error("-metrics wants a port number from 1 to 65535, or an IP address and one, as 10.0.0.1:9100 or [::1]:9100")]
    BadMetrics,
    /// It is the last word, and an option.
    #[error("the last word wants a value behind it")]
    NoValue,
}

/// The first bad word, and why. The user is to blame.
#[derive(Clone, Copy)]
pub struct BadWord<'a> {
    /// The word.
    pub word: &'a str,
    /// Why it is bad.
    pub why: WordError,
}
