//! The words of the command line that are not values: options and switches.

use crate::settings::Task;

/// What the next word is, after an option.
#[derive(Clone, Copy)]
pub enum AwaitedValue {
    /// The port.
    Port,
    /// The addresses.
    Addresses,
    /// The seconds.
    Seconds,
    /// The most clients.
    Clients,
    /// The form of the log.
    Log,
    /// The place at which the figures are served.
    Metrics,
}

/// What a word asks for that is not the value of another.
#[derive(Clone, Copy)]
pub enum Key {
    /// The next word is this.
    Takes(AwaitedValue),
    /// Do this, and don't serve.
    Does(Task),
    /// The sockets are handed over.
    Systemd,
    /// Log nothing.
    Quiet,
    /// `epmd` would run in the background, be stopped, unregister a node or print what it does; this program does not.
    NotDone,
}

/// All words, each once; some are spelled in two ways, as by `epmd` and as by the other programs.
pub const KEYS: [(&str, Key); 21] = [
    ("-port", Key::Takes(AwaitedValue::Port)),
    ("--epmd-port", Key::Takes(AwaitedValue::Port)),
    ("-address", Key::Takes(AwaitedValue::Addresses)),
    ("--address", Key::Takes(AwaitedValue::Addresses)),
    ("-packet_timeout", Key::Takes(AwaitedValue::Seconds)),
    ("-max_clients", Key::Takes(AwaitedValue::Clients)),
    ("-systemd", Key::Systemd),
    ("-names", Key::Does(Task::Names)),
    ("-quiet", Key::Quiet),
    ("-log", Key::Takes(AwaitedValue::Log)),
    ("-metrics", Key::Takes(AwaitedValue::Metrics)),
    ("--help", Key::Does(Task::Help)),
    ("-help", Key::Does(Task::Help)),
    ("-h", Key::Does(Task::Help)),
    ("--version", Key::Does(Task::Version)),
    ("-V", Key::Does(Task::Version)),
    ("-daemon", Key::NotDone),
    ("-kill", Key::NotDone),
    ("-stop", Key::NotDone),
    ("-d", Key::NotDone),
    ("-relaxed_command_check", Key::NotDone),
];
