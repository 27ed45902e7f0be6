//! The settings that the command line asks for.

/// What the program is to do.
#[derive(Clone, Copy)]
pub enum Task {
    /// Serve as a port mapper.
    Serve,
    /// Print the names that the port mapper of this host knows.
    Names,
    /// Print the help.
    Help,
    /// Print the version.
    Version,
}

/// The form in which a log is written.
#[derive(Clone, Copy)]
pub enum LogForm {
    /// Words, for people to read.
    Text,
    /// Each line is a JSON object.
    Json,
}

/// What the words ask for.
#[derive(Clone, Copy)]
pub struct Settings<'a> {
    /// The task.
    pub task: Task,
    /// The port of the port mapper.
    pub port: u16,
    /// The addresses at which it listens beside the loopback, as they were written. `None`: all addresses.
    pub addresses: Option<&'a str>,
    /// After how many seconds a client is closed that has not asked.
    pub seconds: u32,
    /// The most clients at once.
    pub clients: u32,
    /// Whether the service manager hands the sockets over.
    pub systemd: bool,
    /// The form of the log. `None`: no log.
    pub log: Option<LogForm>,
    /// The place at which the figures are served, as it was written. `None`: they are not.
    pub metrics: Option<&'a str>,
}
