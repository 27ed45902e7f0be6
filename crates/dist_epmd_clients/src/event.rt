//! What happened at a port mapper, for whoever keeps a log or counts.

ghost use Rattle.std.specs.Prelude.{◌≡◌};
ghost use Rattle.dist_epmd_clients.specs.Journal.{is_line};

use dist_names::ByteString;

/// What happened to a client. `conn` is the number of its connection.
#[derive(Drop)]
pub enum ClientEvent {
    /// Its node is registered, under this name and at this port.
    Registered {
        conn: u64,
        name: ByteString,
        port: u16,
    },
    /// The connection of a registered node is over, and its registration with it.
    Ended {
        conn: u64,
        name: ByteString,
    },
    /// Its registration was refused: a node of this name is registered, or the name is none, or there is no room.
    Refused {
        conn: u64,
        name: ByteString,
        is_taken: bool,
    },
    /// It asked for a node, and was answered.
    LookedUp,
    /// It asked for all names, and was answered.
    Listed,
    /// It asked for nothing that is answered: no request, one that is not served here, or a registration from another host.
    Unanswered {
        conn: u64,
        is_local: bool,
    },
    /// It had not asked, and made room for a later one.
    MadeRoom {
        conn: u64,
    },
    /// So many had not asked within their time, and were closed.
    Late {
        count: u64,
    },
    /// Memory ran out for what it sent.
    NoMemory {
        conn: u64,
    },
}

impl ClientEvent {
    /// Whether a log has a line for it.
    pub fn is_line(&self) -> bool
        ensures { result ≡ is_line self.now }
    {
        !matches!(self, ClientEvent::LookedUp | ClientEvent::Listed)
    }
}
