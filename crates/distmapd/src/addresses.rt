//! The addresses of clients, by the numbers of their connections: when a log reports an event, its client has mostly left.

use dist_epmd_clients::Clients;
use dist_stream::SocketStream;
use std::alloc::Global;
use std::collections::BTreeMap;
use std::net::IpAddr;

// The most connections that are looked at in one round. More than are accepted in one.
const MOST_NEW: usize = 8192;

// So many addresses of clients that have left may be kept, and as many as there are clients.
const MOST_LEFT: usize = 1024;

/// The addresses of clients. An address is missing if memory ran out, or the connection ended in the round in which it was accepted.
#[derive(Drop)]
pub struct ClientAddresses {
    known: BTreeMap<u64, IpAddr>,
    // The number of the next connection.
    next: u64,
    // When a gap in the numbers was last looked for, and how many clients had made room by then.
    looked: (u64, u64),
}

impl ClientAddresses {
    /// No address yet. It takes no memory.
    pub fn new(alloc: Global) -> ClientAddresses {
        ClientAddresses {
            known: BTreeMap::new(alloc),
            next: 0,
            looked: (0, 0),
        }
    }

    /// The addresses.
    pub fn table(&self) -> &BTreeMap<u64, IpAddr> {
        &self.known
    }

    // Passes over the numbers of connections that ended in the round in which they were accepted. Those that were accepted in this
    // round have not asked, so none comes before the oldest of these.
    fn skip_gap(&mut self, clients: &Clients<SocketStream>, now: u64) {
        let looked = (now, clients.counts().made_room);
        if looked != self.looked {
            self.looked = looked;
            if let Some((oldest, _)) = clients.oldest() {
                self.next = self.next.max(oldest);
            }
        }
    }

    /// Notes the addresses of the clients that were accepted since the last call, in this second. Call it after each round: a client
    /// asks in a later one than it is accepted.
    pub fn note(&mut self, clients: &Clients<SocketStream>, now: u64) {
        self.skip_gap(clients, now);
        for _ in 0..MOST_NEW {
            let Some(stream) = clients.stream(self.next) else {
                return;
            };
            if let Ok(address) = stream.get_ref().peer_addr() {
                let host = address.ip().to_canonical();
                let _ = self.known.insert(self.next, host);
            }
            self.next = self.next.saturating_add(1);
        }
    }

    /// Drops the addresses of clients that have left, once they are many.
    pub fn forget(&mut self, clients: &Clients<SocketStream>) {
        if self.known.len() / 2 > clients.len().saturating_add(MOST_LEFT) {
            self.known.retain(|conn, _| clients.stream(*conn).is_some());
        }
    }
}
