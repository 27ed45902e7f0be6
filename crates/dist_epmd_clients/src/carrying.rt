//! What came on a connection, and what is written on it, where its stream is held.

ghost use Rattle.std.specs.Prelude.{◌≡◌, ◌<◌, IfSome, IfNone, None, length};
ghost use Rattle.std.specs.{Ordering.nat_cmp, BTreeMap.get, BTreeMap.IsUnchanged};
ghost use Rattle.dist_stream.specs.Stream.{Reads, Writes};
ghost use Rattle.dist_epmd_clients.specs.{Carrying.Carries, Carrying.Moves, Clients.client_of, Clients.next_of, Clients.IsSame, Reporting.journal_of};

use crate::client::Client;
use crate::holding::Clients;
use dist_stream::{Heard, Stream, Took};
use std::collections::BTreeMap;

fn read_from_client<S: Stream>(
    clients: &mut BTreeMap<u64, Client<S>>,
    conn: u64,
    room: &mut [u8],
) -> Option<Heard>
    // The caller's.
    requires { 0 < length room.old }
    ensures some { IfSome result (λ heard. Moves (λ a b. Reads (S.meaning a) (S.meaning b) room.new heard) conn clients.old clients.new) }
    ensures none { IfNone result (get nat_cmp clients.old conn ≡ None) }
    ensures unchanged { IfNone result (IsUnchanged clients.old clients.new) }
{
    let client = clients.get_mut(&conn)?;
    Some(client.stream.read(room))
}

fn write_to_client<S: Stream>(
    clients: &mut BTreeMap<u64, Client<S>>,
    conn: u64,
    bytes: &[u8],
) -> Option<Took>
    // The caller's.
    requires { 0 < length bytes.now }
    ensures some { IfSome result (λ took. Moves (λ a b. Writes (S.meaning a) (S.meaning b) bytes.now took) conn clients.old clients.new) }
    ensures none { IfNone result (get nat_cmp clients.old conn ≡ None) }
    ensures unchanged { IfNone result (IsUnchanged clients.old clients.new) }
{
    let client = clients.get_mut(&conn)?;
    Some(client.stream.write(bytes))
}

impl<S: Stream + Drop> Clients<S> {
    /// Reads what has come on a connection, by one read. `hear` decides what the bytes mean. `None`: no such client
    /// is here, and nothing is read.
    pub fn read(&mut self, conn: u64, room: &mut [u8]) -> Option<Heard>
        // The caller has room for bytes.
        requires { 0 < length room.old }
        ensures some { IfSome result (λ heard. Carries (λ a b. Reads (S.meaning a) (S.meaning b) room.new heard) conn self.old self.new) }
        ensures none { IfNone result (client_of self.old conn ≡ None) }
        ensures unchanged { IfNone result (IsSame self.old self.new) }
        ensures next { next_of self.new ≡ next_of self.old }
        ensures journal { journal_of self.new ≡ journal_of self.old }
    {
        read_from_client(&mut self.clients, conn, room)
    }

    /// Writes some bytes on a connection, by one write. `None`: no such client is here, and nothing is written.
    pub fn write(&mut self, conn: u64, bytes: &[u8]) -> Option<Took>
        // The caller has something to write.
        requires { 0 < length bytes.now }
        ensures some { IfSome result (λ took. Carries (λ a b. Writes (S.meaning a) (S.meaning b) bytes.now took) conn self.old self.new) }
        ensures none { IfNone result (client_of self.old conn ≡ None) }
        ensures unchanged { IfNone result (IsSame self.old self.new) }
        ensures next { next_of self.new ≡ next_of self.old }
        ensures journal { journal_of self.new ≡ journal_of self.old }
    {
        write_to_client(&mut self.clients, conn, bytes)
    }
}
