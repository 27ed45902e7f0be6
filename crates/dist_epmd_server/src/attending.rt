//! What is done for a connection when it is ready: its client is served, or what is owed on it goes on.

ghost use Rattle.dist_epmd_clients.specs.Clients.{OthersStay};
ghost use Rattle.dist_epmd_server.specs.Attending.{Attends};

use crate::owing::Owing;
use crate::turns::{ReadStep, read_all};
use dist_epmd_clients::Clients;
use dist_stream::Stream;
use std::alloc::Global;

/// Does what is to be done for a connection that is ready, in this second, and returns whether it is to be watched again: more may
/// have come than was read, or something is owed, and its stream took no more. A client that is here is served: some reads are made,
/// and what the table answers is sent. Where it has left, what is owed to it goes on. Where the room is empty nothing is read; where
/// nobody is here and nothing is owed, nothing happens.
pub fn attend<S: Stream + Drop>(
    clients: &mut Clients<S>,
    owing: &mut Owing<S>,
    alloc: Global,
    conn: u64,
    room: &mut [u8],
    now: u64,
) -> bool
    ensures attends { Attends S.meaning conn now clients.old clients.new owing.old owing.new result }
    ensures others { OthersStay conn clients.old clients.new }
{
    if clients.stream(conn).is_none() {
        return owing.go_on(conn);
    }
    match read_all(clients, alloc, conn, room) {
        ReadStep::More => true,
        ReadStep::Leaves(stream, text) => owing.leave(conn, stream, text, now),
        ReadStep::Quiet | ReadStep::Closed => false,
    }
}
