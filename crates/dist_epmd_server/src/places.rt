//! Places for clients, and who makes room for one more.

ghost use Rattle.std.specs.Prelude.{◌+◌, nat_lt, length};
ghost use Rattle.dist_epmd_clients.specs.Clients.{clients_of};
ghost use Rattle.dist_epmd_server.specs.{Owing.all_owed, Serving.oldest_of, Serving.FindsPlace, Serving.MakesRoom, Serving.TakesIn};

use crate::owing::Owing;
use dist_epmd_clients::Clients;
use std::alloc::Global;

/// A client that comes: its stream, whether it is on this host, and in which second it comes.
#[derive(Drop)]
pub struct Newcomer<S> {
    pub stream: S,
    pub is_local: bool,
    pub second: u64,
}

/// Closes the client that is here for the longest without having asked; where all have asked, what is owed on the oldest
/// connection is dropped. Returns whether that made room.
pub fn evict_oldest<S: Drop>(clients: &mut Clients<S>, owing: &mut Owing<S>) -> bool
    ensures { MakesRoom (oldest_of clients.old) clients.old clients.new owing.old owing.new result }
{
    if clients.oldest().is_none() {
        return owing.drop_first();
    }
    let _ = clients.close_oldest();
    true
}

// Finds a place for one client more, where there may be this many. Returns whether there is one.
fn find_place<S: Drop>(clients: &mut Clients<S>, owing: &mut Owing<S>, most: usize) -> bool
    ensures { FindsPlace (nat_lt (length (clients_of clients.old) + length (all_owed owing.old)) most) clients.old clients.new owing.old owing.new result }
{
    if clients.len().saturating_add(owing.len()) < most {
        return true;
    }
    evict_oldest(clients, owing)
}

/// Takes a client in, where there may be this many. Where all places are taken, the oldest that has not asked makes room. The
/// stream of the new one is dropped where there is no room to make, memory runs out, or all numbers were given.
pub fn take_in<S: Drop>(
    clients: &mut Clients<S>,
    owing: &mut Owing<S>,
    alloc: Global,
    newcomer: Newcomer<S>,
    most: usize,
) -> Option<u64>
    ensures { TakesIn newcomer.stream newcomer.is_local newcomer.second most clients.old clients.new owing.old owing.new result }
{
    if !find_place(clients, owing, most) {
        return None;
    }
    let Newcomer {
        stream,
        is_local,
        second,
    } = newcomer;
    match clients.open(alloc, stream, is_local, second) {
        Ok(conn) => Some(conn),
        Err(_) => None,
    }
}
