//! Clients that make room, or are late, since they have not asked.

ghost use Rattle.std.specs.Prelude.{◌≡◌, ◌-◌, length, false, not, None, IfSome, slice_get};
ghost use Rattle.std.specs.{List.filter, List.filter_map, Option.MatchOption, Option.option_map, Ordering.nat_cmp, BTreeMap.get, BTreeMap.IsOrdered};
ghost use Rattle.dist_epmd_clients.specs.Clients.{registrations_of, client_of, clients_of, next_of, Becomes, IsSame};
ghost use Rattle.dist_epmd_clients.specs.{declared.event.ClientEvent.TheVariants.MadeRoom, Journal.Journals, Reporting.journal_of, Reporting.late_event};
ghost use Rattle.dist_epmd_clients.specs.{Standing.asking_since, Standing.is_registered, Sweeping.is_late};

use crate::client::{Client, Talk};
use crate::event::ClientEvent;
use crate::holding::Clients;
use std::collections::BTreeMap;

// Whether a client has not asked yet, and came this many seconds ago or earlier.
fn is_late<S>(client: &Client<S>, now: u64, seconds: u64) -> bool
    ensures { result ≡ is_late now seconds client.now }
{
    matches!(client.talk, Talk::Asking(_)) && now.saturating_sub(client.since) >= seconds
}

fn drop_late_clients<S: Drop>(clients: &mut BTreeMap<u64, Client<S>>, now: u64, seconds: u64)
    ensures kept { clients.new.entries ≡ filter (λ e. not (is_late now seconds e.1)) clients.old.entries }
    ensures ordered { IsOrdered nat_cmp clients.old }
{
    clients.retain(|_conn, client| !is_late(client, now, seconds));
}

// The number of a client that has not asked yet, and when it came.
fn asking_since<S>(conn: u64, client: &Client<S>) -> Option<(u64, u64)>
    ensures { result ≡ asking_since (conn, client.now) }
{
    match client.talk {
        Talk::Asking(_) => Some((conn, client.since)),
        Talk::Registered(_) => None,
    }
}

/// The first client that has not asked yet, which is not registered, and when it came.
pub fn first_asking<S>(clients: &BTreeMap<u64, Client<S>>) -> Option<(u64, u64)>
    ensures first { result ≡ slice_get (filter_map asking_since clients.now.entries) 0 }
    ensures asking { IfSome result (λ first. is_registered (get nat_cmp clients.now first.0) ≡ false) }
{
    clients
        .iter()
        .filter_map(|(conn, client)| asking_since(*conn, client))
        .nth(0)
}

impl<S: Drop> Clients<S> {
    /// Closes each client that has not asked, and came this many seconds ago or earlier: bytes that came in between do not
    /// prolong its time. All others stay, and so do all registrations. It takes no memory.
    pub fn drop_late(&mut self, now: u64, seconds: u64)
        ensures clients { clients_of self.new ≡ filter (λ e. not (is_late now seconds e.1)) (clients_of self.old) }
        ensures registry { registrations_of self.new ≡ registrations_of self.old }
        ensures next { next_of self.new ≡ next_of self.old }
        ensures journal { Journals (late_event (length (clients_of self.old) - length (clients_of self.new))) (journal_of self.old) (journal_of self.new) }
    {
        let before = self.clients.len();
        drop_late_clients(&mut self.clients, now, seconds);
        let count = before.saturating_sub(self.clients.len()) as u64;
        let event = (count > 0).then_some(ClientEvent::Late { count });
        self.journal.note(event);
    }

    /// Closes the client that is here for the longest of those that have not asked, and returns its stream. All others stay,
    /// and so do all registrations. `None`: there is no such client, and nothing changed. It takes no memory.
    pub fn close_oldest(&mut self) -> Option<S>
        ensures stream { MatchOption (slice_get (filter_map asking_since (clients_of self.old)) 0) (result ≡ None)
            (λ first. result ≡ option_map (λ client. client.stream) (client_of self.old first.0)) }
        ensures after { MatchOption (slice_get (filter_map asking_since (clients_of self.old)) 0) (IsSame self.old self.new)
            (λ first. Becomes None (registrations_of self.old) first.0 self.old self.new) }
        ensures next { next_of self.new ≡ next_of self.old }
        ensures journal { Journals (option_map (λ first. MadeRoom first.0) (slice_get (filter_map asking_since (clients_of self.old)) 0))
            (journal_of self.old) (journal_of self.new) }
    {
        let (conn, _since) = first_asking(&self.clients)?;
        self.journal.note(Some(ClientEvent::MadeRoom { conn }));
        let client = self.clients.remove(&conn)?;
        let Client { stream, .. } = client;
        Some(stream)
    }
}
