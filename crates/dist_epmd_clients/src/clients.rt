//! All clients of a port mapper, and its registry.

ghost use Rattle.std.specs.Prelude.{◌≡◌, ◌↔◌, ◌+◌, ◌^◌, ◌++◌, ℕ, false, IfOk, IsErrOf, OnOk, OnErr, [], IfSome, None, Some, IsSome, option_map};
ghost use Rattle.std.specs.Prelude.{option_copied, length, slice_get};
ghost use Rattle.std.specs.{List.list_any, List.filter_map, Ordering.nat_cmp, BTreeMap.get, BTreeMap.Updates};
ghost use Rattle.dist_epmd.specs.Registrations.{opening, after_closed, is_of};
ghost use Rattle.dist_epmd_clients.specs.Journal.{no_counts, HasEvents, Journals};
ghost use Rattle.dist_epmd_clients.specs.Reporting.{asked_event, ended_event, piece_event, question_event, counts_of, events_of, journal_of, most_of};
ghost use Rattle.dist_epmd_clients.specs.Replying.{after_piece, asks, leaves, outcome, with_talk};
ghost use Rattle.dist_epmd_clients.specs.Clients.{registrations_of, client_of, clients_of, next_of, new_client, Becomes, CanLack, Drops, IsKept, IsSame};
ghost use Rattle.dist_epmd_clients.specs.{declared.event.ClientEvent.TheVariants.NoMemory, Standing.asking_since, Standing.is_registered, Asking.question};

use crate::client::{Client, OpenError, Talk, Turn};
use crate::counts::Counts;
use crate::event::ClientEvent;
use crate::holding::Clients;
use crate::journal::Journal;
use crate::question::{Question, question_of};
use crate::replying::{drop_registration, reply_to};
use crate::reporting::{answered_event, name_in, registration_event, talk_ended};
use crate::sweeping::first_asking;
use dist_epmd::{Registry, Request};
use dist_epmd_calls::Served;
use dist_names::ByteString;
use std::alloc::{AllocError, Global};
use std::collections::BTreeMap;

// The client of a connection.
fn client_in<S>(clients: &BTreeMap<u64, Client<S>>, conn: u64) -> Option<&Client<S>>
    ensures { option_copied result ≡ get nat_cmp clients.now conn }
{
    clients.get(&conn)
}

// All that a client has said by now, with this piece.
fn said_by_now(alloc: Global, said: &ByteString, piece: &[u8]) -> Result<ByteString, AllocError>
    ensures { IfOk result (λ all. all ≡ said.now ++ piece.now) }
{
    let mut all = said.try_clone(alloc)?;
    all.append(piece)?;
    Ok(all)
}

// Sets where the talk of a client stands now. It takes no memory.
fn set_talk<S>(clients: &mut BTreeMap<u64, Client<S>>, conn: u64, talk: Talk)
    // The caller looked it up.
    requires there { IsSome (get nat_cmp clients.old conn) }
    ensures changed { Updates nat_cmp clients.old clients.new conn (option_map (with_talk talk) (get nat_cmp clients.old conn)) }
{
    if let Some(client) = clients.get_mut(&conn) {
        client.talk = talk;
    }
}

impl<S: Drop> Clients<S> {
    /// No clients, and a registry without nodes, of the port mapper at this port. It takes no memory.
    ///
    /// The first node that is registered gets the creation `first`, each later one the next number.
    pub fn new(alloc: Global, port: u16, first: u32) -> Clients<S>
        ensures registrations { registrations_of result ≡ opening port first }
        ensures none { (conn : ℕ) → client_of result conn ≡ None }
        ensures next { next_of result ≡ 0 }
        ensures counts { counts_of result ≡ no_counts }
        ensures events { events_of result ≡ [] }
        ensures most { most_of result ≡ 0 }
    {
        Clients {
            registry: Registry::new(alloc, port, first),
            next: 0,
            clients: BTreeMap::new(alloc),
            journal: Journal::new(alloc),
        }
    }

    /// How many clients are connected.
    pub fn len(&self) -> usize
        ensures { result ≡ length (clients_of self.now) }
    {
        self.clients.len()
    }

    /// A registration stands exactly while its client is here: the law of every value of this type.
    pub fn registrations_stand(&self)
        ensures { (conn : ℕ) → list_any (is_of conn) (registrations_of self.now).rows ≡ is_registered (client_of self.now conn) }
    {}

    /// The registry of the clients' nodes.
    pub fn registry(&self) -> &Registry
        ensures { result.now ≡ registrations_of self.now }
    {
        &self.registry
    }

    /// How often what happened.
    pub fn counts(&self) -> &Counts
        ensures { result.now ≡ counts_of self.now }
    {
        &self.journal.counts
    }

    /// The events that wait for whoever reads them, the oldest first.
    pub fn events(&self) -> &[ClientEvent]
        ensures { result.now ≡ events_of self.now }
    {
        &self.journal.events
    }

    /// Keeps no event that waits: they were read. As many may wait as before.
    pub fn forget_events(&mut self)
        ensures journal { HasEvents [] (journal_of self.old) (journal_of self.new) }
        ensures same { IsSame self.old self.new }
    {
        self.journal.forget();
    }

    /// From now on so many events may wait for whoever reads them. Without this call none does, and only the counts rise. Their
    /// memory is taken now; after an `Err` as many may wait as before.
    pub fn keep_events(&mut self, most: usize) -> Result<(), AllocError>
        ensures ok { OnOk result (most_of self.new ≡ most) }
        ensures err { OnErr result (most_of self.new ≡ most_of self.old) }
        ensures events { events_of self.new ≡ events_of self.old }
        ensures counts { counts_of self.new ≡ counts_of self.old }
        ensures same { IsSame self.old self.new }
    {
        self.journal.keep(most)
    }

    /// What carries the bytes of a connection, where its client is here.
    pub fn stream(&self, conn: u64) -> Option<&S>
        ensures { option_copied result ≡ option_map (λ client. client.stream) (client_of self.now conn) }
    {
        let client = self.clients.get(&conn)?;
        Some(&client.stream)
    }

    /// The connection that is here for the longest of those that have not asked yet, and when it came.
    pub fn oldest(&self) -> Option<(u64, u64)>
        ensures { result ≡ slice_get (filter_map asking_since (clients_of self.now)) 0 }
    {
        first_asking(&self.clients)
    }

    /// A client connects, and its connection gets the next number. `since` is when it came, in any unit.
    ///
    /// Refused as `Numbers` where all numbers were given, then `NoMemory`. Then nothing is changed, and the stream is dropped.
    pub fn open(
        &mut self,
        alloc: Global,
        stream: S,
        local: bool,
        since: u64,
    ) -> Result<u64, OpenError>
        ensures ok { IfOk result (λ conn. (conn ≡ next_of self.old)
            × Becomes (Some (new_client stream local since)) (registrations_of self.old) conn self.old self.new) }
        ensures next { OnOk result (next_of self.new ≡ next_of self.old + 1) }

        // No client had the number.
        ensures fresh { IfOk result (λ conn. client_of self.old conn ≡ None) }

        ensures numbers { IsErrOf result OpenError.Numbers ↔ (next_of self.old + 1 ≡ 2 ^ 64) }

        ensures unchanged { OnErr result (IsSame self.old self.new) }
        ensures journal { journal_of self.new ≡ journal_of self.old }
    {
        let conn = self.next;
        let Some(next) = conn.checked_add(1) else {
            return Err(OpenError::Numbers);
        };
        let client = Client {
            stream,
            local,
            since,
            talk: Talk::Asking(ByteString::new(alloc)),
        };
        if self.clients.insert(conn, client).is_err() {
            return Err(OpenError::NoMemory);
        }
        self.next = next;
        Ok(conn)
    }

    // Takes the client of a connection out, and its registration with it.
    fn remove(&mut self, conn: u64) -> Option<Client<S>>
        ensures client { result ≡ client_of self.old conn }
        ensures after { Becomes None (after_closed conn (registrations_of self.old)) conn self.old self.new }
        ensures next { next_of self.new ≡ next_of self.old }
        ensures journal { journal_of self.new ≡ journal_of self.old }
    {
        drop_registration(&mut self.registry, conn, self.clients.get(&conn));
        self.clients.remove(&conn)
    }

    /// A connection is over, or is to be: its client leaves, and its registration with it. Gives back what carried its
    /// bytes. It takes no memory.
    pub fn close(&mut self, conn: u64) -> Option<S>
        ensures stream { result ≡ option_map (λ client. client.stream) (client_of self.old conn) }
        ensures after { Becomes None (after_closed conn (registrations_of self.old)) conn self.old self.new }
        ensures next { next_of self.new ≡ next_of self.old }
        ensures journal { Journals (ended_event conn (client_of self.old conn)) (journal_of self.old) (journal_of self.new) }
    {
        let client = self.remove(conn)?;
        let Client { stream, talk, .. } = client;
        self.journal.note(talk_ended(conn, talk));
        Some(stream)
    }

    /// Bytes came on a connection. All that the client sent decides what is to be done, and what is left of the client and of
    /// the registry.
    ///
    /// It fails only where memory runs out: then the client has left, its stream is dropped, and everything else stands, but
    /// that a creation may be used up. That comes only where bytes came from a client that has not asked yet.
    pub fn hear(&mut self, alloc: Global, conn: u64, piece: &[u8]) -> Result<Turn<S>, AllocError>
        ensures ok { IfOk result (λ turn. let after = after_piece conn (client_of self.old conn) piece.now (registrations_of self.old) in
            (turn ≡ after.turn) × Becomes after.client after.registrations conn self.old self.new) }
        ensures lacks { OnErr result (CanLack (client_of self.old conn) piece.now) }
        ensures err { OnErr result (Drops conn self.old self.new) }
        ensures next { next_of self.new ≡ next_of self.old }
        ensures journal { OnOk result (Journals (piece_event conn (client_of self.old conn) piece.now (registrations_of self.old))
            (journal_of self.old) (journal_of self.new)) }
        ensures no_memory { OnErr result (Journals (Some (NoMemory conn)) (journal_of self.old) (journal_of self.new)) }
    {
        match self.take_piece(alloc, conn, piece) {
            Ok(turn) => Ok(turn),
            Err(error) => {
                let _ = self.remove(conn);
                self.journal.note(Some(ClientEvent::NoMemory { conn }));
                Err(error)
            }
        }
    }

    // The same, but that the client is still here after an `Err`.
    fn take_piece(&mut self, alloc: Global, conn: u64, piece: &[u8]) -> Result<Turn<S>, AllocError>
        ensures ok { IfOk result (λ turn. let after = after_piece conn (client_of self.old conn) piece.now (registrations_of self.old) in
            (turn ≡ after.turn) × Becomes after.client after.registrations conn self.old self.new) }
        ensures lacks { OnErr result (CanLack (client_of self.old conn) piece.now) }
        ensures err { OnErr result (IsKept self.old self.new) }
        ensures next { next_of self.new ≡ next_of self.old }
        ensures journal { OnOk result (Journals (piece_event conn (client_of self.old conn) piece.now (registrations_of self.old))
            (journal_of self.old) (journal_of self.new)) }
        ensures no_memory { OnErr result (journal_of self.new ≡ journal_of self.old) }
    {
        let Some(client) = client_in(&self.clients, conn) else {
            return Ok(Turn::Wait);
        };
        if piece.is_empty() {
            return Ok(Turn::Wait);
        }
        let Talk::Asking(said) = &client.talk else {
            return Ok(self.leave(alloc, conn));
        };
        let is_local = client.local;
        let all = said_by_now(alloc, said, piece)?;
        self.answer(alloc, conn, is_local, all)
    }

    // A client that has not asked before has said all this by now.
    fn answer(
        &mut self,
        alloc: Global,
        conn: u64,
        is_local: bool,
        all: ByteString,
    ) -> Result<Turn<S>, AllocError>
        // The caller looked it up.
        requires there { IsSome (client_of self.old conn) }
        requires asking { is_registered (client_of self.old conn) ≡ false }
        ensures ok { IfOk result (λ turn. IfSome (client_of self.old conn) (λ client.
            let after = outcome conn client all (registrations_of self.old) (question is_local all) in
            (turn ≡ after.turn) × Becomes after.client after.registrations conn self.old self.new)) }
        ensures err { OnErr result (IsKept self.old self.new) }
        ensures next { next_of self.new ≡ next_of self.old }
        ensures journal { OnOk result (Journals (question_event conn is_local (registrations_of self.old) (question is_local all))
            (journal_of self.old) (journal_of self.new)) }
        ensures no_memory { OnErr result (journal_of self.new ≡ journal_of self.old) }
    {
        match question_of(alloc, is_local, all.as_slice())? {
            Question::Inside => {
                set_talk(&mut self.clients, conn, Talk::Asking(all));
                Ok(Turn::Wait)
            }
            Question::Nothing => {
                self.journal
                    .note(Some(ClientEvent::Unanswered { conn, is_local }));
                Ok(self.leave(alloc, conn))
            }
            Question::Asks(request) => self.reply(alloc, conn, request),
        }
    }

    // A client leaves, and nothing is sent to it.
    fn leave(&mut self, alloc: Global, conn: u64) -> Turn<S>
        // The caller looked it up.
        requires there { IsSome (client_of self.old conn) }
        ensures after { IfSome (client_of self.old conn) (λ client. let after = leaves conn client (registrations_of self.old) in
            (result ≡ after.turn) × Becomes after.client after.registrations conn self.old self.new) }
        ensures next { next_of self.new ≡ next_of self.old }
        ensures journal { Journals (ended_event conn (client_of self.old conn)) (journal_of self.old) (journal_of self.new) }
    {
        match self.close(conn) {
            Some(stream) => Turn::Leave(stream, ByteString::new(alloc)),
            None => Turn::Wait,
        }
    }

    // Answers the request of a client that has not asked before.
    fn reply(&mut self, alloc: Global, conn: u64, request: Request) -> Result<Turn<S>, AllocError>
        // The caller looked it up.
        requires there { IsSome (client_of self.old conn) }
        requires asking { is_registered (client_of self.old conn) ≡ false }
        ensures ok { IfOk result (λ turn. IfSome (client_of self.old conn) (λ client. let after = asks conn client request (registrations_of self.old) in
            (turn ≡ after.turn) × Becomes after.client after.registrations conn self.old self.new)) }
        ensures err { OnErr result (IsKept self.old self.new) }
        ensures next { next_of self.new ≡ next_of self.old }
        ensures journal { OnOk result (Journals (asked_event conn request (registrations_of self.old)) (journal_of self.old) (journal_of self.new)) }
        ensures no_memory { OnErr result (journal_of self.new ≡ journal_of self.old) }
    {
        let registration = registration_event(alloc, conn, &request)?;
        let (served, text) = reply_to(&mut self.registry, alloc, conn, &request)?;
        if let Served::Registered = served {
            self.journal.note(registration);
            let talk = Talk::Registered(name_in(alloc, request));
            set_talk(&mut self.clients, conn, talk);
            return Ok(Turn::Stay(text));
        }
        let event = answered_event(&self.registry, conn, request);
        self.journal.note(Some(event));
        match self.clients.remove(&conn) {
            Some(client) => {
                let Client { stream, .. } = client;
                Ok(Turn::Leave(stream, text))
            }
            None => Ok(Turn::Wait),
        }
    }
}
