//! All connections, and what happens to one of them.
ghost use Rattle.std.specs.Prelude.{◌≡◌, ◌==◌, ◌++◌, ◌∷◌, ℕ, List, [], if◌then◌else◌, true, length, slice_get, option_copied, IfOk, OnOk, OnErr};
ghost use Rattle.dist_world_model.specs.Delivery.{change_to, after_delivery, body_taken};
ghost use Rattle.dist_world_model.specs.{Lists.at_place, World.Conn, Happenings.new_conn, Happenings.accepted_by};
ghost use Rattle.dist_world_lives.specs.Wires.{unaccepted_target, undelivered_to, can_come, front_at, undelivered_by, with_undelivered};

use crate::connection::Connection;
use dist_messages::Side;
use dist_names::ByteString;
use dist_peers::EndId;
use std::alloc::{AllocError, Global};
use std::marker::Model;

/// All connections, in the order in which they were made. A place after the last has no connection, and nothing happens there.
#[derive(Drop)]
pub struct Connections {
    all: Vec<Connection>,
}

impl Model for Connections {
    ghost use Rattle.std.specs.Prelude.{List};
    ghost use Rattle.dist_world_model.specs.World.{Conn};

    ghost Value = { List Conn };

    ghost view = { λ c. c.all.items };
}

impl Connections {
    /// None. It takes no memory.
    pub fn new(alloc: Global) -> Connections
        ensures { result ≡ [] }
    {
        Connections {
            all: Vec::new(alloc),
        }
    }

    /// How many there are.
    pub fn len(&self) -> usize
        ensures { result ≡ length self.now }
    {
        self.all.len()
    }

    /// Whether there are none.
    pub fn is_empty(&self) -> bool
        ensures { result ≡ (length self.now == 0) }
    {
        self.all.is_empty()
    }

    /// Makes a connection from a dialled end of an incarnation to another incarnation, or to its own. An `Err` changes nothing.
    pub fn connect(
        &mut self,
        alloc: Global,
        life: usize,
        dialler: EndId,
        target: usize,
    ) -> Result<(), AllocError>
        ensures ok { OnOk result (self.new ≡ self.old ++ new_conn life dialler.0 target ∷ []) }
        ensures err { OnErr result (self.new ≡ self.old) }
    {
        self.all
            .push(Connection::new(alloc, life, dialler, target))?;
        Ok(())
    }

    /// The incarnation to which a connection leads that was not accepted yet.
    pub fn unaccepted_target(&self, place: usize) -> Option<usize>
        ensures { result ≡ unaccepted_target (slice_get self.now place) }
    {
        let conn = self.all.get(place)?;
        if conn.is_accepted() {
            return None;
        }
        Some(conn.target())
    }

    /// What was sent to this side of a connection and is not delivered yet.
    pub fn undelivered_text(&self, place: usize, side: Side) -> Option<&[u8]>
        ensures { option_copied result ≡ undelivered_to side (slice_get self.now place) }
    {
        let conn = self.all.get(place)?;
        Some(conn.text_to(side).undelivered_bytes())
    }

    /// The first body that was delivered to this side of a connection and is not taken yet.
    pub fn front(&self, place: usize, side: Side) -> Option<&[u8]>
        ensures { option_copied result ≡ front_at (slice_get self.now place) side }
    {
        let conn = self.all.get(place)?;
        conn.text_to(side).front()
    }

    /// Notes that this end accepted a connection.
    pub fn accept(&mut self, place: usize, id: EndId)
        ensures { self.new ≡ at_place place (accepted_by id.0) self.old }
    {
        if place < self.all.len() {
            let conn = &mut self.all[place];
            conn.accept(id);
        }
    }

    /// What this side of a connection sent and is not delivered yet; nothing if there is no such connection.
    pub fn undelivered_by(&self, place: usize, side: Side) -> &[u8]
        ensures { result.now ≡ undelivered_by side (slice_get self.now place) }
    {
        match self.all.get(place) {
            Some(conn) => conn.undelivered_by(side),
            None => &[],
        }
    }

    /// Replaces what this side of a connection sent and is not delivered yet by these bytes. It takes no memory.
    pub fn put_undelivered(&mut self, place: usize, side: Side, bytes: ByteString)
        ensures { self.new ≡ at_place place (with_undelivered side bytes) self.old }
    {
        if place < self.all.len() {
            let conn = &mut self.all[place];
            conn.put_undelivered(side, bytes);
        }
    }

    /// Delivers `count` bytes to this side of a connection, or all that are left. Returns whether there were any. An `Err` changes nothing.
    pub fn deliver(&mut self, place: usize, side: Side, count: usize) -> Result<bool, AllocError>
        ensures comes { IfOk result (λ came. came ≡ can_come (slice_get self.old place) side count) }
        ensures ok { IfOk result (λ came. self.new ≡ (if came then at_place place (change_to side (after_delivery count)) self.old else self.old)) }
        ensures err { OnErr result (self.new ≡ self.old) }
    {
        if place >= self.all.len() || count == 0 {
            return Ok(false);
        }
        let conn = &mut self.all[place];
        if conn.text_to(side).undelivered_bytes().is_empty() {
            return Ok(false);
        }
        conn.deliver(side, count)?;
        Ok(true)
    }

    /// This side of a connection takes the first frame that was delivered to it. If there is none, it changes nothing.
    pub fn take(&mut self, place: usize, side: Side)
        ensures { self.new ≡ at_place place (change_to side body_taken) self.old }
    {
        if place < self.all.len() {
            let conn = &mut self.all[place];
            conn.take(side);
        }
    }
}
