//! One connection.
ghost use Rattle.std.specs.Prelude.{◌≡◌, is_some, OnOk, OnErr, true};
ghost use Rattle.dist_world_model.specs.Delivery.{says, text_to, change_to, after_delivery, body_taken};
ghost use Rattle.dist_world_model.specs.Happenings.{new_conn, accepted_by};
ghost use Rattle.dist_world_lives.specs.Wires.{undelivered_by, with_undelivered};

use crate::direction::Direction;
use dist_messages::Side;
use dist_names::ByteString;
use dist_peers::EndId;
use std::alloc::{AllocError, Global};
use std::marker::Model;

/// A connection between an end that was dialled and the incarnation that it was led to.
#[derive(Drop)]
pub struct Connection {
    /// The incarnation of the dialled end, by its place among all.
    life: usize,
    /// The dialled end.
    dialler: EndId,
    /// The incarnation that it leads to.
    target: usize,
    /// The end accepted there.
    accepted: Option<EndId>,
    /// What the dialled end sends.
    there: Direction,
    /// What the accepted end sends.
    back: Direction,
}

impl Model for Connection {
    ghost use Rattle.std.specs.Option.{option_map};
    ghost use Rattle.dist_world_model.specs.World.{Conn};

    ghost Value = { Conn };

    ghost view = { λ c. record {
      life = c.life;
      dialler = c.dialler.0;
      target = c.target;
      accepted = option_map (λ x. x.0) c.accepted;
      there = c.there;
      back = c.back;
    } };
}

impl Connection {
    /// Nothing was sent. It takes no memory.
    pub fn new(alloc: Global, life: usize, dialler: EndId, target: usize) -> Connection
        ensures { result ≡ new_conn life dialler.0 target }
    {
        Connection {
            life,
            dialler,
            target,
            accepted: None,
            there: Direction::new(alloc),
            back: Direction::new(alloc),
        }
    }

    /// The incarnation that it leads to.
    pub fn target(&self) -> usize
        ensures { result ≡ self.now.target }
    {
        self.target
    }

    /// An end was accepted.
    pub fn is_accepted(&self) -> bool
        ensures { result ≡ is_some self.now.accepted }
    {
        self.accepted.is_some()
    }

    /// This end is the one accepted.
    pub fn accept(&mut self, id: EndId)
        ensures { self.new ≡ accepted_by id.0 self.old }
    {
        self.accepted = Some(id);
    }

    /// What is on the way to this side.
    pub fn text_to(&self, side: Side) -> &Direction
        ensures { result.now ≡ text_to side self.now }
    {
        match side {
            Side::Dialler => &self.back,
            Side::Acceptor => &self.there,
        }
    }

    /// What this side sent and is undelivered.
    pub fn undelivered_by(&self, side: Side) -> &[u8]
        ensures { result.now ≡ undelivered_by side (Some self.now) }
    {
        match side {
            Side::Dialler => self.there.undelivered_bytes(),
            Side::Acceptor => self.back.undelivered_bytes(),
        }
    }

    /// These bytes are all that this side sent and is undelivered. It takes no memory.
    pub fn put_undelivered(&mut self, side: Side, bytes: ByteString)
        ensures { self.new ≡ with_undelivered side bytes self.old }
    {
        match side {
            Side::Dialler => self.there.put_undelivered(bytes),
            Side::Acceptor => self.back.put_undelivered(bytes),
        }
    }

    /// `count` bytes come to this side, or what is left. An `Err` changes nothing.
    pub fn deliver(&mut self, side: Side, count: usize) -> Result<(), AllocError>
        ensures ok { OnOk result (self.new ≡ change_to side (after_delivery count) self.old) }
        ensures err { OnErr result (self.new ≡ self.old) }
    {
        match side {
            Side::Dialler => self.back.deliver(count),
            Side::Acceptor => self.there.deliver(count),
        }
    }

    /// This side takes the first frame that came to it. With none it changes nothing.
    pub fn take(&mut self, side: Side)
        ensures { self.new ≡ change_to side body_taken self.old }
    {
        match side {
            Side::Dialler => self.back.take(),
            Side::Acceptor => self.there.take(),
        }
    }
}
