//! The thirteen happenings.
ghost use Rattle.std.specs.{Prelude.◌≡◌, Prelude.Ok, Prelude.slice_get, Prelude.IfOk, Option.option_map};
ghost use Rattle.dist_world_model.specs.World.{running};
ghost use Rattle.dist_world_model.specs.Happenings.{notify, notify_node, without_closing, begin, begin_as, halt, reset};
ghost use Rattle.dist_world_model.specs.Happenings.{reach, notify_opened, accept, deliver, take_frame, is_outside, notify_outside, world_after, applied_at};
ghost use Rattle.dist_world.specs.Doing.{Did, Happened};

use crate::scene::{Scene, setup_at};
use dist_core::{Change, Event, Opening, Setup, Why};
use dist_core_laws::a_reply_is_of_its_end;
use dist_names::{ByteString, Creation, NodeName};
use dist_peers::EndId;
use dist_world_lives::{MOST_CONNECTIONS, Occasion, conn_behind};
use dist_world_model::Happening;
use std::alloc::{AllocError, Global};
use std::mem::replace;

/// The most begins.
const MOST_BEGINS: usize = 281_474_976_710_656;

/// The most happenings that apply.
const MOST_APPLIED: u64 = 4611686018427387904;

// What a step closed, and at which node.
fn closed_at(who: usize, closed: Option<(EndId, Why)>) -> Option<(usize, (EndId, Why))>
    ensures { result ≡ option_map (λ y. (who, y)) closed }
{
    match closed {
        None => None,
        Some(x) => Some((who, x)),
    }
}

// A copy of these bytes, in the room that is kept for it. It takes memory only where that is too small.
fn body_of(room: &mut Vec<u8>, alloc: Global, bytes: &[u8]) -> Result<ByteString, AllocError>
    ensures { IfOk result (λ body. body ≡ bytes.now) }
{
    let mut body = replace(room, Vec::new(alloc));
    body.clear();
    body.extend_from_slice(bytes)?;
    Ok(ByteString::from_vec(body))
}

// The room that the body of a frame had.
fn room_of(alloc: Global, event: Event) -> Vec<u8> {
    match event {
        Event::Frame { end_: _, body } => body.into_vec(),
        _ => Vec::new(alloc),
    }
}

impl Scene {
    // An incarnation gets an event.
    fn notify(
        &mut self,
        alloc: Global,
        place: usize,
        event: &Event,
        fresh: u32,
    ) -> Result<bool, AllocError>
        ensures { Did result (notify (without_closing self.old) place event.now fresh) self.old self.new }
    {
        let occasion = Occasion {
            alloc,
            clock: self.clock,
            event,
            fresh,
        };
        match self.lives.notify(&mut self.conns, place, &occasion)? {
            None => Ok(false),
            Some((who, made)) => {
                self.last_closed = closed_at(who, made.closed);
                Ok(true)
            }
        }
    }

    // The running incarnation of a node gets an event.
    fn notify_node(&mut self, alloc: Global, node: usize, event: &Event) -> Result<bool, AllocError>
        ensures { Did result (notify_node (without_closing self.old) node event.now) self.old self.new }
    {
        match self.running(node) {
            Some(place) => self.notify(alloc, place, event, 0),
            None => Ok(false),
        }
    }

    // A node that does not run begins.
    fn begin(&mut self, alloc: Global, node: usize, creation: Creation) -> Result<bool, AllocError>
        ensures { Did result (begin (without_closing self.old) node creation) self.old self.new }
    {
        if self.running(node).is_some() {
            return Ok(false);
        }
        if self.lives.len() >= MOST_BEGINS {
            return Ok(false);
        }
        if self.lives.len() == 0 {
            self.lives.make_room(self.setups.len());
        }
        let Some(setup) = setup_at(&self.setups, node) else {
            return Ok(false);
        };
        self.lives.begin(alloc, node, self.clock, setup, creation)?;
        self.last_closed = None;
        Ok(true)
    }

    // A node that does not run begins with this setup, where it has the node's name.
    fn begin_as(&mut self, alloc: Global, node: usize, setup: &Setup) -> Result<bool, AllocError>
        ensures { Did result (begin_as (without_closing self.old) node setup.now) self.old self.new }
    {
        if self.running(node).is_some() {
            return Ok(false);
        }
        if self.lives.len() >= MOST_BEGINS {
            return Ok(false);
        }
        let Some(own) = setup_at(&self.setups, node) else {
            return Ok(false);
        };
        if !setup.name.is_same(&own.name) {
            return Ok(false);
        }
        self.lives
            .begin(alloc, node, self.clock, setup, setup.creation)?;
        self.last_closed = None;
        Ok(true)
    }

    // A running node stops.
    fn halt(&mut self, node: usize) -> bool
        ensures { Did (Ok result) (halt (without_closing self.old) node) self.old self.new }
    {
        if !self.lives.end(node, self.clock) {
            return false;
        }
        self.last_closed = None;
        true
    }

    // A running node changes its setup, by a copy of the change.
    fn reset(&mut self, alloc: Global, node: usize, wanted: &Change) -> Result<bool, AllocError>
        ensures { Did result (reset (without_closing self.old) node wanted.now) self.old self.new }
    {
        let Some(place) = self.running(node) else {
            return Ok(false);
        };
        let wanted = wanted.try_clone(alloc)?;
        if !self.lives.reset(place, wanted)? {
            return Ok(false);
        }
        self.last_closed = None;
        Ok(true)
    }

    // A dialled end gets a connection.
    fn reach(
        &mut self,
        alloc: Global,
        node: usize,
        id: EndId,
        target: usize,
    ) -> Result<bool, AllocError>
        ensures { Did result (reach (without_closing self.old) node id target) self.old self.new }
    {
        let Some(place) = self.running(node) else {
            return Ok(false);
        };
        let Some(target) = self.running(target) else {
            return Ok(false);
        };
        if !self.lives.is_unreached(place, id) {
            return Ok(false);
        }
        let number = self.conns.len();
        if number >= MOST_CONNECTIONS {
            return Ok(false);
        }
        self.conns.connect(alloc, place, id, target)?;
        self.lives.reach(place, id, number);
        self.last_closed = None;
        Ok(true)
    }

    // An end that has a connection gets the event of it.
    fn open(&mut self, alloc: Global, node: usize, id: EndId) -> Result<bool, AllocError>
        ensures { Did result (notify_opened (without_closing self.old) node id) self.old self.new }
    {
        let Some(place) = self.running(node) else {
            return Ok(false);
        };
        match self.lives.wire(place, id) {
            Some((_, conn)) => {
                let event = Event::Opened {
                    end_: id,
                    link: conn as u64,
                };
                self.notify(alloc, place, &event, 0)
            }
            None => Ok(false),
        }
    }

    // A connection comes to the incarnation that it leads to.
    fn accept(&mut self, alloc: Global, conn: usize) -> Result<bool, AllocError>
        ensures { Did result (accept (without_closing self.old) conn) self.old self.new }
    {
        a_reply_is_of_its_end();
        let Some(target) = self.conns.unaccepted_target(conn) else {
            return Ok(false);
        };
        let notified = {
            let occasion = Occasion {
                alloc,
                clock: self.clock,
                event: &Event::Incoming { link: conn as u64 },
                fresh: 0,
            };
            self.lives.notify(&mut self.conns, target, &occasion)
        };
        match notified? {
            None => Ok(false),
            Some((who, made)) => {
                self.conns.accept(conn, made.end_);
                self.last_closed = closed_at(who, made.closed);
                Ok(true)
            }
        }
    }

    // Some of what the other side sent comes to an open end.
    fn deliver(&mut self, node: usize, id: EndId, count: usize) -> Result<bool, AllocError>
        ensures { Did result (deliver (without_closing self.old) node id count) self.old self.new }
    {
        let Some(place) = self.running(node) else {
            return Ok(false);
        };
        if !self.lives.is_open(place, id) {
            return Ok(false);
        }
        let Some((side, conn)) = self.lives.wire(place, id) else {
            return Ok(false);
        };
        if !self.conns.deliver(conn, side, count)? {
            return Ok(false);
        }
        self.last_closed = None;
        Ok(true)
    }

    // An end takes the first frame that came to it.
    fn take(
        &mut self,
        alloc: Global,
        node: usize,
        id: EndId,
        fresh: u32,
    ) -> Result<bool, AllocError>
        ensures { Did result (take_frame (without_closing self.old) node id fresh) self.old self.new }
    {
        a_reply_is_of_its_end();
        let Some(place) = self.running(node) else {
            return Ok(false);
        };
        let Some((side, conn)) = self.lives.wire(place, id) else {
            return Ok(false);
        };
        let Some(front) = self.conns.front(conn, side) else {
            return Ok(false);
        };
        let body = body_of(&mut self.room, alloc, front)?;
        let event = Event::Frame { end_: id, body };
        let occasion = Occasion {
            alloc,
            clock: self.clock,
            event: &event,
            fresh,
        };
        let notified = self.lives.notify(&mut self.conns, place, &occasion);
        self.room = room_of(alloc, event);
        match notified? {
            None => Ok(false),
            Some((who, made)) => {
                self.conns.take(conn, side);
                self.last_closed = closed_at(who, made.closed);
                Ok(true)
            }
        }
    }

    // A dial, which takes a copy of the name.
    fn dial(
        &mut self,
        alloc: Global,
        node: usize,
        peer: &NodeName,
        opening: Opening,
    ) -> Result<bool, AllocError>
        ensures { Did result (notify_node (without_closing self.old) node (Event.Dial peer.now opening)) self.old self.new }
    {
        let event = Event::Dial {
            peer: peer.try_clone(alloc)?,
            opening,
        };
        self.notify_node(alloc, node, &event)
    }

    // Whether an event of this incarnation comes from outside.
    fn is_outside(&self, place: usize, event: &Event) -> bool
        ensures { result ≡ is_outside self.now place event.now }
    {
        match event {
            Event::Incoming { link } => conn_behind(*link).is_none(),
            Event::Opened { end_, link: _ } => self.lives.wire(place, *end_).is_none(),
            Event::Frame { end_, body: _ } => self.lives.wire(place, *end_).is_none(),
            _ => false,
        }
    }

    // Somebody outside does something to a node.
    fn outside(
        &mut self,
        alloc: Global,
        node: usize,
        event: &Event,
        fresh: u32,
    ) -> Result<bool, AllocError>
        ensures { Did result (notify_outside (without_closing self.old) node event.now fresh) self.old self.new }
    {
        let Some(place) = self.running(node) else {
            return Ok(false);
        };
        if !self.is_outside(place, event) {
            return Ok(false);
        }
        self.notify(alloc, place, event, fresh)
    }

    // One happening, but for the clock.
    fn apply(&mut self, alloc: Global, happening: &Happening) -> Result<bool, AllocError>
        ensures { Did result (world_after (without_closing self.old) happening.now) self.old self.new }
    {
        match happening {
            Happening::Begin { node, creation } => self.begin(alloc, *node, *creation),
            Happening::BeginAs { node, setup } => self.begin_as(alloc, *node, setup),
            Happening::Halt { node } => Ok(self.halt(*node)),
            Happening::Dial {
                node,
                peer,
                opening,
            } => self.dial(alloc, *node, peer, *opening),
            Happening::Tick { node, end_ } => {
                self.notify_node(alloc, *node, &Event::Tick { end_: *end_ })
            }
            Happening::Reach { node, end_, target } => self.reach(alloc, *node, *end_, *target),
            Happening::Opened { node, end_ } => self.open(alloc, *node, *end_),
            Happening::Accept { conn } => self.accept(alloc, *conn),
            Happening::Deliver { node, end_, bytes } => self.deliver(*node, *end_, *bytes),
            Happening::Take { node, end_, fresh } => self.take(alloc, *node, *end_, *fresh),
            Happening::Lose { node, end_, why } => {
                let event = Event::Lost {
                    end_: *end_,
                    why: *why,
                };
                self.notify_node(alloc, *node, &event)
            }
            Happening::Reset { node, change } => self.reset(alloc, *node, change),
            Happening::Outside { node, event, fresh } => self.outside(alloc, *node, event, *fresh),
        }
    }

    // One happening: whether it applied. An `Err` changes nothing.
    pub(crate) fn happen(
        &mut self,
        alloc: Global,
        happening: &Happening,
    ) -> Result<bool, AllocError>
        ensures { Happened result (applied_at self.old happening.now) self.old self.new }
    {
        if self.clock >= MOST_APPLIED {
            return Ok(false);
        }
        let applies = self.apply(alloc, happening)?;
        if applies {
            self.clock += 1;
        }
        Ok(applies)
    }
}
