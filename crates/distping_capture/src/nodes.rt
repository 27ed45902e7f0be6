//! The nodes that were seen: their restarts, names that two hosts use, who listens where, and which lookups no dial followed yet.

ghost use Rattle.std.specs.{List.Sorted.IsSearchInRange, Prelude.length};

use crate::lines::put_slow;
use crate::say::say;
use dist_capture::Endpoint;
use dist_conversation::{Conclusion, Conversation};
use dist_epmd::NodeInfo;
use dist_messages::Side;
use dist_names::{ByteString, Creation, short_part};
use dist_talk::NodeDescription;
use distping_report::LinePiece::{Host, Name, Number};
use distping_report::LineSink;
use distping_words::Fault;
use std::alloc::{AllocError, Global};
use std::mem;
use std::net::IpAddr;

/// The most nodes, ports and counts of pairs that are remembered. Our own choice.
pub const MOST: usize = 1024;

// A node that had the same name at another address, and was still up: its incarnation, its address, and when the later one began.
#[derive(Clone, Copy)]
struct Elder {
    creation: Creation,
    address: IpAddr,
    until: u64,
}

// A node: its latest incarnation, when an attempt began that showed it, from where it was seen last, how many of its connections are up,
// and an elder one.
#[derive(Drop)]
struct KnownNode {
    name: ByteString,
    creation: Creation,
    began: u64,
    address: IpAddr,
    ups: u32,
    elder: Option<Elder>,
}

// Where the node of this name is among those that are known, or would be.
fn place_of(nodes: &[KnownNode], name: &[u8]) -> Result<usize, usize>
    ensures { IsSearchInRange result (length nodes.now) }
{
    nodes.binary_search_by(|it| it.name.as_slice().cmp(name))
}

impl KnownNode {
    // Prints that it restarted, or, while connections of it are up from another host, that it is elsewhere now. The other creation was shown
    // by an attempt that began then.
    fn put_change(
        &self,
        lines: LineSink<'_>,
        creation: Creation,
        address: IpAddr,
        began: u64,
    ) -> Result<(), Fault> {
        let name = Name(self.name.as_slice());
        if self.ups > 0 && self.address != address {
            let form = "!  moved     % is at % now: creation %, before at %: creation %";
            let before = (Host(self.address), Number(self.creation.0));
            return say(
                lines,
                form,
                &[name, Host(address), Number(creation.0), before.0, before.1],
            );
        }
        let (latest, before) = if began < self.began {
            (self.creation, creation)
        } else {
            (creation, self.creation)
        };
        let form = "!  restart   % was started again: creation %, before %";
        say(lines, form, &[name, Number(latest.0), Number(before.0)])
    }

    // Takes another incarnation of it, at this address, that an attempt showed which began then.
    fn renew(&mut self, creation: Creation, address: IpAddr, began: u64) {
        if self.ups > 0 && self.address != address {
            self.elder = Some(Elder {
                creation: self.creation,
                address: self.address,
                until: began,
            });
        }
        self.creation = creation;
        self.began = began;
        self.ups = 0;
    }

    // Notes that a connection of this incarnation ended that was up, on which it was heard last then. Prints that two nodes had its name at
    // once, if the later one was there by then.
    fn note_end(
        &mut self,
        lines: LineSink<'_>,
        creation: Option<Creation>,
        heard: u64,
    ) -> Result<(), Fault> {
        if creation == Some(self.creation) {
            self.ups = self.ups.saturating_sub(1);
            return Ok(());
        }
        match self.elder {
            Some(elder) if creation == Some(elder.creation) && heard > elder.until => {
                self.elder = None;
                let form = "!  two hosts % was up from % while another node of this name was at %";
                let name = Name(self.name.as_slice());
                say(
                    lines,
                    form,
                    &[name, Host(elder.address), Host(self.address)],
                )
            }
            _ => Ok(()),
        }
    }
}

// A lookup that no dial followed yet: by which host, when, in nanoseconds since 1970, and of which name.
#[derive(Drop)]
struct Lookup {
    by: IpAddr,
    at: u64,
    name: ByteString,
}

// The node at a port.
#[derive(Drop)]
struct Listener {
    place: Endpoint,
    // Without its host if a port mapper alone said it, empty if nobody did.
    name: ByteString,
    // The latest lookup that gave this port.
    asked: Option<Lookup>,
}

/// All nodes, as far as handshakes and port mappers said.
#[derive(Drop)]
pub struct NodesSeen {
    alloc: Global,
    // In the order of their names.
    known: Vec<KnownNode>,
    listeners: Vec<Listener>,
}

impl NodesSeen {
    /// Nothing is known.
    pub fn new(alloc: Global) -> NodesSeen {
        NodesSeen {
            alloc,
            known: Vec::new(alloc),
            listeners: Vec::new(alloc),
        }
    }

    // Remembers a side of an attempt that began then, which is at this address, and prints that it changed, if it did. An attempt that began
    // before the latest incarnation was seen can end behind its attempts.
    fn note_side(
        &mut self,
        lines: LineSink<'_>,
        node: NodeDescription<'_>,
        address: IpAddr,
        began: u64,
        is_up: bool,
    ) -> Result<(), Fault> {
        let Some(creation) = node.creation else {
            return Ok(());
        };
        let ups = u32::from(is_up);
        match place_of(&self.known, node.name) {
            Ok(at) => {
                let known = &mut self.known[at];
                if known.creation != creation {
                    known.put_change(lines, creation, address, began)?;
                    if began < known.began {
                        return Ok(());
                    }
                    known.renew(creation, address, began);
                }
                known.address = address;
                known.ups = known.ups.saturating_add(ups);
            }
            Err(at) if self.known.len() < MOST => {
                let name = ByteString::from_slice(self.alloc, node.name)?;
                let met = KnownNode {
                    name,
                    creation,
                    began,
                    address,
                    ups,
                    elder: None,
                };
                self.known.insert(at, met)?;
            }
            Err(_) => {}
        }
        Ok(())
    }

    /// Remembers both sides of an attempt, and prints which of them changed.
    pub fn note_sides(
        &mut self,
        lines: LineSink<'_>,
        seen: &Conversation,
        judged: &Conclusion,
    ) -> Result<(), Fault> {
        let is_up = judged.up_since().is_some();
        for (side, address) in [
            (Side::Dialler, seen.dialler.address),
            (Side::Acceptor, seen.acceptor.address),
        ] {
            if let Some(node) = judged.description_of(side) {
                self.note_side(lines, node, address, seen.began, is_up)?;
            }
        }
        Ok(())
    }

    /// Notes that a connection ended that was up, and prints if one of the two was up while another node had its name.
    pub fn note_end(
        &mut self,
        lines: LineSink<'_>,
        seen: &Conversation,
        judged: &Conclusion,
    ) -> Result<(), Fault> {
        for side in [Side::Dialler, Side::Acceptor] {
            if let Some(node) = judged.description_of(side)
                && let Ok(at) = place_of(&self.known, node.name)
            {
                let heard = seen.flow(side).heard;
                self.known[at].note_end(lines, node.creation, heard)?;
            }
        }
        Ok(())
    }

    /// The whole name of a node that is known without its host, if it was seen from there.
    pub fn whole_name(&self, short: &[u8], host: IpAddr) -> Option<&[u8]> {
        for known in &self.known {
            let name = known.name.as_slice();
            if known.address == host && !short.is_empty() && short_part(name) == short {
                return Some(name);
            }
        }
        None
    }

    // Where the node that listens there stands.
    fn place_of(&self, place: Endpoint) -> Option<usize> {
        self.listeners.iter().position(|it| it.place == place)
    }

    /// Whether a node listens there.
    pub fn is_at(&self, place: Endpoint) -> bool {
        self.place_of(place).is_some()
    }

    // Gives the node at this place of the list this name, unless that is empty, or a part of what is known.
    fn rename(&mut self, at: usize, name: &[u8]) -> Result<(), AllocError> {
        if let Some(listener) = self.listeners.get_mut(at)
            && !name.is_empty()
            && short_part(listener.name.as_slice()) != name
        {
            listener.name = ByteString::from_slice(self.alloc, name)?;
        }
        Ok(())
    }

    /// Notes that a node listens there: with this name, if it is not empty and no part of what is known.
    pub fn note(&mut self, place: Endpoint, name: &[u8]) -> Result<(), AllocError> {
        match self.place_of(place) {
            Some(at) => self.rename(at, name),
            None if self.listeners.len() < MOST => {
                let name = ByteString::from_slice(self.alloc, name)?;
                let asked = None;
                self.listeners.push(Listener { place, name, asked })?;
                Ok(())
            }
            None => Ok(()),
        }
    }

    /// The name of the node where an attempt went, by what it said there, which is remembered; empty if it is not known.
    pub fn acceptor_name(
        &mut self,
        place: Endpoint,
        said: &[u8],
    ) -> Result<ByteString, AllocError> {
        self.note(place, said)?;
        match self.listeners.iter().find(|it| it.place == place) {
            Some(listener) => ByteString::from_slice(self.alloc, listener.name.as_slice()),
            None => ByteString::from_slice(self.alloc, said),
        }
    }

    /// Notes that a port mapper gave a node's port in this conversation, to a lookup of this name. Of the lookups by one host at another one
    /// the latest counts.
    pub fn note_found(
        &mut self,
        seen: &Conversation,
        name: &[u8],
        info: &NodeInfo,
    ) -> Result<(), AllocError> {
        let (by, address) = (seen.dialler.address, seen.acceptor.address);
        let port = info.port;
        let place = Endpoint { address, port };
        self.note(place, info.name.as_slice())?;
        let at = seen.latest;
        for it in self.listeners.iter_mut() {
            if it.place.address == address && it.is_asked_by(by) {
                it.asked = None;
            }
            if it.place == place {
                let name = ByteString::from_slice(self.alloc, name)?;
                it.asked = Some(Lookup { by, at, name });
            }
        }
        Ok(())
    }

    // Takes away the lookup that a dial to a node of this name followed, if one did, and the port that it gave.
    fn take_lookup(&mut self, seen: &Conversation, name: &[u8]) -> Option<(u16, Lookup)> {
        let is_its = |it: &Listener| it.is_asked_for(seen, name);
        let at = self.listeners.iter().position(is_its)?;
        let listener = self.listeners.get_mut(at)?;
        let lookup = mem::replace(&mut listener.asked, None)?;
        Some((listener.place.port, lookup))
    }

    /// Prints if the dial of an attempt to this node went elsewhere than its lookup, or late, or met another node. A lookup counts for one
    /// dial: to the port that it gave, or to the node that it asked for.
    pub fn put_lookup(
        &mut self,
        lines: LineSink<'_>,
        seen: &Conversation,
        name: &[u8],
    ) -> Result<(), Fault> {
        let Some((port, lookup)) = self.take_lookup(seen, name) else {
            return Ok(());
        };
        lookup.put_followed(lines, port, seen, name)?;
        let waited = seen.began.saturating_sub(lookup.at);
        put_slow(lines, Side::Dialler, waited, " seconds from lookup to dial")
    }
}

impl Listener {
    // Whether this host looked it up, and did not dial yet.
    fn is_asked_by(&self, host: IpAddr) -> bool {
        match &self.asked {
            Some(lookup) => lookup.by == host,
            None => false,
        }
    }

    // Whether a dial to a node of this name followed the lookup that gave this port.
    fn is_asked_for(&self, seen: &Conversation, name: &[u8]) -> bool {
        let Some(lookup) = &self.asked else {
            return false;
        };
        let place = seen.acceptor;
        lookup.by == seen.dialler.address
            && lookup.at <= seen.began
            && self.place.address == place.address
            && (self.place.port == place.port || lookup.name.as_slice() == short_part(name))
    }
}

impl Lookup {
    // Prints if the dial went to another port than the one that was given, or met a node of another name.
    fn put_followed(
        &self,
        lines: LineSink<'_>,
        given: u16,
        seen: &Conversation,
        name: &[u8],
    ) -> Result<(), Fault> {
        if given != seen.acceptor.port {
            let form =
                "!  lookup    the port mapper gave port % for this node, and the dial went to another";
            return say(lines, form, &[Number(u32::from(given))]);
        }
        if name.is_empty() || short_part(name) == self.name.as_slice() {
            return Ok(());
        }
        let form = "!  lookup    the port mapper gave this port for %, and % is there";
        say(lines, form, &[Name(self.name.as_slice()), Name(name)])
    }
}
