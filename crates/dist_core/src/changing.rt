//! Changes of a node's setup, between two steps: its cookies, and which peers may connect.
//!
//! An Erlang node makes them at any time (`erlang:set_cookie/1,2`, `net_kernel:allow/1`). It may change the cookie of a connected
//! node, and keeps the connection. Here the cookie of a peer isn't changed while an end is up with it (our own choice): so the
//! record of each end that is up holds the digest of the cookie that the node has for that peer now, after all steps and changes. A
//! handshake doesn't hinder a change: else a stranger that sends a name and shows no cookie could keep every cookie from being
//! changed. What a handshake still has to send and to check is sent and checked with the new cookie.
//!
//! A change is not an event of a step. An event has a reply, concerns one of the ends, counts as a step, and stands in books and in
//! what auditors get; a change has no reply, concerns no end that exists, and isn't counted.
ghost use Rattle.std.specs.Prelude.{◌≡◌, IfErr, IfOk, slice_get};
ghost use Rattle.std.specs.FinMap as map;
ghost use Rattle.dist_core_ends.specs.Ends.{entry_in, table_of};
ghost use Rattle.dist_core.specs.Changing.{IsChange, after_change, change, is_up, is_usual_in_use, is_usual_row};

use crate::node::Node;
use dist_core_setup::{Cookie, NameList};
use dist_names::NodeName;
use dist_secret::CookiesError;
use std::alloc::{AllocError, Global};
use std::mem::replace;
use thiserror::Error;

/// Why a setup is not changed: the first that holds, in this order. Each leaves the node unchanged.
#[derive(Clone, Copy, Debug, PartialEq, Eq, Error)]
pub enum ChangeError {
    /// An end is up with a peer whose cookie would change. Once that end is lost, the change can be made.
    #[error("a peer whose cookie is to be changed is connected")]
    InUse,
    /// 1,024 other names have cookies of their own, and this one has none yet. Our own limit.
    #[error("no room for the cookie of a further name")]
    Full,
    /// Nothing else refuses the change, and no memory was left for it.
    #[error("out of memory")]
    NoMemory,
}

/// What is changed of a node's setup.
#[derive(Drop)]
pub enum Change {
    /// The cookie that this peer has of its own; without one, the usual cookie is the peer's from then on.
    Cookie {
        peer: NodeName,
        cookie: Option<Cookie>,
    },
    /// The cookie of every peer that has none of its own.
    UsualCookie {
        cookie: Cookie,
    },
    /// Which peers may connect: these, or all where there is no list.
    Allow {
        allow: Option<NameList>,
    },
}

impl Change {
    /// An equal change.
    pub fn try_clone(&self, alloc: Global) -> Result<Change, AllocError>
        ensures { IfOk result (λ copy. copy ≡ self.now) }
    {
        Ok(match self {
            Change::Cookie { peer, cookie } => Change::Cookie {
                peer: peer.try_clone(alloc)?,
                cookie: match cookie {
                    None => None,
                    Some(cookie) => Some(cookie.try_clone(alloc)?),
                },
            },
            Change::UsualCookie { cookie } => Change::UsualCookie {
                cookie: cookie.try_clone(alloc)?,
            },
            Change::Allow { allow } => Change::Allow {
                allow: match allow {
                    None => None,
                    Some(names) => Some(names.try_clone(alloc)?),
                },
            },
        })
    }
}

impl Node {
    /// Changes the setup by `set_cookie`, `set_usual_cookie` or `set_allow`, and is refused as they are.
    pub fn change(&mut self, wanted: Change) -> Result<(), ChangeError>
        ensures { IsChange result (change self.old wanted) self.old self.new }
    {
        match wanted {
            Change::Cookie { peer, cookie } => self.set_cookie(peer, cookie),
            Change::UsualCookie { cookie } => self.set_usual_cookie(cookie),
            Change::Allow { allow } => {
                let _before = self.set_allow(allow);
                Ok(())
            }
        }
    }

    /// Keeps a cookie for this peer, in place of one that it has of its own. Where no cookie is given, takes that one away: then the
    /// usual cookie is the peer's from then on. No other peer's cookie changes. To take one away takes no memory.
    ///
    /// Refused as `InUse` where an end is up with the peer and this isn't the cookie that it has, then `Full`, then `NoMemory`. So a
    /// peer that is up can get the usual cookie as its own, before the usual cookie changes.
    pub fn set_cookie(&mut self, peer: NodeName, cookie: Option<Cookie>) -> Result<(), ChangeError>
        ensures { IsChange result (change self.old (Change.Cookie peer cookie)) self.old self.new }
    {
        if self.is_up(&peer) && self.setup.cookies.is_rekeyed_by(&peer, &cookie) {
            return Err(ChangeError::InUse);
        }
        let Some(cookie) = cookie else {
            self.setup.cookies.remove(&peer);
            return Ok(());
        };
        match self.setup.cookies.set(peer, cookie) {
            Ok(()) => Ok(()),
            Err(CookiesError::Full) => Err(ChangeError::Full),
            Err(CookiesError::NoMemory) => Err(ChangeError::NoMemory),
        }
    }

    // Whether an end is up with this peer.
    fn is_up(&self, peer: &NodeName) -> bool
        ensures { result ≡ is_up (entry_in self.now.ends peer.now) }
    {
        match self.entry_of(peer) {
            Some(entry) => entry.up().is_some(),
            None => false,
        }
    }

    /// Changes the cookie of every peer that has none of its own. It takes no memory, and walks all entries.
    ///
    /// Refused only as `InUse`: where an end is up with a peer that has no cookie of its own.
    pub fn set_usual_cookie(&mut self, cookie: Cookie) -> Result<(), ChangeError>
        ensures change { IsChange result (change self.old (Change.UsualCookie cookie)) self.old self.new }
        ensures alone { IfErr result (λ error. error ≡ ChangeError.InUse) }
    {
        if self.is_usual_in_use() {
            return Err(ChangeError::InUse);
        }
        self.setup.cookies.set_usual(cookie);
        Ok(())
    }

    /// Changes which peers may connect: these, or all where there is no list; and returns the list that it replaces. It takes
    /// no memory, and is never refused.
    ///
    /// It concerns only names that come later: a peer that is connected stays so, and a handshake whose name came goes on. To end
    /// one of these, report its end as lost. A dial is not bound by the list.
    pub fn set_allow(&mut self, allow: Option<NameList>) -> Option<NameList>
        ensures changed { self.new ≡ after_change self.old (Change.Allow allow) }
        ensures before { result ≡ self.old.setup.allow }
    {
        replace(&mut self.setup.allow, allow)
    }

    // Whether an end is up with a peer that has no cookie of its own.
    fn is_usual_in_use(&self) -> bool
        ensures { result ≡ is_usual_in_use self.now }
    {
        for i in 0..self.entries() {
            if self.is_usual_at(i) {
                return true;
            }
        }
        false
    }

    // The same for the entry at this place.
    fn is_usual_at(&self, i: usize) -> bool
        ensures { result ≡ is_usual_row self.now.setup (slice_get (map.entries (table_of self.now.ends)) i) }
    {
        match self.entry_at(i) {
            Some((peer, entry)) => entry.up().is_some() && !self.setup.cookies.owns(peer),
            None => false,
        }
    }
}
