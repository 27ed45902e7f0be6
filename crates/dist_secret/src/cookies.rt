//! Cookies by peer.

ghost use Rattle.std.specs.Prelude.{◌≡◌, ◌↔◌, [], OnOk, IfOk, IsTrue, length};
ghost use Rattle.dist_secret.specs.Cookies.{cookie_for, is_full_for, owns, rekeys, with_usual, without_cookie, OthersHave, OthersKeep, OwnersKeep, Sets};

use crate::cookie::Cookie;
use crate::cookies_error::CookiesError;
use dist_names::NodeName;
use std::alloc::{AllocError, Global};
use std::collections::BTreeMap;
use std::marker::Model;

/// The most names that have cookies of their own, our own limit.
const MOST: usize = 1024;

/// The cookies of a node: one for each of at most 1,024 names, and one for all others.
///
/// It has neither `Debug` nor `Display`, as a [`Cookie`] has none.
#[derive(Drop)]
pub struct Cookies {
    usual: Cookie,
    own: BTreeMap<NodeName, Cookie>,
}

impl Model for Cookies {
    ghost use Rattle.dist_secret.specs.Cookies.{CookieTable};

    ghost Value = { CookieTable };

    ghost view = { λ c. record { usual = c.usual; own = c.own.entries } };
}

// A copy of the cookies by name.
fn copy_entries(
    alloc: Global,
    cookies: &BTreeMap<NodeName, Cookie>,
) -> Result<BTreeMap<NodeName, Cookie>, AllocError>
    ensures { IfOk result (λ copy. copy.entries ≡ cookies.now.entries) }
{
    let mut copy = BTreeMap::new(alloc);
    for row in cookies.iter() {
        let (name, cookie) = row;
        let name = name.try_clone(alloc)?;
        let cookie = cookie.try_clone(alloc)?;
        if copy.insert(name, cookie).is_err() {
            return Err(AllocError);
        }
    }
    Ok(copy)
}

// Whether the two maps have the same names, each with the same cookie.
fn are_same(ours: &BTreeMap<NodeName, Cookie>, theirs: &BTreeMap<NodeName, Cookie>) -> bool
    ensures { IsTrue result ↔ (ours.now.entries ≡ theirs.now.entries) }
{
    ours == theirs
}

impl Cookies {
    /// This cookie for every name. It takes no memory.
    pub fn new(alloc: Global, usual: Cookie) -> Cookies
        ensures { result ≡ record { usual = usual; own = [] } }
    {
        Cookies {
            usual,
            own: BTreeMap::new(alloc),
        }
    }

    /// How many names have cookies of their own: at most 1,024 if each was kept by `set`.
    pub fn len(&self) -> usize
        ensures { result ≡ length self.now.own }
    {
        self.own.len()
    }

    /// The cookie for this peer. It takes no memory.
    pub fn for_peer(&self, peer: &NodeName) -> &Cookie
        ensures { result.now ≡ cookie_for self.now peer.now }
    {
        self.own.get(peer).unwrap_or(&self.usual)
    }

    /// Whether this peer has a cookie of its own.
    pub fn owns(&self, peer: &NodeName) -> bool
        ensures { result ≡ owns self.now peer.now }
    {
        self.own.get(peer).is_some()
    }

    /// Whether 1,024 other names have cookies of their own, so that this one finds no room.
    pub fn is_full_for(&self, peer: &NodeName) -> bool
        ensures { result ≡ is_full_for self.now peer.now }
    {
        self.own.get(peer).is_none() && MOST <= self.own.len()
    }

    /// Whether this cookie differs from the one for this peer; none always counts as different.
    pub fn is_rekeyed_by(&self, peer: &NodeName, own: &Option<Cookie>) -> bool
        ensures { result ≡ rekeys self.now peer.now own.now }
    {
        match own {
            Some(cookie) => !self.for_peer(peer).is_same(cookie),
            None => true,
        }
    }

    /// Keeps a cookie for this name, in the place of the one that the name may have.
    ///
    /// Refused as `Full`, then `NoMemory`; the cookies then stay as they were, and the given one is dropped.
    pub fn set(&mut self, peer: NodeName, cookie: Cookie) -> Result<(), CookiesError>
        ensures set { Sets result peer cookie self.old self.new }

        // From then on the peer has this cookie, and every other name the one that it had.
        ensures this { OnOk result (cookie_for self.new peer ≡ cookie) }
        ensures others { OnOk result (OthersKeep peer self.old self.new) }
    {
        if self.is_full_for(&peer) {
            return Err(CookiesError::Full);
        }
        match self.own.insert(peer, cookie) {
            Ok(_) => Ok(()),
            Err(_) => Err(CookiesError::NoMemory),
        }
    }

    /// Takes away the cookie that this name has of its own; where it has none, nothing changes. It takes no memory.
    pub fn remove(&mut self, peer: &NodeName)
        ensures removed { self.new ≡ without_cookie self.old peer.now }

        // From then on the peer has the usual cookie, and every other name the one that it had.
        ensures this { cookie_for self.new peer.now ≡ self.old.usual }
        ensures others { OthersKeep peer.now self.old self.new }
    {
        let _own = self.own.remove(peer);
    }

    /// Changes the cookie of every name that has none of its own. It takes no memory.
    pub fn set_usual(&mut self, cookie: Cookie)
        ensures usual { self.new ≡ with_usual self.old cookie }

        // A name that has a cookie of its own keeps it, and all others have this one from then on.
        ensures owners { OwnersKeep self.old self.new }
        ensures others { OthersHave cookie self.old self.new }
    {
        self.usual = cookie;
    }

    /// Equal cookies. It fails only where memory runs out.
    pub fn try_clone(&self, alloc: Global) -> Result<Cookies, AllocError>
        ensures { IfOk result (λ copy. copy ≡ self.now) }
    {
        Ok(Cookies {
            usual: self.usual.try_clone(alloc)?,
            own: copy_entries(alloc, &self.own)?,
        })
    }

    /// Whether both have the same cookies: the same names with the same cookies of their own, and the same for all others.
    pub fn is_same(&self, other: &Cookies) -> bool
        ensures { IsTrue result ↔ (self.now ≡ other.now) }
    {
        self.usual.is_same(&other.usual) && are_same(&self.own, &other.own)
    }
}
