//! Which peers may connect, and under which cookie: changes of the setup of a guest's node, at any time between two calls.
ghost use Rattle.std.specs.Prelude.{◌≡◌, OnOk, OnErr, IfErr, Ok};
ghost use Rattle.dist_names.specs.NodeName.{name_of_bytes};
ghost use Rattle.dist_secret.specs.Cookie.{cookie_of};
ghost use Rattle.dist_core_setup.specs.Changing.{allowing};
ghost use Rattle.dist_core.specs.Changing.{change};
ghost use Rattle.dist_c_guest.specs.Changes.{AllowsText, Amends, Changes, DisallowsText, Keys, KeysUsually, Unkeys, lets_in, shuts_out, with_form};
ghost use Rattle.dist_c_guest.specs.Forms.{has_form};

use crate::codes::{NO_MEMORY, OK, change_code, cookie_code, name_code};
use crate::forms::{form_of, has_form};
use crate::guest::Guest;
use crate::making::read_both;
use dist_core::{Change, ChangeError, NameList};
use dist_names::{ByteString, NodeName};
use dist_secret::Cookie;
use std::alloc::{AllocError, Global};

// Lets this peer connect beside those that may.
fn let_in(alloc: Global, allow: &mut Option<NameList>, peer: NodeName) -> Result<(), AllocError>
    ensures ok { OnOk result (allow.new ≡ allowing allow.old peer) }
    ensures err { OnErr result (allow.new ≡ allow.old) }
{
    match allow {
        Some(names) => names.add(peer),
        None => {
            let mut names = NameList::from_vec(Vec::new(alloc));
            names.add(peer)?;
            *allow = Some(names);
            Ok(())
        }
    }
}

impl Guest {
    /// Lets this peer connect. From the first such call on only peers that were named so may; one that is named again stands in
    /// the list once. A dial is not bound by it, and peers that are connected stay so.
    ///
    /// Refused as `NoMemory` alone.
    pub fn allow(&mut self, alloc: Global, peer: NodeName) -> Result<(), ChangeError>
        ensures change { Changes result (lets_in self.old peer) self.old self.new }
        ensures alone { IfErr result (λ error. error ≡ ChangeError.NoMemory) }
    {
        let mut allow = self.node.set_allow(None);
        let result = let_in(alloc, &mut allow, peer);
        let _ = self.node.set_allow(allow);
        match result {
            Ok(()) => Ok(()),
            Err(_) => Err(ChangeError::NoMemory),
        }
    }

    /// Lets this peer connect no more, where the peers that may are listed: its name is taken out of the list. Once no name is
    /// left in it, no peer may connect. Where there is no list all peers may connect, this one too, and nothing changes.
    ///
    /// It is never refused, and takes no memory. A peer that is connected stays so: whoever wants it gone reports its end as
    /// lost.
    pub fn disallow(&mut self, peer: &NodeName)
        ensures { Changes (Ok tt) (shuts_out self.old peer.now) self.old self.new }
    {
        let mut allow = self.node.set_allow(None);
        if let Some(names) = &mut allow {
            names.remove(peer);
        }
        let _ = self.node.set_allow(allow);
    }

    /// Lets every peer connect for which this form stands, beside those that may. From the first such call on no other peers
    /// may. A form that is kept again stands there once.
    ///
    /// Refused as `NoMemory` alone.
    pub fn allow_form(&mut self, alloc: Global, form: ByteString) -> Result<(), ChangeError>
        ensures ok { OnOk result (self.new ≡ with_form self.old form) }
        ensures err { OnErr result (self.new ≡ self.old) }
        ensures alone { IfErr result (λ error. error ≡ ChangeError.NoMemory) }
    {
        if self.reading.forms.add(form).is_err() {
            return Err(ChangeError::NoMemory);
        }
        let nobody = NameList::from_vec(Vec::new(alloc));
        let names = self.node.set_allow(None).or(Some(nobody));
        let _ = self.node.set_allow(names);
        Ok(())
    }
}

/// Lets the peer of this name connect, or every peer for which this form stands.
pub fn allow_text(guest: &mut Guest, alloc: Global, text: &[u8]) -> u32
    ensures { AllowsText (has_form text.now) text.now result guest.old guest.new }
{
    if has_form(text) {
        return match form_of(alloc, text) {
            Ok(form) => match guest.allow_form(alloc, form) {
                Ok(()) => OK,
                Err(_) => NO_MEMORY,
            },
            Err(error) => name_code(error),
        };
    }
    match NodeName::new(alloc, text) {
        Ok(peer) => match guest.allow(alloc, peer) {
            Ok(()) => OK,
            Err(_) => NO_MEMORY,
        },
        Err(error) => name_code(error),
    }
}

/// Lets the peer of this name connect no more; or keeps this form no more: a peer for which it stands may connect where another form
/// stands for it, or where its own name is in the list. Once neither a form nor a name is left, no peer may. A form that isn't kept
/// changes nothing. Refused as the text is, and else never: it takes memory to read the text alone.
pub fn disallow_text(guest: &mut Guest, alloc: Global, text: &[u8]) -> u32
    ensures { DisallowsText (has_form text.now) text.now result guest.old guest.new }
{
    if has_form(text) {
        return match form_of(alloc, text) {
            Ok(form) => {
                guest.reading.forms.remove(form.as_slice());
                OK
            }
            Err(error) => name_code(error),
        };
    }
    match NodeName::new(alloc, text) {
        Ok(peer) => {
            guest.disallow(&peer);
            OK
        }
        Err(error) => name_code(error),
    }
}

// Makes a change, and returns its code.
fn make_change(guest: &mut Guest, wanted: Change) -> u32
    ensures { Amends (change guest.old.node wanted) result guest.old guest.new }
{
    match guest.node.change(wanted) {
        Ok(()) => OK,
        Err(error) => change_code(error),
    }
}

/// Keeps a cookie for this peer, in place of one that it has of its own.
///
/// Refused as its texts are; then as `InUse` where the peer is connected and this is another cookie than it has, then `Full`, then
/// `NoMemory`.
pub fn set_cookie(guest: &mut Guest, alloc: Global, peer: &[u8], cookie: &[u8]) -> u32
    ensures { Keys (name_of_bytes peer.now) (cookie_of cookie.now) result guest.old guest.new }
{
    match read_both(alloc, peer, cookie) {
        Ok((peer, cookie)) => {
            let cookie = Some(cookie);
            make_change(guest, Change::Cookie { peer, cookie })
        }
        Err(code) => code,
    }
}

/// Takes away the cookie that this peer has of its own. Refused as the name is; then as `InUse` where the peer is connected and would
/// get another cookie.
pub fn take_cookie(guest: &mut Guest, alloc: Global, peer: &[u8]) -> u32
    ensures { Unkeys (name_of_bytes peer.now) result guest.old guest.new }
{
    match NodeName::new(alloc, peer) {
        Ok(peer) => {
            let cookie = None;
            make_change(guest, Change::Cookie { peer, cookie })
        }
        Err(error) => name_code(error),
    }
}

/// Changes the cookie of every peer that has none of its own. It takes memory to read the cookie alone.
///
/// Refused as the cookie is; then as `InUse` alone: where a peer that has none of its own is connected.
pub fn set_usual_cookie(guest: &mut Guest, alloc: Global, cookie: &[u8]) -> u32
    ensures { KeysUsually (cookie_of cookie.now) result guest.old guest.new }
{
    match Cookie::from_bytes(alloc, cookie) {
        Ok(cookie) => make_change(guest, Change::UsualCookie { cookie }),
        Err(error) => cookie_code(error),
    }
}
