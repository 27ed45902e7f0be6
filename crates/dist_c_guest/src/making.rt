//! A node is made, and asked for its peers.
ghost use Rattle.std.specs.{Prelude.◌≡◌, Prelude.Some, Prelude.None, Prelude.Ok, Prelude.IfOk, Prelude.IfErr, Prelude.slice_get, Option.option_map};
ghost use Rattle.dist_core_ends.specs.Ends.{record_in};
ghost use Rattle.dist_names.specs.NodeName.{name_of_bytes};
ghost use Rattle.dist_secret.specs.Cookie.{cookie_of};
ghost use Rattle.dist_c_guest.specs.Nodes.{News, ReadsBoth, version_of, limit_of, limits_in, number_or, Returns, ReportsNext};

use crate::codes::{HALF_FLAGS, NO_MEMORY, NO_SUCH, cookie_code, name_code};
use crate::copies::copy_out;
use crate::guest::Guest;
use crate::reading::is_whole;
use crate::replies::creation_parts;
use dist_core::{Limits, NameList, Setup, UpRecord, Version};
use dist_names::{Creation, Flags, NameError, NodeName};
use dist_peers::EndId;
use dist_secret::{Cookie, Cookies};
use std::alloc::Global;
use std::mem::size_of;

const _: () = prove!(size_of::<DnSetup>() == 56 && size_of::<DnPeer>() == 32);

/// What a node is set up with, but for its name and its cookie.
#[repr(C)]
#[derive(Drop)]
pub struct DnSetup {
    /// The flags that it announces.
    pub flags: u64,
    /// The flags that it asks of a peer.
    pub required: u64,
    /// The number of its incarnation.
    pub creation: u32,
    /// The highest version of the handshake that it knows: 5 or 6, and 0 stands for 6.
    pub version: u32,
    /// Where it isn't 0, only peers that are allowed may connect.
    pub limited: u32,
    /// The most ends that it ever gives out. In this field and the three that follow 0 stands for the number of
    /// `Limits::long_running()`.
    pub most_ends: u32,
    /// The most steps that it makes, losses not counted.
    pub most_steps: u64,
    /// The most peers that have an entry at one time.
    pub most_entries: u32,
    /// The most ends that are open at one time.
    pub most_open_ends: u32,
    /// The flags that `DFLAG_MANDATORY_25_DIGEST` stands for in the flags of a peer, and 0 for none.
    pub mandatory_25: u64,
}

/// A peer that is up.
#[repr(C)]
#[derive(Drop)]
pub struct DnPeer {
    /// How many bytes its name has.
    pub name: usize,
    /// The flags that both nodes announced.
    pub common: u64,
    /// The end that is up with it.
    pub id: u32,
    /// Its creation, and 0 where it is unknown.
    pub creation: u32,
    /// 1 where that is known.
    pub has_creation: u32,
}

fn version_of(number: u32) -> Option<Version>
    ensures { result ≡ version_of number }
{
    match number {
        5 => Some(Version::Five),
        0 | 6 => Some(Version::Six),
        _ => None,
    }
}

fn limit_of(alloc: Global, number: u32) -> Option<NameList>
    ensures { result ≡ limit_of number }
{
    if number == 0 {
        None
    } else {
        Some(NameList::from_vec(Vec::new(alloc)))
    }
}

// The number that was given, where 0 stands for another one.
fn count_or(other: u32, given: u32) -> u32
    ensures { result ≡ number_or other given }
{
    if given == 0 { other } else { given }
}

fn limits_in(setup: &DnSetup) -> Limits
    ensures { result ≡ limits_in setup.now }
{
    let most = Limits::long_running();
    Limits {
        ends: count_or(most.ends, setup.most_ends),
        entries: count_or(most.entries, setup.most_entries),
        open_ends: count_or(most.open_ends, setup.most_open_ends),
        steps: if setup.most_steps == 0 {
            most.steps
        } else {
            setup.most_steps
        },
    }
}

/// A name and a cookie. `NO_MEMORY` for the name is returned only where the text has a cookie.
pub fn read_both(alloc: Global, name: &[u8], cookie: &[u8]) -> Result<(NodeName, Cookie), u32>
    ensures { ReadsBoth result (name_of_bytes name.now) (cookie_of cookie.now) }
{
    let name = match NodeName::new(alloc, name) {
        Ok(name) => Some(name),
        Err(NameError::NoMemory) => None,
        Err(error) => return Err(name_code(error)),
    };
    match Cookie::from_bytes(alloc, cookie) {
        Ok(cookie) => match name {
            Some(name) => Ok((name, cookie)),
            None => Err(NO_MEMORY),
        },
        Err(error) => Err(cookie_code(error)),
    }
}

/// A guest of a node without ends: one that is whole, so that `guests_agree` holds of it. `NO_MEMORY` may come before `HALF_FLAGS`.
pub fn new_guest(
    alloc: Global,
    name: &[u8],
    cookie: &[u8],
    setup: &DnSetup,
) -> Result<Box<Guest>, u32>
    ensures ok { IfOk result (λ b. News (version_of setup.now.version) (name_of_bytes name.now) (cookie_of cookie.now) setup.now 0 None (Some b.value)) }
    ensures err { IfErr result (λ code. News (version_of setup.now.version) (name_of_bytes name.now) (cookie_of cookie.now) setup.now code None None) }
{
    let Some(version) = version_of(setup.version) else {
        return Err(NO_SUCH);
    };
    let (name, cookie) = read_both(alloc, name, cookie)?;
    let mandatory = Flags(setup.mandatory_25);
    let setup = Setup {
        name,
        cookies: Cookies::new(alloc, cookie),
        version,
        flags: Flags(setup.flags),
        required: Flags(setup.required),
        creation: Creation(setup.creation),
        allow: limit_of(alloc, setup.limited),
        limits: limits_in(setup),
    };
    if !is_whole(&setup, mandatory) {
        return Err(HALF_FLAGS);
    }
    let mut guest = Guest::new(alloc, setup);
    guest.reading.mandatory = mandatory;
    match Box::new(alloc, guest) {
        Ok(guest) => Ok(guest),
        Err(_) => Err(NO_MEMORY),
    }
}

// Reports a record and copies its name, where there is one.
pub fn report_found(found: Option<(EndId, &UpRecord)>, room: &mut [u8], peer: &mut DnPeer) -> u32
    ensures { Returns (option_map (λ r. (r.0, r.1.now)) found.entry) result peer.old peer.new room.old room.new }
{
    let Some((id, kept)) = found else {
        return NO_SUCH;
    };
    let mut len = 0;
    let code = copy_out(kept.peer.bytes(), room, &mut len);
    let (creation, has_creation) = creation_parts(kept.creation);
    *peer = DnPeer {
        name: len,
        common: kept.common.0,
        id: id.0,
        creation,
        has_creation,
    };
    code
}

// Reports the peer that comes next behind the name of these bytes, or the first where there are none.
pub fn report_next(
    guest: &Guest,
    alloc: Global,
    name: &[u8],
    peer: &mut DnPeer,
    room: &mut [u8],
) -> u32
    ensures { ReportsNext name.now result guest.now peer.old peer.new room.old room.new }
{
    if name.is_empty() {
        return report_found(guest.node.up_behind(None), room, peer);
    }
    match NodeName::new(alloc, name) {
        Ok(name) => report_found(guest.node.up_behind(Some(&name)), room, peer),
        Err(error) => name_code(error),
    }
}

/// Reports the peer that is up on this end.
pub fn report_peer(guest: &Guest, id: u32, peer: &mut DnPeer, room: &mut [u8]) -> u32
    ensures { Returns (record_in (record { 0 = id }) (slice_get guest.now.node.ends id)) result peer.old peer.new room.old room.new }
{
    match guest.node.record_of(EndId(id)) {
        Some(kept) => report_found(Some((EndId(id), kept)), room, peer),
        None => NO_SUCH,
    }
}
