//! A peer's entry, as C sees it.
ghost use Rattle.std.specs.Prelude.{◌≡◌};
ghost use Rattle.dist_names.specs.NodeName.{name_of_bytes};
ghost use Rattle.dist_c_guest.specs.Entries.{ReportsEntry, entry_report};

use crate::codes::{OK, name_code};
use crate::guest::Guest;
use dist_names::NodeName;
use dist_peers::Entry;
use std::alloc::Global;
use std::mem::size_of;

const _: () = prove!(size_of::<DnEntry>() == 12);

/// Which ends hold a peer.
#[repr(C)]
#[derive(Drop)]
pub struct DnEntry {
    /// 0 for a peer that no end holds, 1 dialled, 2 accepted, 3 up, 4 up and challenged by another end.
    pub state: u32,
    /// The end that is up, and 0 where none is.
    pub up: u32,
    /// The end that is not up, and 0 where there is none.
    pub pending: u32,
}

fn entry_report(entry: Option<Entry>) -> DnEntry
    ensures { result ≡ entry_report entry }
{
    let (state, up, pending) = match entry {
        None => (0, 0, 0),
        Some(Entry::Out(id)) => (1, 0, id.0),
        Some(Entry::In(id)) => (2, 0, id.0),
        Some(Entry::Up(id)) => (3, id.0, 0),
        Some(Entry::Challenged { up, by_ }) => (4, up.0, by_.0),
    };
    DnEntry { state, up, pending }
}

pub fn report_entry(guest: &Guest, alloc: Global, peer: &[u8], entry: &mut DnEntry) -> u32
    ensures { ReportsEntry (name_of_bytes peer.now) result guest.now entry.old entry.new }
{
    match NodeName::new(alloc, peer) {
        Ok(peer) => {
            *entry = entry_report(guest.node.entry_of(&peer));
            OK
        }
        Err(error) => name_code(error),
    }
}
