ghost use Rattle.std.specs.Prelude.{◌≡◌, IfOk, OnOk, OnErr, true, false, None, IsSome, length, option_copied, slice_get};
ghost use Rattle.std.specs.Option.{option_map};
ghost use Rattle.std.specs.FinMap as map;
ghost use Rattle.dist_names.specs.Order.{same_name};
ghost use Rattle.dist_peers.specs.Table.{entry_of, is_waiting, replaced_by, left_by, with_entry, up_behind, up_ids, OthersStay};
ghost use Rattle.dist_peers.specs.Verdicts.{is_full, is_greater, ruling, table_after_dial, table_after_name, verdict_on, Does};

use crate::by_name::{
    change_row, drop_row, entry_in, leave_row, put_row, row_at, up_behind, up_count, up_in,
};
use crate::entry::{EndId, Entry, PeersError, Verdict};
use crate::verdict::{left_over, replaced_end, ruling_of, waits_for};
use dist_names::NodeName;
use std::alloc::{AllocError, Global};
use std::collections::BTreeMap;
use std::marker::Model;

/// The most entries that `dial` and `name_came` make, our own limit.
const MOST: u32 = 1024;

/// The entries of the peers that aren't idle. `dial` and `name_came` make at most 1,024; a caller of `dial_idle` and
/// `take_name` keeps to its own limit by asking `is_full_for` first.
///
/// Contracts see a finite map from names to entries, and `at` returns them in the order of the names.
#[derive(Drop)]
pub struct Peers {
    alloc: Global,
    by_name: BTreeMap<NodeName, Entry>,
}

impl Model for Peers {
    ghost use Rattle.std.specs.BTreeMap.{IsOrdered};
    ghost use Rattle.std.specs.FinMap as map;
    ghost use Rattle.std.specs.Coded.{coded_list, coded_ℕ};
    ghost use Rattle.dist_names.specs.Order.{name_cmp};
    ghost use Rattle.dist_peers.specs.declared.entry.Entry.{Entry};
    ghost use Rattle.dist_peers.specs.contracts.entry.Entry as entry;

    ghost Value = { map.FinMap name_cmp Entry };

    ghost coded = { map.code (coded_list coded_ℕ) (entry.the_row).coded };

    ghost view = { λ p. map.from_sorted p.by_name.entries };

    ghost invariant = { λ p. IsOrdered name_cmp p.by_name };
}

impl Peers {
    /// A table in which every peer is idle. It takes no memory.
    pub fn new(alloc: Global) -> Peers
        ensures { result ≡ map.empty }
    {
        Peers {
            alloc,
            by_name: BTreeMap::new(alloc),
        }
    }

    /// How many peers have an entry.
    pub fn len(&self) -> usize
        ensures count { result ≡ map.len self.now }
    {
        self.by_name.len()
    }

    /// The entry of a peer. `None` where it is idle.
    pub fn entry(&self, peer: &NodeName) -> Option<Entry>
        ensures { result ≡ entry_of self.now peer.now }
    {
        entry_in(&self.by_name, peer)
    }

    /// The entry at this place, from 0, in the order of the peers' names, and the peer. `None` from `len` on.
    pub fn at(&self, i: usize) -> Option<(&NodeName, Entry)>
        ensures { option_map (λ r. (r.0.now, r.1)) result ≡ slice_get (map.entries self.now) i }
    {
        row_at(&self.by_name, i)
    }

    /// How many ends are up.
    pub fn ups(&self) -> usize
        ensures { result ≡ length (up_ids (map.entries self.now)) }
    {
        up_count(&self.by_name)
    }

    /// The end at this place, from 0, among those that are up, in the order of the peers' names. It walks the entries once.
    pub fn up_at(&self, i: usize) -> Option<EndId>
        ensures { result ≡ slice_get (up_ids (map.entries self.now)) i }
    {
        up_in(&self.by_name, i)
    }

    /// The first end that is up of the peers whose names come after this one, in their order; of all peers where there is no name.
    /// Called again with the name of the peer that it found, it goes through all of them: each call searches the table once.
    pub fn up_behind(&self, name: Option<&NodeName>) -> Option<EndId>
        ensures { result ≡ up_behind (option_copied name.entry) (map.entries self.now) }
    {
        match name {
            None => up_in(&self.by_name, 0),
            Some(name) => up_behind(&self.by_name, name),
        }
    }

    /// Whether there are `most` entries or more, and none is this peer's. A table with room is not searched.
    #[tactic(auto, using(crate::proofs::Rooms::room))]
    pub fn is_full_for(&self, peer: &NodeName, most: u32) -> bool
        ensures { result ≡ is_full most self.now (entry_of self.now peer.now) }
    {
        if self.len() < most as usize {
            return false;
        }
        self.is_full_with(self.entry(peer), most)
    }

    // Whether a peer with this entry, or with none, finds no room: there are `most` entries or more, and none is its own.
    fn is_full_with(&self, entry: Option<Entry>, most: u32) -> bool
        ensures { result ≡ is_full most self.now entry }
    {
        match entry {
            Some(_) => false,
            None => self.len() >= most as usize,
        }
    }

    /// Whether the peer's entry waits for this end to come up: it names the end as dialled or as accepted.
    pub fn is_waiting(&self, peer: &NodeName, id: EndId) -> bool
        ensures { result ≡ is_waiting id (entry_of self.now peer.now) }
    {
        waits_for(self.entry(peer), id)
    }

    /// The verdict on a peer's name that comes on this end, where there is room for an entry.
    pub fn verdict(&self, me: &NodeName, peer: &NodeName, id: EndId) -> Verdict
        ensures { result ≡ verdict_on self.now me.now peer.now id }
    {
        ruling_of(me.cmp(peer).is_gt(), id, self.entry(peer)).verdict
    }

    /// A dial to this peer begins on this end: the idle peer's entry becomes `Out`.
    ///
    /// Refused as `Busy` where the peer is not idle, then `Full`, then `NoMemory`; the table then stays as it was.
    #[tactic(auto, using(crate::proofs::Others::others_same, crate::proofs::Others::others_insert))]
    pub fn dial(&mut self, peer: &NodeName, id: EndId) -> Result<(), PeersError>
        ensures entry { Does result (table_after_dial self.old peer.now id (entry_of self.old peer.now)) self.old self.new }
        ensures others { OthersStay peer.now self.old self.new }
        ensures unchanged { OnErr result (self.new ≡ self.old) }
    {
        if let Some(entry) = self.entry(peer) {
            return Err(PeersError::Busy(entry));
        }
        if self.is_full_with(None, MOST) {
            return Err(PeersError::Full);
        }
        match self.put(peer, Entry::Out(id)) {
            Ok(_) => Ok(()),
            Err(_) => Err(PeersError::NoMemory),
        }
    }

    /// A peer's name came on this end and passed the checks on names: the table of verdicts is applied.
    ///
    /// Refused as `Full`, then `NoMemory`; the table then stays as it was.
    #[tactic(auto, using(crate::proofs::Others::others_same, crate::proofs::Others::others_insert))]
    pub fn name_came(
        &mut self,
        me: &NodeName,
        peer: &NodeName,
        id: EndId,
    ) -> Result<Verdict, PeersError>
        // A caller refuses the own name before; `NodeName::is_same` is the test.
        requires { same_name me.now peer.now ≡ false }
        ensures verdict { IfOk result (λ v. v ≡ verdict_on self.old me.now peer.now id) }
        ensures entry { Does result (table_after_name self.old peer.now (is_greater me.now peer.now) id) self.old self.new }
        ensures others { OthersStay peer.now self.old self.new }
        ensures unchanged { OnErr result (self.new ≡ self.old) }
    {
        let entry = self.entry(peer);
        if self.is_full_with(entry, MOST) {
            return Err(PeersError::Full);
        }
        let ruling = ruling_of(me.cmp(peer).is_gt(), id, entry);
        match self.put(peer, ruling.entry) {
            Ok(_) => Ok(ruling.verdict),
            Err(_) => Err(PeersError::NoMemory),
        }
    }

    /// A dial to a peer that is known to be idle begins on this end: its entry becomes `Out`. The table is searched once.
    ///
    /// Where memory runs out, nothing changes.
    pub fn dial_idle(&mut self, peer: &NodeName, id: EndId) -> Result<(), AllocError>
        // `entry` tells whether the peer is idle.
        requires idle { entry_of self.old peer.now ≡ None }
        ensures ok { OnOk result (self.new ≡ map.insert self.old peer.now (Entry.Out id)) }
        ensures err { OnErr result (self.new ≡ self.old) }
    {
        let _ = self.put(peer, Entry::Out(id))?;
        Ok(())
    }

    /// A peer's name came on this end: its entry becomes the one of the table of verdicts. For an idle peer, as most are, the table
    /// is searched once.
    ///
    /// Where memory runs out, nothing changes.
    #[tactic(auto, using(crate::proofs::Others::put_there, crate::proofs::Others::put_over))]
    pub fn take_name(&mut self, me: &NodeName, peer: &NodeName, id: EndId) -> Result<(), AllocError>
        ensures ok { OnOk result (self.new
            ≡ map.insert self.old peer.now (let r = ruling (is_greater me.now peer.now) id (entry_of self.old peer.now) in r.entry)) }
        ensures err { OnErr result (self.new ≡ self.old) }
    {
        let was = self.put(peer, Entry::In(id))?;
        if was.is_some() {
            let ruling = ruling_of(me.cmp(peer).is_gt(), id, was);
            let _ = self.change(peer, ruling.entry);
        }
        Ok(())
    }

    /// This end came up with the peer. Returns the end that was up before, which the caller closes. It takes no memory.
    #[tactic(auto, using(crate::proofs::Others::others_insert))]
    pub fn came_up(&mut self, peer: &NodeName, id: EndId) -> Option<EndId>
        // Only an end that was dialled, or whose name was taken, comes up; `is_waiting` is the test.
        requires { is_waiting id (entry_of self.old peer.now) ≡ true }
        ensures replaced { result ≡ replaced_by (entry_of self.old peer.now) }
        ensures entry { self.new ≡ map.insert self.old peer.now (Entry.Up id) }
        ensures others { OthersStay peer.now self.old self.new }
    {
        replaced_end(self.change(peer, Entry::Up(id)))
    }

    /// This end is lost, or was closed by its own message. It changes nothing where the peer's entry does not name the end.
    /// It takes no memory.
    #[tactic(auto, using(crate::proofs::Others::others_insert, crate::proofs::Others::others_removed))]
    pub fn lost(&mut self, peer: &NodeName, id: EndId)
        ensures entry { self.new ≡ with_entry self.old peer.now (left_by id (entry_of self.old peer.now)) }
        ensures others { OthersStay peer.now self.old self.new }
    {
        match left_over(self.entry(peer), id) {
            Some(entry) => {
                let _ = self.change(peer, entry);
            }
            None => self.remove(peer),
        }
    }

    /// The same as `lost`, for a peer that has an entry, by a caller that gives its name away: the table is searched once.
    pub fn let_go(&mut self, peer: NodeName, id: EndId)
        // A peer that an end holds has an entry; `entry` is the test.
        requires { IsSome (entry_of self.old peer) }
        ensures { self.new ≡ with_entry self.old peer (left_by id (entry_of self.old peer)) }
    {
        leave_row(&mut self.by_name, peer, id);
    }

    // Gives a peer an entry, and returns the one that it had.
    fn put(&mut self, peer: &NodeName, entry: Entry) -> Result<Option<Entry>, AllocError>
        ensures was { IfOk result (λ was. was ≡ entry_of self.old peer.now) }
        ensures ok { OnOk result (self.new ≡ map.insert self.old peer.now entry) }
        ensures err { OnErr result (self.new ≡ self.old) }
    {
        put_row(&mut self.by_name, self.alloc, peer, entry)
    }

    // Gives another entry to a peer that has one, and returns the old one.
    fn change(&mut self, peer: &NodeName, entry: Entry) -> Option<Entry>
        requires { IsSome (entry_of self.old peer.now) }
        ensures was { result ≡ entry_of self.old peer.now }
        ensures changed { self.new ≡ map.insert self.old peer.now entry }
    {
        change_row(&mut self.by_name, peer, entry)
    }

    // Makes a peer idle.
    fn remove(&mut self, peer: &NodeName)
        ensures { self.new ≡ map.remove self.old peer.now }
    {
        drop_row(&mut self.by_name, peer);
    }
}
