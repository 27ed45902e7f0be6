//! All ends of a node, and who holds whom.
ghost use Rattle.std.specs.Prelude.{◌≡◌, ℕ, ◌<◌, ◌^◌, [], length, IsOk, OnOk, OnErr, Some, None, option_copied, slice_get, count_by};
ghost use Rattle.std.specs.Option.{option_map, option_and_then};
ghost use Rattle.std.specs.FinMap as map;
ghost use Rattle.dist_names.specs.Order.{Name};
ghost use Rattle.dist_peers.specs.{Table.entry_of, Table.replaced_by, Table.up_behind, Verdicts.is_full};
ghost use Rattle.dist_core_ends.specs.Ends.{AreLegal, FindsUp, Finds, entry_in, table_of, is_open, is_dialing, claim_of, end_id, record_in, up_from};
ghost use Rattle.dist_core_ends.specs.Ends.{up_pair, up_id, up_ids, oldest_pending, oldest_unnamed, still_of, awaited_of, verdict_of};
ghost use Rattle.dist_core_ends.specs.Progress.{at_stage, replaced_end, CanAdvance, CanRise};
ghost use Rattle.dist_core_ends.specs.{Change.Fits, Change.StaysClosed, Change.with_change, Forgetting.without_causes_below};

use crate::known::{Attempt, End, Stage, UpRecord};
use crate::phase::{Absent, Awaited, Phase, Still};
use crate::slots::{EndList, Sought};
use crate::table::{leave, shift_by_number};
use crate::why::Why;
use dist_names::NodeName;
use dist_peers::{EndId, Entry, Peers, Verdict};
use std::alloc::{AllocError, Global};
use std::marker::Model;

/// The ends of a node, by their numbers from 0, and who holds whom. Contracts see the list of all ends.
#[derive(Drop)]
pub struct Ends {
    /// The entries that the ends make: from a peer to its ends.
    peers: Peers,
    /// The ends, by their numbers.
    list: EndList,
    /// No end below this number is pending, or ever will be: the number only rises.
    passed: usize,
    /// The same for ends on which no name came.
    named: usize,
}

impl Model for Ends {
    ghost use Rattle.std.specs.Prelude.{List};
    ghost use Rattle.dist_core_ends.specs.declared.known.End.{End};
    ghost use Rattle.dist_core_ends.specs.Keeping.{KeepsEnds};

    ghost Value = { List End };

    ghost view = { λ b. b.list.items };

    ghost invariant = { λ b. KeepsEnds b.peers b.list.items b.passed b.named };
}

impl Ends {
    /// A list without ends. It takes no memory.
    pub fn new(alloc: Global) -> Ends
        ensures { result ≡ [] }
    {
        Ends {
            peers: Peers::new(alloc),
            list: EndList::new(alloc),
            passed: 0,
            named: 0,
        }
    }

    /// How many numbers were given out: one for each end, open or closed.
    pub fn len(&self) -> usize
        ensures { result ≡ length self.now }
    {
        self.list.len()
    }

    /// The number of the next end that is given out.
    pub fn next_id(&self) -> EndId
        requires { length self.now < 2 ^ 32 }
        ensures { result ≡ end_id (length self.now) }
    {
        EndId(self.list.len() as u32)
    }

    /// How many ends are open.
    pub fn open_ends(&self) -> usize
        ensures count { result ≡ count_by is_open self.now }
        ensures legal { AreLegal self.now }
    {
        self.list.open_ends()
    }

    /// How an end stands.
    pub fn still(&self, id: EndId) -> Still
        ensures { result ≡ still_of (slice_get self.now id.0) }
    {
        match self.open_end(id) {
            Err(Absent::NoSuchEnd) => Still::NoSuchEnd,
            Err(Absent::Gone(why)) => Still::Gone(why),
            Ok(End::Up(_)) => Still::Up,
            Ok(_) => Still::Pending,
        }
    }

    /// What an end awaits, where it is open.
    pub fn awaits(&self, id: EndId) -> Option<Awaited>
        ensures { result ≡ awaited_of (slice_get self.now id.0) }
    {
        match self.open_end(id) {
            Ok(End::Unnamed) => Some(Awaited::Name),
            Ok(End::Attempt(attempt)) => Some(attempt.phase.awaits()),
            Ok(End::Up(_)) => Some(Awaited::Nothing),
            _ => None,
        }
    }

    /// Whether the end was dialled and awaits its connection, also where it was superseded meanwhile.
    pub fn is_dialing(&self, id: EndId) -> bool
        ensures { result ≡ is_dialing (slice_get self.now id.0) }
    {
        match self.open_end(id) {
            Ok(End::Attempt(attempt)) => {
                matches!(attempt.phase, Phase::Dialing | Phase::DoomedDialing)
            }
            _ => false,
        }
    }

    /// The end of this number, where it is open.
    #[inline(always)]
    pub fn open_end(&self, id: EndId) -> Result<&End, Absent>
        ensures { Finds result (slice_get self.now id.0) }
    {
        self.list.at(id)
    }

    // The entries that the ends make.
    #[inline(always)]
    fn table(&self) -> &Peers
        ensures table { result.now ≡ table_of self.now }
        ensures entries { (p : Name) → entry_of result.now p ≡ entry_in self.now p }
    {
        &self.peers
    }

    /// The entry of a peer, where the peer isn't idle.
    pub fn entry_of(&self, peer: &NodeName) -> Option<Entry>
        ensures { result ≡ entry_in self.now peer.now }
    {
        self.table().entry(peer)
    }

    /// How many peers have an entry.
    pub fn entries(&self) -> usize
        ensures { result ≡ map.len (table_of self.now) }
    {
        self.table().len()
    }

    /// The entry at this place, in the order of the peers' names.
    pub fn entry_at(&self, i: usize) -> Option<(&NodeName, Entry)>
        ensures { option_map (λ r. (r.0.now, r.1)) result ≡ slice_get (map.entries (table_of self.now)) i }
    {
        self.table().at(i)
    }

    /// Whether there are `most` entries or more, and none is this peer's.
    pub fn is_full_for(&self, peer: &NodeName, most: u32) -> bool
        ensures { result ≡ is_full most (table_of self.now) (entry_in self.now peer.now) }
    {
        self.table().is_full_for(peer, most)
    }

    /// The verdict on a peer's name that comes on this end, at a node of name `me`.
    pub fn verdict(&self, me: &NodeName, peer: &NodeName, id: EndId) -> Verdict
        ensures { result ≡ verdict_of me.now self.now id peer.now }
    {
        self.table().verdict(me, peer, id)
    }

    /// How many ends are up.
    pub fn ups(&self) -> usize
        ensures { result ≡ length (up_ids (map.entries (table_of self.now))) }
    {
        self.table().ups()
    }

    /// The up end at this place, in the order of the peers' names. It walks the entries once.
    pub fn up_at(&self, i: usize) -> Option<(EndId, &UpRecord)>
        ensures { option_map (λ r. (r.0, r.1.now)) result ≡ up_from self.now (slice_get (up_ids (map.entries (table_of self.now))) i) }
    {
        self.with_record(self.table().up_at(i))
    }

    /// The first up end of the peers whose names come after this one, in their order; of all peers where there is no name. Called
    /// again with the name in the record that it found, it goes through all of them: each call searches the entries once.
    pub fn up_behind(&self, name: Option<&NodeName>) -> Option<(EndId, &UpRecord)>
        ensures { option_map (λ r. (r.0, r.1.now)) result ≡ up_from self.now (up_behind (option_copied name.entry) (map.entries (table_of self.now))) }
    {
        self.with_record(self.table().up_behind(name))
    }

    /// The up end whose peer has this name, and its record. There is at most one.
    pub fn up_with(&self, peer: &NodeName) -> Option<(EndId, &UpRecord)>
        ensures found { FindsUp self.now peer.now (option_map (λ r. (r.0, r.1.now)) result) }
        ensures only { (i : ℕ) (kept : UpRecord) → slice_get self.now i ≡ Some (End.Up kept) → kept.peer ≡ peer.now
            → option_map (λ r. (r.0, r.1.now)) result ≡ up_pair i kept }
    {
        // A call in whose contract the entries are those of the ends.
        let _ = self.open_ends();
        self.with_record(self.up_id_with(peer))
    }

    // The end that the peer's entry has up.
    fn up_id_with(&self, peer: &NodeName) -> Option<EndId>
        ensures { result ≡ option_and_then up_id (entry_in self.now peer.now) }
    {
        self.entry_of(peer)?.up()
    }

    // The given end, if any, and its record, where it is up.
    fn with_record(&self, id: Option<EndId>) -> Option<(EndId, &UpRecord)>
        ensures { option_map (λ r. (r.0, r.1.now)) result ≡ up_from self.now id }
    {
        let id = id?;
        Some((id, self.record_of(id)?))
    }

    /// The record of an end that is up.
    pub fn record_of(&self, id: EndId) -> Option<&UpRecord>
        ensures { option_map (λ r. (id, r.now)) result ≡ record_in id (slice_get self.now id.0) }
    {
        match self.open_end(id) {
            Ok(End::Up(kept)) => Some(kept),
            _ => None,
        }
    }

    /// The end that has been open and not up for the longest: it has the lowest number, since numbers are given out in
    /// order. `None` where none is. No end changes, and no memory is taken.
    ///
    /// An end that was up or closed once is never pending again, so an end that was passed over is never looked at again: all
    /// calls together look at each end once.
    pub fn oldest_pending(&mut self) -> Option<EndId>
        ensures oldest { result ≡ oldest_pending self.old }
        ensures same { self.new ≡ self.old }
    {
        self.list.first(&mut self.passed, Sought::Pending)
    }

    /// Of the ends on which no name came yet, the one that has been open for the longest. `None` where there is none. As with
    /// `oldest_pending`, no end changes, no memory is taken, and all calls together look at each end once.
    pub fn oldest_unnamed(&mut self) -> Option<EndId>
        ensures oldest { result ≡ oldest_unnamed self.old }
        ensures same { self.new ≡ self.old }
    {
        self.list.first(&mut self.named, Sought::Nameless)
    }

    /// Forgets why the ends below this number were closed: from then on they answer as if the other side had ended each
    /// connection. Open ends stay as they are, and so does every end from the number on; the number may be one that was
    /// never given out. It takes no memory, and the memory of the causes is used again for later ends.
    pub fn forget(&mut self, below: EndId)
        ensures { self.new ≡ without_causes_below below.0 self.old }
    {
        self.list.forget(below);
    }

    /// Closes an end that is open. It takes no memory.
    #[inline(always)]
    pub fn close(&mut self, id: EndId, why: Why)
        // `still` returns whether the number was given out.
        requires there { id.0 < length self.old }

        // This holds where `still` returns that the end is open.
        requires stays { StaysClosed (slice_get self.old id.0) (End.Closed why) }
        ensures { self.new ≡ with_change self.old id (End.Closed why) None }
    {
        let closed = self.list.close(id, why);
        leave(&mut self.peers, id, closed);
    }

    /// An attempt goes on to another stage, at which it holds its peer as before. It is changed in place, and no memory is taken.
    #[inline(always)]
    pub fn advance(&mut self, id: EndId, to: Stage)
        // This holds where the phases before and after are both of a dialled end that is not superseded, or both of an accepted one.
        requires { CanAdvance (slice_get self.old id.0) to }
        ensures { (a : Attempt) → slice_get self.old id.0 ≡ Some (End.Attempt a)
            → self.new ≡ with_change self.old id (End.Attempt (at_stage a to)) None }
    {
        self.list.advance(id, to);
    }

    /// An attempt comes up with this record. The end that it replaces, if any, is closed and returned. No memory is taken,
    /// and the entries are searched once.
    pub fn rise(&mut self, id: EndId, kept: &UpRecord) -> Option<EndId>
        // The end is an attempt with the record's peer, dialled and not superseded, or accepted.
        requires attempt { CanRise (slice_get self.old id.0) kept.now.peer }

        // This holds of every end that holds its peer, at a node of any name.
        requires fits { (me : Name) × (AreLegal self.old
            → Fits me self.old (table_of self.old) id (End.Up kept.now) (replaced_end (replaced_by (entry_in self.old kept.now.peer)))) }
        ensures replaced { result ≡ replaced_by (entry_in self.old kept.now.peer) }
        ensures ends { self.new ≡ with_change self.old id (End.Up kept.now) (replaced_end (replaced_by (entry_in self.old kept.now.peer))) }
    {
        let replaced = self.peers.came_up(&kept.peer, id);
        self.list.rise(id, kept, replaced);
        replaced
    }

    /// Gives out the next end, of which nothing is known yet.
    #[inline(always)]
    pub fn add(&mut self) -> Result<(), AllocError>
        requires { length self.old < 2 ^ 32 }
        ensures ok { OnOk result (self.new ≡ with_change self.old (end_id (length self.old)) End.Unnamed None) }
        ensures err { OnErr result (self.new ≡ self.old) }
    {
        self.list.reserve()?;
        self.list.push(End::Unnamed);
        Ok(())
    }

    /// Changes an end, or gives out the next one, and at most one other with it, at a node of name `me`.
    pub fn change(
        &mut self,
        me: &NodeName,
        id: EndId,
        this: End,
        other: Option<(EndId, End)>,
    ) -> Result<(), AllocError>
        requires fits { AreLegal self.old → Fits me.now self.old (table_of self.old) id this other }
        requires few { length self.old < 2 ^ 32 }
        ensures ok { OnOk result (self.new ≡ with_change self.old id this other) }
        ensures err { OnErr result (self.new ≡ self.old) }

        // A change after which the end holds no peer takes no memory.
        ensures loss { claim_of this ≡ None → id.0 < length self.old → IsOk result }
    {
        self.list.reserve_for(id)?;
        shift_by_number(&mut self.peers, &self.list, me, id, &this)?;
        self.list.change(id, this, other);
        Ok(())
    }
}
