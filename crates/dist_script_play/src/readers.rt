//! The readers of frames of a node's ends.

ghost use Rattle.std.specs.Prelude.{◌≡◌, ◌<◌, [], OnOk, IfOk, MatchOption, length, ◌∷◌, option_map};
ghost use Rattle.dist_frames.specs.Reader.{next_body, to_come, without_next, as_linked, unreported, without_count, Reader.Short};
ghost use Rattle.dist_script_play.specs.Played.{reader_of, with_reader, readers_to, with_received};

use dist_frames::Frames;
use dist_peers::EndId;
use std::alloc::{AllocError, Global};
use std::marker::Model;

/// A reader for each end, by the end's number, up to the last end that has received bytes. Contracts see their list.
#[derive(Drop)]
pub struct Readers {
    alloc: Global,
    kept: Vec<Frames>,
}

impl Model for Readers {
    ghost use Rattle.std.specs.Prelude.{List};
    ghost use Rattle.dist_frames.specs.Reader.{Reader};

    ghost Value = { List Reader };

    ghost view = { λ r. r.kept.items };
}

impl Readers {
    /// No end has received bytes. It takes no memory.
    pub fn new(alloc: Global) -> Readers
        ensures { result ≡ [] }
    {
        Readers {
            alloc,
            kept: Vec::new(alloc),
        }
    }

    // Makes readers up to that of this end.
    #[tactic(auto, using(crate::proofs::Reading::one_more_reader, crate::proofs::Reading::room))]
    fn make_room(&mut self, end_: EndId) -> Result<(), AllocError>
        ensures ok { OnOk result (self.new ≡ readers_to self.old end_) }
        ensures room { OnOk result (end_.0 < length self.new) }
    {
        'room: while self.kept.len() <= end_.0 as usize {
            self.kept.push(Frames::new(self.alloc))?;
        }
        Ok(())
    }

    /// Gives bytes to the reader of an end.
    pub fn feed(&mut self, end_: EndId, bytes: &[u8]) -> Result<(), AllocError>
        ensures { OnOk result (self.new ≡ with_received self.old end_ bytes.now) }
    {
        self.make_room(end_)?;
        self.kept[end_.0 as usize].feed(bytes)
    }

    /// Moves the next whole frame of an end out.
    #[tactic(auto, using(crate::proofs::Reading::none_past))]
    pub fn next_short(&mut self, end_: EndId) -> Result<Option<Vec<u8>>, AllocError>
        ensures ok { IfOk result (λ body. (option_map (λ b. b.items) body ≡ next_body (reader_of self.old end_))
            × (self.new ≡ with_reader self.old end_ (without_next (reader_of self.old end_)))) }
        ensures first { IfOk result (λ body. MatchOption (option_map (λ b. b.items) body)
            (to_come (reader_of self.old end_) ≡ [])
            (λ b. to_come (reader_of self.old end_) ≡ b ∷ to_come (reader_of self.new end_))) }
    {
        let place = end_.0 as usize;
        if place < self.kept.len() {
            self.kept[place].next_short()
        } else {
            Ok(None)
        }
    }

    /// Treats what comes for an end as packets from now on.
    pub fn to_linked(&mut self, end_: EndId)
        ensures { self.new ≡ with_reader self.old end_ (as_linked (reader_of self.old end_)) }
    {
        let place = end_.0 as usize;
        if place < self.kept.len() {
            self.kept[place].to_linked();
        }
    }

    /// Returns how many packets of an end were not counted yet.
    pub fn skip_long(&mut self, end_: EndId) -> usize
        ensures count { result ≡ unreported (reader_of self.old end_) }
        ensures after { self.new ≡ with_reader self.old end_ (without_count (reader_of self.old end_)) }
    {
        let place = end_.0 as usize;
        if place < self.kept.len() {
            self.kept[place].skip_long()
        } else {
            0
        }
    }

    /// Drops what an end has received.
    pub fn forget(&mut self, end_: EndId)
        ensures { self.new ≡ with_reader self.old end_ (Short []) }
    {
        let place = end_.0 as usize;
        if place < self.kept.len() {
            self.kept[place] = Frames::new(self.alloc);
        }
    }
}
