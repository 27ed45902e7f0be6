ghost use Rattle.std.specs.Prelude.{◌≡◌, [], option_map, option_copied, OnOk, OnErr, IfOk, IsOk, IsSome, MatchOption, drop, ◌∷◌};
ghost use Rattle.dist_frames.specs.Reader.{with_bytes, next_body, to_come, without_next, as_linked, unreported, without_count, rest_of, IsLinked};
ghost use Rattle.dist_frames.specs.Reader.Reader.{Short};

use crate::partial::Partial;
use crate::short_queue::ShortQueue;
use std::alloc::{AllocError, Global};
use std::marker::Model;

/// A reader of a stream that comes in pieces: of short frames, and of packets once it is linked.
///
/// The bodies do not depend on the cuts between the pieces. Contracts see what is still to come, and not how it is kept: of
/// short frames the bytes that were not moved out, of packets no bytes.
#[derive(Drop)]
pub struct Frames {
    // Where the bodies that are moved out are copied to.
    alloc: Global,
    stage: ReadStage,
}

// What comes next, and what is kept for it.
#[derive(Drop)]
enum ReadStage {
    // Short frames: the bytes that were not moved out.
    Short(ShortQueue),
    // Packets: how many ended and were not reported, and what is kept of the next.
    Linked { ended: usize, left: Partial },
}

impl Model for Frames {
    ghost use Rattle.dist_frames.specs.Reader.{Reader};
    ghost use Rattle.dist_frames.specs.Stage.{reader_of};

    ghost Value = { Reader };

    ghost view = { λ f. reader_of f.stage };
}

impl Frames {
    /// A reader of short frames, to which no byte has come. It takes no memory.
    pub fn new(alloc: Global) -> Frames
        ensures { result ≡ Short [] }
    {
        Frames {
            alloc,
            stage: ReadStage::Short(ShortQueue::new(alloc)),
        }
    }

    /// The body that `next_short` would move out. `None` where there is no whole one, or the reader is linked.
    pub fn front(&self) -> Option<&[u8]>
        ensures next { option_copied result ≡ next_body self.now }

        // It is the first of the bodies still to come.
        ensures first { MatchOption (option_copied result) (to_come self.now ≡ []) (λ body. to_come self.now ≡ body ∷ to_come (without_next self.now)) }
    {
        match &self.stage {
            ReadStage::Short(pending) => pending.front(),
            ReadStage::Linked { .. } => None,
        }
    }

    /// Drops the body that `front` returns, which counts as moved out. Without one it changes nothing.
    pub fn drop_front(&mut self)
        ensures after { self.new ≡ without_next self.old }
        ensures rest { to_come self.new ≡ drop 1 (to_come self.old) }
    {
        match &mut self.stage {
            ReadStage::Short(pending) => pending.drop_front(),
            ReadStage::Linked { .. } => {}
        }
    }

    /// Takes the next piece of the stream, of any number of bytes. An `Err` changes nothing. A linked reader takes no memory,
    /// and so cannot fail.
    pub fn feed(&mut self, piece: &[u8]) -> Result<(), AllocError>
        ensures ok { OnOk result (self.new ≡ with_bytes self.old piece.now) }
        ensures err { OnErr result (self.new ≡ self.old) }
        ensures linked { IsLinked self.old → IsOk result }
    {
        match &mut self.stage {
            ReadStage::Short(pending) => pending.extend(piece),
            ReadStage::Linked { ended, left } => {
                let more = left.feed(piece);
                *ended = ended.saturating_add(more);
                Ok(())
            }
        }
    }

    /// Moves the next whole body out. `None` where there is none yet, or the reader is linked, and then nothing
    /// changes. `Err` where there is one and no memory for it; it then stays the next one.
    pub fn next_short(&mut self) -> Result<Option<Vec<u8>>, AllocError>
        ensures ok { IfOk result (λ body. (option_map (λ b. b.items) body ≡ next_body self.old) × (self.new ≡ without_next self.old)) }

        // It is the first of the bodies still to come.
        ensures first { IfOk result (λ body. MatchOption (option_map (λ b. b.items) body)
            (to_come self.old ≡ [])
            (λ b. to_come self.old ≡ b ∷ to_come self.new)) }
        ensures err { OnErr result (IsSome (next_body self.old) × (self.new ≡ self.old)) }
    {
        let Some(body) = self.front() else {
            return Ok(None);
        };
        let body = Vec::from_slice(self.alloc, body)?;
        self.drop_front();
        Ok(Some(body))
    }

    /// Treats the bytes that were not moved out, and all later ones, as packets with lengths of 4 bytes. A second call
    /// changes nothing. It takes no memory.
    pub fn to_linked(&mut self)
        ensures { self.new ≡ as_linked self.old }
    {
        if let ReadStage::Short(pending) = &self.stage {
            let mut left = Partial::new();
            let ended = left.feed(pending.as_slice());
            self.stage = ReadStage::Linked { ended, left };
        }
    }

    /// Returns how many packets ended since the last call, at most the greatest `usize`, and forgets them. Before
    /// `to_linked` it returns 0 and drops nothing. It takes no memory.
    pub fn skip_long(&mut self) -> usize
        ensures count { result ≡ unreported self.old }
        ensures after { self.new ≡ without_count self.old }
    {
        match &mut self.stage {
            ReadStage::Short(_) => 0,
            ReadStage::Linked { ended, .. } => {
                let count = *ended;
                *ended = 0;
                count
            }
        }
    }

    /// Returns the bytes that were fed and not moved out: those behind the last body. A linked reader has dropped
    /// the bytes of packets, and returns none. It takes no memory.
    pub fn into_rest(self) -> Vec<u8>
        ensures { result.items ≡ rest_of self }
    {
        match self.stage {
            ReadStage::Short(pending) => pending.into_vec(),
            ReadStage::Linked { .. } => Vec::new(self.alloc),
        }
    }
}
