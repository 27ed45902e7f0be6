//! Short frames that wait to be read.

ghost use Rattle.std.specs.{Prelude.◌≡◌, Prelude.◌++◌, Prelude.[], Prelude.option_copied, Prelude.OnOk, Prelude.OnErr, Int.w16};
ghost use Rattle.dist_frames.specs.Stream.{first_body, after_first};

use crate::byte_queue::ByteQueue;
use crate::short::{awaited_body, frame_len};
use std::alloc::{AllocError, Global};
use std::marker::Model;

/// The bytes of short frames that wait. The length of the frame at the front is read once, and not at each piece that comes.
#[derive(Drop)]
pub struct ShortQueue {
    bytes: ByteQueue,
    // How many bytes the frame at the front has, its length included; 2 until its length has come.
    awaited: usize,
}

impl Model for ShortQueue {
    ghost use Rattle.std.specs.Prelude.{◌≡◌, ℕ, List};
    ghost use Rattle.dist_frames.specs.Kept.{frame_len};

    ghost Value = { List ℕ };

    ghost view = { λ q. q.bytes };

    ghost invariant = { λ q. q.awaited ≡ frame_len q.bytes };
}

impl ShortQueue {
    /// An empty queue. It takes no memory.
    pub fn new(alloc: Global) -> ShortQueue
        ensures { result ≡ [] }
    {
        ShortQueue {
            bytes: ByteQueue::new(alloc),
            awaited: 2,
        }
    }

    /// All bytes that wait.
    pub fn as_slice(&self) -> &[u8]
        ensures { result.now ≡ self.now }
    {
        self.bytes.as_slice()
    }

    /// The body of the frame at the front, where it is whole.
    pub fn front(&self) -> Option<&[u8]>
        ensures { option_copied result ≡ first_body w16 self.now }
    {
        awaited_body(self.bytes.as_slice(), self.awaited)
    }

    /// Drops the frame at the front. Where none is whole nothing changes.
    #[tactic(auto, using(crate::proofs::Lengths::moved, crate::proofs::Lengths::all_moved, crate::proofs::Lengths::stays_put))]
    pub fn drop_front(&mut self)
        ensures { self.new ≡ after_first w16 self.old }
    {
        let waiting = self.bytes.len();
        if waiting < self.awaited {
            return;
        }
        // Mostly the frame of a handshake is all that waits, and then no byte behind it has to be moved later.
        if waiting == self.awaited {
            self.bytes.clear();
        } else {
            self.bytes.drop_front(self.awaited);
        }
        self.awaited = frame_len(self.bytes.as_slice());
    }

    /// Adds bytes at the end. An `Err` changes nothing.
    #[tactic(auto, using(crate::proofs::Lengths::same_len))]
    pub fn extend(&mut self, more: &[u8]) -> Result<(), AllocError>
        ensures ok { OnOk result (self.new ≡ self.old ++ more.now) }
        ensures err { OnErr result (self.new ≡ self.old) }
    {
        self.bytes.extend(more)?;
        // 2 are awaited until the length has come, and also for a body of no bytes.
        if self.awaited == 2 {
            self.awaited = frame_len(self.bytes.as_slice());
        }
        Ok(())
    }

    /// Returns the bytes that wait. It takes no memory.
    pub fn into_vec(self) -> Vec<u8>
        ensures { result.items ≡ self }
    {
        let ShortQueue { bytes, awaited: _ } = self;
        bytes.into_vec()
    }
}
