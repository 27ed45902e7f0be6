//! One direction of a connection.
ghost use Rattle.std.specs.{Prelude.◌≡◌, Prelude.option_copied, Prelude.OnOk, Prelude.OnErr, Int.w16};
ghost use Rattle.dist_frames.specs.Stream.{first_body};
ghost use Rattle.dist_world_model.specs.Delivery.{empty_text, after_delivery, body_taken};

use dist_frames::{ByteQueue, Frames};
use dist_names::ByteString;
use std::alloc::{AllocError, Global};
use std::marker::Model;

/// What was sent on one direction of a connection: what of it is undelivered, and the reader of the end that it comes to,
/// which has what was delivered and is not taken.
#[derive(Drop)]
pub struct Direction {
    said: ByteQueue,
    // Never linked: on a connection of a world short frames alone are taken.
    reader: Frames,
}

impl Model for Direction {
    ghost use Rattle.dist_world_model.specs.World.{Text};
    ghost use Rattle.dist_world_lives.specs.Reading.{come_of, IsShort};

    ghost Value = { Text };

    ghost view = { λ d. record { said = d.said; come = come_of d.reader } };

    ghost invariant = { λ d. IsShort d.reader };
}

impl Direction {
    /// Nothing was sent. It takes no memory.
    pub fn new(alloc: Global) -> Direction
        ensures { result ≡ empty_text }
    {
        Direction {
            said: ByteQueue::new(alloc),
            reader: Frames::new(alloc),
        }
    }

    /// What was sent and is undelivered.
    pub fn undelivered_bytes(&self) -> &[u8]
        ensures { result.now ≡ self.now.said }
    {
        self.said.as_slice()
    }

    /// These bytes are all that was sent and is undelivered. It takes no memory.
    pub fn put_undelivered(&mut self, bytes: ByteString)
        ensures { self.new ≡ record self.old { said = bytes } }
    {
        self.said = ByteQueue::from_vec(bytes.into_vec());
    }

    /// `count` bytes are delivered, or what is left. An `Err` changes nothing.
    #[tactic(auto, using(crate::proofs::Texts::short_fed, crate::proofs::Texts::as_delivered))]
    pub fn deliver(&mut self, count: usize) -> Result<(), AllocError>
        ensures ok { OnOk result (self.new ≡ after_delivery count self.old) }
        ensures err { OnErr result (self.new ≡ self.old) }
    {
        let said = self.said.as_slice();
        let piece = &said[..count.min(said.len())];
        self.reader.feed(piece)?;
        self.said.drop_front(count);
        Ok(())
    }

    /// The first body that was delivered and is not taken.
    #[tactic(auto, using(crate::proofs::Texts::next_come))]
    pub fn front(&self) -> Option<&[u8]>
        ensures { option_copied result ≡ first_body w16 self.now.come }
    {
        self.reader.front()
    }

    /// The first frame is taken. With none it changes nothing.
    #[tactic(auto, using(crate::proofs::Texts::short_taken, crate::proofs::Texts::as_taken))]
    pub fn take(&mut self)
        ensures { self.new ≡ body_taken self.old }
    {
        self.reader.drop_front();
    }
}
