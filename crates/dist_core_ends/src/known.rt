//! What a node keeps of an end.
ghost use Rattle.std.specs.Prelude.{◌≡◌, ◌↔◌, IsTrue, IfOk};
ghost use Rattle.dist_core_ends.specs.{declared.known.Attempt.Attempt, Progress.at_stage, Progress.stage_of};

use crate::phase::Phase;
use crate::why::Why;
use dist_messages::Form;
use dist_names::{Creation, Flags, NodeName};
use std::alloc::{AllocError, Global};
use std::mem::replace;

/// An end whose peer is known and that isn't up.
#[derive(Drop)]
pub struct Attempt {
    /// The name that was dialled, or that came.
    pub peer: NodeName,
    /// The form of the handshake; of a dial, the form in which it was asked to open.
    pub form: Form,
    /// What is awaited.
    pub phase: Phase,
    /// The own challenge, once it was sent, and 0 before.
    pub challenge: u32,
    /// The other side's flags, once they came, and none before.
    pub flags: Flags,
    /// The other side's creation, once it came. It never comes where one side knows version 5 alone.
    pub creation: Option<Creation>,
}

/// Where an attempt stands: what is awaited, and what was sent and came so far.
#[derive(Clone, Copy)]
pub struct Stage {
    /// What is awaited.
    pub phase: Phase,
    /// The own challenge, once it was sent, and 0 before.
    pub challenge: u32,
    /// The other side's flags, once they came, and none before.
    pub flags: Flags,
    /// The other side's creation, once it came.
    pub creation: Option<Creation>,
}

/// What is known of an end that came up.
#[derive(Debug, Drop, PartialEq, Eq)]
pub struct UpRecord {
    /// The other node's name.
    pub peer: NodeName,
    /// The flags that both announced.
    pub common: Flags,
    /// The other node's creation, where both know version 6.
    pub creation: Option<Creation>,
    /// The own challenge.
    pub challenge: u32,
    /// The digest that came, which is that of the own cookie and the own challenge.
    pub digest_received: [u8; 16],
}

/// An end of a connection, at one node.
#[derive(Drop)]
pub enum End {
    /// Accepted, and no name has come.
    Unnamed,
    /// In a handshake with a peer that is known.
    Attempt(Attempt),
    /// The handshake succeeded.
    Up(UpRecord),
    /// Closed: nothing is kept but the cause.
    Closed(Why),
}

impl End {
    // Puts an attempt to another stage.
    pub(crate) fn go_on(&mut self, to: Stage)
        ensures { (a : Attempt) → self.old ≡ End.Attempt a → self.new ≡ End.Attempt (at_stage a to) }
    {
        if let End::Attempt(attempt) = self {
            attempt.phase = to.phase;
            attempt.challenge = to.challenge;
            attempt.flags = to.flags;
            attempt.creation = to.creation;
        }
    }

    // Makes an attempt an end that is up. The record is of the same peer, whose name is not copied.
    pub(crate) fn come_up(&mut self, kept: &UpRecord)
        ensures { (a : Attempt) → self.old ≡ End.Attempt a → a.peer ≡ kept.now.peer → self.new ≡ End.Up kept.now }
    {
        if let End::Attempt(attempt) = replace(self, End::Unnamed) {
            *self = End::Up(UpRecord {
                peer: attempt.peer,
                common: kept.common,
                creation: kept.creation,
                challenge: kept.challenge,
                digest_received: kept.digest_received,
            });
        }
    }
}

impl Attempt {
    /// The stage that the attempt has reached.
    pub fn stage(&self) -> Stage
        ensures { result ≡ stage_of self.now }
    {
        Stage {
            phase: self.phase,
            challenge: self.challenge,
            flags: self.flags,
            creation: self.creation,
        }
    }

    /// An equal attempt.
    pub fn try_clone(&self, alloc: Global) -> Result<Attempt, AllocError>
        ensures { IfOk result (λ copy. copy ≡ self.now) }
    {
        Ok(Attempt {
            peer: self.peer.try_clone(alloc)?,
            form: self.form,
            phase: self.phase,
            challenge: self.challenge,
            flags: self.flags,
            creation: self.creation,
        })
    }
}

impl UpRecord {
    /// An equal record.
    pub fn try_clone(&self, alloc: Global) -> Result<UpRecord, AllocError>
        ensures { IfOk result (λ copy. copy ≡ self.now) }
    {
        Ok(UpRecord {
            peer: self.peer.try_clone(alloc)?,
            common: self.common,
            creation: self.creation,
            challenge: self.challenge,
            digest_received: self.digest_received,
        })
    }

    /// Whether the two records are equal.
    pub fn is_same(&self, other: &UpRecord) -> bool
        ensures { IsTrue result ↔ (self.now ≡ other.now) }
    {
        self == other
    }
}
