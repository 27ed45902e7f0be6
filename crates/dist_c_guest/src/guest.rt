//! A node, and its newest reply.
ghost use Rattle.std.specs.{Prelude.◌≡◌, Prelude.◌≢◌, Prelude.ℕ, Prelude.List, Prelude.None, Prelude.Err, Prelude.IfOk, Prelude.IsTrue, Option.option_or};
ghost use Rattle.dist_core.specs.{Answers.GivesReply, Answers.Refuses, Losses.is_loss, Step.step};
ghost use Rattle.dist_c_guest.specs.{Forms.allowed_names, Reading.expansion, Calls.IsCall, Calls.answer_to, Calls.first_guest, Calls.frame_to};

use crate::asking::wider;
use crate::forms::Forms;
use crate::reading::{Reading, expand};
use crate::statuses::status_received;
use dist_core::{Event, NameList, Node, Reply, Setup, StepError};
use dist_messages::Status;
use dist_names::{ByteString, Flags};
use dist_peers::EndId;
use std::alloc::{AllocError, Global};

/// A node, and what its newest step that was not refused returned and received.
#[derive(Drop)]
pub struct Guest {
    /// The node.
    pub node: Node,
    /// The newest reply, and none before the first step.
    pub last: Option<Reply>,
    /// The status in the frame that the newest step took, where it took one and that is one.
    pub received_status: Option<Status>,
    /// How it reads the frames that come to `take`.
    pub reading: Reading,
}

impl Guest {
    /// A guest of a node without ends, which reads bodies as they come and keeps no forms. It takes no memory.
    pub fn new(alloc: Global, setup: Setup) -> Guest
        ensures { result ≡ first_guest setup }
    {
        Guest {
            node: Node::new(alloc, setup),
            last: None,
            received_status: None,
            reading: Reading {
                mandatory: Flags(0),
                forms: Forms::none(alloc),
            },
        }
    }

    /// Makes the definition's step, and keeps its reply. A refusal changes nothing, and a loss never runs out of memory.
    pub fn step(&mut self, alloc: Global, event: &Event, fresh: u32) -> Result<(), StepError>
        ensures step { IsCall event.now result (step self.old.node event.now fresh) self.old self.new }
        ensures loss { IsTrue (is_loss event.now) → result ≢ Err StepError.NoMemory }
    {
        let reply = self.node.step(alloc, event, fresh)?;
        self.last = Some(reply);
        self.received_status = status_received(alloc, event);
        Ok(())
    }

    // Why a frame on this end is refused, whatever it is, and out of memory where nothing else refuses one.
    fn refusal(&self, alloc: Global, id: EndId) -> StepError
        ensures { (body : List ℕ) (fresh : ℕ) → Refuses result (answer_to self.now id body fresh) }
    {
        let event = Event::Frame {
            end_: id,
            body: ByteString::new(alloc),
        };
        self.node.refusal_without_memory(alloc, &event, 0)
    }

    // The body as it is read, and the names that may connect where they aren't the node's own.
    fn read(&self, alloc: Global, body: &[u8]) -> Result<(ByteString, Option<NameList>), AllocError>
        ensures { IfOk result (λ x. (x.0 ≡ expansion self.now.reading.mandatory.0 body.now)
            × (option_or x.1 self.now.node.setup.allow ≡ allowed_names self.now.reading.forms x.0 self.now.node.setup.allow)) }
    {
        let body = expand(alloc, self.reading.mandatory, body)?;
        let names = wider(
            alloc,
            &self.reading.forms,
            &self.node.setup().allow,
            body.as_slice(),
        )?;
        Ok((body, names))
    }

    /// Makes the step of a frame with this body, as the guest reads it; where a form stands for the name in it, that name may connect
    /// meanwhile, and the node's own list is given back afterwards. A refusal changes nothing.
    pub fn take(
        &mut self,
        alloc: Global,
        id: EndId,
        body: &[u8],
        fresh: u32,
    ) -> Result<(), StepError>
        ensures { IsCall (frame_to self.old id body.now) result (answer_to self.old id body.now fresh) self.old self.new }
    {
        let Ok((body, names)) = self.read(alloc, body) else {
            return Err(self.refusal(alloc, id));
        };
        let event = Event::Frame { end_: id, body };
        let Some(widened) = names else {
            return self.step(alloc, &event, fresh);
        };
        let before = self.node.set_allow(Some(widened));
        let result = self.step(alloc, &event, fresh);
        let _ = self.node.set_allow(before);
        result
    }

    /// What `take` would return, which changes nothing.
    pub fn foresee(
        &mut self,
        alloc: Global,
        id: EndId,
        body: &[u8],
        fresh: u32,
    ) -> Result<Reply, StepError>
        ensures reply { GivesReply result (answer_to self.old id body.now fresh) }
        ensures same { self.new ≡ self.old }
    {
        let Ok((body, names)) = self.read(alloc, body) else {
            return Err(self.refusal(alloc, id));
        };
        let event = Event::Frame { end_: id, body };
        let Some(widened) = names else {
            return self.node.answer(alloc, &event, fresh);
        };
        let before = self.node.set_allow(Some(widened));
        let result = self.node.answer(alloc, &event, fresh);
        let _ = self.node.set_allow(before);
        result
    }
}
