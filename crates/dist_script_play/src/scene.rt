//! A node to which a script gives events and bytes, with a reader of frames for each of its ends.

ghost use Rattle.std.specs.{Prelude.◌≡◌, Prelude.length, Prelude.IfOk, Prelude.OnOk, Io.KnownBytes.Appends};
ghost use Rattle.dist_frames.specs.Reader.{to_come};
ghost use Rattle.dist_core.specs.Step.{step};
ghost use Rattle.dist_script_play.specs.Played.{at_first, step_text, up_in, after_step, open_readers, reader_of, after_frame, received_frames, received};
ghost use Rattle.dist_script_play.specs.Played.{received_text, after_received, packets_text, line_text, after_line};
ghost use Rattle.dist_script_play.specs.{Lines.refused_line, Lines.reply_line, Lines.table_text, Scenes.Receives};

use crate::print;
use crate::readers::Readers;
use dist_core::{Event, Node, Reply, Setup, StepError, Still};
use dist_names::ByteString;
use dist_peers::EndId;
use dist_script::{ScriptFault, ScriptLine, put_bytes};
use std::alloc::Global;
use std::io::Write;
use std::marker::Model;

/// The node, and a reader for each end that has received bytes.
#[derive(Drop)]
pub struct NodeScene {
    node: Node,
    readers: Readers,
}

impl Model for NodeScene {
    ghost use Rattle.dist_script_play.specs.Played.{Standing};

    ghost Value = { Standing };

    ghost view = { λ s. record { node = s.node; readers = s.readers } };
}

// Prints why a step was refused. Out of memory stops the run.
fn print_refusal<W: Write>(error: StepError, out: &mut W) -> Result<(), ScriptFault>
    ensures text { OnOk result (Appends (W.contents out.old) (W.contents out.new) (refused_line error)) }
    ensures memory { OnOk result (error ≡ StepError.NoMemory → ⊥) }
{
    match error {
        StepError::NoMemory => Err(ScriptFault::NoMemory),
        _ => print::write_refused(out, error),
    }
}

// Prints what follows the lines of the frames.
fn print_packets<W: Write>(any: bool, skipped: usize, out: &mut W) -> Result<(), ScriptFault>
    ensures { OnOk result (Appends (W.contents out.old) (W.contents out.new) (packets_text any skipped)) }
{
    if skipped > 0 {
        print::write_skipped(out, skipped)
    } else if any {
        Ok(())
    } else {
        put_bytes(out, b"waiting\n")
    }
}

impl NodeScene {
    /// A new node.
    pub fn new(alloc: Global, setup: Setup) -> NodeScene
        ensures { result ≡ at_first setup }
    {
        NodeScene {
            node: Node::new(alloc, setup),
            readers: Readers::new(alloc),
        }
    }

    /// Gives the node what a line says, and prints the result.
    pub fn play<W: Write>(
        &mut self,
        alloc: Global,
        line: &ScriptLine,
        out: &mut W,
    ) -> Result<(), ScriptFault>
        ensures text { OnOk result (Appends (W.contents out.old) (W.contents out.new) (line_text self.old line.now)) }
        ensures after { OnOk result (self.new ≡ after_line self.old line.now) }
    {
        match line {
            ScriptLine::Event(event) => {
                self.step(alloc, event, 0, out)?;
                Ok(())
            }
            ScriptLine::Bytes { end_, bytes, fresh } => match self.node.still(*end_) {
                Still::NoSuchEnd => print_refusal(StepError::NoSuchEnd, out),
                Still::Gone(why) => print_refusal(StepError::Gone(why), out),
                Still::Pending | Still::Up => self.receive(alloc, *end_, bytes, *fresh, out),
            },
        }
    }

    /// Prints the table of the node's peers.
    pub fn print_table<W: Write>(&self, out: &mut W) -> Result<(), ScriptFault>
        ensures { OnOk result (Appends (W.contents out.old) (W.contents out.new) (table_text self.now.node)) }
    {
        print::table(out, &self.node)
    }

    // Makes a step and prints the result. Returns whether it brought its end up, if it was not refused.
    #[tactic(auto, using(crate::proofs::Steps::refused_text, crate::proofs::Steps::refused_after, crate::proofs::Steps::refused_up))]
    fn step<W: Write>(
        &mut self,
        alloc: Global,
        event: &Event,
        fresh: u32,
        out: &mut W,
    ) -> Result<Option<bool>, ScriptFault>
        ensures text { OnOk result (Appends (W.contents out.old) (W.contents out.new) (step_text (step self.old.node event.now fresh))) }
        ensures after { OnOk result (self.new ≡ after_step self.old (step self.old.node event.now fresh)) }
        ensures up { IfOk result (λ up. up ≡ up_in (step self.old.node event.now fresh)) }
    {
        let made = self.node.step(alloc, event, fresh);
        match &made {
            Ok(reply) => {
                self.print_reply(reply, out)?;
                Ok(Some(reply.up.is_some()))
            }
            Err(error) => {
                print_refusal(*error, out)?;
                Ok(None)
            }
        }
    }

    // Prints a reply, and drops the reader of the end that its step closed. It stays a call of its own, so that the reply, which is long,
    // stays in one place.
    #[inline(never)]
    fn print_reply<W: Write>(&mut self, reply: &Reply, out: &mut W) -> Result<(), ScriptFault>
        ensures text { OnOk result (Appends (W.contents out.old) (W.contents out.new) (reply_line reply.now)) }
        ensures node { self.new.node ≡ self.old.node }
        ensures readers { OnOk result (self.new.readers ≡ open_readers self.old.readers reply.now.closed) }
    {
        print::reply(out, reply)?;
        if let Some((closed, _)) = reply.closed {
            self.readers.forget(closed);
        }
        Ok(())
    }

    // Gives bytes to an open end.
    #[tactic(auto, using(crate::proofs::Receiving::put_behind, crate::proofs::Receiving::stand_after))]
    fn receive<W: Write>(
        &mut self,
        alloc: Global,
        end_: EndId,
        bytes: &ByteString,
        fresh: u32,
        out: &mut W,
    ) -> Result<(), ScriptFault>
        ensures text { OnOk result (Appends (W.contents out.old) (W.contents out.new) (received_text end_ (received self.old end_ bytes.now fresh))) }
        ensures after { OnOk result (self.new ≡ after_received end_ (received self.old end_ bytes.now fresh)) }
    {
        self.readers.feed(end_, bytes.as_slice())?;
        let any = self.receive_frames(alloc, end_, fresh, out)?;
        print_packets(any, self.readers.skip_long(end_), out)
    }

    // Gives the node each whole frame of an end, and returns whether there was one.
    #[tactic(auto, using(crate::proofs::Receiving::none_yet, crate::proofs::Receiving::no_frame_left))]
    fn receive_frames<W: Write>(
        &mut self,
        alloc: Global,
        end_: EndId,
        fresh: u32,
        out: &mut W,
    ) -> Result<bool, ScriptFault>
        ensures { IfOk result (λ any. Receives (received_frames end_ fresh (length (to_come (reader_of self.old.readers end_))) self.old) any
            (W.contents out.old) (W.contents out.new) self.new) }
    {
        let mut any = false;
        while let Some(body) = self.readers.next_short(end_)? {
            any = true;
            self.play_frame(alloc, end_, body, fresh, out)?;
        }
        Ok(any)
    }

    // Gives the node a frame, and prints the result.
    fn play_frame<W: Write>(
        &mut self,
        alloc: Global,
        end_: EndId,
        body: Vec<u8>,
        fresh: u32,
        out: &mut W,
    ) -> Result<(), ScriptFault>
        ensures text { OnOk result (Appends (W.contents out.old) (W.contents out.new) (step_text (step self.old.node (Event.Frame end_ body.items) fresh))) }
        ensures after { OnOk result (self.new ≡ after_frame self.old end_ (step self.old.node (Event.Frame end_ body.items) fresh)) }
    {
        let body = ByteString::from_vec(body);
        match self.step(alloc, &Event::Frame { end_, body }, fresh, out)? {
            Some(true) => self.readers.to_linked(end_),
            Some(false) => {}
            None => self.readers.forget(end_),
        }
        Ok(())
    }
}
