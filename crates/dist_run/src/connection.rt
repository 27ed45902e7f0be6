//! The thread of a connection.

use dist_locked::{Seat, drive_end, settle};
use dist_names::ByteString;
use dist_peers::EndId;
use dist_run_hosts::{Challenges, Host, LinkStream, PatientStream, say_goodbye};
use std::alloc::Global;
use std::sync::Wait;
use std::time::Clock;

/// An end of a node, with what is needed to drive it.
#[derive(Drop)]
pub struct Job<'a> {
    /// The node.
    pub host: &'a Host,
    /// The end.
    pub end_: EndId,
    /// The seat for its steps.
    pub seat: Seat,
    /// The connection.
    pub connection: LinkStream,
    /// What the end sent when it was opened.
    pub first: ByteString,
    /// Where its challenges come from.
    pub challenges: Challenges,
    /// The most reads and writes.
    pub turns: usize,
}

/// What is left of a job.
#[derive(Drop)]
pub struct Left {
    /// The seat, which the next job may have.
    pub seat: Seat,
    /// The connection.
    pub connection: LinkStream,
    /// Whether the end is closed.
    pub is_over: bool,
}

impl<'a> Job<'a> {
    /// Drives the end, and marks that its seat is free. Where the seat is marked before, no thread could be made for the job: it has no
    /// turns, so its end is lost before anything is read or written.
    pub fn run<R: Wait + Clock>(self, rt: &R, alloc: Global) -> Left {
        let (host, end_, seat) = (self.host, self.end_, self.seat);
        let (mut challenges, link) = (self.challenges, self.connection.link);
        let turns = if host.ended.is_set(seat.number()) {
            0
        } else {
            self.turns
        };
        let mut stream = PatientStream::new(rt, self.connection.stream, turns);
        let driven = drive_end(
            rt,
            alloc,
            &host.node,
            seat,
            &mut stream,
            &mut challenges,
            end_,
            self.first.as_slice(),
            turns,
        );
        let (seat, is_over) = settle(rt, &host.node, end_, driven);
        let stream = stream.into_inner();
        if is_over {
            say_goodbye(&stream);
        }
        host.ended.set(seat.number(), true);
        let connection = LinkStream { stream, link };
        Left {
            seat,
            connection,
            is_over,
        }
    }
}
