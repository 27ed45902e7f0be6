//! The threads for connections that one thread starts at one node.

use crate::connection::{Job, Left};
use crate::machine::Machine;
use crate::site::Site;
use dist_core::{Event, StepError, Still, Why};
use dist_drive::SocketStream;
use dist_locked::{Seat, lose};
use dist_names::ByteString;
use dist_peers::EndId;
use dist_run_hosts::{
    Challenges, Host, LinkStream, Pool, Rest, TURNS_AT_ONCE, end_reads, say_goodbye, socket_of,
    wait_for_connection,
};
use std::alloc::Global;
use std::os::fd::RawFd;
use std::thread::{JoinHandle, Scope};

// A thread that was started and not joined yet.
#[derive(Drop)]
struct Running {
    // The number of its seat.
    seat: u32,
    end_: EndId,
    link: u64,
    // The socket of its connection, which is open until the thread is joined.
    socket: RawFd,
    handle: JoinHandle<Left>,
}

/// Threads that were started at a node and not joined yet, with what is left of the others.
#[derive(Drop)]
pub struct Crew<'s, E> {
    scope: &'s Scope<'s, E>,
    /// The node.
    pub host: &'s Host,
    pool: Pool,
    challenges: Challenges,
    // How many connections of closed ends may still be kept that are of no known dial of the run.
    spare: usize,
    // In the order in which they were started.
    running: Vec<Running>,
    streams: Vec<SocketStream>,
}

impl<'s, E> Crew<'s, E> {
    /// A crew that has started nothing.
    pub fn new(
        alloc: Global,
        scope: &'s Scope<'s, E>,
        host: &'s Host,
        pool: Pool,
        challenges: Challenges,
        spare: usize,
    ) -> Crew<'s, E> {
        Crew {
            scope,
            host,
            pool,
            challenges,
            spare,
            running: Vec::new(alloc),
            streams: Vec::new(alloc),
        }
    }

    /// Makes a step of the crew's own. The end, and what it sends.
    pub fn step<R: Machine>(
        &mut self,
        rt: &R,
        event: &Event,
    ) -> Result<(EndId, ByteString), StepError> {
        let host = self.host;
        match host.node.step(rt, &mut self.pool.own, event, 0) {
            Ok((_, reply)) => Ok((reply.end_, reply.say)),
            Err(error) => Err(error),
        }
    }

    /// Loses an end.
    pub fn lose<R: Machine>(&mut self, rt: &R, end_: EndId, why: Why) {
        let host = self.host;
        lose(rt, &host.node, &mut self.pool.own, end_, why);
    }

    /// Closes the connection of a closed end, or keeps it to the end of the run, where its ports must not be used again. Both
    /// sockets of each dial of the run are kept, so that no two of them have one pair of ports. A connection may come before its
    /// link is noted, so the first few are kept, whoever made them: where no stranger comes, that is all of them.
    pub fn part_with<R>(&mut self, site: &Site<'_, R>, connection: LinkStream) {
        say_goodbye(&connection.stream);
        let spent = usize::from(!site.is_of_dial(connection.link));
        if spent <= self.spare {
            self.spare -= spent;
            site.keep(&mut self.streams, connection.stream);
        }
    }

    /// Waits for a connection, for all of these turns where it has no thread to join, and else for a second at most. Joins the threads that
    /// have ended meanwhile, so that their seats and their connections come back. Returns how many turns passed.
    pub fn wait<R: Machine>(&mut self, site: &Site<'_, R>, turns: usize) -> usize {
        let most = if self.running.is_empty() {
            turns
        } else {
            TURNS_AT_ONCE
        };
        let passed = wait_for_connection(site.rt, &self.host.listener, turns.min(most));
        self.join_ended(site);
        passed
    }

    // Keeps what is left of a job. The seat comes back to its place.
    fn keep_rest<R>(&mut self, site: &Site<'_, R>, left: Left) {
        site.keep(&mut self.pool.free, left.seat);
        if left.is_over {
            self.part_with(site, left.connection);
        } else {
            site.keep(&mut self.streams, left.connection.stream);
        }
    }

    // Joins the thread at this place.
    fn join_thread<R: Machine>(&mut self, site: &Site<'_, R>, place: usize) {
        if place < self.running.len() {
            let running = self.running.remove(place);
            self.keep_rest(site, running.handle.join(site.rt));
        }
    }

    // Joins the threads that have ended. Their seats come back.
    fn join_ended<R: Machine>(&mut self, site: &Site<'_, R>) {
        let mut place = 0usize;
        for _ in 0..self.running.len() {
            let has_ended = match self.running.get(place) {
                Some(running) => self.host.ended.is_set(running.seat),
                None => false,
            };
            if has_ended {
                self.join_thread(site, place);
            } else {
                place = place.saturating_add(1);
            }
        }
    }

    // The oldest thread whose end is not up, and whose connection is that of no dial of the run, as far as is known: its place, its end
    // and its socket.
    fn oldest_stranger<R: Machine>(&self, site: &Site<'_, R>) -> Option<(usize, EndId, RawFd)> {
        let node = &self.host.node;
        for (place, running) in self.running.iter().enumerate() {
            if !site.is_of_dial(running.link) && node.still(site.rt, running.end_) != Still::Up {
                return Some((place, running.end_, running.socket));
            }
        }
        None
    }

    /// Makes room for one more connection: where no seat is left for it, or it would be one more than so many that are open, the oldest
    /// stranger that is not up gives way. Its end is given up, and its thread, which then reads the end of its stream, is joined. Where
    /// all are up, or of dials of the run, none does. Returns whether less than so many are open now.
    pub fn make_room<R: Machine>(&mut self, site: &Site<'_, R>, places: usize) -> bool {
        let open = self.running.len().saturating_add(self.streams.len());
        if (self.pool.free.is_empty() || open >= places)
            && let Some((place, end_, socket)) = self.oldest_stranger(site)
        {
            self.lose(site.rt, end_, Why::GaveUp);
            end_reads(socket);
            self.join_thread(site, place);
        }
        self.running.len().saturating_add(self.streams.len()) < places
    }

    // A seat for a thread, and room to note the thread.
    fn free_seat(&mut self) -> Result<Seat, Why> {
        match self.running.reserve(1) {
            Ok(()) => self.pool.free.pop().ok_or(Why::GaveUp),
            Err(_) => Err(Why::NoMemory),
        }
    }

    /// Starts a thread that drives an end. Where no seat is left, or no thread can be made, the end is lost.
    pub fn start<R: Machine>(
        &mut self,
        site: &'s Site<'s, R>,
        end_: EndId,
        first: ByteString,
        connection: LinkStream,
    ) {
        self.join_ended(site);
        match self.free_seat() {
            Ok(seat) => {
                let job = Job {
                    host: self.host,
                    end_,
                    seat,
                    connection,
                    first,
                    challenges: self.challenges.fork(),
                    turns: site.turns,
                };
                self.spawn(site, job);
            }
            Err(why) => {
                self.lose(site.rt, end_, why);
                self.part_with(site, connection);
            }
        }
    }

    // Starts the thread of a job. There is room for it.
    fn spawn<R: Machine>(&mut self, site: &'s Site<'s, R>, job: Job<'s>) {
        let (rt, alloc, host) = (site.rt, site.alloc, self.host);
        let (seat, end_) = (job.seat.number(), job.end_);
        let (link, socket) = (job.connection.link, socket_of(&job.connection.stream));
        host.ended.set(seat, false);
        match self.scope.spawn(move || job.run(rt, alloc)) {
            Ok(handle) => {
                let running = Running {
                    seat,
                    end_,
                    link,
                    socket,
                    handle,
                };
                site.keep(&mut self.running, running);
            }
            Err(back) => {
                host.ended.set(seat, true);
                let job = back.value;
                self.keep_rest(site, job());
            }
        }
    }

    /// Joins all threads.
    pub fn join<R: Machine>(mut self, site: &Site<'_, R>) -> Rest {
        for _ in 0..self.running.len() {
            self.join_thread(site, 0);
        }
        let Pool {
            own,
            free: mut seats,
        } = self.pool;
        site.keep(&mut seats, own);
        Rest {
            seats,
            streams: self.streams,
        }
    }
}
