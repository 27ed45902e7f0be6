//! The client that came last. Most ask at once and leave, so the system is not asked to keep a socket among those that it watches
//! before its client has stayed; and whether others wait at its listener is looked at in the same wait.

ghost use Rattle.std.specs.Prelude.{◌≡◌};
ghost use Rattle.dist_epmd_server.specs.Serving.{clients_at, owing_at, ready_newest, ServesNewest};

use crate::server::Server;
use crate::waiting::wait_for;
use dist_stream::{SocketStream, Stream};
use mio::Events;
use std::io;
use std::os::fd::AsRawFd;
use std::time::Duration;

impl Server {
    /// Waits until something is ready, and puts that into the events; the server keeps to itself whether the client that came last
    /// is ready, and the listener at which it came (`serve_newest`).
    pub fn wait(&mut self, events: &mut Events, most: Duration) -> io::Result<()> {
        self.is_newest_ready = false;
        match self.newest_socket() {
            Some(fd) => self.wait_beside(fd, events, most)?,
            None => {
                self.rearm_unsure();
                self.poll.poll(events, Some(most))?;
            }
        }
        self.is_alone = self.unsure.is_some() || events.iter().len() == 1;
        Ok(())
    }

    // The socket of the client that came last, while it is here.
    fn newest_socket(&self) -> Option<i32> {
        let stream = self.clients.stream(self.newest?)?;
        Some(stream.get_ref().as_raw_fd())
    }

    // The socket of the listener at which that client came, where connections may wait there.
    fn unsure_socket(&self) -> Option<i32> {
        Some(self.listeners.get(self.unsure?)?.as_raw_fd())
    }

    // Waits for the newest client's socket, its listener and all others.
    fn wait_beside(&mut self, fd: i32, events: &mut Events, most: Duration) -> io::Result<()> {
        let found = wait_for(fd, self.poll.as_raw_fd(), self.unsure_socket(), most);
        // A listener at which none waits is reported again when one comes; one at which some wait stays unsure only where nothing else
        // is ready.
        if !found.is_listener_ready {
            self.unsure = None;
        }
        events.clear();
        if found.are_others_ready {
            self.poll.poll(events, Some(Duration::ZERO))?;
            self.rearm_unsure();
        }
        // Where more may be ready than the events hold, the newest is not served before the rest.
        self.is_newest_ready = found.is_newest_ready && events.iter().len() < events.capacity();
        Ok(())
    }

    // Has an unsure listener reported again.
    pub(crate) fn rearm_unsure(&mut self) {
        if let Some(place) = self.unsure.take() {
            self.rearm(place);
        }
    }

    // Has the system watch the client that came last, where it has not left. Returns whether there is no more to do for it.
    fn watch_newest(&self, conn: u64) -> bool {
        match self.socket_of(conn) {
            Some((fd, interest)) => self.watch(fd, conn, interest) || interest.is_writable(),
            None => true,
        }
    }

    // Lets the system watch the client that came last: it is not the newest any more. Where the system does not watch it, it stays
    // the newest, and is waited for by itself: it may have been answered that its node is registered. Nobody is closed.
    pub(crate) fn release_newest(&mut self)
        ensures clients { clients_at self.new ≡ clients_at self.old }
        ensures owing { owing_at self.new ≡ owing_at self.old }
    {
        if let Some(conn) = self.newest
            && self.watch_newest(conn)
        {
            self.newest = None;
        }
    }

    // Serves the client that came last, where it is ready.
    fn attend_newest(&mut self, room: &mut [u8], now: u64)
        ensures { ServesNewest ⟦<SocketStream as Stream>⟧.meaning (ready_newest self.old) now
            (clients_at self.old) (clients_at self.new) (owing_at self.old) (owing_at self.new) }
    {
        if let Some(conn) = self.newest
            && self.is_newest_ready
        {
            let _ = self.attend(conn, room, now);
        }
    }

    // Serves the client that came last, where it is ready, and has the system watch it: behind the clients among what is ready.
    pub(crate) fn serve_newest(&mut self, room: &mut [u8], now: u64)
        ensures { ServesNewest ⟦<SocketStream as Stream>⟧.meaning (ready_newest self.old) now
            (clients_at self.old) (clients_at self.new) (owing_at self.old) (owing_at self.new) }
    {
        self.attend_newest(room, now);
        self.release_newest();
    }

    // Serves the listener at which the client that came last came: behind that client, and before the other listeners.
    pub(crate) fn serve_unsure(&mut self, now: u64) {
        if let Some(place) = self.unsure.take() {
            self.accept_all(place, now);
        }
    }
}
