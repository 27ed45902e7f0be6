//! A port of our own, to which the node is made to connect: it dials a name that is registered there, or it is started with that port for
//! its port mapper's.

use crate::fault::Fault;
use crate::reaching::{TURNS, talk_to};
use crate::talk_link::{SocketLink, TalkLink};
use dist_epmd::NodeInfo;
use dist_epmd_calls::{LookupError, register};
use dist_program::at_port;
use dist_stream::SocketStream;
use libc::types::pollfd;
use std::alloc::AllocError;
use std::io;
use std::net::{SocketAddr, TcpListener};
use std::os::fd::AsRawFd;

/// How the node is made to dial.
#[derive(Clone, Copy)]
pub struct CallPlaces<'a> {
    /// Where orders to dial are taken.
    pub orders: SocketAddr,
    /// The node's port mapper.
    pub mapper: SocketAddr,
    /// The host part of the names that are dialled.
    pub host: &'a str,
}

/// A port at which the node connects, as long as this is kept.
#[derive(Drop)]
pub struct OwnPort {
    listener: TcpListener,
    port: u16,
    // The name that the node dials, where it does.
    registration: Option<SocketStream>,
    // What has the node connect ends with this connection.
    order: Option<SocketLink>,
}

// Registers this, as long as the connection is kept. None where the port mapper does not.
fn registration_of(
    rt: &HostRuntime,
    mapper: &SocketAddr,
    info: &NodeInfo,
) -> Result<Option<SocketStream>, Fault> {
    let Ok(mut stream) = talk_to(rt, mapper) else {
        return Ok(None);
    };
    match register(rt.alloc(), &mut stream, info, TURNS) {
        Ok(_) => Ok(Some(stream.into_inner())),
        Err(LookupError::NoMemory) => Err(Fault::NoMemory),
        Err(_) => Ok(None),
    }
}

impl OwnPort {
    /// Listens at this address, at a port that the system chooses. An error is the system's.
    pub fn open(rt: &HostRuntime, address: &SocketAddr) -> io::Result<OwnPort> {
        let listener = TcpListener::bind(rt, at_port(address, 0))?;
        listener.set_nonblocking(true)?;
        let port = listener.local_addr()?.port();
        Ok(OwnPort {
            listener,
            port,
            registration: None,
            order: None,
        })
    }

    /// Listens at the port mapper's address, and registers this with that port. None where either fails.
    pub fn register(
        rt: &HostRuntime,
        mapper: &SocketAddr,
        info: &NodeInfo,
    ) -> Result<Option<OwnPort>, Fault> {
        let Ok(mut own) = OwnPort::open(rt, mapper) else {
            return Ok(None);
        };
        let mut info = info.try_clone(rt.alloc())?;
        info.port = own.port;
        own.registration = registration_of(rt, mapper, &info)?;
        Ok(own.registration.is_some().then(|| own))
    }

    // Says this where orders are taken, in place of the order before. Returns whether that is taken.
    fn order(&mut self, rt: &HostRuntime, orders: &SocketAddr, line: &[u8]) -> bool {
        let Ok(mut link) = TalkLink::open(rt, 0, orders, false) else {
            return false;
        };
        let is_taken = link.write(rt, line);
        self.order = Some(link);
        is_taken
    }

    /// Orders a dial of this name. Returns whether that is taken.
    pub fn order_dial(
        &mut self,
        rt: &HostRuntime,
        places: &CallPlaces<'_>,
        short: &[u8],
    ) -> Result<bool, AllocError> {
        let mut line = Vec::from_slice(rt.alloc(), short)?;
        line.push(b'@')?;
        line.extend_from_slice(places.host.as_bytes())?;
        line.push(b'\n')?;
        Ok(self.order(rt, &places.orders, &line))
    }

    /// Orders the start of a node whose port mapper has this port. Returns whether that is taken.
    pub fn order_start(
        &mut self,
        rt: &HostRuntime,
        orders: &SocketAddr,
    ) -> Result<bool, AllocError> {
        let line = format!(in rt.alloc(); "{}\n", self.port)?;
        Ok(self.order(rt, orders, line.as_bytes()))
    }

    /// The connection that the node makes within this many milliseconds.
    pub fn accept(&self, conn: u8, limit: u32) -> Option<SocketLink> {
        let mut waits = [pollfd {
            fd: self.listener.as_raw_fd(),
            events: libc::net::POLLIN,
            revents: 0,
        }];
        let _ = libc::net::poll(&mut waits, i32::try_from(limit).unwrap_or(i32::MAX));
        let (socket, _) = self.listener.accept().ok()?;
        TalkLink::over(conn, socket, false).ok()
    }
}
