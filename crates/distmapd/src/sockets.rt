//! The sockets at which the program listens.

use crate::fault::Fault;
use crate::reading::number_of;
use crate::settings::Settings;
use crate::standard_error::ready_events;
use dist_names::number_32;
use mio::net::TcpListener;
use os::FromRawFd;
use std::alloc::{AllocError, Global};
use std::io::{self, ErrorKind};
use std::net::{IpAddr, Ipv4Addr, Ipv6Addr, Net, SocketAddr};

// The most sockets that may be handed over.
const MOST_HANDED_OVER: u32 = 16;

// The first descriptor that is handed over. Source: systemd, sd_listen_fds(3).
const HANDED_OVER: i32 = 3;

const ALL_4: IpAddr = IpAddr::V4(Ipv4Addr::UNSPECIFIED);

const ALL_6: IpAddr = IpAddr::V6(Ipv6Addr::UNSPECIFIED);

const HERE_4: IpAddr = IpAddr::V4(Ipv4Addr::LOCALHOST);

const HERE_6: IpAddr = IpAddr::V6(Ipv6Addr::LOCALHOST);

// Listens at an address.
fn listen_at(net: &impl Net, address: IpAddr, port: u16) -> io::Result<TcpListener> {
    TcpListener::bind(net, SocketAddr::new(address, port))
}

// All addresses, of IPv6 and IPv4 if the system has both, else of IPv4.
fn listen_at_all(net: &impl Net, port: u16) -> io::Result<TcpListener> {
    match listen_at(net, ALL_6, port) {
        Ok(listener) => Ok(listener),
        Err(_) => listen_at(net, ALL_4, port),
    }
}

// The socket that the service manager handed over at this place.
fn inherited_socket(place: u16) -> io::Result<TcpListener> {
    let fd = HANDED_OVER + i32::from(place);
    // A listening socket is never ready to be written; a UDP socket, a socket that does not listen, and a file are. If the descriptor
    // is closed, the system reports that.
    if ready_events(fd) != Some(0) {
        return Err(io::Error::from(ErrorKind::InvalidInput));
    }
    let listener = unsafe { std::net::TcpListener::from_raw_fd(fd) };
    listener.set_nonblocking(true)?;
    let _address = listener.local_addr()?;
    Ok(TcpListener::from_std(listener))
}

// Adds the sockets that the service manager handed over, so many of them.
fn add_inherited(found: &mut Vec<TcpListener>, count: u16) -> io::Result<()> {
    for place in 0..count {
        found.push(inherited_socket(place)?)?;
    }
    Ok(())
}

// Adds the address that a text writes.
fn add_address(addresses: &mut Vec<IpAddr>, text: &str) -> Result<(), Fault> {
    let Ok(address) = text.parse() else {
        return Err(Fault::BadAddress);
    };
    match addresses.push(address) {
        Ok(()) => Ok(()),
        Err(_) => Err(Fault::NoMemory),
    }
}

// The addresses in a text, with commas or spaces between them, as `epmd` reads it.
fn addresses_in(alloc: Global, text: &str) -> Result<Vec<IpAddr>, Fault> {
    let mut addresses = Vec::new(alloc);
    for part in text.split([',', ' ']) {
        if !part.is_empty() {
            add_address(&mut addresses, part)?;
        }
    }
    Ok(addresses)
}

// Whether an address is one of these, or all of IPv4, which is among them, cover it.
fn is_within(address: IpAddr, all: &[IpAddr]) -> bool {
    all.contains(&address) || (address.is_ipv4() && all.contains(&ALL_4))
}

// These addresses, each once, behind that of all IPv4 if it is among them, else behind the loopback of IPv4.
fn own_addresses(alloc: Global, addresses: &[IpAddr]) -> Result<Vec<IpAddr>, AllocError> {
    let first = if addresses.contains(&ALL_4) {
        ALL_4
    } else {
        HERE_4
    };
    let mut own = vec![in alloc; first]?;
    for address in addresses {
        if !is_within(*address, &own) {
            own.push(*address)?;
        }
    }
    Ok(own)
}

// Adds a listener at each of these addresses, and one at the loopback of IPv6 if it is not among them.
fn add_at_each(
    net: &impl Net,
    found: &mut Vec<TcpListener>,
    addresses: &[IpAddr],
    port: u16,
) -> io::Result<()> {
    for address in addresses {
        found.push(listen_at(net, *address, port)?)?;
    }
    // The host may not have this address.
    if !addresses.contains(&HERE_6)
        && let Ok(listener) = listen_at(net, HERE_6, port)
    {
        found.push(listener)?;
    }
    Ok(())
}

// Adds listeners at these addresses and at the loopback of both kinds; without any addresses, at all.
fn add_listeners(
    net: &impl Net,
    alloc: Global,
    found: &mut Vec<TcpListener>,
    addresses: &[IpAddr],
    port: u16,
) -> io::Result<()> {
    if addresses.is_empty() || addresses.contains(&ALL_6) {
        found.push(listen_at_all(net, port)?)?;
        return Ok(());
    }
    add_at_each(net, found, &own_addresses(alloc, addresses)?, port)
}

/// How many sockets were handed over, by LISTEN_FDS: from 1 to 16, and one if it is not set. `None` for another number, or if
/// LISTEN_PID names another process.
pub fn handed_over(said: Option<&str>, process: Option<&str>, own: i32) -> Option<u16> {
    if let Some(word) = process
        && number_32(word.as_bytes()).map(i64::from) != Some(i64::from(own))
    {
        return None;
    }
    match said {
        Some(word) => u16::try_from(number_of(word, MOST_HANDED_OVER)?).ok(),
        None => Some(1),
    }
}

/// The listeners that the settings ask for, of which `handed_over` were handed over.
pub fn listeners(
    net: &impl Net,
    alloc: Global,
    settings: &Settings<'_>,
    handed_over: u16,
) -> Result<Vec<TcpListener>, Fault> {
    let addresses = addresses_in(alloc, settings.addresses.unwrap_or(""))?;
    let mut found = Vec::new(alloc);
    let added = if settings.systemd {
        add_inherited(&mut found, handed_over)
    } else {
        add_listeners(net, alloc, &mut found, &addresses, settings.port)
    };
    match added {
        Ok(()) => Ok(found),
        Err(_) => Err(Fault::ListenFailed),
    }
}

/// The port of the first listener.
pub fn port_of(listeners: &[TcpListener]) -> Option<u16> {
    Some(listeners.first()?.local_addr().ok()?.port())
}
