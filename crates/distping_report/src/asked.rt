//! The tasks: to dial a node, or to listen as one.

use crate::lines::LineSink;
use crate::listed::Listed;
use dist_names::NodeName;
use dist_secret::Cookie;
use dist_talk::{NoCookie, OwnSide};
use distping_words::Choices;
use std::net::SocketAddr;

/// A node to dial.
#[derive(Clone, Copy)]
pub struct Dial<'a> {
    /// The runtime, for addresses, sockets and random bytes.
    pub rt: &'a HostRuntime,
    /// Where the steps are printed.
    pub lines: LineSink<'a>,
    /// The hosts for which the names that their port mappers know were printed.
    pub listed: &'a Listed,
    /// The name that the probe gives itself.
    pub own: &'a NodeName,
    /// The node's name.
    pub node: &'a NodeName,
    /// The cookie that is tried, or why there is none.
    pub cookie: Result<&'a Cookie, NoCookie>,
    /// The other options.
    pub choices: Choices<'a>,
}

/// A node that listens for one connection.
#[derive(Clone, Copy)]
pub struct Listen<'a> {
    /// What it says, and by what it judges the other side.
    pub own: OwnSide<'a>,
    /// Its port.
    pub port: u16,
    /// The address that it listens at; `None` for all of this host.
    pub place: Option<SocketAddr>,
    /// The other options: how long the wait and the talk may take.
    pub choices: Choices<'a>,
}
