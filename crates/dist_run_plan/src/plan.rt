//! What a nodes file says.

use crate::lists::PlanList;
use dist_core_setup::{NameList, Version};
use dist_names::{Flags, NodeName};
use dist_secret::{Cookie, Cookies};

/// What a nodes file says.
#[derive(Drop)]
pub struct Plan {
    /// The port of 127.0.0.1 at which the port mapper listens. At 0, the usual value, the system chooses a free one.
    pub port: u16,
    /// The most reads and writes of a connection and of a lookup, quiet ones among them: turns of at most 10 milliseconds,
    /// 1 to 1,000,000 of them, 200 where the file doesn't say.
    pub turns: u32,
    /// The 1 to 16 nodes, in the order of the file.
    pub node: PlanList<NodePlan>,
    /// Who dials whom, in the order of the file: at most 64 dials, none where the file doesn't say.
    pub dial: PlanList<DialPlan>,
}

/// A node of the file.
#[derive(Drop)]
pub struct NodePlan {
    /// Its name. No two nodes of a file have one short name, since the port mapper knows them by it.
    pub name: NodeName,
    /// The secret that it shares with peers that have no cookie of their own.
    pub cookie: Cookie,
    /// That secret, and the cookies of peers that have their own: at most 1,024, none where the file doesn't say.
    pub cookies: Cookies,
    /// The highest version of the handshake that it knows: 5 or 6, 6 where the file doesn't say.
    pub version: Version,
    /// What it announces, beside what every node does.
    pub flags: Flags,
    /// What it asks of a peer, beside what every node does. Nothing where the file doesn't say.
    pub required: Flags,
    /// The port of 127.0.0.1 at which it listens. At 0, the usual value, the system chooses a free one.
    pub listen: u16,
    /// The peers that may connect. All may where the file doesn't say, and none where its list is empty.
    pub allow: Option<NameList>,
}

/// A node that dials a peer.
#[derive(Drop)]
pub struct DialPlan {
    /// The name of the node, which is one of the file.
    pub from: NodeName,
    /// The name of the peer, which need not be one of the file.
    pub to: NodeName,
}
