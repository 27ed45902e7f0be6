//! The sentences of verdicts: what happened, and what can be done. They are texts, and stand here alone.

use crate::names::NameStyle;
use crate::service::Service;
use crate::unreached::Unreached;
use crate::verdict::{AwaitedMessage, HandshakeVerdict, NoCookie, Unresolved};
use dist_epmd_calls::LookupError;
use dist_messages::Side;

// What happened, whichever port it was.
fn any_port_cause(unreached: Unreached) -> &'static str {
    match unreached {
        Unreached::NoRoute =>
            "this machine has no route to that address, or no address of that kind itself",
        Unreached::NoLocalPort =>
            "this machine has no local port left for that address, or no address of that kind itself",
        Unreached::HostDown =>
            "that host cannot be reached: a router, a firewall or this machine answers so",
        Unreached::NoMemory => "memory ran out here",
        Unreached::NoDescriptors => "no descriptor is left here",
        _ => "this machine could not open a connection",
    }
}

// What can be done about it.
fn any_port_remedy(unreached: Unreached) -> &'static str {
    match unreached {
        Unreached::NoRoute => {
            "look at the addresses and routes of this machine (ip address, ip route get ADDRESS); --address HOST dials another address of the node's host"
        }
        Unreached::NoLocalPort => {
            "look which program here holds so many connections to that address (ss -tan), and at net.ipv4.ip_local_port_range; \
                for an address of IPv6, whether this machine has one of that kind (ip -6 address)"
        }
        Unreached::HostDown => {
            "is the host up, and is that its address (ip route get ADDRESS, ip neigh)? \
                a firewall that rejects by host unreachable or host prohibited looks the same"
        }
        Unreached::NoMemory => "free some memory",
        Unreached::NoDescriptors => "raise the limit of descriptors (ulimit -n)",
        _ => "look at the limits of this machine (ulimit -n) and at its log",
    }
}

impl HandshakeVerdict {
    /// What happened, in a sentence without a full stop.
    pub fn cause(self) -> &'static str {
        match self {
            HandshakeVerdict::Up => "the two nodes connect: names, flags and cookie agree",
            HandshakeVerdict::Finished =>
                "the handshake was made to its end; whether the cookies agree is not known",
            HandshakeVerdict::Dropped =>
                "the handshake was made to its end, and the connection ended at once behind it",
            HandshakeVerdict::Reached(NoCookie::Asked) =>
                "the node answers and takes our name and flags; the cookie was not tried",
            HandshakeVerdict::Reached(NoCookie::Missing) =>
                "the node answers and takes our name and flags; there is no cookie here to try",
            HandshakeVerdict::Answered(_) =>
                "the node reaches us and took our name; no cookie was compared",
            HandshakeVerdict::NoHost(Unresolved::NoName) => "the host's name has no address here",
            HandshakeVerdict::NoHost(Unresolved::Failed) =>
                "the host's name could not be looked up: the resolver of this machine reports a failure",
            HandshakeVerdict::NoHost(Unresolved::NoAddress) =>
                "the host of --address has no address here",
            HandshakeVerdict::ResolverSilent =>
                "the host's name could not be looked up: the resolver of this machine gave no answer in time",
            HandshakeVerdict::MapperRefused
            | HandshakeVerdict::MapperUnreachable(Unreached::Refused) =>
                "nobody listens at the port mapper's port of that host",
            HandshakeVerdict::MapperUnreachable(Unreached::Reset) =>
                "the connection to the port mapper's port of that host was reset while it was made",
            HandshakeVerdict::MapperUnreachable(Unreached::Prohibited) => {
                "the connection to the port mapper's port of that host is prohibited: a firewall or a rule of this machine answers so"
            }
            HandshakeVerdict::MapperUnreachable(Unreached::NoAnswer) =>
                "the port mapper's port of that host does not answer",
            HandshakeVerdict::MapperFault(LookupError::Limit) =>
                "the port mapper's port took the connection, and no answer came in time",
            HandshakeVerdict::MapperFault(LookupError::ReadFailed | LookupError::WriteFailed) =>
                "the port mapper's port took the connection, and it broke before an answer",
            HandshakeVerdict::MapperFault(LookupError::Ended) =>
                "the port mapper's port took the connection, and closed it before an answer",
            HandshakeVerdict::MapperFault(_) =>
                "what listens at the port mapper's port gave no answer to the lookup",
            HandshakeVerdict::NotRegistered =>
                "the port mapper of that host knows no node of this name",
            HandshakeVerdict::NameInUse =>
                "the port mapper refused the registration: another node has this name there",
            HandshakeVerdict::PortRefused | HandshakeVerdict::PortUnreachable(Unreached::Refused) =>
                "nobody listens at the node's port",
            HandshakeVerdict::PortUnreachable(Unreached::Reset) =>
                "the connection to the node's port was reset while it was made",
            HandshakeVerdict::PortUnreachable(Unreached::Prohibited) =>
                "the connection to the node's port is prohibited: a firewall or a rule of this machine answers so",
            HandshakeVerdict::PortUnreachable(Unreached::NoAnswer) =>
                "the node's port does not answer",
            HandshakeVerdict::PortUnreachable(Unreached::HostDown) =>
                "the node's port cannot be reached: a router, a firewall or this machine answers that the host cannot be",
            HandshakeVerdict::MapperUnreachable(unreached)
            | HandshakeVerdict::PortUnreachable(unreached) => any_port_cause(unreached),
            HandshakeVerdict::NoCaller => "nobody dialled in the time of --seconds",
            HandshakeVerdict::Silent(AwaitedMessage::Status, 0) =>
                "the connection was accepted, and nothing was said",
            HandshakeVerdict::Silent(AwaitedMessage::Challenge, 0) =>
                "the node took our name, and never said its challenge",
            HandshakeVerdict::Silent(AwaitedMessage::Ack, 0) => "the node never answered our reply",
            HandshakeVerdict::Silent(AwaitedMessage::Status, _) =>
                "the connection was accepted, and bytes came, but no whole message",
            HandshakeVerdict::Silent(AwaitedMessage::Challenge, _) =>
                "the node took our name, and its challenge did not come whole",
            HandshakeVerdict::Silent(AwaitedMessage::Ack, _) =>
                "the node took our reply, and its answer did not come whole",
            HandshakeVerdict::Silent(
                AwaitedMessage::Name | AwaitedMessage::Answer | AwaitedMessage::Reply,
                _,
            ) => "nothing whole came in time",
            HandshakeVerdict::Gone(AwaitedMessage::Status) =>
                "the connection was closed upon our name, before a whole message",
            HandshakeVerdict::Gone(AwaitedMessage::Challenge) =>
                "the node took our name, and closed the connection before its challenge",
            HandshakeVerdict::Gone(_) => "the connection was closed upon our reply",
            HandshakeVerdict::Reset(AwaitedMessage::Status) =>
                "the connection was reset upon our name, before a whole message",
            HandshakeVerdict::Reset(AwaitedMessage::Challenge) =>
                "the node took our name, and the connection was reset before its challenge",
            HandshakeVerdict::Reset(_) => "the connection was reset upon our reply",
            HandshakeVerdict::NoName => "the connection ended before a name was said",
            HandshakeVerdict::Left =>
                "the node closed the connection upon our challenge: it dialled another name than --name, or is a probe without a cookie",
            HandshakeVerdict::Stopped =>
                "a distping reaches us, and stopped at our challenge: it tries no cookie, or it dialled another name than --name",
            HandshakeVerdict::Withdrawn(Side::Dialler) =>
                "the dialler ended the connection, and the other side was not late",
            HandshakeVerdict::Withdrawn(Side::Acceptor) =>
                "the acceptor ended the connection, and the other side was not late",
            HandshakeVerdict::Foreign(Side::Dialler, Service::Tls) => {
                "what dials speaks TLS: a node started with -proto_dist inet_tls, or another client; what it dialled speaks none"
            }
            HandshakeVerdict::Foreign(Side::Dialler, _) => "what dials is no node",
            HandshakeVerdict::Foreign(_, Service::Tls) =>
                "what listens there speaks TLS: a node started with -proto_dist inet_tls, or another service",
            HandshakeVerdict::Foreign(_, Service::Http) =>
                "what listens there speaks HTTP, and is no node",
            HandshakeVerdict::Foreign(_, Service::Ssh) =>
                "what listens there speaks SSH, and is no node",
            HandshakeVerdict::Foreign(_, Service::Other) =>
                "what listens there answers in no way a node does",
            HandshakeVerdict::Unexpected(
                AwaitedMessage::Name | AwaitedMessage::Answer | AwaitedMessage::Reply,
            ) => "what came is none that a node of OTP says at this place",
            HandshakeVerdict::Unexpected(_) => "the node said what no handshake has at this place",
            HandshakeVerdict::OwnName => "the node has the very name that the probe gave itself",
            HandshakeVerdict::Busy => "the node has another attempt with our name under way (nok)",
            HandshakeVerdict::LacksFlags(Side::Dialler, _) =>
                "the node refuses our flags (not_allowed)",
            HandshakeVerdict::LacksFlags(Side::Acceptor, _) =>
                "every release of OTP from 23 on refuses the flags of this node",
            HandshakeVerdict::NotOnList => "the node refuses our name (not_allowed)",
            HandshakeVerdict::AlreadyUp => "the node already has a connection to our name (alive)",
            HandshakeVerdict::OtherName(_) => "a node of another name answered at that port",
            HandshakeVerdict::LongAndShort =>
                "one host part has a dot, the other has none: a node of -sname dials no name with a dot, one of -name none without",
            HandshakeVerdict::Version5 =>
                "the node knows the handshake of version 5 alone: it is older than OTP 23",
            HandshakeVerdict::WantsName =>
                "the node reaches us, and asks for a name (a dynamic name, -name undefined), which this listener does not give",
            HandshakeVerdict::Dynamic =>
                "the dialler asks for a name (-name undefined), which is not judged",
            HandshakeVerdict::WrongCookie(Side::Dialler) =>
                "the node reaches us, and has another cookie",
            HandshakeVerdict::WrongCookie(Side::Acceptor) =>
                "the node rejects our cookie: it closed the connection upon our reply",
            HandshakeVerdict::WrongAck =>
                "what answered took our reply, but its own digest is wrong: it does not know the cookie",
            HandshakeVerdict::Unfinished => "the capture does not show how this ended",
            HandshakeVerdict::NothingFound =>
                "the capture shows no handshake, and nothing that was said to a port mapper",
            HandshakeVerdict::NoMemory => "memory ran out here",
            HandshakeVerdict::NoDescriptors =>
                "this machine, or this process, may have no more descriptors open",
        }
    }

    /// What can be done about it.
    pub fn remedy(self) -> &'static str {
        match self {
            HandshakeVerdict::Up => {
                "nothing to do under this name; what the node keeps for one peer alone (erlang:set_cookie/2, net_kernel:allow/1) \
            shows under the name of that peer alone (--name PEER), and large packets were not tried"
            }
            HandshakeVerdict::Finished => {
                "name the cookie's file by --cookie to compare it with both digests"
            }
            HandshakeVerdict::Dropped => {
                "look at the node's log: it may be about to stop, refuse us behind the handshake, or count our name as taken; \
            or something on the way cuts the connection (a proxy, a firewall that looks into packets)"
            }
            HandshakeVerdict::Reached(_) | HandshakeVerdict::Answered(_) =>
                "give the cookie's file by --cookie to try it too",
            HandshakeVerdict::NoHost(Unresolved::NoName) => {
                "correct the part behind the @, or let this host resolve it (/etc/hosts, DNS); \
                the node was started with that host part, and every peer has to resolve it"
            }
            HandshakeVerdict::NoHost(Unresolved::Failed) | HandshakeVerdict::ResolverSilent => {
                "look at the name servers of this machine (/etc/resolv.conf, getent ahosts HOST), \
                or name the host's address by --address"
            }
            HandshakeVerdict::NoHost(Unresolved::NoAddress) =>
                "correct the word behind --address: a host's name, or an address without a port",
            HandshakeVerdict::MapperRefused
            | HandshakeVerdict::MapperUnreachable(Unreached::Refused) => {
                "is a node running there at all? then start epmd, or look at ERL_EPMD_PORT and ERL_EPMD_ADDRESS on both hosts (--epmd-port); \
                    a node of -erl_epmd_port P needs none, and is dialled by --port P; a firewall that rejects looks the same"
            }
            HandshakeVerdict::MapperUnreachable(Unreached::Reset) => {
                "a firewall or a proxy on the way resets it: let TCP port 4369 (or ERL_EPMD_PORT) pass, or dial the node's port by --port"
            }
            HandshakeVerdict::MapperUnreachable(Unreached::Prohibited) => {
                "let TCP port 4369 (or ERL_EPMD_PORT) pass in the firewall that rejects it, on the way or here (nft list ruleset, ip route get ADDRESS), \
                    or dial the node's port by --port"
            }
            HandshakeVerdict::MapperUnreachable(Unreached::NoAnswer) => {
                "open TCP port 4369 (or ERL_EPMD_PORT) in the firewall between the hosts, \
                    or dial the node's port by --port; is the host up?"
            }
            HandshakeVerdict::MapperFault(LookupError::Limit) => {
                "epmd may be stopped or overloaded, or another program listens there: look at that process on its host; \
                the node itself is dialled by --port P"
            }
            HandshakeVerdict::MapperFault(
                LookupError::ReadFailed | LookupError::WriteFailed | LookupError::Ended,
            ) => {
                "epmd may be out of descriptors (the limit of that process, ulimit -n), or something on the way cuts the connection; \
                is it epmd at all? compare with epmd -names on that host; the node itself is dialled by --port P"
            }
            HandshakeVerdict::MapperFault(_) =>
                "is it epmd at all? compare with epmd -names on that host",
            HandshakeVerdict::NotRegistered => {
                "compare with the names that are registered there; the part before the @ has to be the same letters, \
                and the node has to run with -name or -sname; a node with another ERL_EPMD_PORT is registered at that port (--epmd-port), \
                one of -erl_epmd_port P that started before its port mapper nowhere (--port P), \
                and a node of a dynamic name (-name undefined) or of -dist_listen false takes no connections: it dials; \
                after a restart of epmd, or epmd -stop NAME, a node of OTP 23 stays unregistered: restart it; a newer one is back within seconds"
            }
            HandshakeVerdict::NameInUse => {
                "two nodes of one name on one host: give one another name; or the old one has not ended yet (epmd -names, ps)"
            }
            HandshakeVerdict::PortRefused | HandshakeVerdict::PortUnreachable(Unreached::Refused) =>
                {
                    "the registration may be stale, or the node listens at another address of its host (inet_dist_use_interface); \
                    a firewall that rejects looks the same; behind NAT or a forwarded port dial the port that is forwarded by --port"
                }
            HandshakeVerdict::PortUnreachable(Unreached::Reset) => {
                "a firewall or a proxy on the way resets it: let the node's port pass; inet_dist_listen_min and inet_dist_listen_max give it a fixed range"
            }
            HandshakeVerdict::PortUnreachable(Unreached::Prohibited) => {
                "let the node's port pass in the firewall that rejects it, on the way or here (nft list ruleset, ip route get ADDRESS); \
                    inet_dist_listen_min and inet_dist_listen_max give it a fixed range"
            }
            HandshakeVerdict::PortUnreachable(Unreached::NoAnswer) => {
                "open the node's port in the firewall; inet_dist_listen_min and inet_dist_listen_max give it a fixed range; \
                behind NAT or a forwarded port dial the port that is forwarded by --port; \
                or the node is frozen (kill -STOP) or overloaded, and takes no more connections: look at its process"
            }
            HandshakeVerdict::PortUnreachable(Unreached::HostDown) => {
                "if the port mapper of that host has just answered, a firewall rejects this one port (admin prohibited, host unreachable): \
                let it pass (nft list ruleset), and give it a fixed range by inet_dist_listen_min and inet_dist_listen_max; \
                else is the host up, and is that its address (ip route get ADDRESS, ip neigh)?"
            }
            HandshakeVerdict::MapperUnreachable(unreached)
            | HandshakeVerdict::PortUnreachable(unreached) => any_port_remedy(unreached),
            HandshakeVerdict::NoCaller =>
                "let a node dial this name at this port: net_adm:ping/1 there; look at the firewall before this port",
            HandshakeVerdict::Silent(
                AwaitedMessage::Name | AwaitedMessage::Answer | AwaitedMessage::Reply,
                _,
            ) => {
                "look at the host that dialled: is it a node, and is it overloaded? or large packets are lost on the way"
            }
            HandshakeVerdict::Silent(AwaitedMessage::Status, _) => {
                "the node may be stopped, overloaded or behind a proxy, or packets are lost on the way; look at its host, \
                and which program has that port"
            }
            HandshakeVerdict::Silent(..) => {
                "the node may hang, or wait for an older connection of our name to end; \
                or large packets are lost on the way, where some link takes smaller ones and its answer is dropped \
                (ping -M do -s 1472 HOST); try again, or another --name"
            }
            HandshakeVerdict::Gone(_) => {
                "is it a node? one that is about to stop, or that holds a half-made connection of our name \
            for up to 7 seconds, does so too; try again, or another --name"
            }
            HandshakeVerdict::Reset(_) => {
                "a firewall or a proxy on the way may cut it, the program there was killed, \
            or the node takes nobody from this network (-kernel check_ip true) or is out of processes (+P); \
            look at the firewalls between the hosts, and at the node's log"
            }
            HandshakeVerdict::NoName => {
                "is it a node? a port scanner, a health check or a load balancer connects and says nothing"
            }
            HandshakeVerdict::Left => {
                "compare the name that was dialled with the name here, letter by letter, host part included; \
            a node goes on only with the name that it dialled"
            }
            HandshakeVerdict::Stopped =>
                "give that distping a cookie, or let it dial this very name",
            HandshakeVerdict::Withdrawn(_) =>
                "look at the log of that node: it gave the attempt up, was stopped, or another connection took its place",
            HandshakeVerdict::Foreign(Side::Dialler, Service::Tls) =>
                "dial from a node without -proto_dist inet_tls, or start this one with it",
            HandshakeVerdict::Foreign(Side::Dialler, _) =>
                "find out which program dials (ss -tnp on that host)",
            HandshakeVerdict::Foreign(Side::Acceptor, Service::Tls) =>
                "dial it from a node with the same -proto_dist and -ssl_dist_optfile; distping-tls probes it",
            HandshakeVerdict::Foreign(..) =>
                "look which program has that port; the registration may be stale",
            HandshakeVerdict::Unexpected(_) => "look which program has that port, and its release",
            HandshakeVerdict::OwnName => "give another --name: two nodes of one name never connect",
            HandshakeVerdict::Busy => "nothing is wrong yet: try again in some seconds",
            HandshakeVerdict::LacksFlags(Side::Dialler, _) =>
                "the older side has to be updated: releases two apart connect, older ones lack what the newer asks for",
            HandshakeVerdict::LacksFlags(Side::Acceptor, _) =>
                "let the program there announce the flags that are lacking: every node of OTP announces them",
            HandshakeVerdict::NotOnList => {
                "look at net_kernel:allow/1 on the node, and at its log; \
            a newer release may also ask for a flag that is not known here"
            }
            HandshakeVerdict::AlreadyUp => {
                "two nodes share that name, or an old connection is not yet noticed as dead (net_ticktime); \
            give another --name to go on"
            }
            HandshakeVerdict::OtherName(NameStyle::Long) =>
                "the node was started under another host part or name: dial it by the name that it says, from a node of -name",
            HandshakeVerdict::OtherName(NameStyle::Short) => {
                "the node was started under another host part or name, a short one: dial it by the name that it says, from a node of -sname; \
                or start it again by -name with a host part that has a dot"
            }
            HandshakeVerdict::LongAndShort => {
                "start both by -name with a dot in the host part, or both by -sname; without --name the probe takes a name of the node's own form, \
                and tries the cookie; a node of -name without that dot can dial the other, and is not dialled by it"
            }
            HandshakeVerdict::Version5 => "update it to OTP 23 or newer",
            HandshakeVerdict::WantsName | HandshakeVerdict::Dynamic =>
                "a node of a dynamic name is given its name by the node that it dials: dial a node of OTP",
            HandshakeVerdict::WrongCookie(_) => {
                "compare the cookies: erlang:get_cookie() on the node, its ~/.erlang.cookie and -setcookie \
            (distnode cookie FILE prints a digest to compare), and erlang:get_cookie(PEER), which it may have for our name alone"
            }
            HandshakeVerdict::WrongAck => {
                "no node of OTP does so: it checks our reply by the cookie from which it makes its own digest; \
                find out which program has that port (ss -ltnp on its host): a proxy, an impostor or a broken node"
            }
            HandshakeVerdict::Unfinished =>
                "capture longer, on both hosts, whole packets (tcpdump -s 0), and look for lost ones",
            HandshakeVerdict::NothingFound => {
                "capture at the hosts of the nodes, on all interfaces (tcpdump -i any -s 0), while one dials the other; \
            --epmd-port names another port of the port mapper"
            }
            HandshakeVerdict::NoMemory => "free some memory",
            HandshakeVerdict::NoDescriptors =>
                "raise the limit of descriptors (ulimit -n), or dial fewer nodes at once",
        }
    }
}
