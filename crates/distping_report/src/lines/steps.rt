//! The lines of the steps of a probe, and of a connection that was taken.

use crate::lines::LineSink;
use crate::piece::LinePiece::{Digits, Escaped, Foreign, Host, Name, Number, Text};
use crate::shown::{count_lines, split_shown};
use dist_epmd::PortInfo;
use dist_epmd_calls::LookupError;
use dist_flags::{Dflag, Release, ReleaseShown, is_refused_by_all, oldest_refusal, release_shown};
use dist_messages::{Side, Status};
use dist_names::{Flags, NodeName, escape_lines};
use dist_talk::{HandshakeVerdict, NodeDescription, Unreached, is_long_and_short};
use distping_words::{Detail, Fault};
use std::net::SocketAddr;

// The name of a release.
fn release_text(release: Release) -> &'static str {
    match release {
        Release::Before23 => "before OTP 23",
        Release::Otp23 => "OTP 23",
        Release::Otp24 => "OTP 24",
        Release::Otp25 => "OTP 25 to 27",
        Release::Otp28 => "OTP 28",
        Release::Otp29 => "OTP 29 or newer",
    }
}

// The text before the flags for which a release refuses a node.
fn refusal_text(release: Release) -> &'static str {
    match release {
        Release::Before23 | Release::Otp23 =>
            "!  flags     a node of OTP 23 or 24 refuses this one, since these lack:",
        Release::Otp24 | Release::Otp25 =>
            "!  flags     a node of OTP 25 or newer refuses this one, since these lack:",
        Release::Otp28 | Release::Otp29 =>
            "!  flags     a node of OTP 26 or newer refuses this one, since these lack:",
    }
}

// How a lookup failed; the text follows the port of the port mapper.
fn lookup_text(error: LookupError) -> &'static str {
    match error {
        LookupError::NotThere => "no node of this name is registered",
        LookupError::Malformed => "what came is no answer of a port mapper",
        LookupError::ReadFailed | LookupError::WriteFailed =>
            "the connection was taken, and broke before an answer",
        LookupError::Ended => "the connection was taken, and closed before an answer",
        LookupError::NoMemory => "out of memory here",
        LookupError::Limit => "the connection was taken, and no answer came in time",
        LookupError::Refused(_) => "the registration was refused",
    }
}

impl LineSink<'_> {
    /// Warns if one of these two names is long and the other short.
    pub fn put_styles(self, own: &NodeName, node: &NodeName) -> Result<(), Fault> {
        if !is_long_and_short(own.bytes(), node.bytes()) {
            return Ok(());
        }
        self.put_text(
            "!  names     one host part has a dot, the other has none: a node of -sname dials no name with a dot, one of -name none without",
        )
    }

    /// Prints an address of the host; `has_ipv4` says whether one of its addresses is of IPv4.
    pub fn put_address(
        self,
        host: &str,
        address: &SocketAddr,
        has_ipv4: bool,
    ) -> Result<(), Fault> {
        let (front, hint) = if address.is_ipv4() {
            ("✓", "")
        } else if has_ipv4 {
            ("✓", ": nodes dial it with -proto_dist inet6_tcp alone")
        } else {
            let hint = ", and has no IPv4 address: nodes dial it with -proto_dist inet6_tcp alone";
            ("!", hint)
        };
        self.put(&[
            Text(front),
            Text("  host      "),
            Foreign(host.as_bytes()),
            Text(" is "),
            Host(address.ip()),
            Text(hint),
        ])
    }

    /// Prints that the address of a name is this machine's own.
    pub fn put_own_address(self) -> Result<(), Fault> {
        self.put_text(
            "   host      that address is this machine itself: the name leads to no other host from here",
        )
    }

    /// Prints the registration that the port mapper has.
    pub fn put_registration(self, mapper_port: u16, info: &PortInfo) -> Result<(), Fault> {
        self.put(&[
            Text("✓  epmd      port "),
            Number(u32::from(mapper_port)),
            Text(" answers: "),
            Name(info.name.as_slice()),
            Text(" listens at port "),
            Number(u32::from(info.port)),
            Text(", versions "),
            Number(u32::from(info.lowest)),
            Text(" to "),
            Number(u32::from(info.highest)),
        ])
    }

    /// Prints that port 0 is registered.
    pub fn put_port_zero(self) -> Result<(), Fault> {
        self.put_text(
            "✗  epmd      port 0 is registered, at which nothing can listen: what registered it takes no connections",
        )
    }

    // Prints why a step ended at this port.
    fn put_failed(self, step: &'static str, port: u16, why: &'static str) -> Result<(), Fault> {
        self.put(&[
            Text("✗  "),
            Text(step),
            Text(" port "),
            Number(u32::from(port)),
            Text(": "),
            Text(why),
        ])
    }

    /// Prints that a place was not reached.
    pub fn put_unreached(
        self,
        step: &'static str,
        port: u16,
        place: Unreached,
    ) -> Result<(), Fault> {
        self.put_failed(step, port, place.text())
    }

    /// Prints why the lookup failed.
    pub fn put_no_answer(self, mapper_port: u16, error: LookupError) -> Result<(), Fault> {
        self.put_failed("epmd     ", mapper_port, lookup_text(error))
    }

    /// Prints the names that the port mapper knows, one on a line: as many as are shown, and how many more there are.
    pub fn put_names(self, names: &[u8]) -> Result<(), Fault> {
        if names.is_empty() {
            return self.put_text("   epmd      no node at all is registered there");
        }
        let (shown, others) = split_shown(names);
        let text = escape_lines(self.alloc, shown)?;
        for line in text.lines() {
            self.put(&[Text("   epmd      "), Escaped(line)])?;
        }
        if others.is_empty() {
            return Ok(());
        }
        let front = "   epmd      and ";
        self.put_count(front, count_lines(others), " more lines, left out")
    }

    /// Prints that the port mapper's answer is longer than what is read.
    pub fn put_cut(self) -> Result<(), Fault> {
        self.put_text(
            "!  epmd      the answer has more than 65535 bytes: what stands behind them is left out",
        )
    }

    /// Prints that the port mapper's names are printed with another node of the host.
    pub fn put_listed(self) -> Result<(), Fault> {
        self.put_text(
            "   epmd      what is registered there is printed with another node of this host",
        )
    }

    /// Prints that the node's port accepted the connection.
    pub fn put_connected(self, address: &SocketAddr, port: u16) -> Result<(), Fault> {
        self.put(&[
            Text("✓  connect   "),
            Host(address.ip()),
            Text(" port "),
            Number(u32::from(port)),
        ])
    }

    /// Prints the status with which the node answered our name.
    pub fn put_status(self, own: &NodeName, flags: Flags, status: Status) -> Result<(), Fault> {
        let mark = match status {
            Status::Ok | Status::OkSimultaneous => "✓",
            _ => "✗",
        };
        self.put(&[
            Text(mark),
            Text("  name      said "),
            Name(own.bytes()),
            Text(" with flags "),
            Digits(flags.announced()),
            Text("; the node says "),
            Foreign(status.text()),
        ])
    }

    // Prints the flags for which a release refuses a node, if it lacks any.
    fn put_objection(self, release: Release, flags: Flags) -> Result<(), Fault> {
        self.put_lacks(refusal_text(release), release.objection(flags))
    }

    // Prints the oldest release that refuses a node with these flags. What OTP 25 refuses, newer ones refuse too. OTP 23 and 24 refuse
    // nodes that OTP 25 accepts for `DFLAG_MANDATORY_25_DIGEST`. If all releases refuse it, the verdict says so.
    fn put_refusal(self, flags: Flags) -> Result<(), Fault> {
        match oldest_refusal(flags) {
            Some(Release::Otp23) if !is_refused_by_all(flags) => {
                self.put_objection(Release::Otp23, flags)?;
                self.put_objection(Release::Otp28, flags)
            }
            Some(Release::Otp25) => self.put_objection(Release::Otp25, flags),
            Some(Release::Otp28) => self.put_objection(Release::Otp28, flags),
            _ => Ok(()),
        }
    }

    /// Prints what a node says about itself.
    pub fn put_peer(self, node: NodeDescription<'_>) -> Result<(), Fault> {
        let flags = node.flags;
        let kind = if flags.has(Dflag::Published.flags()) {
            ", published"
        } else {
            ", hidden"
        };
        let (front, creation) = match node.creation {
            Some(creation) => (", creation ", Number(creation.0)),
            None => (", without a creation", Text("")),
        };
        let (before, release) = match release_shown(flags) {
            ReleaseShown::Just(release) => (": ", release),
            ReleaseShown::UpTo(release) => (": up to those of ", release),
        };
        self.put(&[
            Text("✓  node      "),
            Name(node.name),
            Text(kind),
            Text(front),
            creation,
            Text(", flags "),
            Digits(flags),
            Text(before),
            Text(release_text(release)),
        ])?;
        if self.detail == Detail::Flags {
            self.put_flags("   flags    ", flags)?;
        }
        self.put_refusal(flags)
    }

    /// Prints the result for the cookie, if one was tried.
    pub fn put_cookie(self, verdict: HandshakeVerdict) -> Result<(), Fault> {
        match verdict {
            HandshakeVerdict::Up | HandshakeVerdict::Dropped => {
                self.put_text("✓  cookie    the node took our digest, and its own is right")
            }
            HandshakeVerdict::WrongCookie(_) => {
                self.put_text("✗  cookie    the node closed the connection upon our digest")
            }
            HandshakeVerdict::WrongAck => self.put_text("✗  cookie    the node's digest is wrong"),
            HandshakeVerdict::Withdrawn(Side::Acceptor) => {
                self.put_text("!  cookie    the node ended the connection before it had our digest")
            }
            _ => Ok(()),
        }
    }

    /// Prints that it waits for a connection.
    pub fn put_listening(self, port: u16, name: &NodeName) -> Result<(), Fault> {
        self.put(&[
            Text("✓  listen    port "),
            Number(u32::from(port)),
            Text(", as "),
            Name(name.bytes()),
            Text(": waiting for one connection"),
        ])
    }

    /// Prints that a connection was taken.
    pub fn put_taken(self, address: &SocketAddr) -> Result<(), Fault> {
        self.put(&[Text("✓  taken     from "), Host(address.ip())])
    }
}
