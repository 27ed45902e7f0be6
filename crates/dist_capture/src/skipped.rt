//! Why a packet gives no segment.

ghost use Rattle.std.specs.Prelude.{◌≡◌};
ghost use Rattle.dist_capture.specs.Counting.{counted, count_of, more};

/// Why a packet gives no segment: the first cause that holds.
#[derive(Clone, Copy, Debug, PartialEq, Eq)]
pub enum Skipped {
    /// Its link is of this type, which is not known (tcpdump.org, Link-layer header types).
    UnknownLink(u32),
    /// The capture cut a header off.
    CutShort,
    /// It is in a VXLAN tunnel: UDP to port 4789 (RFC 7348, 5).
    Vxlan,
    /// It is in a GRE tunnel: protocol 47 (RFC 2784).
    Gre,
    /// It is an IP packet in another: protocol 4 (RFC 2003) or 41 (RFC 4213; in IPv6 both: RFC 2473).
    IpInIp,
    /// It is of IPv6, and more than four extension headers stand in front of what it carries.
    ManyHeaders,
    /// It is no TCP over IP, nor any of the others.
    OtherProtocol,
    /// It is a part of an IP packet that was cut up on its way, whatever that carries.
    Fragment,
    /// Its lengths contradict each other.
    Malformed,
}

/// How many packets gave no segment, by the cause.
#[derive(Clone, Copy, Debug, PartialEq, Eq)]
pub struct SkippedCounts {
    pub unknown_link: u64,
    /// The type of the first link that is not known.
    pub unknown_type: Option<u32>,
    pub cut_short: u64,
    pub vxlan: u64,
    pub gre: u64,
    pub ip_in_ip: u64,
    pub many_headers: u64,
    pub other_protocol: u64,
    pub fragment: u64,
    pub malformed: u64,
}

// One more, at most the greatest number of 64 bits.
fn more(count: u64) -> u64
    ensures { result ≡ more count }
{
    count.saturating_add(1)
}

impl SkippedCounts {
    /// No packet was passed over.
    pub const NONE: SkippedCounts = SkippedCounts {
        unknown_link: 0,
        unknown_type: None,
        cut_short: 0,
        vxlan: 0,
        gre: 0,
        ip_in_ip: 0,
        many_headers: 0,
        other_protocol: 0,
        fragment: 0,
        malformed: 0,
    };

    /// Counts one more packet.
    pub fn add(&mut self, skipped: Skipped)
        ensures { self.new ≡ counted self.old skipped }
    {
        match skipped {
            Skipped::UnknownLink(link) => {
                self.unknown_link = more(self.unknown_link);
                self.unknown_type = self.unknown_type.or(Some(link));
            }
            Skipped::CutShort => self.cut_short = more(self.cut_short),
            Skipped::Vxlan => self.vxlan = more(self.vxlan),
            Skipped::Gre => self.gre = more(self.gre),
            Skipped::IpInIp => self.ip_in_ip = more(self.ip_in_ip),
            Skipped::ManyHeaders => self.many_headers = more(self.many_headers),
            Skipped::OtherProtocol => self.other_protocol = more(self.other_protocol),
            Skipped::Fragment => self.fragment = more(self.fragment),
            Skipped::Malformed => self.malformed = more(self.malformed),
        }
    }

    /// How many packets were passed over for this cause; of unknown links for all of their types together.
    pub fn count(&self, skipped: Skipped) -> u64
        ensures { result ≡ count_of self.now skipped }
    {
        match skipped {
            Skipped::UnknownLink(_) => self.unknown_link,
            Skipped::CutShort => self.cut_short,
            Skipped::Vxlan => self.vxlan,
            Skipped::Gre => self.gre,
            Skipped::IpInIp => self.ip_in_ip,
            Skipped::ManyHeaders => self.many_headers,
            Skipped::OtherProtocol => self.other_protocol,
            Skipped::Fragment => self.fragment,
            Skipped::Malformed => self.malformed,
        }
    }
}
