//! What a capture of a network has: which bytes of it are which TCP segment, and which stream the segments of one direction of a
//! connection make.
//!
//! Over bytes alone: no input or output, no clock, no randomness. Every function is total: bytes of any kind give an answer and no
//! fault. Each packet gives a segment or is counted once: fragments of IP are not put together, and tunnels (VXLAN, GRE, IP in IP) are not
//! looked into. Checksums are not looked at (where a network card makes them, a capture has wrong ones), and nothing is guessed: a
//! stream ends at its first gap.
//!
//! Sources: draft-ietf-opsawg-pcap and draft-ietf-opsawg-pcapng (files), the list of link types of tcpdump.org (links), RFC 791
//! (IPv4), RFC 8200 (IPv6), RFC 9293 (TCP), RFC 7348 (VXLAN), RFC 2784 (GRE), RFC 2003, RFC 2473 and RFC 4213 (IP in IP).
#![tactic(auto)]

mod capture;
mod fault;
mod format;
mod laws;
mod link;
mod network;
mod parts;
mod places;
mod segment;
mod skipped;
mod stream;
mod tcp;
mod unit;

pub use capture::Capture;
pub use fault::CaptureFault;
pub use laws::{any_order, any_pieces, each_counted};
pub use segment::{Endpoint, Segment};
pub use skipped::{Skipped, SkippedCounts};
pub use stream::SegmentStream;
pub use tcp::{FoundSegment, segment_of};
