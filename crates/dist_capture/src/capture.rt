//! The reader of captures.

ghost use Rattle.std.specs.Prelude.{◌≡◌, [], ◌+◌, ◌<◌, ◌≤◌, length, take, option_map, IfOk, IfErr, OnOk, OnErr, IfSome, Ok, Some};
ghost use Rattle.dist_capture.specs.Reading.{Reading, unread, with_bytes, is_cut_off, whole, timed, noted, with_packet, Reads, Gives, EndsAt, FailsAt, view_of};
ghost use Rattle.dist_capture.specs.Tcp.{view_of as said_of, segment_of};
ghost use Rattle.dist_capture.specs.Parts.{part};

use crate::fault::CaptureFault;
use crate::format::{Format, Interface};
use crate::parts::slice;
use crate::segment::Segment;
use crate::skipped::SkippedCounts;
use crate::tcp::{FoundSegment, segment_of};
use crate::unit::{Unit, awaited_length, unit_of};
use dist_frames::ByteQueue;
use std::alloc::{AllocError, Global};
use std::marker::Model;

/// Reads a capture as it comes, in pieces of any length: pcap of both byte orders, in micro- and nanoseconds, or pcapng.
///
/// It keeps what came of the next packet or block, of which each has at most 16,777,216 bytes, and the interfaces of the section.
#[derive(Drop)]
pub struct Capture {
    alloc: Global,
    format: Format,
    interfaces: Vec<Interface>,
    // The bytes that came and were not read.
    bytes: ByteQueue,
    counts: SkippedCounts,
}

impl Model for Capture {
    ghost use Rattle.dist_capture.specs.Reading.{Reading};

    ghost Value = { Reading };

    ghost view = { λ c. record { format = c.format; interfaces = c.interfaces.items; pending = c.bytes; counts = c.counts } };
}

// The segment with its time and its own copy of the payload.
fn copy(alloc: Global, time: u64, found: FoundSegment<'_>) -> Result<Segment, AllocError>
    ensures { IfOk result (λ s. view_of s ≡ (time, said_of found.entry)) }
{
    Ok(Segment {
        time,
        from: found.from,
        to: found.to,
        sequence: found.sequence,
        acknowledges: found.acknowledges,
        window: found.window,
        is_syn: found.is_syn,
        is_ack: found.is_ack,
        is_fin: found.is_fin,
        is_reset: found.is_reset,
        payload: Vec::from_slice(alloc, found.payload)?,
        missing: found.missing,
    })
}

impl Capture {
    /// A reader to which nothing came. It takes no memory.
    pub fn new(alloc: Global) -> Capture
        ensures { result ≡ unread }
    {
        Capture {
            alloc,
            format: Format::Unknown,
            interfaces: Vec::new(alloc),
            bytes: ByteQueue::new(alloc),
            counts: SkippedCounts::NONE,
        }
    }

    /// How many packets gave no segment until now.
    pub fn counts(&self) -> SkippedCounts
        ensures { result ≡ self.now.counts }
    {
        self.counts
    }

    /// Takes the next bytes of the file. An `Err` changes nothing.
    pub fn feed(&mut self, bytes: &[u8]) -> Result<(), AllocError>
        ensures ok { OnOk result (self.new ≡ with_bytes self.old bytes.now) }
        ensures err { OnErr result (self.new ≡ self.old) }
    {
        self.bytes.extend(bytes)
    }

    /// Whether a capture that ends here is cut off: inside a packet or a block, or before its header was whole.
    pub fn is_cut_off(&self) -> bool
        ensures { result ≡ is_cut_off self.now }
    {
        matches!(self.format, Format::Unknown) || self.bytes.len() > 0
    }

    // How many bytes the next unit has, where it is whole.
    fn whole(&self) -> Result<Option<usize>, CaptureFault>
        ensures value { result ≡ whole self.now }
        ensures len { IfOk result (λ len. IfSome len (λ n. (0 < n) × (n ≤ length self.now.pending))) }
    {
        let bytes = self.bytes.as_slice();
        let len = awaited_length(self.format, bytes)?;
        Ok(if bytes.len() < len { None } else { Some(len) })
    }

    // Notes what is not a packet.
    fn note(&mut self, unit: Unit) -> Result<(), AllocError>
        ensures ok { OnOk result (self.new ≡ noted self.old unit) }
        ensures err { OnErr result (self.new ≡ self.old) }
    {
        match unit {
            Unit::File(order, nano, link) => self.format = Format::Pcap(order, nano, link),
            Unit::Section(order) => {
                self.format = Format::Pcapng(order);
                self.interfaces.clear();
            }
            Unit::Described(interface) => self.interfaces.push(interface)?,
            Unit::Packet { .. } | Unit::Other => {}
        }
        Ok(())
    }

    // Reads the packet of the first bytes, of a link of this type.
    fn take_packet(
        &mut self,
        unit_len: usize,
        time: u64,
        link: u32,
        at: usize,
        len: usize,
    ) -> Result<Option<Segment>, CaptureFault>
        requires unit { unit_len ≤ length self.old.pending }
        requires packet { at + len ≤ unit_len }
        ensures segment { IfOk result (λ s. option_map view_of s ≡ timed time (segment_of link (part at len (take unit_len self.old.pending)))) }
        ensures ok { OnOk result (self.new ≡ with_packet self.old unit_len (segment_of link (part at len (take unit_len self.old.pending)))) }
        ensures memory { IfErr result (λ e. e ≡ CaptureFault.NoMemory) }
        ensures err { OnErr result (self.new ≡ self.old) }
    {
        let (unit, _) = self.bytes.as_slice().split_at(unit_len);
        match segment_of(link, slice(unit, at, len)) {
            Ok(found) => {
                let segment = copy(self.alloc, time, found)?;
                self.bytes.drop_front(unit_len);
                Ok(Some(segment))
            }
            Err(skipped) => {
                self.counts.add(skipped);
                self.bytes.drop_front(unit_len);
                Ok(None)
            }
        }
    }

    // Reads the first bytes, which are a unit.
    fn take_unit(&mut self, len: usize) -> Result<Option<Segment>, CaptureFault>
        requires whole { whole self.old ≡ Ok (Some len) }
        requires len { len ≤ length self.old.pending }
        ensures ok { IfOk result (λ s. Gives self.old (option_map view_of s) self.new) }
        ensures fails { IfErr result (FailsAt self.old) }
        ensures err { OnErr result (self.new ≡ self.old) }
    {
        let (bytes, _) = self.bytes.as_slice().split_at(len);
        let unit = unit_of(self.format, &self.interfaces, bytes)?;
        if let Unit::Packet {
            time,
            link,
            at,
            len: size,
        } = unit
        {
            return self.take_packet(len, time, link, at, size);
        }
        self.note(unit)?;
        self.bytes.drop_front(len);
        Ok(None)
    }

    /// The next TCP segment that is whole in what was fed; `None` where more bytes are wanted. Packets without one are passed over and
    /// counted. A fault of the capture comes again at the next call; an `Err` loses nothing.
    pub fn next(&mut self) -> Result<Option<Segment>, CaptureFault>
        ensures ok { IfOk result (λ s. (mid : Reading) × Reads self.old [] mid × EndsAt mid (option_map view_of s) self.new) }
        ensures fails { IfErr result (λ e. Reads self.old [] self.new × FailsAt self.new e) }
    {
        loop {
            let Some(len) = self.whole()? else {
                return Ok(None);
            };
            let segment = self.take_unit(len)?;
            if segment.is_some() {
                return Ok(segment);
            }
        }
    }
}
