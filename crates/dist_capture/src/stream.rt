//! The stream of one direction of a connection.

ghost use Rattle.std.specs.Prelude.{◌≡◌, ◌<◌, ◌+◌, ◌%◌, ◌^◌, [], length, slice_get, is_some, position, IfOk, OnOk, OnErr};
ghost use Rattle.dist_capture.specs.Streams.{awaiting, taken, consumed, new_part, is_near, laid, leading, settled, first_of, known_at};

use crate::places::BytePlaces;
use dist_frames::ByteQueue;
use std::alloc::{AllocError, Global};
use std::marker::Model;

/// The bytes of one direction of a connection, put in order by their sequence numbers. Segments may come in any order, again, and with
/// bytes that came before; of a byte that came twice the first copy counts.
#[derive(Drop)]
pub struct SegmentStream {
    alloc: Global,
    // The sequence number of the byte that is awaited.
    next: u32,
    // The bytes in front of it that were not taken away.
    ready: ByteQueue,
    // What is known of the bytes from it on.
    places: BytePlaces,
    // How far a byte may be behind a gap.
    most: usize,
}

impl Model for SegmentStream {
    ghost use Rattle.std.specs.Prelude.{◌≡◌, true, false, is_some};
    ghost use Rattle.dist_capture.specs.Streams.{Gathering, known_at, ends_known};

    ghost Value = { Gathering };

    ghost view = { λ s. record { next = s.next; ready = s.ready; waiting = s.places; most = s.most } };

    // The awaited byte is not known, and the last one is.
    ghost invariant = { λ s. (is_some (known_at s.places 0) ≡ false) × (ends_known s.places ≡ true) };
}

// The new bytes of a segment, and how far behind the awaited byte they begin.
fn new_part(next: u32, sequence: u32, bytes: &[u8]) -> (usize, &[u8])
    ensures value { (result.0, result.1.now) ≡ new_part next sequence bytes.now }
    ensures place { result.0 < 2 ^ 32 }
{
    let ahead = sequence.wrapping_sub(next);
    if ahead < 0x8000_0000 {
        return (ahead as usize, bytes);
    }
    let old = next.wrapping_sub(sequence) as usize;
    (0, &bytes[old.min(bytes.len())..])
}

// What is known of a byte.
fn known_at(known: &[Option<u8>], i: usize) -> Option<u8>
    ensures { result ≡ known_at known.now i }
{
    if i < known.len() { known[i] } else { None }
}

// What is known of a byte once a segment came that begins at the awaited one.
fn known_with(known: &[Option<u8>], bytes: &[u8], i: usize) -> Option<u8>
    ensures { result ≡ first_of (known_at known.now i) (slice_get bytes.now i) }
{
    match known_at(known, i) {
        Some(byte) => Some(byte),
        None => bytes.get(i).copied(),
    }
}

// The bytes up to the first that is not known once a segment came that begins at the awaited one.
fn leading(alloc: Global, known: &[Option<u8>], bytes: &[u8]) -> Result<Vec<u8>, AllocError>
    ensures { IfOk result (λ front. front.items ≡ leading (laid 0 bytes.now known.now)) }
{
    let mut front = Vec::with_capacity(alloc, bytes.len())?;
    for i in 0..known.len().max(bytes.len()) {
        match known_with(known, bytes, i) {
            Some(byte) => front.push(byte)?,
            None => return Ok(front),
        }
    }
    Ok(front)
}

impl SegmentStream {
    /// A stream to which nothing came. `first` is the sequence number of its first byte, the one behind the SYN; a segment that would
    /// have to wait behind a gap and ends more than `most` bytes behind the byte that is awaited is dropped. It takes no memory.
    pub fn new(alloc: Global, first: u32, most: usize) -> SegmentStream
        ensures { result ≡ awaiting first most }
    {
        SegmentStream {
            alloc,
            next: first,
            ready: ByteQueue::new(alloc),
            places: BytePlaces::new(alloc),
            most,
        }
    }

    // So many more bytes are in order.
    fn advance(&mut self, count: usize)
        ensures { self.new ≡ record self.old { next = (self.old.next + count) % 2 ^ 32 } }
    {
        self.next = self.next.wrapping_add((count % 0x1_0000_0000) as u32);
    }

    // Takes bytes that begin at the awaited one, where others wait behind them.
    fn close_gap(&mut self, bytes: &[u8]) -> Result<(), AllocError>
        ensures ok { OnOk result (self.new ≡ settled self.old (laid 0 bytes.now self.old.waiting)) }
        ensures err { OnErr result (self.new ≡ self.old) }
    {
        let front = leading(self.alloc, self.places.as_slice(), bytes)?;
        self.ready.extend(&front)?;
        self.places.drop_front(front.len());
        self.advance(front.len());
        Ok(())
    }

    /// Takes the bytes of a segment at their sequence number. Returns whether they were near enough; `false` where they were dropped. An
    /// `Err` changes nothing.
    pub fn take(&mut self, sequence: u32, bytes: &[u8]) -> Result<bool, AllocError>
        ensures ok { OnOk result (self.new ≡ taken self.old sequence bytes.now) }
        ensures kept { IfOk result (λ kept. kept ≡ is_near self.old.most (new_part self.old.next sequence bytes.now)) }
        ensures err { OnErr result (self.new ≡ self.old) }
    {
        let (place, bytes) = new_part(self.next, sequence, bytes);
        if place > 0 && place + bytes.len() > self.most {
            return Ok(false);
        }
        if bytes.is_empty() {
            return Ok(true);
        }
        if place > 0 {
            self.places.lay(place, bytes)?;
        } else if self.places.len() == 0 {
            self.ready.extend(bytes)?;
            self.advance(bytes.len());
        } else {
            self.close_gap(bytes)?;
        }
        Ok(true)
    }

    /// The bytes that are in order and were not taken away.
    pub fn ready(&self) -> &[u8]
        ensures { result.now ≡ self.now.ready }
    {
        self.ready.as_slice()
    }

    /// Takes the first `count` bytes that are ready away, or all.
    pub fn consume(&mut self, count: usize)
        ensures { self.new ≡ consumed self.old count }
    {
        self.ready.drop_front(count);
    }

    /// The sequence number of the next byte that is missing or to come, modulo 2^32 (RCV.NXT of RFC 9293, 3.3.1, for one who sees what the
    /// capture has). Once a segment was taken, a FIN or RST in it stands behind a gap if the number of the byte behind its payload is not
    /// this one.
    pub fn next_number(&self) -> u32
        ensures { result ≡ self.now.next }
    {
        self.next
    }

    /// How many bytes it keeps: those that are ready, and behind the first gap all places up to the last byte that came, of which a
    /// missing one takes as much memory as another.
    pub fn waiting(&self) -> usize
        ensures { result ≡ length self.now.ready + length self.now.waiting }
    {
        self.ready().len() + self.places.as_slice().len()
    }

    /// Whether bytes wait behind a gap.
    pub fn has_gap(&self) -> bool
        ensures { result ≡ is_some (position is_some self.now.waiting) }
    {
        self.places.len() > 0
    }

    /// How many bytes are missing behind those that are ready, where others wait behind them. It takes the longer the wider the gap is.
    pub fn gap(&self) -> Option<usize>
        ensures { result ≡ position is_some self.now.waiting }
    {
        self.places
            .as_slice()
            .iter()
            .position(|byte| byte.is_some())
    }
}
