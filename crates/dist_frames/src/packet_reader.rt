//! The reader of packets.

ghost use Rattle.std.specs.Prelude.{◌≡◌, ℕ, ◌+◌, ◌≤◌, ◌++◌, ◌∷◌, [], length, take, drop};
ghost use Rattle.std.specs.Prelude.{Ok, Err, Some, None, IfOk, IfErr, OnOk, OnErr, MatchOption, option_map, option_copied};
ghost use Rattle.std.specs.Int.{w32};
ghost use Rattle.dist_frames.specs.Stream.{head};
ghost use Rattle.dist_frames.specs.LinkReading.{next_packet, without_next, to_come, with_piece, reading, HasNext, MayFail};

use crate::byte_queue::ByteQueue;
use crate::packet_error::PacketError;
use std::alloc::{AllocError, Global};
use std::marker::Model;

/// A reader of the packets of a link, to which bytes come in any pieces.
///
/// The packets do not depend on the cuts between the pieces. A byte is copied in once, moved at most once on average, and
/// copied out once by `next_packet`, or looked at in place by `front`.
#[derive(Drop)]
pub struct Packets {
    // Where the packets that are moved out are copied to.
    alloc: Global,
    // How many bytes a packet may have.
    most: usize,
    // The bytes that came and were not moved out.
    bytes: ByteQueue,
}

impl Model for Packets {
    ghost use Rattle.dist_frames.specs.LinkReading.{Reading, reading};

    ghost Value = { Reading };

    ghost view = { λ p. reading p.most p.bytes };
}

// The length in the first 4 bytes.
fn length_in_front(pending: &[u8]) -> usize
    requires { 4 ≤ length pending.now }
    ensures { result ≡ head w32 pending.now }
{
    let (header, _) = pending.split_at(4);
    u32::from_be_bytes([header[0], header[1], header[2], header[3]]) as usize
}

// How many bytes the next packet has, where it is whole.
fn next_len(pending: &[u8], most: usize) -> Result<Option<usize>, PacketError>
    ensures ok { IfOk result (HasNext (reading most pending.now)) }
    ensures err { IfErr result (λ e. (next_packet (reading most pending.now) ≡ Err e) × (without_next (reading most pending.now) ≡ reading most pending.now)) }
{
    if pending.len() < 4 {
        return Ok(None);
    }
    let len = length_in_front(pending);
    if len > most {
        return Err(PacketError::TooLong(len));
    }
    if pending.len() - 4 < len {
        return Ok(None);
    }
    Ok(Some(len))
}

impl Packets {
    /// A reader that takes packets of at most this many bytes, not counting their lengths. It takes no memory.
    pub fn new(alloc: Global, most: usize) -> Packets
        ensures { result ≡ reading most [] }
    {
        Packets {
            alloc,
            most,
            bytes: ByteQueue::new(alloc),
        }
    }

    /// The same, fed with the bytes that stood behind the last frame of the handshake. It takes no memory.
    pub fn behind_handshake(alloc: Global, most: usize, rest: Vec<u8>) -> Packets
        ensures { result ≡ reading most rest.items }
    {
        Packets {
            alloc,
            most,
            bytes: ByteQueue::from_vec(rest),
        }
    }

    /// Takes the next piece of the stream, of any number of bytes. An `Err` changes nothing.
    pub fn feed(&mut self, piece: &[u8]) -> Result<(), AllocError>
        ensures ok { OnOk result (self.new ≡ with_piece self.old piece.now) }
        ensures err { OnErr result (self.new ≡ self.old) }
    {
        self.bytes.extend(piece)
    }

    /// The packet that `next_packet` would move out, in place. `None` where it is not yet whole. `Err` where it is longer than
    /// the reader takes, as soon as its length has come.
    pub fn front(&self) -> Result<Option<&[u8]>, PacketError>
        ensures ok { IfOk result (λ packet. next_packet self.now ≡ Ok (option_copied packet)) }
        ensures err { IfErr result (λ e. next_packet self.now ≡ Err e) }
    {
        let pending = self.bytes.as_slice();
        match next_len(pending, self.most)? {
            Some(len) => {
                let (_, behind) = pending.split_at(4);
                let (packet, _) = behind.split_at(len);
                Ok(Some(packet))
            }
            None => Ok(None),
        }
    }

    /// Drops the packet that `front` returns, which counts as moved out. Without one it changes nothing.
    pub fn drop_front(&mut self)
        ensures { self.new ≡ without_next self.old }
    {
        if let Ok(Some(len)) = next_len(self.bytes.as_slice(), self.most) {
            self.bytes.drop_front(4 + len);
        }
    }

    /// Moves the next packet out. `None` where it is not yet whole, and then nothing changes. `Err` where it is longer than the
    /// reader takes, as soon as its length has come, or where it is whole and no memory is left for it; and then nothing
    /// changes.
    pub fn next_packet(&mut self) -> Result<Option<Vec<u8>>, PacketError>
        ensures ok { IfOk result (λ packet. (next_packet self.old ≡ Ok (option_map (λ p. p.items) packet)) × (self.new ≡ without_next self.old)) }

        // It is the first of the packets still to come.
        ensures first { IfOk result (λ packet. MatchOption (option_map (λ p. p.items) packet)
            (to_come self.old ≡ [])
            (λ p. to_come self.old ≡ p ∷ to_come self.new)) }
        ensures fails { IfErr result (MayFail self.old) }
        ensures err { OnErr result (self.new ≡ self.old) }
    {
        let Some(packet) = self.front()? else {
            return Ok(None);
        };
        let Ok(packet) = Vec::from_slice(self.alloc, packet) else {
            return Err(PacketError::NoMemory);
        };
        self.drop_front();
        Ok(Some(packet))
    }
}
