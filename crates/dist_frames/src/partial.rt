//! Packets of a linked stream: bytes behind their length in 4 bytes, the greater byte first. The length does not count
//! itself. A packet of no bytes is a tick, by which a node shows that it is alive. Of a packet that has not ended only the
//! number of bytes still to come is kept.

ghost use Rattle.std.specs.Prelude.{◌≡◌, ℕ, ◌+◌, ◌<◌, ◌≤◌, ◌==◌, ◌++◌, [], length, take, drop, if◌then◌else◌};
ghost use Rattle.std.specs.Int.{w32, to_be_bytes};
ghost use Rattle.dist_frames.specs.{Stream.body_frame, Stream.packets, Stream.partial, Reader.capped_count, Kept.kept_of};

use std::marker::Model;

/// The packet of no bytes: `00000000`.
pub fn tick() -> [u8; 4]
    ensures { result ≡ body_frame w32 [] }
{
    [0; 4]
}

/// What came of the packet that has not ended: at most three bytes of its length, or how many bytes are still to come.
#[derive(Drop)]
pub struct Partial {
    // How many bytes are still to come, once the length has come.
    owed: u32,
    // The bytes of the length that came, and how many they are.
    header: [u8; 4],
    len: usize,
}

impl Model for Partial {
    ghost use Rattle.std.specs.Prelude.{ℕ, List, ◌<◌};
    ghost use Rattle.dist_frames.specs.Kept.{kept_of};

    ghost Value = { List ℕ };

    ghost view = { λ p. kept_of p.owed p.header p.len };

    ghost invariant = { λ p. p.len < 4 };
}

impl Partial {
    /// Nothing of the next packet has come.
    pub fn new() -> Partial
        ensures { result ≡ [] }
    {
        Partial {
            owed: 0,
            header: [0; 4],
            len: 0,
        }
    }

    // Takes the first bytes of the piece that belong to the packet. Returns whether it ended, and how many they are.
    fn take(&mut self, piece: &[u8]) -> (bool, usize)
        requires { 0 < length piece.now }
        ensures used { result.1 ≤ length piece.now }
        ensures some { 0 < result.1 }
        ensures count { packets (self.old ++ piece.now) ≡ (if result.0 then 1 else 0) + packets (self.new ++ drop result.1 piece.now) }
        ensures left { partial (self.old ++ piece.now) ≡ partial (self.new ++ drop result.1 piece.now) }
    {
        if self.owed > 0 {
            let (owed, used) = take_body(self.owed, piece);
            self.owed = owed;
            self.len = 0;
            return (owed == 0, used);
        }
        let used = piece.len().min(4 - self.len);
        self.header = fill(self.header, self.len, used, piece);
        self.len += used;
        if self.len < 4 {
            return (false, used);
        }
        self.owed = number_of(self.header);
        self.len = 0;
        (self.owed == 0, used)
    }
}

impl Partial {
    /// Takes all bytes of a piece, and returns how many packets ended with them.
    pub fn feed(&mut self, piece: &[u8]) -> usize
        ensures count { result ≡ capped_count (packets (self.old ++ piece.now)) }
        ensures left { self.new ≡ partial (self.old ++ piece.now) }
    {
        let mut rest = piece;
        let mut count = 0usize;
        while !rest.is_empty() {
            let (ended, used) = self.take(rest);
            count = count.saturating_add(ended as usize);
            let (_, behind) = rest.split_at(used);
            rest = behind;
        }
        self.settle();
        count
    }

    // What is kept begins with no whole packet, and is as short as it can be.
    fn settle(&self)
        ensures none { packets self.now ≡ 0 }
        ensures short { partial self.now ≡ self.now }
    {
        let _owed = self.owed;
    }
}

// How many bytes of the piece belong to the packet, and how many are still to come after them.
fn take_body(owed: u32, piece: &[u8]) -> (u32, usize)
    requires { 0 < owed }
    ensures used { result.1 ≤ length piece.now }
    ensures some { 0 < length piece.now → 0 < result.1 }
    ensures count { packets (to_be_bytes w32 owed ++ piece.now)
        ≡ (if result.0 == 0 then 1 else 0) + packets (kept_of result.0 [] 0 ++ drop result.1 piece.now) }
    ensures left { partial (to_be_bytes w32 owed ++ piece.now) ≡ partial (kept_of result.0 [] 0 ++ drop result.1 piece.now) }
{
    if (owed as usize) <= piece.len() {
        (0, owed as usize)
    } else {
        (owed - piece.len() as u32, piece.len())
    }
}

// The header with the first bytes of the piece added behind those that came.
fn fill(header: [u8; 4], len: usize, used: usize, piece: &[u8]) -> [u8; 4]
    requires room { len + used ≤ 4 }
    requires there { used ≤ length piece.now }
    ensures filled { take (len + used) result ≡ take len header ++ take used piece.now }
    ensures len { length result ≡ 4 }
{
    let mut filled = header;
    filled[len..len + used].copy_from_slice(&piece[..used]);
    filled
}

fn number_of(header: [u8; 4]) -> u32
    ensures { to_be_bytes w32 result ≡ header }
{
    u32::from_be_bytes(header)
}
