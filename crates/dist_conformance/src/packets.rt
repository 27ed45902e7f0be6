//! Packets of a linked stream, each behind its length in 4 bytes.

ghost use Rattle.std.specs.{Prelude.◌≡◌, Prelude.◌<◌, Prelude.length};
ghost use Rattle.dist_conformance.specs.Packets.{packet_step, packets_of, is_part};

/// How far a stream of packets has come.
#[derive(Clone, Copy)]
pub struct PacketState {
    /// The bytes of a length that came, as a number behind a 1: 1 where none came.
    pub length: u64,
    /// How many bytes of a packet are still to come.
    pub left: u64,
    /// Whether none of them has come yet.
    pub is_new: bool,
    /// How many packets were empty.
    pub ticks: usize,
    /// Whether a packet began with another byte than 112 and 131.
    pub is_bad: bool,
}

// The four bytes of a length that have come.
const WHOLE: u64 = 1 << 32;

impl PacketState {
    // One byte more.
    fn step(self, byte: u8) -> PacketState
        requires { self.ticks < usize.MAX }
        ensures { result ≡ packet_step self byte }
    {
        if self.left > 0 {
            let is_other = self.is_new && byte != 112 && byte != 131;
            return PacketState {
                left: self.left - 1,
                is_new: false,
                is_bad: self.is_bad || is_other,
                ..self
            };
        }
        let length = (self.length % WHOLE) * 256 + u64::from(byte);
        if length < WHOLE {
            return PacketState { length, ..self };
        }
        let is_tick = length == WHOLE;
        PacketState {
            length: 1,
            left: length - WHOLE,
            is_new: true,
            ticks: if is_tick { self.ticks + 1 } else { self.ticks },
            ..self
        }
    }

    /// Whether a packet, or its length, has come in part.
    pub fn is_part(&self) -> bool
        ensures { result ≡ is_part self.now }
    {
        self.left > 0 || self.length != 1
    }
}

/// How far these bytes come, which begin with a packet.
pub fn packets_of(came: &[u8]) -> PacketState
    ensures { result ≡ packets_of came.now }
{
    let mut state = PacketState {
        length: 1,
        left: 0,
        is_new: false,
        ticks: 0,
        is_bad: false,
    };
    for byte in came {
        state = state.step(*byte);
    }
    state
}
