ghost use Rattle.std.specs.Prelude.{◌≡◌, ◌↔◌, ◌&&◌, IsTrue, Some, None, bit_and, length, nat_le, if◌then◌else◌};
ghost use Rattle.std.specs.Str.Parse.{digits_value};
ghost use Rattle.dist_names.specs.Digits.{flags_in, is_numeral};
ghost use Rattle.dist_names.specs.Flags.{low_half, high_half, of_halves, announced, required, common, has_all};

use crate::numbers::number_in;

/// The most digits of flags, which have 64 bits.
const MOST_DIGITS: usize = 16;

// The number that 1 to 16 hexadecimal digits write.
fn flags_value(word: &[u8]) -> Option<u64>
    ensures { result ≡ (if is_numeral 16 word.now && nat_le (length word.now) 16 then Some (digits_value 16 word.now) else None) }
{
    if word.len() > MOST_DIGITS {
        return None;
    }
    number_in(word, 16)
}

/// The abilities that a node announces or requires, one bit each, named `DFLAG_..` in Erlang/OTP.
///
/// Source: ERTS User's Guide, Distribution Protocol, Distribution Flags. Only two bits mean something here,
/// [`Flags::HANDSHAKE_23`] and [`Flags::NAME_ME`]; the others are carried and intersected.
#[derive(Clone, Copy, Debug, PartialEq, Eq)]
pub struct Flags(pub u64);

impl Flags {
    /// `DFLAG_HANDSHAKE_23`: the node speaks the handshake of version 6.
    pub const HANDSHAKE_23: Flags = Flags(0x1000000);

    /// `DFLAG_NAME_ME`: the node asks to be given a name.
    pub const NAME_ME: Flags = Flags(0x200000000);

    /// The flags of these two halves.
    pub fn of_halves(high: u32, low: u32) -> Flags
        ensures { result.0 ≡ of_halves high low }
    {
        Flags((high as u64) << 32 | low as u64)
    }

    /// The flags that a word writes: 1 to 16 hexadecimal digits of either case.
    pub fn of_digits(word: &[u8]) -> Option<Flags>
        ensures { result ≡ flags_in word.now }
    {
        match flags_value(word) {
            Some(flags) => Some(Flags(flags)),
            None => None,
        }
    }

    /// The lower 32 bits, as an old name or an old challenge carries them.
    pub fn low(self) -> u32
        ensures { result ≡ low_half self.0 }
    {
        (self.0 % (1 << 32)) as u32
    }

    /// The upper 32 bits, as a complement carries them.
    pub fn high(self) -> u32
        ensures { result ≡ high_half self.0 }
    {
        (self.0 >> 32) as u32
    }

    /// The flags that both have.
    pub fn common(self, other: Flags) -> Flags
        ensures { result.0 ≡ common self.0 other.0 }
    {
        Flags(self.0 & other.0)
    }

    /// Whether each of these flags is set.
    pub fn has(self, wanted: Flags) -> bool
        ensures computed { result ≡ has_all self.0 wanted.0 }
        ensures each { IsTrue result ↔ (bit_and self.0 wanted.0 ≡ wanted.0) }
    {
        self.0 & wanted.0 == wanted.0
    }

    /// What a node that is set up with these flags announces.
    pub fn announced(self) -> Flags
        ensures { result.0 ≡ announced self.0 }
    {
        Flags((self.0 | Flags::HANDSHAKE_23.0) & !Flags::NAME_ME.0)
    }

    /// What a node that is set up to require these flags requires of a peer.
    pub fn required(self) -> Flags
        ensures { result.0 ≡ required self.0 }
    {
        let handshake = Flags::HANDSHAKE_23;
        Flags(self.0 | handshake.0)
    }
}
