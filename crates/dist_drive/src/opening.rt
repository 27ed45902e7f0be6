//! The opening that a peer's version asks for.
ghost use Rattle.std.specs.Prelude.{◌≡◌, nat_lt, if◌then◌else◌};
ghost use Rattle.dist_messages.specs.declared.opening.Opening.TheVariants.{New, Old};

use dist_core::Opening;
use dist_epmd::PortInfo;

/// The version of the handshake that begins with an `N` opening.
const VERSION: u16 = 6;

/// How a node opens the handshake with a peer that the port mapper knows: `n` where the peer knows no version above 5.
///
/// Source: ERTS User's Guide, Distribution Protocol, Distribution Handshake.
pub fn opening_for(peer: &PortInfo) -> Opening
    ensures { result ≡ (if nat_lt peer.now.highest 6 then Old else New) }
{
    if peer.highest < VERSION {
        Opening::Old
    } else {
        Opening::New
    }
}
