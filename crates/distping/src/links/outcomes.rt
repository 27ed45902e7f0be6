//! The result of trying the addresses of a host.

ghost use Rattle.std.specs.Prelude.{◌≡◌, ◌<◌, [], None, length, is_some};
ghost use Rattle.distping.specs.{Places.host_verdict, Trying.IsFurthest};
ghost use Rattle.dist_talk.specs.declared.verdict.{Unresolved.TheVariants.NoName, HandshakeVerdict.TheVariants.NoHost};

use crate::links::tries::Tries;
use dist_program::HostError;
use dist_talk::{HandshakeVerdict, Unresolved, furthest};
use distping_report::{Found, ProbeOutcome};
use distping_words::Choices;
use std::alloc::Global;
use std::net::SocketAddr;

impl Tries {
    /// The result: that of the first of the addresses that got furthest; `NoHost` if there are none.
    pub fn into_outcome(self, addresses: Vec<SocketAddr>) -> ProbeOutcome
        ensures some { 0 < length self.verdicts.items → IsFurthest self result }
        ensures none { length self.verdicts.items ≡ 0 → (result.verdict ≡ NoHost NoName) × (result.found.handshake ≡ None) }
        ensures verdicts { result.verdicts ≡ self.verdicts }
        ensures addresses { result.addresses ≡ addresses }
    {
        let (mut found, verdicts) = (self.found, self.verdicts);
        if verdicts.is_empty() {
            return ProbeOutcome {
                verdict: HandshakeVerdict::NoHost(Unresolved::NoName),
                found: Found::nothing(None),
                addresses,
                verdicts,
            };
        }
        let at = furthest(&verdicts);
        ProbeOutcome {
            verdict: verdicts[at],
            found: found.swap_remove(at),
            addresses,
            verdicts,
        }
    }
}

// The verdict for a host without an address: that of `--address`, if it is given, or that of the node's name.
fn host_verdict(has_address: bool, error: HostError) -> HandshakeVerdict
    ensures { result ≡ host_verdict has_address error }
{
    match error {
        HostError::NoName if has_address => HandshakeVerdict::NoHost(Unresolved::NoAddress),
        HostError::NoName => HandshakeVerdict::NoHost(Unresolved::NoName),
        HostError::Failed => HandshakeVerdict::NoHost(Unresolved::Failed),
        HostError::Silent => HandshakeVerdict::ResolverSilent,
        HostError::NoDescriptors => HandshakeVerdict::NoDescriptors,
        HostError::NoMemory => HandshakeVerdict::NoMemory,
    }
}

/// The result with this verdict if no node was dialled. The port mapper was asked at this address, if at any.
pub fn no_dial(
    alloc: Global,
    address: Option<SocketAddr>,
    verdict: HandshakeVerdict,
) -> ProbeOutcome
    ensures verdict { result.verdict ≡ verdict }
    ensures silent { result.found.handshake ≡ None }
    ensures verdicts { result.verdicts.items ≡ [] }
    ensures addresses { result.addresses.items ≡ [] }
{
    ProbeOutcome {
        verdict,
        found: Found::nothing(address),
        addresses: Vec::new(alloc),
        verdicts: Vec::new(alloc),
    }
}

/// The result if the host has no address.
pub fn no_host(alloc: Global, choices: &Choices<'_>, error: HostError) -> ProbeOutcome
    ensures verdict { result.verdict ≡ host_verdict (is_some choices.now.address) error }
    ensures silent { result.found.handshake ≡ None }
{
    let verdict = host_verdict(choices.address.is_some(), error);
    no_dial(alloc, None, verdict)
}
