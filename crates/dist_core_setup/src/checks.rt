//! What a node's setup decides: what it announces and requires, its digests, and the checks on a name.
ghost use Rattle.std.specs.Prelude.{◌≡◌, IfOk, OnErr, true, false, Ok, Err, Some, None};
ghost use Rattle.dist_core_setup.specs.Rules.{announced_by, required_of, knows_six, form_of_old, opens_new, own_digest};
ghost use Rattle.dist_core_setup.specs.Rules.{is_good, is_allowed, is_refused, GoodName};

use crate::setup::{NameList, Setup};
use crate::version::Version;
use dist_messages::Form;
use dist_names::{Flags, NameError, NodeName};
use dist_secret::digest;
use std::alloc::{AllocError, Global};

// The flags that a node of version 5 may announce: 32 bits, without `DFLAG_HANDSHAKE_23`.
const FLAGS_OF_FIVE: u64 = 0xfeffffff;

/// Whether the node knows version 6.
pub fn knows_six(setup: &Setup) -> bool
    ensures { result ≡ knows_six setup.now }
{
    match setup.version {
        Version::Six => true,
        Version::Five => false,
    }
}

/// The flags that the node announces: those of its setup with `DFLAG_HANDSHAKE_23`, without `DFLAG_NAME_ME`; if it knows only
/// version 5, the lower 32 of them without `DFLAG_HANDSHAKE_23`.
#[tactic(auto, unfolding(crate::specs::Rules::announced_by))]
pub fn announced_by(setup: &Setup) -> Flags
    ensures { result ≡ record { 0 = announced_by setup.now } }
{
    match setup.version {
        Version::Six => setup.flags.announced(),
        Version::Five => setup.flags.common(Flags(FLAGS_OF_FIVE)),
    }
}

/// What is required of a peer: what the setup requires and `DFLAG_HANDSHAKE_23`; of an old name that a complement will follow
/// only the lower half; in a handshake of version 5 what the setup requires.
#[tactic(auto, unfolding(crate::specs::Rules::required_of))]
pub fn required_of(setup: &Setup, form: Form) -> Flags
    ensures { result.0 ≡ required_of setup.now form }
{
    match form {
        Form::New => setup.required.required(),
        Form::Old => Flags(setup.required.required().low() as u64),
        Form::Five => setup.required,
    }
}

/// The form of the handshake that an old name with these flags opens.
pub fn form_of_old(setup: &Setup, flags: Flags) -> Form
    ensures { result ≡ form_of_old setup.now flags.0 }
{
    if knows_six(setup) && flags.has(Flags::HANDSHAKE_23) {
        Form::Old
    } else {
        Form::Five
    }
}

/// Whether the node opens with the newer name where it was asked to open in this form. A node of version 5 never does.
pub fn opens_new(setup: &Setup, form: Form) -> bool
    ensures { result ≡ opens_new setup.now form }
{
    match form {
        Form::New => knows_six(setup),
        Form::Old | Form::Five => false,
    }
}

/// The digest of a challenge that is sent to this peer or expected from it, by the cookie for this peer (ERTS User's Guide,
/// Distribution Handshake).
#[tactic(auto, unfolding(crate::specs::Rules::own_digest))]
pub fn own_digest(setup: &Setup, peer: &NodeName, challenge: u32) -> [u8; 16]
    ensures { result ≡ own_digest setup.now peer.now challenge }
{
    digest(setup.cookies.for_peer(peer), challenge)
}

/// The name in these bytes, where they are one.
#[tactic(auto, unfolding(crate::specs::Rules::is_good))]
pub fn good_name(alloc: Global, name: &[u8]) -> Result<Option<NodeName>, AllocError>
    ensures ok { IfOk result (λ found. GoodName found name.now) }
    ensures memory { OnErr result (is_good name.now ≡ true) }
{
    match NodeName::new(alloc, name) {
        Ok(name) => Ok(Some(name)),
        Err(NameError::NoMemory) => Err(AllocError),
        Err(_) => Ok(None),
    }
}

/// Whether a good name is refused: it asks to be given a name, lacks a required flag, is the own name, isn't among those that
/// may connect, or finds no room for its entry, as `full` says. `good_name` finds out whether bytes are a name at all.
pub fn is_refused(setup: &Setup, required: Flags, full: bool, flags: Flags, name: &NodeName) -> bool
    ensures { result ≡ is_refused setup.now required.0 full flags name.now }
{
    let bytes = name.bytes();
    flags.has(Flags::NAME_ME)
        || !flags.has(required)
        || setup.name.is_same(name)
        || !is_allowed(&setup.allow, bytes)
        || full
}

fn is_allowed(allow: &Option<NameList>, name: &[u8]) -> bool
    ensures { result ≡ is_allowed allow.now name.now }
{
    match allow {
        None => true,
        Some(names) => names.lists(name),
    }
}
