//! Cause and remedy of a probe's result: those of its verdict, and what the probe found out that they leave open.

use crate::asked::Dial;
use crate::found::{Found, ProbeOutcome};
use dist_messages::Side;
use dist_names::quote;
use dist_talk::{AwaitedMessage, HandshakeVerdict};
use std::alloc::{AllocError, Global};

// From how many seconds on an end after our reply is late: a node of OTP that rejects it closes within milliseconds. Our own choice.
const LATE: u64 = 1;

// The most bytes of a strange status that are printed. Our own choice.
const MOST_OF_STATUS: usize = 64;

const NO_TUNNEL: &str =
    "nothing takes connections at the tunnel's port, that of --tls-through: the node was not reached";

const OPEN_TUNNEL: &str =
    "open the tunnel anew for each run, at the address and the port of --tls-through (distping-tls opens one of its own)";

// Whether the probe did not get into its tunnel.
fn has_no_tunnel(dial: &Dial<'_>, verdict: HandshakeVerdict) -> bool {
    dial.choices.is_tunnelled
        && matches!(
            verdict,
            HandshakeVerdict::PortRefused | HandshakeVerdict::PortUnreachable(_)
        )
}

// The cause, and the word of a status that no node sends, if one came.
fn with_status(alloc: Global, cause: &str, found: &Found) -> Result<String, AllocError> {
    let Some(word) = found.strange_status() else {
        return String::from_str(alloc, cause);
    };
    let quoted = quote(alloc, word.get(..MOST_OF_STATUS).unwrap_or(word))?;
    format!(in alloc; "{cause}: the status {quoted}")
}

// The cause, and how long after our reply the connection was closed, if that is late.
fn with_delay(alloc: Global, cause: &str, found: &Found) -> Result<String, AllocError> {
    match found.ended_after {
        Some(time) if time.as_secs() >= LATE => {
            let seconds = time.as_secs();
            format!(in alloc;
                "{cause}, but {seconds} s after it, and a node of OTP does so within milliseconds: perhaps not because of the cookie"
            )
        }
        _ => String::from_str(alloc, cause),
    }
}

/// What happened, in a sentence without a full stop, safe to print.
pub fn cause_of(
    alloc: Global,
    dial: &Dial<'_>,
    outcome: &ProbeOutcome,
) -> Result<String, AllocError> {
    let cause = outcome.verdict.cause();
    match outcome.verdict {
        verdict if has_no_tunnel(dial, verdict) => String::from_str(alloc, NO_TUNNEL),
        HandshakeVerdict::Unexpected(AwaitedMessage::Status) => {
            with_status(alloc, cause, &outcome.found)
        }
        HandshakeVerdict::WrongCookie(Side::Acceptor) => with_delay(alloc, cause, &outcome.found),
        HandshakeVerdict::Withdrawn(Side::Acceptor) => String::from_str(
            alloc,
            "the node ended the connection before it had our digest: the cookie was not compared",
        ),
        _ => String::from_str(alloc, cause),
    }
}

/// What can be done about it.
pub fn remedy_of(dial: &Dial<'_>, verdict: HandshakeVerdict) -> &'static str {
    if has_no_tunnel(dial, verdict) {
        OPEN_TUNNEL
    } else {
        verdict.remedy()
    }
}
