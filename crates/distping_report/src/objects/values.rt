//! Values that several kinds of objects share.

ghost use Rattle.std.specs.Prelude.{◌≡◌};
ghost use Rattle.distping_report.specs.Objects.{number, shape_of};

use crate::objects::member::Value;
use dist_flags::Release;
use dist_messages::Status;
use dist_names::Creation;
use dist_talk::{HandshakeVerdict, Unreached};
use std::net::SocketAddr;

/// A number of 16 bits.
pub fn small_number(value: u16) -> Value<'static>
    ensures { shape_of result ≡ number value }
{
    Value::Number(u64::from(value))
}

/// A number, or null.
pub fn number_or_null(value: Option<u16>) -> Value<'static> {
    match value {
        Some(value) => small_number(value),
        None => Value::Null,
    }
}

/// A creation, or null.
pub fn creation_or_null(creation: Option<Creation>) -> Value<'static> {
    match creation {
        Some(creation) => Value::Number(u64::from(creation.0)),
        None => Value::Null,
    }
}

/// An address without its port, or null.
pub fn address_or_null(address: Option<SocketAddr>) -> Value<'static> {
    match address {
        Some(address) => Value::Host(address.ip()),
        None => Value::Null,
    }
}

/// The status that the node sent, or null.
pub fn status_or_null(status: Option<Status>) -> Value<'static> {
    match status {
        Some(status) => Value::Name(status.text()),
        None => Value::Null,
    }
}

/// How a connect ended, if the verdict is about that, or null.
pub fn answer_or_null(verdict: HandshakeVerdict) -> Value<'static> {
    match verdict {
        HandshakeVerdict::MapperRefused | HandshakeVerdict::PortRefused => Value::Text(
            Unreached::Refused.name(),
        ),
        HandshakeVerdict::MapperUnreachable(unreached)
        | HandshakeVerdict::PortUnreachable(unreached) => { Value::Text(unreached.name()) }
        _ => Value::Null,
    }
}

/// The word of a release.
pub fn release_word(release: Release) -> &'static str {
    match release {
        Release::Before23 => "before 23",
        Release::Otp23 => "23",
        Release::Otp24 => "24",
        Release::Otp25 => "25",
        Release::Otp28 => "28",
        Release::Otp29 => "29",
    }
}
