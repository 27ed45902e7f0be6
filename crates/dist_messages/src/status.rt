//! The texts of statuses.

ghost use Rattle.std.specs.{Prelude.◌≡◌, List.find};
ghost use Rattle.dist_messages.specs.{Spelling.text_of, Spelling.is_said_by, Reading.has_text, Reading.status_named};

use crate::message::{Side, Status};

impl Status {
    /// Its text in a body.
    pub fn text(self) -> &'static [u8]
        ensures { result.now ≡ text_of self }
    {
        match self {
            Status::Ok => b"ok",
            Status::OkSimultaneous => b"ok_simultaneous",
            Status::Nok => b"nok",
            Status::NotAllowed => b"not_allowed",
            Status::Alive => b"alive",
            Status::True => b"true",
            Status::False => b"false",
        }
    }

    /// Whether this side sends it.
    pub fn is_said_by(self, side: Side) -> bool
        ensures { result ≡ is_said_by self side }
    {
        match self {
            Status::True | Status::False => side == Side::Dialler,
            _ => side == Side::Acceptor,
        }
    }

    fn has_text(self, side: Side, text: &[u8]) -> bool
        ensures { result ≡ has_text side text.now self }
    {
        self.is_said_by(side) && self.text() == text
    }
}

// The first of these that this side sends with this text.
fn first_named(side: Side, text: &[u8], statuses: &[Status]) -> Option<Status>
    ensures { result ≡ find (has_text side text.now) statuses.now }
{
    statuses
        .iter()
        .copied()
        .find(|status| status.has_text(side, text))
}

/// The status of this side that has this text.
pub fn status_named(side: Side, text: &[u8]) -> Option<Status>
    ensures { result ≡ status_named side text.now }
{
    let all = [
        Status::Ok,
        Status::OkSimultaneous,
        Status::Nok,
        Status::NotAllowed,
        Status::Alive,
        Status::True,
        Status::False,
    ];
    first_named(side, text, &all)
}
