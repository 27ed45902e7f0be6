//! What may listen at a port instead of a node.

ghost use Rattle.std.specs.Prelude.{◌≡◌};
ghost use Rattle.dist_talk.specs.Services.{service_of};

/// What the first two bytes of an answer look like, where they are not the length of a frame of the handshake.
#[derive(Clone, Copy, Debug, PartialEq, Eq)]
pub enum Service {
    /// A record of TLS: an alert or a handshake.
    Tls,
    /// `HT`, as in `HTTP/1.1 400`.
    Http,
    /// `SS`, as in `SSH-2.0`.
    Ssh,
    /// Anything else.
    Other,
}

/// What these two bytes, as a number, look like. Source: RFC 5246 for records of TLS, whose first byte is 0x14 to 0x17 and
/// whose second is 3; the others are the letters that those services begin with.
pub fn service_of(front: u16) -> Service
    ensures { result ≡ service_of front }
{
    match front {
        0x1403 | 0x1503 | 0x1603 | 0x1703 => Service::Tls,
        0x4854 => Service::Http,
        0x5353 => Service::Ssh,
        _ => Service::Other,
    }
}
