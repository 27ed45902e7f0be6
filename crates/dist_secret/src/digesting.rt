ghost use Rattle.std.specs.Prelude.{◌≡◌};
ghost use Rattle.dist_secret.specs.Digest.{digest_of};

use crate::cookie::Cookie;
use itoa::Buffer;
use md5::{Digest, Md5};

/// The digest by which a node shows that it has the cookie: MD5 of the cookie's bytes and then the challenge in decimal
/// digits, without leading zeros (ERTS User's Guide, Distribution Handshake).
///
/// It takes no memory, so it cannot fail.
pub fn digest(cookie: &Cookie, challenge: u32) -> [u8; 16]
    ensures { result ≡ digest_of cookie.now challenge }
{
    let mut buffer = Buffer::new();
    let mut hasher = Md5::new();
    hasher.update(cookie.bytes());
    hasher.update(buffer.format(challenge).as_bytes());
    hasher.finalize()
}
