//! The digests of replies, right ones and wrong ones.

ghost use Rattle.std.specs.Prelude.{◌≡◌, ◌<◌, ◌++◌};
ghost use Rattle.md5.specs.Md5.{md5};
ghost use Rattle.dist_conformance.specs.Judging.{digest_of};

use dist_secret::Cookie;
use itoa::Buffer;
use md5::{Digest, Md5};

/// Which digest a reply has. All but the first are wrong.
#[derive(Clone, Copy)]
pub enum ReplyDigest {
    /// `right`: of the cookie, and then the challenge in decimal digits.
    Right,
    /// `wrong`: of another cookie, which has an `x` more.
    Wrong,
    /// `newline`: of the cookie with a line feed behind it, as a file may have it.
    Newline,
    /// `nocookie`: of the digits alone.
    NoCookie,
    /// `swapped`: of the digits, and then the cookie.
    Swapped,
    /// `raw`: of the cookie, and then the challenge in 4 bytes.
    Raw,
    /// `other`: of the challenge with its last bit changed.
    Other,
    /// `earlier`: of the first number that came in this talk, on any connection.
    Earlier,
    /// `flip`: the right one with the last bit of its first byte changed.
    FlipFirst,
    /// `flipend`: the right one with the first bit of its last byte changed.
    FlipLast,
    /// `zero`: 16 zeros.
    Zero,
    /// `behindzero`: the right one with the last bit of its last byte changed. It is said only where one of the bytes before that is 0.
    BehindZero,
}

/// The words of all but the right one.
pub const DIGESTS: [(&str, ReplyDigest); 11] = [
    ("wrong", ReplyDigest::Wrong),
    ("newline", ReplyDigest::Newline),
    ("nocookie", ReplyDigest::NoCookie),
    ("swapped", ReplyDigest::Swapped),
    ("raw", ReplyDigest::Raw),
    ("other", ReplyDigest::Other),
    ("earlier", ReplyDigest::Earlier),
    ("flip", ReplyDigest::FlipFirst),
    ("flipend", ReplyDigest::FlipLast),
    ("zero", ReplyDigest::Zero),
    ("behindzero", ReplyDigest::BehindZero),
];

// MD5 of three pieces.
fn md5_of(first: &[u8], second: &[u8], third: &[u8]) -> [u8; 16]
    ensures { result ≡ md5 (first.now ++ second.now ++ third.now) }
{
    let mut hasher = Md5::new();
    hasher.update(first);
    hasher.update(second);
    hasher.update(third);
    hasher.finalize()
}

/// The digest of a cookie and a challenge: MD5 of the cookie, and then the challenge in decimal digits.
pub fn digest(cookie: &Cookie, challenge: u32) -> [u8; 16]
    ensures { result ≡ digest_of cookie.now challenge }
{
    let mut buffer = Buffer::new();
    md5_of(cookie.bytes(), b"", buffer.format(challenge).as_bytes())
}

// The digest with these bits of one byte changed.
fn with_bit(mut digest: [u8; 16], place: usize, bit: u8) -> [u8; 16]
    requires { place < 16 }
{
    digest[place] ^= bit;
    digest
}

/// The digest of a reply to this challenge, if there is one. `earlier` is the first number of the talk.
pub fn digest_to_say(
    kind: ReplyDigest,
    cookie: &Cookie,
    challenge: u32,
    earlier: u32,
) -> Option<[u8; 16]> {
    let mut buffer = Buffer::new();
    let digits = buffer.format(challenge).as_bytes();
    let right = digest(cookie, challenge);
    Some(match kind {
        ReplyDigest::Right => right,
        ReplyDigest::Wrong => md5_of(cookie.bytes(), b"x", digits),
        ReplyDigest::Newline => md5_of(cookie.bytes(), b"\n", digits),
        ReplyDigest::NoCookie => md5_of(b"", b"", digits),
        ReplyDigest::Swapped => md5_of(b"", digits, cookie.bytes()),
        ReplyDigest::Raw => md5_of(b"", cookie.bytes(), &challenge.to_be_bytes()),
        ReplyDigest::Other => digest(cookie, challenge ^ 1),
        ReplyDigest::Earlier => digest(cookie, earlier),
        ReplyDigest::FlipFirst => with_bit(right, 0, 1),
        ReplyDigest::FlipLast => with_bit(right, 15, 128),
        ReplyDigest::Zero => [0; 16],
        ReplyDigest::BehindZero if right[..15].contains(&0) => with_bit(right, 15, 1),
        ReplyDigest::BehindZero => return None,
    })
}
