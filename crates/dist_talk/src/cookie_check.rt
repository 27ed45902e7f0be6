//! Which sides showed a cookie.

ghost use Rattle.std.specs.Prelude.{◌≡◌};
ghost use Rattle.dist_talk.specs.CookieCheck.{check_of, cookie_check, is_digest_of};

use crate::handshake::{Handshake, SentMessage};
use dist_secret::{Cookie, digest};

/// Which sides showed the cookie of the command line.
#[derive(Clone, Copy, Debug, PartialEq, Eq)]
pub enum CookieCheck {
    /// Both did.
    Both,
    /// The dialling side did, and the other one showed nothing.
    DiallerAlone,
    /// The dialling side showed another one.
    DiallerOther,
    /// The dialling side did, and the other one ended the connection upon its reply.
    Refused,
    /// The dialling side did, and the other one acknowledged with another one.
    AcceptorOther,
    /// Both showed another one.
    Neither,
}

// What follows from whether the reply is right, whether the acknowledgement is, and whether the reply was refused.
fn check_of(reply: bool, ack: Option<bool>, is_refused: bool) -> CookieCheck
    ensures { result ≡ check_of reply ack is_refused }
{
    match (reply, ack) {
        (true, Some(true)) => CookieCheck::Both,
        (true, Some(false)) => CookieCheck::AcceptorOther,
        (true, None) if is_refused => CookieCheck::Refused,
        (true, None) => CookieCheck::DiallerAlone,
        (false, Some(false)) => CookieCheck::Neither,
        (false, _) => CookieCheck::DiallerOther,
    }
}

// Whether a digest is that of this cookie and challenge.
fn is_digest_of(cookie: &Cookie, challenge: u32, said: [u8; 16]) -> bool
    ensures { result ≡ is_digest_of cookie.now challenge said }
{
    digest(cookie, challenge) == said
}

// Which sides showed this cookie, by a challenge, the reply to it, and its acknowledgement.
fn cookie_check(
    cookie: &Cookie,
    challenge: u32,
    reply: (u32, [u8; 16]),
    ack: Option<[u8; 16]>,
    is_refused: bool,
) -> CookieCheck
    ensures { result ≡ cookie_check cookie.now challenge reply ack is_refused }
{
    let (fresh, replied) = reply;
    let ack = match ack {
        Some(said) => Some(is_digest_of(cookie, fresh, said)),
        None => None,
    };
    check_of(is_digest_of(cookie, challenge, replied), ack, is_refused)
}

fn challenge_in(said: &[SentMessage]) -> Option<u32> {
    said.iter().find_map(|sent| sent.content.challenge())
}

fn reply_in(said: &[SentMessage]) -> Option<(u32, [u8; 16])> {
    said.iter().find_map(|sent| sent.content.reply())
}

fn ack_in(said: &[SentMessage]) -> Option<[u8; 16]> {
    said.iter().find_map(|sent| sent.content.ack())
}

impl Handshake {
    /// Which sides showed this cookie, if a challenge and a reply to it were said. `is_refused` says that the reply was refused.
    pub fn check_cookie(&self, cookie: &Cookie, is_refused: bool) -> Option<CookieCheck> {
        let challenge = challenge_in(&self.acceptor)?;
        let reply = reply_in(&self.dialler)?;
        Some(cookie_check(cookie, challenge, reply, ack_in(&self.acceptor), is_refused))
    }
}

impl CookieCheck {
    /// The sentence for a reader.
    pub fn sentence(self) -> &'static str {
        match self {
            CookieCheck::Both => "both sides have this cookie",
            CookieCheck::DiallerAlone =>
                "the dialler has this cookie; the acceptor did not show its own",
            CookieCheck::DiallerOther => "the dialler has another one",
            CookieCheck::Refused =>
                "the dialler has this cookie; the acceptor has another one, if it was not stopped just then",
            CookieCheck::AcceptorOther => "the acceptor has another one",
            CookieCheck::Neither => "neither has it",
        }
    }
}
