//! What a handshake is judged by, beside what was said in it.

ghost use Rattle.std.specs.Prelude.{◌≡◌};
ghost use Rattle.dist_talk.specs.Terms.{has_target, is_other};

use crate::verdict::NoCookie;
use dist_secret::Cookie;

/// Who judges a handshake.
#[derive(Clone, Copy, Debug, PartialEq, Eq)]
pub enum Viewpoint {
    /// The side that dialled.
    Dialler,
    /// The side that was dialled.
    Acceptor,
    /// Neither: it reads a capture of both.
    Capture,
}

/// What a handshake is judged by, beside what was said in it.
#[derive(Clone, Copy)]
pub struct Terms<'a> {
    /// Who judges it.
    pub viewpoint: Viewpoint,
    /// The name of the node that was dialled. If it is not known, the name in the challenge counts as that.
    pub target: Option<&'a [u8]>,
    /// The cookie that both digests are compared with, or why there is none.
    pub cookie: Result<&'a Cookie, NoCookie>,
}

impl Terms<'_> {
    /// Whether this is known to be the name of the node that was dialled.
    pub fn has_target(&self, name: &[u8]) -> bool
        ensures { result ≡ has_target self.now name.now }
    {
        match self.target {
            Some(target) => name == target,
            None => false,
        }
    }

    /// Whether this is known not to be that name.
    pub fn is_other(&self, name: &[u8]) -> bool
        ensures { result ≡ is_other self.now name.now }
    {
        match self.target {
            Some(target) => name != target,
            None => false,
        }
    }
}
