//! What releases of Erlang/OTP announce and require of a peer, and to which release a node's flags belong.

ghost use Rattle.std.specs.Prelude.{◌≡◌};
ghost use Rattle.dist_flags.specs.Releases.{announced_by, with_mandatory, is_just, is_refused_by_all, missing, objection, oldest_refusal};
ghost use Rattle.dist_flags.specs.Releases.{refuses, release_of, required_by, release_shown};

use dist_names::Flags;

/// The release to which a node's flags belong: the newest of those that added a flag that the node announces.
#[derive(Clone, Copy, PartialEq, Eq)]
pub enum Release {
    /// Before OTP 23: no handshake of version 6.
    Before23,
    /// OTP 23.
    Otp23,
    /// OTP 24. The flags that it announces are not known here; what it requires is answered as for 25.
    Otp24,
    /// OTP 25, 26 or 27, which announce the same flags.
    Otp25,
    /// OTP 28. The flags that it announces are not known here.
    Otp28,
    /// OTP 29, or a newer one.
    Otp29,
}

/// What a node's flags show of its release.
#[derive(Clone, Copy, PartialEq, Eq)]
pub enum ReleaseShown {
    /// They are exactly those that this release announces, `PUBLISHED` apart.
    Just(Release),
    /// They are others, and this is the newest release that added one of them: a release whose flags are not known
    /// here, or no node of Erlang/OTP.
    UpTo(Release),
}

impl Release {
    /// The flags that a node of this release announces if it is not hidden, where they are known.
    ///
    /// Source: seen of OTP 23, 25, 27 and 29; 26 announces the same as 25 and 27.
    pub fn announced(self) -> Option<Flags>
        ensures { result ≡ announced_by self }
    {
        match self {
            Release::Otp23 => Some(Flags(0x101df7fbd)),
            Release::Otp25 => Some(Flags(0xd07df7fbd)),
            Release::Otp29 => Some(Flags(0x6d07df7fbd)),
            Release::Before23 | Release::Otp24 | Release::Otp28 => None,
        }
    }

    /// The flags that a node of this release requires of each peer, each by itself. What a release before 23 requires is not
    /// known here, and answered as for 23.
    ///
    /// Source: `dist.hrl` and `erts_internal:get_dflags/0` of OTP 23, 25, 27 and 29.
    pub fn required(self) -> Flags
        ensures { result.0 ≡ required_by self }
    {
        match self {
            Release::Before23 | Release::Otp23 => Flags(0x50184),
            Release::Otp24 | Release::Otp25 => Flags(0x1070f94),
            Release::Otp28 | Release::Otp29 => Flags(0x403070f94),
        }
    }

    /// The flags for which a node of this release refuses a peer that announces these: those that it requires and that are
    /// absent; none where it accepts the peer. A release before 25 does not read DFLAG_MANDATORY_25_DIGEST.
    pub fn objection(self, flags: Flags) -> Flags
        ensures { result.0 ≡ objection self flags.0 }
    {
        let wanted = self.required();
        match self {
            Release::Before23 | Release::Otp23 | Release::Otp24 => Flags(wanted.0 & !flags.0),
            Release::Otp25 | Release::Otp28 | Release::Otp29 => missing(flags, wanted),
        }
    }

    // Whether a node of this release refuses a peer that announces these flags.
    fn refuses(self, flags: Flags) -> bool
        ensures { result ≡ refuses flags.0 self }
    {
        self.objection(flags).0 != 0
    }
}

/// The releases that required more than those before, the oldest first: 23, 25, and 26, which requires what 28 does.
const ASKERS: [Release; 3] = [Release::Otp23, Release::Otp25, Release::Otp28];

/// The oldest release that refuses a peer that announces these flags, of 23, 25 and 26, which is returned as 28, since both
/// require the same. `None` where each accepts the peer.
pub fn oldest_refusal(flags: Flags) -> Option<Release>
    ensures { result ≡ oldest_refusal flags.0 }
{
    ASKERS.iter().copied().find(|asker| asker.refuses(flags))
}

/// Whether each release, from 23 on, refuses a peer that announces these flags.
pub fn is_refused_by_all(flags: Flags) -> bool
    ensures { result ≡ is_refused_by_all flags.0 }
{
    ASKERS.iter().all(|asker| asker.refuses(flags))
}

/// The flags, and those for which DFLAG_MANDATORY_25_DIGEST stands where it is one of them. OTP reads it so from release
/// 25 on.
pub fn with_mandatory(flags: Flags) -> Flags
    ensures { result.0 ≡ with_mandatory flags.0 }
{
    if flags.has(Flags(0x4000000)) {
        Flags(flags.0 | 0x1070f94)
    } else {
        flags
    }
}

/// Which of the wanted flags are absent, DFLAG_MANDATORY_25_DIGEST read as the flags for which it stands.
pub fn missing(flags: Flags, wanted: Flags) -> Flags
    ensures { result.0 ≡ missing flags.0 wanted.0 }
{
    Flags(wanted.0 & !with_mandatory(flags).0)
}

/// The release to which a node's flags belong.
pub fn release_of(flags: Flags) -> Release
    ensures { result ≡ release_of flags.0 }
{
    if flags.has(Flags(0x4000000000)) {
        return Release::Otp29;
    }
    if flags.has(Flags(0x2000000000)) {
        return Release::Otp28;
    }
    if flags.has(Flags(0x4000000)) {
        return Release::Otp25;
    }
    if flags.has(Flags(0x400000000)) {
        return Release::Otp24;
    }
    if flags.has(Flags(0x1000000)) {
        return Release::Otp23;
    }
    Release::Before23
}

// Whether the flags, `PUBLISHED` apart, are exactly those that a release announces.
fn is_just(announced: Option<Flags>, flags: Flags) -> bool
    ensures { result ≡ is_just announced flags.0 }
{
    match announced {
        Some(all) => flags.0 | 1 == all.0,
        None => false,
    }
}

/// The release that a node's flags show, and whether they are exactly its own.
pub fn release_shown(flags: Flags) -> ReleaseShown
    ensures { result ≡ release_shown flags.0 }
{
    let release = release_of(flags);
    if is_just(release.announced(), flags) {
        ReleaseShown::Just(release)
    } else {
        ReleaseShown::UpTo(release)
    }
}
