//! What can be said of two nodes from outside, once both were dialled.

ghost use Rattle.std.specs.Prelude.{◌≡◌, ◌≢◌, ◌↔◌, IsTrue};
ghost use Rattle.dist_talk.specs.Styles.{is_long_and_short};
ghost use Rattle.dist_names.specs.Order.{same_name};
ghost use Rattle.dist_cluster.specs.Pairs.{behind_cookies, behind_flags, behind_kinds, is_bad, lacks, pairing_of, pair_status, pair_word, share_kind};

use dist_flags::{missing, release_of};
use dist_names::{Flags, NodeName};
use dist_talk::{HandshakeVerdict, is_long_and_short};

/// By which kinds of address a node is reached.
#[derive(Clone, Copy, Debug, PartialEq, Eq)]
pub struct AddressKinds {
    /// By IPv4.
    pub ipv4: bool,
    /// By IPv6.
    pub ipv6: bool,
}

/// What a probe found out about one node.
#[derive(Clone, Copy)]
pub struct Half<'a> {
    /// Its name.
    pub node: &'a NodeName,
    /// The flags that it announces, where it sent them under that name.
    pub flags: Option<Flags>,
    /// By which kinds of address it is reached.
    pub kinds: AddressKinds,
    /// What the probe came to.
    pub verdict: HandshakeVerdict,
}

/// What can be said of two nodes from outside: the first of these that holds.
#[derive(Clone, Copy)]
pub enum Pairing {
    /// Both have the same name.
    SameName,
    /// One has a long name, the other a short one.
    LongAndShort,
    /// At least one of the two did not send its flags.
    NotReached,
    /// The first lacks flags that the second's release requires, or the other way round.
    LacksFlags(Flags, Flags),
    /// One is reached by IPv4 alone, the other by IPv6 alone.
    OtherKinds,
    /// One accepts the cookie that was tried, and the other does not.
    OtherCookies,
    /// Nothing was found against the pair, and not both accepted the cookie.
    Unsure,
    /// Nothing was found against the pair, and both accept the same cookie.
    Agree,
}

// Which flags the first lacks of those that the second's release requires.
fn lacks(first: Flags, second: Flags) -> Flags
    ensures { result ≡ lacks first second }
{
    missing(first, release_of(second).required())
}

// Whether two nodes are reached by one kind of address.
fn share_kind(first: AddressKinds, second: AddressKinds) -> bool
    ensures { result ≡ share_kind first second }
{
    (first.ipv4 && second.ipv4) || (first.ipv6 && second.ipv6)
}

// What the cookies show.
fn behind_cookies(first: HandshakeVerdict, second: HandshakeVerdict) -> Pairing
    ensures { result ≡ behind_cookies first second }
{
    match (first, second) {
        (HandshakeVerdict::Up, HandshakeVerdict::Up) => Pairing::Agree,
        (HandshakeVerdict::Up, HandshakeVerdict::WrongCookie(_))
        | (HandshakeVerdict::WrongCookie(_), HandshakeVerdict::Up) => { Pairing::OtherCookies }
        _ => Pairing::Unsure,
    }
}

// What the addresses show, and where they show nothing, the cookies.
fn behind_kinds(first: &Half<'_>, second: &Half<'_>) -> Pairing
    ensures { result ≡ behind_kinds first.now second.now }
{
    if share_kind(first.kinds, second.kinds) {
        behind_cookies(first.verdict, second.verdict)
    } else {
        Pairing::OtherKinds
    }
}

// What the flags show, and where they show nothing, this.
fn behind_flags(first: Option<Flags>, second: Option<Flags>, others: Pairing) -> Pairing
    ensures { result ≡ behind_flags first second others }
{
    let (Some(first), Some(second)) = (first, second) else {
        return Pairing::NotReached;
    };
    let (of_first, of_second) = (lacks(first, second), lacks(second, first));
    if of_first.0 == 0 && of_second.0 == 0 {
        others
    } else {
        Pairing::LacksFlags(of_first, of_second)
    }
}

/// What can be said of two nodes.
pub fn pairing_of(first: &Half<'_>, second: &Half<'_>) -> Pairing
    ensures { result ≡ pairing_of first.now second.now }
{
    if first.node.is_same(second.node) {
        return Pairing::SameName;
    }
    if is_long_and_short(first.node.bytes(), second.node.bytes()) {
        return Pairing::LongAndShort;
    }
    behind_flags(first.flags, second.flags, behind_kinds(first, second))
}

impl Pairing {
    /// The pairing's word.
    pub fn name(self) -> &'static str
        ensures { result.now ≡ pair_word self }
    {
        match self {
            Pairing::SameName => "SameName",
            Pairing::LongAndShort => "LongAndShort",
            Pairing::NotReached => "NotReached",
            Pairing::LacksFlags(..) => "LacksFlags",
            Pairing::OtherKinds => "OtherKinds",
            Pairing::OtherCookies => "OtherCookies",
            Pairing::Unsure => "Unsure",
            Pairing::Agree => "Agree",
        }
    }

    /// What it means, in a sentence without a full stop.
    pub fn cause(self) -> &'static str {
        match self {
            Pairing::SameName => "two nodes of one name never connect",
            Pairing::LongAndShort =>
                "one host part has a dot, the other has none: a node of -sname dials no name with a dot, one of -name none without",
            Pairing::NotReached => "not both answered, so nothing is known of the pair",
            Pairing::LacksFlags(..) => "one lacks flags that the other's release asks for",
            Pairing::OtherKinds =>
                "one is reached by IPv4 alone, the other by IPv6 alone: a node dials by the kind of its -proto_dist alone",
            Pairing::OtherCookies =>
                "they have different cookies: one takes ours, the other does not",
            Pairing::Unsure =>
                "names and flags agree; not both took our cookie, so theirs are not compared",
            Pairing::Agree => "names, flags and cookie agree",
        }
    }

    /// Whether something is wrong with the pair: not where the two agree, nor where nothing is known.
    pub fn is_bad(self) -> bool
        ensures cases { result ≡ is_bad self }
        ensures status { IsTrue result ↔ (pair_status self ≢ 0) }
    {
        self.status() != 0
    }

    /// The exit status: 0 where nothing is wrong with the pair, else the place to look at, like that of a verdict.
    pub fn status(self) -> u8
        ensures { result ≡ pair_status self }
    {
        match self {
            Pairing::NotReached | Pairing::Unsure | Pairing::Agree => 0,
            Pairing::OtherKinds => 3,
            Pairing::SameName | Pairing::LacksFlags(..) => 8,
            Pairing::LongAndShort => 9,
            Pairing::OtherCookies => 10,
        }
    }
}
