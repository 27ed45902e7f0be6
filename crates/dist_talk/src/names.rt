//! Long and short names: two nodes can dial each other only where both names are long or both are short.

ghost use Rattle.std.specs.Prelude.{◌≡◌};
ghost use Rattle.dist_talk.specs.Styles.{style_of, is_mark, has_dot, has_mark, is_long_and_short, is_short_beside, is_probe_name};

use dist_names::{host_part, short_part};

/// Whether a node was started by `-name` or by `-sname`, as far as its host part shows.
///
/// Source: `inet_tcp_dist:splitnode/3` of OTP 25. An IPv6 address has no dot, and OTP accepts it for both styles: it is reported as
/// long here.
#[derive(Clone, Copy, Debug, PartialEq, Eq)]
pub enum NameStyle {
    /// The host part has a dot or a colon: `-name`.
    Long,
    /// The host part has neither: `-sname`.
    Short,
}

// Whether a byte stands only in long host parts.
fn is_mark(byte: u8) -> bool
    ensures { result ≡ is_mark byte }
{
    byte == b'.' || byte == b':'
}

fn has_mark(host: &[u8]) -> bool
    ensures { result ≡ has_mark host.now }
{
    host.iter().any(|byte| is_mark(*byte))
}

/// The style of a name.
pub fn style_of(name: &[u8]) -> NameStyle
    ensures { result ≡ style_of name.now }
{
    if has_mark(host_part(name)) {
        NameStyle::Long
    } else {
        NameStyle::Short
    }
}

// Whether the host part of a name has a dot.
fn has_dot(name: &[u8]) -> bool
    ensures { result ≡ has_dot name.now }
{
    host_part(name).iter().any(|byte| *byte == b'.')
}

// Whether the first name is short, and the other has a dot.
fn is_short_beside(name: &[u8], other: &[u8]) -> bool
    ensures { result ≡ is_short_beside name.now other.now }
{
    !has_mark(host_part(name)) && has_dot(other)
}

/// Whether one of two names is long and the other short. A node of `-name` dials no short name, and one of `-sname` no name
/// with a dot; an IPv6 address, which has none, goes with both.
pub fn is_long_and_short(first: &[u8], second: &[u8]) -> bool
    ensures { result ≡ is_long_and_short first.now second.now }
{
    is_short_beside(first, second) || is_short_beside(second, first)
}

/// Whether this is the name that a probe gives itself if it is given no other.
pub fn is_probe_name(name: &[u8]) -> bool
    ensures { result ≡ is_probe_name name.now }
{
    short_part(name) == b"distping".as_slice()
}
