//! Plain bytes: which of them are printable, where the two parts of a name stand, and whether two rows are equal.

ghost use Rattle.std.specs.{Prelude.◌≡◌, Prelude.◌↔◌, Prelude.IsTrue, List.list_all, List.position, List.position_or_len};
ghost use Rattle.dist_names.specs.{Bytes.is_printable, Bytes.is_visible, NodeName.short_of, NodeName.host_of, NodeName.is_separator, Order.same_name};

/// Whether this is a printable ASCII character, the space among them: from 0x20 to 0x7E.
pub fn is_printable(byte: u8) -> bool
    ensures { result ≡ is_printable byte }
{
    0x20 <= byte && byte <= 0x7E
}

/// Whether this is a printable ASCII character, and no space: from 0x21 to 0x7E.
pub fn is_visible(byte: u8) -> bool
    ensures { result ≡ is_visible byte }
{
    0x21 <= byte && byte <= 0x7E
}

/// Whether each of the bytes is a printable ASCII character, spaces among them.
pub fn are_printable(bytes: &[u8]) -> bool
    ensures { result ≡ list_all is_printable bytes.now }
{
    bytes.iter().all(|byte| is_printable(*byte))
}

/// Whether each of the bytes is a printable ASCII character, and none is a space.
pub fn are_visible(bytes: &[u8]) -> bool
    ensures { result ≡ list_all is_visible bytes.now }
{
    bytes.iter().all(|byte| is_visible(*byte))
}

fn separator(bytes: &[u8]) -> Option<usize>
    ensures { result ≡ position is_separator bytes.now }
{
    bytes.iter().position(|byte| *byte == b'@')
}

// Where the first separator stands, or the length where none does.
#[tactic(auto, using(crate::proofs::Places::place_or_length))]
fn separator_place(bytes: &[u8]) -> usize
    ensures { result ≡ position_or_len is_separator bytes.now }
{
    separator(bytes).unwrap_or(bytes.len())
}

/// The bytes before the first `@`, or all where there is none.
pub fn short_part(bytes: &[u8]) -> &[u8]
    ensures { result.now ≡ short_of bytes.now }
{
    &bytes[..separator_place(bytes)]
}

/// The bytes behind the first `@`, or none where there is no `@`.
pub fn host_part(bytes: &[u8]) -> &[u8]
    ensures { result.now ≡ host_of bytes.now }
{
    let place = separator_place(bytes);
    if place < bytes.len() {
        &bytes[place + 1..]
    } else {
        &[]
    }
}

/// Whether the two rows have the same bytes.
pub fn is_same_text(one: &[u8], other: &[u8]) -> bool
    ensures computed { result ≡ same_name one.now other.now }
    ensures each { IsTrue result ↔ (one.now ≡ other.now) }
{
    one == other
}
