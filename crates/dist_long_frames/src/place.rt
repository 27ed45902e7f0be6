//! How far a stream of frames with lengths of 4 bytes has come.

ghost use Rattle.std.specs.Prelude.{◌≡◌, ◌<◌, ◌≤◌};
ghost use Rattle.dist_long_frames.specs.Shortened.{after, frame_end, front_place, is_last_tag, is_shared, is_too_long, place_after, rest_place, room_at};

/// What the next byte of a stream of frames with lengths of 4 bytes is.
#[derive(Clone, Copy)]
pub enum Place {
    /// The first byte of a length.
    First,
    /// The second, behind a 0.
    Second,
    /// The third, behind two zeros.
    Third,
    /// The fourth, behind this third.
    Fourth(u8),
    /// The first byte of a body of this many bytes, at least one.
    Tag(usize),
    /// A later byte of a body of which this many bytes are to come, at least one.
    Body {
        /// How many.
        left: usize,
        /// Whether it is that of the last frame.
        is_last: bool,
    },
    /// A byte behind the last frame of the handshake.
    Beyond,
    /// A byte behind a length above 65,535.
    TooLong,
}

// Whether the body that this byte begins is the last of its direction: a reply, or an acknowledgement.
fn is_last_tag(byte: u8) -> bool
    ensures { result ≡ is_last_tag byte }
{
    byte == b'r' || byte == b'a'
}

// The place before a body of this many bytes.
fn front_place(left: usize) -> Place
    ensures { result ≡ front_place left }
{
    if left == 0 {
        Place::First
    } else {
        Place::Tag(left)
    }
}

// The place behind a frame.
fn frame_end(is_last: bool) -> Place
    ensures { result ≡ frame_end is_last }
{
    if is_last { Place::Beyond } else { Place::First }
}

// The place before this many further bytes of a body.
fn rest_place(left: usize, is_last: bool) -> Place
    ensures { result ≡ rest_place left is_last }
{
    if left == 0 {
        frame_end(is_last)
    } else {
        Place::Body { left, is_last }
    }
}

impl Place {
    // The place behind this byte.
    fn after(self, byte: u8) -> Place
        ensures { result ≡ after self byte }
    {
        match self {
            Place::First => if byte == 0 {
                Place::Second
            } else {
                Place::TooLong
            },
            Place::Second => if byte == 0 {
                Place::Third
            } else {
                Place::TooLong
            },
            Place::Third => Place::Fourth(byte),
            Place::Fourth(high) => front_place(u16::from_be_bytes([high, byte]) as usize),
            Place::Tag(left) => rest_place(left.saturating_sub(1), is_last_tag(byte)),
            Place::Body { left, is_last } => rest_place(left.saturating_sub(1), is_last),
            Place::Beyond | Place::TooLong => self,
        }
    }

    /// The place behind these bytes.
    pub(crate) fn after_all(self, bytes: &[u8]) -> Place
        ensures { result ≡ place_after self bytes.now }
    {
        let mut place = self;
        for byte in bytes {
            place = place.after(*byte);
        }
        place
    }

    /// Whether the next byte stands in short frames, too.
    pub(crate) fn is_shared(self) -> bool
        ensures { result ≡ is_shared self }
    {
        !matches!(self, Place::First | Place::Second | Place::TooLong)
    }

    /// Whether it is behind a length above 65,535.
    pub(crate) fn is_too_long(self) -> bool
        ensures { result ≡ is_too_long self }
    {
        matches!(self, Place::TooLong)
    }

    /// How many of at most this many bytes are read or written at once: those of a body together, and those behind the last frame; any other
    /// by itself.
    pub(crate) fn room(self, most: usize) -> usize
        // A stream reads into some room, and writes some bytes.
        requires { 0 < most }
        ensures some { 0 < result }
        ensures most { result ≤ most }
        ensures here { result ≤ room_at self }
    {
        match self {
            Place::Body { left, .. } if left > 0 => left.min(most),
            Place::Beyond => most,
            _ => 1,
        }
    }
}
