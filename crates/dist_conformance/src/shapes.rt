//! The layouts of all messages that rows name: what is said and what is judged are made of the rows of one table.
//!
//! Sources: ERTS User's Guide, Distribution Protocol, Distribution Handshake; EPMD Protocol.

/// How a field stands in a message.
#[derive(Clone, Copy)]
pub enum FieldForm {
    /// Just this byte.
    Tag(u8),
    /// One byte that is not 0.
    NotZero,
    /// This many bytes. Numbers have their greater bytes first.
    Fixed(usize),
    /// Bytes behind their number, which has 2 bytes.
    Sized,
    /// All bytes that are left.
    Rest,
}

/// What a field is called in rows, and what it says unless a row says otherwise.
#[derive(Clone, Copy)]
pub enum FieldKey {
    /// It has no name, and says nothing unless its form does.
    Unnamed,
    /// A number, by this word, and the usual one.
    Number(&'static str, u32),
    /// A creation that was given, so it is not 0.
    Given,
    /// Such a creation that did not come before in this talk.
    New,
    /// `flags`: all of them, or their lower half.
    Flags,
    /// `flags`: their upper half.
    HighFlags,
    /// `name` or `namehex`: the talk's own full name.
    Name,
    /// The same, and the talk's own short name.
    ShortName,
    /// `digest`, and `challenge` where it is not of the challenge that came last on the connection.
    Digest,
    /// The challenge that came last on the connection.
    Last,
    /// The word of a status.
    Status,
    /// BYTES.
    Bytes,
    /// `extra`.
    Extra,
    /// What stands behind the last field, which is ignored.
    Behind,
}

/// Where a message ends.
#[derive(Clone, Copy)]
pub enum Framing {
    /// Its length stands before it, in 2 bytes.
    Frame,
    /// Its length stands before it, in 4 bytes. Lengths of 0, which are ticks, are passed over.
    Packet,
    /// It has this many bytes, and at least one.
    Bare(usize),
}

/// A message.
#[derive(Clone, Copy)]
pub struct Shape {
    /// Where it ends.
    pub framing: Framing,
    /// Its fields, one behind the other.
    pub fields: &'static [FieldForm],
    /// What they are called.
    pub keys: &'static [FieldKey],
    /// The place of the number that is learned from it, if one is: its challenge, or a creation that is given.
    pub number: Option<usize>,
    /// The place of the flags that are learned with it.
    pub flags: Option<usize>,
}

use FieldForm::{Fixed, NotZero, Rest, Sized, Tag};
use FieldKey::{
    Behind, Bytes, Digest, Extra, Flags, Given, HighFlags, Last, Name, New, Number, ShortName,
    Status, Unnamed,
};
use Framing::{Bare, Frame};

/// Our challenge, unless a row names another one.
pub const OUR_CHALLENGE: u32 = 123456789;

const OURS: FieldKey = Number("challenge", OUR_CHALLENGE);

const VERSION: FieldKey = Number("version", 5);

const CREATION: FieldKey = Number("creation", 77);

const RESULT: FieldKey = Number("result", 0);

const PORT: FieldKey = Number("port", 9009);

const TYPE: FieldKey = Number("type", 77);

const PROTOCOL: FieldKey = Number("protocol", 0);

const HIGHEST: FieldKey = Number("high", 6);

const LOWEST: FieldKey = Number("low", 5);

// A message that ends so, the places of what is learned from it, if it is, and its fields.
macro_rules! shape {
    ($framing:expr; $($form:expr => $key:expr),*) => { shape!($framing, None, None; $($form => $key),*) };
    ($framing:expr, $number:expr, $flags:expr; $($form:expr => $key:expr),*) => {
        Shape { framing: $framing, number: $number, flags: $flags, fields: &[$($form),*], keys: &[$($key),*] }
    };
}

const NAME: Shape =
    shape!(Frame; Tag(b'N') => Unnamed, Fixed(8) => Flags, Fixed(4) => CREATION, Sized => Name, Rest => Behind);

const OLD_NAME: Shape =
    shape!(Frame; Tag(b'n') => Unnamed, Fixed(2) => VERSION, Fixed(4) => Flags, Rest => Name);

/// A challenge of version 6.
pub const CHALLENGE: Shape = shape!(Frame, Some(2), Some(1);
    Tag(b'N') => Unnamed, Fixed(8) => Flags, Fixed(4) => OURS, Fixed(4) => CREATION, Sized => Name, Rest => Behind);

const COMPLEMENT: Shape =
    shape!(Frame; Tag(b'c') => Unnamed, Fixed(4) => HighFlags, Fixed(4) => CREATION);

const STATUS: Shape = shape!(Frame; Tag(b's') => Unnamed, Rest => Status);

const ACK: Shape = shape!(Frame; Tag(b'a') => Unnamed, Fixed(16) => Digest);

/// A registration.
pub const ALIVE: Shape = shape!(Frame; Tag(0x78) => Unnamed,
    Fixed(2) => PORT, Fixed(1) => TYPE, Fixed(1) => PROTOCOL, Fixed(2) => HIGHEST, Fixed(2) => LOWEST, Sized => ShortName, Sized => Extra, Rest => Behind);

// A message that is said, by its word.
macro_rules! said {
    ($word:expr; $($shape:tt)*) => { ($word, shape!($($shape)*)) };
}

// A message that is awaited, by its two words.
macro_rules! awaited {
    ($word:expr, $second:expr; $($shape:tt)*) => { ($word, $second, shape!($($shape)*)) };
}

/// What is said, by its word.
pub const MESSAGES: [(&str, Shape); 17] = [
    ("name", NAME),
    ("oldname", OLD_NAME),
    ("challenge", CHALLENGE),
    said!("oldchallenge"; Frame; Tag(b'n') => Unnamed, Fixed(2) => VERSION, Fixed(4) => Flags, Fixed(4) => OURS, Rest => Name),
    ("complement", COMPLEMENT),
    ("status", STATUS),
    said!("reply"; Frame; Tag(b'r') => Unnamed, Fixed(4) => OURS, Fixed(16) => Digest),
    said!("mirror"; Frame; Tag(b'r') => Unnamed, Fixed(4) => Last, Fixed(16) => Digest),
    ("ack", ACK),
    said!("tick"; Bare(4); Tag(0) => Unnamed, Tag(0) => Unnamed, Tag(0) => Unnamed, Tag(0) => Unnamed),
    ("alive2", ALIVE),
    said!("alive2x"; Bare(6); Tag(0x76) => Unnamed, Fixed(1) => RESULT, Fixed(4) => CREATION),
    said!("alive2y"; Bare(4); Tag(0x79) => Unnamed, Fixed(1) => RESULT, Fixed(2) => CREATION),
    said!("lookup"; Frame; Tag(0x7a) => Unnamed, Rest => ShortName),
    said!("names"; Frame; Tag(0x6e) => Unnamed),
    said!("frame"; Frame; Rest => Bytes),
    said!("raw"; Bare(0); Rest => Bytes),
];

/// What is awaited with checks of its fields, by its word, and its second one where it has two.
pub const AWAITED: [(&str, &str, Shape); 13] = [
    ("name", "", NAME),
    ("oldname", "", OLD_NAME),
    ("challenge", "", CHALLENGE),
    ("complement", "", COMPLEMENT),
    awaited!("reply", ""; Frame, Some(1), None; Tag(b'r') => Unnamed, Fixed(4) => Unnamed, Fixed(16) => Digest),
    ("ack", "", ACK),
    ("alive2req", "", ALIVE),
    awaited!("alive2x", "ok"; Bare(6), Some(2), None; Tag(0x76) => Unnamed, Tag(0) => Unnamed, Fixed(4) => Given),
    awaited!("alive2x", "fresh"; Bare(6), Some(2), None; Tag(0x76) => Unnamed, Tag(0) => Unnamed, Fixed(4) => New),
    awaited!("alive2x", "refused"; Bare(6); Tag(0x76) => Unnamed, NotZero => Unnamed, Fixed(4) => Unnamed),
    awaited!("alive2y", "ok"; Bare(4); Tag(0x79) => Unnamed, Tag(0) => Unnamed, Fixed(2) => Given),
    awaited!("alive2y", "refused"; Bare(4); Tag(0x79) => Unnamed, NotZero => Unnamed, Fixed(2) => Unnamed),
    awaited!("port2", "unknown"; Bare(2); Tag(0x77) => Unnamed, NotZero => Unnamed),
];

/// What is awaited to the letter.
pub const EXACT: [(&str, &str, Shape); 2] = [
    ("status", "", STATUS),
    awaited!("port2", "known"; Bare(0); Tag(0x77) => Unnamed, Tag(0) => Unnamed,
        Fixed(2) => PORT, Fixed(1) => TYPE, Fixed(1) => PROTOCOL, Fixed(2) => HIGHEST, Fixed(2) => LOWEST, Sized => ShortName, Sized => Extra),
];
