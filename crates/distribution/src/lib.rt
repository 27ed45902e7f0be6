//! What a program that joins Erlang nodes needs, in one crate: everything here stands in a crate of its own below, and is only
//! named here once more. docs/LIBRARY.md goes through a whole program, `joining`.
//!
//! # The order of the calls
//!
//! A node is a value, which is given events and returns what is to be written. The program has the socket, the clock and the
//! random numbers, and hands in what came of them.
//!
//! 1. Names, cookie, node. `Release::Otp28.required()` is what OTP 23 to 29 take, and they announce what
//!    `Release::Otp25.required()` requires of them; without `PUBLISHED` among its flags the node is hidden.
//!
//! ```text
//! let setup = Setup {
//!     name: NodeName::new(alloc, b"joining@127.0.0.1")?,
//!     cookies: Cookies::new(alloc, read_cookie(alloc, &mut file)?),
//!     version: Version::Six,
//!     flags: Release::Otp28.required(),
//!     required: Release::Otp25.required(),
//!     creation: Creation(drawn),
//!     allow: None,
//!     limits: Limits::long_running(),
//! };
//! let mut node = Node::new(alloc, setup);
//! let peer = NodeName::new(alloc, b"b@127.0.0.1")?;
//! ```
//!
//! 2. The port mapper is asked where the node listens. A node that others are to find `register`s first, over a connection
//!    that it keeps. A talk that has to stop by the clock goes over a `DeadlineStream`, which is quiet once its deadline is
//!    reached: then the turns that are left pass at once. Those of a lookup, of 4,096 bytes each, also bound the memory that an
//!    answer takes.
//!
//! ```text
//! let until = deadline_after(&rt, Duration::from_secs(8))?;
//! let mut mapper = connect_by(&rt, &mapper_address, until)?;
//! let info = lookup(alloc, &mut mapper, peer.short(), 4096)?;
//! ```
//!
//! 3. The node is asked to dial, then the connection is made, then the node is given the event that it is there. A connection
//!    that does not come about is reported as `Event::Lost` with `Why::DialFailed`, if the node is used on.
//!
//! ```text
//! let opening = opening_for(&info);
//! let end_ = node.step(alloc, &Event::Dial { peer, opening }, 0)?.end_;
//! let until = deadline_after(&rt, Duration::from_secs(8))?;
//! let mut stream = connect_by(&rt, &node_address, until)?;
//! let opened = node.step(alloc, &Event::Opened { end_, link: 0 }, 0)?;
//! ```
//!
//! 4. `handshake` writes what the end sends first, hands on each frame that comes, and writes all that the node sends upon one,
//!    until the end is up or closed, or no turn is left. From here on the node is a desk's: `MemoryDesk` holds one, and a program
//!    with many links has a desk that reaches the node they share. The challenge is a random number, drawn anew for each
//!    connection; where no challenge is sent, the last argument of `step` is ignored. `link` is a number for the caller alone.
//!
//! ```text
//! let mut desk = MemoryDesk::new(alloc, node, end_)?;
//! let first = opened.say.as_slice();
//! match handshake(alloc, &mut stream, &mut desk, &mut challenge, end_, first, AMPLE_TURNS) {
//!     Reached::Up { record, rest } => ..     // the peer's name, its creation, the flags of both; what stood behind
//!     Reached::Ended(outcome) => ..          // refused, by the node or by its peer, or the connection failed
//! }
//! ```
//!
//!    `rest` is what was read behind the last frame, with which `Packets::behind_handshake` begins. Where the connection fails
//!    before the end is up, the steps in the desk's list show which message was due: an acknowledgement, mostly, since the other
//!    side has another cookie. A program that reads its frames itself, by `Limited::read_exact` and `Node::step`, asks
//!    `Node::awaits` before it reports the loss. `drive` does all of this for a node that only keeps its connections.
//!
//! 5. The stream is the program's. The link has no deadline: `SocketStream::with_turn` makes of the socket a stream each read and
//!    write of which waits for one turn. `Packets` parts what comes into packets; one of no bytes is a tick. `header` is what
//!    stands before a packet that is written, and `tick` a whole one. `Ticker` says when a tick is due and when a silent peer is
//!    given up; it is given the time, in milliseconds, whenever something was read or written.
//!
//! ```text
//! let mut packets = Packets::new(alloc, 16_777_216);
//! let mut ticker = Ticker::new(15_000, now);       // a quarter of net_ticktime
//! match ticker.due(now) {
//!     Due::Nothing { .. } => match limited.read(&mut room) {
//!         Ok(0) => {}                              // a turn went by
//!         Ok(count) => { ticker.note_read(now); packets.feed(&room[..count])? }
//!         Err(error) => ..                         // the link is lost
//!     },
//!     Due::Tick => { limited.write_all(&tick())?; ticker.note_write(now) }
//!     Due::GiveUp => ..                            // nothing came for net_ticktime
//! }
//! ```
//!
//! 6. To leave, `stream.shut()`, and let the stream go; the node is given `Event::Lost`, if it is used on.
//!
//! Which errors come: `NameError`, `CookieError`, `LookupError`, `StepError`, `TurnError`, `PacketError`, and of `connect`,
//! `connect_by` and `deadline_after` the system's `io::Error`; `Why` is the cause of an end that is closed.
#![tactic(auto)]

pub use dist_core::{
    Absent, Attempt, Awaited, Change, ChangeError, End, Event, Keeper, Limits, NameList, Node,
    Note, Opening, Phase, Reply, Setup, StepError, Still, UpRecord, Version, Why,
};
pub use dist_drive::{Desk, Draws, MemoryDesk, Outcome, Reached, drive, handshake, opening_for};
pub use dist_epmd::{AliveReq, NodeInfo, PortInfo};
pub use dist_epmd_calls::{LookupError, ask_names, lookup, register};
pub use dist_flags::{Dflag, Release, ReleaseShown, missing, release_shown, with_mandatory};
pub use dist_frames::{Due, Frames, PacketError, Packets, Ticker, header, tick, write_packet};
pub use dist_names::{ByteString, Creation, Flags, NameError, NodeName};
pub use dist_peers::{EndId, Entry};
pub use dist_secret::{Cookie, CookieError, Cookies, CookiesError, read_cookie};
pub use dist_stream::{
    AMPLE_TURNS, DeadlineStream, Heard, Limited, SocketStream, Stream, Took, TurnError, connect,
    connect_by, deadline_after, time_left,
};
