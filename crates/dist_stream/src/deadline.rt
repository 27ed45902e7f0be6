//! Connections that are quiet once a deadline is reached.
//!
//! A count of turns says little about time: a turn passes at once or waits. A talk that has to end by the clock gets a
//! deadline, and more turns than it needs.

ghost use Rattle.std.specs.Prelude.{◌≡◌, ◌+◌, ◌<◌, ◌≤◌, ◌↔◌, length, None, IsOk, IfOk, IfErr};
ghost use Rattle.std.specs.{Duration.as_nanos, IoError.error_kind, Time.instant_nanos, Time.FitsClock};
ghost use Rattle.dist_stream.specs.{Stream.Reads, Stream.Writes, Stream.new_stream, Deadline.wait_of};

use crate::socket::SocketStream;
use crate::stream::{Heard, Stream, Took};
use std::io::{self, ErrorKind};
use std::net::{Net, SocketAddr, TcpListener, TcpStream};
use std::time::{Clock, Duration, Instant};

/// Turns for a talk that a deadline ends: more than it takes, even if each turn carries bytes.
///
/// Source: our own choice. A quiet turn lasts for a second, so only a deadline after some 18 hours comes later than the last turn.
pub const AMPLE_TURNS: usize = 65_536;

// How long one read or write waits where this much time is left: at most a second. Linux rounds a socket's timeout up, by some
// milliseconds where it is short, by up to 32 above a quarter of a second, and by up to 250 above two seconds. So the last
// wait before the deadline is short.
fn wait_of(left: Duration) -> Duration
    ensures { as_nanos result ≡ wait_of (as_nanos left) }
{
    if left <= Duration::from_millis(200) {
        return left;
    }
    let most = left.saturating_sub(Duration::from_millis(100));
    let second = Duration::from_secs(1);
    if most < second { most } else { second }
}

// The time that is `limit` after `now`. InvalidInput where no clock reaches that far.
fn time_after(now: Instant, limit: Duration) -> io::Result<Instant>
    ensures variant { IsOk result ↔ FitsClock (instant_nanos now + as_nanos limit) }
    ensures ok { IfOk result (λ t. instant_nanos t ≡ instant_nanos now + as_nanos limit) }
    ensures err { IfErr result (λ e. error_kind e ≡ ErrorKind.InvalidInput) }
{
    now.checked_add(limit)
        .ok_or(io::Error::from(ErrorKind::InvalidInput))
}

/// The time that is `limit` from now.
///
/// InvalidInput where no clock reaches that far, some 292 thousand million years after its start; any other error is the
/// clock's.
pub fn deadline_after<C: Clock>(clock: &C, limit: Duration) -> io::Result<Instant>
    ensures far { IfOk result (λ t. as_nanos limit ≤ instant_nanos t) }
    ensures fits { IfOk result (λ t. FitsClock (instant_nanos t)) }
{
    let now = Instant::now(clock)?;
    time_after(now, limit)
}

/// How long it is until the deadline: zero once it is reached, and where the clock cannot be read.
pub fn time_left<C: Clock>(clock: &C, deadline: Instant) -> Duration
    ensures most { as_nanos result ≤ instant_nanos deadline }
{
    match Instant::now(clock) {
        Ok(now) => deadline.saturating_duration_since(now),
        Err(_) => Duration::ZERO,
    }
}

/// A connection that is quiet once a deadline is reached.
///
/// A read or a write waits at most a second, and no longer than until the deadline; from then on each is
/// quiet at once, without asking the system, so the turns that a talk has left pass at once. A call counts as failed where the
/// system accepts no timeout. No contract says which bytes come and go.
#[derive(Drop)]
pub struct DeadlineStream<C> {
    stream: SocketStream,
    clock: C,
    deadline: Instant,
}

impl<C: Clock> DeadlineStream<C> {
    /// The stream over this connection until this deadline of the clock. The connection's own timeouts are set anew at each
    /// call.
    pub fn new(stream: SocketStream, clock: C, deadline: Instant) -> DeadlineStream<C>
        ensures same { ⟦<DeadlineStream<C> as Stream>⟧.meaning result ≡ ⟦<SocketStream as Stream>⟧.meaning stream }
        ensures stream { result.stream ≡ stream }
        ensures deadline { result.deadline ≡ deadline }
    {
        DeadlineStream {
            stream,
            clock,
            deadline,
        }
    }

    /// When the connection becomes quiet.
    pub fn deadline(&self) -> Instant
        ensures { result ≡ self.now.deadline }
    {
        self.deadline
    }

    /// How long it is until then: zero once the connection is quiet.
    pub fn time_left(&self) -> Duration
        ensures most { as_nanos result ≤ instant_nanos self.now.deadline }
    {
        time_left(&self.clock, self.deadline)
    }

    /// The connection, for instance to shut it.
    pub fn get_ref(&self) -> &SocketStream
        ensures { result.now ≡ self.now.stream }
    {
        &self.stream
    }
}

impl<C: Drop> DeadlineStream<C> {
    /// Returns the connection. It keeps the timeouts of the last call.
    pub fn into_inner(self) -> SocketStream
        ensures { result ≡ self.stream }
    {
        self.stream
    }
}

// A read that waits as long as what is left allows, and is quiet where nothing is left.
fn read_within(stream: &mut SocketStream, room: &mut [u8], left: Duration) -> Heard
    requires { 0 < length room.old }
    ensures reads { Reads (⟦<SocketStream as Stream>⟧.meaning stream.old) (⟦<SocketStream as Stream>⟧.meaning stream.new) room.new result }
    ensures quiet { as_nanos left ≡ 0 → result ≡ Heard.Quiet }
{
    if left.is_zero() {
        return stream.note_read(Heard::Quiet);
    }
    match stream.get_ref().set_read_timeout(Some(wait_of(left))) {
        Ok(()) => stream.read(room),
        Err(_) => stream.note_read(Heard::Failed),
    }
}

// A write that waits as long as what is left allows, and is quiet where nothing is left.
fn write_within(stream: &mut SocketStream, bytes: &[u8], left: Duration) -> Took
    requires { 0 < length bytes.now }
    ensures writes { Writes (⟦<SocketStream as Stream>⟧.meaning stream.old) (⟦<SocketStream as Stream>⟧.meaning stream.new) bytes.now result }
    ensures quiet { as_nanos left ≡ 0 → result ≡ Took.Quiet }
{
    if left.is_zero() {
        return stream.note_write(Took::Quiet);
    }
    match stream.get_ref().set_write_timeout(Some(wait_of(left))) {
        Ok(()) => stream.write(bytes),
        Err(_) => stream.note_write(Took::Failed),
    }
}

impl<C: Clock> Stream for DeadlineStream<C> {
    ghost meaning = { λ s. ⟦<SocketStream as Stream>⟧.meaning s.stream };

    fn read(&mut self, room: &mut [u8]) -> Heard {
        let left = self.time_left();
        read_within(&mut self.stream, room, left)
    }

    fn write(&mut self, bytes: &[u8]) -> Took {
        let left = self.time_left();
        write_within(&mut self.stream, bytes, left)
    }
}

/// A connection to this address, made by the deadline, that is quiet once the deadline is reached.
///
/// An error is the system's: ConnectionRefused where nobody listens there; TimedOut where no answer came by the deadline,
/// and at once, without asking anybody, where the deadline had passed before.
pub fn connect_by<'a, R: Net<Listener = TcpListener, Stream = TcpStream> + Clock>(
    rt: &'a R,
    address: &SocketAddr,
    deadline: Instant,
) -> io::Result<DeadlineStream<&'a R>>
    ensures fresh { IfOk result (λ s. ⟦<DeadlineStream<&'a R> as Stream>⟧.meaning s ≡ new_stream None None) }
{
    let left = time_left(rt, deadline);
    if left.is_zero() {
        return Err(io::Error::from(ErrorKind::TimedOut));
    }
    let socket = TcpStream::connect_timeout(rt, address, left)?;
    Ok(DeadlineStream::new(SocketStream::new(socket), rt, deadline))
}
