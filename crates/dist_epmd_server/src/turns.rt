//! What comes on a connection, and what is sent to its client.

ghost use Rattle.std.specs.Prelude.{◌≡◌, ◌<◌, ◌≤◌, true, false, IfSome, None, length};
ghost use Rattle.dist_epmd.specs.Registrations.{after_closed};
ghost use Rattle.dist_epmd_clients.specs.Clients.{registrations_of, client_of, Becomes, OthersStay};
ghost use Rattle.dist_epmd_clients.specs.{Carrying.Carries, Replying.after_piece};
ghost use Rattle.dist_epmd_server.specs.declared.turns.ReadStep.TheVariants.{Closed};
ghost use Rattle.dist_epmd_server.specs.Turns.{Chain, CutShort, Follows, FollowsRead, HasLeft, SaidWhole, TurnsAny};
ghost use Rattle.dist_stream.specs.Stream.{heard_count};

use dist_epmd_clients::{Clients, Turn};
use dist_names::ByteString;
use dist_stream::{Heard, Stream, Took};
use std::alloc::Global;

/// What a read of a connection came to.
#[derive(Drop)]
pub enum ReadStep<S> {
    /// Nothing came, or nobody is here.
    Quiet,
    /// Something came. The client goes on, and more may have come.
    More,
    /// The connection is over, and its stream is closed.
    Closed,
    /// The client has left. These bytes are to be sent to it, or none, and then its stream is to be closed.
    Leaves(S, ByteString),
}

// Sends a text by one write. Returns whether it went out whole.
fn send_whole<S: Stream + Drop>(clients: &mut Clients<S>, conn: u64, text: &[u8]) -> bool
    // The answer to a registration has bytes.
    requires { 0 < length text.now }
    ensures whole { result ≡ true → Carries (SaidWhole S.meaning text.now) conn clients.old clients.new }
    ensures cut { result ≡ false → IfSome (client_of clients.old conn) (λ client. CutShort S.meaning text.now client.stream) }
    ensures registry { registrations_of clients.new ≡ registrations_of clients.old }
    ensures others { OthersStay conn clients.old clients.new }
{
    match clients.write(conn, text) {
        Some(Took::Bytes(count)) => count == text.len(),
        Some(Took::Quiet | Took::Failed) | None => false,
    }
}

// A piece came on a connection. The answer to a registration goes out whole and by one write; else the client is closed.
fn take_piece<S: Stream + Drop>(
    clients: &mut Clients<S>,
    alloc: Global,
    conn: u64,
    piece: &[u8],
) -> ReadStep<S>
    ensures follows { Follows S.meaning (after_piece conn (client_of clients.old conn) piece.now (registrations_of clients.old))
        piece.now conn clients.old clients.new result }
    ensures others { OthersStay conn clients.old clients.new }
    ensures left { HasLeft result → client_of clients.new conn ≡ None }
{
    match clients.hear(alloc, conn, piece) {
        Ok(Turn::Wait) => ReadStep::More,
        Ok(Turn::Stay(text)) => {
            if send_whole(clients, conn, text.as_slice()) {
                ReadStep::More
            } else {
                drop_client(clients, conn)
            }
        }
        Ok(Turn::Leave(stream, text)) => ReadStep::Leaves(stream, text),
        Err(_) => ReadStep::Closed,
    }
}

// A connection is over.
fn drop_client<S: Stream + Drop>(clients: &mut Clients<S>, conn: u64) -> ReadStep<S>
    ensures closed { result ≡ Closed }
    ensures after { Becomes None (after_closed conn (registrations_of clients.old)) conn clients.old clients.new }
{
    let _ = clients.close(conn);
    ReadStep::Closed
}

// A read of a connection gave this.
fn follow<S: Stream + Drop>(
    clients: &mut Clients<S>,
    alloc: Global,
    conn: u64,
    came: Heard,
    room: &[u8],
) -> ReadStep<S>
    // A read says so.
    requires { heard_count came ≤ length room.now }
    ensures follows { FollowsRead S.meaning came room.now conn clients.old clients.new result }
    ensures others { OthersStay conn clients.old clients.new }
    ensures left { HasLeft result → client_of clients.new conn ≡ None }
{
    match came {
        Heard::Bytes(0) | Heard::Failed => drop_client(clients, conn),
        Heard::Bytes(count) => take_piece(clients, alloc, conn, &room[..count]),
        Heard::Quiet => ReadStep::Quiet,
    }
}

// Reads what came on a connection, by one read, and does what is to be done.
fn read_once<S: Stream + Drop>(
    clients: &mut Clients<S>,
    alloc: Global,
    conn: u64,
    room: &mut [u8],
) -> ReadStep<S>
    // The caller has room for bytes.
    requires { 0 < length room.old }
    ensures turns { TurnsAny S.meaning room.new conn clients.old clients.new result }
    ensures others { OthersStay conn clients.old clients.new }
    ensures left { HasLeft result → client_of clients.new conn ≡ None }
{
    match clients.read(conn, room) {
        Some(came) => follow(clients, alloc, conn, came, room),
        None => ReadStep::Quiet,
    }
}

// The most reads of one connection before the others are looked at.
const READS: usize = 16;

/// Reads what came on a connection, by some reads, until nothing more came or its client has left. Where it goes on to come,
/// the answer is `More`; so it is where the room is empty, and then nothing is read.
pub fn read_all<S: Stream + Drop>(
    clients: &mut Clients<S>,
    alloc: Global,
    conn: u64,
    room: &mut [u8],
) -> ReadStep<S>
    ensures turns { Chain S.meaning conn clients.old clients.new result }
    ensures others { OthersStay conn clients.old clients.new }
    ensures left { HasLeft result → client_of clients.new conn ≡ None }
{
    if room.is_empty() {
        return ReadStep::More;
    }
    for _ in 0..READS {
        match read_once(clients, alloc, conn, room) {
            ReadStep::More => {}
            step => return step,
        }
    }
    ReadStep::More
}
