//! What is owed to all clients that have left.

ghost use Rattle.std.specs.Prelude.{◌≡◌, ◌-◌, [], not, IfSome, IfNone, None, length, drop, filter, nat_le, nat_lt, option_copied, option_map};
ghost use Rattle.std.specs.{Ordering.nat_cmp, BTreeMap.get, BTreeMap.IsUnchanged};
ghost use Rattle.dist_epmd_server.specs.Owed.{stream_of, since_of};
ghost use Rattle.dist_epmd_server.specs.Owing.{all_owed, but_oldest, owed_to, AfterLeave, AfterTry, FirstTry, OthersOwed, TriedIn, TryMore};

use crate::owed::Owed;
use dist_names::ByteString;
use dist_stream::Stream;
use std::alloc::Global;
use std::collections::BTreeMap;

// The most texts that are kept for clients that do not read.
const MOST_OWED: usize = 64;

/// The texts that are owed to clients that have left, by the numbers of their connections: 64 at most.
#[derive(Drop)]
pub struct Owing<S> {
    pub(crate) owed: BTreeMap<u64, Owed<S>>,
}

// Sends a text to a client that left at this time, as much as its stream takes at once. Returns what is owed, and whether that
// is over: the write failed, or all is sent.
fn first_try<S: Stream>(stream: S, text: ByteString, now: u64) -> (Owed<S>, bool)
    ensures { FirstTry S.meaning stream text now result.0 result.1 }
{
    let mut owed = Owed::new(stream, text, now);
    let said = owed.go_on();
    let is_over = said.failed || owed.is_said();
    (owed, is_over)
}

// Goes on to send what is owed. Returns whether that is over.
fn try_more<S: Stream>(owed: &mut Owed<S>) -> bool
    ensures { TryMore S.meaning owed.old owed.new result }
{
    let said = owed.go_on();
    said.failed || owed.is_said()
}

// The same by the number of a connection. `None`: nothing is owed there.
fn try_more_in<S: Stream>(owed: &mut BTreeMap<u64, Owed<S>>, conn: u64) -> Option<bool>
    ensures some { IfSome result (λ over. TriedIn S.meaning conn owed.old owed.new over) }
    ensures none { IfNone result (get nat_cmp owed.old conn ≡ None) }
    ensures unchanged { IfNone result (IsUnchanged owed.old owed.new) }
{
    let one = owed.get_mut(&conn)?;
    Some(try_more(one))
}

impl<S: Drop> Owing<S> {
    /// Nothing is owed. It takes no memory.
    pub fn new(alloc: Global) -> Owing<S>
        ensures { all_owed result ≡ [] }
    {
        Owing {
            owed: BTreeMap::new(alloc),
        }
    }

    /// On how many connections something is owed.
    pub fn len(&self) -> usize
        ensures { result ≡ length (all_owed self.now) }
    {
        self.owed.len()
    }

    /// The stream of a connection on which something is owed.
    pub fn stream(&self, conn: u64) -> Option<&S>
        ensures { option_copied result ≡ option_map stream_of (owed_to self.now conn) }
    {
        let one = self.owed.get(&conn)?;
        Some(&one.stream)
    }

    /// Drops what is owed on a connection, and closes it.
    pub fn close(&mut self, conn: u64)
        ensures gone { owed_to self.new conn ≡ None }
        ensures others { OthersOwed conn self.old self.new }
    {
        let _ = self.owed.remove(&conn);
    }

    /// Drops what is owed on the oldest connection, and closes it. Returns whether there was one.
    pub fn drop_first(&mut self) -> bool
        ensures dropped { all_owed self.new ≡ drop 1 (all_owed self.old) }
        ensures any { result ≡ nat_lt 0 (length (all_owed self.old)) }
    {
        self.owed.pop_first().is_some()
    }

    // Makes a place for one more.
    fn make_place(&mut self)
        ensures { all_owed self.new ≡ but_oldest (all_owed self.old) }
    {
        if self.owed.len() >= MOST_OWED {
            let _ = self.drop_first();
        }
    }
}

impl<S: Stream + Drop> Owing<S> {
    /// Sends a text to a client that left at this time, as much as its stream takes at once. The rest is owed to it; where 64
    /// texts are, that of the oldest connection is dropped. Returns whether something is owed to it: else all is sent, the
    /// write failed, or memory ran out, and its connection is closed.
    pub fn leave(&mut self, conn: u64, stream: S, text: ByteString, now: u64) -> bool
        ensures { AfterLeave S.meaning result stream text now conn self.old self.new }
    {
        let (owed, is_over) = first_try(stream, text, now);
        if is_over {
            return false;
        }
        self.make_place();
        match self.owed.insert(conn, owed) {
            Ok(_) => true,
            Err(_) => false,
        }
    }

    /// Goes on to send what is owed on a connection, by one write. Returns whether something is left; where nothing is, or the
    /// write failed, the connection is closed.
    pub fn go_on(&mut self, conn: u64) -> bool
        ensures there { AfterTry S.meaning result (owed_to self.old conn) (owed_to self.new conn) }
        ensures others { OthersOwed conn self.old self.new }
    {
        match try_more_in(&mut self.owed, conn) {
            Some(true) => {
                let _ = self.owed.remove(&conn);
                false
            }
            Some(false) => true,
            None => false,
        }
    }

    /// Drops what is owed to each client that left this many seconds ago or earlier, and closes its connection.
    pub fn drop_late(&mut self, now: u64, seconds: u64)
        ensures { all_owed self.new ≡ filter (λ e. not (nat_le seconds (now - since_of e.1))) (all_owed self.old) }
    {
        self.owed.retain(|_conn, one| !one.is_late(now, seconds));
    }
}
