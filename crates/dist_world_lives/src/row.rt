//! What stays of an end for ever.
ghost use Rattle.std.specs.Prelude.{◌≡◌, true};
ghost use Rattle.dist_world_model.specs.{Rows.new_row, Rows.once, Happenings.shut_row, Happenings.reached_row};
ghost use Rattle.dist_world_lives.specs.{Stepping.own_row, Stepping.doomed_row, Keeping.number_if};

use dist_core::Note;
use dist_messages::Side;
use dist_names::NodeName;
use std::marker::Model;

/// What stays of an end for ever, also once it is closed and its node has ended. The numbers are of happenings that applied,
/// counted from 0.
///
/// Which of the numbers were written stands apart from them: so a row takes 80 bytes, and not 128.
#[derive(Drop)]
pub struct EndRow {
    side: Side,
    is_reached: bool,
    is_named: bool,
    is_doomed: bool,
    has_replied: bool,
    has_risen: bool,
    is_closed: bool,
    peer: Option<NodeName>,
    conn: usize,
    given: u64,
    named: u64,
    doomed: u64,
    replied: u64,
    rose: u64,
    closed: u64,
}

impl Model for EndRow {
    ghost use Rattle.dist_world_model.specs.Rows as rows;
    ghost use Rattle.dist_world_lives.specs.Keeping.{number_if};

    ghost Value = { rows.EndRow };

    ghost view = { λ r. record {
      side = r.side;
      peer = r.peer;
      conn = number_if r.is_reached r.conn;
      given = r.given;
      named = number_if r.is_named r.named;
      doomed = number_if r.is_doomed r.doomed;
      replied = number_if r.has_replied r.replied;
      rose = number_if r.has_risen r.rose;
      closed = number_if r.is_closed r.closed;
    } };
}

impl EndRow {
    pub fn new(side: Side, peer: Option<NodeName>, conn: Option<usize>, given: u64) -> EndRow
        ensures { result ≡ new_row side peer conn given }
    {
        let (is_reached, conn) = match conn {
            Some(conn) => (true, conn),
            None => (false, 0),
        };
        EndRow {
            side,
            is_reached,
            is_named: false,
            is_doomed: false,
            has_replied: false,
            has_risen: false,
            is_closed: false,
            peer,
            conn,
            given,
            named: 0,
            doomed: 0,
            replied: 0,
            rose: 0,
            closed: 0,
        }
    }

    /// Who opened its connection.
    pub fn side(&self) -> Side
        ensures { result ≡ self.now.side }
    {
        self.side
    }

    /// Its connection, where it has one.
    #[tactic(auto, using(crate::proofs::Keeping::is_written, crate::proofs::Keeping::is_unwritten))]
    pub fn conn(&self) -> Option<usize>
        ensures { result ≡ self.now.conn }
    {
        if self.is_reached {
            Some(self.conn)
        } else {
            None
        }
    }

    /// It gets a connection.
    pub fn reach(&mut self, conn: usize)
        ensures { self.new ≡ reached_row conn self.old }
    {
        self.is_reached = true;
        self.conn = conn;
    }

    /// It is closed.
    pub fn close(&mut self, clock: u64)
        ensures { self.new ≡ shut_row clock self.old }
    {
        write_once(&mut self.is_closed, &mut self.closed, clock);
    }

    /// It is doomed.
    pub fn doom(&mut self, clock: u64)
        ensures { self.new ≡ doomed_row clock self.old }
    {
        write_once(&mut self.is_doomed, &mut self.doomed, clock);
    }

    /// It got an event, and this is noted of it.
    pub fn note(&mut self, clock: u64, note: Note, is_up: bool)
        ensures { self.new ≡ own_row clock note is_up self.old }
    {
        match note {
            Note::Nothing => {}
            Note::NameTaken { peer, dooms: _ } => {
                self.peer = Some(peer);
                write_once(&mut self.is_named, &mut self.named, clock);
            }
            Note::ReplySaid => write_once(&mut self.has_replied, &mut self.replied, clock),
        }
        if is_up {
            write_once(&mut self.has_risen, &mut self.rose, clock);
        }
    }
}

// A number once written stays.
#[tactic(auto, using(crate::proofs::Keeping::first_written, crate::proofs::Keeping::stays_written))]
fn write_once(is_written: &mut bool, number: &mut u64, clock: u64)
    ensures { number_if is_written.new number.new ≡ once true clock (number_if is_written.old number.old) }
{
    if !*is_written {
        *is_written = true;
        *number = clock;
    }
}
