//! The log. A writer that fails, or takes no more, neither stops nor delays the program: the lines that it does not take are left out.

ghost use Rattle.std.specs.{Prelude.◌≡◌, Prelude.ℕ, Prelude.List, Prelude.IfOk, String.string_bytes};
ghost use Rattle.dist_epmd_clients.specs.Reporting.{events_of};
ghost use Rattle.distmapd.specs.{Lines.event_line, Logging.PutsFront, Logging.LogsEvents, Logging.LogsRound, Logging.ReportsLeftOut};

use crate::lines::{Round, event_line, left_out_line};
use crate::rates::Rates;
use crate::settings::LogForm;
use dist_epmd_clients::{ClientEvent, Clients};
use std::alloc::{AllocError, Global};
use std::io::Write;

// Writes a line in one write. Returns whether all of it was written.
fn put<W: Write>(out: &mut W, line: Result<String, AllocError>) -> bool
    ensures { (text : List ℕ) → IfOk line (λ l. string_bytes l ≡ text) → PutsFront text (W.contents out.old) (W.contents out.new) }
{
    let Ok(text) = line else {
        return false;
    };
    match out.write(text.as_bytes()) {
        Ok(count) => count == text.len(),
        Err(_) => false,
    }
}

/// A log, and how many of its lines were left out.
#[derive(Drop)]
pub struct Log {
    form: LogForm,
    rates: Rates,
}

impl Log {
    /// A log in this form, with no line written.
    pub fn new(form: LogForm) -> Log {
        Log {
            form,
            rates: Rates::new(),
        }
    }

    // Writes a line that counts for this many: if it is not written whole, this many are left out.
    fn put_for<W: Write>(
        &mut self,
        out: &mut W,
        count: u64,
        line: Result<String, AllocError>,
        now: u64,
    )
        ensures puts { (text : List ℕ) → IfOk line (λ l. string_bytes l ≡ text) → PutsFront text (W.contents out.old) (W.contents out.new) }
        ensures form { self.new.form ≡ self.old.form }
    {
        if !put(out, line) {
            self.rates.leave_out(count, now);
        }
    }

    // Writes the line of an event, if its kind may have one more line in this second.
    fn write_event<W: Write>(
        &mut self,
        alloc: Global,
        out: &mut W,
        round: &Round<'_>,
        event: &ClientEvent,
    )
        ensures logs { PutsFront (event_line self.old.form round.now event.now) (W.contents out.old) (W.contents out.new) }
        ensures form { self.new.form ≡ self.old.form }
    {
        let now = round.second;
        if self.rates.admit(event, now) {
            let line = event_line(alloc, self.form, round, event);
            self.put_for(out, 1, line, now);
        } else {
            self.rates.leave_out(1, now);
        }
    }

    // Writes the lines of events.
    fn write_all<W: Write>(
        &mut self,
        alloc: Global,
        out: &mut W,
        round: &Round<'_>,
        events: &[ClientEvent],
    )
        ensures logs { LogsEvents self.old.form round.now events.now (W.contents out.old) (W.contents out.new) }
        ensures form { self.new.form ≡ self.old.form }
    {
        for event in events {
            self.write_event(alloc, out, round, event);
        }
    }

    // Writes how many lines were left out, once the second of the last one is over.
    fn write_left_out<W: Write>(&mut self, alloc: Global, out: &mut W, round: &Round<'_>)
        ensures reports { ReportsLeftOut self.old.form round.now (W.contents out.old) (W.contents out.new) }
        ensures form { self.new.form ≡ self.old.form }
    {
        let count = self.rates.take_left_out(round.second);
        if count > 0 {
            let line = left_out_line(alloc, self.form, round, count);
            self.put_for(out, count, line, round.second);
        }
    }

    /// Writes the events since the last call of `forget_events`.
    pub fn write_events<S: Drop, W: Write>(
        &mut self,
        alloc: Global,
        out: &mut W,
        round: &Round<'_>,
        clients: &Clients<S>,
    )
        ensures { LogsRound self.old.form round.now (events_of clients.now) (W.contents out.old) (W.contents out.new) }
    {
        self.write_left_out(alloc, out, round);
        self.rates
            .leave_out_missed(clients.counts().missed, round.second);
        self.write_all(alloc, out, round, clients.events());
    }
}
