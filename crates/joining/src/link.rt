//! The link, once it is up: hands on what arrives, answers `net_adm:ping`, sends a tick if nothing was sent for a while, and gives up a
//! silent peer.

use crate::fault::Fault;
use crate::ping::{answer_to, question_in};
use crossbeam_channel::{SendTimeoutError, Sender};
use distribution::{
    Due, Limited, Packets, SocketStream, Ticker, UpRecord, Why, tick, write_packet,
};
use std::alloc::Global;
use std::sync::Wait;
use std::sync::atomic::{AtomicBool, Ordering};
use std::time::{Clock, Duration, Instant};

/// What the link needs while it is kept.
#[derive(Drop)]
pub struct Keeping<'a, R> {
    /// The clock, and the runtime for calls that may wait.
    pub rt: &'a R,
    /// Since when the link is kept.
    pub start: Instant,
    /// Where the length of each packet is sent, for the thread that prints it, which ends once this is let go.
    pub lengths: Sender<usize>,
    /// Whether the program should leave. Whoever sets it wakes the link, by shutting its socket for reads.
    pub ended: &'a AtomicBool,
}

impl<'a, R: Clock> Keeping<'a, R> {
    // How many milliseconds the link is kept.
    fn now(&self) -> Result<u64, Fault> {
        Ok(u64::try_from(self.start.elapsed(self.rt)?.as_millis()).unwrap_or(u64::MAX))
    }
}

/// A link that is up.
#[derive(Drop)]
pub struct Link {
    /// The connection.
    pub stream: SocketStream,
    /// What is known of the peer.
    pub record: UpRecord,
    /// The packets that arrive on it.
    pub packets: Packets,
    /// When a tick is due, in milliseconds since the link is kept.
    pub ticker: Ticker,
    /// Where the memory of an answer comes from.
    pub alloc: Global,
}

impl Link {
    // The length of the next packet, once it is whole.
    fn next_len(&self) -> Result<Option<usize>, Fault> {
        match self.packets.front()? {
            Some(packet) => Ok(Some(packet.len())),
            None => Ok(None),
        }
    }

    // Sends these bytes, in ten writes at most.
    fn send<R: Clock>(&mut self, with: &Keeping<'_, R>, bytes: &[u8]) -> Result<(), Fault> {
        let mut limited = Limited {
            stream: &mut self.stream,
            left: 10,
        };
        limited.write_all(bytes)?;
        self.ticker.note_write(with.now()?);
        Ok(())
    }

    // Answers the next packet, if it is that of `net_adm:ping`.
    fn answer_ping<R: Clock>(&mut self, with: &Keeping<'_, R>) -> Result<(), Fault> {
        let Some(packet) = self.packets.front()? else {
            return Ok(());
        };
        let Some(question) = question_in(packet) else {
            return Ok(());
        };
        let answer = answer_to(self.alloc, &question)?;
        let packet = write_packet(self.alloc, answer.as_slice())?;
        self.send(with, packet.as_slice())
    }

    // Hands on the length of the next packet, and answers it, if there is room for the length within this time. While nothing is read,
    // the peer does not count as silent. (A bounded channel needs no memory, so any other error is that nobody prints.)
    fn hand_on<R: Wait + Clock>(
        &mut self,
        with: &Keeping<'_, R>,
        len: usize,
        wait: Duration,
    ) -> Result<bool, Fault> {
        match with.lengths.send_timeout(with.rt, len, wait) {
            Ok(()) => {
                self.answer_ping(with)?;
                self.packets.drop_front();
            }
            Err(SendTimeoutError::Timeout(_)) if !with.ended.load(Ordering::SeqCst) => {}
            Err(_) => return Ok(false),
        }
        self.ticker.note_read(with.now()?);
        Ok(true)
    }

    // Reads what arrives within this time, a piece at most.
    fn listen<R: Clock>(&mut self, with: &Keeping<'_, R>, wait: Duration) -> Result<bool, Fault> {
        self.stream.get_ref().set_read_timeout(Some(wait))?;
        let mut room = [0u8; 4096];
        let mut limited = Limited {
            stream: &mut self.stream,
            left: 1,
        };
        let read = limited.read(&mut room);
        if with.ended.load(Ordering::SeqCst) {
            return Ok(false);
        }
        let count = read?;
        if 0 < count {
            self.ticker.note_read(with.now()?);
            self.packets.feed(&room[..count])?;
        }
        Ok(true)
    }

    // Sends a tick.
    fn send_tick<R: Clock>(&mut self, with: &Keeping<'_, R>) -> Result<bool, Fault> {
        self.send(with, &tick())?;
        Ok(true)
    }

    // Does what is due now. Returns whether the link is kept on.
    fn take_turn<R: Wait + Clock>(&mut self, with: &Keeping<'_, R>) -> Result<bool, Fault> {
        let wait = match self.ticker.due(with.now()?) {
            Due::Nothing { wait } => Duration::from_millis(wait),
            Due::Tick => return self.send_tick(with),
            Due::GiveUp => return Err(Fault::Lost(Why::GaveUp)),
        };
        match self.next_len()? {
            Some(len) => self.hand_on(with, len, wait),
            None => self.listen(with, wait),
        }
    }

    /// Keeps the link until the program should leave, or nobody prints, which ends it, or until it is lost.
    pub fn keep<R: Wait + Clock>(&mut self, with: Keeping<'_, R>) -> Result<(), Fault> {
        for _ in 0..u64::MAX {
            if !self.take_turn(&with)? {
                break;
            }
        }
        let _ = self.stream.shut();
        Ok(())
    }
}
