//! Which threads have ended.

use std::alloc::{AllocError, Global};
use std::sync::atomic::{AtomicBool, Ordering};

/// For each seat of a node, whether the thread that had it last has ended. A thread sets its mark as the last thing that it
/// does with the node, so whoever joins it then waits for no turn of a connection.
#[derive(Drop)]
pub struct EndMarks {
    marks: Vec<AtomicBool>,
}

impl EndMarks {
    /// No mark of this many seats is set.
    pub fn new(alloc: Global, seats: u32) -> Result<EndMarks, AllocError> {
        let mut marks = Vec::with_capacity(alloc, seats as usize)?;
        for _ in 0..seats {
            marks.push(AtomicBool::new(false))?;
        }
        Ok(EndMarks { marks })
    }

    /// Sets the mark of a seat, or takes it away. Of a seat that the node does not have nothing is noted.
    pub fn set(&self, seat: u32, has_ended: bool) {
        if let Some(mark) = self.marks.get(seat as usize) {
            mark.store(has_ended, Ordering::SeqCst);
        }
    }

    /// Whether the mark of a seat is set.
    pub fn is_set(&self, seat: u32) -> bool {
        match self.marks.get(seat as usize) {
            Some(mark) => mark.load(Ordering::SeqCst),
            None => false,
        }
    }
}
