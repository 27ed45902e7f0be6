//! Descriptors that are kept back, so that some are left after clients have taken all others.

use std::alloc::Global;

/// Descriptors that are kept back: copies of one.
#[derive(Drop)]
pub struct Spares {
    of: i32,
    held: Vec<i32>,
}

impl Spares {
    /// No descriptor yet. It takes no memory.
    pub fn new(alloc: Global, of: i32) -> Spares {
        Spares {
            of,
            held: Vec::new(alloc),
        }
    }

    /// Keeps this many, as far as there are descriptors and memory.
    pub fn hold(&mut self, count: usize) {
        for _ in self.held.len()..count {
            let fd = os::duplicate(self.of);
            if fd < 0 {
                return;
            }
            if self.held.push(fd).is_err() {
                let _ = libc::close(fd);
                return;
            }
        }
    }

    /// Whether one more can be had.
    pub fn is_one_left(&self) -> bool {
        let fd = os::duplicate(self.of);
        if fd < 0 {
            return false;
        }
        let _ = libc::close(fd);
        true
    }

    /// Gives all of them back.
    pub fn release(&mut self) {
        for fd in &self.held {
            let _ = libc::close(*fd);
        }
        self.held.clear();
    }
}
