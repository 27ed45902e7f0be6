//! What all threads of a run share.

use dist_run_hosts::{Host, Places, RunError, stop_listening};
use dist_run_plan::DialPlan;
use std::alloc::Global;
use std::sync::atomic::{AtomicBool, AtomicU64, Ordering};

/// What all threads of a run share.
#[derive(Drop)]
pub struct Site<'a, R> {
    /// The system.
    pub rt: &'a R,
    /// Where memory comes from.
    pub alloc: Global,
    /// The nodes, in the order of the plan.
    pub hosts: &'a [Host],
    /// The dials, in the order of the plan.
    pub dials: &'a [DialPlan],
    /// The link of each dial's connection, once it has one.
    pub links: &'a [AtomicU64],
    /// The port of the port mapper.
    pub mapper_port: u16,
    /// How the descriptors of the process are shared out.
    pub places: Places,
    /// How many turns, of some 10 milliseconds at most, a connection or a lookup gets, and a listener waits for the next one.
    pub turns: usize,
    /// Whether the run has failed: what it leaves is not whole.
    pub failed: AtomicBool,
}

impl<'a, R> Site<'a, R> {
    /// Has the run fail. The threads that accept stop then: none of them waits at its listener any more.
    pub fn fail(&self) {
        self.failed.store(true, Ordering::SeqCst);
        for host in self.hosts {
            stop_listening(&host.listener);
        }
    }

    /// Why the run has failed, where so many nodes had a thread that accepts: ThreadFailed where one had none, else NoMemory.
    pub fn fault(&self, accepting: usize) -> Option<RunError> {
        if accepting < self.hosts.len() {
            return Some(RunError::ThreadFailed);
        }
        self.failed
            .load(Ordering::SeqCst)
            .then_some(RunError::NoMemory)
    }

    /// Notes the link of the connection of a dial, by the dial's number.
    pub fn note(&self, number: u32, link: u64) {
        if let Some(noted) = self.links.get(number as usize) {
            noted.store(link, Ordering::SeqCst);
        }
    }

    /// Whether a dial of the run is known to have this link.
    pub fn is_of_dial(&self, link: u64) -> bool {
        self.links
            .iter()
            .any(|noted| noted.load(Ordering::SeqCst) == link)
    }

    /// Keeps something until the run ends. Without memory for it the run fails.
    pub fn keep<T: Drop>(&self, list: &mut Vec<T>, next: T) {
        if list.push(next).is_err() {
            self.fail();
        }
    }
}
