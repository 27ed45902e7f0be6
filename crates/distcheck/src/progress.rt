//! What is said on a terminal while talks are played.

use dist_conformance::Section;
use dist_names::escape;
use std::alloc::{AllocError, Global};
use std::io::Write;
use std::sync::atomic::{AtomicUsize, Ordering};

// The descriptor of standard error.
const STANDARD_ERROR: i32 = 2;

// A section, and how many of its talks are not played yet.
#[derive(Drop)]
struct SectionCount<'a> {
    section: &'a Section,
    left: AtomicUsize,
}

/// How many talks of each section are not played yet.
#[derive(Drop)]
pub struct SectionTally<'a> {
    counts: Vec<SectionCount<'a>>,
}

impl<'a> SectionTally<'a> {
    /// That of no talk.
    pub fn new(alloc: Global) -> SectionTally<'a> {
        SectionTally {
            counts: Vec::new(alloc),
        }
    }

    fn count(&self, section: &Section) -> Option<&SectionCount<'a>> {
        self.counts
            .iter()
            .find(|it| it.section.number == section.number)
    }

    /// Counts a talk of this section.
    pub fn add(&mut self, section: &'a Section) -> Result<(), AllocError> {
        match self.count(section) {
            Some(count) => {
                count.left.fetch_add(1, Ordering::SeqCst);
                Ok(())
            }
            None => {
                let left = AtomicUsize::new(1);
                Ok(self.counts.push(SectionCount { section, left })?)
            }
        }
    }

    /// Notes that a talk of this section was played. Behind the last of them a line is printed, where standard error is a terminal.
    pub fn note(&self, rt: &HostRuntime, section: &Section) {
        if let Some(count) = self.count(section)
            && count.left.fetch_sub(1, Ordering::SeqCst) == 1
            && libc::isatty(STANDARD_ERROR) == 1
            && let Ok(line) = line_of(rt.alloc(), count.section)
        {
            let _ = rt.stderr().write_all(line.as_bytes());
        }
    }
}

fn line_of(alloc: Global, section: &Section) -> Result<String, AllocError> {
    let title = escape(alloc, section.title.as_slice())?;
    format!(in alloc;
        "distcheck: section {} is played: {title}\n",
        section.number
    )
}
