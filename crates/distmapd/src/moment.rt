//! The time of day, in UTC.

use jiff::Timestamp;
use std::alloc::{AllocError, Global};
use std::time::{Clock, Duration, SystemTime, UNIX_EPOCH};

/// How many seconds have passed since 1970, by the system's clock; 0 if it does not say.
pub fn now_seconds<R: Clock>(rt: &R) -> u64 {
    let now = SystemTime::now(rt).unwrap_or(UNIX_EPOCH);
    let since = now.duration_since(UNIX_EPOCH).unwrap_or(Duration::ZERO);
    since.as_secs()
}

// The time this many seconds after 1970 began, as RFC 3339 writes it: `2026-11-26T15:04:05Z`.
fn utc_text(alloc: Global, seconds: u64) -> Result<String, AllocError> {
    match Timestamp::from_second(i64::try_from(seconds).unwrap_or(0)) {
        Ok(time) => format!(in alloc; "{time}"),
        Err(_) => format!(in alloc; "{seconds}"),
    }
}

/// The time of day as text, made once a second.
#[derive(Drop)]
pub struct TimeOfDay {
    seconds: Option<u64>,
    text: String,
}

impl TimeOfDay {
    /// No time yet. It takes no memory.
    pub fn new(alloc: Global) -> TimeOfDay {
        TimeOfDay {
            seconds: None,
            text: String::new(alloc),
        }
    }

    /// The time of day as text. If memory ran out, it is that of the last call.
    pub fn stamp<R: Clock>(&mut self, rt: &R, alloc: Global) -> &str {
        let seconds = now_seconds(rt);
        if self.seconds != Some(seconds)
            && let Ok(text) = utc_text(alloc, seconds)
        {
            (self.seconds, self.text) = (Some(seconds), text);
        }
        &self.text
    }
}
