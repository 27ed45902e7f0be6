//! The time of day, in UTC.

ghost use Rattle.std.specs.Prelude.{◌≡◌, ◌≤◌, IfOk, decimal, string_bytes};

use distping_words::Fault;
use httpdate::HttpDate;
use std::alloc::{AllocError, Global};
use std::str;
use std::time::{SystemTime, UNIX_EPOCH};

/// The names of the months in an HTTP date.
const MONTHS: [&[u8; 3]; 12] = [
    b"Jan", b"Feb", b"Mar", b"Apr", b"May", b"Jun", b"Jul", b"Aug", b"Sep", b"Oct", b"Nov", b"Dec",
];

/// How many whole seconds have passed since 1970, by the system's clock.
pub fn now_seconds(rt: &HostRuntime) -> Result<u64, Fault> {
    let Ok(now) = SystemTime::now(rt) else {
        return Err(Fault::NoTime);
    };
    match now.duration_since(UNIX_EPOCH) {
        Ok(since) => Ok(since.as_secs()),
        Err(_) => Err(Fault::NoTime),
    }
}

// The number of the month with this name, counted from 1.
fn month_number(name: &[u8]) -> usize {
    match MONTHS.iter().position(|month| month.as_slice() == name) {
        Some(place) => place + 1,
        None => 0,
    }
}

// A part of a date, as text.
fn part_of(bytes: &[u8]) -> &str {
    str::from_utf8(bytes).unwrap_or("?")
}

// An HTTP date, such as `Thu, 26 Nov 2026 15:04:05 GMT`, as ISO 8601 writes it.
fn iso_text(alloc: Global, date: &[u8; 29]) -> Result<String, AllocError> {
    let (year, month) = (part_of(&date[12..16]), month_number(&date[8..11]));
    let (day, time) = (part_of(&date[5..7]), part_of(&date[17..25]));
    format!(in alloc; "{year}-{month:02}-{day}T{time}Z")
}

/// The time this many seconds after 1970 began, in UTC, as `2026-11-26T15:04:05Z`. After the year 9999 it is the number of seconds.
pub fn utc_text(alloc: Global, seconds: u64) -> Result<String, AllocError>
    ensures late { 253_402_300_800 ≤ seconds → IfOk result (λ text. string_bytes text ≡ decimal seconds) }
{
    match HttpDate::from_unix_secs(seconds) {
        Ok(date) => iso_text(alloc, &date.to_bytes()),
        Err(_) => format!(in alloc; "{seconds}"),
    }
}
