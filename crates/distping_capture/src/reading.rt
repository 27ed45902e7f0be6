//! Reads a capture, and prints what it shows.

ghost use Rattle.std.specs.Prelude.{◌≡◌, ℕ, List, IfOk, None, Ok, OnOk};
ghost use Rattle.dist_capture.specs.Reading.{whole};
ghost use Rattle.distping_capture.specs.Captures.{AreAll, EndsWith, ReadsIn, TakesIn, terms_of};

use crate::connections::CapturedConnections;
use dist_capture::{Capture, CaptureFault};
use dist_secret::Cookie;
use dist_talk::{NoCookie, Terms, Viewpoint};
use distping_report::{LineSink, ResultSink};
use distping_words::{Choices, Fault};
use std::fs::{self, File};
use std::io::{ErrorKind, Read, Write};

// The most bytes that are read at once. Our own choice.
const PIECE: usize = 65_536;

// Takes the segments that are whole in what was read.
fn take_segments<W: Write>(
    capture: &mut Capture,
    connections: &mut CapturedConnections<'_, W>,
) -> Result<(), Fault>
    ensures taken { OnOk result (TakesIn capture.old connections.old capture.new connections.new) }
    ensures no_more { OnOk result (whole capture.new ≡ Ok None) }
{
    'segments: for _ in 0..u64::MAX {
        match capture.next() {
            Ok(Some(segment)) => connections.take(&segment)?,
            Ok(None) => return Ok(()),
            Err(CaptureFault::NoMemory) => return Err(Fault::NoMemory),
            Err(_) => return Err(Fault::NoCapture),
        }
    }
    Err(Fault::CaptureUnread)
}

// Takes all segments of a capture, each as soon as it is read.
fn take_all<F: Read + Drop, W: Write>(
    file: F,
    capture: &mut Capture,
    connections: &mut CapturedConnections<'_, W>,
) -> Result<(), Fault>
    ensures all { OnOk result ((bytes : List ℕ) × AreAll (F.remaining file) bytes
        × ReadsIn bytes capture.old connections.old capture.new connections.new) }
    ensures no_more { OnOk result (whole capture.new ≡ Ok None) }
{
    let mut file = file;
    let mut room = [0u8; PIECE];
    'pieces: for _ in 0..u64::MAX {
        take_segments(capture, connections)?;
        let count = match file.read(&mut room) {
            Ok(count) => count,
            Err(error) if error.kind() == ErrorKind::Interrupted => continue,
            Err(_) => return Err(Fault::CaptureUnread),
        };
        if count == 0 {
            return Ok(());
        }
        capture.feed(&room[..count])?;
    }
    Err(Fault::CaptureUnread)
}

// Reads a capture whole, prints what it shows, and returns the exit status: the first that is not 0 of the attempts. The texts of verdicts
// go to `out`, which is returned too.
fn read_whole<F: Read + Drop, W: Write + Drop>(
    lines: LineSink<'_>,
    terms: Terms<'_>,
    mapper_port: u16,
    file: F,
    out: ResultSink<W>,
) -> Result<(u8, ResultSink<W>), Fault>
    ensures { IfOk result (λ it. (bytes : List ℕ) × AreAll (F.remaining file) bytes
        × EndsWith terms.entry mapper_port lines.entry.quiet bytes out it.1 it.0) }
{
    let mut connections = CapturedConnections::new(lines, terms, mapper_port, out);
    let mut capture = Capture::new(lines.alloc);
    match take_all(file, &mut capture, &mut connections) {
        Ok(()) => {
            let status = connections.finish(capture.counts(), capture.is_cut_off())?;
            Ok((status, connections.into_results()))
        }
        Err(fault) => {
            connections.give_up_all()?;
            Err(fault)
        }
    }
}

// Opens the file at this path, if it stands on a disk: a named pipe cannot even be opened before somebody writes into it, and a device
// may have no end. The kind is checked before.
fn open_stored(rt: &HostRuntime, path: &str) -> Result<File, Fault> {
    match fs::metadata(rt, path) {
        Ok(metadata) if metadata.file_type().is_file() => {}
        Ok(_) => return Err(Fault::CaptureNotStored),
        Err(_) => return Err(Fault::CaptureClosed),
    }
    match File::open(rt, path) {
        Ok(file) => Ok(file),
        Err(_) => Err(Fault::CaptureClosed),
    }
}

/// Reads the capture at this path (`-` is standard input), prints what it shows, and returns the exit status: the first that is not 0 of
/// the attempts. The texts of verdicts, or their objects, go to `out`, which is returned too.
pub fn read_capture<W: Write + Drop>(
    rt: &HostRuntime,
    path: &str,
    choices: &Choices<'_>,
    cookie: Option<&Cookie>,
    out: ResultSink<W>,
) -> Result<(u8, ResultSink<W>), Fault>
    ensures { IfOk result (λ it. (bytes : List ℕ)
        × EndsWith (terms_of cookie.entry) choices.now.mapper_port choices.now.json bytes out it.1 it.0) }
{
    let lines = LineSink::on_screen(rt, choices.json);
    let terms = Terms {
        viewpoint: Viewpoint::Capture,
        target: None,
        cookie: cookie.ok_or(NoCookie::Missing),
    };
    if path == "-" {
        read_whole(lines, terms, choices.mapper_port, rt.stdin(), out)
    } else {
        let file = open_stored(rt, path)?;
        read_whole(lines, terms, choices.mapper_port, file, out)
    }
}
