//! Calls that drive an end: their stream fails, ends, is cut or is quiet, their turns run out, or memory does.

use crate::setting::{CHALLENGE, Rising, bytes_of, node_after, number, word};
use dist_drive::{Desk, FaultStream, MemoryDesk, Outcome, drive};
use dist_peers::EndId;
use std::alloc::Global;
use std::test::*;

// Adds a size; `-` is none.
fn put_size(sizes: &mut Vec<usize>, size: &str, at: u64) -> Option<()> {
    if size == "-" {
        return Some(());
    }
    sizes.push(number(size, at) as usize).ok()
}

// Adds the sizes between commas.
fn put_sizes(sizes: &mut Vec<usize>, text: &str, at: u64) -> Option<()> {
    for size in text.split(',') {
        put_size(sizes, size, at)?;
    }
    Some(())
}

// Lets the reads and writes of a stream go as a row says.
fn set_faults(stream: &mut FaultStream, row: &str, at: u64) -> Option<()> {
    stream.fail_read = number(word(row, 5), 0);
    stream.fail_write = number(word(row, 6), 0);
    put_sizes(&mut stream.read_sizes, word(row, 3), at)?;
    put_sizes(&mut stream.write_sizes, word(row, 4), at)
}

fn stream_of(alloc: Global, row: &str, at: u64) -> Option<FaultStream> {
    let mut input = bytes_of(alloc, word(row, 1))?;
    input.truncate(number(word(row, 2), at) as usize);
    let mut stream = FaultStream::new(alloc, input);
    set_faults(&mut stream, row, at)?;
    Some(stream)
}

// The desk of the first end: of node a, which `dialled` node b; or of node b, whose end is `gone` before the call, or accepted.
fn desk_of(alloc: Global, side: &str) -> Option<MemoryDesk> {
    let (letter, words) = match side {
        "dialled" => ("a", "dial opened"),
        "gone" => ("b", "incoming replaced"),
        _ => ("b", "incoming"),
    };
    MemoryDesk::new(alloc, node_after(alloc, letter, words)?, EndId(0)).ok()
}

// Reports how a call ended, which loss was reported, and how the end stands; the numbers of frames given to the node, of bytes written,
// of the node's entries; and of reads and writes.
fn report_of(
    alloc: Global,
    outcome: Outcome,
    desk: &MemoryDesk,
    stream: &FaultStream,
) -> Option<String> {
    let steps = desk.list();
    let loss = match steps.last() {
        Some(step) => step.0.lost_why(),
        None => None,
    };
    let frames = steps.len().saturating_sub(usize::from(loss.is_some()));
    let still = desk.still(EndId(0));
    let (written, entries, calls) = (stream.output().len(), desk.node().entries(), stream.calls());
    format!(in alloc;
        "{outcome:?} {loss:?} {still:?} {frames} {written} {entries}; {calls} calls"
    ).ok()
}

// Drives the end of a desk as a row says. A dialled end has sent its name, and its challenge is the second number drawn; that of an
// accepted end is the first.
fn drive_row(
    alloc: Global,
    row: &str,
    stream: &mut FaultStream,
    desk: &mut MemoryDesk,
) -> Option<Outcome> {
    let (first, drawn) = match word(row, 0) {
        "dialled" => ("name", CHALLENGE - 1),
        _ => ("-", CHALLENGE),
    };
    let first = bytes_of(alloc, first)?;
    let mut draws = Rising(drawn);
    let limit = number(word(row, 7), 0) as usize;
    Some(drive(alloc, stream, desk, &mut draws, EndId(0), &first, limit))
}

// What is reported of the call of a row, played with this number.
fn play_row(alloc: Global, row: &str, at: u64) -> Option<String> {
    let mut stream = stream_of(alloc, row, at)?;
    let mut desk = desk_of(alloc, word(row, 0))?;
    let outcome = drive_row(alloc, row, &mut stream, &mut desk)?;
    report_of(alloc, outcome, &desk, &stream)
}

// The side; the frames that it receives, and how many bytes of them; the most bytes of each read and of each write in turn, 0 for a
// quiet turn; which read and which write fails; the limit; the numbers with which the row is played, `at` in its words. Then what is
// reported, of a row with several numbers without the reads and writes.
//
// Packets after a handshake are not given to the node; what the last turn read still is. The loss of the end that is gone was reported
// to its node before the call.
const ROWS: &str = "\
# drive_faults
accepted name+reply 999 28,23 - 0 0 100 0 1 => Closed(Ended) Some(Ended) Gone(Ended) 2 56 0; 5 calls
accepted name+reply 999 28,23 - 1 0 100 0 1 => Closed(ReadFailed) Some(ReadFailed) Gone(ReadFailed) 0 0 0; 1 calls
accepted name+reply 999 28,23 - 0 1 100 0 1 => Closed(WriteFailed) Some(WriteFailed) Gone(WriteFailed) 1 0 0; 2 calls
accepted name+reply 999 28,23 - 2 0 100 0 1 => Closed(ReadFailed) Some(ReadFailed) Gone(ReadFailed) 1 37 0; 3 calls
accepted name+reply 999 28,23 - 0 2 100 0 1 => Closed(WriteFailed) Some(WriteFailed) Gone(WriteFailed) 2 37 0; 4 calls
accepted name+reply 999 28,23 - 3 0 100 0 1 => Closed(ReadFailed) Some(ReadFailed) Gone(ReadFailed) 2 56 0; 5 calls
dialled ok+challenge+acknowledgement 999 37,23 - 0 0 100 0 1 => Closed(Ended) Some(Ended) Gone(Ended) 3 51 0; 5 calls
dialled ok+challenge+acknowledgement 999 37,23 - 0 1 100 0 1 => Closed(WriteFailed) Some(WriteFailed) Gone(WriteFailed) 0 0 0; 1 calls
dialled ok+challenge+acknowledgement 999 37,23 - 1 0 100 0 1 => Closed(ReadFailed) Some(ReadFailed) Gone(ReadFailed) 0 28 0; 2 calls
dialled ok+challenge+acknowledgement 999 37,23 - 0 2 100 0 1 => Closed(WriteFailed) Some(WriteFailed) Gone(WriteFailed) 2 28 0; 3 calls
dialled ok+challenge+acknowledgement 999 37,23 - 2 0 100 0 1 => Closed(ReadFailed) Some(ReadFailed) Gone(ReadFailed) 2 51 0; 4 calls
dialled ok+challenge+acknowledgement 999 37,23 - 3 0 100 0 1 => Closed(ReadFailed) Some(ReadFailed) Gone(ReadFailed) 3 51 0; 5 calls
# write_fails_in_mid_handshake
accepted name+reply+packets 999 28,23 37,3 0 3 100 0 1 => Closed(WriteFailed) Some(WriteFailed) Gone(WriteFailed) 2 40 0; 5 calls
accepted name+reply+packets 999 28,23 37,3 0 3 0 0 1 => Limit None Pending 0 0 0; 0 calls
# quiet streams, and limits
accepted name+reply+packets 999 0,0,0,0 - 0 0 40 0 1 => Limit None Pending 0 0 0; 40 calls
accepted name+reply+packets 999 28,0,0,0 - 0 0 3 0 1 => Limit None Pending 1 37 1; 3 calls
accepted name+reply+packets 999 28,0,0,0 - 0 0 1 0 1 => Limit None Pending 1 0 1; 1 calls
accepted name+reply+packets 999 28,23,13,0 - 0 0 6 0 1 => Limit None Up 2 56 1; 6 calls
# drive_of_a_gone_end
gone name+reply+packets 999 - - 0 0 100 0 1 => Closed(Replaced) None Gone(Replaced) 0 0 0; 0 calls
# a peer that knows version 5 alone
accepted old_name+reply 999 20,23 - 0 0 100 0 1 => Closed(Ended) Some(Ended) Gone(Ended) 2 48 0; 5 calls
accepted old_name+reply 999 20,23,0,0 - 0 0 6 0 1 => Limit None Up 2 48 1; 6 calls
# drive_refused_by_status
dialled nok 999 - - 0 0 100 0 1 => Closed(StatusRefused) None Gone(StatusRefused) 1 28 0; 2 calls
# drive_cut_input: cut after each byte, in single bytes and in one piece
accepted name+reply+packets at 1 1 0 0 1000 0 28 => Closed(Ended) Some(Ended) Gone(Ended) 0 0 0;
accepted name+reply+packets at 1 1 0 0 1000 28 51 => Closed(Ended) Some(Ended) Gone(Ended) 1 37 0;
accepted name+reply+packets at 1 1 0 0 1000 51 65 => Closed(Ended) Some(Ended) Gone(Ended) 2 56 0;
accepted name+reply+packets at 100 100 0 0 1000 0 28 => Closed(Ended) Some(Ended) Gone(Ended) 0 0 0;
accepted name+reply+packets at 100 100 0 0 1000 28 51 => Closed(Ended) Some(Ended) Gone(Ended) 1 37 0;
accepted name+reply+packets at 100 100 0 0 1000 51 65 => Closed(Ended) Some(Ended) Gone(Ended) 2 56 0;
# packets_are_never_frames: a handshake and packets behind it in two pieces, cut after each byte
accepted name+reply+packets 999 at,100 - 0 0 100 1 70 => Closed(Ended) Some(Ended) Gone(Ended) 2 56 0;
dialled ok+challenge+acknowledgement+packets 999 at,100 - 0 0 100 1 70 => Closed(Ended) Some(Ended) Gone(Ended) 3 51 0;";

#[test]
fn driven_calls_go_as_their_rows_say(rt: HostRuntime) {
    for row in ROWS.lines() {
        let (case, wanted) = row.split_once(" => ").unwrap_or((row, ""));
        for at in number(word(case, 8), 0)..number(word(case, 9), 0) {
            let seen = play_row(rt.alloc(), case, at);
            let seen = seen.as_deref().unwrap_or("NoMemory");
            assert!(rt; seen.starts_with(wanted), "{row}: {seen}");
        }
    }
}

// A call that runs out of memory reports it like any fault, and the end is lost, which takes no memory. A request is refused in the
// call, as `rt try --test --fail-alloc N` does for N = 1, 2, .., or to the stream itself, which then fails. If one is refused before
// the call, nothing is tested.
#[test]
fn memory_refused_in_a_call(rt: HostRuntime) {
    let row = "accepted name+reply+packets 999 28,23 37,3 0 3 100";
    if let Some(seen) = play_row(rt.alloc(), row, 0) {
        let is_lost = seen.starts_with("Closed(WriteFailed) Some(WriteFailed) Gone(WriteFailed) ")
            || seen.starts_with("Closed(NoMemory) Some(NoMemory) Gone(NoMemory) ");
        let frames = number(word(&seen, 3), 9);
        assert!(rt; is_lost && frames <= 2 && word(&seen, 5) == "0;", "{seen}");
    }
}
