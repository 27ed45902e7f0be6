//! The lines that a script prints: what a node answers, which ends a world closes, and how all stand at the end.

ghost use Rattle.std.specs.{Prelude.◌≡◌, Prelude.option_copied, Prelude.slice_get, Prelude.OnOk, Io.KnownBytes.Appends};
ghost use Rattle.std.specs.FinMap as map;
ghost use Rattle.dist_peers.specs.Table.{up_id};
ghost use Rattle.dist_core_ends.specs.Ends.{table_of};
ghost use Rattle.dist_script.specs.Texts.{text_of, texts_of};
ghost use Rattle.dist_script_play.specs.Lines.{creation_text, said_text, saying_text, closed_text, up_text, reply_line, busy_text, detail_text};
ghost use Rattle.dist_script_play.specs.Lines.{refused_line, entry_text, record_at, record_text, row_text, found_text, table_text};
ghost use Rattle.dist_script_play.specs.Lines.{node_text, closed_line, applied_line, skipped_line, agree_line, fooled_line};

use dist_core::{Node, Reply, StepError, UpRecord, Why};
use dist_names::{Creation, NodeName};
use dist_peers::{EndId, Entry};
use dist_script::{Piece, ScriptFault, put, put_bytes, put_piece};
use dist_world::Agreement;
use std::io::Write;

const NOTHING: Piece<'static> = Piece::Text(b"");

// A creation, where it is known.
fn creation(creation: Option<Creation>) -> Piece<'static>
    ensures { text_of result ≡ creation_text creation }
{
    match creation {
        Some(creation) => Piece::Number(creation.0 as u64),
        None => Piece::Text(b"unknown"),
    }
}

// What is sent, or that nothing is.
fn put_said<W: Write>(out: &mut W, say: &[u8]) -> Result<(), ScriptFault>
    ensures { OnOk result (Appends (W.contents out.old) (W.contents out.new) (said_text say.now)) }
{
    if say.is_empty() {
        put_bytes(out, b"-")
    } else {
        put_piece(out, Piece::Digits(say))
    }
}

// The end that a step closed, and why.
fn write_closed<W: Write>(out: &mut W, closed: Option<(EndId, Why)>) -> Result<(), ScriptFault>
    ensures { OnOk result (Appends (W.contents out.old) (W.contents out.new) (closed_text closed)) }
{
    match closed {
        Some((id, why)) => put(
            out,
            &[
                Piece::Text(b" closed "),
                Piece::Number(id.0 as u64),
                Piece::Text(b" "),
                Piece::Text(why.name().as_bytes()),
            ],
        ),
        None => put_bytes(out, b" closed -"),
    }
}

// The record of the end that came up, if one did, and the end of the line.
fn came_up<W: Write>(out: &mut W, up: Option<&UpRecord>) -> Result<(), ScriptFault>
    ensures { OnOk result (Appends (W.contents out.old) (W.contents out.new) (up_text (option_copied up.entry))) }
{
    match up {
        Some(found) => put(
            out,
            &[
                Piece::Text(b" up "),
                Piece::Text(found.peer.bytes()),
                Piece::Text(b" "),
                Piece::Flags(found.common),
                Piece::Text(b" "),
                creation(found.creation),
                Piece::Text(b"\n"),
            ],
        ),
        None => put_bytes(out, b" up -\n"),
    }
}

// The end of a reply, and what it says.
#[tactic(auto, using(crate::proofs::Printing::in_four))]
fn put_saying<W: Write>(out: &mut W, id: EndId, say: &[u8]) -> Result<(), ScriptFault>
    ensures { OnOk result (Appends (W.contents out.old) (W.contents out.new) (saying_text id say.now)) }
{
    put_bytes(out, b"end ")?;
    put_piece(out, Piece::Number(id.0 as u64))?;
    put_bytes(out, b" say ")?;
    put_said(out, say)
}

/// What a step returned.
#[tactic(auto, using(crate::proofs::Printing::in_three))]
pub fn reply<W: Write>(out: &mut W, reply: &Reply) -> Result<(), ScriptFault>
    ensures { OnOk result (Appends (W.contents out.old) (W.contents out.new) (reply_line reply.now)) }
{
    put_saying(out, reply.end_, reply.say.as_slice())?;
    write_closed(out, reply.closed)?;
    came_up(out, reply.up.as_ref())
}

// The entry of a peer that is not idle.
fn busy(entry: Entry) -> [Piece<'static>; 4]
    ensures { texts_of result ≡ busy_text entry }
{
    match entry {
        Entry::Out(id) => [
            Piece::Text(b" Out "),
            Piece::Number(id.0 as u64),
            NOTHING,
            NOTHING,
        ],
        Entry::In(id) => [
            Piece::Text(b" In "),
            Piece::Number(id.0 as u64),
            NOTHING,
            NOTHING,
        ],
        Entry::Up(id) => [
            Piece::Text(b" Up "),
            Piece::Number(id.0 as u64),
            NOTHING,
            NOTHING,
        ],
        Entry::Challenged { up, by_ } => [
            Piece::Text(b" Challenged "),
            Piece::Number(up.0 as u64),
            Piece::Text(b" "),
            Piece::Number(by_.0 as u64),
        ],
    }
}

// What stands behind the name of a refusal.
fn detail(error: StepError) -> [Piece<'static>; 4]
    ensures { texts_of result ≡ detail_text error }
{
    match error {
        StepError::Busy(entry) => busy(entry),
        StepError::Gone(why) => [
            Piece::Text(b" "),
            Piece::Text(why.name().as_bytes()),
            NOTHING,
            NOTHING,
        ],
        StepError::NoSuchEnd
        | StepError::WrongPhase
        | StepError::Spent
        | StepError::Full
        | StepError::NoMemory => [NOTHING, NOTHING, NOTHING, NOTHING],
    }
}

/// Why a step was refused.
#[tactic(auto, using(crate::proofs::Printing::in_three))]
pub fn write_refused<W: Write>(out: &mut W, error: StepError) -> Result<(), ScriptFault>
    ensures { OnOk result (Appends (W.contents out.old) (W.contents out.new) (refused_line error)) }
{
    put(
        out,
        &[
            Piece::Text(b"refused "),
            Piece::Text(error.name().as_bytes()),
        ],
    )?;
    put(out, &detail(error))?;
    put_bytes(out, b"\n")
}

/// How many packets of a linked stream ended.
pub fn write_skipped<W: Write>(out: &mut W, count: usize) -> Result<(), ScriptFault>
    ensures { OnOk result (Appends (W.contents out.old) (W.contents out.new) (skipped_line count)) }
{
    put(
        out,
        &[
            Piece::Text(b"skipped "),
            Piece::Number(count as u64),
            Piece::Text(b"\n"),
        ],
    )
}

// The entry of a peer in the table.
fn standing(entry: Entry) -> [Piece<'static>; 4]
    ensures { texts_of result ≡ entry_text entry }
{
    match entry {
        Entry::Out(id) => [
            Piece::Text(b" out "),
            Piece::Number(id.0 as u64),
            NOTHING,
            NOTHING,
        ],
        Entry::In(id) => [
            Piece::Text(b" in "),
            Piece::Number(id.0 as u64),
            NOTHING,
            NOTHING,
        ],
        Entry::Up(id) => [
            Piece::Text(b" up "),
            Piece::Number(id.0 as u64),
            NOTHING,
            NOTHING,
        ],
        Entry::Challenged { up, by_ } => [
            Piece::Text(b" up "),
            Piece::Number(up.0 as u64),
            Piece::Text(b" challenged "),
            Piece::Number(by_.0 as u64),
        ],
    }
}

// The record of an end that is up, if the peer has one, and the end of the line.
fn record<W: Write>(out: &mut W, kept: Option<&UpRecord>) -> Result<(), ScriptFault>
    ensures { OnOk result (Appends (W.contents out.old) (W.contents out.new) (record_text (option_copied kept.entry))) }
{
    match kept {
        Some(found) => put(
            out,
            &[
                Piece::Text(b" common "),
                Piece::Flags(found.common),
                Piece::Text(b" creation "),
                creation(found.creation),
                Piece::Text(b"\n"),
            ],
        ),
        None => put_bytes(out, b"\n"),
    }
}

// The record of the end that an entry has up.
fn up_record(node: &Node, entry: Entry) -> Option<&UpRecord>
    ensures { option_copied result ≡ record_at node.now (up_id entry) }
{
    node.record_of(entry.up()?)
}

// A row of the table.
#[tactic(auto, using(crate::proofs::Printing::in_three))]
fn write_row<W: Write>(
    out: &mut W,
    node: &Node,
    peer: &NodeName,
    entry: Entry,
) -> Result<(), ScriptFault>
    ensures { OnOk result (Appends (W.contents out.old) (W.contents out.new) (row_text node.now (peer.now, entry))) }
{
    put_bytes(out, peer.bytes())?;
    put(out, &standing(entry))?;
    record(out, up_record(node, entry))
}

// The row at this place of the table, where there is one.
#[tactic(auto, using(crate::proofs::Printing::nothing))]
fn write_nth_row<W: Write>(out: &mut W, node: &Node, place: usize) -> Result<(), ScriptFault>
    ensures { OnOk result (Appends (W.contents out.old) (W.contents out.new) (found_text node.now (slice_get (map.entries (table_of node.now.ends)) place))) }
{
    match node.entry_at(place) {
        Some((peer, entry)) => write_row(out, node, peer, entry),
        None => Ok(()),
    }
}

/// The table of the node's peers in name order, or that it has none.
#[tactic(auto, using(crate::proofs::Printing::nothing))]
pub fn table<W: Write>(out: &mut W, node: &Node) -> Result<(), ScriptFault>
    ensures { OnOk result (Appends (W.contents out.old) (W.contents out.new) (table_text node.now)) }
{
    if node.entries() == 0 {
        return put_bytes(out, b"no peers\n");
    }
    for place in 0..node.entries() {
        write_nth_row(out, node, place)?;
    }
    Ok(())
}

/// The end of a node that a happening closed, and why.
pub fn closed_end<W: Write>(
    out: &mut W,
    node: usize,
    id: EndId,
    why: Why,
) -> Result<(), ScriptFault>
    ensures { OnOk result (Appends (W.contents out.old) (W.contents out.new) (closed_line node id why)) }
{
    put(
        out,
        &[
            Piece::Text(b"closed "),
            Piece::Number(node as u64),
            Piece::Text(b" "),
            Piece::Number(id.0 as u64),
            Piece::Text(b" "),
            Piece::Text(why.name().as_bytes()),
            Piece::Text(b"\n"),
        ],
    )
}

/// How many happenings of a script applied.
pub fn write_applied<W: Write>(out: &mut W, applied: usize, all: usize) -> Result<(), ScriptFault>
    ensures { OnOk result (Appends (W.contents out.old) (W.contents out.new) (applied_line applied all)) }
{
    put(
        out,
        &[
            Piece::Text(b"applied "),
            Piece::Number(applied as u64),
            Piece::Text(b" of "),
            Piece::Number(all as u64),
            Piece::Text(b"\n"),
        ],
    )
}

/// How a node of a world stands: the creation and the table of its running incarnation, or that it is halted.
#[tactic(auto, using(crate::proofs::Printing::in_two))]
pub fn node<W: Write>(
    out: &mut W,
    name: &NodeName,
    incarnation: Option<&Node>,
) -> Result<(), ScriptFault>
    ensures { OnOk result (Appends (W.contents out.old) (W.contents out.new) (node_text name.now (option_copied incarnation.entry))) }
{
    match incarnation {
        Some(node) => {
            put(
                out,
                &[
                    Piece::Text(b"node "),
                    Piece::Text(name.bytes()),
                    Piece::Text(b" running "),
                    Piece::Number(node.creation().0 as u64),
                    Piece::Text(b"\n"),
                ],
            )?;
            table(out, node)
        }
        None => put(
            out,
            &[
                Piece::Text(b"node "),
                Piece::Text(name.bytes()),
                Piece::Text(b" halted\n"),
            ],
        ),
    }
}

/// What two nodes have in common that are up with one another.
pub fn agreement<'n, W: Write>(
    out: &mut W,
    a: &'n NodeName,
    b: &'n NodeName,
    found: &Agreement,
) -> Result<(), ScriptFault>
    ensures { OnOk result (Appends (W.contents out.old) (W.contents out.new) (agree_line a.now b.now found.now)) }
{
    put(
        out,
        &[
            Piece::Text(b"agree "),
            Piece::Text(a.bytes()),
            Piece::Text(b" "),
            Piece::Text(b.bytes()),
            Piece::Text(b" conn "),
            Piece::Number(found.conn as u64),
            Piece::Text(b" common "),
            Piece::Flags(found.common),
            Piece::Text(b" creations "),
            creation(found.creation_a),
            Piece::Text(b" "),
            creation(found.creation_b),
            Piece::Text(b"\n"),
        ],
    )
}

/// That a node takes somebody outside the world for another one.
pub fn fooled_node<'n, W: Write>(
    out: &mut W,
    a: &'n NodeName,
    b: &'n NodeName,
) -> Result<(), ScriptFault>
    ensures { OnOk result (Appends (W.contents out.old) (W.contents out.new) (fooled_line a.now b.now)) }
{
    put(
        out,
        &[
            Piece::Text(b"fooled "),
            Piece::Text(a.bytes()),
            Piece::Text(b" "),
            Piece::Text(b.bytes()),
            Piece::Text(b"\n"),
        ],
    )
}
