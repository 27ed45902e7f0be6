//! The rows of a registry: a map from a name to the row of that name.

ghost use Rattle.std.specs.Prelude.{◌≡◌, ◌++◌, false, not, length, filter, find, flat_map, nat_lt, option_copied, OnOk, OnErr};
ghost use Rattle.std.specs.{BTreeMap.values, List.list_all, List.list_any};
ghost use Rattle.dist_epmd.specs.Registrations.{InOrder, is_short_byte, is_short_name, is_named, is_of, is_own, with_row, line_of};
ghost use Rattle.dist_epmd.specs.Named.{StandAtNames};

use crate::encoding::push_both;
use crate::message::NodeInfo;
use crate::row::Row;
use dist_names::is_visible;
use itoa::Buffer;
use std::alloc::{AllocError, Global};
use std::collections::BTreeMap;

// Whether each byte may stand in the part of a node's name before the `@`.
fn are_short_bytes(name: &[u8]) -> bool
    ensures { result ≡ list_all is_short_byte name.now }
{
    name.iter().all(|byte| is_visible(*byte) && *byte != b'@')
}

/// Whether the bytes may be the part of a node's name before the `@`: 1 to 255 printable ones, without a space and an `@`.
pub fn is_short_name(name: &[u8]) -> bool
    ensures { result ≡ is_short_name name.now }
{
    !name.is_empty() && name.len() <= 255 && are_short_bytes(name)
}

/// Whether there are fewer than this many rows.
pub fn has_fewer(rows: &BTreeMap<Vec<u8>, Row>, most: usize) -> bool
    ensures { result ≡ nat_lt (length (values rows.now)) most }
{
    rows.len() < most
}

/// The row of this name, where it is registered.
pub fn row_of_name<'r>(rows: &'r BTreeMap<Vec<u8>, Row>, name: &[u8]) -> Option<&'r Row>
    // Every registry keeps its rows so.
    requires { StandAtNames rows.now.entries }
    ensures { option_copied result ≡ find (is_named name.now) (values rows.now) }
{
    rows.get(name)
}

/// Whether this name is registered.
pub fn has_name(rows: &BTreeMap<Vec<u8>, Row>, name: &[u8]) -> bool
    // Every registry keeps its rows so.
    requires { StandAtNames rows.now.entries }
    ensures { result ≡ list_any (is_named name.now) (values rows.now) }
{
    rows.contains_key(name)
}

/// Whether this connection has registered a name.
pub fn has_conn(rows: &BTreeMap<Vec<u8>, Row>, conn: u64) -> bool
    ensures { result ≡ list_any (is_of conn) (values rows.now) }
{
    rows.values().any(|row| row.conn == conn)
}

// Puts a row at its name.
fn put_row(rows: &mut BTreeMap<Vec<u8>, Row>, name: Vec<u8>, row: Row) -> Result<(), AllocError>
    // Every registry keeps its rows so.
    requires names { StandAtNames rows.old.entries }

    // The caller copies the name from the row.
    requires own { name.items ≡ row.info.name }

    // The caller asks `has_name` first.
    requires fresh { list_any (is_named row.info.name) (values rows.old) ≡ false }
    ensures ok { OnOk result (values rows.new ≡ with_row row (values rows.old)) }
    ensures err { OnErr result (values rows.new ≡ values rows.old) }
    ensures names { StandAtNames rows.new.entries }
{
    rows.insert(name, row)?;
    Ok(())
}

/// Puts a copy of a registration at its name, with the creation that it got. An `Err`, where memory runs out, changes no row.
pub fn register(
    rows: &mut BTreeMap<Vec<u8>, Row>,
    alloc: Global,
    conn: u64,
    request: &NodeInfo,
    creation: u32,
) -> Result<(), AllocError>
    // Every registry keeps its rows so.
    requires names { StandAtNames rows.old.entries }

    // The caller asks `has_name` first.
    requires fresh { list_any (is_named request.now.name) (values rows.old) ≡ false }
    ensures ok { OnOk result (values rows.new ≡ with_row (record { conn = conn; info = request.now; creation = creation }) (values rows.old)) }
    ensures err { OnErr result (values rows.new ≡ values rows.old) }
    ensures names { StandAtNames rows.new.entries }
{
    let name = Vec::from_slice(alloc, request.name.as_slice())?;
    let info = request.try_clone(alloc)?;
    put_row(
        rows,
        name,
        Row {
            conn,
            info,
            creation,
        },
    )
}

/// Drops the row of this connection. Without one it changes nothing.
pub fn drop_conn(rows: &mut BTreeMap<Vec<u8>, Row>, conn: u64)
    // Every registry keeps its rows so.
    requires { StandAtNames rows.old.entries }
    ensures rows { values rows.new ≡ filter (λ row. not (is_of conn row)) (values rows.old) }
    ensures names { StandAtNames rows.new.entries }
{
    rows.retain(|_name, row| row.conn != conn);
}

// Whether this connection has registered this name.
fn has_own(rows: &BTreeMap<Vec<u8>, Row>, conn: u64, name: &[u8]) -> bool
    // Every registry keeps its rows so.
    requires names { StandAtNames rows.now.entries }
    requires ordered { InOrder (values rows.now) }
    ensures { result ≡ list_any (is_own conn name.now) (values rows.now) }
{
    match row_of_name(rows, name) {
        Some(row) => row.conn == conn,
        None => false,
    }
}

/// Drops the row of this name where it is of this connection. Otherwise it changes nothing.
pub fn drop_own(rows: &mut BTreeMap<Vec<u8>, Row>, conn: u64, name: &[u8])
    // Every registry keeps its rows so.
    requires names { StandAtNames rows.old.entries }
    requires ordered { InOrder (values rows.old) }
    ensures rows { values rows.new ≡ filter (λ row. not (is_own conn name.now row)) (values rows.old) }
    ensures names { StandAtNames rows.new.entries }
{
    if has_own(rows, conn, name) {
        rows.remove(name);
    }
}

// Appends the line of a row: `name a at port 9001`, and a line feed.
fn push_line(bytes: &mut Vec<u8>, row: &Row) -> Result<(), AllocError>
    ensures { OnOk result (bytes.new.items ≡ bytes.old.items ++ line_of row.now) }
{
    let mut buffer = Buffer::new();
    push_both(bytes, b"name ", row.info.name.as_slice())?;
    push_both(bytes, b" at port ", buffer.format(row.info.port).as_bytes())?;
    bytes.extend_from_slice(b"\n")
}

/// Appends the lines of all rows, in byte order of their names. It fails only where memory runs out.
pub fn push_lines(bytes: &mut Vec<u8>, rows: &BTreeMap<Vec<u8>, Row>) -> Result<(), AllocError>
    ensures { OnOk result (bytes.new.items ≡ bytes.old.items ++ flat_map line_of (values rows.now)) }
{
    for row in rows.values() {
        push_line(bytes, row)?;
    }
    Ok(())
}
