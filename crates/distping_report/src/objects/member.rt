//! The members of a JSON object.

ghost use Rattle.std.specs.{Prelude.◌≡◌, Prelude.[], Prelude.IfOk, Prelude.OnOk, Prelude.false, Prelude.string_bytes, Fmt.digits, Net.Text.ip_text};
ghost use Rattle.dist_names.specs.Escaped.{escapes_of};
ghost use Rattle.distping_report.specs.Objects.{BeginsLine, EndsLine, IsObjectLine, PutsMembers, PutsValue};
ghost use Rattle.distping_report.specs.Objects.{layout_of, member, names_among, no_member, object, shape_of, text, texts};

use dist_flags::Dflag;
use dist_names::{Flags, escape};
use json::Writer;
use std::alloc::{AllocError, Global};
use std::net::IpAddr;

/// The value of a member.
#[derive(Clone, Copy)]
pub enum Value<'a> {
    /// Null: it is not known.
    Null,
    /// Whether a condition holds.
    Bool(bool),
    /// A number.
    Number(u64),
    /// The program's own text.
    Text(&'static str),
    /// Text that is already escaped.
    Escaped(&'a str),
    /// A name from outside, escaped.
    Name(&'a [u8]),
    /// Flags in hexadecimal digits.
    Digits(Flags),
    /// Flags by name, in a list.
    Names(Flags),
    /// An address without a port.
    Host(IpAddr),
}

/// The version of the form of all objects. A new member keeps it; one that goes, or means something else, does not.
pub const FORM: Value<'static> = Value::Number(1);

/// A member: its name and its value.
pub type Member<'a> = (&'static str, Value<'a>);

// Writes a name from outside, escaped.
fn put_name(alloc: Global, out: &mut Writer, bytes: &[u8]) -> Result<(), AllocError>
    ensures { OnOk result
        (PutsValue (text (escapes_of bytes.now)) out.old out.new) }
{
    out.string(&escape(alloc, bytes)?)
}

// Writes flags in hexadecimal digits.
fn put_digits(alloc: Global, out: &mut Writer, flags: Flags) -> Result<(), AllocError>
    ensures { OnOk result (PutsValue (text (digits 16 false flags.0)) out.old out.new) }
{
    let digits = format!(in alloc; "{:x}", flags.0)?;
    out.string(&digits)
}

// Writes an address without a port.
fn put_host(alloc: Global, out: &mut Writer, host: IpAddr) -> Result<(), AllocError>
    ensures { OnOk result (PutsValue (text (ip_text host)) out.old out.new) }
{
    let address = format!(in alloc; "{host}")?;
    out.string(&address)
}

// Writes the names of those of some flags that are set in these, as a list.
fn put_names(out: &mut Writer, flags: Flags, some: &[Dflag]) -> Result<(), AllocError>
    ensures { OnOk result (PutsValue (texts (names_among flags.0 some.now)) out.old out.new) }
{
    out.begin_array()?;
    for flag in some {
        if flags.has(flag.flags()) {
            out.string(flag.name())?;
        }
    }
    out.end_array()
}

// Writes a value.
fn put_value(alloc: Global, out: &mut Writer, value: Value<'_>) -> Result<(), AllocError>
    ensures { OnOk result (PutsValue (shape_of value.entry) out.old out.new) }
{
    match value {
        Value::Null => out.null(),
        Value::Bool(holds) => out.boolean(holds),
        Value::Number(number) => out.u64(number),
        Value::Text(text) => out.string(text),
        Value::Escaped(text) => out.string(text),
        Value::Name(bytes) => put_name(alloc, out, bytes),
        Value::Digits(flags) => put_digits(alloc, out, flags),
        Value::Names(flags) => put_names(out, flags, &Dflag::all()),
        Value::Host(host) => put_host(alloc, out, host),
    }
}

/// Writes members.
pub fn put_members(
    alloc: Global,
    out: &mut Writer,
    members: &[Member<'_>],
) -> Result<(), AllocError>
    ensures { OnOk result (PutsMembers (layout_of members.now) out.old out.new) }
{
    for (name, value) in members {
        out.key(name)?;
        put_value(alloc, out, *value)?;
    }
    Ok(())
}

/// Writes an object with these members.
pub fn put_inner(alloc: Global, out: &mut Writer, members: &[Member<'_>]) -> Result<(), AllocError>
    ensures { OnOk result (PutsValue (object (layout_of members.now)) out.old out.new) }
{
    out.begin_object()?;
    put_members(alloc, out, members)?;
    out.end_object()
}

/// Writes a member that is an object with these members.
pub fn put_object(
    alloc: Global,
    out: &mut Writer,
    name: &str,
    members: &[Member<'_>],
) -> Result<(), AllocError>
    ensures { OnOk result (PutsMembers (member name.now (object (layout_of members.now)) no_member)
        out.old out.new) }
{
    out.key(name)?;
    put_inner(alloc, out, members)
}

/// Begins a line with an object.
pub fn begin_line(alloc: Global) -> Result<Writer, AllocError>
    ensures { IfOk result BeginsLine }
{
    let mut out = Writer::new(Vec::new(alloc));
    out.begin_object()?;
    Ok(out)
}

/// Ends the object, and returns the line.
pub fn end_line(out: Writer) -> Result<String, AllocError>
    ensures { IfOk result (λ line. EndsLine out (string_bytes line)) }
{
    let mut out = out;
    out.end_object()?;
    let Ok(mut line) = String::from_utf8(out.into_inner()) else {
        return Err(AllocError);
    };
    line.push('\n')?;
    Ok(line)
}

/// An object with these members, as one line.
pub fn object_line(alloc: Global, members: &[Member<'_>]) -> Result<String, AllocError>
    ensures { IfOk result (λ line. IsObjectLine (layout_of members.now) (string_bytes line)) }
{
    let mut out = begin_line(alloc)?;
    put_members(alloc, &mut out, members)?;
    end_line(out)
}
