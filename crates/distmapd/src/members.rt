//! A line of the log: a time, a word, and members, each with its name. As text, or as a JSON object (RFC 8259).

ghost use Rattle.std.specs.{Prelude.◌≡◌, Prelude.◌∷◌, Prelude.[], Prelude.IfOk, Prelude.OnOk, Prelude.map, List.flat_map, String.string_bytes};
ghost use Rattle.distmapd.specs.Members.{Appends, json_line, line, member_of, member_text, member_tokens, name_front, shown_of};
ghost use Rattle.distmapd.specs.Members.{text_line, text_of, token_of};

use crate::settings::LogForm;
use dist_names::{ByteString, escape, quote};
use json::Writer;
use std::alloc::{AllocError, Global};
use std::net::IpAddr;

// The most bytes of a name that are shown. No registered name is longer.
const SHOWN: usize = 255;

/// The value of a member.
#[derive(Clone, Copy)]
pub enum LineValue<'a> {
    /// A number.
    Number(u64),
    /// Whether a condition holds.
    Bool(bool),
    /// The program's own text.
    Text(&'a str),
    /// A name from outside: it is escaped, and cut to 255 bytes.
    Name(&'a ByteString),
    /// The address of a client, if it is known.
    Host(Option<IpAddr>),
}

/// A member: its name and its value.
pub type LineMember<'a> = (&'static str, LineValue<'a>);

// The part of a name that is shown.
fn name_front(name: &[u8]) -> &[u8]
    ensures { result.now ≡ name_front name.now }
{
    if name.len() < SHOWN {
        name
    } else {
        &name[..SHOWN]
    }
}

// A value as text.
fn value_text(alloc: Global, value: LineValue<'_>) -> Result<String, AllocError>
    ensures { IfOk result (λ text. string_bytes text ≡ text_of (shown_of value.entry)) }
{
    match value {
        LineValue::Number(number) => format!(in alloc; "{number}"),
        LineValue::Bool(holds) => format!(in alloc; "{holds}"),
        LineValue::Text(text) => quote(alloc, text.as_bytes()),
        LineValue::Name(name) => quote(alloc, name_front(name.as_slice())),
        LineValue::Host(Some(host)) => format!(in alloc; "{host}"),
        LineValue::Host(None) => String::from_str(alloc, "-"),
    }
}

// A member as text.
#[tactic(auto, unfolding(crate::specs::Members::member_text))]
fn member_text(alloc: Global, name: &str, value: LineValue<'_>) -> Result<String, AllocError>
    ensures { IfOk result (λ text. string_bytes text ≡ member_text (name.now, shown_of value.entry)) }
{
    let value = value_text(alloc, value)?;
    format!(in alloc; " {name}={value}")
}

// Members as text.
fn members_text(alloc: Global, members: &[LineMember<'_>]) -> Result<String, AllocError>
    ensures { IfOk result (λ text. string_bytes text ≡ flat_map member_text (map member_of members.now)) }
{
    let mut text = String::new(alloc);
    for (name, value) in members {
        text.push_str(&member_text(alloc, name, *value)?)?;
    }
    Ok(text)
}

// A line as text.
#[tactic(auto, unfolding(crate::specs::Members::text_line))]
fn text_line(
    alloc: Global,
    time: &str,
    word: &str,
    first: &[LineMember<'_>],
    more: &[LineMember<'_>],
) -> Result<String, AllocError>
    ensures { IfOk result (λ text. string_bytes text ≡ text_line time.now word.now (map member_of first.now) (map member_of more.now)) }
{
    let first = members_text(alloc, first)?;
    let more = members_text(alloc, more)?;
    format!(in alloc; "{time} distmapd: {word}{first}{more}\n")
}

// Writes a value.
fn put_value(alloc: Global, out: &mut Writer, value: LineValue<'_>) -> Result<(), AllocError>
    ensures { OnOk result (Appends (token_of (shown_of value.entry) ∷ []) out.old out.new) }
{
    match value {
        LineValue::Number(number) => out.u64(number),
        LineValue::Bool(holds) => out.boolean(holds),
        LineValue::Text(text) => out.string(text),
        LineValue::Name(name) => out.string(&escape(alloc, name_front(name.as_slice()))?),
        LineValue::Host(Some(host)) => out.string(&format!(in alloc; "{host}")?),
        LineValue::Host(None) => out.null(),
    }
}

// Writes members.
fn put_members(
    alloc: Global,
    out: &mut Writer,
    members: &[LineMember<'_>],
) -> Result<(), AllocError>
    ensures { OnOk result (Appends (flat_map member_tokens (map member_of members.now)) out.old out.new) }
{
    for (name, value) in members {
        out.key(name)?;
        put_value(alloc, out, *value)?;
    }
    Ok(())
}

// A line as a JSON object.
fn json_line(
    alloc: Global,
    time: &str,
    word: &str,
    first: &[LineMember<'_>],
    more: &[LineMember<'_>],
) -> Result<String, AllocError>
    ensures { IfOk result (λ text. string_bytes text ≡ json_line time.now word.now (map member_of first.now) (map member_of more.now)) }
{
    let front = [
        ("time", LineValue::Text(time)),
        ("event", LineValue::Text(word)),
    ];
    let mut out = Writer::new(Vec::new(alloc));
    out.begin_object()?;
    put_members(alloc, &mut out, &front)?;
    put_members(alloc, &mut out, first)?;
    put_members(alloc, &mut out, more)?;
    out.end_object()?;
    let Ok(mut line) = String::from_utf8(out.into_inner()) else {
        return Err(AllocError);
    };
    line.push('\n')?;
    Ok(line)
}

/// The line in this form.
pub fn line(
    alloc: Global,
    form: LogForm,
    time: &str,
    word: &str,
    first: &[LineMember<'_>],
    more: &[LineMember<'_>],
) -> Result<String, AllocError>
    ensures { IfOk result (λ text. string_bytes text ≡ line form time.now word.now (map member_of first.now) (map member_of more.now)) }
{
    match form {
        LogForm::Text => text_line(alloc, time, word, first, more),
        LogForm::Json => json_line(alloc, time, word, first, more),
    }
}
