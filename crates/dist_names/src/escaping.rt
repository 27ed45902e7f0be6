//! Bytes of strangers as text that is safe to print: no terminal acts upon what stands in it.

ghost use Rattle.std.specs.{Prelude.◌≡◌, Prelude.◌++◌, Prelude.◌<◌, Prelude.IfOk, Prelude.OnOk, List.All, String.string_bytes, Char.digit_char};
ghost use Rattle.dist_names.specs.Escaped.{by_digits, escape_of, escape_in_lines, escape_in_quotes, escapes_of, escaped_lines, in_double_quotes};
ghost use Rattle.dist_names.specs.Escaped.{IsPrintable, IsPrintableOrLineFeed};

use crate::plain::is_printable;
use std::alloc::{AllocError, Global};

// The hexadecimal digit of a number below 16, in lower case.
fn digit(value: u8) -> char
    requires { value < 16 }
    ensures { result ≡ digit_char value }
{
    char::from_digit(u32::from(value), 16).unwrap_or('0')
}

// Puts a byte by its two digits.
fn push_digits(text: &mut String, byte: u8) -> Result<(), AllocError>
    ensures { OnOk result (string_bytes text.new ≡ string_bytes text.old ++ by_digits byte) }
{
    text.push_str("\\x")?;
    text.push(digit(byte / 16))?;
    text.push(digit(byte % 16))
}

fn push_escape(text: &mut String, byte: u8) -> Result<(), AllocError>
    ensures { OnOk result (string_bytes text.new ≡ string_bytes text.old ++ escape_of byte) }
{
    match byte {
        b'\\' => text.push_str("\\\\"),
        _ if is_printable(byte) => text.push(char::from(byte)),
        _ => push_digits(text, byte),
    }
}

// The same as `push_escape`, with a line feed put as it is.
fn push_escape_in_lines(text: &mut String, byte: u8) -> Result<(), AllocError>
    ensures { OnOk result (string_bytes text.new ≡ string_bytes text.old ++ escape_in_lines byte) }
{
    match byte {
        b'\n' => text.push('\n'),
        _ => push_escape(text, byte),
    }
}

// The same as `push_escape`, with a double quote put by its digits.
fn push_escape_in_quotes(text: &mut String, byte: u8) -> Result<(), AllocError>
    ensures { OnOk result (string_bytes text.new ≡ string_bytes text.old ++ escape_in_quotes byte) }
{
    match byte {
        b'"' => push_digits(text, byte),
        _ => push_escape(text, byte),
    }
}

/// The bytes as text of the bytes from 0x20 to 0x7E alone: every other one is written as `\x1b`, in two hexadecimal digits of
/// lower case, and a backslash `\\`, so that the bytes can be read back. The form is our own choice.
pub fn escape(alloc: Global, bytes: &[u8]) -> Result<String, AllocError>
    ensures text { IfOk result (λ text. string_bytes text ≡ escapes_of bytes.now) }
    ensures printable { IfOk result (λ text. All IsPrintable (string_bytes text)) }
{
    let mut text = String::new(alloc);
    for byte in bytes {
        push_escape(&mut text, *byte)?;
    }
    Ok(text)
}

/// The same of several lines: line feeds stand as they are.
pub fn escape_lines(alloc: Global, bytes: &[u8]) -> Result<String, AllocError>
    ensures text { IfOk result (λ text. string_bytes text ≡ escaped_lines bytes.now) }
    ensures printable { IfOk result (λ text. All IsPrintableOrLineFeed (string_bytes text)) }
{
    let mut text = String::new(alloc);
    for byte in bytes {
        push_escape_in_lines(&mut text, *byte)?;
    }
    Ok(text)
}

/// The bytes between double quotes, escaped as by `escape`, and a double quote among them as `\x22`, so that one sees where they
/// end.
pub fn quote(alloc: Global, bytes: &[u8]) -> Result<String, AllocError>
    ensures text { IfOk result (λ text. string_bytes text ≡ in_double_quotes bytes.now) }
    ensures printable { IfOk result (λ text. All IsPrintable (string_bytes text)) }
{
    let mut text = String::from_str(alloc, "\"")?;
    for byte in bytes {
        push_escape_in_quotes(&mut text, *byte)?;
    }
    text.push('"')?;
    Ok(text)
}
