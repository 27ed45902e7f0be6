//! Messages, as a row writes them: each field by its row of the table.

use crate::digests::{DIGESTS, ReplyDigest};
use crate::faults::ReadFault;
use crate::lists::SuiteList;
use crate::say::{put_field, put_message};
use crate::shapes::{ALIVE, FieldForm, FieldKey, Framing, MESSAGES, Shape};
use crate::steps::{SaidField, SaidPart, SaidValue};
use crate::terms::TalkTerms;
use crate::texts::words_of;
use crate::words::{LineWords, meaning_of};
use dist_epmd::NodeInfo;
use dist_names::{ByteString, is_same_text};
use std::alloc::Global;

// The statuses of either side.
const STATUSES: [&str; 7] = [
    "ok",
    "ok_simultaneous",
    "nok",
    "not_allowed",
    "alive",
    "true",
    "false",
];

/// The bytes of a number in a field of this form: the last of its 8 bytes.
pub fn number_bytes(alloc: Global, form: FieldForm, number: u64) -> Result<ByteString, ReadFault> {
    match form {
        FieldForm::Fixed(size) if size <= 8 => {
            let bytes = number.to_be_bytes();
            Ok(ByteString::from_slice(alloc, &bytes[8 - size..])?)
        }
        _ => Err(ReadFault::Bad),
    }
}

/// The greatest number below 2^32 that a field of this form can have.
pub fn most_in(form: FieldForm) -> u32 {
    match form {
        FieldForm::Fixed(1) => 255,
        FieldForm::Fixed(2) => 65535,
        _ => u32::MAX,
    }
}

// The word of a status, which has to be one.
fn status_word(terms: &TalkTerms<'_>, word: &[u8]) -> Result<ByteString, ReadFault> {
    if !STATUSES
        .iter()
        .any(|known| is_same_text(known.as_bytes(), word))
    {
        return Err(ReadFault::Bad);
    }
    Ok(ByteString::from_slice(terms.alloc, word)?)
}

fn said_digest(words: &mut LineWords<'_>) -> Result<SaidValue, ReadFault> {
    let challenge = words.optional(b"challenge")?;
    let kind = match words.value(b"digest") {
        Some(word) => meaning_of(&DIGESTS, word)?,
        None => ReplyDigest::Right,
    };
    Ok(SaidValue::Digest(kind, challenge))
}

// The bytes of a name, a number or flags whose words come next.
fn bytes_in(
    terms: &TalkTerms<'_>,
    form: FieldForm,
    key: FieldKey,
    words: &mut LineWords<'_>,
) -> Result<ByteString, ReadFault> {
    let number = match key {
        FieldKey::Number(name, usual) => {
            u64::from(words.number(name.as_bytes(), usual, most_in(form))?)
        }
        FieldKey::Flags => words.flags()?.0,
        FieldKey::HighFlags => u64::from(words.flags()?.high()),
        FieldKey::Name => return words.name(&terms.own_name()?),
        FieldKey::ShortName => return words.name(terms.short),
        _ => return Ok(ByteString::new(terms.alloc)),
    };
    number_bytes(terms.alloc, form, number)
}

// What a field says whose words come next.
fn value_in(
    terms: &TalkTerms<'_>,
    form: FieldForm,
    key: FieldKey,
    words: &mut LineWords<'_>,
) -> Result<SaidValue, ReadFault> {
    let bytes = match key {
        FieldKey::Digest => return said_digest(words),
        FieldKey::Last => return Ok(SaidValue::Last),
        FieldKey::Status => status_word(terms, words.word()?)?,
        FieldKey::Bytes => words.next_bytes()?,
        FieldKey::Extra => words.extra()?,
        _ => bytes_in(terms, form, key, words)?,
    };
    Ok(SaidValue::Bytes(bytes))
}

/// A message of this shape, with the fields that come next.
pub fn message_in(
    terms: &TalkTerms<'_>,
    shape: &Shape,
    words: &mut LineWords<'_>,
) -> Result<SaidPart, ReadFault> {
    let mut fields = Vec::new(terms.alloc);
    for (form, key) in shape.fields.iter().zip(shape.keys) {
        let value = value_in(terms, *form, *key, words)?;
        fields.push(SaidField { form: *form, value })?;
    }
    Ok(SaidPart {
        is_framed: matches!(shape.framing, Framing::Frame),
        fields: SuiteList::from_vec(fields),
        less: words.number(b"less", 0, 65535)? as usize,
        extra: words.extra()?,
    })
}

/// A message, with its word.
pub fn part_of(terms: &TalkTerms<'_>, text: &[u8]) -> Result<SaidPart, ReadFault> {
    let words = words_of(terms.alloc, text)?;
    let mut words = LineWords::new(terms.alloc, &words);
    let shape = meaning_of(&MESSAGES, words.word()?)?;
    let part = message_in(terms, &shape, &mut words)?;
    words.finish(part)
}

/// The bytes of a message in which nothing depends on what the node says.
pub fn bytes_of_message(alloc: Global, part: &SaidPart) -> Result<ByteString, ReadFault> {
    let mut body = Vec::new(alloc);
    for field in part.fields.as_slice() {
        match &field.value {
            SaidValue::Bytes(value) => put_field(&mut body, field.form, value.as_slice())?,
            _ => return Err(ReadFault::Bad),
        }
    }
    let mut bytes = Vec::new(alloc);
    put_message(alloc, &mut bytes, part, &body)?;
    Ok(ByteString::from_vec(bytes))
}

// The bytes in the field in this place.
fn field_bytes(part: &SaidPart, place: usize) -> &[u8] {
    match part.fields.as_slice().get(place) {
        Some(
            SaidField {
                value: SaidValue::Bytes(value),
                ..
            },
        ) => value.as_slice(),
        _ => &[],
    }
}

// The number in the field in this place.
fn field_number(part: &SaidPart, place: usize) -> u16 {
    match field_bytes(part, place) {
        [one] => u16::from(*one),
        [first, second] => u16::from_be_bytes([*first, *second]),
        _ => 0,
    }
}

/// What the fields of `alive2` that come next register.
pub fn info_in(terms: &TalkTerms<'_>, words: &mut LineWords<'_>) -> Result<NodeInfo, ReadFault> {
    let part = message_in(terms, &ALIVE, words)?;
    Ok(NodeInfo {
        port: field_number(&part, 1),
        node_type: (field_number(&part, 2) % 256) as u8,
        protocol: (field_number(&part, 3) % 256) as u8,
        highest: field_number(&part, 4),
        lowest: field_number(&part, 5),
        name: ByteString::from_slice(terms.alloc, field_bytes(&part, 6))?,
        extra: ByteString::from_slice(terms.alloc, field_bytes(&part, 7))?,
    })
}
