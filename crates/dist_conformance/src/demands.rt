//! What a row demands, as it writes it.

use crate::faults::ReadFault;
use crate::lists::SuiteList;
use crate::messages::{bytes_of_message, message_in, most_in, number_bytes};
use crate::patterns::{Check, NamesCheck, PacketCheck, Pattern, Test};
use crate::shapes::{AWAITED, EXACT, FieldForm, FieldKey, Framing, OUR_CHALLENGE, Shape};
use crate::steps::Demand;
use crate::terms::TalkTerms;
use crate::texts::{first_part, split, words_of};
use crate::words::{LineWords, flag_of, read_number};
use dist_names::{ByteString, Flags, is_same_text};
use std::alloc::{AllocError, Global};

// The shape in a table whose word this is, and whose second word comes next, which is taken.
fn shape_in(
    table: &[(&'static str, &'static str, Shape)],
    word: &[u8],
    words: &mut LineWords<'_>,
) -> Option<Shape> {
    for (first, second, shape) in table {
        let is_first = is_same_text(first.as_bytes(), word);
        if is_first && (second.is_empty() || words.mark(second.as_bytes())) {
            return Some(*shape);
        }
    }
    None
}

// The flags with just the one that has this name, as a field of this form carries them, which has to have it.
fn flag_in(form: FieldForm, key: FieldKey, name: &[u8]) -> Result<Flags, ReadFault> {
    let flags = flag_of(name)?;
    let carried = match (key, form) {
        (FieldKey::HighFlags, _) => u64::from(flags.high()),
        (_, FieldForm::Fixed(4)) => u64::from(flags.low()),
        _ => flags.0,
    };
    if carried == 0 {
        Err(ReadFault::Bad)
    } else {
        Ok(Flags(carried))
    }
}

// What a word says that a number has to be.
fn number_test(
    alloc: Global,
    form: FieldForm,
    field: &[u8],
    name: &[u8],
    value: &[u8],
) -> Result<Option<Test>, ReadFault> {
    if is_same_text(name, field) {
        let number = u64::from(read_number(value, most_in(form))?);
        return Ok(Some(Test::Is(number_bytes(alloc, form, number)?)));
    }
    match (form, name) {
        (FieldForm::Fixed(4), [front @ .., b'>']) if is_same_text(front, field) => {
            Ok(Some(Test::AtLeast(read_number(value, u32::MAX)?)))
        }
        _ => Ok(None),
    }
}

// What a word `NAME=VALUE` says that a field has to be, if it does.
fn value_test(
    alloc: Global,
    form: FieldForm,
    key: FieldKey,
    name: &[u8],
    value: &[u8],
) -> Result<Option<Test>, ReadFault> {
    match (key, name) {
        (FieldKey::Number(field, _), _) => number_test(alloc, form, field.as_bytes(), name, value),
        (FieldKey::Flags | FieldKey::HighFlags, b"has") => Ok(Some(Test::Has(flag_in(
            form, key, value,
        )?))),
        (FieldKey::Flags | FieldKey::HighFlags, b"hasnot") => {
            Ok(Some(Test::Lacks(flag_in(form, key, value)?)))
        }
        (FieldKey::Name | FieldKey::ShortName, b"name") => {
            Ok(Some(Test::Is(ByteString::from_slice(alloc, value)?)))
        }
        _ => Ok(None),
    }
}

// What a mark says that the field in this place has to be, if it does.
fn mark_test(shape: &Shape, place: usize, key: FieldKey, mark: &[u8]) -> Option<Test> {
    match mark {
        b"fresh" if shape.number == Some(place) => Some(Test::Fresh),
        b"apart" if shape.number == Some(place) => Some(Test::Apart),
        b"alike" if shape.flags == Some(place) => Some(Test::Alike),
        b"bare" if matches!(key, FieldKey::ShortName) => Some(Test::NoHost),
        b"bare" if matches!(key, FieldKey::Behind) => Some(Test::Empty),
        _ => None,
    }
}

// Appends what a word says that the fields have to be, which has to be something.
fn put_checks(
    alloc: Global,
    checks: &mut Vec<Check>,
    shape: &Shape,
    word: &[u8],
) -> Result<(), ReadFault> {
    let (name, value) = first_part(word, b'=');
    let before = checks.len();
    for (place, (form, key)) in shape.fields.iter().zip(shape.keys).enumerate() {
        let test = match value {
            Some(value) => value_test(alloc, *form, *key, name, value)?,
            None => mark_test(shape, place, *key, name),
        };
        if let Some(test) = test {
            checks.push(Check { place, test })?;
        }
    }
    if checks.len() == before {
        return Err(ReadFault::Bad);
    }
    Ok(())
}

// Appends what the fields have to be whatever a row says: what is given is not 0, and digests are right.
fn put_usual_checks(
    checks: &mut Vec<Check>,
    shape: &Shape,
    words: &mut LineWords<'_>,
) -> Result<(), ReadFault> {
    for (place, key) in shape.keys.iter().enumerate() {
        if matches!(key, FieldKey::Given | FieldKey::New) {
            let test = Test::Given;
            checks.push(Check { place, test })?;
        }
        let test = match key {
            FieldKey::New => Test::Fresh,
            FieldKey::Digest => Test::Digest(words.number(b"challenge", OUR_CHALLENGE, u32::MAX)?),
            _ => continue,
        };
        checks.push(Check { place, test })?;
    }
    Ok(())
}

// A message whose fields are as the words that are left say.
fn message_pattern(
    alloc: Global,
    shape: Shape,
    words: &mut LineWords<'_>,
) -> Result<Pattern, ReadFault> {
    let mut checks = Vec::new(alloc);
    put_usual_checks(&mut checks, &shape, words)?;
    for word in words.take_all() {
        put_checks(alloc, &mut checks, &shape, *word)?;
    }
    Ok(Pattern::Message(shape, SuiteList::from_vec(checks)))
}

// The line of a node, or its front where the port is left out.
fn names_line(alloc: Global, name: &[u8], port: &[u8]) -> Result<ByteString, AllocError> {
    let mut line = Vec::from_slice(alloc, b"name ")?;
    line.extend_from_slice(name)?;
    line.extend_from_slice(b" at port ")?;
    line.extend_from_slice(port)?;
    Ok(ByteString::from_vec(line))
}

// What the answer to a question for names has to be.
fn names_check(alloc: Global, words: &mut LineWords<'_>) -> Result<NamesCheck, ReadFault> {
    if let Some(port) = words.value(b"port") {
        return Ok(NamesCheck::Port(read_number(port, u32::MAX)?));
    }
    if let Some(name) = words.value(b"has") {
        let port = words.value(b"at").ok_or(ReadFault::Bad)?;
        return Ok(NamesCheck::Has(names_line(alloc, name, port)?));
    }
    match words.value(b"hasnot") {
        Some(name) => Ok(NamesCheck::Lacks(names_line(alloc, name, b"")?)),
        None => Ok(NamesCheck::Any),
    }
}

fn packet_check(words: &mut LineWords<'_>) -> Result<PacketCheck, ReadFault> {
    Ok(PacketCheck {
        time: words.time()?,
        least: words.number(b"least", 0, u32::MAX)?,
        most: words.number(b"most", u32::MAX, u32::MAX)?,
    })
}

// A pattern of this word that is no message.
fn plain_pattern(
    alloc: Global,
    word: &[u8],
    words: &mut LineWords<'_>,
) -> Result<Pattern, ReadFault> {
    match word {
        b"end" => Ok(Pattern::End),
        b"silence" => Ok(Pattern::Silence(words.time()?)),
        b"open" => Ok(Pattern::Open(words.time()?)),
        b"packets" => Ok(Pattern::Packets(packet_check(words)?)),
        b"packet" => Ok(Pattern::Body(Framing::Packet, words.next_bytes()?)),
        b"frame" => Ok(Pattern::Body(Framing::Frame, words.next_bytes()?)),
        b"bytes" => Ok(Pattern::Bytes(words.next_bytes()?)),
        b"names" => Ok(Pattern::Names(names_check(alloc, words)?)),
        _ => Err(ReadFault::Bad),
    }
}

fn pattern_in(terms: &TalkTerms<'_>, words: &mut LineWords<'_>) -> Result<Pattern, ReadFault> {
    let word = words.word()?;
    if let Some(shape) = shape_in(&AWAITED, word, words) {
        return message_pattern(terms.alloc, shape, words);
    }
    if let Some(shape) = shape_in(&EXACT, word, words) {
        let part = message_in(terms, &shape, words)?;
        return Ok(Pattern::Bytes(bytes_of_message(terms.alloc, &part)?));
    }
    plain_pattern(terms.alloc, word, words)
}

// Patterns one behind the other, with commas between them.
fn sequence_in(terms: &TalkTerms<'_>, text: &[u8]) -> Result<SuiteList<Pattern>, ReadFault> {
    let parts = split(terms.alloc, text, b',')?;
    let mut patterns = Vec::new(terms.alloc);
    for part in &parts {
        let words = words_of(terms.alloc, *part)?;
        let mut words = LineWords::new(terms.alloc, &words);
        let pattern = pattern_in(terms, &mut words)?;
        patterns.push(words.finish(pattern)?)?;
    }
    Ok(SuiteList::from_vec(patterns))
}

// Alternatives, with bars between them.
fn alternatives_in(
    terms: &TalkTerms<'_>,
    text: &[u8],
) -> Result<SuiteList<SuiteList<Pattern>>, ReadFault> {
    let parts = split(terms.alloc, text, b'|')?;
    let mut alternatives = Vec::new(terms.alloc);
    for part in &parts {
        alternatives.push(sequence_in(terms, *part)?)?;
    }
    Ok(SuiteList::from_vec(alternatives))
}

/// Wanted alternatives, and loose ones where a slash stands before them.
pub fn demand_in(terms: &TalkTerms<'_>, text: &[u8]) -> Result<Demand, ReadFault> {
    let parts = split(terms.alloc, text, b'/')?;
    match parts.as_slice() {
        [wanted] => Ok(Demand {
            wanted: alternatives_in(terms, *wanted)?,
            loose: SuiteList::from_vec(Vec::new(terms.alloc)),
        }),
        [wanted, loose] => Ok(Demand {
            wanted: alternatives_in(terms, *wanted)?,
            loose: alternatives_in(terms, *loose)?,
        }),
        _ => Err(ReadFault::Bad),
    }
}
