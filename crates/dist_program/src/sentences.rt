//! The sentences that refuse a word of the command line, with that word in them: between double quotes or escaped, so that all of it
//! is safe to print. They are the same for all programs that take their words in this way.

ghost use Rattle.std.specs.Prelude.{◌≡◌, ℕ, List, ◌++◌, IfOk, string_bytes};
ghost use Rattle.dist_names.specs.Escaped.{in_double_quotes};
ghost use Rattle.dist_program.specs.Sentences.{GivesName, name_sentence, number_sentence, parser_sentence};

use crate::word_fault::WordFault;
use dist_names::{NameError, NodeName, escape, quote};
use std::alloc::{AllocError, Global};
use std::fmt::Display;

/// A text, and behind it a word between double quotes.
pub fn with_word(alloc: Global, text: &str, word: &str) -> Result<String, AllocError>
    ensures { IfOk result (λ sentence. string_bytes sentence ≡ text.now ++ in_double_quotes word.now) }
{
    let mut sentence = String::from_str(alloc, text)?;
    sentence.push_str(&quote(alloc, word.as_bytes())?)?;
    Ok(sentence)
}

/// The sentence that refuses a word that should be a node's name.
pub fn name_sentence(alloc: Global, word: &str) -> Result<String, AllocError>
    ensures { IfOk result (λ sentence. string_bytes sentence ≡ name_sentence word.now) }
{
    let text = "a node's name has one @, something on both sides, and 3 to 255 bytes: ";
    with_word(alloc, text, word)
}

/// The node's name that a word spells.
pub fn name_in(alloc: Global, word: &str) -> Result<NodeName, WordFault>
    ensures { GivesName word.now result }
{
    match NodeName::new(alloc, word.as_bytes()) {
        Ok(name) => Ok(name),
        Err(NameError::NoMemory) => Err(WordFault::NoMemory),
        Err(NameError::TooShort | NameError::TooLong | NameError::BadByte | NameError::BadAt) =>
            Err(WordFault::Bad(name_sentence(alloc, word)?)),
    }
}

// The sentence that refuses a word that should be a number, behind the option `--ID`.
pub(crate) fn number_sentence(
    alloc: Global,
    program: &str,
    id: &str,
    word: &str,
) -> Result<String, AllocError>
    ensures { IfOk result (λ sentence. string_bytes sentence ≡ number_sentence program.now id.now word.now) }
{
    let quoted = quote(alloc, word.as_bytes())?;
    format!(in alloc;
        "bad command line: --{id} takes a number from 1 to 65535: {quoted} ({program} --help)"
    )
}

// What the parser says in its first line, behind `error: `.
fn parser_text(text: &str) -> &str {
    let line = text.lines().next().unwrap_or("");
    line.strip_prefix("error: ").unwrap_or(line)
}

// The sentence that refuses words for this reason.
fn sentence_with(alloc: Global, program: &str, reason: &str) -> Result<String, AllocError>
    ensures { IfOk result (λ sentence. string_bytes sentence ≡ parser_sentence program.now reason.now) }
{
    let escaped = escape(alloc, reason.as_bytes())?;
    format!(in alloc; "bad command line: {escaped} ({program} --help)")
}

/// The sentence that refuses words that the parser of command lines does not take, by its error.
pub fn parser_sentence<D: Display>(
    alloc: Global,
    program: &str,
    error: &D,
) -> Result<String, AllocError>
    ensures { IfOk result (λ sentence. (reason : List ℕ) × (string_bytes sentence ≡ parser_sentence program.now reason)) }
{
    let text = format!(in alloc; "{error}")?;
    sentence_with(alloc, program, parser_text(&text))
}
