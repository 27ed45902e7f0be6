//! The words of the command line and the variables of the environment.

use crate::text_error::TextError;
use crate::word_fault::WordFault;
use std::alloc::{AllocError, Global};
use std::env::{self, VarError};
use std::io::ErrorKind;

/// The words behind the program's name. `NoText` where one is not UTF-8.
pub fn words_of(rt: &HostRuntime) -> Result<Vec<String>, TextError> {
    match env::args(rt) {
        Ok(words) => Ok(words.skip(1).collect(rt.alloc())?),
        Err(error) if error.kind() == ErrorKind::OutOfMemory => Err(TextError::NoMemory),
        Err(_) => Err(TextError::NoText),
    }
}

/// The same, or the sentence that refuses them.
pub fn read_words(rt: &HostRuntime, program: &str) -> Result<Vec<String>, WordFault> {
    match words_of(rt) {
        Ok(words) => Ok(words),
        Err(TextError::NoText) => Err(WordFault::Bad(format!(in rt.alloc();
            "bad command line: a word is no UTF-8 ({program} --help)"
        )?)),
        Err(TextError::NoMemory) => Err(WordFault::NoMemory),
    }
}

/// The words of `words_of`, borrowed.
pub fn texts(alloc: Global, words: &[String]) -> Result<Vec<&str>, AllocError> {
    words.iter().map(|word| word.as_str()).collect(alloc)
}

/// The value that the environment has for this name, if any. A value that is not UTF-8 is `NoText`, and the caller decides
/// whether that counts as no value or is refused.
pub fn variable(rt: &HostRuntime, name: &str) -> Result<Option<String>, TextError> {
    match env::var(rt, name) {
        Ok(text) => Ok(Some(text)),
        Err(VarError::NotPresent) => Ok(None),
        Err(VarError::NotUnicode) => Err(TextError::NoText),
        Err(VarError::OutOfMemory) => Err(TextError::NoMemory),
    }
}
