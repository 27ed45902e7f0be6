//! The words of a script's lines: names, numbers, causes, and the words that a table has.

ghost use Rattle.std.specs.Prelude.{◌≡◌, ◌↔◌, ℕ, List, [], drop, map, IsTrue, MatchResult};
ghost use Rattle.std.specs.Result.{result_ok};
ghost use Rattle.dist_names.specs.{NodeName.name_of_bytes, Order.same_name};
ghost use Rattle.dist_script.specs.declared.words.LineFault.TheVariants.{Bad};
ghost use Rattle.dist_script.specs.Fields.{Reads, first_in, meaning_in, number_in, count_in, creation_in, end_in, bytes_in, name_in, opening_in, why_in};

use crate::words::{LineFault, Words};
use dist_core::{Opening, Why};
use dist_names::{ByteString, Creation, NameError, NodeName, is_same_text, number_32, number_64};
use dist_peers::EndId;
use hex::FromHexError;
use std::alloc::Global;

const OPENINGS: [(&str, Opening); 2] = [("new", Opening::New), ("old", Opening::Old)];

/// The name that a word is.
pub fn name_of(alloc: Global, word: &[u8]) -> Result<NodeName, LineFault>
    ensures { Reads result (result_ok (name_of_bytes word.now)) }
{
    match NodeName::new(alloc, word) {
        Ok(name) => Ok(name),
        Err(NameError::NoMemory) => Err(LineFault::NoMemory),
        Err(_) => Err(LineFault::Bad),
    }
}

/// The name that the next word is.
pub fn name_word(alloc: Global, words: &mut Words<'_>) -> Result<NodeName, LineFault>
    ensures reads { Reads result (first_in name_in words.old) }
    ensures rest { words.new ≡ drop 1 words.old }
{
    name_of(alloc, words.word()?)
}

/// The number below 2^32 that the next word is.
#[tactic(auto, using(crate::proofs::Reading::number_read))]
pub fn number_word(words: &mut Words<'_>) -> Result<u32, LineFault>
    ensures reads { Reads result (first_in (number_in 32) words.old) }
    ensures rest { words.new ≡ drop 1 words.old }
{
    number_32(words.word()?).ok_or(LineFault::Bad)
}

/// The place of a node, the number of a connection, or how many, as the next word says.
pub fn count_word(words: &mut Words<'_>) -> Result<usize, LineFault>
    ensures reads { Reads result (first_in count_in words.old) }
    ensures rest { words.new ≡ drop 1 words.old }
{
    Ok(number_word(words)? as usize)
}

/// The number of an end that the next word is.
pub fn end_word(words: &mut Words<'_>) -> Result<EndId, LineFault>
    ensures reads { Reads result (first_in end_in words.old) }
    ensures rest { words.new ≡ drop 1 words.old }
{
    Ok(EndId(number_word(words)?))
}

/// The number below 2^64 of a connection that the next word is.
#[tactic(auto, using(crate::proofs::Reading::number_read))]
pub fn link_word(words: &mut Words<'_>) -> Result<u64, LineFault>
    ensures reads { Reads result (first_in (number_in 64) words.old) }
    ensures rest { words.new ≡ drop 1 words.old }
{
    number_64(words.word()?).ok_or(LineFault::Bad)
}

/// The creation that the next word is.
pub fn creation_word(words: &mut Words<'_>) -> Result<Creation, LineFault>
    ensures reads { Reads result (first_in creation_in words.old) }
    ensures rest { words.new ≡ drop 1 words.old }
{
    Ok(Creation(number_word(words)?))
}

/// The form of a name message that the next word is.
pub fn opening_word(words: &mut Words<'_>) -> Result<Opening, LineFault>
    ensures reads { Reads result (first_in opening_in words.old) }
    ensures rest { words.new ≡ drop 1 words.old }
{
    meaning_word(&OPENINGS, words)
}

// The cause that a word is.
fn why_of(word: &[u8]) -> Option<Why>
    ensures { result ≡ why_in word.now }
{
    Why::of_name(word)
}

/// The cause that the next word is.
pub fn why_word(words: &mut Words<'_>) -> Result<Why, LineFault>
    ensures reads { Reads result (first_in why_in words.old) }
    ensures rest { words.new ≡ drop 1 words.old }
{
    why_of(words.word()?).ok_or(LineFault::Bad)
}

/// The bytes that the hexadecimal digits of the next word write, of either case, of which there are some.
#[tactic(auto, using(crate::proofs::Reading::no_digits, crate::proofs::Reading::some_digits))]
pub fn bytes_word(alloc: Global, words: &mut Words<'_>) -> Result<ByteString, LineFault>
    ensures reads { Reads result (first_in bytes_in words.old) }
    ensures rest { words.new ≡ drop 1 words.old }
{
    let word = words.word()?;
    if word.is_empty() {
        return Err(LineFault::Bad);
    }
    match hex::decode(alloc, word) {
        Ok(bytes) => Ok(ByteString::from_vec(bytes)),
        Err(FromHexError::OutOfMemory) => Err(LineFault::NoMemory),
        Err(_) => Err(LineFault::Bad),
    }
}

// What a word stands for in a table of words.
fn meaning_of<T: Copy>(table: &[(&'static str, T)], word: &[u8]) -> Option<T>
    ensures { result ≡ meaning_in (map (λ row. (row.0.now, row.1)) table.now) word.now }
{
    for (known, meaning) in table {
        if is_same_text(known.as_bytes(), word) {
            return Some(*meaning);
        }
    }
    None
}

/// What the next word stands for in a table of words.
pub fn meaning_word<T: Copy>(
    table: &[(&'static str, T)],
    words: &mut Words<'_>,
) -> Result<T, LineFault>
    ensures reads { Reads result (first_in (meaning_in (map (λ row. (row.0.now, row.1)) table.now)) words.old) }
    ensures rest { words.new ≡ drop 1 words.old }
{
    meaning_of(table, words.word()?).ok_or(LineFault::Bad)
}

/// The end of a line, where no word is left.
pub fn line_end(words: &Words<'_>) -> Result<(), LineFault>
    ensures { MatchResult result (λ _. words.now ≡ []) (λ fault. (fault ≡ Bad) × ¬ (words.now ≡ [])) }
{
    if words.is_done() {
        Ok(())
    } else {
        Err(LineFault::Bad)
    }
}
