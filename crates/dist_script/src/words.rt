//! The lines of a text, and the words of a line.

ghost use Rattle.std.specs.Prelude.{◌≡◌, ◌↔◌, ◌≤◌, ℕ, List, [], ◌∷◌, length, option_copied, IsTrue, MatchOption, MatchResult, MatchBool};
ghost use Rattle.std.specs.List.{position};
ghost use Rattle.memchr.specs.Find.{is_byte};
ghost use Rattle.dist_script.specs.declared.words.LineFault.TheVariants.{NoMemory};
ghost use Rattle.dist_script.specs.Words.{words_of, lines_of, parts_in, bytes_left, is_skipped};

use memchr::memchr;
use std::alloc::{AllocError, AllocFailed};
use std::marker::Model;

/// Why a line was not read.
#[derive(Clone, Copy)]
pub enum LineFault {
    /// It is not of the form that is wanted.
    Bad,
    /// No memory was left to keep what it says.
    NoMemory,
}

impl From<AllocError> for LineFault {
    ghost from_gives = { λ _ fault. fault ≡ NoMemory };

    fn from(_error: AllocError) -> LineFault {
        LineFault::NoMemory
    }
}

impl<T: Drop> From<AllocFailed<T>> for LineFault {
    ghost from_gives = { λ _ fault. fault ≡ NoMemory };

    fn from(_error: AllocFailed<T>) -> LineFault {
        LineFault::NoMemory
    }
}

/// Whether a line is empty or a comment, which `#` begins.
pub fn is_skipped(line: &[u8]) -> bool
    ensures { result ≡ is_skipped line.now }
{
    match line {
        [] => true,
        [first, ..] => *first == b'#',
    }
}

/// The first line of a text, and what stands behind its line feed, where it has one.
pub fn first_line(text: &[u8]) -> (&[u8], Option<&[u8]>)
    ensures parts { lines_of text.now ≡ result.0.now ∷ parts_in 10 (option_copied result.1) }
    ensures fewer { bytes_left (option_copied result.1) ≤ length text.now }
{
    match memchr(b'\n', text) {
        Some(place) => (&text[..place], Some(&text[place + 1..])),
        None => (text, None),
    }
}

// Where the first space of a line stands. Most words are short, so their bytes are looked at one by one.
fn first_space(line: &[u8]) -> Option<usize>
    ensures { result ≡ position (is_byte 32) line.now }
{
    line.iter().position(|byte| *byte == b' ')
}

/// What is still to be read of a line: words with one space between. Two spaces have a word of no bytes between them,
/// and so has a space at either end of the line; no form of a line wants such a word. Contracts see the words.
#[derive(Drop)]
pub struct Words<'a> {
    rest: Option<&'a [u8]>,
}

impl<'a> Model for Words<'a> {
    ghost use Rattle.std.specs.Prelude.{ℕ, List, option_copied};
    ghost use Rattle.dist_script.specs.Words.{parts_in};

    ghost Value = { List (List ℕ) };

    ghost view = { λ w. parts_in 32 (option_copied w.rest) };
}

impl<'a> Words<'a> {
    /// The words of this line, of which there is at least one.
    pub fn new(line: &'a [u8]) -> Words<'a>
        ensures { result ≡ words_of line.now }
    {
        Words { rest: Some(line) }
    }

    /// Takes the next word, or returns `None` where no word is left.
    #[tactic(auto, using(crate::proofs::Split::at_space, crate::proofs::Split::no_space))]
    pub fn next(&mut self) -> Option<&'a [u8]>
        ensures { MatchOption result ((self.old ≡ []) × (self.new ≡ [])) (λ word. self.old ≡ word.now ∷ self.new) }
    {
        let line = self.rest.take()?;
        let Some(place) = first_space(line) else {
            return Some(line);
        };
        self.rest = Some(&line[place + 1..]);
        Some(&line[..place])
    }

    /// Takes the next word, which the form of the line wants. Without one the line is bad.
    pub fn word(&mut self) -> Result<&'a [u8], LineFault>
        ensures { MatchResult result (λ word. self.old ≡ word.now ∷ self.new) (λ fault. (fault ≡ LineFault.Bad) × (self.old ≡ []) × (self.new ≡ [])) }
    {
        match self.next() {
            Some(word) => Ok(word),
            None => Err(LineFault::Bad),
        }
    }

    /// Takes the next word where it is this one, and returns whether it was.
    #[tactic(auto, using(crate::proofs::Split::other_start))]
    #[inline(always)]
    pub fn skip(&mut self, wanted: &[u8]) -> bool
        ensures { MatchBool result (self.old ≡ wanted.now ∷ self.new) ((self.new ≡ self.old) × ((rest : List (List ℕ)) → self.old ≡ wanted.now ∷ rest → ⊥)) }
    {
        let Some(line) = self.rest else {
            return false;
        };
        if !line.starts_with(wanted) {
            return false;
        }
        if self.next() == Some(wanted) {
            return true;
        }
        self.rest = Some(line);
        false
    }

    /// Whether no word is left.
    #[tactic(auto, using(crate::proofs::Split::some_word))]
    pub fn is_done(&self) -> bool
        ensures { IsTrue result ↔ (self.now ≡ []) }
    {
        match self.rest {
            None => true,
            Some(_) => false,
        }
    }
}
