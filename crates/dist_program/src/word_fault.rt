//! Why a word of the command line, or a variable, is refused.

ghost use Rattle.std.specs.Prelude.{◌≡◌};
ghost use Rattle.dist_program.specs.{declared.word_fault.WordFault.TheVariants.NoMemory, Sentences.word_fault_status, Sentences.word_fault_text};

use std::alloc::AllocError;

/// Why a word of the command line, or a variable of the environment, is refused.
#[derive(Drop)]
pub enum WordFault {
    /// It is bad: the sentence about it, safe to print. Whoever wrote it is to blame.
    Bad(String),
    /// No memory was left to read it, or to report that it is bad.
    NoMemory,
}

impl WordFault {
    /// The text that is printed.
    pub fn text(&self) -> &str
        ensures { result.now ≡ word_fault_text self.now }
    {
        match self {
            WordFault::Bad(sentence) => sentence.as_str(),
            WordFault::NoMemory => "NoMemory",
        }
    }

    /// The exit status: 2, as for a bad command line, unless memory ran out.
    pub fn status(&self) -> u8
        ensures { result ≡ word_fault_status self.now }
    {
        match self {
            WordFault::Bad(_) => 2,
            WordFault::NoMemory => 1,
        }
    }
}

impl From<AllocError> for WordFault {
    ghost from_gives = { λ _ fault. fault ≡ NoMemory };

    fn from(_error: AllocError) -> WordFault {
        WordFault::NoMemory
    }
}
