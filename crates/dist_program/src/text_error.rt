//! Why a word or a variable gives no text.

ghost use Rattle.std.specs.Prelude.{◌≡◌};
ghost use Rattle.dist_program.specs.declared.text_error.TextError.TheVariants.{NoMemory};

use std::alloc::AllocError;

/// Why the words of the command line, or a variable of the environment, give no text: the first that holds.
#[derive(Clone, Copy, Debug, PartialEq, Eq)]
pub enum TextError {
    /// One of them is not UTF-8. Whoever started the program is to blame.
    NoText,
    /// No memory was left to read them.
    NoMemory,
}

impl From<AllocError> for TextError {
    ghost from_gives = { λ _ error. error ≡ NoMemory };

    fn from(_error: AllocError) -> TextError {
        TextError::NoMemory
    }
}
