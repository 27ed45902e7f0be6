//! Refusals and their sentences.

use std::fmt::{Debug, Display, Write};

/// Reports the name of a refusal, and its sentence.
pub fn put_refused<E: Debug + Display>(printed: &mut String, why: &E) -> Option<()> {
    write!(printed, "{why:?} {why} ").ok()
}
