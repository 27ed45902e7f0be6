//! What a driven handshake came to.

use crate::outcome::Outcome;
use dist_core::UpRecord;

/// What a driven handshake came to.
#[derive(Drop)]
pub enum Reached {
    /// The end is up.
    Up {
        /// What is known of it.
        record: UpRecord,
        /// The bytes that were read behind the last frame: the first of the packets that follow.
        rest: Vec<u8>,
    },
    /// The end is closed, or no turn is left.
    Ended(Outcome),
}
