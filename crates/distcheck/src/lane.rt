//! Talks that are played one after the other, beside others.

ghost use Rattle.std.specs.{Prelude.◌≡◌, Result.ForOk};
ghost use Rattle.distcheck.specs.Played.{talks_of};

use crate::fault::Fault;
use crate::queue::QueuedTalk;
use crate::tries::PlayedTalk;

/// What a lane comes to.
#[derive(Drop)]
pub struct LaneReply<'q, 'a> {
    /// The talks.
    pub lane: &'q [QueuedTalk<'a>],
    /// What became of each, or the fault that stopped them.
    pub played: Result<Vec<PlayedTalk<'a>>, Fault>,
    // All its talks were played, in their order.
    pub ghost own: { ForOk played (λ ps. talks_of ps.items ≡ lane.now) },
}
