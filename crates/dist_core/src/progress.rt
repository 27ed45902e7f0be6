//! What becomes of an attempt, before it is done: it is little enough to change the attempt in place, without building an effect.
ghost use Rattle.std.specs.Prelude.{◌≡◌, []};
ghost use Rattle.dist_core_ends.specs.Progress.{stage_of};

use dist_core_ends::{Attempt, Phase, Stage, UpRecord, Why};
use dist_names::ByteString;
use std::alloc::Global;

/// What becomes of an attempt. It is used in contracts: no public call takes or returns it.
#[derive(Drop)]
pub enum Progress {
    /// It sends this and goes on to this stage.
    Goes { say: ByteString, to: Stage },
    /// The same, where what it sends is the reply to a challenge.
    Replies { say: ByteString, to: Stage },
    /// It sends this and comes up.
    Rises { say: ByteString, came: UpRecord },
    /// It sends this and is closed.
    Shuts { say: ByteString, why: Why },
}

// The attempt is closed, and sends nothing.
pub fn shuts_silently(alloc: Global, why: Why) -> Progress
    ensures { result ≡ Progress.Shuts [] why }
{
    let say = ByteString::new(alloc);
    Progress::Shuts { say, why }
}

// The attempt goes on in another phase.
pub fn moves(say: ByteString, attempt: &Attempt, to: Phase) -> Progress
    ensures { result ≡ Progress.Goes say (record (stage_of attempt.now) { phase = to }) }
{
    let to = Stage {
        phase: to,
        ..attempt.stage()
    };
    Progress::Goes { say, to }
}
