//! Two nodes that each count the other as up.
ghost use Rattle.std.specs.{Prelude.◌≡◌, Prelude.◌≢◌, Prelude.ℕ, Prelude.Some, Option.option_map};
ghost use Rattle.dist_world.specs.Ups.{agreement_on, both_agreement, FindsBoth};
ghost use Rattle.dist_world_model.specs.Agreement.{IsUp};

use crate::scene::Scene;
use dist_core::UpRecord;
use dist_names::{Creation, Flags};

/// What two running nodes have in common that each count the other as up.
#[derive(Clone, Copy, PartialEq, Eq)]
pub struct Agreement {
    /// The connection of the first one's end.
    pub conn: usize,
    /// The flags that both announced, as each has them in its record.
    pub common: Flags,
    /// The creation of the first one's running incarnation, as the other one has it in its record, where both know version
    /// 6.
    pub creation_a: Option<Creation>,
    /// The creation of the other one's, as the first one has it.
    pub creation_b: Option<Creation>,
}

fn both_agreement(
    here: Option<(usize, &UpRecord)>,
    there: Option<(usize, &UpRecord)>,
) -> Option<Agreement>
    ensures { result ≡ both_agreement (option_map (λ r. (r.0, r.1.now)) here.entry) (option_map (λ r. (r.0, r.1.now)) there.entry) }
{
    match (here, there) {
        (Some((conn, here)), Some((_, there))) => Some(Agreement {
            conn,
            common: here.common,
            creation_a: there.creation,
            creation_b: here.creation,
        }),
        _ => None,
    }
}

impl Scene {
    /// What nodes `a` and `b` have in common, where they are two different running nodes and each has an up end whose peer
    /// is the other.
    pub fn both_up(&self, a: usize, b: usize) -> Option<Agreement>
        ensures found { FindsBoth self.now a b result }
        ensures only { (c d : ℕ) (x : IsUp self.now a b c) (y : IsUp self.now b a d) → a ≢ b → result ≡ Some (agreement_on c x.kept y.kept) }
    {
        if a == b {
            return None;
        }
        both_agreement(self.up_with(a, b), self.up_with(b, a))
    }
}
