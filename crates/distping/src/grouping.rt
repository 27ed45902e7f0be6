//! Which nodes are dialled at once.

ghost use Rattle.std.specs.Prelude.{◌≡◌, ◌≢◌, ◌++◌, ◌<◌, ◌≤◌, ℕ, length, take, AllPairs, Contains, false, true, slice_index_or};

use dist_names::NodeName;

/// The most nodes that are dialled at once, each in a thread of its own. A probe has one connection at a time, and its resolver one or
/// two descriptors: 32 probes stay far below the 1,024 descriptors that a process usually may have. Our own choice.
const MOST_AT_ONCE: usize = 32;

/// Whether a node is among these.
pub fn is_among(nodes: &[NodeName], node: &NodeName) -> bool
    ensures same { result ≡ true → Contains nodes.now node.now }
    ensures other { result ≡ false → (k : ℕ) (d : _) → k < length nodes.now → slice_index_or nodes.now k d ≢ node.now }
{
    nodes.iter().any(|other| other.is_same(node))
}

// How many of the nodes are dialled next: at most 32, and only those before the first name that occurs twice.
#[tactic(auto, using(crate::proofs::Apart::apart_few, crate::proofs::Apart::apart_more))]
fn count_next(nodes: &[NodeName]) -> usize
    ensures most { result ≤ 32 }
    ensures within { result ≤ length nodes.now }
    ensures some { 0 < length nodes.now → 0 < result }
    ensures apart { AllPairs (λ x y. x ≢ y) (take result nodes.now) }
{
    let most = nodes.len().min(MOST_AT_ONCE);
    let mut size = most.min(1);
    while size < most {
        if is_among(&nodes[..size], &nodes[size]) {
            break;
        }
        size += 1;
    }
    size
}

/// The nodes that are dialled next, all at once, and the rest. A node that is named twice is dialled twice, but not at once: it might
/// refuse the second of two connections from one name.
pub fn split_group(nodes: &[NodeName]) -> (&[NodeName], &[NodeName])
    // Each node is in one of the two, in its order.
    ensures whole { nodes.now ≡ result.0.now ++ result.1.now }
    ensures most { length result.0.now ≤ 32 }
    ensures apart { AllPairs (λ x y. x ≢ y) result.0.now }
    ensures fewer { 0 < length nodes.now → length result.1.now < length nodes.now }
{
    nodes.split_at(count_next(nodes))
}
