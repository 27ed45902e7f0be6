//! Each pair of the nodes that were dialled is compared. Of more than two nodes, only the bad pairs are printed, and a summary.

ghost use Rattle.std.specs.Prelude.{◌≡◌, ◌||◌, IfOk};
ghost use Rattle.dist_cluster.specs.{Pairs.is_bad, Pairs.pair_status, Pairs.pairing_of, Statuses.first_of};
ghost use Rattle.distping.specs.Runs.{pairs_status, status_beside};

use dist_cluster::{Half, Pairing, Summary, first_of, pairing_of};
use distping_report::LineSink;
use distping_words::Fault;

// Whether a pair is printed: each one, or each bad one.
fn shows(all: bool, pairing: Pairing) -> bool
    ensures { result ≡ (all || is_bad pairing) }
{
    all || pairing.is_bad()
}

// Prints what can be said of two nodes, if it is shown, and returns its status.
fn put_pair(
    lines: LineSink<'_>,
    all: bool,
    first: &Half<'_>,
    second: &Half<'_>,
) -> Result<u8, Fault>
    ensures { IfOk result (λ it. it ≡ pair_status (pairing_of first.now second.now)) }
{
    let pairing = pairing_of(first, second);
    if shows(all, pairing) {
        lines.put_pair(first.node, second.node, pairing)?;
    }
    Ok(pairing.status())
}

// Prints the pairs of a node and these that are shown, and returns the first status that is not 0.
fn put_beside(
    lines: LineSink<'_>,
    all: bool,
    first: &Half<'_>,
    others: &[Half<'_>],
) -> Result<u8, Fault>
    ensures { IfOk result (λ it. it ≡ status_beside first.now others.now) }
{
    match others {
        [] => Ok(0),
        [second, others @ ..] => {
            let status = put_pair(lines, all, first, second)?;
            Ok(first_of(status, put_beside(lines, all, first, others)?))
        }
    }
}

// The same of each two of these nodes.
fn put_pairs(lines: LineSink<'_>, all: bool, halves: &[Half<'_>]) -> Result<u8, Fault>
    ensures { IfOk result (λ it. it ≡ pairs_status halves.now) }
{
    match halves {
        [] => Ok(0),
        [first, others @ ..] => {
            let status = put_beside(lines, all, first, others)?;
            Ok(first_of(status, put_pairs(lines, all, others)?))
        }
    }
}

// Prints how many nodes have which verdict, and how many pairs which word.
fn put_summary(lines: LineSink<'_>, halves: &[Half<'_>], status: u8) -> Result<(), Fault> {
    lines.put_summary(&Summary::of_nodes(lines.alloc, halves)?, status)
}

/// Prints what can be said of these nodes together, and returns the first status that is not 0. `status` is that of the nodes; with
/// `all_pairs` every pair is printed.
pub fn compare(
    lines: LineSink<'_>,
    all_pairs: bool,
    halves: &[Half<'_>],
    status: u8,
) -> Result<u8, Fault>
    ensures { IfOk result (λ it. it ≡ first_of status (pairs_status halves.now)) }
{
    let are_many = halves.len() > 2;
    let status = first_of(status, put_pairs(lines, all_pairs || !are_many, halves)?);
    if are_many {
        put_summary(lines, halves, status)?;
    }
    Ok(status)
}
