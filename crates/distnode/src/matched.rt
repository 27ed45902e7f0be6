//! The order in what the parser of command lines matched.

ghost use Rattle.std.specs.Prelude.{ℕ, IsSomeAnd, codes};
ghost use Rattle.clap.specs.Words.{first_of, found_of, rows_of, subcommand_rows_of};
ghost use Rattle.distnode.specs.CommandLine.{FoundBy, HasNumber, IsOrderOf};

use crate::order_of_words::Order;
use clap::ArgMatches;
use dist_names::{number_16, number_32};

// The challenge of a digest, or 0.
fn challenge_in(matches: &ArgMatches<'_>) -> Option<u32>
    ensures { FoundBy (HasNumber 32 0 (first_of (codes "challenge") (rows_of (found_of matches.now)))) result }
{
    match matches.get_str("challenge") {
        Some(word) => number_32(word.as_bytes()),
        None => Some(0),
    }
}

// The port of a port mapper, or the usual one.
fn port_in(matches: &ArgMatches<'_>, usual: u16) -> Option<u16>
    ensures { FoundBy (HasNumber 16 usual (first_of (codes "port") (rows_of (found_of matches.now)))) result }
{
    match matches.get_str("port") {
        Some(word) => number_16(word.as_bytes()),
        None => Some(usual),
    }
}

fn cookie_order<'a>(matches: &ArgMatches<'a>) -> Option<Order<'a>>
    ensures { (usual : ℕ) → FoundBy (λ order. IsOrderOf usual order (codes "cookie", rows_of (found_of matches.now))) result }
{
    let challenge = challenge_in(matches)?;
    let file = matches.get_str("file")?;
    Some(Order::Cookie { file, challenge })
}

fn names_order<'a>(matches: &ArgMatches<'a>, usual: u16) -> Option<Order<'a>>
    ensures { FoundBy (λ order. IsOrderOf usual order (codes "names", rows_of (found_of matches.now))) result }
{
    let port = port_in(matches, usual)?;
    Some(Order::Names { port })
}

fn run_order<'a>(matches: &ArgMatches<'a>) -> Option<Order<'a>>
    ensures { (usual : ℕ) → FoundBy (λ order. IsOrderOf usual order (codes "run", rows_of (found_of matches.now))) result }
{
    let file = matches.get_str("file")?;
    Some(Order::Run { file })
}

/// The order of the command that was matched. The port mapper's port is `usual` unless one is named.
pub fn order_in<'a>(matches: &ArgMatches<'a>, usual: u16) -> Option<Order<'a>>
    ensures { FoundBy (λ order. IsSomeAnd (subcommand_rows_of matches.now) (IsOrderOf usual order)) result }
{
    let (name, matches) = matches.subcommand()?;
    match name {
        "enact" => Some(Order::Enact),
        "cookie" => cookie_order(matches),
        "names" => names_order(matches, usual),
        "run" => run_order(matches),
        _ => None,
    }
}
