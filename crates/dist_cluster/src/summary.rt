//! What is said of many nodes in few words: how many came to each verdict, and how many pairs to each word.

ghost use Rattle.std.specs.Prelude.{◌≡◌, ◌∷◌, ◌++◌, ◌^◌, ◌-◌, ◌*◌, ◌/◌, [], IfOk, OnOk, map, min, count_by};
ghost use Rattle.dist_cluster.specs.Summary.{Summarizes, comes_to, how_many, makes_pair, pair_count, tallied, shown_counts};

use crate::pairs::{Half, pairing_of};
use dist_names::is_same_text;
use std::alloc::{AllocError, Global};

/// The words of verdicts, in the order of their variants.
const VERDICTS: [&str; 40] = [
    "Up",
    "Finished",
    "Dropped",
    "Reached",
    "Answered",
    "NoHost",
    "ResolverSilent",
    "MapperRefused",
    "MapperUnreachable",
    "MapperFault",
    "NotRegistered",
    "NameInUse",
    "PortRefused",
    "PortUnreachable",
    "NoCaller",
    "Silent",
    "Gone",
    "Reset",
    "NoName",
    "Left",
    "Stopped",
    "Withdrawn",
    "Foreign",
    "Unexpected",
    "OwnName",
    "Busy",
    "LacksFlags",
    "NotOnList",
    "AlreadyUp",
    "OtherName",
    "LongAndShort",
    "Version5",
    "WantsName",
    "Dynamic",
    "WrongCookie",
    "WrongAck",
    "Unfinished",
    "NothingFound",
    "NoMemory",
    "NoDescriptors",
];

/// The words of pairs, in the order in which they are looked for.
const PAIRS: [&str; 8] = [
    "SameName",
    "LongAndShort",
    "NotReached",
    "LacksFlags",
    "OtherKinds",
    "OtherCookies",
    "Unsure",
    "Agree",
];

/// A word, and how many have it.
#[derive(Clone, Copy)]
pub struct WordCount {
    /// The word.
    pub word: &'static str,
    /// How many have it, at least one.
    pub count: u64,
}

/// What all nodes came to.
#[derive(Drop)]
pub struct Summary {
    /// How many nodes were dialled.
    pub nodes: u64,
    /// The words of their verdicts.
    pub verdicts: Vec<WordCount>,
    /// How many pairs they make.
    pub pairs: u64,
    /// The words of those pairs.
    pub pairings: Vec<WordCount>,
}

// Whether a probe came to this word.
fn comes_to(half: &Half<'_>, word: &str) -> bool
    ensures { result ≡ comes_to word.now half.now }
{
    is_same_text(half.verdict.name().as_bytes(), word.as_bytes())
}

// Whether two nodes make a pair of this word.
fn makes_pair(first: &Half<'_>, second: &Half<'_>, word: &str) -> bool
    ensures { result ≡ makes_pair word.now first.now second.now }
{
    is_same_text(pairing_of(first, second).name().as_bytes(), word.as_bytes())
}

// How many nodes came to this word.
fn count_verdicts(halves: &[Half<'_>], word: &str) -> usize
    ensures { result ≡ count_by (comes_to word.now) halves.now }
{
    halves.iter().filter(|half| comes_to(half, word)).count()
}

// How many of the others make a pair of this word with a node.
fn count_with(first: &Half<'_>, others: &[Half<'_>], word: &str) -> usize
    ensures { result ≡ count_by (makes_pair word.now first.now) others.now }
{
    others
        .iter()
        .filter(|second| makes_pair(first, second, word))
        .count()
}

// How many pairs of this word the nodes make, at most the greatest number of 64 bits.
fn count_pairs(halves: &[Half<'_>], word: &str) -> u64
    ensures { result ≡ min (pair_count (makes_pair word.now) halves.now) (2 ^ 64 - 1) }
{
    match halves.split_first() {
        None => 0,
        Some((first, others)) => {
            let count = count_with(first, others, word) as u64;
            count.saturating_add(count_pairs(others, word))
        }
    }
}

// Adds a word, where some have it.
fn push_tally(
    tallies: &mut Vec<WordCount>,
    word: &'static str,
    count: u64,
) -> Result<(), AllocError>
    ensures { OnOk result (shown_counts tallies.new.items ≡ shown_counts tallies.old.items ++ tallied (λ _. count) (word.now ∷ [])) }
{
    if count > 0 {
        tallies.push(WordCount { word, count })?;
    }
    Ok(())
}

// Which of these words the nodes' verdicts have.
fn tally_verdicts(
    alloc: Global,
    halves: &[Half<'_>],
    words: &[&'static str],
) -> Result<Vec<WordCount>, AllocError>
    ensures { IfOk result (λ tallies. shown_counts tallies.items ≡ tallied (λ word. count_by (comes_to word) halves.now) (map (λ word. word.now) words.now)) }
{
    let mut tallies = Vec::new(alloc);
    for word in words {
        push_tally(&mut tallies, word, count_verdicts(halves, word) as u64)?;
    }
    Ok(tallies)
}

// Which of these words the nodes' pairs have.
fn tally_pairs(
    alloc: Global,
    halves: &[Half<'_>],
    words: &[&'static str],
) -> Result<Vec<WordCount>, AllocError>
    ensures { IfOk result (λ tallies. shown_counts tallies.items ≡ tallied (how_many halves.now) (map (λ word. word.now) words.now)) }
{
    let mut tallies = Vec::new(alloc);
    for word in words {
        push_tally(&mut tallies, word, count_pairs(halves, word))?;
    }
    Ok(tallies)
}

// How many pairs this many nodes make, where they are at most 2^32.
fn pairs_among(nodes: u64) -> u64
    ensures { result ≡ min (nodes * (nodes - 1)) (2 ^ 64 - 1) / 2 }
{
    nodes.saturating_mul(nodes.saturating_sub(1)) / 2
}

impl Summary {
    /// What these nodes came to.
    pub fn of_nodes(alloc: Global, halves: &[Half<'_>]) -> Result<Summary, AllocError>
        ensures { IfOk result (λ summary. Summarizes halves.now summary) }
    {
        let verdicts = tally_verdicts(alloc, halves, &VERDICTS)?;
        let pairings = tally_pairs(alloc, halves, &PAIRS)?;
        let nodes = halves.len() as u64;
        Ok(Summary {
            nodes,
            verdicts,
            pairs: pairs_among(nodes),
            pairings,
        })
    }
}
