//! Links: the numbers by which those who carried a connection knew it.
ghost use Rattle.std.specs.Prelude.{◌≡◌, ℕ, ◌==◌, ◌&&◌, ◌||◌, if◌then◌else◌, [], Some, false, IfOk, OnOk};
ghost use Rattle.std.specs.{List.list_any, Ordering.nat_cmp, BTreeMap.get, BTreeSet.contains};
ghost use Rattle.dist_audit.specs.Links.{link_in, inner_link, mentions, comes, dialled_end, dialled_in, comes_in, or_else, target_of};
ghost use Rattle.dist_audit.specs.{Faults.links_repeat, Faults.comes_unopened, Kept.Knows, Kept.is_again, Kept.is_unknown};

use crate::lines::NodeLine;
use dist_core::Event;
use dist_peers::EndId;
use std::alloc::{AllocError, Global};
use std::collections::{BTreeMap, BTreeSet};

/// The link that an event mentions.
pub fn link_in(event: &Event) -> Option<u64>
    ensures { result ≡ link_in event.now }
{
    match event {
        Event::Opened { end_: _, link } => Some(*link),
        Event::Incoming { link } => Some(*link),
        _ => None,
    }
}

/// The link of a connection between these nodes that an event mentions, by whether somebody outside did it.
pub fn inner_link(outside: bool, event: &Event) -> Option<u64>
    ensures { result ≡ inner_link outside event.now }
{
    if outside { None } else { link_in(event) }
}

/// Where a link leads to: the node to which it came, or one that is not known to have seen it.
pub fn target_of(count: usize, node: usize, acceptor: Option<usize>) -> usize
    ensures { result ≡ target_of count node acceptor }
{
    match acceptor {
        Some(target) => target,
        None if node == 0 && 1 < count => 1,
        None => 0,
    }
}

// Notes a link, if it was known from another event of its kind.
fn note_again(
    doubled: &mut BTreeSet<u64>,
    repeats: &mut bool,
    link: u64,
    known: bool,
) -> Result<(), AllocError>
    ensures doubled { OnOk result ((k : ℕ) → contains nat_cmp doubled.new k ≡ ((known && (link == k)) || contains nat_cmp doubled.old k)) }
    ensures repeats { OnOk result (repeats.new ≡ (known || repeats.old)) }
{
    if known {
        *repeats = true;
        doubled.insert(link)?;
    }
    Ok(())
}

/// For each link the node and the end that learned of it when they had dialled, and the node to which it came; which links stand in two
/// lines of one kind, and whether one does.
#[derive(Drop)]
pub struct LinkTable {
    pub diallers: BTreeMap<u64, (usize, EndId)>,
    pub acceptors: BTreeMap<u64, usize>,
    pub doubled: BTreeSet<u64>,
    pub repeats: bool,
}

impl LinkTable {
    fn new(alloc: Global) -> LinkTable
        ensures known { Knows result.diallers result.acceptors result.doubled [] }
        ensures once { result.repeats ≡ false }
    {
        LinkTable {
            diallers: BTreeMap::new(alloc),
            acceptors: BTreeMap::new(alloc),
            doubled: BTreeSet::new(alloc),
            repeats: false,
        }
    }

    // Learns what an event of this node says.
    fn learn_event(&mut self, node: usize, event: &Event) -> Result<(), AllocError>
        ensures diallers { OnOk result ((k : ℕ) → get nat_cmp self.new.diallers k
            ≡ or_else node (dialled_end k event.now) (get nat_cmp self.old.diallers k)) }
        ensures acceptors { OnOk result ((k : ℕ) → get nat_cmp self.new.acceptors k
            ≡ (if comes k event.now then Some node else get nat_cmp self.old.acceptors k)) }
        ensures doubled { OnOk result ((k : ℕ) → contains nat_cmp self.new.doubled k
            ≡ ((is_again self.old.diallers self.old.acceptors event.now && mentions k event.now) || contains nat_cmp self.old.doubled k)) }
        ensures repeats { OnOk result (self.new.repeats ≡ (is_again self.old.diallers self.old.acceptors event.now || self.old.repeats)) }
    {
        match event {
            Event::Opened { end_, link } => {
                let known = self.diallers.insert(*link, (node, *end_))?;
                note_again(&mut self.doubled, &mut self.repeats, *link, known.is_some())
            }
            Event::Incoming { link } => {
                let known = self.acceptors.insert(*link, node)?;
                note_again(&mut self.doubled, &mut self.repeats, *link, known.is_some())
            }
            _ => Ok(()),
        }
    }

    // The same of what a line says.
    fn learn(&mut self, noted: &NodeLine) -> Result<(), AllocError>
        ensures diallers { OnOk result ((k : ℕ) → get nat_cmp self.new.diallers k
            ≡ or_else noted.now.node (dialled_in k noted.now) (get nat_cmp self.old.diallers k)) }
        ensures acceptors { OnOk result ((k : ℕ) → get nat_cmp self.new.acceptors k
            ≡ (if comes_in k noted.now then Some noted.now.node else get nat_cmp self.old.acceptors k)) }
        ensures doubled { OnOk result ((k : ℕ) → contains nat_cmp self.new.doubled k
            ≡ ((is_again self.old.diallers self.old.acceptors (let l = noted.now.line in l.event) && mentions k (let l = noted.now.line in l.event))
            || contains nat_cmp self.old.doubled k)) }
        ensures repeats { OnOk result (self.new.repeats
            ≡ (is_again self.old.diallers self.old.acceptors (let l = noted.now.line in l.event) || self.old.repeats)) }
    {
        let view = noted.line().read();
        self.learn_event(noted.node(), &view.line().event)
    }

    // A link came that has no dialler.
    fn is_unknown(&self, event: &Event) -> bool
        ensures { result ≡ is_unknown self.now.diallers event.now }
    {
        match event {
            Event::Incoming { link } => !self.diallers.contains_key(link),
            _ => false,
        }
    }

    // The same of the event of a line.
    fn is_unknown_line(&self, noted: &NodeLine) -> bool
        ensures { result ≡ is_unknown self.now.diallers (let l = noted.now.line in l.event) }
    {
        let view = noted.line().read();
        self.is_unknown(&view.line().event)
    }

    fn has_unknown(&self, lines: &[NodeLine]) -> bool
        ensures { result ≡ list_any (λ t. is_unknown self.now.diallers (let l = t.line in l.event)) lines.now }
    {
        for noted in lines {
            if self.is_unknown_line(noted) {
                return true;
            }
        }
        false
    }

    /// A link came that no node learned of when it had dialled.
    pub fn comes_unopened(&self, lines: &[NodeLine]) -> bool
        requires { Knows self.now.diallers self.now.acceptors self.now.doubled lines.now }
        ensures { result ≡ comes_unopened lines.now }
    {
        self.has_unknown(lines)
    }
}

/// What these lines say of each link.
pub fn link_table(alloc: Global, lines: &[NodeLine]) -> Result<LinkTable, AllocError>
    ensures known { IfOk result (λ t. Knows t.diallers t.acceptors t.doubled lines.now) }
    ensures repeats { IfOk result (λ t. t.repeats ≡ links_repeat lines.now) }
{
    let mut table = LinkTable::new(alloc);
    for i in (0..lines.len()).rev() {
        table.learn(&lines[i])?;
    }
    Ok(table)
}
