//! What somebody outside did.
ghost use Rattle.std.specs.{Prelude.◌≡◌, Prelude.ℕ, Prelude.◌||◌, Prelude.IfOk, Prelude.OnOk, List.list_any, Ordering.nat_cmp, BTreeSet.contains};
ghost use Rattle.dist_audit.specs.Outside.{is_paired, is_strange, end_number, is_strange_at, is_done_outside, marked_line, with_marks};
ghost use Rattle.dist_audit.specs.Outside.{meets_stranger, strangers};

use super::Lines;
use crate::lines::NodeLine;
use crate::links::link_in;
use dist_core::Event;
use dist_peers::EndId;
use std::alloc::{AllocError, Global};
use std::collections::BTreeSet;

// The number of an end among those of all nodes.
fn end_number(node: usize, id: EndId) -> u128
    ensures { result ≡ end_number node id }
{
    node as u128 * 4294967296 + id.0 as u128
}

// Adds the end of a line, if its link is not dialled once and come once.
fn add_end(lines: &Lines, ends: &mut BTreeSet<u128>, noted: &NodeLine) -> Result<(), AllocError>
    ensures { OnOk result ((n : ℕ) → contains nat_cmp ends.new n ≡ (is_strange_at lines.now n noted.now || contains nat_cmp ends.old n)) }
{
    let view = noted.line().read();
    let line = view.line();
    if lines.is_strange(link_in(&line.event)) {
        ends.insert(end_number(noted.node(), line.reply.end_))?;
    }
    Ok(())
}

// The numbers of all ends whose other side is somebody outside.
fn ends_outside(alloc: Global, lines: &Lines) -> Result<BTreeSet<u128>, AllocError>
    ensures { IfOk result (λ ends. (n : ℕ) → contains nat_cmp ends n ≡ list_any (is_strange_at lines.now n) lines.now) }
{
    let mut ends = BTreeSet::new(alloc);
    let noted = lines.ordered_lines();
    for i in 0..noted.len() {
        add_end(lines, &mut ends, &noted[i])?;
    }
    Ok(ends)
}

// What happened at this node is what somebody outside did.
fn is_done_outside(lines: &Lines, ends: &BTreeSet<u128>, node: usize, event: &Event) -> bool
    requires { (n : ℕ) → contains nat_cmp ends.now n ≡ list_any (is_strange_at lines.now n) lines.now }
    ensures { result ≡ is_done_outside lines.now node event.now }
{
    match event {
        Event::Frame { end_, body: _ } => ends.contains(&end_number(node, *end_)),
        _ => lines.is_strange(link_in(event)),
    }
}

// The line, by whether that is so.
fn marked_line<'a>(lines: &Lines<'a>, ends: &BTreeSet<u128>, noted: &NodeLine<'a>) -> NodeLine<'a>
    requires { (n : ℕ) → contains nat_cmp ends.now n ≡ list_any (is_strange_at lines.now n) lines.now }
    ensures { result ≡ marked_line lines.now noted.now }
{
    let view = noted.line().read();
    let outside = is_done_outside(lines, ends, noted.node(), &view.line().event);
    noted.with_outside(outside)
}

// All lines, each so.
fn with_marks<'a>(
    alloc: Global,
    lines: &Lines<'a>,
    ends: &BTreeSet<u128>,
) -> Result<Vec<NodeLine<'a>>, AllocError>
    requires { (n : ℕ) → contains nat_cmp ends.now n ≡ list_any (is_strange_at lines.now n) lines.now }
    ensures { IfOk result (λ all. all.items ≡ with_marks lines.now) }
{
    let mut all = Vec::new(alloc);
    let noted = lines.ordered_lines();
    for i in 0..noted.len() {
        all.push(marked_line(lines, ends, &noted[i]))?;
    }
    Ok(all)
}

// In the line a connection with somebody outside comes to be.
fn meets_stranger(noted: &NodeLine) -> bool
    ensures { result ≡ meets_stranger noted.now }
{
    let view = noted.line().read();
    noted.is_outside() && link_in(&view.line().event).is_some()
}

// How many such lines there are.
fn strangers(noted: &[NodeLine]) -> usize
    ensures { result ≡ strangers noted.now }
{
    let mut count = 0;
    for i in 0..noted.len() {
        if meets_stranger(&noted[i]) {
            count += 1;
        }
    }
    count
}

impl<'a> Lines<'a> {
    // The link is that of a connection between two of the nodes.
    fn is_paired(&self, link: u64) -> bool
        ensures { result ≡ is_paired self.now link }
    {
        self.dialler_of(link).is_some()
            && self.acceptor_of(link).is_some()
            && !self.links.doubled.contains(&link)
    }

    // There is a link, and it is not that of a connection between two of the nodes.
    fn is_strange(&self, link: Option<u64>) -> bool
        ensures { result ≡ is_strange self.now link }
    {
        match link {
            Some(link) => !self.is_paired(link),
            None => false,
        }
    }

    /// Finds for each line whether somebody outside did what it says.
    pub fn mark(&mut self, alloc: Global) -> Result<(), AllocError>
        ensures { OnOk result (self.new ≡ with_marks self.old) }
    {
        let ends = ends_outside(alloc, self)?;
        self.noted = with_marks(alloc, self, &ends)?;
        Ok(())
    }

    /// How many connections were with somebody outside.
    pub fn strangers(&self) -> usize
        ensures { result ≡ strangers self.now }
    {
        strangers(&self.noted)
    }
}
