//! All lines, in the order of their tickets.
ghost use Rattle.std.specs.Prelude.{◌≡◌, ◌&&◌, not, false, IfOk, IfErr, OnOk};
ghost use Rattle.dist_audit.specs.{Lines.lines_by_node, Links.dialler_of, Links.acceptor_of, Faults.links_unpaired, Faults.Unpairs};
ghost use Rattle.dist_audit.specs.{Audit.AreTold, Outside.with_marks};

use crate::audit_error::AuditError;
use crate::lines::{NodeLine, lines_of};
use crate::links::{LinkTable, link_table};
use dist_locked_book::Closed;
use dist_peers::EndId;
use std::alloc::{AllocError, Global};
use std::marker::Model;

mod outside;

/// All lines in the order of their tickets, and what they say of each link.
#[derive(Drop)]
pub struct Lines<'a> {
    noted: Vec<NodeLine<'a>>,
    links: LinkTable,
}

impl<'a> Model for Lines<'a> {
    ghost use Rattle.std.specs.Prelude.{List};
    ghost use Rattle.dist_audit.specs.Lines as lines;
    ghost use Rattle.dist_audit.specs.Kept as kept;

    ghost Value = { List lines.NodeLine };

    ghost view = { λ l. l.noted.items };

    ghost invariant = { λ l. let t = l.links in kept.Knows t.diallers t.acceptors t.doubled l.noted.items };
}

impl<'a> Lines<'a> {
    pub fn ordered_lines(&self) -> &[NodeLine<'a>]
        ensures { result.now ≡ self.now }
    {
        &self.noted
    }

    /// The node and the end that learned of the link when they had dialled.
    pub fn dialler_of(&self, link: u64) -> Option<(usize, EndId)>
        ensures { result ≡ dialler_of link self.now }
    {
        self.links.diallers.get(&link).copied()
    }

    /// The node to which the link came.
    pub fn acceptor_of(&self, link: u64) -> Option<usize>
        ensures { result ≡ acceptor_of link self.now }
    {
        self.links.acceptors.get(&link).copied()
    }
}

// These lines, whose links are in pairs.
fn pair(alloc: Global, noted: Vec<NodeLine>) -> Result<Lines, AuditError>
    ensures ok { IfOk result (λ lines. lines ≡ noted.entry.items) }
    ensures paired { OnOk result (links_unpaired noted.entry.items ≡ false) }
    ensures err { IfErr result (λ e. Unpairs e (links_unpaired noted.entry.items)) }
{
    let links = link_table(alloc, &noted)?;
    if links.repeats || links.comes_unopened(&noted) {
        return Err(AuditError::Unpaired);
    }
    Ok(Lines { noted, links })
}

// These lines, each by whether somebody outside did what it says.
fn mark(alloc: Global, noted: Vec<NodeLine>) -> Result<Lines, AllocError>
    ensures { IfOk result (λ lines. lines ≡ with_marks noted.entry.items) }
{
    let links = link_table(alloc, &noted)?;
    let mut lines = Lines { noted, links };
    lines.mark(alloc)?;
    Ok(lines)
}

/// All lines of these nodes, in the order of their tickets, whose links are in pairs; or, where others took part, each by whether somebody
/// outside did what it says.
pub fn told_lines(alloc: Global, closed: &[Closed], others: bool) -> Result<Lines, AuditError>
    ensures ok { IfOk result (λ lines. AreTold others closed.now lines) }
    ensures paired { OnOk result ((not others && links_unpaired (lines_by_node closed.now)) ≡ false) }
    ensures err { IfErr result (λ e. Unpairs e (not others && links_unpaired (lines_by_node closed.now))) }
{
    let noted = lines_of(alloc, closed)?;
    if others {
        return Ok(mark(alloc, noted)?);
    }
    pair(alloc, noted)
}
