//! The audit.
ghost use Rattle.std.specs.Prelude.{◌≡◌, ◌↔◌, List, None, Some, IsTrue, true, false, IfOk, IfErr, OnOk};
ghost use Rattle.dist_world_model.specs.{World.empty, Run.run};
ghost use Rattle.dist_audit.specs.Faults.{falls, twice, fault_of, nodes_unpaired, Unpairs, IsFault};
ghost use Rattle.dist_audit.specs.Audit.{IsWorldOf, IsWorldAmong};
ghost use Rattle.dist_audit.specs.Audit.{AllApply, AreOfOneWorld, AreRefused, AreTold, Refutes, Reports, ReportsFirst, UnlessShort, world_of};
ghost use Rattle.dist_audit.specs.{Lines.NodeLine, Outside.strangers, Happenings.setups_of, Happenings.begins};

use crate::audit_error::AuditError;
use crate::checks::{falls, twice};
use crate::happenings::{begins, setups_of};
use crate::pairing::{Lines, told_lines};
use crate::tables::has_tables;
use crate::walk::{follow_all, happen};
use dist_frames::frame_in_front;
use dist_locked_book::Closed;
use dist_world::{World, WorldError};
use dist_world_model::setups_are_own;
use std::alloc::{AllocError, Global};

/// The most closed nodes.
const MOST_NODES: usize = 1048576;

// The world of these nodes, none of which runs yet.
fn opening_world(alloc: Global, closed: &[Closed]) -> Result<World, AuditError>
    ensures ok { IfOk result (λ w. w ≡ empty (setups_of closed.now)) }
    ensures paired { OnOk result (nodes_unpaired closed.now ≡ false) }
    ensures err { IfErr result (λ e. Unpairs e (nodes_unpaired closed.now)) }
{
    if closed.len() > MOST_NODES {
        return Err(AuditError::Unpaired);
    }
    let setups = setups_of(alloc, closed)?;
    match World::new(alloc, setups) {
        Ok(world) => Ok(world),
        Err(WorldError::SameName) => Err(AuditError::Unpaired),
        Err(WorldError::NoMemory) => Err(AuditError::NoMemory),
    }
}

// No ticket falls in a history, and none stands in two.
fn check_tickets(alloc: Global, closed: &[Closed]) -> Result<(), AuditError>
    ensures rise { OnOk result (falls closed.now ≡ false) }
    ensures once { OnOk result (twice closed.now ≡ false) }
    ensures err { IfErr result (λ e. IsFault e closed.now) }
{
    if falls(closed) {
        return Err(AuditError::TicketFalls);
    }
    if twice(alloc, closed)? {
        return Err(AuditError::TicketTwice);
    }
    Ok(())
}

// All nodes begin.
fn begin(alloc: Global, world: &mut World) -> Result<bool, AllocError>
    ensures after { OnOk result (world.new ≡ run (begins 0 world.old.setups) world.old) }
    ensures all { IfOk result (λ b. IsTrue b ↔ AllApply (begins 0 world.old.setups) world.old) }
{
    let list = begins(alloc, world.setups())?;
    happen(world, alloc, &list)
}

// All nodes begin, all lines are followed, and the tables are compared.
fn play(
    alloc: Global,
    world: &mut World,
    lines: &Lines,
    closed: &[Closed],
) -> Result<(), AuditError>
    requires opening { world.old ≡ empty (setups_of closed.now) }
    requires nodes { nodes_unpaired closed.now ≡ false }
    ensures world { OnOk result (world.new ≡ world_of closed.now lines.now) }
    ensures one_world { OnOk result (AreOfOneWorld closed.now lines.now) }
    ensures err { IfErr result (λ e. Refutes e (AreOfOneWorld closed.now lines.now)) }
    ensures first { IfErr result (λ e. UnlessShort e (AreRefused e closed.now lines.now)) }
{
    if !begin(alloc, world)? {
        return Err(AuditError::OtherReply);
    }
    follow_all(alloc, world, lines, closed.len())?;
    if !has_tables(world, closed) {
        return Err(AuditError::OtherReply);
    }
    Ok(())
}

// The lines are put in the order of their tickets, where their links are in pairs, and are played. Returns how many connections were with
// somebody outside.
fn play_in_order(
    alloc: Global,
    world: &mut World,
    closed: &[Closed],
    others: bool,
) -> Result<usize, AuditError>
    requires opening { world.old ≡ empty (setups_of closed.now) }
    requires tickets { (falls closed.now ≡ false) × (twice closed.now ≡ false) }
    requires nodes { nodes_unpaired closed.now ≡ false }
    ensures played { IfOk result (λ n. (ts : List NodeLine) × AreTold others closed.now ts
        × (world.new ≡ world_of closed.now ts) × AreOfOneWorld closed.now ts × (n ≡ strangers ts)) }
    ensures faultless { OnOk result (fault_of others closed.now ≡ None) }
    ensures err { IfErr result (λ e. Reports e others closed.now) }
    ensures first { IfErr result (λ e. ReportsFirst e others closed.now) }
{
    let lines = told_lines(alloc, closed, others)?;
    play(alloc, world, &lines, closed)?;
    Ok(lines.strangers())
}

/// The world of these histories, where they are those of one: node `i` of the world has the entries and the records of
/// closed node `i`. Our own choice: the standard knows no such check. No others took part: `audit_among_others` is for that.
///
/// At most 1,048,576 nodes. The histories are looked at first, for `TicketFalls`, then `TicketTwice`, then `Unpaired`; then
/// the lines are followed in the order of their tickets, and the first that does not fit is refused; then the tables are
/// compared. `NoMemory` may come at any point but the first, and says nothing of the histories. The cost grows as the lines
/// and the bytes of their frames do, times a logarithm of the number of lines.
#[tactic(auto, using(crate::proofs::Faultless::fault_reports))]
pub fn audit(alloc: Global, closed: &[Closed]) -> Result<World, AuditError>
    ensures world { IfOk result (λ w. IsWorldOf closed.now w) }
    ensures faultless { OnOk result (fault_of false closed.now ≡ None) }

    // A refusal names the first fault, or says that the histories are not those of one world.
    ensures err { IfErr result (λ e. Reports e false closed.now) }

    // NotSent and OtherReply are returned for the first line that is not followed, and OtherReply of tables where all are.
    ensures first { IfErr result (λ e. ReportsFirst e false closed.now) }
{
    frame_in_front();
    setups_are_own();
    check_tickets(alloc, closed)?;
    let mut world = opening_world(alloc, closed)?;
    play_in_order(alloc, &mut world, closed, false)?;
    Ok(world)
}

/// The world of histories among which others took part.
#[derive(Drop)]
pub struct Audited {
    /// The world. `World::is_fooled` says whether a node takes one of the others for another node.
    pub world: World,
    /// In how many connections others took part: those that are not dialled once and come once.
    pub strangers: usize,
}

/// The same where others took part, of whom there is no history: Erlang nodes, say, or whoever looks for open ports. What the histories
/// say of a link that is not dialled once and come once, in an `Opened` or in an `Incoming` line, and of the frames of its end, is what
/// somebody outside did (`Happening::Outside`). All else is looked at as `audit` does, so of two nodes of the world holds what holds
/// in every world (`World::run`, clauses `agree` and `strangers`).
///
/// `Unpaired` is returned only for too many nodes, and for two of one name.
#[tactic(auto, using(crate::proofs::Faultless::fault_reports))]
pub fn audit_among_others(alloc: Global, closed: &[Closed]) -> Result<Audited, AuditError>
    ensures world { IfOk result (λ a. IsWorldAmong closed.now a.world a.strangers) }
    ensures faultless { OnOk result (fault_of true closed.now ≡ None) }

    // A refusal names the first fault, or says that the histories are not those of one world.
    ensures err { IfErr result (λ e. Reports e true closed.now) }

    // NotSent and OtherReply are returned for the first line that is not followed, and OtherReply of tables where all are.
    ensures first { IfErr result (λ e. ReportsFirst e true closed.now) }
{
    frame_in_front();
    setups_are_own();
    check_tickets(alloc, closed)?;
    let mut world = opening_world(alloc, closed)?;
    let strangers = play_in_order(alloc, &mut world, closed, true)?;
    Ok(Audited { world, strangers })
}
