//! The walk along the lines, in a world.
ghost use Rattle.std.specs.Prelude.{◌≡◌, ◌↔◌, ◌∷◌, [], length, IsTrue, IfOk, IfErr, OnOk, OnErr, option_to_list};
ghost use Rattle.dist_world_model.specs.Run.{run};
ghost use Rattle.dist_world.specs.Asking.{node_of};
ghost use Rattle.dist_audit.specs.Audit.{AllApply, Says, IsNext, Replies, IsFollowed, AreFollowed, after, Refutes, RefusesLine, StopsAt};
ghost use Rattle.dist_audit.specs.Audit.{UnlessOutside, UnlessShort};
ghost use Rattle.dist_audit.specs.{Happenings.with_mentions, Happenings.itself, Happenings.of_lines, Lines.line_of_node};

use crate::audit_error::AuditError;
use crate::happenings::{before, own};
use crate::lines::NodeLine;
use crate::links::inner_link;
use crate::mentions::Mentioned;
use crate::pairing::Lines;
use dist_core::{Event, StepError};
use dist_frames::{FrameError, write_short};
use dist_locked_book::Line;
use dist_peers::EndId;
use dist_world::{Happening, World};
use std::alloc::{AllocError, Global};
use std::slice;

/// Lets these happenings happen, and returns whether all applied.
pub fn happen(
    world: &mut World,
    alloc: Global,
    happenings: &[Happening],
) -> Result<bool, AllocError>
    ensures after { OnOk result (world.new ≡ run happenings.now world.old) }
    ensures all { IfOk result (λ b. IsTrue b ↔ AllApply happenings.now world.old) }
{
    match world.run(alloc, happenings) {
        Ok(count) => Ok(count == happenings.len()),
        Err(_) => Err(AllocError),
    }
}

// The same of one.
fn happen_once(world: &mut World, alloc: Global, happening: Happening) -> Result<bool, AllocError>
    ensures after { OnOk result (world.new ≡ run (happening ∷ []) world.old) }
    ensures all { IfOk result (λ b. IsTrue b ↔ AllApply (happening ∷ []) world.old) }
{
    happen(world, alloc, slice::from_ref(&happening))
}

// The same of one, where there is one.
fn happen_before(
    world: &mut World,
    alloc: Global,
    happening: Option<Happening>,
) -> Result<bool, AllocError>
    ensures after { OnOk result (world.new ≡ run (option_to_list happening) world.old) }
    ensures all { IfOk result (λ b. IsTrue b ↔ AllApply (option_to_list happening) world.old) }
{
    match happening {
        None => Ok(true),
        Some(one) => happen_once(world, alloc, one),
    }
}

// The frame of this body is the next that was sent to an end.
fn is_said_next(
    alloc: Global,
    world: &World,
    node: usize,
    id: EndId,
    body: &[u8],
) -> Result<bool, AllocError>
    ensures { IfOk result (λ b. IsTrue b ↔ Says world.now node id body.now) }
{
    match write_short(alloc, body) {
        Ok(frame) => Ok(world.said_next(node, id, &frame)),
        Err(FrameError::TooLong) => Ok(false),
        Err(FrameError::NoMemory) => Err(AllocError),
    }
}

// The body of a frame is the next that the other end had sent by then.
fn is_next(alloc: Global, world: &World, node: usize, event: &Event) -> Result<bool, AllocError>
    ensures { IfOk result (λ b. IsTrue b ↔ IsNext world.now node event.now) }
{
    match event {
        Event::Frame { end_, body } => is_said_next(alloc, world, node, *end_, body.as_slice()),
        _ => Ok(true),
    }
}

// A line that is read, the place of its node among all, and whether somebody outside did what it says.
#[derive(Clone, Copy)]
struct ReadLine<'a> {
    node: usize,
    line: &'a Line,
    outside: bool,
}

// The body of a frame is the next one, unless somebody outside sent it.
fn may_be_next(alloc: Global, world: &World, read: ReadLine) -> Result<bool, AllocError>
    ensures { IfOk result (λ b. IsTrue b ↔ UnlessOutside read.entry.outside (IsNext world.now read.entry.node read.entry.line.now.event)) }
{
    if read.outside {
        return Ok(true);
    }
    is_next(alloc, world, read.node, &read.line.event)
}

// The running node gives the line's very reply.
fn replies(alloc: Global, world: &World, node: usize, line: &Line) -> Result<bool, AllocError>
    ensures { IfOk result (λ b. IsTrue b ↔ Replies (node_of world.now node) line.now) }
{
    let Some(node) = world.node(node) else {
        return Ok(false);
    };
    match node.answer(alloc, &line.event, line.fresh) {
        Ok(reply) => Ok(reply.is_same(&line.reply)),
        Err(StepError::NoMemory) => Err(AllocError),
        Err(_) => Ok(false),
    }
}

// The line itself happens, and its link, if any, is mentioned.
fn happen_itself(
    alloc: Global,
    world: &mut World,
    links: &mut Mentioned,
    read: ReadLine,
) -> Result<bool, AllocError>
    ensures after { OnOk result (world.new ≡ run (itself links.old (line_of_node read.entry.node read.entry.line.now read.entry.outside) ∷ []) world.old) }
    ensures links { OnOk result (links.new ≡ with_mentions links.old (line_of_node read.entry.node read.entry.line.now read.entry.outside)) }
    ensures all { IfOk result (λ b. IsTrue b
        ↔ AllApply (itself links.old (line_of_node read.entry.node read.entry.line.now read.entry.outside) ∷ []) world.old) }
{
    let ReadLine {
        node,
        line,
        outside,
    } = read;
    links.mention(inner_link(outside, &line.event))?;
    let happening = own(alloc, links, outside, node, &line.event, line.fresh)?;
    happen_once(world, alloc, happening)
}

// A line that is read is followed.
fn follow_line(
    alloc: Global,
    world: &mut World,
    lines: &Lines,
    count: usize,
    links: &mut Mentioned,
    read: ReadLine,
) -> Result<(), AuditError>
    ensures followed { OnOk result
        (IsFollowed lines.now count links.old world.old (line_of_node read.entry.node read.entry.line.now read.entry.outside)) }
    ensures after { OnOk result (world.new ≡ after lines.now count links.old world.old (line_of_node read.entry.node read.entry.line.now read.entry.outside)) }
    ensures links { OnOk result (links.new ≡ with_mentions links.old (line_of_node read.entry.node read.entry.line.now read.entry.outside)) }
    ensures err { IfErr result
        (λ e. Refutes e (IsFollowed lines.now count links.old world.old (line_of_node read.entry.node read.entry.line.now read.entry.outside))) }
    ensures which { IfErr result
        (λ e. UnlessShort e (RefusesLine e lines.now count links.old world.old (line_of_node read.entry.node read.entry.line.now read.entry.outside))) }
{
    if !may_be_next(alloc, world, read)? {
        return Err(AuditError::NotSent);
    }
    let ahead = before(
        lines,
        count,
        links,
        read.outside,
        read.node,
        &read.line.event,
    );
    if !happen_before(world, alloc, ahead)? {
        return Err(AuditError::OtherReply);
    }
    if !replies(alloc, world, read.node, read.line)? {
        return Err(AuditError::OtherReply);
    }
    if !happen_itself(alloc, world, links, read)? {
        return Err(AuditError::OtherReply);
    }
    Ok(())
}

// One line is followed.
fn follow(
    alloc: Global,
    world: &mut World,
    lines: &Lines,
    count: usize,
    links: &mut Mentioned,
    noted: &NodeLine,
) -> Result<(), AuditError>
    ensures followed { OnOk result (IsFollowed lines.now count links.old world.old noted.now) }
    ensures after { OnOk result (world.new ≡ after lines.now count links.old world.old noted.now) }
    ensures links { OnOk result (links.new ≡ with_mentions links.old noted.now) }
    ensures err { IfErr result (λ e. Refutes e (IsFollowed lines.now count links.old world.old noted.now)) }
    ensures which { IfErr result (λ e. UnlessShort e (RefusesLine e lines.now count links.old world.old noted.now)) }
{
    let view = noted.line().read();
    let read = ReadLine {
        node: noted.node(),
        line: view.line(),
        outside: noted.is_outside(),
    };
    follow_line(alloc, world, lines, count, links, read)
}

/// All lines are followed, in turn.
pub fn follow_all(
    alloc: Global,
    world: &mut World,
    lines: &Lines,
    count: usize,
) -> Result<(), AuditError>
    ensures followed { OnOk result (AreFollowed lines.now count [] world.old lines.now) }
    ensures after { OnOk result (world.new ≡ run (of_lines lines.now count [] lines.now) world.old) }
    ensures err { IfErr result (λ e. Refutes e (AreFollowed lines.now count [] world.old lines.now)) }
    ensures first { IfErr result (λ e. UnlessShort e (StopsAt e lines.now count [] world.old lines.now)) }
{
    let mut links = Mentioned::new(alloc);
    let noted = lines.ordered_lines();
    for i in 0..noted.len() {
        follow(alloc, world, lines, count, &mut links, &noted[i])?;
    }
    Ok(())
}
