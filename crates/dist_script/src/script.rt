//! A script: the lines that set nodes up, and the lines of what happens to them.

ghost use Rattle.std.specs.Prelude.{◌≡◌, ◌⊎◌, false, true, is_some, Ok, Err, Some, None, MatchResult};
ghost use Rattle.dist_script.specs.Words.{words_of, lines_of};
ghost use Rattle.dist_script.specs.declared.fault.ScriptFault.TheVariants.{BadLine, NoMemory};
ghost use Rattle.dist_script.specs.Scripts.{nothing, with_node, is_either, with_event, with_happening, with_words, with_line, with_lines, script_in, says};
ghost use Rattle.dist_script.specs.{declared.words.LineFault.TheVariants.Bad, Fields.Makes, Happenings.happening_line};

use crate::events::line_of;
use crate::fault::ScriptFault;
use crate::happenings::happening_of;
use crate::node_line::setup_of;
use crate::words::{LineFault, Words, first_line, is_skipped};
use dist_core::{Event, Setup};
use dist_names::ByteString;
use dist_peers::EndId;
use dist_world_model::Happening;
use std::alloc::Global;
use std::marker::Model;

/// What a line gives the one node of a script.
#[derive(Drop)]
pub enum ScriptLine {
    /// An event as it stands.
    Event(Event),
    /// Bytes that came for an end. They make an event for each frame that they end, each with this fresh number.
    Bytes {
        end_: EndId,
        bytes: ByteString,
        fresh: u32,
    },
}

/// A script that was read and checked whole. The number of its nodes decides what its lines say.
#[derive(Drop)]
pub enum Script {
    /// One node, and what it is given.
    Events {
        node: Setup,
        lines: Vec<ScriptLine>,
    },
    /// Two nodes or more, and what happens in their world.
    Happenings {
        nodes: Vec<Setup>,
        lines: Vec<Happening>,
    },
}

// What was read of a script so far.
#[derive(Drop)]
struct Draft {
    nodes: Vec<Setup>,
    has_lines: bool,
    events: Vec<ScriptLine>,
    happenings: Vec<Happening>,
}

impl Model for Draft {
    ghost use Rattle.dist_script.specs.Scripts.{SoFar};

    ghost Value = { SoFar };

    ghost view = { λ d. record { nodes = d.nodes.items; has_lines = d.has_lines; events = d.events.items; happenings = d.happenings.items } };
}

impl Draft {
    fn new(alloc: Global) -> Draft
        ensures { result ≡ nothing }
    {
        Draft {
            nodes: Vec::new(alloc),
            has_lines: false,
            events: Vec::new(alloc),
            happenings: Vec::new(alloc),
        }
    }

    // Takes a line that is not skipped. The lines of the nodes stand before all others.
    fn take(&mut self, alloc: Global, text: &[u8]) -> Result<(), LineFault>
        ensures { Makes result self.new (with_words self.old (words_of text.now)) }
    {
        let mut words = Words::new(text);
        if words.skip(b"node") {
            return self.set_up(alloc, &mut words);
        }
        self.has_lines = true;
        match self.nodes.len() {
            0 => is_line(alloc, text),
            1 => self.take_event(alloc, &mut words),
            _ => self.happen(alloc, &mut words),
        }
    }

    fn set_up(&mut self, alloc: Global, words: &mut Words<'_>) -> Result<(), LineFault>
        ensures { Makes result self.new (with_node self.old words.old) }
    {
        if self.has_lines {
            return Err(LineFault::Bad);
        }
        self.nodes.push(setup_of(alloc, words)?)?;
        Ok(())
    }

    fn take_event(&mut self, alloc: Global, words: &mut Words<'_>) -> Result<(), LineFault>
        ensures { Makes result self.new (with_event self.old words.old) }
    {
        self.events.push(line_of(alloc, words)?)?;
        Ok(())
    }

    fn happen(&mut self, alloc: Global, words: &mut Words<'_>) -> Result<(), LineFault>
        ensures { Makes result self.new (with_happening self.old words.old) }
    {
        self.happenings.push(happening_of(alloc, words)?)?;
        Ok(())
    }

    // Takes a line of this number, unless it is skipped.
    fn take_line(&mut self, alloc: Global, text: &[u8], number: usize) -> Result<(), ScriptFault>
        ensures { MatchResult result (λ _. with_line self.old text.now ≡ Some self.new)
            (λ fault. (fault ≡ NoMemory) ⊎ ((fault ≡ BadLine number) × (with_line self.old text.now ≡ None))) }
    {
        if is_skipped(text) {
            return Ok(());
        }
        match self.take(alloc, text) {
            Ok(()) => Ok(()),
            Err(LineFault::Bad) => Err(ScriptFault::BadLine(number)),
            Err(LineFault::NoMemory) => Err(ScriptFault::NoMemory),
        }
    }
}

// A line behind no node, which may be of either language. Nothing is kept of it, since such a script has no node.
fn is_line(alloc: Global, text: &[u8]) -> Result<(), LineFault>
    ensures { MatchResult result (λ _. is_either (words_of text.now) ≡ true) (λ fault. fault ≡ Bad → is_either (words_of text.now) ≡ false) }
{
    match line_of(alloc, &mut Words::new(text)) {
        Ok(_) => Ok(()),
        Err(LineFault::Bad) => is_happening(alloc, text),
        Err(LineFault::NoMemory) => Err(LineFault::NoMemory),
    }
}

fn is_happening(alloc: Global, text: &[u8]) -> Result<(), LineFault>
    ensures { MatchResult result (λ _. is_some (happening_line (words_of text.now)) ≡ true) (λ fault. fault ≡ Bad → happening_line (words_of text.now) ≡ None) }
{
    happening_of(alloc, &mut Words::new(text))?;
    Ok(())
}

// What all lines of a text say.
fn draft_of(alloc: Global, text: &[u8]) -> Result<Draft, ScriptFault>
    ensures { MatchResult result (λ draft. with_lines nothing 1 (lines_of text.now) ≡ Ok draft)
        (λ fault. (fault ≡ NoMemory) ⊎ (with_lines nothing 1 (lines_of text.now) ≡ Err fault)) }
{
    let mut draft = Draft::new(alloc);
    let mut number = 0usize;
    let mut rest = Some(text);
    while let Some(text) = rest {
        let (line, behind) = first_line(text);
        number += 1;
        draft.take_line(alloc, line, number)?;
        rest = behind;
    }
    Ok(draft)
}

/// The script that a text is. The first line that is no line of a script is reported before a missing node.
#[tactic(auto, using(crate::proofs::Scripts::several, crate::proofs::Scripts::one_node, crate::proofs::Scripts::no_nodes, crate::proofs::Scripts::not_read))]
pub fn script_of(alloc: Global, text: &[u8]) -> Result<Script, ScriptFault>
    ensures { MatchResult result (λ script. script_in text.now ≡ Ok (says script)) (λ fault. (fault ≡ NoMemory) ⊎ (script_in text.now ≡ Err fault)) }
{
    let Draft {
        mut nodes,
        has_lines: _,
        events,
        happenings,
    } = draft_of(alloc, text)?;
    if nodes.len() > 1 {
        return Ok(Script::Happenings {
            nodes,
            lines: happenings,
        });
    }
    match nodes.pop() {
        Some(node) => Ok(Script::Events {
            node,
            lines: events,
        }),
        None => Err(ScriptFault::NoNode),
    }
}
