//! The command `enact`: reads a script from the input, and prints the result.

ghost use Rattle.std.specs.{Prelude.◌≡◌, Prelude.◌≤◌, Prelude.false, Prelude.OnOk, Prelude.IfErr, Io.KnownBytes.Appends, Io.KnownBytes.Keeps};
ghost use Rattle.dist_script.specs.{Fault.status_of, Fault.fault_line, Texts.PutsFront, declared.fault.ScriptFault.ScriptFault as Fault};
ghost use Rattle.dist_world_model.specs.World.{empty};
ghost use Rattle.dist_world.specs.Setups.{names_repeat};
ghost use Rattle.dist_script_play.specs.Played.{at_first, line_text, after_line, lines_text, IsPrintedFrom};
ghost use Rattle.dist_script_play.specs.Scenes.{PutsOne, Plays, IsBad, IsCut, Stops, StopsWorld};
ghost use Rattle.dist_script_play.specs.{Lines.table_text, Pages.Puts, Pages.PutsPart, Pages.BreaksOff};

use crate::page::{Printout, on_page};
use crate::scene::NodeScene;
use crate::stage;
use dist_core::Setup;
use dist_script::{Script, ScriptFault, ScriptLine, read_text, script_of};
use dist_world::Happening;
use std::alloc::Global;
use std::io::{Read, Write};

// Plays a line.
#[tactic(auto, using(crate::proofs::Pages::text_put))]
fn play_line<W: Write>(
    alloc: Global,
    scene: &mut NodeScene,
    line: &ScriptLine,
    page: &mut Printout,
    out: &mut W,
) -> Result<(), ScriptFault>
    ensures text { OnOk result (Puts (line_text scene.old line.now)
        (W.contents out.old) (W.contents out.new) page.old.text.items page.new.text.items) }
    ensures after { OnOk result (scene.new ≡ after_line scene.old line.now) }
    ensures cut { IfErr result (λ fault. PutsPart (line_text scene.old line.now)
        (W.contents out.old) (W.contents out.new) page.old.text.items page.new.text.items fault) }
{
    page.line.clear();
    on_page(scene.play(alloc, line, &mut page.line))?;
    page.put_line(out)?;
    Ok(())
}

// Prints the table of the node.
#[tactic(auto, using(crate::proofs::Pages::text_put))]
fn print_table<W: Write>(
    scene: &NodeScene,
    page: &mut Printout,
    out: &mut W,
) -> Result<(), ScriptFault>
    ensures text { OnOk result (Puts (table_text scene.now.node) (W.contents out.old) (W.contents out.new) page.old.text.items page.new.text.items) }
    ensures cut { IfErr result (λ fault. PutsPart (table_text scene.now.node)
        (W.contents out.old) (W.contents out.new) page.old.text.items page.new.text.items fault) }
{
    page.line.clear();
    on_page(scene.print_table(&mut page.line))?;
    page.put_line(out)?;
    Ok(())
}

// Plays all lines of one node, and prints its table.
#[tactic(auto, using(crate::proofs::Lines::lines_in_turn))]
fn play_lines<W: Write>(
    alloc: Global,
    scene: &mut NodeScene,
    lines: &[ScriptLine],
    page: &mut Printout,
    out: &mut W,
) -> Result<(), ScriptFault>
    ensures text { OnOk result (Puts (lines_text scene.old lines.now)
        (W.contents out.old) (W.contents out.new) page.old.text.items page.new.text.items) }
    ensures cut { IfErr result (λ fault. PutsPart (lines_text scene.old lines.now)
        (W.contents out.old) (W.contents out.new) page.old.text.items page.new.text.items fault) }
{
    for line in lines {
        play_line(alloc, scene, line, page, out)?;
    }
    print_table(scene, page, out)?;
    Ok(())
}

// Plays a script of one node. If a fault stops it, what was printed before is written out.
#[tactic(auto, using(dist_script::proofs::Fronts::there, crate::proofs::Pages::whole, crate::proofs::Pages::breaks_off))]
fn play_node<W: Write>(
    alloc: Global,
    node: Setup,
    lines: &[ScriptLine],
    out: &mut W,
) -> Result<(), ScriptFault>
    ensures text { OnOk result (Appends (W.contents out.old) (W.contents out.new) (lines_text (at_first node) lines.now)) }
    ensures cut { IfErr result (BreaksOff (lines_text (at_first node) lines.now) (W.contents out.old) (W.contents out.new)) }
{
    let mut page = Printout::new(alloc);
    let played = play_lines(
        alloc,
        &mut NodeScene::new(alloc, node),
        lines,
        &mut page,
        out,
    );
    page.finish(played, out)?;
    Ok(())
}

// Plays a script of several nodes. If a fault stops it, what was printed before is written out.
#[tactic(auto, using(crate::proofs::Faults::same_name, crate::proofs::Faults::of_world))]
fn play_nodes<W: Write>(
    alloc: Global,
    nodes: Vec<Setup>,
    happenings: &[Happening],
    out: &mut W,
) -> Result<(), ScriptFault>
    ensures text { OnOk result (PutsOne (IsPrintedFrom (empty nodes.items) happenings.now) (W.contents out.old) (W.contents out.new)) }
    ensures names { OnOk result (names_repeat nodes.items ≡ false) }
    ensures fault { IfErr result (StopsWorld nodes.items happenings.now (W.contents out.old) (W.contents out.new)) }
{
    let mut world = stage::world_of(alloc, nodes)?;
    let mut page = Printout::new(alloc);
    let played = stage::play(alloc, &mut world, happenings, &mut page, out);
    page.finish(played, out)?;
    Ok(())
}

// Reads a script and plays it.
#[tactic(auto, using(crate::proofs::Faults::unread, crate::proofs::Faults::bad_script, crate::proofs::Faults::stopped_world))]
fn perform<R: Read, W: Write>(alloc: Global, input: &mut R, out: &mut W) -> Result<(), ScriptFault>
    ensures played { OnOk result (Plays (R.remaining input.old) (R.remaining input.new) (W.contents out.old) (W.contents out.new)) }
    ensures fault { IfErr result (Stops (R.remaining input.old) (R.remaining input.new) (W.contents out.old) (W.contents out.new)) }
{
    let text = read_text(alloc, input)?;
    match script_of(alloc, &text)? {
        Script::Events { node, lines } => {
            play_node(alloc, node, &lines, out)?;
            Ok(())
        }
        Script::Happenings { nodes, lines } => {
            play_nodes(alloc, nodes, &lines, out)?;
            Ok(())
        }
    }
}

/// Reads a script, checks all of it, and plays it. With one node it prints what the node answers to each line, and the table at the
/// end; with several it prints which ends the happenings close, and the state of the world at the end. Returns the exit status: 0, 2
/// for a text that is not a script, 1 for another fault. A fault is reported on `err`.
///
/// The first fault is reported: a read that failed, a script above 1,048,576 bytes, its first bad line, no node, two nodes with one
/// name. Until then nothing is written. If a write fails, or memory runs out, the run stops, and a prefix of the whole output was
/// written. Output is written once there are 8,192 bytes of it.
#[tactic(auto, using(crate::proofs::Lines::never_zero, crate::proofs::Pages::kept, crate::proofs::Faults::is_bad, crate::proofs::Faults::is_cut))]
pub fn enact<R: Read, W: Write, E: Write>(
    alloc: Global,
    input: &mut R,
    out: &mut W,
    err: &mut E,
) -> u8
    ensures status { result ≤ 2 }

    // With status 0 the input was read to its end and is a script without a fault, and just what that script prints was printed.
    ensures played { result ≡ 0 → Plays (R.remaining input.old) (R.remaining input.new) (W.contents out.old) (W.contents out.new) }
    ensures silent { result ≡ 0 → Keeps (E.contents err.old) (E.contents err.new) }

    // With status 2 what was read has a fault, whose line is reported, and nothing was printed. If `err` fails, a prefix of the line
    // was written.
    ensures bad { result ≡ 2 → (fault : Fault) × IsBad (R.remaining input.old) (R.remaining input.new) (W.contents out.old) (W.contents out.new) fault
        × PutsFront (fault_line fault) (E.contents err.old) (E.contents err.new) }

    // With status 1 a read or a write failed, or memory ran out, which is reported. Either nothing was printed; or what was read is a
    // script without a fault, and a prefix of what it prints was.
    ensures cut { result ≡ 1 → (fault : Fault) × IsCut (R.remaining input.old) (R.remaining input.new) (W.contents out.old) (W.contents out.new) fault
        × (status_of fault ≡ 1) × PutsFront (fault_line fault) (E.contents err.old) (E.contents err.new) }
{
    match perform(alloc, input, out) {
        Ok(()) => 0,
        Err(fault) => fault.report_to(err),
    }
}
