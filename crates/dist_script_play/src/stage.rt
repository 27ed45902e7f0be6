//! A world of nodes in which the happenings of a script happen.

ghost use Rattle.std.specs.Prelude.{◌≡◌, [], true, false, length, IfOk, IfErr, OnOk};
ghost use Rattle.std.specs.Io.KnownBytes.{Appends};
ghost use Rattle.dist_world_model.specs.{World.empty, Run.run, Run.count_applied};
ghost use Rattle.dist_world.specs.Setups.{names_repeat};
ghost use Rattle.dist_script_play.specs.Scenes.{closed_after, PutsOne, PutsOneOn, PutsOnePart};
ghost use Rattle.dist_script_play.specs.{Played.happenings_text, Played.IsEnd, Played.IsPrintedFrom, Pages.Puts, Pages.PutsPart};

use crate::page::{Printout, on_page};
use crate::{print, print_agreements, print_fooled, print_nodes};
use dist_core::Setup;
use dist_script::ScriptFault;
use dist_world::{Happening, World, WorldError};
use std::alloc::Global;
use std::io::Write;

/// A world of these nodes, none of which runs yet. No two may have one name.
pub fn world_of(alloc: Global, nodes: Vec<Setup>) -> Result<World, ScriptFault>
    ensures ok { IfOk result (λ w. w ≡ empty nodes.items) }
    ensures names { OnOk result (names_repeat nodes.items ≡ false) }
    ensures err { IfErr result (λ fault. (fault ≡ ScriptFault.SameName) × (names_repeat nodes.items ≡ true)) }
{
    match World::new(alloc, nodes) {
        Ok(world) => Ok(world),
        Err(WorldError::SameName) => Err(ScriptFault::SameName),
        Err(WorldError::NoMemory) => Err(ScriptFault::NoMemory),
    }
}

// Puts the line of the end that the last happening closed on the page, if it applied and closed one.
#[tactic(auto, using(crate::proofs::Pages::text_put, crate::proofs::Pages::puts_none))]
fn put_closed<W: Write>(
    world: &World,
    applied: usize,
    page: &mut Printout,
    out: &mut W,
) -> Result<(), ScriptFault>
    ensures text { OnOk result (Puts (closed_after applied world.now.last_closed)
        (W.contents out.old) (W.contents out.new) page.old.text.items page.new.text.items) }
    ensures cut { IfErr result (λ fault. PutsPart (closed_after applied world.now.last_closed)
        (W.contents out.old) (W.contents out.new) page.old.text.items page.new.text.items fault) }
{
    if applied == 0 {
        return Ok(());
    }
    let Some((node, end_, why)) = world.last_closed() else {
        return Ok(());
    };
    page.line.clear();
    on_page(print::closed_end(&mut page.line, node, end_, why))?;
    page.put_line(out)?;
    Ok(())
}

// Lets one happening happen, and puts the line of the end that its step closed on the page. Returns how many applied.
#[tactic(auto, using(crate::proofs::Stages::one_puts, crate::proofs::Stages::one_puts_part, crate::proofs::Pages::line_lost))]
fn happen<W: Write>(
    alloc: Global,
    world: &mut World,
    happening: &[Happening],
    page: &mut Printout,
    out: &mut W,
) -> Result<usize, ScriptFault>
    requires { length happening.now ≡ 1 }
    ensures text { OnOk result (Puts (happenings_text world.old happening.now)
        (W.contents out.old) (W.contents out.new) page.old.text.items page.new.text.items) }
    ensures after { OnOk result (world.new ≡ run happening.now world.old) }
    ensures count { IfOk result (λ n. n ≡ count_applied happening.now world.old) }
    ensures cut { IfErr result (λ fault. PutsPart (happenings_text world.old happening.now)
        (W.contents out.old) (W.contents out.new) page.old.text.items page.new.text.items fault) }
{
    let Ok(applied) = world.run(alloc, happening) else {
        return Err(ScriptFault::NoMemory);
    };
    put_closed(world, applied, page, out)?;
    Ok(applied)
}

// Lets all these happenings happen, one after the other. Returns how many applied.
#[tactic(auto, using(crate::proofs::Stages::happenings_in_turn))]
fn happen_all<W: Write>(
    alloc: Global,
    world: &mut World,
    happenings: &[Happening],
    page: &mut Printout,
    out: &mut W,
) -> Result<usize, ScriptFault>
    ensures text { OnOk result (Puts (happenings_text world.old happenings.now)
        (W.contents out.old) (W.contents out.new) page.old.text.items page.new.text.items) }
    ensures after { OnOk result (world.new ≡ run happenings.now world.old) }
    ensures count { IfOk result (λ n. n ≡ count_applied happenings.now world.old) }
    ensures cut { IfErr result (λ fault. PutsPart (happenings_text world.old happenings.now)
        (W.contents out.old) (W.contents out.new) page.old.text.items page.new.text.items fault) }
{
    let mut applied = 0usize;
    let mut rest = happenings;
    while !rest.is_empty() {
        let (happening, others) = rest.split_at(1);
        let more = happen(alloc, world, happening, page, out)?;
        applied += more;
        rest = others;
    }
    Ok(applied)
}

// Prints how many happenings applied, and the state of the world.
#[tactic(auto, using(crate::proofs::Worlds::ends))]
fn print_end<W: Write>(
    alloc: Global,
    world: &World,
    applied: usize,
    all: usize,
    out: &mut W,
) -> Result<(), ScriptFault>
    ensures { OnOk result (PutsOne (IsEnd world.now applied all) (W.contents out.old) (W.contents out.new)) }
{
    print::write_applied(out, applied, all)?;
    print_nodes(world, out)?;
    print_agreements(alloc, world, out)?;
    print_fooled(alloc, world, out)?;
    Ok(())
}

// Puts the same on the page.
#[tactic(auto, using(crate::proofs::Worlds::end_put, crate::proofs::Worlds::end_cut, crate::proofs::Worlds::end_lost))]
fn put_end<W: Write>(
    alloc: Global,
    world: &World,
    applied: usize,
    all: usize,
    page: &mut Printout,
    out: &mut W,
) -> Result<(), ScriptFault>
    ensures text { OnOk result (PutsOneOn (IsEnd world.now applied all)
        (W.contents out.old) (W.contents out.new) page.old.text.items page.new.text.items) }
    ensures cut { IfErr result (PutsOnePart [] (IsEnd world.now applied all)
        (W.contents out.old) (W.contents out.new) page.old.text.items page.new.text.items) }
{
    page.line.clear();
    on_page(print_end(alloc, world, applied, all, &mut page.line))?;
    page.put_line(out)?;
    Ok(())
}

/// Lets the happenings of a script happen in a world, and prints which end each of them closes; at the end how many applied, the state
/// of each node, and what each pair that is up has in common.
///
/// Each happening is a separate run of the world, so that it has no effect if memory runs out.
#[tactic(auto, using(crate::proofs::Worlds::plays, crate::proofs::Worlds::cut_early, crate::proofs::Worlds::cut_at_end))]
pub fn play<W: Write>(
    alloc: Global,
    world: &mut World,
    happenings: &[Happening],
    page: &mut Printout,
    out: &mut W,
) -> Result<(), ScriptFault>
    ensures text { OnOk result (PutsOneOn (IsPrintedFrom world.old happenings.now)
        (W.contents out.old) (W.contents out.new) page.old.text.items page.new.text.items) }
    ensures cut { IfErr result (PutsOnePart (happenings_text world.old happenings.now) (IsPrintedFrom world.old happenings.now)
        (W.contents out.old) (W.contents out.new) page.old.text.items page.new.text.items) }
{
    let applied = happen_all(alloc, world, happenings, page, out)?;
    put_end(alloc, world, applied, happenings.len(), page, out)?;
    Ok(())
}
