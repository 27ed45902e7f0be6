//! How the nodes of a world stand.

ghost use Rattle.std.specs.{Prelude.OnOk, Io.KnownBytes.Appends};
ghost use Rattle.dist_script_play.specs.Worlds.{nodes_text};

use crate::print;
use dist_script::ScriptFault;
use dist_world::World;
use std::io::Write;

/// How each node of a world stands, in the order of their places.
#[tactic(auto, using(crate::proofs::Printing::nothing))]
pub fn print_nodes<W: Write>(world: &World, out: &mut W) -> Result<(), ScriptFault>
    ensures { OnOk result (Appends (W.contents out.old) (W.contents out.new) (nodes_text world.now)) }
{
    let setups = world.setups();
    for place in 0..setups.len() {
        let incarnation = world.node(place);
        print::node(out, &setups[place].name, incarnation)?;
    }
    Ok(())
}
