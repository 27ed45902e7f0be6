//! What each two nodes of a world have in common.

ghost use Rattle.std.specs.Prelude.{◌≡◌, ◌||◌, ◌<◌, ℕ, Option, Some, List, suc, length, cond, is_none, option_copied, IfOk, OnOk};
ghost use Rattle.std.specs.{Io.KnownBytes.Appends, Ordering.nat_cmp, BTreeMap.get, BTreeSet.contains};
ghost use Rattle.std.specs.FinMap as map;
ghost use Rattle.dist_names.specs.Order.{Name, name_cmp, same_name};
ghost use Rattle.dist_core_ends.specs.Ends.{table_of};
ghost use Rattle.dist_world.specs.declared.agreement.Agreement.{Agreement as Found};
ghost use Rattle.dist_script_play.specs.Worlds.{IsReported, reported_line, pair_line, PutsAgreements};
ghost use Rattle.dist_script_play.specs.Later.{ArePlaces, later_at, is_this, AreLater, HasAllFrom, IsRowFrom};

use crate::print;
use dist_core::{Node, Setup};
use dist_names::{NodeName, order_of_names};
use dist_script::ScriptFault;
use dist_world::{Agreement, World};
use std::alloc::{AllocError, Global};
use std::collections::{BTreeMap, BTreeSet};
use std::io::Write;

// Puts the place of a name, and returns whether it had none.
fn put_place(
    places: &mut BTreeMap<NodeName, usize>,
    alloc: Global,
    name: &NodeName,
    place: usize,
) -> Result<bool, AllocError>
    ensures new { IfOk result (λ new. new ≡ is_none (get name_cmp places.old name.now)) }
    ensures put { OnOk result ((n : Name) → get name_cmp places.new n ≡ cond (same_name name.now n) (Some place) (get name_cmp places.old n)) }
{
    match places.insert(name.try_clone(alloc)?, place) {
        Ok(old) => Ok(old.is_none()),
        Err(_) => Err(AllocError),
    }
}

// The place of each node by its name. No world has two nodes of one name: that would be reported.
pub(crate) fn places(
    alloc: Global,
    setups: &[Setup],
) -> Result<BTreeMap<NodeName, usize>, ScriptFault>
    ensures { IfOk result (λ places. ArePlaces places setups.now (length setups.now)) }
{
    order_of_names();
    let mut places = BTreeMap::new(alloc);
    for place in 0..setups.len() {
        if !put_place(&mut places, alloc, &setups[place].name, place)? {
            return Err(ScriptFault::SameName);
        }
    }
    Ok(places)
}

// The place of the peer in this row of the node's table, where it is behind this one.
fn later_in_row(
    node: &Node,
    row: usize,
    place: usize,
    places: &BTreeMap<NodeName, usize>,
) -> Option<usize>
    ensures { result ≡ later_at places.now place node.now row }
{
    let (peer, _) = node.entry_at(row)?;
    let other = *places.get(peer)?;
    if place < other { Some(other) } else { None }
}

fn add(later: &mut BTreeSet<usize>, other: Option<usize>) -> Result<(), AllocError>
    ensures { OnOk result ((q : ℕ) → contains nat_cmp later.new q ≡ (is_this q other || contains nat_cmp later.old q)) }
{
    if let Some(other) = other {
        later.insert(other)?;
    }
    Ok(())
}

// The places behind this one of all who stand in the node's table.
fn later_peers(
    alloc: Global,
    node: &Node,
    place: usize,
    places: &BTreeMap<NodeName, usize>,
) -> Result<BTreeSet<usize>, AllocError>
    ensures { IfOk result (λ later. AreLater later places.now place node.now (map.len (table_of node.now.ends))) }
{
    let mut later = BTreeSet::new(alloc);
    for row in 0..node.entries() {
        add(&mut later, later_in_row(node, row, place, places))?;
    }
    Ok(later)
}

// The nodes behind this one with which it can be up: only who stands in its table can be.
fn later_ones(
    alloc: Global,
    world: &World,
    place: usize,
    places: &BTreeMap<NodeName, usize>,
) -> Result<BTreeSet<usize>, AllocError>
    requires { ArePlaces places.now world.now.setups (length world.now.setups) }
    ensures { IfOk result (λ later. HasAllFrom later world.now place (suc place)) }
{
    match world.node(place) {
        Some(node) => later_peers(alloc, node, place, places),
        None => Ok(BTreeSet::new(alloc)),
    }
}

fn print_found<W: Write>(
    out: &mut W,
    a: Option<&Setup>,
    b: Option<&Setup>,
    found: &Agreement,
) -> Result<(), ScriptFault>
    ensures { OnOk result (Appends (W.contents out.old) (W.contents out.new) (pair_line (Some found.now) (option_copied a.entry) (option_copied b.entry))) }
{
    match (a, b) {
        (Some(a), Some(b)) => print::agreement(out, &a.name, &b.name, found),
        _ => Ok(()),
    }
}

// What two nodes have in common, where they are up with one another.
fn print_agreement<W: Write>(
    world: &World,
    a: usize,
    b: usize,
    out: &mut W,
) -> Result<(), ScriptFault>
    requires { a < b }
    ensures { OnOk result ((noted : Option Found) × IsReported world.now a b noted
        × Appends (W.contents out.old) (W.contents out.new) (reported_line world.now a b noted)) }
{
    let setups = world.setups();
    match world.both_up(a, b) {
        Some(found) => print_found(out, setups.get(a), setups.get(b), &found),
        None => Ok(()),
    }
}

// What a node has in common with each of those.
fn print_later<W: Write>(
    world: &World,
    place: usize,
    later: BTreeSet<usize>,
    out: &mut W,
) -> Result<(), ScriptFault>
    requires place { place < length world.now.setups }
    requires later { HasAllFrom later world.now place (suc place) }
    ensures { OnOk result ((text : List ℕ) × IsRowFrom world.now place (suc place) text × Appends (W.contents out.old) (W.contents out.new) text) }
{
    let mut later = later;
    while let Some(other) = later.pop_first() {
        print_agreement(world, place, other, out)?;
    }
    Ok(())
}

// What a node and each one behind it have in common.
fn print_agreements_from<W: Write>(
    alloc: Global,
    world: &World,
    place: usize,
    places: &BTreeMap<NodeName, usize>,
    out: &mut W,
) -> Result<(), ScriptFault>
    requires place { place < length world.now.setups }
    requires places { ArePlaces places.now world.now.setups (length world.now.setups) }
    ensures { OnOk result ((text : List ℕ) × IsRowFrom world.now place (suc place) text × Appends (W.contents out.old) (W.contents out.new) text) }
{
    let later = later_ones(alloc, world, place, places)?;
    print_later(world, place, later, out)
}

/// What each two nodes have in common that are up with one another, the lesser place first, in order. Only who stands in a
/// node's table can be.
pub fn print_agreements<W: Write>(
    alloc: Global,
    world: &World,
    out: &mut W,
) -> Result<(), ScriptFault>
    ensures { OnOk result (PutsAgreements world.now (W.contents out.old) (W.contents out.new)) }
{
    let setups = world.setups();
    let places = places(alloc, setups)?;
    for place in 0..setups.len() {
        print_agreements_from(alloc, world, place, &places, out)?;
    }
    Ok(())
}
