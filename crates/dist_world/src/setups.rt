//! The setups of a world.
ghost use Rattle.std.specs.Prelude.{◌≡◌, ◌||◌, ℕ, Some, slice_get, is_some, not, true, IfOk, OnOk};
ghost use Rattle.std.specs.BTreeMap.{get};
ghost use Rattle.dist_core_setup.specs.declared.setup.Setup.{Setup};
ghost use Rattle.dist_world_model.specs.Agreement.{AreSetups, IsSetup};
ghost use Rattle.dist_names.specs.Order.{Name, name_cmp, same_name};
ghost use Rattle.dist_world.specs.Setups.{is_named, names_repeat};

use dist_core::Setup;
use dist_names::{NodeName, order_of_names};
use std::alloc::{AllocError, Global};
use std::collections::BTreeMap;

fn is_of(setup: &Setup, name: &NodeName) -> bool
    ensures { result ≡ same_name setup.now.name name.now }
{
    setup.name.is_same(name)
}

// One of the setups has this name.
fn is_named(setups: &[Setup], name: &NodeName) -> bool
    ensures { result ≡ is_named setups.now name.now }
{
    setups.iter().any(|setup| is_of(setup, name))
}

// What the types of its parts say of a setup.
fn recall_ranges(setup: &Setup)
    ensures { IsSetup setup.now }
{
    let _name = setup.name.bytes();
    let _flags = setup.flags.0;
}

// The same of each setup: it only looks at them.
fn all_known(setups: &[Setup])
    ensures { (i : ℕ) (s : Setup) → slice_get setups.now i ≡ Some s → IsSetup s }
{
    for i in 0..setups.len() {
        recall_ranges(&setups[i]);
    }
}

// Puts a name into a set, and returns whether it was there.
fn put_name(
    names: &mut BTreeMap<NodeName, ()>,
    alloc: Global,
    name: &NodeName,
) -> Result<bool, AllocError>
    ensures was { IfOk result (λ was. was ≡ is_some (get name_cmp names.old name.now)) }
    ensures put { OnOk result ((n : Name) → is_some (get name_cmp names.new n) ≡ (same_name name.now n || is_some (get name_cmp names.old n))) }
{
    match names.insert(name.try_clone(alloc)?, ()) {
        Ok(old) => Ok(old.is_some()),
        Err(_) => Err(AllocError),
    }
}

// Two of the setups have one name, by a set of the names of those behind each.
fn names_repeat_in_set(alloc: Global, setups: &[Setup]) -> Result<bool, AllocError>
    ensures { IfOk result (λ repeat. repeat ≡ names_repeat setups.now) }
{
    let mut behind = BTreeMap::new(alloc);
    let mut i = setups.len();
    while i > 0 {
        i -= 1;
        if put_name(&mut behind, alloc, &setups[i].name)? {
            return Ok(true);
        }
    }
    Ok(false)
}

// Two of the setups have one name, each compared with those behind it. It takes no memory.
fn names_repeat_in_pairs(setups: &[Setup]) -> bool
    ensures { result ≡ names_repeat setups.now }
{
    for i in 0..setups.len() {
        if is_named(&setups[i + 1..], &setups[i].name) {
            return true;
        }
    }
    false
}

// Two of the setups have one name. Where no memory is left it takes longer.
fn names_repeat(alloc: Global, setups: &[Setup]) -> bool
    ensures { result ≡ names_repeat setups.now }
{
    match names_repeat_in_set(alloc, setups) {
        Ok(repeat) => repeat,
        Err(_) => names_repeat_in_pairs(setups),
    }
}

/// Setups of nodes, no two of one name. It does not fail where memory runs out, and takes longer then.
pub fn are_good(alloc: Global, setups: &[Setup]) -> bool
    ensures repeat { result ≡ not (names_repeat setups.now) }
    ensures good { result ≡ true → AreSetups setups.now }
{
    all_known(setups);
    order_of_names();
    !names_repeat(alloc, setups)
}
