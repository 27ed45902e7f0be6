//! Entries by name, in an ordered map.

ghost use Rattle.std.specs.Prelude.{◌≡◌, cond, IfOk, OnOk, OnErr, IsOk, IsSome, is_some, Some, None, slice_get, length, ◌+◌, if◌then◌else◌};
ghost use Rattle.std.specs.Option.{option_map};
ghost use Rattle.std.specs.BTreeMap.{get, is_at, Updates, IsUnchanged, IsOrdered, btree_map_len};
ghost use Rattle.dist_names.specs.Order.{Name, name_cmp};
ghost use Rattle.dist_peers.specs.Table.{left_by, up_behind, up_ids};

use crate::entry::{EndId, Entry};
use crate::verdict::left_over;
use dist_names::NodeName;
use std::alloc::{AllocError, Global};
use std::collections::BTreeMap;
use std::collections::btree_map::Entry as Place;
use std::ops::Bound;

/// The entry of a name.
pub fn entry_in(entries: &BTreeMap<NodeName, Entry>, name: &NodeName) -> Option<Entry>
    ensures { result ≡ get name_cmp entries.now name.now }
{
    entries.get(name).copied()
}

/// The row at this place, in the order of the names.
pub fn row_at(entries: &BTreeMap<NodeName, Entry>, i: usize) -> Option<(&NodeName, Entry)>
    ensures { option_map (λ r. (r.0.now, r.1)) result ≡ slice_get entries.now.entries i }
{
    match entries.iter().nth(i) {
        Some((name, entry)) => Some((name, *entry)),
        None => None,
    }
}

/// How many ends are up.
pub fn up_count(entries: &BTreeMap<NodeName, Entry>) -> usize
    ensures { result ≡ length (up_ids entries.now.entries) }
{
    entries.iter().filter_map(|(_, entry)| entry.up()).count()
}

/// The end at this place among those that are up, in the order of the names.
pub fn up_in(entries: &BTreeMap<NodeName, Entry>, i: usize) -> Option<EndId>
    ensures { result ≡ slice_get (up_ids entries.now.entries) i }
{
    entries.iter().filter_map(|(_, entry)| entry.up()).nth(i)
}

/// The first end that is up after this name, in the order of the names.
pub fn up_behind(entries: &BTreeMap<NodeName, Entry>, name: &NodeName) -> Option<EndId>
    ensures { result ≡ up_behind (Some name.now) entries.now.entries }
{
    let behind = entries.range((Bound::Excluded(name), Bound::Unbounded));
    behind.filter_map(|(_, entry)| entry.up()).nth(0)
}

/// Gives a name an entry, and returns the one that it had.
pub fn put_row(
    entries: &mut BTreeMap<NodeName, Entry>,
    alloc: Global,
    name: &NodeName,
    entry: Entry,
) -> Result<Option<Entry>, AllocError>
    ensures was { IfOk result (λ was. was ≡ get name_cmp entries.old name.now) }
    ensures ok { OnOk result (Updates name_cmp entries.old entries.new name.now (Some entry)) }
    ensures len { OnOk result (btree_map_len entries.new ≡ btree_map_len entries.old + (if is_some (get name_cmp entries.old name.now) then 0 else 1)) }
    ensures err { OnErr result (IsUnchanged entries.old entries.new) }
    ensures ordered { OnOk result (IsOrdered name_cmp entries.new) }
{
    let name = name.try_clone(alloc)?;
    match entries.insert(name, entry) {
        Ok(was) => Ok(was),
        Err(_) => Err(AllocError),
    }
}

/// Gives another entry to a name that has one, and returns the old one. It takes no memory.
pub fn change_row(
    entries: &mut BTreeMap<NodeName, Entry>,
    name: &NodeName,
    entry: Entry,
) -> Option<Entry>
    requires there { IsSome (get name_cmp entries.old name.now) }
    ensures was { result ≡ get name_cmp entries.old name.now }
    ensures changed { Updates name_cmp entries.old entries.new name.now (Some entry) }
    ensures len { btree_map_len entries.new ≡ btree_map_len entries.old }
    ensures ordered { IsOrdered name_cmp entries.new }
{
    let place = entries.get_mut(name)?;
    let was = *place;
    *place = entry;
    Some(was)
}

/// Removes the row of a name, where there is one. It takes no memory.
pub fn drop_row(entries: &mut BTreeMap<NodeName, Entry>, name: &NodeName)
    ensures changed { Updates name_cmp entries.old entries.new name.now None }
    ensures len { btree_map_len entries.new + (if is_some (get name_cmp entries.old name.now) then 1 else 0) ≡ btree_map_len entries.old }
    ensures ordered { IsOrdered name_cmp entries.new }
{
    let _ = entries.remove(name);
}

/// Changes the entry of a name that has one to what is left of it once this end is lost. The map is searched once, by a name that
/// the caller gives away. It takes no memory.
pub fn leave_row(entries: &mut BTreeMap<NodeName, Entry>, name: NodeName, id: EndId)
    requires there { IsSome (get name_cmp entries.old name) }
    ensures changed { (q : Name) → get name_cmp entries.new q
        ≡ cond (is_at (name_cmp name) q) (left_by id (get name_cmp entries.old name)) (get name_cmp entries.old q) }
    ensures ordered { IsOrdered name_cmp entries.new }
{
    let place = match entries.entry(name) {
        Ok(place) => place,
        Err(_absent) => return,
    };
    match place {
        Place::Occupied(mut row) => match left_over(Some(*row.get()), id) {
            Some(entry) => {
                let _ = row.insert(entry);
            }
            None => {
                let _ = row.remove();
            }
        },
        Place::Vacant(_place) => {}
    }
}
