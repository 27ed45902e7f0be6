//! What a node is set up with.
ghost use Rattle.std.specs.Prelude.{◌≡◌, ◌↔◌, true, false, length, slice_get, IsTrue, IfOk, OnOk, OnErr};
ghost use Rattle.std.specs.Option.{option_map};
ghost use Rattle.dist_names.specs.Order.{Name, same_name, is_listed};
ghost use Rattle.dist_core_setup.specs.Changing.{with_name, without_name};

use crate::limits::Limits;
use crate::version::Version;
use dist_names::{Creation, Flags, NodeName};
use dist_secret::Cookies;
use std::alloc::{AllocError, Global};
use std::marker::Model;

/// What a node is set up with. No step changes it. Between two steps the node's owner may change the cookies and the names
/// that may connect, and nothing else.
#[derive(Drop)]
pub struct Setup {
    /// The own name.
    pub name: NodeName,
    /// The secrets that it shares with its peers: one for each that has its own, and one for all others.
    pub cookies: Cookies,
    /// The highest version of the handshake that it knows.
    pub version: Version,
    /// What it announces, except `DFLAG_HANDSHAKE_23`, which its version decides, and `DFLAG_NAME_ME`, which it never announces.
    /// In version 5 it announces only the lower half.
    pub flags: Flags,
    /// What it requires of a peer, beside `DFLAG_HANDSHAKE_23` where both know version 6.
    pub required: Flags,
    /// The number of this incarnation.
    pub creation: Creation,
    /// The peers that may connect, where they are limited. Our own choice: the node may dial others.
    pub allow: Option<NameList>,
    /// How long it lasts, and how much it holds. `Limits::usual()` or `Limits::long_running()` suits most nodes.
    pub limits: Limits,
}

impl Setup {
    /// An equal setup.
    pub fn try_clone(&self, alloc: Global) -> Result<Setup, AllocError>
        ensures { IfOk result (λ copy. copy ≡ self.now) }
    {
        Ok(Setup {
            name: self.name.try_clone(alloc)?,
            cookies: self.cookies.try_clone(alloc)?,
            version: self.version,
            flags: self.flags,
            required: self.required,
            creation: self.creation,
            allow: copied_allow(alloc, &self.allow)?,
            limits: self.limits,
        })
    }
}

/// A list of names, in which a name may stand twice.
#[derive(Drop)]
pub struct NameList {
    names: Vec<NodeName>,
}

impl Model for NameList {
    ghost use Rattle.std.specs.Prelude.{List, ℕ};

    ghost Value = { List (List ℕ) };

    ghost view = { λ b. b.names.items };
}

impl NameList {
    /// The list of these names. It takes no memory.
    pub fn from_vec(names: Vec<NodeName>) -> NameList
        ensures { result ≡ names.items }
    {
        NameList { names }
    }

    /// Returns its names. It takes no memory.
    pub fn into_vec(self) -> Vec<NodeName>
        ensures { result.items ≡ self }
    {
        let NameList { names } = self;
        names
    }

    /// How many names it has.
    pub fn len(&self) -> usize
        ensures { result ≡ length self.now }
    {
        self.names.len()
    }

    /// The name at this place.
    pub fn at(&self, i: usize) -> Option<&NodeName>
        ensures { option_map (λ r. r.now) result ≡ slice_get self.now i }
    {
        self.names.get(i)
    }

    /// Its names.
    pub fn names(&self) -> &[NodeName]
        ensures { result.now ≡ self.now }
    {
        &self.names
    }

    /// Whether a name with these bytes is among them.
    pub fn lists(&self, name: &[u8]) -> bool
        ensures { result ≡ is_listed self.now name.now }
    {
        self.names.iter().any(|one| is_one(name, one))
    }

    /// Adds a name, unless it is among them. Where memory runs out the list stays as it was.
    pub fn add(&mut self, name: NodeName) -> Result<(), AllocError>
        ensures ok { OnOk result (self.new ≡ with_name self.old name) }
        ensures err { OnErr result (self.new ≡ self.old) }

        // The name is listed from then on.
        ensures listed { OnOk result (is_listed self.new name ≡ true) }
    {
        if self.lists(name.bytes()) {
            return Ok(());
        }
        self.names.push(name)?;
        Ok(())
    }

    /// Removes a name wherever it stands in the list. It takes no memory.
    pub fn remove(&mut self, name: &NodeName)
        ensures exact { self.new ≡ without_name self.old name.now }

        // The name is listed no longer, and every other one as before.
        ensures gone { is_listed self.new name.now ≡ false }
        ensures others { (other : Name) → same_name other name.now ≡ false → is_listed self.new other ≡ is_listed self.old other }
    {
        self.names.retain(|one| !is_one(name.bytes(), one));
    }

    /// An equal list.
    pub fn try_clone(&self, alloc: Global) -> Result<NameList, AllocError>
        ensures { IfOk result (λ copy. copy ≡ self.now) }
    {
        Ok(NameList::from_vec(copied_names(alloc, self.names())?))
    }

    /// Whether the two lists are equal: the same names, in the same order.
    pub fn is_same(&self, other: &NameList) -> bool
        ensures { IsTrue result ↔ (self.now ≡ other.now) }
    {
        are_same(&self.names, &other.names)
    }
}

fn copied_names(alloc: Global, names: &[NodeName]) -> Result<Vec<NodeName>, AllocError>
    ensures { IfOk result (λ copy. copy.items ≡ names.now) }
{
    let mut copy = Vec::new(alloc);
    for i in 0..names.len() {
        copy.push(names[i].try_clone(alloc)?)?;
    }
    Ok(copy)
}

fn are_same(ours: &[NodeName], theirs: &[NodeName]) -> bool
    ensures { IsTrue result ↔ (ours.now ≡ theirs.now) }
{
    ours == theirs
}

fn copied_allow(alloc: Global, allow: &Option<NameList>) -> Result<Option<NameList>, AllocError>
    ensures { IfOk result (λ copy. copy ≡ allow.now) }
{
    match allow {
        None => Ok(None),
        Some(names) => Ok(Some(names.try_clone(alloc)?)),
    }
}

fn is_one(name: &[u8], one: &NodeName) -> bool
    ensures { result ≡ same_name name.now one.now }
{
    name.cmp(one.bytes()).is_eq()
}
