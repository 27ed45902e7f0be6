//! What is to be dialled: nodes by their names, and all nodes of a host by `@HOST`.

ghost use Rattle.std.specs.Prelude.{◌≡◌, ◌∷◌, ◌++◌, true, false};
ghost use Rattle.std.specs.{List.before_first, List.position, List.position_or_len, Str.IsTrimAscii};
ghost use Rattle.dist_names.specs.NodeName.{host_of};
ghost use Rattle.dist_cluster.specs.Targets.{Names, NamesGroup, NamesTarget, begins_with_at, group_word, is_hash, name_behind, usual_prefix};

use dist_names::{ByteString, NameError, NodeName};
use std::alloc::Global;

/// The most nodes that are dialled in one run, since each two of them are compared. Our own choice.
pub const MOST_NODES: usize = 1024;

/// What stands before the `@` in the probe's usual name.
pub const USUAL: &[u8] = b"distping";

/// What a word of the command line, or a line of a file, names.
#[derive(Drop)]
pub enum Target {
    /// This node.
    Node(NodeName),
    /// Each node that the port mapper of a host knows.
    Group(Group),
    /// What stands at each address of a name.
    Service(ServiceName),
}

/// Each node that the port mapper of a host knows, `@HOST`.
#[derive(Drop)]
pub struct Group {
    /// The usual name of the probe at that host: `distping@HOST`.
    pub own: NodeName,
}

impl Group {
    /// The word that names this group, `@HOST`.
    pub fn word(&self) -> &[u8]
        ensures { result.now ≡ group_word self.now }
    {
        match self.own.bytes().strip_prefix(USUAL) {
            Some(word) => word,
            None => b"",
        }
    }

    /// The name of a node at that host, from the part before its `@`, or why that makes no name.
    pub fn member(&self, alloc: Global, short: &[u8]) -> Result<NodeName, NameError>
        ensures { Names result (short.now ++ 0x40 ∷ host_of self.now.own) }
    {
        let mut back = Vec::from_slice(alloc, b"@")?;
        back.extend_from_slice(self.own.host())?;
        name_of_parts(alloc, short, &back)
    }
}

/// What stands at each address of a name, as nodes are named that find each other by a name server: `SHORT@ADDRESS`, or all nodes of each
/// address.
#[derive(Drop)]
pub struct ServiceName {
    /// What stands before the `@` of each node's name. It is empty for each node that the port mapper of an address knows.
    pub short: ByteString,
    /// The name, as a group.
    pub group: Group,
}

impl ServiceName {
    /// What stands at an address: the node `SHORT@ADDRESS`, or `@ADDRESS`.
    pub fn member(&self, alloc: Global, address: &[u8]) -> Result<Target, NameError>
        ensures { let word = self.now.short ++ 0x40 ∷ address.now in NamesTarget result (name_behind word) (begins_with_at word) }
    {
        let mut back = Vec::from_slice(alloc, b"@")?;
        back.extend_from_slice(address)?;
        let mut word = Vec::from_slice(alloc, self.short.as_slice())?;
        word.extend_from_slice(&back)?;
        target_of(alloc, &word)
    }
}

// The name that these two pieces make, one behind the other.
#[tactic(auto, using(crate::proofs::Naming::named))]
fn name_of_parts(alloc: Global, front: &[u8], back: &[u8]) -> Result<NodeName, NameError>
    ensures { Names result (front.now ++ back.now) }
{
    let mut bytes = Vec::from_slice(alloc, front)?;
    bytes.extend_from_slice(back)?;
    NodeName::new(alloc, &bytes)
}

// Whether a word names all nodes of a host.
fn begins_with_at(word: &[u8]) -> bool
    ensures { result ≡ begins_with_at word.now }
{
    matches!(word, [b'@', ..])
}

/// The group of the host that a word names, `@HOST`.
pub fn group_of(alloc: Global, word: &[u8]) -> Result<Group, NameError>
    ensures { NamesGroup result (usual_prefix ++ word.now) }
{
    let own = name_of_parts(alloc, USUAL, word)?;
    Ok(Group { own })
}

#[tactic(auto, using(crate::proofs::Naming::named))]
fn named_node(alloc: Global, word: &[u8]) -> Result<Target, NameError>
    ensures { NamesTarget result word.now false }
{
    let name = NodeName::new(alloc, word)?;
    Ok(Target::Node(name))
}

/// What a word names: `NAME@HOST`, or `@HOST`. The refusals are those of the node's name, or of the probe's usual name at that
/// host.
pub fn target_of(alloc: Global, word: &[u8]) -> Result<Target, NameError>
    ensures { NamesTarget result (name_behind word.now) (begins_with_at word.now) }
{
    if begins_with_at(word) {
        Ok(Target::Group(group_of(alloc, word)?))
    } else {
        named_node(alloc, word)
    }
}

// Where the first `#` of a line stands, or its length where there is none.
#[tactic(auto, using(dist_names::proofs::Places::place_or_length))]
fn hash_place(line: &[u8]) -> usize
    ensures { result ≡ position_or_len is_hash line.now }
{
    first_hash(line).unwrap_or(line.len())
}

fn first_hash(line: &[u8]) -> Option<usize>
    ensures { result ≡ position is_hash line.now }
{
    line.iter().position(|byte| *byte == b'#')
}

// What stands before the first `#` of a line.
fn before_hash(line: &[u8]) -> &[u8]
    ensures { result.now ≡ before_first is_hash line.now }
{
    &line[..hash_place(line)]
}

/// The word in a line of a file: what stands before the first `#`, without blanks at either end. It is empty where the line names
/// nothing.
pub fn word_in(line: &[u8]) -> &[u8]
    ensures { IsTrimAscii (before_first is_hash line.now) result.now }
{
    before_hash(line).trim_ascii()
}
