ghost use Rattle.std.specs.Prelude.{◌≡◌, ◌↔◌, Some, None, IsTrue, IfOk, OnOk, option_copied, if◌then◌else◌};
ghost use Rattle.std.specs.List.{list_all};
ghost use Rattle.dist_names.specs.NodeName.{short_of, host_of, has_two_parts, name_of_bytes, IsNodeName};
ghost use Rattle.dist_names.specs.{Bytes.is_visible, Front.front_numbers, Order.same_name, Answer.AnswersName};

use crate::front::front_numbers;
use crate::name_error::NameError;
use crate::plain::{are_visible, host_part, is_same_text, short_part};
use std::alloc::{AllocError, Global};
use std::marker::Model;
use std::sync::Arc;

/// The name of a node, as `a@127.0.0.1`: 3 to 255 bytes, each from 0x21 to 0x7E, one `@` among them, and neither part
/// empty. Contracts see it as its bytes, and whoever holds one need not test it again. Equal copies share their bytes, so a
/// copy takes no further memory.
#[derive(Debug, Drop)]
pub struct NodeName {
    // The first 32 bytes as numbers, which decide most comparisons without a look at the text.
    fronts: (u64, u64, u64, u64),
    text: Arc<Vec<u8>>,
}

impl Model for NodeName {
    ghost use Rattle.std.specs.Prelude.{◌≡◌, ℕ, List};
    ghost use Rattle.std.specs.Arc.{arc_value};
    ghost use Rattle.dist_names.specs.Front.{front_numbers};
    ghost use Rattle.dist_names.specs.NodeName.{IsNodeName};

    ghost Value = { List ℕ };

    ghost view = { λ n. let t = arc_value n.text in t.items };

    ghost invariant = { λ n. let t = arc_value n.text in
        (n.fronts ≡ front_numbers t.items) × IsNodeName t.items };
}

const LEAST: usize = 3;

const MOST: usize = 255;

// What stands behind the first separator is the host, in which none stands. What is left of the bytes is the short name.
#[tactic(auto, using(crate::proofs::Places::no_host, crate::proofs::Places::no_short))]
fn is_two_parts(bytes: &[u8]) -> bool
    ensures { result ≡ has_two_parts bytes.now }
{
    let host = host_part(bytes);
    if host.is_empty() {
        return false;
    }
    if host.len() + 1 >= bytes.len() {
        return false;
    }
    !host.contains(&b'@')
}

impl NodeName {
    /// The name that these bytes are, or the first reason why they are none.
    pub fn new(alloc: Global, bytes: &[u8]) -> Result<NodeName, NameError>
        ensures exact { AnswersName result (name_of_bytes bytes.now) }

        // The bytes of a name are accepted, unless memory runs out, and no others are.
        ensures accepts { IsNodeName bytes.now → AnswersName result (Ok bytes.now) }
        ensures good { OnOk result (IsNodeName bytes.now) }
    {
        if bytes.len() < LEAST {
            return Err(NameError::TooShort);
        }
        if bytes.len() > MOST {
            return Err(NameError::TooLong);
        }
        if !are_visible(bytes) {
            return Err(NameError::BadByte);
        }
        if !is_two_parts(bytes) {
            return Err(NameError::BadAt);
        }
        Ok(NodeName::of_good(alloc, bytes)?)
    }

    // Bytes that are a name.
    fn of_good(alloc: Global, bytes: &[u8]) -> Result<NodeName, AllocError>
        requires { IsNodeName bytes.now }
        ensures { IfOk result (λ name. name ≡ bytes.now) }
    {
        let text = Vec::from_slice(alloc, bytes)?;
        Ok(NodeName {
            fronts: front_numbers(bytes),
            text: Arc::new(alloc, text)?,
        })
    }

    /// The whole name.
    pub fn bytes(&self) -> &[u8]
        ensures same { result.now ≡ self.now }
        ensures good { IsNodeName self.now }
    {
        self.text.as_slice()
    }

    // Its first bytes as numbers.
    pub(crate) fn fronts(&self) -> &(u64, u64, u64, u64)
        ensures same { result.now ≡ front_numbers self.now }
        ensures good { IsNodeName self.now }
    {
        &self.fronts
    }

    /// The part before the `@`, by which the port mapper knows the node.
    pub fn short(&self) -> &[u8]
        ensures { result.now ≡ short_of self.now }
    {
        short_part(self.bytes())
    }

    /// The part after the `@`, where the node runs.
    pub fn host(&self) -> &[u8]
        ensures { result.now ≡ host_of self.now }
    {
        host_part(self.bytes())
    }

    /// An equal name, which shares its bytes with this one. It fails only where there are 2^63 of them.
    pub fn try_clone(&self, _alloc: Global) -> Result<NodeName, AllocError>
        ensures { IfOk result (λ copy. copy ≡ self.now) }
    {
        Ok(NodeName {
            fronts: self.fronts,
            text: Arc::try_clone(&self.text)?,
        })
    }

    /// Whether this is the name with these bytes.
    pub fn has_bytes(&self, bytes: &[u8]) -> bool
        ensures computed { result ≡ same_name self.now bytes.now }
        ensures each { IsTrue result ↔ (self.now ≡ bytes.now) }
    {
        is_same_text(self.bytes(), bytes)
    }

    /// Whether the two names are one.
    pub fn is_same(&self, other: &NodeName) -> bool
        ensures computed { result ≡ same_name self.now other.now }
        ensures each { IsTrue result ↔ (self.now ≡ other.now) }
    {
        self == other
    }
}
