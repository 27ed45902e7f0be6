//! Numbers connections for the audit: each link gets the next number when a history mentions it first.
ghost use Rattle.std.specs.Prelude.{◌≡◌, ◌∷◌, ◌++◌, [], false, OnOk};
ghost use Rattle.dist_audit.specs.Links.{is_among, mention, conn_of};

use std::alloc::{AllocError, Global};
use std::collections::BTreeMap;
use std::marker::Model;

/// The links mentioned so far, each once, in the order of their first mentions. The number of a link's connection is its
/// place among them.
#[derive(Drop)]
pub struct Mentioned {
    links: Vec<u64>,
    numbers: BTreeMap<u64, usize>,
}

impl Model for Mentioned {
    ghost use Rattle.std.specs.Prelude.{List, ℕ};
    ghost use Rattle.dist_audit.specs.Kept as kept;

    ghost Value = { List ℕ };

    ghost view = { λ m. m.links.items };

    ghost invariant = { λ m. kept.AreNumbers m.numbers m.links.items };
}

impl Mentioned {
    /// No link is mentioned yet.
    pub fn new(alloc: Global) -> Mentioned
        ensures { result ≡ [] }
    {
        Mentioned {
            links: Vec::new(alloc),
            numbers: BTreeMap::new(alloc),
        }
    }

    /// The link is among those.
    pub fn is_among(&self, wanted: u64) -> bool
        ensures { result ≡ is_among wanted self.now }
    {
        self.numbers.contains_key(&wanted)
    }

    /// The number of a link's connection.
    pub fn conn_of(&self, wanted: u64) -> usize
        ensures { result ≡ conn_of wanted self.now }
    {
        match self.numbers.get(&wanted) {
            Some(number) => *number,
            None => self.links.len(),
        }
    }

    // One link more, which is not among those.
    fn push(&mut self, link: u64) -> Result<(), AllocError>
        requires { is_among link self.old ≡ false }
        ensures { OnOk result (self.new ≡ self.old ++ link ∷ []) }
    {
        let number = self.links.len();
        self.links.push(link)?;
        match self.numbers.insert(link, number) {
            Ok(_) => Ok(()),
            Err(_) => {
                self.links.pop();
                Err(AllocError)
            }
        }
    }

    /// Adds this link, if there is one and it is new.
    pub fn mention(&mut self, link: Option<u64>) -> Result<(), AllocError>
        ensures { OnOk result (self.new ≡ mention self.old link) }
    {
        if let Some(link) = link {
            if !self.is_among(link) {
                self.push(link)?;
            }
        }
        Ok(())
    }
}
