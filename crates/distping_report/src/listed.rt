//! The hosts for which the names that their port mappers know were printed.

use dist_names::{ByteString, NodeName};
use std::alloc::{AllocError, Global};
use std::sync::atomic::{AtomicBool, Ordering};

// A host, and whether the names that its port mapper knows were printed.
#[derive(Drop)]
struct ListedHost {
    name: ByteString,
    is_printed: AtomicBool,
}

/// The hosts of the nodes that are dialled. The names that their port mapper knows are printed once for each host.
#[derive(Drop)]
pub struct Listed {
    hosts: Vec<ListedHost>,
}

impl Listed {
    /// No host.
    pub fn nothing(alloc: Global) -> Listed {
        Listed {
            hosts: Vec::new(alloc),
        }
    }

    /// The hosts of these nodes, with nothing printed.
    pub fn new(alloc: Global, nodes: &[NodeName]) -> Result<Listed, AllocError> {
        let mut listed = Listed::nothing(alloc);
        for node in nodes {
            listed.add(alloc, node.host())?;
        }
        Ok(listed)
    }

    // The entry of a host.
    fn find(&self, host: &[u8]) -> Option<&ListedHost> {
        self.hosts.iter().find(|it| it.name.as_slice() == host)
    }

    // Adds a host, unless it is there.
    fn add(&mut self, alloc: Global, host: &[u8]) -> Result<(), AllocError> {
        if self.find(host).is_none() {
            self.hosts.push(ListedHost {
                name: ByteString::from_slice(alloc, host)?,
                is_printed: AtomicBool::new(false),
            })?;
        }
        Ok(())
    }

    /// Whether to print the names of this host: true only for the first caller.
    pub fn is_first(&self, host: &[u8]) -> bool {
        match self.find(host) {
            Some(host) => !host.is_printed.swap(true, Ordering::SeqCst),
            None => true,
        }
    }
}
