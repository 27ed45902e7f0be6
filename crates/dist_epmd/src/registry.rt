//! The registry from which the port mapper answers.

ghost use Rattle.std.specs.Prelude.{◌≡◌, ◌⊎◌, ℕ, false, IfOk, OnOk, OnErr, IsTrue, Some, flat_map, nat_lt, if◌then◌else◌, option_copied};
ghost use Rattle.std.specs.List.{list_any};
ghost use Rattle.dist_epmd.specs.declared.message.Answer.TheVariants.{Alive, AliveX};
ghost use Rattle.dist_epmd.specs.Registrations.{Registrations, IsLegal, opening, is_accepted, is_of, after_request, after_closed, after_closed_as};
ghost use Rattle.dist_epmd.specs.Registrations.{answer_to, registered_info, registered_name, line_of, names_text};

use crate::message::{AliveReq, Answer, PortInfo};
use crate::row::Row;
use crate::rows::{
    drop_conn, drop_own, has_conn, has_fewer, has_name, is_short_name, push_lines, register,
    row_of_name,
};
use dist_names::ByteString;
use std::alloc::{AllocError, Global};
use std::collections::BTreeMap;
use std::marker::Model;

// The most registrations at a time.
const MOST: usize = 1024;

// The least version of the handshake that has creations of 32 bits.
const NEWER: u16 = 6;

// The answer with this result, in the form for the node's highest version: with the creation, or with a short one in its place.
fn answer_in_form(request: &AliveReq, result_code: u8, creation: u32, short: u16) -> Answer
    ensures { result ≡ (if nat_lt request.now.highest 6 then Alive result_code short else AliveX result_code creation) }
{
    if request.highest < NEWER {
        Answer::Alive {
            result_code,
            creation: short,
        }
    } else {
        Answer::AliveX {
            result_code,
            creation,
        }
    }
}

/// The nodes that are registered with a port mapper, each as long as its connection lasts.
///
/// It has at most 1,024 of them (our own limit), in byte order of their names, and no two with the same name or
/// connection. It keeps them in a map from the name, so that a lookup is quick. The caller gives each connection a number
/// that it uses for no other, and calls `closed` or `closed_as` once the connection is over. Nothing here waits, reads or writes.
#[derive(Drop)]
pub struct Registry {
    port: u16,
    next: u64,
    rows: BTreeMap<Vec<u8>, Row>,
}

impl Model for Registry {
    ghost use Rattle.std.specs.BTreeMap.{values};
    ghost use Rattle.dist_epmd.specs.Registrations.{Registrations, IsLegal};
    ghost use Rattle.dist_epmd.specs.Named.{StandAtNames};

    ghost Value = { Registrations };

    ghost view = { λ r. record { port = r.port; next = r.next; rows = values r.rows } };

    ghost invariant = { λ r. IsLegal (record { port = r.port; next = r.next; rows = values r.rows }) × StandAtNames r.rows.entries };
}

impl Registry {
    /// A registry without nodes, of the port mapper at this port. It takes no memory.
    ///
    /// The first node that is accepted gets the creation `first`, each later one the next number, and 4,294,967,295 is the
    /// last (our own choice: no creation is given twice).
    pub fn new(alloc: Global, port: u16, first: u32) -> Registry
        ensures { result ≡ opening port first }
    {
        Registry {
            port,
            next: first as u64,
            rows: BTreeMap::new(alloc),
        }
    }

    // Whether this registration is accepted on every connection that has none.
    fn has_place(&self, request: &AliveReq) -> bool
        ensures { (conn : ℕ) → list_any (is_of conn) self.now.rows ≡ false → result ≡ is_accepted conn request.now self.now }
    {
        is_short_name(request.name.as_slice())
            && !has_name(&self.rows, request.name.as_slice())
            && has_fewer(&self.rows, MOST)
            && self.next <= u32::MAX as u64
    }

    /// Registers a node as long as the connection lasts, and returns the answer.
    ///
    /// It is refused, with result 1 and creation 0, where one of these holds (our own choice; all get the same answer):
    /// - the name has no byte, more than 255, or one that is not from 0x21 to 0x7E or is the `@`,
    /// - the name is registered,
    /// - the connection has a registration,
    /// - 1,024 nodes are registered,
    /// - the creations are used up.
    ///
    /// A highest version below 6 is answered with `Alive`, any other with `AliveX`. In place of the creation, `Alive` carries
    /// a number from 1 to 3: (creation + 2) mod 3, plus 1 (our own choice). A refusal changes nothing and uses up
    /// no creation. It fails only where memory runs out, and then changes nothing.
    pub fn alive(
        &mut self,
        alloc: Global,
        conn: u64,
        request: &AliveReq,
    ) -> Result<Answer, AllocError>
        ensures answer { IfOk result (λ answer. answer ≡ answer_to conn request.now self.old) }
        ensures after { OnOk result (self.new ≡ after_request conn request.now self.old) }

        // Memory runs out only where the registration is accepted.
        ensures lacks { OnErr result (IsTrue (is_accepted conn request.now self.old)) }
        ensures err { OnErr result (self.new ≡ self.old) }
    {
        if has_conn(&self.rows, conn) {
            return Ok(answer_in_form(request, 1, 0, 0));
        }
        self.alive_first(alloc, conn, request)
    }

    /// The same as `alive`, for a connection that has no registration: so the rows need not be searched for one.
    pub fn alive_first(
        &mut self,
        alloc: Global,
        conn: u64,
        request: &AliveReq,
    ) -> Result<Answer, AllocError>
        // A caller knows this of a connection on which it has called neither this nor `alive` before. For any other it calls `alive`.
        requires { list_any (is_of conn) self.old.rows ≡ false }
        ensures answer { IfOk result (λ answer. answer ≡ answer_to conn request.now self.old) }
        ensures after { OnOk result (self.new ≡ after_request conn request.now self.old) }

        // Memory runs out only where the registration is accepted.
        ensures lacks { OnErr result (IsTrue (is_accepted conn request.now self.old)) }
        ensures err { OnErr result (self.new ≡ self.old) }
    {
        if !self.has_place(request) {
            return Ok(answer_in_form(request, 1, 0, 0));
        }
        let creation = self.next as u32;
        register(&mut self.rows, alloc, conn, request, creation)?;
        self.next += 1;
        let short = ((creation as u64 + 2) % 3 + 1) as u16;
        Ok(answer_in_form(request, 0, creation, short))
    }

    /// What the node of this name said of itself when it registered. It takes no memory.
    pub fn port_please(&self, name: &[u8]) -> Option<&PortInfo>
        ensures found { option_copied result ≡ registered_info name.now self.now }

        // No two registrations share a name, a connection or a creation, and the next creation is above all of them.
        ensures legal { IsLegal self.now }
    {
        let row = row_of_name(&self.rows, name)?;
        Some(&row.info)
    }

    /// The port that the port mapper itself listens at.
    pub fn port(&self) -> u16
        ensures { result ≡ self.now.port }
    {
        self.port
    }

    /// The text of an answer to a question for all names, without the port before it.
    ///
    /// For each node it is a line `name N at port P` and a line feed, P in decimal without leading zeros, in byte order of
    /// the names (ERTS User's Guide, EPMD Protocol; the order is our own choice).
    pub fn lines(&self, alloc: Global) -> Result<ByteString, AllocError>
        ensures { IfOk result (λ text. text ≡ flat_map line_of self.now.rows) }
    {
        let mut bytes = Vec::new(alloc);
        push_lines(&mut bytes, &self.rows)?;
        Ok(ByteString::from_vec(bytes))
    }

    /// The whole answer to a question for all names: the port mapper's port in 4 bytes, and then the lines.
    pub fn names(&self, alloc: Global) -> Result<Vec<u8>, AllocError>
        ensures { IfOk result (λ bytes. bytes.items ≡ names_text self.now) }
    {
        let mut bytes = Vec::new(alloc);
        bytes.extend_from_slice(&(self.port as u32).to_be_bytes())?;
        push_lines(&mut bytes, &self.rows)?;
        Ok(bytes)
    }

    /// Drops the registration of a connection that is closed, where it has one. It takes no memory.
    pub fn closed(&mut self, conn: u64)
        ensures { self.new ≡ after_closed conn self.old }
    {
        drop_conn(&mut self.rows, conn);
    }

    /// Drops the registration of this name where it was made on this connection, which is closed. It takes no memory.
    ///
    /// It is `closed` for a caller that knows under which name the connection is registered: so the name is looked up,
    /// and the rows need not be searched.
    pub fn closed_as(&mut self, conn: u64, name: &[u8])
        ensures after { self.new ≡ after_closed_as conn name.now self.old }

        // Where the connection is registered under this name, it does what `closed` does.
        ensures whole { registered_name conn self.old ≡ Some name.now → self.new ≡ after_closed conn self.old }

        // In any other case it does what `closed` does, or nothing.
        ensures either { (self.new ≡ self.old) ⊎ (self.new ≡ after_closed conn self.old) }
    {
        drop_own(&mut self.rows, conn, name);
    }
}
