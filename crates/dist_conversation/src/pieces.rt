//! The pieces in which the bytes of both sides came.

ghost use Rattle.std.specs.Prelude.{◌≡◌, ◌++◌, ◌∷◌, [], OnOk, length, map};
ghost use Rattle.dist_conversation.specs.Pieces.{turned};

use dist_messages::Side;
use dist_talk::other_side;
use std::alloc::{AllocError, Global};
use std::marker::Model;

/// Bytes of a side that came in one segment, or had waited for it.
#[derive(Clone, Copy)]
pub struct Arrival {
    /// The side that sent it.
    pub side: Side,
    /// How many bytes of this side are there with it.
    pub until: usize,
    /// When it was captured, in nanoseconds since 1970.
    pub at: u64,
}

/// Pieces of both sides, in the order of the capture.
#[derive(Drop)]
pub struct Pieces {
    list: Vec<Arrival>,
}

impl Model for Pieces {
    ghost use Rattle.std.specs.Prelude.{List};
    ghost use Rattle.dist_conversation.specs.declared.pieces.Arrival.{Arrival};

    ghost Value = { List Arrival };

    ghost view = { λ p. p.list.items };
}

impl Pieces {
    /// None.
    pub fn new(alloc: Global) -> Pieces
        ensures { result ≡ [] }
    {
        Pieces {
            list: Vec::new(alloc),
        }
    }

    /// All of them.
    pub fn as_slice(&self) -> &[Arrival]
        ensures { result.now ≡ self.now }
    {
        &self.list
    }

    /// Adds one.
    pub fn push(&mut self, piece: Arrival) -> Result<(), AllocError>
        ensures { OnOk result (self.new ≡ self.old ++ piece ∷ []) }
    {
        self.list.push(piece)?;
        Ok(())
    }

    /// The side that was taken for the one that dialled is the other one.
    pub fn swap_sides(&mut self)
        ensures { self.new ≡ map turned self.old }
    {
        for piece in self.list.iter_mut() {
            piece.side = other_side(piece.side);
        }
    }

    /// Forgets them.
    pub fn clear(&mut self)
        ensures { self.new ≡ [] }
    {
        self.list.clear();
    }
}
