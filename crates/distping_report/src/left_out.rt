//! What was left out of a port mapper's answer.

ghost use Rattle.std.specs.Prelude.{◌≡◌, ◌&&◌, ◌==◌, if◌then◌else◌, not};

/// What was left out of a port mapper's answer, and not printed.
#[derive(Clone, Copy)]
pub struct LeftOut {
    /// How many lines name no node.
    pub lines: u32,
    /// How many nodes exceed the number that is dialled.
    pub nodes: u32,
    /// Whether the answer is longer than what is read.
    pub is_cut: bool,
}

impl LeftOut {
    /// Nothing is left out.
    pub fn is_nothing(self) -> bool {
        self.lines == 0 && self.nodes == 0 && !self.is_cut
    }

    /// The exit status: if nodes may be left out 4, which says to look at the port mapper.
    pub fn status(self) -> u8
        ensures { result ≡ (if (self.nodes == 0) && not self.is_cut then 0 else 4) }
    {
        if self.nodes == 0 && !self.is_cut {
            0
        } else {
            4
        }
    }
}
