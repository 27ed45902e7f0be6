//! A page collects what is printed, until it is long or complete.

ghost use Rattle.std.specs.{Prelude.◌≡◌, Prelude.◌⊎◌, Prelude.[], Prelude.IsOk, Prelude.OnOk, Prelude.IfErr, Prelude.Err, Io.KnownBytes.Appends};
ghost use Rattle.dist_script.specs.{Texts.PutsFront, declared.fault.ScriptFault.TheVariants.NoMemory, declared.fault.ScriptFault.TheVariants.WriteFailed};
ghost use Rattle.dist_script_play.specs.Pages.{Puts, PutsPart};

use dist_script::{ScriptFault, or_write_failed, put_bytes};
use std::alloc::Global;
use std::io::Write;

/// A page of this many bytes is written out.
const LONG: usize = 8192;

/// The result of putting a text on a page: the only fault is out of memory.
pub fn on_page(put: Result<(), ScriptFault>) -> Result<(), ScriptFault>
    ensures ok { OnOk result (IsOk put) }
    ensures fault { IfErr result (λ fault. fault ≡ NoMemory) }
{
    match put {
        Ok(()) => Ok(()),
        Err(_) => Err(ScriptFault::NoMemory),
    }
}

/// What is printed but not yet written, and the line being made. A line is put on the page whole, or not at all if memory runs out.
#[derive(Drop)]
pub struct Printout {
    /// What is printed.
    pub text: Vec<u8>,
    /// The next line.
    pub line: Vec<u8>,
}

impl Printout {
    /// An empty page. It takes no memory.
    pub fn new(alloc: Global) -> Printout
        ensures { result.text.items ≡ [] }
    {
        Printout {
            text: Vec::new(alloc),
            line: Vec::new(alloc),
        }
    }

    // Writes the page out, and empties it even if that fails: nothing is written twice.
    #[tactic(auto, using(dist_script::proofs::Fronts::there, dist_script::proofs::Fronts::front_either))]
    fn write_out<W: Write>(&mut self, out: &mut W) -> Result<(), ScriptFault>
        ensures text { OnOk result (Appends (W.contents out.old) (W.contents out.new) self.old.text.items) }
        ensures front { PutsFront self.old.text.items (W.contents out.old) (W.contents out.new) }
        ensures page { self.new.text.items ≡ [] }
        ensures fault { IfErr result (λ fault. fault ≡ WriteFailed) }
    {
        let put = put_bytes(out, self.text.as_slice());
        self.text.clear();
        put?;
        Ok(())
    }

    /// Puts the line on the page, and writes the page out if it is long.
    #[tactic(auto, using(crate::proofs::Pages::line_put))]
    pub fn put_line<W: Write>(&mut self, out: &mut W) -> Result<(), ScriptFault>
        ensures text { OnOk result (Puts self.old.line.items (W.contents out.old) (W.contents out.new) self.old.text.items self.new.text.items) }
        ensures cut { IfErr result (λ fault. PutsPart self.old.line.items (W.contents out.old) (W.contents out.new)
            self.old.text.items self.new.text.items fault) }
    {
        self.text.extend_from_slice(self.line.as_slice())?;
        if self.text.len() < LONG {
            return Ok(());
        }
        self.write_out(out)?;
        Ok(())
    }

    /// Writes out the page at the end, even if the playing stopped early. Returns the first fault.
    #[tactic(auto, using(dist_script::proofs::Fronts::there, crate::proofs::Pages::flushed, crate::proofs::Pages::front_flushed))]
    pub fn finish<W: Write>(
        &mut self,
        played: Result<(), ScriptFault>,
        out: &mut W,
    ) -> Result<(), ScriptFault>
        ensures played { OnOk result (IsOk played) }
        ensures text { OnOk result (Appends (W.contents out.old) (W.contents out.new) self.old.text.items) }
        ensures front { PutsFront self.old.text.items (W.contents out.old) (W.contents out.new) }
        ensures fault { IfErr result (λ fault. (fault ≡ WriteFailed) ⊎ (played ≡ Err fault)) }
    {
        let put = self.write_out(out);
        let flushed = or_write_failed(out.flush());
        played?;
        put?;
        flushed?;
        Ok(())
    }
}
