//! How a run ends whose module isn't checked before.

ghost use Rattle.std.specs.Prelude.{◌≡◌, ◌≤◌, OnOk, OnErr};
ghost use Rattle.std.specs.Io.KnownBytes.{Appends};
ghost use Rattle.brc_lang.specs.Written.{AppendsBeginning};
ghost use Rattle.brc_command.specs.declared.endings.Ending.TheVariants.{Whole};
ghost use Rattle.brc_command.specs.Endings.{ending_status, ending_text};

use crate::lines::write_bounds;
use brc_lang::write_bytes;
use std::io;
use std::io::Write;

/// How a run that wasn't checked before ends.
#[derive(Drop)]
pub enum Ending {
    /// All steps are taken, and the report is written.
    Whole,
    /// The last step that is taken is wrong; or all are taken, the report is written, and an object is lost. The text
    /// says it in a line.
    Wrong(Vec<u8>),
    /// The step of this number leaves the machine's bounds, or it stops its thread: what a stopped thread gives up is
    /// known for accepted modules alone.
    Beyond(u64),
}

impl Ending {
    /// Returns the exit status: 0 for a whole run, 1 for one that goes wrong, and 2 for one that leaves the bounds.
    pub fn status(&self) -> u8
        ensures known { result ≤ 3 }
        ensures exact { result ≡ ending_status self.now }
    {
        match self {
            Ending::Whole => 0,
            Ending::Wrong(_) => 1,
            Ending::Beyond(_) => 2,
        }
    }
}

/// Writes the reason for which the run ends before all steps are taken, or with an object lost, with the errors of
/// `brc_lang::write_bytes`.
pub fn write_ending<W: Write>(ending: &Ending, writer: &mut W) -> io::Result<()>
    ensures whole { OnOk result (Appends (W.contents writer.old) (W.contents writer.new) (ending_text ending.now)) }
    ensures begun { OnErr result (AppendsBeginning (W.contents writer.old) (W.contents writer.new)
        (ending_text ending.now)) }
    ensures silent { ending.now ≡ Whole → W.contents writer.new ≡ W.contents writer.old }
{
    match ending {
        Ending::Whole => Ok(()),
        Ending::Wrong(text) => write_bytes(text.as_slice(), writer),
        Ending::Beyond(number) => write_bounds(*number, writer),
    }
}
