//! Command lines, carried out over files that are given in pieces.

ghost use Rattle.std.specs.Prelude.{⊤};

use brc_arguments::act;
use brc_command::{Load, LoadError, Save, SaveError};
use brc_run::System;

pub const SMALLEST: &[u8] = b"module 1\nfunc f\nfail\nend\n";

pub const FIRST: &[u8] = b"module 1\nfunc f\nnewref v1 v0\ndrop v1\nfail\nend\n";

pub const LEAKING: &[u8] = b"module 1\nfunc f\nnewref v1 v0\nfail\nend\n";

pub const MISSPELT: &[u8] = b"module 1\nfunc f\nfai\nend\n";

/// A text, and whether zeros without end are behind it.
pub type Tape<'t> = (&'t [u8], bool);

pub const NO_TEXT: Tape<'static> = (b"", false);

/// The length of pieces that are longer than any file here.
pub const WHOLE: usize = 4096;

/// The files `m.brc` and `s.txt`, given in pieces.
#[derive(Clone, Copy)]
struct Pieces<'t> {
    module: Tape<'t>,
    schedule: Tape<'t>,
    /// How many bytes a piece has.
    length: usize,
    /// How many pieces were asked for.
    asked: usize,
}

impl Load for Pieces<'_> {
    ghost may_give = { λ _ _ _. ⊤ };

    ghost may_lack = { λ _ _. ⊤ };

    fn load_more(&mut self, path: &str, bytes: &mut Vec<u8>) -> Result<bool, LoadError> {
        self.asked = self.asked.saturating_add(1);
        let (text, goes_on) = match path {
            "s.txt" => self.schedule,
            _ => self.module,
        };
        let before = bytes.len();
        for _ in 0..self.length {
            let byte = match text.get(bytes.len()) {
                Some(byte) => *byte,
                None if goes_on => 0,
                None => return Ok(true),
            };
            if bytes.push(byte).is_err() {
                return Err(LoadError::NoMemory);
            }
        }
        Ok(bytes.len() <= before)
    }
}

impl Save for Pieces<'_> {
    fn save(&mut self, _path: &str, _bytes: &[u8]) -> Result<(), SaveError> {
        Err(SaveError)
    }
}

/// What a command line has written, its status, and how many pieces it has asked for.
#[derive(Drop)]
pub struct Acted {
    pub out: Vec<u8>,
    pub err: Vec<u8>,
    pub status: u8,
    pub asked: usize,
}

/// Carries out a command line over these files, in pieces of this length.
pub fn acts<R: System + AllocGlobal>(
    rt: &R,
    words: &[&str],
    module: Tape<'_>,
    schedule: Tape<'_>,
    length: usize,
) -> Acted {
    let mut out: Vec<u8> = Vec::new(rt.alloc());
    let mut err: Vec<u8> = Vec::new(rt.alloc());
    let mut load = Pieces {
        module,
        schedule,
        length,
        asked: 0,
    };
    let status = act(rt, rt.alloc(), words, &mut load, &mut out, &mut err);
    Acted {
        out,
        err,
        status,
        asked: load.asked,
    }
}
