//! The files of the tests, and what a command writes over them.

ghost use Rattle.std.specs.Prelude.{⊤};

use brc_command::{
    Asked, Load, LoadError, NoTerminal, Save, SaveError, Unchecked, execute, execute_unchecked,
};
use brc_run::System;

/// A module `m.brc` and a schedule `s.txt`.
#[derive(Drop)]
pub struct Shelf<'t> {
    pub module: &'t [u8],
    pub schedule: &'t [u8],
}

impl Load for Shelf<'_> {
    ghost may_give = { λ _ _ _. ⊤ };

    ghost may_lack = { λ _ _. ⊤ };

    fn load_more(&mut self, path: &str, bytes: &mut Vec<u8>) -> Result<bool, LoadError> {
        let text = match path {
            "m.brc" => self.module,
            "s.txt" => self.schedule,
            _ => return Err(LoadError::Unreadable),
        };
        match bytes.extend_from_slice(text) {
            Ok(()) => Ok(true),
            Err(_) => Err(LoadError::NoMemory),
        }
    }
}

// What is saved is a picture.
impl Save for Shelf<'_> {
    fn save(&mut self, _path: &str, bytes: &[u8]) -> Result<(), SaveError> {
        if bytes.starts_with(b"<svg ") && bytes.ends_with(b"</svg>\n") {
            Ok(())
        } else {
            Err(SaveError)
        }
    }
}

/// What a command writes on standard output, and its status.
#[derive(Drop)]
pub struct Written {
    pub out: Vec<u8>,
    pub status: u8,
}

/// Steps the schedule over the module, whether it is accepted or not, with a trace and a picture.
pub fn replayed<R: System + AllocGlobal>(rt: &R, module: &[u8], schedule: &[u8]) -> Written {
    let asked = Unchecked::Step {
        file: "m.brc",
        schedule: "s.txt",
        trace: true,
        picture: Some("p.svg"),
    };
    let mut out: Vec<u8> = Vec::new(rt.alloc());
    let mut err: Vec<u8> = Vec::new(rt.alloc());
    let status = execute_unchecked(
        rt.alloc(),
        &asked,
        &mut Shelf { module, schedule },
        &mut NoTerminal,
        &mut out,
        &mut err,
    );
    Written { out, status }
}

/// Steps the schedule over an accepted module, with a trace and a picture.
pub fn stepped<R: System + AllocGlobal>(rt: &R, module: &[u8], schedule: &[u8]) -> Written {
    let asked = Asked::Draw {
        file: "m.brc",
        schedule: "s.txt",
        picture: "p.svg",
    };
    let mut out: Vec<u8> = Vec::new(rt.alloc());
    let mut err: Vec<u8> = Vec::new(rt.alloc());
    let status = execute(
        rt,
        rt.alloc(),
        &asked,
        &mut Shelf { module, schedule },
        &mut out,
        &mut err,
    );
    Written { out, status }
}
