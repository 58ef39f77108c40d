//! Searches for a run that goes wrong, of modules that have none.

ghost use Rattle.brc_lang.specs.Grammar.{IsModule};

use crate::accepted_examples::ACCEPTED;
use crate::mended_examples::MENDED;
use brc_explore::{Bounds, ItemRead, Watch, find_run};
use brc_lang::{Module, read};
use std::alloc::Global;

/// The bounds of each search: those of `brc explain --schedule` by itself.
const BOUNDS: Bounds = Bounds {
    workers: 2,
    rows: 4,
    states: 200_000,
};

/// How many of the mended modules the first of their two tests has. A test ends after 60 seconds.
const FIRST_MENDED: usize = 14;

#[derive(Drop)]
struct Patient;

impl Watch for Patient {
    fn visited(&mut self, _states: usize) -> bool {
        true
    }

    fn ended(&mut self, _had_room: bool) {}

    fn read_item(&mut self, _read: ItemRead) {}
}

#[test]
fn accepted_modules_never_go_wrong(rt: HostRuntime) {
    assert_eq!(rt; first_wrong(rt.alloc(), ACCEPTED), None);
}

#[test]
fn first_mended_modules_never_go_wrong(rt: HostRuntime) {
    assert_eq!(rt; first_wrong(rt.alloc(), &MENDED[..FIRST_MENDED]), None);
}

#[test]
fn last_mended_modules_never_go_wrong(rt: HostRuntime) {
    assert_eq!(rt; first_wrong(rt.alloc(), &MENDED[FIRST_MENDED..]), None);
}

/// Returns the name of the first of these modules that goes wrong, or that can't be read or searched.
fn first_wrong(alloc: Global, modules: &[(&'static str, &'static [u8])]) -> Option<&'static str> {
    for (name, text) in modules {
        if !is_safe(alloc, text) {
            return Some(*name);
        }
    }
    None
}

fn is_safe(alloc: Global, text: &[u8]) -> bool {
    match read(alloc, text) {
        Ok(module) => has_no_wrong_run(alloc, &module),
        Err(_) => false,
    }
}

/// Returns whether no run of the module is found that goes wrong, whichever of its functions the workers call. One with
/// parameters is called by others.
fn has_no_wrong_run(alloc: Global, module: &Module) -> bool
    requires { IsModule «module».now }
{
    for (function, called) in module.functions.as_slice().iter().enumerate() {
        if called.parameters.len() == 0 && !none_is_found(alloc, module, function) {
            return false;
        }
    }
    true
}

fn none_is_found(alloc: Global, module: &Module, function: usize) -> bool
    requires { IsModule «module».now }
{
    match find_run(alloc, module, function, BOUNDS, &mut Patient) {
        Ok(found) => found.is_none(),
        Err(_) => false,
    }
}
