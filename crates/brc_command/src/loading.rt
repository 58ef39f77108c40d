//! Files, read in pieces and no further than the first line at fault.

ghost use Rattle.std.specs.Prelude.{◌≡◌, ◌≢◌, ℕ, List, true, Ok, Err, IfOk, IfSome, IsErrOf};
ghost use Rattle.brc_command.specs.declared.load.LoadError.TheVariants.{Unreadable};
ghost use Rattle.brc_command.specs.declared.loading.Wanted.TheVariants.{Module, Schedule};
ghost use Rattle.brc_command.specs.Loading.{IsReadFor, HasLastingFault, IsFaultFor, ReadsAsModule, ReadsAsSchedule};

use crate::load::{Load, LoadError};
use brc_lang::{FaultCode, ReadFault, one_reading, read};
use brc_schedule::{one_schedule, read_schedule};
use std::alloc::Global;

/// How many bytes the first line of a schedule has. That of a module has fewer.
const FIRST_LINE: usize = 11;

/// What a file is read for.
#[derive(Clone, Copy)]
pub enum Wanted {
    Module,
    Schedule,
}

/// Loads the file of a module, no further than its first line at fault. Returns `Unreadable` or `NoMemory`.
pub fn load_module<L: Load>(alloc: Global, path: &str, load: &mut L) -> Result<Vec<u8>, LoadError>
    ensures loaded { IfOk result (λ bytes. ReadsAsModule (L.may_give load.old) path.now bytes.items) }
    ensures lacking { IsErrOf result Unreadable → L.may_lack load.old path.now }
    ensures gives_no_more { (p bytes : List ℕ) → L.may_give load.new p bytes → L.may_give load.old p bytes }
    ensures lacks_no_more { (p : List ℕ) → L.may_lack load.new p → L.may_lack load.old p }
{
    one_reading();
    load_for(alloc, Wanted::Module, path, load)
}

/// Loads the file of a schedule, no further than its first line at fault. Returns `Unreadable` or `NoMemory`.
pub fn load_schedule<L: Load>(alloc: Global, path: &str, load: &mut L) -> Result<Vec<u8>, LoadError>
    ensures loaded { IfOk result (λ bytes. ReadsAsSchedule (L.may_give load.old) path.now bytes.items) }
    ensures lacking { IsErrOf result Unreadable → L.may_lack load.old path.now }
    ensures gives_no_more { (p bytes : List ℕ) → L.may_give load.new p bytes → L.may_give load.old p bytes }
    ensures lacks_no_more { (p : List ℕ) → L.may_lack load.new p → L.may_lack load.old p }
{
    one_schedule();
    load_for(alloc, Wanted::Schedule, path, load)
}

/// Loads the file in pieces, to its end or to a fault that stays however the file goes on.
fn load_for<L: Load>(
    alloc: Global,
    wanted: Wanted,
    path: &str,
    load: &mut L,
) -> Result<Vec<u8>, LoadError>
    ensures loaded { IfOk result (λ bytes. IsReadFor wanted (L.may_give load.old) path.now bytes.items) }
    ensures lacking { IsErrOf result Unreadable → L.may_lack load.old path.now }
    ensures gives_no_more { (p bytes : List ℕ) → L.may_give load.new p bytes → L.may_give load.old p bytes }
    ensures lacks_no_more { (p : List ℕ) → L.may_lack load.new p → L.may_lack load.old p }
{
    let mut bytes = Vec::new(alloc);
    while !load.load_lines(path, &mut bytes)? {
        if is_at_fault(alloc, wanted, bytes.as_slice())? {
            break;
        }
    }
    Ok(bytes)
}

/// Returns whether the bytes have a fault that stays, however they go on. Returns `NoMemory`.
fn is_at_fault(alloc: Global, wanted: Wanted, bytes: &[u8]) -> Result<bool, LoadError>
    ensures lasting { result ≡ Ok true → HasLastingFault wanted bytes.now }
    ensures read { result ≢ Err Unreadable }
{
    brc_lang::fault_stays();
    brc_schedule::fault_stays();
    if bytes.len() < FIRST_LINE {
        return Ok(false);
    }
    let Some(fault) = fault_in(alloc, wanted, bytes) else {
        return Ok(false);
    };
    if fault.code == FaultCode::NoMemory {
        return Err(LoadError::NoMemory);
    }
    if fault.code == FaultCode::CutOff {
        // The line may go on, or further lines follow.
        return Ok(false);
    }
    Ok(true)
}

fn fault_in(alloc: Global, wanted: Wanted, bytes: &[u8]) -> Option<ReadFault>
    ensures { IfSome result (λ e. IsFaultFor wanted bytes.now e) }
{
    match wanted {
        Wanted::Module => module_fault(alloc, bytes),
        Wanted::Schedule => schedule_fault(alloc, bytes),
    }
}

fn module_fault(alloc: Global, bytes: &[u8]) -> Option<ReadFault>
    ensures { IfSome result (λ e. IsFaultFor Module bytes.now e) }
{
    match read(alloc, bytes) {
        Ok(_) => None,
        Err(fault) => Some(fault),
    }
}

fn schedule_fault(alloc: Global, bytes: &[u8]) -> Option<ReadFault>
    ensures { IfSome result (λ e. IsFaultFor Schedule bytes.now e) }
{
    match read_schedule(alloc, bytes) {
        Ok(_) => None,
        Err(fault) => Some(fault),
    }
}
