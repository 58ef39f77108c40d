//! What is found of the module of a file: that it is accepted, where and why it is refused, or why nothing is known of
//! it.

ghost use Rattle.std.specs.Prelude.{◌≡◌, ◌≤◌, ℕ, List, IfOk, IfSome, MatchResult, option_map};
ghost use Rattle.std.specs.List.{AllByRecursion};
ghost use Rattle.brc_lang.specs.declared.module.Module.{Module};
ghost use Rattle.brc_lang.specs.Grammar.{IsModule, Spells};
ghost use Rattle.brc_check.specs.Refusal.{IsRefusedFor};
ghost use Rattle.brc_command.specs.declared.finding.Finding.TheVariants.{Stopped};
ghost use Rattle.brc_command.specs.declared.step_fault.StepFault.TheVariants.{NoMemory as MemoryRefused};
ghost use Rattle.brc_command.specs.Findings.{IsFinding, IsFoundIn, IsLocated, IsOther, finding_status, line_of};

use crate::accepted::instruction_count;
use crate::calls::number_of;
use crate::explaining::number_asked;
use crate::load::Load;
use crate::loading::load_module;
use crate::step_fault::StepFault;
use crate::stop::Stop;
use crate::texts::{accepted, module_of};
use brc_check::Refused;
use brc_explain::{
    Details, StepRows, details_of_fault, details_of_refusal, is_of_one_function, refusal_asked,
    refusal_of, steps_to,
};
use brc_lang::{Module, ReadFault, Sequence, one_reading};
use std::alloc::{AllocError, Global};

/// What is found of the module of a file.
#[derive(Drop)]
pub enum Finding<'a> {
    /// It is accepted.
    Accepted,
    /// The checker refuses it.
    Refused(Located),
    /// The text spells no module.
    Unreadable(Unreadable),
    /// The file gives no module, the module lacks the function that was asked for, or memory was refused.
    Stopped(Stop<'a>),
}

/// A refusal, how to find it in the text, and the module's other refusals.
#[derive(Drop)]
pub struct Located {
    pub refused: Refused,
    /// The line of the instruction at fault, counted from 1.
    pub line: Option<u64>,
    /// The steps that lead to the fault.
    pub steps: StepRows,
    /// What is said of it beside. No contract says what that is.
    pub details: Details,
    /// The refusals of the other functions that are refused.
    pub others: Sequence<Other>,
}

/// The refusal of another function than the one that is shown.
#[derive(Clone, Copy)]
pub struct Other {
    pub refused: Refused,
    /// The line of the instruction at fault, counted from 1.
    pub line: Option<u64>,
}

/// Why a text spells no module.
#[derive(Drop)]
pub struct Unreadable {
    pub fault: ReadFault,
    /// What is said of it beside. No contract says what that is.
    pub details: Details,
}

impl Finding<'_> {
    /// Returns the exit status of a command that finds this.
    pub fn status(&self) -> u8
        ensures known { result ≤ 3 }
        ensures exact { result ≡ finding_status self.now }
    {
        match self {
            Finding::Accepted => 0,
            Finding::Refused(_) => 1,
            Finding::Unreadable(_) => 2,
            Finding::Stopped(stop) => stop.status(),
        }
    }
}

/// Loads, reads and checks the module of the file, which has to have the function of this name, if one is given.
pub fn finding_of<'a, L: Load>(
    alloc: Global,
    file: &str,
    function: Option<&'a str>,
    load: &mut L,
) -> Finding<'a>
    ensures found { IsFinding (L.may_give load.old) (L.may_lack load.old) file.now
        (option_map (λ name. name.now) function.entry) result }
    ensures gives_no_more { (p bytes : List ℕ) → L.may_give load.new p bytes → L.may_give load.old p bytes }
    ensures lacks_no_more { (p : List ℕ) → L.may_lack load.new p → L.may_lack load.old p }
{
    let bytes = match load_module(alloc, file, load) {
        Ok(bytes) => bytes,
        Err(error) => return Finding::Stopped(Stop::from(error)),
    };
    match found_in(alloc, bytes.as_slice(), function) {
        Ok(finding) => finding,
        Err(stop) => Finding::Stopped(stop),
    }
}

/// Returns what is found of the module that the bytes spell, or why nothing is known of it.
fn found_in<'a>(
    alloc: Global,
    bytes: &[u8],
    function: Option<&'a str>,
) -> Result<Finding<'a>, Stop<'a>>
    ensures { MatchResult result (IsFoundIn bytes.now (option_map (λ name. name.now) function.entry))
        (λ stop. IsFoundIn bytes.now (option_map (λ name. name.now) function.entry) (Stopped stop)) }
{
    let module = match module_of(alloc, bytes) {
        Ok(module) => module,
        Err(StepFault::Text(fault)) => {
            return Ok(Finding::Unreadable(unread_text(alloc, bytes, fault)?));
        }
        Err(fault) => return Err(Stop::Fault(fault)),
    };
    let only = match number_asked(&module, function) {
        Ok(only) => only,
        Err(stop) => return Err(stop),
    };
    match accepted(alloc, module) {
        Ok(_checked) => Ok(Finding::Accepted),
        Err(StepFault::Refused(refused)) => {
            Ok(Finding::Refused(locate(alloc, bytes, &refused, only)?))
        }
        Err(_) => Err(Stop::Fault(StepFault::NoMemory)),
    }
}

fn unread_text(alloc: Global, bytes: &[u8], fault: ReadFault) -> Result<Unreadable, StepFault>
    ensures { MatchResult result (λ found. found.fault ≡ fault) (λ e. e ≡ MemoryRefused) }
{
    match details_of_fault(alloc, bytes, &fault) {
        Ok(details) => Ok(Unreadable { fault, details }),
        Err(_) => Err(StepFault::NoMemory),
    }
}

/// Locates the refusal of the function of this number, if it is refused, and otherwise the first one.
// The check has dropped the module, so the text is read again. It spells no other module.
fn locate(
    alloc: Global,
    bytes: &[u8],
    first: &Refused,
    only: Option<usize>,
) -> Result<Located, StepFault>
    requires { (m : Module) × Spells bytes.now m × IsRefusedFor m.functions first.now }
    ensures { MatchResult result (IsLocated bytes.now) (λ e. e ≡ MemoryRefused) }
{
    one_reading();
    let Ok(module) = module_of(alloc, bytes) else {
        return Err(StepFault::NoMemory);
    };
    let Ok(refused) = refusal_asked(alloc, &module, first, only) else {
        return Err(StepFault::NoMemory);
    };
    let line = line_of(&module, &refused);
    let Ok(steps) = steps_to(alloc, &module, &refused) else {
        return Err(StepFault::NoMemory);
    };
    let Ok(details) = details_of_refusal(alloc, &module, &refused, line) else {
        return Err(StepFault::NoMemory);
    };
    match others_of(alloc, &module, &refused) {
        Ok(others) => Ok(Located {
            refused,
            line,
            steps,
            details,
            others,
        }),
        Err(_) => Err(StepFault::NoMemory),
    }
}

/// Returns the refusals of the functions that are refused, but for the one that is shown.
fn others_of(alloc: Global, module: &Module, shown: &Refused) -> Result<Sequence<Other>, AllocError>
    requires { IsModule «module».now }
    ensures { IfOk result (AllByRecursion (IsOther «module».now)) }
{
    let mut others = Sequence::new(alloc);
    for number in 0..module.functions.len() {
        let found = other_of(alloc, module, shown, number)?;
        if let Some(other) = found {
            others.push(other)?;
        }
    }
    Ok(others)
}

/// Returns the refusal of the function of this number, if it is refused and isn't the one that is shown.
fn other_of(
    alloc: Global,
    module: &Module,
    shown: &Refused,
    number: usize,
) -> Result<Option<Other>, AllocError>
    requires { IsModule «module».now }
    ensures { IfOk result (λ found. IfSome found (IsOther «module».now)) }
{
    let Some(refused) = refusal_of(alloc, module, number)? else {
        return Ok(None);
    };
    if is_of_one_function(&refused, shown) {
        return Ok(None);
    }
    let line = line_of(module, &refused);
    Ok(Some(Other { refused, line }))
}

/// Returns the line of the instruction at fault, counted from 1, or `None` if no function has the name.
fn line_of(module: &Module, refused: &Refused) -> Option<u64>
    requires fits { IsModule «module».now }
    requires refusal { IsRefusedFor «module».now.functions refused.now }
    ensures { result ≡ line_of «module».now refused.now }
{
    let functions = module.functions.as_slice();
    let number = number_of(functions, refused.function.as_bytes())?;
    // Each function before has a heading and an `end`. The first line, the static lines and the function's own heading
    // come before, too.
    let top = module.statics.len() as u64;
    let above = top + instruction_count(&functions[..number]) + 2 * number as u64;
    Some(above + refused.at as u64 + 3)
}
