//! Infers the table of a module. Each point of a function is gone over once, in the order in which paths find them: the
//! first path that reaches a point gives it its state, and any other is compared with that state. The table keeps those
//! of the points where paths meet.

ghost use Rattle.std.specs.Prelude.{◌≡◌, ◌⊎◌, ◌<◌, ◌+◌, length, IfOk, OnOk, IfErr, MatchOption, MatchResult};
ghost use Rattle.brc_lang.specs.Grammar.{IsModule, IsFunction};
ghost use Rattle.brc_model.specs.Paths.{IsAcceptable, IsAcceptableFunction, follow, At};
ghost use Rattle.brc_model.specs.SlotStates.{entry_of};
ghost use Rattle.brc_check.specs.Entries.{StaysOn, IsBlocked};
ghost use Rattle.brc_check.specs.Filling.{entry_at, first_filling, settled_at, IsFilledTo, IsFilled, IsInferred, AreReached};
ghost use Rattle.brc_check.specs.Filling.{AreTrue};
ghost use Rattle.brc_check.specs.Refusal.{IsReported, IsForMemory, IsRefusal};
ghost use Rattle.brc_check.specs.Tables.{IsTrueTable};

use crate::entries::blocked;
use crate::filling::{Filling, first_filling, found_at, settle};
use crate::kept_entry::KeptEntry;
use crate::kept_points::{has_two_exits, keep};
use crate::refused::{CodeAt, Refused};
use crate::state::entry_of;
use crate::step::{Step, follow};
use crate::table::Table;
use brc_lang::{CheckCode, Function, Instr, Module, Name, Sequence};
use brc_model::{Exit, State};
use std::alloc::{AllocError, Global};

/// Follows one exit of a point. The state that it leaves becomes the entry of the target, or is compared with it.
fn lead(
    code: &[Instr],
    filling: &mut Filling,
    at: usize,
    state: &State,
    exit: Exit,
) -> Result<Option<CodeAt>, AllocError>
    requires within { at < length code.now }
    requires same_length { length filling.old.entries ≡ length code.now }
    ensures filled { IfOk result
        (λ reported. filling.new ≡ settled_at filling.old (follow code.now (At at state.now) exit)) }
    ensures reported { IfOk result (λ reported. MatchOption reported
        (StaysOn (entry_at filling.new.entries) (follow code.now (At at state.now) exit))
        (λ m. IsBlocked (entry_at filling.new.entries) (follow code.now (At at state.now) exit) m.at m.code)) }
{
    let led = follow(code, at, state, exit);
    if let Step::To(next, arriving) = &led {
        // The first path that reaches a point agrees with itself.
        if settle(filling, *next, *arriving)? {
            return Ok(None);
        }
    }
    Ok(blocked(filling.entries.as_slice(), at, &led))
}

/// Follows both exits of the point found at this turn, if there is one.
fn lead_on(
    function: &Function,
    filling: &mut Filling,
    turn: usize,
) -> Result<Option<CodeAt>, AllocError>
    requires { IsFilledTo function.now filling.old turn }
    ensures filled { IfOk result (λ reported. MatchOption reported (IsFilledTo function.now filling.new (turn + 1))
        (λ m. IsReported function.now m.at m.code)) }
    ensures reached { IfOk result (λ reported. AreReached function.now filling.new.entries) }
{
    let code = function.code.as_slice();
    let Some((at, state)) = found_at(filling, turn) else {
        return Ok(None);
    };
    if let Some(reported) = lead(code, filling, at, &state, Exit::Success)? {
        return Ok(Some(reported));
    }
    if !has_two_exits(&code[at]) {
        return Ok(None);
    }
    lead(code, filling, at, &state, Exit::Fault)
}

fn fill(function: &Function, filling: &mut Filling) -> Result<Option<CodeAt>, AllocError>
    requires some { 0 < length function.now.code }
    requires begun { filling.old ≡ first_filling (entry_of function.now.parameters) (length function.now.code) }
    ensures filled { IfOk result (λ reported. MatchOption reported (IsFilled function.now filling.new.entries)
        (λ m. IsReported function.now m.at m.code)) }
    ensures reached { IfOk result (λ reported. AreReached function.now filling.new.entries) }
{
    // No point is found twice, so there is a turn for each.
    for turn in 0..function.code.len() {
        if let Some(reported) = lead_on(function, filling, turn)? {
            return Ok(Some(reported));
        }
    }
    Ok(None)
}

fn no_memory(function: Name) -> Refused
    ensures { result ≡ record { function = function; at = 0; code = CheckCode.NoMemory } }
{
    Refused {
        function,
        at: 0,
        code: CheckCode::NoMemory,
    }
}

fn infer_function(alloc: Global, function: &Function) -> Result<Sequence<KeptEntry>, Refused>
    requires { IsFunction function.now }
    ensures { MatchResult result
        (λ kept. IsInferred function.now kept)
        (λ r. (r.function ≡ function.now.name) × (IsForMemory r ⊎ IsReported function.now r.at r.code)) }
{
    let code = function.code.as_slice();
    let entry = entry_of(function.parameters.as_slice());
    let Ok(mut filling) = first_filling(alloc, &entry, code.len()) else {
        return Err(no_memory(function.name));
    };
    match fill(function, &mut filling) {
        Err(_) => Err(no_memory(function.name)),
        Ok(Some(reported)) => Err(reported.in_function(function.name)),
        Ok(None) => match keep(alloc, code, filling.entries.as_slice()) {
            Err(_) => Err(no_memory(function.name)),
            Ok(kept) => Ok(kept),
        },
    }
}

/// Returns, for each point of the function, the state in which the first path reaches it, or `None` if none does. If a
/// path reports an error, or reaches a point in a second state, the points that only later paths find have none.
pub fn first_states(
    alloc: Global,
    function: &Function,
) -> Result<Sequence<Option<State>>, AllocError>
    requires { 0 < length function.now.code }
    ensures reached { IfOk result (AreReached function.now) }
    // In a function that is accepted, no point that a path reaches is left out.
    ensures truth { IsAcceptableFunction function.now → IfOk result (AreTrue function.now) }
{
    let entry = entry_of(function.parameters.as_slice());
    let mut filling = first_filling(alloc, &entry, function.code.len())?;
    // The error, if there is one, is for `infer` to report.
    let _reported = fill(function, &mut filling)?;
    Ok(filling.entries)
}

/// Returns the table of an acceptable module, or the first error that it finds. Memory that is refused is `NoMemory`.
pub fn infer(alloc: Global, module: &Module) -> Result<Table, Refused>
    requires { IsModule «module».now }
    ensures table { IfOk result (λ t. IsTrueTable «module».now t) }
    ensures acceptable { OnOk result (IsAcceptable «module».now) }
    ensures refused { IfErr result (λ r. IsRefusal «module».now.functions r) }
    // An acceptable module is refused only if memory is.
    ensures complete { IsAcceptable «module».now → IfErr result IsForMemory }
{
    let mut lists = Vec::new(alloc);
    for function in module.functions.as_slice() {
        let kept = infer_function(alloc, function)?;
        if let Err(_) = lists.push(kept) {
            return Err(no_memory(function.name));
        }
    }
    Ok(Table::new(lists))
}
