//! The check of a module against a given table.

ghost use Rattle.std.specs.Prelude.{◌≡◌, ◌↔◌, ◌<◌, ◌≤◌, ◌+◌, ℕ, length, map, slice_get, None, Some, IsTrue, IfOk, OnOk};
ghost use Rattle.std.specs.Prelude.{if◌then◌else◌};
ghost use Rattle.std.specs.Prelude.{IfErr, IsErrAnd, IsOk, MatchOption, MatchResult};
ghost use Rattle.std.specs.List.{AllByRecursion};
ghost use Rattle.brc_lang.specs.declared.module.Function.{Function};
ghost use Rattle.brc_lang.specs.Grammar.{IsModule, IsFunction};
ghost use Rattle.brc_lang.specs.Limits.{instruction_limit};
ghost use Rattle.brc_model.specs.declared.state.Exit.TheVariants as exits;
ghost use Rattle.brc_model.specs.Paths.{At, IsAcceptable, follow};
ghost use Rattle.brc_model.specs.Safety.{Safe};
ghost use Rattle.brc_check.specs.Entries.{end_in, IsClosedAt, IsClosed, IsErrorAt};
ghost use Rattle.brc_check.specs.Lookups.{AreNumbers, LeadsWithin, MeetsKept, IsBlockedKept, HasState};
ghost use Rattle.brc_check.specs.Refusal.{IsShapeError, IsFunctionError, IsTableError};
ghost use Rattle.brc_check.specs.Tables.{HasShape, IsTrueTable, IsTrueWhereReached, entries_of, kept_at, kept_or};
ghost use Rattle.brc_check.specs.Tables.{kept_points, passed, point_of, state_at};

use crate::checked::Checked;
use crate::kept_entry::KeptEntry;
use crate::kept_points::{POINTS, has_points, has_two_exits};
use crate::point_states::numbers_of;
use crate::refused::{CodeAt, Refused};
use crate::state::{entry_of, same_state};
use crate::step::{StepEnd, advance};
use crate::table::Table;
use brc_lang::{CheckCode, Function, Instr, Module, Sequence};
use brc_model::{Exit, State, accepted_is_safe};

fn is_entry(state: &Option<State>, arriving: &State) -> bool
    ensures { IsTrue result ↔ (state.now ≡ Some arriving.now) }
{
    match state {
        None => false,
        Some(found) => same_state(found, arriving),
    }
}

/// Compares the state in which a step ends with the entry of the point to which it leads, if that point is kept.
fn end_error(
    kept: &[KeptEntry],
    numbers: &[Option<usize>; POINTS],
    at: usize,
    end: StepEnd,
    state: &State,
) -> Option<CodeAt>
    requires numbers { AreNumbers kept.now numbers.now }
    requires within { LeadsWithin instruction_limit (end_in at end state.now) }
    ensures { MatchOption result (MeetsKept kept.now (end_in at end state.now))
        (λ m. IsBlockedKept kept.now (end_in at end state.now) m.at m.code) }
{
    match end {
        StepEnd::Ends => None,
        StepEnd::Error(code) => Some(CodeAt { at, code }),
        StepEnd::To(next) => {
            // No other way leads to a point that isn't kept.
            let number = numbers[next]?;
            if is_entry(&kept[number].state, state) {
                return None;
            }
            Some(CodeAt {
                at: next,
                code: CheckCode::StatesDiffer,
            })
        }
    }
}

/// Makes what the point before has passed on the state of this point: if it is kept, that of its entry.
fn enter(kept: &[KeptEntry], numbers: &[Option<usize>; POINTS], at: usize, here: &mut Option<State>)
    requires numbers { AreNumbers kept.now numbers.now }
    requires within { at < instruction_limit }
    ensures { here.new ≡ kept_or (kept_at kept.now at) here.old }
{
    if let Some(number) = numbers[at] {
        *here = kept[number].state;
    }
}

/// Compares what the fault exit leaves with the entry to which it leads.
fn fault_error(
    code: &[Instr],
    kept: &[KeptEntry],
    numbers: &[Option<usize>; POINTS],
    at: usize,
    state: &State,
) -> Option<CodeAt>
    requires numbers { AreNumbers kept.now numbers.now }
    requires most { length code.now ≤ instruction_limit }
    requires within { at < length code.now }
    ensures { MatchOption result (MeetsKept kept.now (follow code.now (At at state.now) exits.Fault))
        (λ m. IsBlockedKept kept.now (follow code.now (At at state.now) exits.Fault) m.at m.code) }
{
    let mut faulted = *state;
    let end = advance(code, at, &mut faulted, Exit::Fault);
    end_error(kept, numbers, at, end, &faulted)
}

/// Compares what the success exit leaves with the entry to which it leads, and passes the state on to the next point.
fn pass_on(
    code: &[Instr],
    kept: &[KeptEntry],
    numbers: &[Option<usize>; POINTS],
    at: usize,
    state: &mut State,
) -> Result<bool, CodeAt>
    requires numbers { AreNumbers kept.now numbers.now }
    requires most { length code.now ≤ instruction_limit }
    requires within { at < length code.now }
    ensures { MatchResult result
        (λ on. MeetsKept kept.now (follow code.now (At at state.old) exits.Success)
        × (passed code.now at (Some state.old) ≡ (if on then Some state.new else None)))
        (λ m. IsBlockedKept kept.now (follow code.now (At at state.old) exits.Success) m.at m.code) }
{
    let end = advance(code, at, state, Exit::Success);
    // Where a path falls through to a kept point, its state is compared too: other paths go on from the entry.
    if let Some(reported) = end_error(kept, numbers, at, end, state) {
        return Err(reported);
    }
    Ok(match end {
        StepEnd::To(next) => next == at + 1,
        StepEnd::Ends | StepEnd::Error(_) => false,
    })
}

/// Compares the exits of a point with the entries to which they lead. What the point before has passed on to this one
/// becomes what this one passes on to the next.
fn go_on(
    function: &Function,
    kept: &[KeptEntry],
    numbers: &[Option<usize>; POINTS],
    at: usize,
    here: &mut Option<State>,
) -> Option<CodeAt>
    requires numbers { AreNumbers kept.now numbers.now }
    requires most { length function.now.code ≤ instruction_limit }
    requires points { map point_of kept.now ≡ kept_points function.now.code }
    requires within { at < length function.now.code }
    requires here { HasState function.now.code kept.now at here.old }
    ensures { MatchOption result
        (HasState function.now.code kept.now (at + 1) here.new
        × IsClosedAt function.now.code (state_at function.now.code kept.now) at)
        (λ m. IsErrorAt function.now (state_at function.now.code kept.now) m.at m.code) }
{
    let code = function.code.as_slice();
    enter(kept, numbers, at, here);
    let Some(state) = here else {
        return None;
    };
    if has_two_exits(&code[at]) {
        if let Some(reported) = fault_error(code, kept, numbers, at, state) {
            return Some(reported);
        }
    }
    match pass_on(code, kept, numbers, at, state) {
        Err(reported) => Some(reported),
        Ok(on) => {
            if !on {
                *here = None;
            }
            None
        }
    }
}

fn function_error(function: &Function, kept: &[KeptEntry]) -> Option<CodeAt>
    requires some { 0 < length function.now.code }
    requires most { length function.now.code ≤ instruction_limit }
    requires points { map point_of kept.now ≡ kept_points function.now.code }
    ensures { MatchOption result (IsClosed function.now (state_at function.now.code kept.now))
        (λ m. IsErrorAt function.now (state_at function.now.code kept.now) m.at m.code) }
{
    let numbers = numbers_of(kept);
    let entry = entry_of(function.parameters.as_slice());
    if let Some(reported) = end_error(kept, &numbers, 0, StepEnd::To(0), &entry) {
        return Some(reported);
    }
    let mut here = None;
    for at in 0..function.code.len() {
        if let Some(reported) = go_on(function, kept, &numbers, at, &mut here) {
            return Some(reported);
        }
    }
    None
}

fn has_shape(functions: &[Function], lists: &[Sequence<KeptEntry>]) -> bool
    requires { AllByRecursion IsFunction functions.now }
    ensures { IsTrue result ↔ HasShape functions.now lists.now }
{
    if lists.len() != functions.len() {
        return false;
    }
    for (number, function) in functions.iter().enumerate() {
        if !has_points(function.code.as_slice(), lists[number].as_slice()) {
            return false;
        }
    }
    true
}

fn first_error(functions: &[Function], lists: &[Sequence<KeptEntry>]) -> Option<Refused>
    requires fit { AllByRecursion IsFunction functions.now }
    requires shape { HasShape functions.now lists.now }
    ensures { MatchOption result
        ((number : ℕ) (f : Function) → slice_get functions.now number ≡ Some f
        → IsClosed f (state_at f.code (entries_of lists.now number)))
        (λ r. IsFunctionError functions.now lists.now r) }
{
    for (number, function) in functions.iter().enumerate() {
        if let Some(reported) = function_error(function, lists[number].as_slice()) {
            return Some(reported.in_function(function.name));
        }
    }
    None
}

fn table_error(functions: &[Function], lists: &[Sequence<KeptEntry>]) -> Option<Refused>
    requires some { 0 < length functions.now }
    requires fit { AllByRecursion IsFunction functions.now }
    ensures { MatchOption result
        (HasShape functions.now lists.now × ((number : ℕ) (f : Function) → slice_get functions.now number ≡ Some f
        → IsClosed f (state_at f.code (entries_of lists.now number))))
        (λ r. IsTableError functions.now lists.now r) }
{
    if !has_shape(functions, lists) {
        return Some(Refused {
            function: functions[0].name,
            at: 0,
            code: CheckCode::StatesDiffer,
        });
    }
    first_error(functions, lists)
}

/// Accepts the module if the table's states follow from one another by its instructions. The table may come from
/// anywhere and isn't trusted. A refusal drops both.
pub fn verify(module: Module, table: Table) -> Result<Checked, Refused>
    requires { IsModule «module» }
    ensures accepted { IfOk result (λ c. c.module ≡ «module») }
    ensures table { IfOk result (λ c. c.table ≡ table) }
    ensures acceptable { OnOk result (IsAcceptable «module») }
    ensures safe { OnOk result (Safe «module») }
    ensures truth { OnOk result (IsTrueWhereReached «module» table) }
    // A table of another shape is refused at the first point of the first function.
    ensures shape { (HasShape «module».functions table → ⊥) → IsErrAnd result
        (λ r. IsShapeError «module».functions table r) }
    ensures complete { IsAcceptable «module» → IsTrueTable «module» table → IsOk result }
    ensures refused { IfErr result (λ r. IsTableError «module».functions table r) }
{
    match table_error(module.functions.as_slice(), table.lists()) {
        Some(refused) => Err(refused),
        None => {
            // The call does nothing: it brings the law into the proof.
            accepted_is_safe();
            Ok(Checked::new(module, table))
        }
    }
}
