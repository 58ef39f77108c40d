//! A worker's call of a function, instruction after instruction.

ghost use Rattle.std.specs.Prelude.{◌≡◌, ℕ, ◌<◌, List, true, Some, [], length, slice_get};
ghost use Rattle.brc_lang.specs.Grammar.{IsInstruction};
ghost use Rattle.brc_lang.specs.declared.module.Instr.TheVariants.{Call};
ghost use Rattle.brc_lang.specs.declared.parameter.Argument.{Argument};
ghost use Rattle.brc_model.specs.Threads.{function_at};
ghost use Rattle.brc_table.specs.Hands.{IsOf};
ghost use Rattle.brc_model.specs.Tables.{Reaches};
ghost use Rattle.brc_model.specs.declared.state.State.{State};
ghost use Rattle.brc_work.specs.Calls.{IsChecked, IsReached, MayBegin, EndsAs, GoesOn, HasCalled, stays_in_call};
ghost use Rattle.brc_work.specs.Fits.{MayDo, HasDone, IsReady, IsHeapOf, LayoutAllows};
ghost use Rattle.brc_work.specs.Performs.{PerformsAt, StepsTo};
ghost use Rattle.brc_work.specs.Runs.{Runs, CallsOnce};
ghost use Rattle.brc_work.specs.Totals.{Asked};
ghost use Rattle.brc_work.specs.Traces.{program_of};

use crate::end::End;
use crate::totals::Totals;
use crate::turns::{NO_TURNS, Turns, again};
use crate::variables::{Variables, keep, name, passed, row_in};
use crate::worker::Worker;
use brc_check::{Checked, apply, target_of};
use brc_free::Finaliser;
use brc_heap::{Hand, ROOT};
use brc_host::Host;
use brc_lang::{Instr, Variable};
use brc_model::{Exit, State};
use std::sync::Wait;

/// Returns the code of the accepted module's function with this number.
fn code_of(checked: &Checked, function: usize) -> &[Instr]
    requires { function < length checked.now.module.functions }
    ensures accepted { IsChecked (function_at checked.now.module.functions function) }
    ensures value { result.now ≡ (function_at checked.now.module.functions function).code }
{
    checked.module().functions.as_slice()[function]
        .code
        .as_slice()
}

/// Returns the instruction at the point.
fn instruction_at(code: &[Instr], at: usize) -> &Instr
    requires { at < length code.now }
    ensures { slice_get code.now at ≡ Some result.now }
{
    &code[at]
}

/// Returns the number of the function that the instruction at the point calls: of one above.
fn callee_at(checked: &Checked, function: usize, at: usize, callee: u8) -> usize
    requires function { function < length checked.now.module.functions }
    requires calls { (to : ℕ) × (arguments : List Argument) × (otherwise : ℕ)
        × (slice_get (function_at checked.now.module.functions function).code at
        ≡ Some (Call to callee arguments otherwise)) }
    ensures value { result ≡ callee }
    ensures above { result < function }
{
    checked.states_are_true();
    usize::from(callee)
}

/// Returns the state in which paths reach the point of the function, by the module's table.
fn state_at(checked: &Checked, function: usize, at: usize) -> State
    requires function { function < length checked.now.module.functions }
    requires reached { IsReached (function_at checked.now.module.functions function) at }
    ensures { (s : State) → Reaches (function_at checked.now.module.functions function) at s → result ≡ s }
{
    checked.states_are_true();
    let Some(state) = checked.entry(function, at) else {
        unreachable!()
    };
    state
}

impl<'h, T: Drop> Worker<'h, T> {
    /// Makes an outermost call of the function, and gives up what it returns. Returns whether the call has ended; else
    /// the worker has stopped in it. `left` is how many instructions the worker may begin, at least one. The hand holds
    /// afterwards what it held before.
    pub(crate) fn call_from_outside<R: Wait, H: Host<Res = T>>(
        &self,
        rt: &R,
        checked: &Checked,
        function: usize,
        left: &mut u64,
        hand: &mut Hand<T>,
        host: &mut H,
        totals: &mut Totals,
    ) -> bool
        requires function { function < length checked.now.module.functions }
        requires parameters { (function_at checked.now.module.functions function).parameters ≡ [] }
        requires heap { IsHeapOf checked.now.module self.now }
        requires some { 0 < left.old }
        requires of { IsOf self.now hand.old }
        requires ready { IsReady hand.old }
        ensures of { IsOf self.now hand.new }
        ensures called { HasCalled hand.old hand.new }
        ensures asked { Asked H.answers H.counts host.old host.new totals.old totals.new
            (λ calls. CallsOnce (program_of checked.now.module function) left.old left.new result calls hand.old.view
            hand.new.view) }
    {
        checked.states_are_true();
        let mut rows: Variables = [None; Variable::COUNT];
        name(&mut rows, Variable::new(0), Some(ROOT));
        match self.call(rt, checked, function, left, &rows, hand, host, totals) {
            End::Returned(row) => {
                self.release(rt, hand, host, totals, row);
                true
            }
            End::Failed => true,
            // The open calls have given up what they owned, one after the other. What has died by that is finalised
            // once, behind the last of them.
            End::Stopped => {
                let failed = Finaliser::new(self.heap, self.queue).settle(rt, hand, host);
                totals.count_close_faults(failed);
                false
            }
        }
    }

    /// Makes a call of the function, whose variables first name the rows of `entry`. Returns how it has ended. `left`
    /// is how many instructions the worker may begin; the worker stops where it may begin none.
    ///
    /// A call that the function makes is a call of this, of a function above: so calls come to an end, and no memory is
    /// taken.
    fn call<R: Wait, H: Host<Res = T>>(
        &self,
        rt: &R,
        checked: &Checked,
        function: usize,
        left: &mut u64,
        entry: &Variables,
        hand: &mut Hand<T>,
        host: &mut H,
        totals: &mut Totals,
    ) -> End
        requires function { function < length checked.now.module.functions }
        requires heap { IsHeapOf checked.now.module self.now }
        requires may { MayBegin self.now (function_at checked.now.module.functions function) function entry.now
            hand.old }
        ensures of { IsOf self.now hand.new }
        ensures ends { EndsAs (function_at checked.now.module.functions function) function result entry.now hand.old
            hand.new }
        ensures asked { Asked H.answers H.counts host.old host.new totals.old totals.new
            (λ calls. Runs checked.now.module.functions function entry.now left.old left.new result calls
            hand.old.view hand.new.view) }
    {
        checked.states_are_true();
        let code = code_of(checked, function);
        let mut rows = *entry;
        let mut turns = NO_TURNS;
        let mut at = 0;
        for _ in rt.forever() {
            if *left == 0 {
                let state = state_at(checked, function, at);
                self.stop(rt, &state, &mut rows, hand);
                return End::Stopped;
            }
            *left -= 1;
            let instr = instruction_at(code, at);
            match *instr {
                Instr::Ret { from } => return End::Returned(row_in(&rows, from)),
                Instr::Fail => return End::Failed,
                Instr::Call {
                    to,
                    callee,
                    arguments,
                    otherwise,
                } => {
                    let inner = passed(&rows, arguments.as_slice());
                    keep(&mut rows, arguments.as_slice(), to);
                    let number = callee_at(checked, function, at, callee);
                    match self.call(rt, checked, number, left, &inner, hand, host, totals) {
                        End::Returned(row) => {
                            name(&mut rows, to, Some(row));
                            at += 1;
                        }
                        End::Failed => at = usize::from(otherwise),
                        // What the call still owns is what it owns where its instruction faults.
                        End::Stopped => {
                            let mut state = state_at(checked, function, at);
                            apply(*instr, Exit::Fault, &mut state);
                            self.give_up_owned(rt, &state, &mut rows, hand);
                            return End::Stopped;
                        }
                    }
                }
                _ => at = self.step(rt, instr, at, &mut turns, &mut rows, hand, host, totals),
            }
        }
        unreachable!()
    }

    /// Does the instruction at the point, which stays in its call. Returns the next point.
    fn step<R: Wait, H: Host<Res = T>>(
        &self,
        rt: &R,
        instr: &Instr,
        at: usize,
        turns: &mut Turns,
        rows: &mut Variables,
        hand: &mut Hand<T>,
        host: &mut H,
        totals: &mut Totals,
    ) -> usize
        requires may { MayDo self.now instr.now rows.old hand.old }
        requires form { IsInstruction instr.now }
        requires allowed { LayoutAllows self.now.layout instr.now }
        requires stays { stays_in_call instr.now ≡ true }
        requires low { at < 256 }
        ensures of { IsOf self.now hand.new }
        ensures goes { GoesOn instr.now at rows.old hand.old result rows.new hand.new }
        ensures asked { Asked H.answers H.counts host.old host.new totals.old totals.new
            (λ calls. StepsTo calls instr.now at turns.old rows.old hand.old.view result turns.new rows.new
            hand.new.view) }
    {
        let exit = self.perform(rt, *instr, at, turns, rows, hand, host, totals);
        let Some(next) = target_of(*instr, exit, at) else {
            unreachable!()
        };
        next
    }

    /// Does an instruction that stays in its call. Returns by which exit.
    fn perform<R: Wait, H: Host<Res = T>>(
        &self,
        rt: &R,
        instr: Instr,
        at: usize,
        turns: &mut Turns,
        rows: &mut Variables,
        hand: &mut Hand<T>,
        host: &mut H,
        totals: &mut Totals,
    ) -> Exit
        requires may { MayDo self.now instr rows.old hand.old }
        requires form { IsInstruction instr }
        requires allowed { LayoutAllows self.now.layout instr }
        requires stays { stays_in_call instr ≡ true }
        ensures of { IsOf self.now hand.new }
        ensures done { HasDone instr result rows.old hand.old rows.new hand.new }
        ensures asked { Asked H.answers H.counts host.old host.new totals.old totals.new
            (λ calls. PerformsAt calls at instr result turns.old rows.old hand.old.view turns.new rows.new
            hand.new.view) }
    {
        match instr {
            Instr::Num {
                to,
                value,
                otherwise,
            } => self.num(rows, hand, to, value, otherwise),
            Instr::List {
                to,
                cells,
                otherwise,
            } => self.list(rows, hand, to, cells, otherwise),
            Instr::NoneObject { to } => {
                self.none(rows, hand, to);
                Exit::Success
            }
            Instr::Take { to, list } => {
                self.take(rows, hand, to, list);
                Exit::Success
            }
            Instr::Newref { to, from } => {
                self.newref(rows, hand, to, from);
                Exit::Success
            }
            Instr::Move { to, from } => {
                self.hand_on(rows, hand, to, from);
                Exit::Success
            }
            Instr::Drop { from } => {
                self.give_up(rt, rows, hand, host, totals, from);
                Exit::Success
            }
            Instr::Lock { object } => {
                self.lock(rt, rows, hand, object);
                Exit::Success
            }
            Instr::Unlock { object } => {
                self.unlock(rows, hand, object);
                Exit::Success
            }
            Instr::Borrow {
                to,
                list,
                index,
                otherwise,
            } => self.borrow(rows, hand, to, list, index, otherwise),
            Instr::Fetch {
                to,
                list,
                index,
                otherwise,
            } => self.fetch(rows, hand, to, list, index, otherwise),
            Instr::Set {
                list,
                index,
                from,
                otherwise,
            } => { self.set(rt, rows, hand, host, totals, list, index, from, otherwise) }
            Instr::Put {
                list,
                index,
                from,
                otherwise,
            } => { self.put(rt, rows, hand, host, totals, list, index, from, otherwise) }
            Instr::Open {
                to,
                path,
                mode,
                otherwise,
            } => { self.open(rows, hand, host, totals, to, path, mode, otherwise) }
            Instr::Connect {
                to,
                peer,
                otherwise,
            } => self.connect(rows, hand, host, totals, to, peer, otherwise),
            Instr::Read {
                to,
                file,
                most,
                otherwise,
            } => { self.read(rows, hand, host, totals, to, file, most, otherwise) }
            Instr::Write {
                file,
                number,
                otherwise,
            } => { self.write(rows, hand, host, totals, file, number, otherwise) }
            Instr::As {
                from,
                kind,
                otherwise,
            } => self.is_of_kind(rows, hand, from, kind, otherwise),
            Instr::Again { times, .. } => again(turns, at, times),
            // `goto` has one exit.
            Instr::Goto { .. } => Exit::Success,
            Instr::Call { .. } | Instr::Ret { .. } | Instr::Fail => unreachable!(),
        }
    }
}
