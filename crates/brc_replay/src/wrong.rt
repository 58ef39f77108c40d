//! Runs that go wrong.

ghost use Rattle.std.specs.Prelude.{◌≡◌, ◌<◌, ◌≤◌, true, map, IfOk};
ghost use Rattle.brc_lang.specs.Grammar.{IsModule};
ghost use Rattle.brc_model.specs.Limits.{row_limit};
ghost use Rattle.brc_model.specs.Safety.{AreCalls};
ghost use Rattle.brc_plain.specs.Plains.{machine_in};
ghost use Rattle.brc_replay.specs.WrongRuns.{event_in, goes_on, AreTaken, GoWrong, HasLeak, IsWrongRun};
ghost use Rattle.brc_replay.specs.WrongRuns.{WrongRunsShow};

use crate::event::Event;
use brc_lang::Module;
use brc_model::{Call, Choice};
use brc_plain::{Plain, Refused};
use std::alloc::Global;

/// Says whether the choice is another one than that the thread stops.
fn goes_on(choice: Choice) -> bool
    ensures { result ≡ goes_on choice }
{
    !matches!(choice, Choice::Stop)
}

/// Returns whether the events are a run of the module that goes wrong, with `rows` rows for each worker and these
/// calls: the last event is bad, or all threads are gone after it and an object is lost. That the answer is no says
/// nothing of the module.
pub fn goes_wrong(
    alloc: Global,
    module: &Module,
    rows: u16,
    calls: &[Call],
    events: &[Event],
) -> Result<bool, Refused>
    requires fits { IsModule «module».now }
    requires some_rows { 0 < rows }
    requires most_rows { rows ≤ row_limit }
    requires calls_fit { AreCalls «module».now calls.now }
    ensures { IfOk result (λ wrong. wrong ≡ true
        → IsWrongRun «module».now rows calls.now (map event_in events.now)) }
{
    let mut plain = Plain::first(alloc, module, rows, calls)?;
    go_wrong(alloc, &mut plain, events)
}

/// Returns whether the events, from this machine on, go wrong. Their steps are taken up to the last or to a stop.
fn go_wrong(alloc: Global, plain: &mut Plain<'_>, events: &[Event]) -> Result<bool, Refused>
    ensures { IfOk result (λ wrong. wrong ≡ true → GoWrong (machine_in plain.old) (map event_in events.now)) }
{
    let Some((last, before)) = events.split_last() else {
        return Ok(false);
    };
    if !goes_on(last.choice) || !replay(alloc, plain, before)? {
        return Ok(false);
    }
    if plain.is_bad(alloc, last.thread, last.choice)? {
        return Ok(true);
    }
    plain.step(alloc, last.thread, last.choice)?;
    Ok(leaks(plain))
}

/// Takes the steps of the events up to the first at which a thread stops, and returns whether no thread stops.
fn replay(alloc: Global, plain: &mut Plain<'_>, events: &[Event]) -> Result<bool, Refused>
    ensures { IfOk result (λ on. on ≡ true → AreTaken (machine_in plain.old) (map event_in events.now)
        (machine_in plain.new)) }
{
    for event in events {
        if !goes_on(event.choice) {
            return Ok(false);
        }
        plain.step(alloc, event.thread, event.choice)?;
    }
    Ok(true)
}

/// Returns whether all threads are gone and an object is lost.
fn leaks(plain: &Plain<'_>) -> bool
    ensures { result ≡ true → HasLeak (machine_in plain.now) }
{
    if !plain.has_ended() {
        return false;
    }
    match plain.lost() {
        Some(_row) => true,
        None => false,
    }
}

/// A module with a wrong run isn't safe.
pub fn wrong_runs_show()
    ensures { WrongRunsShow }
{}
