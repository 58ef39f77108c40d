//! The search for a run that goes wrong. Nothing is claimed of how it looks: a run that it finds is replayed.

ghost use Rattle.std.specs.Prelude.{◌≡◌, ◌<◌, ◌≤◌, map, None, IfOk, IfSome};
ghost use Rattle.brc_lang.specs.Grammar.{IsModule};
ghost use Rattle.brc_model.specs.Limits.{row_limit};
ghost use Rattle.brc_model.specs.Safety.{AreCalls};
ghost use Rattle.brc_replay.specs.WrongRuns.{event_in, IsWrongRun};

use brc_lang::{Instr, Module};
use brc_model::{Call, Choice};
use brc_plain::{Plain, Refused};
use brc_replay::{Event, goes_wrong};
use std::alloc::Global;
use std::collections::{HashSet, VecDeque};

/// How many states between two progress reports.
const STATES_BETWEEN: usize = 256;

/// Which threads may take the next step.
#[derive(Clone, Copy)]
pub enum Order {
    /// The workers; main, once they are gone.
    WorkersFirst,
    /// All threads, at any time.
    Any,
}

/// Who waits for a search.
pub trait Watch {
    /// Hears how many states the search has visited, and says whether it is to go on.
    fn visited(&mut self, states: usize) -> bool;

    /// Hears that a search has ended, and whether it had room for each state that it came to.
    fn ended(&mut self, had_room: bool);

    /// Hears that the search has come past a `borrow` or a `fetch`: by which exit, of which instruction of which
    /// function.
    fn read_item(&mut self, read: ItemRead);
}

/// An exit of a `borrow` or a `fetch`, whose two exits lead to different instructions.
#[derive(Clone, Copy, PartialEq, Eq)]
pub struct ItemRead {
    /// The function's number.
    pub function: usize,
    /// The instruction's number.
    pub at: usize,
    /// Whether there was an item.
    pub found: bool,
}

/// What a search has found.
#[derive(Drop)]
pub struct Found {
    /// A run that goes wrong.
    pub events: Option<Vec<Event>>,
    /// The number of states that the search has visited.
    pub states: usize,
}

/// Looks for a run of the module that goes wrong, with `rows` rows for each worker and these calls, among this number
/// of states. The shortest runs are looked at first.
pub fn find<W: Watch>(
    alloc: Global,
    module: &Module,
    rows: u16,
    calls: &[Call],
    order: Order,
    states: usize,
    watch: &mut W,
) -> Result<Found, Refused>
    requires fits { IsModule «module».now }
    requires some_rows { 0 < rows }
    requires most_rows { rows ≤ row_limit }
    requires calls_fit { AreCalls «module».now calls.now }
    ensures { IfOk result (λ found. IfSome found.events (λ events.
        IsWrongRun «module».now rows calls.now (map event_in events.items))) }
{
    let Found { events, states } = search(alloc, module, rows, calls, order, states, watch)?;
    let Some(events) = events else {
        return Ok(none_in(states));
    };
    if !goes_wrong(alloc, module, rows, calls, events.as_slice())? {
        return Ok(none_in(states));
    }
    Ok(Found {
        events: Some(events),
        states,
    })
}

/// Returns a run that looks wrong, if there is one among this number of states.
fn search<W: Watch>(
    alloc: Global,
    module: &Module,
    rows: u16,
    calls: &[Call],
    order: Order,
    states: usize,
    watch: &mut W,
) -> Result<Found, Refused>
    requires fits { IsModule «module».now }
    requires some_rows { 0 < rows }
    requires most_rows { rows ≤ row_limit }
    requires calls_fit { AreCalls «module».now calls.now }
{
    let first = Plain::first(alloc, module, rows, calls)?;
    let mut search = States::new(alloc, module, states);
    let found = search.look(first, order, watch);
    watch.ended(!search.is_cut);
    for read in search.reads.as_slice() {
        watch.read_item(*read);
    }
    found
}

/// How the search has come to a state: by an event of an earlier one.
#[derive(Clone, Copy)]
struct Step {
    /// The number of the earlier state.
    earlier: usize,
    thread: usize,
    faults: bool,
}

impl Step {
    fn choice(self) -> Choice {
        if self.faults {
            Choice::Fault
        } else {
            Choice::Ok
        }
    }

    fn event(self) -> Event {
        Event {
            thread: self.thread,
            choice: self.choice(),
        }
    }
}

/// The states of a search.
#[derive(Drop)]
struct States<'a> {
    alloc: Global,
    module: &'a Module,
    /// The most states.
    most: usize,
    /// How the search has come to each state, in the order in which it has.
    steps: Vec<Step>,
    /// The machines of the latest states, whose events are still to be looked at.
    waiting: VecDeque<Plain<'a>>,
    /// The keys of all states.
    seen: HashSet<u64>,
    /// Whether there was no room for a further state.
    is_cut: bool,
    /// How items were read, each once.
    reads: Vec<ItemRead>,
}

// Each drop of a machine costs the prover seconds. So few functions own one, and these have few returns.
impl<'a> States<'a> {
    fn new(alloc: Global, module: &'a Module, most: usize) -> States<'a> {
        States {
            alloc,
            module,
            most,
            steps: Vec::new(alloc),
            waiting: VecDeque::new(alloc),
            seen: HashSet::new(alloc),
            is_cut: false,
            reads: Vec::new(alloc),
        }
    }

    /// Looks at the machine before any step, and at those behind it, in the order in which the search comes to them.
    /// Returns a run that goes wrong, if there is one.
    fn look<W: Watch>(
        &mut self,
        first: Plain<'a>,
        order: Order,
        watch: &mut W,
    ) -> Result<Found, Refused> {
        self.come_to(
            first,
            Step {
                earlier: 0,
                thread: 0,
                faults: false,
            },
        )?;
        for number in 0..self.most {
            if number % STATES_BETWEEN == STATES_BETWEEN - 1 && !watch.visited(number) {
                return Ok(none_in(number));
            }
            let Some(plain) = self.waiting.pop_front() else {
                return Ok(none_in(number));
            };
            if let Some(last) = self.look_from(plain, number, order)? {
                return Ok(Found {
                    events: Some(self.path(number, last)?),
                    states: number,
                });
            }
        }
        Ok(none_in(self.most))
    }

    /// Keeps the machine, if it is another one than those so far, and there is room for it.
    fn come_to(&mut self, plain: Plain<'a>, step: Step) -> Result<(), Refused> {
        if self.steps.len() >= self.most {
            self.is_cut = self.is_cut || !self.seen.contains(&plain.key());
        } else if self.seen.insert(plain.key())? {
            self.steps.push(step)?;
            self.waiting.push_back(plain)?;
        }
        Ok(())
    }

    /// Looks at each step from the machine, which is the state of this number. Returns the step with which a run goes
    /// wrong, if there is one.
    fn look_from(
        &mut self,
        plain: Plain<'a>,
        number: usize,
        order: Order,
    ) -> Result<Option<Step>, Refused> {
        self.look_at_all(&plain, number, order)
    }

    fn look_at_all(
        &mut self,
        plain: &Plain<'a>,
        number: usize,
        order: Order,
    ) -> Result<Option<Step>, Refused> {
        for thread in 0..plain.threads() {
            if may_go(plain, thread, order) {
                let last = self.look_at(plain, number, thread)?;
                if last.is_some() {
                    return Ok(last);
                }
            }
        }
        Ok(None)
    }

    /// Looks at the thread's next step, by both exits if it is a host call or a close.
    fn look_at(
        &mut self,
        plain: &Plain<'a>,
        number: usize,
        thread: usize,
    ) -> Result<Option<Step>, Refused> {
        let step = Step {
            earlier: number,
            thread,
            faults: false,
        };
        let wrong = self.look_by(plain, step)?;
        if wrong.is_some() || !plain.asks_host(self.alloc, thread)? {
            return Ok(wrong);
        }
        self.look_by(
            plain,
            Step {
                faults: true,
                ..step
            },
        )
    }

    /// Takes the step. Returns it if a run goes wrong with it, and otherwise keeps the machine behind it. One whose
    /// numbers are too large isn't looked at.
    fn look_by(&mut self, plain: &Plain<'a>, step: Step) -> Result<Option<Step>, Refused> {
        match self.take(plain, step) {
            Err(Refused::OutOfBounds) => Ok(None),
            wrong => wrong,
        }
    }

    fn take(&mut self, plain: &Plain<'a>, step: Step) -> Result<Option<Step>, Refused> {
        if plain.is_bad(self.alloc, step.thread, step.choice())? {
            return Ok(Some(step));
        }
        let next = behind(self.alloc, plain, step)?;
        if leaks(&next) {
            return Ok(Some(step));
        }
        let behind = next.at(step.thread);
        self.come_to(next, step)?;
        self.see_read(plain.at(step.thread), behind)?;
        Ok(None)
    }

    /// Keeps how an item was read, if a thread has come past such an instruction from the one point to the other.
    fn see_read(
        &mut self,
        before: Option<(usize, usize)>,
        behind: Option<(usize, usize)>,
    ) -> Result<(), Refused> {
        if let Some(read) = item_read(self.module, before, behind) {
            if !self.reads.contains(&read) {
                self.reads.push(read)?;
            }
        }
        Ok(())
    }

    /// Returns the events that lead to the state of this number, and then this one.
    fn path(&self, number: usize, last: Step) -> Result<Vec<Event>, Refused> {
        let mut events = Vec::new(self.alloc);
        events.push(last.event())?;
        let mut at = number;
        for _ in 0..self.steps.len() {
            if at == 0 || at >= self.steps.len() {
                break;
            }
            let step = self.steps[at];
            events.push(step.event())?;
            at = step.earlier;
        }
        events.reverse();
        Ok(events)
    }
}

/// Returns how an item was read by the instruction at the first point, if it is one that does, and the second point is
/// behind one of its exits.
fn item_read(
    module: &Module,
    before: Option<(usize, usize)>,
    behind: Option<(usize, usize)>,
) -> Option<ItemRead> {
    let (function, at) = before?;
    let (other, next) = behind?;
    let otherwise = fault_exit(module, function, at)?;
    if other != function || otherwise == at.saturating_add(1) {
        return None;
    }
    let found = next == at.saturating_add(1);
    if !found && next != otherwise {
        return None;
    }
    Some(ItemRead {
        function,
        at,
        found,
    })
}

/// Returns where a `borrow` or a `fetch` leads if there is no item. Another instruction has no such exit.
fn fault_exit(module: &Module, function: usize, at: usize) -> Option<usize> {
    let function = module.functions.as_slice().get(function)?;
    match function.code.as_slice().get(at)? {
        Instr::Borrow { otherwise, .. } | Instr::Fetch { otherwise, .. } => {
            Some(usize::from(*otherwise))
        }
        _ => None,
    }
}

/// Returns that no run is found among this number of states.
fn none_in(states: usize) -> Found
    ensures { result.events ≡ None }
{
    Found {
        events: None,
        states,
    }
}

/// Returns the machine behind the step.
fn behind<'a>(alloc: Global, plain: &Plain<'a>, step: Step) -> Result<Plain<'a>, Refused> {
    let mut next = plain.copy(alloc)?;
    next.step(alloc, step.thread, step.choice())?;
    Ok(next)
}

/// Returns whether all threads are gone and an object is lost.
fn leaks(plain: &Plain<'_>) -> bool {
    plain.has_ended() && plain.lost().is_some()
}

/// Returns whether the order lets the thread take the next step, and it has one.
fn may_go(plain: &Plain<'_>, thread: usize, order: Order) -> bool {
    if plain.is_gone(thread) {
        return false;
    }
    match order {
        Order::Any => true,
        Order::WorkersFirst => {
            thread > 0 || (1..plain.threads()).all(|worker| plain.is_gone(worker))
        }
    }
}
