//! The search for a run of a file's module that goes wrong, and what is written of it.

ghost use Rattle.std.specs.Prelude.{◌≡◌, ◌++◌, map, IfOk, IfErr, IfSome, OnOk};
ghost use Rattle.std.specs.Io.KnownBytes.{Appends};
ghost use Rattle.brc_lang.specs.Grammar.{IsModule};
ghost use Rattle.brc_replay.specs.WrongRuns.{event_in, IsWrongRun};
ghost use Rattle.brc_command.specs.Commands.{Reports};
ghost use Rattle.brc_command.specs.WrongRuns.{no_run_text, none_line, none_text, HasFound, HasNone, IsFound, IsFoundBy};
ghost use Rattle.brc_command.specs.WrongRuns.{plural};
ghost use Rattle.brc_command.specs.WrongRuns.{IsFoundOf, IsUnread, LeavesFound};

use crate::accepted::write_accepted;
use crate::calls::number_of;
use crate::explaining::{Explanation, write_text};
use crate::load::Load;
use crate::loading::load_module;
use crate::run_text::text_of_run;
use crate::step_fault::StepFault;
use crate::stop::Stop;
use crate::terminal::Terminal;
use crate::texts::{accepted, module_of};
use crate::unchecked::Bounds;
use crate::unfound::{Search, SearchEnd, text_of_search};
use brc_check::{Checked, Refused};
use brc_explore::{Bounds as Reach, ItemRead, Run, Watch, find_run};
use brc_lang::{Module, write_bytes, write_pieces};
use brc_world::NoMemory;
use itoa::Buffer;
use std::alloc::Global;
use std::io;
use std::io::Write;

/// Writes a run of the file's module that goes wrong, or that none is found within the bounds. Of an accepted module no
/// run goes wrong, so none is looked for.
///
/// Returns the reason why it can't. It is `Refused` for a refused module, of which it has written what it has found, as
/// far as the writer took it.
pub fn explain_run<'a, L: Load, T: Terminal, W: Write>(
    alloc: Global,
    file: &'a str,
    bounds: Bounds,
    load: &mut L,
    terminal: &mut T,
    out: &mut W,
) -> Result<(), Stop<'a>>
    ensures accepted { OnOk result (Reports (HasNone (L.may_give load.old) file.now) (W.contents out.old)
        (W.contents out.new)) }
    ensures left { IfErr result (λ e. LeavesFound (HasNone (L.may_give load.old) file.now)
        (HasFound (L.may_give load.old) file.now bounds.workers bounds.rows) e (W.contents out.old)
        (W.contents out.new)) }
{
    let bytes = load_module(alloc, file, load)?;
    match findings_of(alloc, bytes.as_slice(), bounds, terminal) {
        Ok(Explanation { text, fault }) => {
            let written = write_text(text.as_slice(), out);
            // The refusal is the reason also if what is found can't be written.
            if let Some(fault) = fault {
                return Err(Stop::Fault(fault));
            }
            if written.is_err() {
                return Err(Stop::Fault(StepFault::Output));
            }
            Ok(())
        }
        Err(fault) => Err(Stop::Fault(fault)),
    }
}

/// Returns what is written of the runs of the module that the bytes spell, and `Refused` if it is refused.
///
/// Returns `Text` or `NoMemory` if nothing is to be written.
fn findings_of<T: Terminal>(
    alloc: Global,
    bytes: &[u8],
    bounds: Bounds,
    terminal: &mut T,
) -> Result<Explanation, StepFault>
    ensures found { IfOk result (λ e. IsFoundBy bytes.now bounds.workers bounds.rows e.fault e.text.items) }
    ensures nothing { IfErr result IsUnread }
{
    let module = match module_of(alloc, bytes) {
        Ok(module) => module,
        Err(StepFault::Text(fault)) => return Err(StepFault::Text(fault)),
        Err(_) => return Err(StepFault::NoMemory),
    };
    match accepted(alloc, module) {
        Ok(checked) => match accepted_text(alloc, &checked) {
            Ok(text) => Ok(Explanation { text, fault: None }),
            Err(_) => Err(StepFault::NoMemory),
        },
        Err(StepFault::Refused(refused)) => {
            match found_text(alloc, bytes, &refused, bounds, terminal) {
                Ok(text) => Ok(Explanation {
                    text,
                    fault: Some(StepFault::Refused(refused)),
                }),
                Err(_) => Err(StepFault::NoMemory),
            }
        }
        Err(_) => Err(StepFault::NoMemory),
    }
}

/// Returns that the module is accepted, and that no run of it goes wrong.
fn accepted_text(alloc: Global, checked: &Checked) -> Result<Vec<u8>, NoMemory>
    ensures { IfOk result (λ text. text.items ≡ no_run_text checked.now.module) }
{
    let mut text = Vec::new(alloc);
    match write_none(checked, &mut text) {
        Ok(()) => Ok(text),
        Err(_) => Err(NoMemory),
    }
}

fn write_none<W: Write>(checked: &Checked, out: &mut W) -> io::Result<()>
    ensures whole { OnOk result (Appends (W.contents out.old) (W.contents out.new)
        (no_run_text checked.now.module)) }
{
    write_accepted(checked, out)?;
    write_bytes(b"no run of it goes wrong\n", out)
}

/// Returns what is found of the module that the bytes spell, whose function is refused.
// The check has dropped the module, so the text is read again.
fn found_text<T: Terminal>(
    alloc: Global,
    bytes: &[u8],
    refused: &Refused,
    bounds: Bounds,
    terminal: &mut T,
) -> Result<Vec<u8>, NoMemory>
    ensures { IfOk result (λ text. IsFoundOf bytes.now bounds.workers bounds.rows text.items) }
{
    let Ok(module) = module_of(alloc, bytes) else {
        return Err(NoMemory);
    };
    of_module(alloc, &module, refused, bounds, terminal)
}

/// Returns what is found of the module, whose function is refused.
fn of_module<T: Terminal>(
    alloc: Global,
    module: &Module,
    refused: &Refused,
    bounds: Bounds,
    terminal: &mut T,
) -> Result<Vec<u8>, NoMemory>
    requires fits { IsModule «module».now }
    ensures { IfOk result (λ text. IsFound «module».now bounds.workers bounds.rows text.items) }
{
    let paint = terminal.paint();
    let mut search = Search {
        function: function_of(module, refused),
        states: u64::from(bounds.states),
        end: SearchEnd::Whole,
        reads: Vec::new(alloc),
    };
    let found = look_for(alloc, module, bounds, terminal, &mut search)?;
    if let Some(run) = found {
        match text_of_run(alloc, module, &run, paint) {
            Ok(Some(text)) => return Ok(text),
            Err(StepFault::NoMemory) => return Err(NoMemory),
            Ok(None) | Err(_) => {}
        }
    }
    let line = none_text(alloc, bounds, search.states)?;
    let why = text_of_search(alloc, module, &search)?;
    let text = followed_by(line, why.as_slice())?;
    Ok(text)
}

/// Returns the line, and the others behind it.
fn followed_by(line: Vec<u8>, others: &[u8]) -> Result<Vec<u8>, NoMemory>
    ensures { IfOk result (λ text. text.items ≡ line.items ++ others.now) }
{
    let mut text = line;
    text.extend_from_slice(others)?;
    Ok(text)
}

/// Looks for a run of the module, and sets how the search has ended. If its seconds have passed, `states` becomes the
/// number of those that it has visited until then.
fn look_for<T: Terminal>(
    alloc: Global,
    module: &Module,
    bounds: Bounds,
    terminal: &mut T,
    search: &mut Search,
) -> Result<Option<Run>, NoMemory>
    requires fits { IsModule «module».now }
    ensures { IfOk result (λ found. IfSome found (λ run.
        IsWrongRun «module».now run.rows run.calls.items (map event_in run.events.items))) }
{
    let reach = Reach {
        workers: bounds.workers,
        rows: bounds.rows,
        states: bounds.states as usize,
    };
    let mut waiting = Waiting {
        terminal,
        most_seconds: bounds.seconds,
        states: 0,
        stopped: false,
        has_begun: false,
        is_cut: false,
        reads: Vec::new(alloc),
        has_lost: false,
    };
    let found = find_run(alloc, module, search.function, reach, &mut waiting);
    waiting.terminal.clear();
    search.end = waiting.end();
    if search.end == SearchEnd::Clock {
        search.states = waiting.states;
    }
    let Waiting {
        reads,
        has_lost,
        ..
    } = waiting;
    if !has_lost {
        search.reads = reads;
    }
    match found {
        Ok(found) => Ok(found),
        Err(brc_plain::Refused::OutOfBounds) => Ok(None),
        Err(brc_plain::Refused::NoMemory) => Err(NoMemory),
    }
}

/// Returns the number of the function that is refused.
fn function_of(module: &Module, refused: &Refused) -> usize {
    number_of(module.functions.as_slice(), refused.function.as_bytes()).unwrap_or(0)
}

/// Returns that no run is found.
fn none_text(alloc: Global, bounds: Bounds, states: u64) -> Result<Vec<u8>, NoMemory>
    ensures { IfOk result (λ text. text.items ≡ none_text bounds.workers bounds.rows states) }
{
    let mut workers = Buffer::new();
    let mut rows = Buffer::new();
    let mut visited = Buffer::new();
    let workers = workers.format(bounds.workers).as_bytes();
    let rows = rows.format(bounds.rows).as_bytes();
    let visited = visited.format(states).as_bytes();
    let of_workers = plural(u64::from(bounds.workers));
    let of_rows = plural(u64::from(bounds.rows));
    let of_states = plural(states);
    let mut text = Vec::new(alloc);
    match write_none_found(
        workers, of_workers, rows, of_rows, visited, of_states, &mut text,
    ) {
        Ok(()) => Ok(text),
        Err(_) => Err(NoMemory),
    }
}

/// Returns the end of the plural behind a number other than 1.
fn plural(number: u64) -> &'static [u8]
    ensures { result.now ≡ plural number }
{
    if number == 1 { b"" } else { b"s" }
}

/// Writes that no run is found, with the decimal digits of the three numbers, each before the end of its plural.
fn write_none_found<'p, W: Write>(
    workers: &'p [u8],
    of_workers: &'p [u8],
    rows: &'p [u8],
    of_rows: &'p [u8],
    states: &'p [u8],
    of_states: &'p [u8],
    out: &mut W,
) -> io::Result<()>
    ensures whole { OnOk result (Appends (W.contents out.old) (W.contents out.new)
        (none_line workers.now of_workers.now rows.now of_rows.now states.now of_states.now)) }
{
    write_pieces(
        &[
            b"no run goes wrong with ",
            workers,
            b" worker",
            of_workers,
            b" of ",
            rows,
            b" row",
            of_rows,
            b" within ",
            states,
            b" state",
            of_states,
            b"\n",
        ],
        out,
    )
}

/// The terminal, as one who waits for a search, and may be tired of it.
#[derive(Drop)]
struct Waiting<'t, T> {
    terminal: &'t mut T,
    most_seconds: Option<u32>,
    /// The states visited so far.
    states: u64,
    /// Whether the seconds have passed.
    stopped: bool,
    /// Whether any calls were tried.
    has_begun: bool,
    /// Whether there was no room for a further state.
    is_cut: bool,
    reads: Vec<ItemRead>,
    /// Whether there was no memory for one of them.
    has_lost: bool,
}

impl<T: Terminal> Waiting<'_, T> {
    /// Returns why no further state was looked at.
    fn end(&self) -> SearchEnd {
        if self.stopped {
            SearchEnd::Clock
        } else if self.is_cut {
            SearchEnd::Bound
        } else if self.has_begun {
            SearchEnd::Whole
        } else {
            SearchEnd::Uncalled
        }
    }
}

impl<T: Terminal> Watch for Waiting<'_, T> {
    fn visited(&mut self, states: usize) -> bool {
        self.states = states as u64;
        self.terminal.visited(self.states);
        if let Some(most) = self.most_seconds {
            self.stopped = self.terminal.passed() >= u64::from(most);
        }
        !self.stopped
    }

    fn ended(&mut self, had_room: bool) {
        self.has_begun = true;
        self.is_cut = self.is_cut || !had_room;
    }

    fn read_item(&mut self, read: ItemRead) {
        if !self.reads.contains(&read) && self.reads.push(read).is_err() {
            self.has_lost = true;
        }
    }
}
