ghost use Rattle.std.specs.Prelude.{◌≡◌};

use brc_command::{CHANGED_NOTHING, Terminal};
use brc_report::Paint;
use brc_work::Gate;
use std::alloc::{AllocError, Global};
use std::sync::atomic::{AtomicU64, Ordering};

/// What wipes the line that the cursor is in (ECMA-48: to its first column, and erased from there).
const WIPED: &str = "\r\x1b[K";

/// What it shows if a command clears it twice.
const CLEARED_TWICE: &str = "cleared twice\n";

/// A terminal in memory, or none. It shows each number at once, and how many calls workers have made once all are made.
#[derive(Drop)]
pub struct Window {
    alloc: Global,
    is_there: bool,
    paint: Paint,
    /// All that standard error showed.
    shown: String,
    /// Whether a number is shown.
    is_covered: bool,
    /// How many claims and stops have changed nothing.
    no_ops: u64,
    /// How many seconds have passed: one with each number of states.
    seconds: u64,
    /// The calls of workers that have begun, and those that have ended.
    begun: AtomicU64,
    ended: AtomicU64,
    /// Whether the command has cleared it.
    is_cleared: bool,
}

impl Window {
    /// Returns a terminal, or none. Texts may have colours in either case.
    pub fn new(alloc: Global, is_there: bool, colors: bool) -> Window {
        Window {
            alloc,
            is_there,
            paint: if colors { Paint::Ansi } else { Paint::Plain },
            shown: String::new(alloc),
            is_covered: false,
            no_ops: 0,
            seconds: 0,
            begun: AtomicU64::new(0),
            ended: AtomicU64::new(0),
            is_cleared: false,
        }
    }

    /// Returns all that standard error showed.
    pub fn shown(&self) -> &[u8] {
        self.shown.as_str().as_bytes()
    }

    /// Shows a number in place of the one before.
    fn show(&mut self, number: u64, what: &str) {
        if self.is_there && self.add(number, what).is_ok() {
            self.is_covered = true;
        }
    }

    fn say_no_ops(&mut self) -> Result<(), AllocError> {
        let no_ops = self.no_ops;
        let line = format!(in self.alloc; "{no_ops} {CHANGED_NOTHING}\n")?;
        self.shown.push_str(line.as_str())
    }

    fn say_calls(&mut self) -> Result<(), AllocError> {
        let begun = self.begun.load(Ordering::SeqCst);
        let ended = self.ended.load(Ordering::SeqCst);
        if begun == 0 && ended == 0 {
            return Ok(());
        }
        let line = format!(in self.alloc; "{begun} calls have begun, {ended} have ended\n")?;
        self.shown.push_str(line.as_str())
    }

    fn add(&mut self, number: u64, what: &str) -> Result<(), AllocError> {
        let line = format!(in self.alloc; "{WIPED}{number} {what}")?;
        self.shown.push_str(line.as_str())
    }
}

impl Gate for Window {
    fn before(&self, _thread: u8, _call: u32) {
        self.begun.fetch_add(1, Ordering::SeqCst);
    }

    fn after(&self, _thread: u8, _call: u32) {
        self.ended.fetch_add(1, Ordering::SeqCst);
    }
}

impl Terminal for Window {
    ghost paint_of = { λ window. window.paint };

    fn paint(&self) -> Paint {
        self.paint
    }

    fn made(&mut self, steps: u64) {
        self.show(steps, "steps");
    }

    fn no_op(&mut self) {
        self.no_ops = self.no_ops.saturating_add(1);
    }

    fn visited(&mut self, states: u64) {
        self.seconds = self.seconds.saturating_add(1);
        self.show(states, "states");
    }

    fn judged(&mut self, functions: u64) {
        let what = if functions == 1 {
            "function"
        } else {
            "functions"
        };
        self.show(functions, what);
    }

    fn passed(&self) -> u64 {
        self.seconds
    }

    fn clear(&mut self) {
        if self.is_there && self.is_cleared {
            let _ = self.shown.push_str(CLEARED_TWICE);
        }
        self.is_cleared = true;
        if self.is_covered {
            self.is_covered = false;
            let _ = self.shown.push_str(WIPED);
        }
        if self.paint == Paint::Ansi && self.no_ops > 0 {
            let _ = self.say_no_ops();
        }
        self.no_ops = 0;
        if self.is_there {
            let _ = self.say_calls();
        }
    }
}
