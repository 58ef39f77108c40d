ghost use Rattle.std.specs.Prelude.{◌≡◌};

use brc_command::{CHANGED_NOTHING, Terminal};
use brc_report::Paint;
use brc_work::Gate;
use std::io::Eprint;
use std::sync::atomic::{AtomicBool, AtomicU64, Ordering};
use std::time::{Clock, Duration, Instant};

/// How long a command stays silent, in milliseconds: a short one is over before anybody wonders.
const SILENCE: u64 = 2000;

/// How long a number of steps, calls or functions is shown at least, in milliseconds.
const PAUSE: u64 = 500;

/// After how many calls a run may say again how far it is.
const CALLS_BETWEEN: u64 = 64;

/// What wipes the line that the cursor is in (ECMA-48: to its first column, and erased from there).
const WIPED: &str = "\r\x1b[K";

/// The terminal of the system, if there is one.
///
/// The workers of a run share it, so what they change of it is atomic.
#[derive(Drop)]
pub struct Screen<'r, R> {
    rt: &'r R,
    paint: Paint,
    /// Whether standard error shows how far a command is.
    watched: bool,
    /// When the command began.
    began: Option<Instant>,
    /// The calls that the workers have made.
    calls: AtomicU64,
    /// From when on a number may be shown, in milliseconds after the command began.
    due: AtomicU64,
    /// Whether a number is shown.
    shown: AtomicBool,
    /// How many claims and stops have changed nothing.
    no_ops: u64,
}

impl<'r, R: Eprint + Clock> Screen<'r, R> {
    /// Returns the screen behind `rt`, whose texts have colours if `colors`, and whose standard error shows how far a
    /// command is if `watched`.
    pub fn new(rt: &'r R, colors: bool, watched: bool) -> Screen<'r, R> {
        Screen {
            rt,
            paint: if colors { Paint::Ansi } else { Paint::Plain },
            watched,
            began: Instant::now(rt).ok(),
            calls: AtomicU64::new(0),
            due: AtomicU64::new(SILENCE),
            shown: AtomicBool::new(false),
            no_ops: 0,
        }
    }

    /// Shows the number, unless another one was shown just before.
    fn show(&self, number: u64, what: &str) {
        let (Some(began), Ok(now)) = (self.began, Instant::now(self.rt)) else {
            return;
        };
        let passed = now.duration_since(began);
        let due = self.due.load(Ordering::SeqCst);
        if passed < Duration::from_millis(due) {
            return;
        }
        let next = millis(passed).saturating_add(PAUSE);
        // Of workers that come here at once, one shows its number.
        if self
            .due
            .compare_exchange(due, next, Ordering::SeqCst, Ordering::SeqCst)
            .is_ok()
        {
            self.shown.store(true, Ordering::SeqCst);
            let _ = eprint!(self.rt; "{WIPED}{number} {what}");
        }
    }
}

/// Returns the milliseconds of a duration.
fn millis(duration: Duration) -> u64 {
    u64::try_from(duration.as_millis()).unwrap_or(u64::MAX)
}

impl<R: Eprint + Clock> Gate for Screen<'_, R> {
    fn before(&self, _thread: u8, _call: u32) {}

    fn after(&self, _thread: u8, _call: u32) {
        let made = self.calls.fetch_add(1, Ordering::SeqCst).wrapping_add(1);
        if self.watched && made % CALLS_BETWEEN == 0 {
            self.show(made, "calls");
        }
    }
}

impl<R: Eprint + Clock + Sync> Terminal for Screen<'_, R> {
    ghost paint_of = { λ screen. screen.paint };

    fn paint(&self) -> Paint {
        self.paint
    }

    fn made(&mut self, steps: u64) {
        if self.watched {
            self.show(steps, "steps");
        }
    }

    fn no_op(&mut self) {
        self.no_ops = self.no_ops.saturating_add(1);
    }

    fn visited(&mut self, states: u64) {
        if self.watched {
            self.show(states, "states");
        }
    }

    fn judged(&mut self, functions: u64) {
        if self.watched {
            let what = if functions == 1 {
                "function"
            } else {
                "functions"
            };
            self.show(functions, what);
        }
    }

    fn passed(&self) -> u64 {
        match (self.began, Instant::now(self.rt)) {
            (Some(began), Ok(now)) => now.duration_since(began).as_secs(),
            _ => 0,
        }
    }

    fn clear(&mut self) {
        if self.shown.swap(false, Ordering::SeqCst) {
            let _ = eprint!(self.rt; "{WIPED}");
        }
        let no_ops = self.no_ops;
        if self.watched && no_ops > 0 {
            let _ = eprintln!(self.rt; "{no_ops} {CHANGED_NOTHING}");
        }
        self.no_ops = 0;
    }
}
