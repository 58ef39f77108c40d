//! What a screen shows of a long command, and that it wipes it once.

use brc_command::Terminal;
use brc_screen::Screen;
use brc_work::Gate;
use std::alloc::Global;
use std::fmt::Display;
use std::io;
use std::io::Eprint;
use std::sync::atomic::{AtomicU64, Ordering};
use std::time::{Clock, Duration};

/// A clock that is set by hand, and a standard error that counts what it is given.
#[derive(Drop)]
struct Desk {
    alloc: Global,
    millis: AtomicU64,
    /// The texts that only wipe the line.
    wipes: AtomicU64,
    /// The texts that wipe it and show a number.
    numbers: AtomicU64,
}

impl Desk {
    fn new(alloc: Global) -> Desk {
        Desk {
            alloc,
            millis: AtomicU64::new(0),
            wipes: AtomicU64::new(0),
            numbers: AtomicU64::new(0),
        }
    }

    /// Returns how many numbers it has shown, and how often it was only wiped.
    fn seen(&self) -> (u64, u64) {
        let numbers = self.numbers.load(Ordering::SeqCst);
        (numbers, self.wipes.load(Ordering::SeqCst))
    }
}

impl Clock for Desk {
    fn monotonic(&self) -> io::Result<Duration> {
        Ok(Duration::from_millis(self.millis.load(Ordering::SeqCst)))
    }

    fn since_1970(&self) -> io::Result<Duration> {
        self.monotonic()
    }
}

impl Eprint for Desk {
    fn eprint<D: Display + Drop>(&self, value: D) -> io::Result<()> {
        let text = format!(in self.alloc; "{value}")?;
        if text.as_str() == "\r\x1b[K" {
            self.wipes.fetch_add(1, Ordering::SeqCst);
        } else if text.as_str().starts_with("\r\x1b[K") {
            self.numbers.fetch_add(1, Ordering::SeqCst);
        }
        Ok(())
    }

    fn eprintln<D: Display + Drop>(&self, value: D) -> io::Result<()> {
        self.eprint(value)
    }
}

/// What a screen may meet.
#[derive(Clone, Copy)]
enum Event {
    /// The clock shows these milliseconds.
    Clock(u64),
    Judged(u64),
    Made(u64),
    Visited(u64),
    /// A worker makes this many calls.
    Calls(u64),
    Clear,
}

/// Events, and what `Desk::seen` is after each of them.
type Story<'t> = &'t [(Event, (u64, u64))];

// Two seconds pass before the first number, and half a second before the next one.
const LONG: Story<'static> = &[
    (Event::Clock(1999), (0, 0)),
    (Event::Judged(1), (0, 0)),
    (Event::Made(65_536), (0, 0)),
    (Event::Visited(256), (0, 0)),
    (Event::Clear, (0, 0)),
    (Event::Clock(2000), (0, 0)),
    (Event::Judged(2), (1, 0)),
    (Event::Judged(3), (1, 0)),
    (Event::Clock(2499), (1, 0)),
    (Event::Judged(4), (1, 0)),
    (Event::Clock(2500), (1, 0)),
    (Event::Judged(5), (2, 0)),
    (Event::Clear, (2, 1)),
    (Event::Clear, (2, 1)),
];

// A run shows its calls, each 64th of them.
const CALLS: Story<'static> = &[
    (Event::Clock(5000), (0, 0)),
    (Event::Calls(63), (0, 0)),
    (Event::Calls(1), (1, 0)),
    (Event::Clear, (1, 1)),
];

const UNWATCHED: Story<'static> = &[
    (Event::Clock(60_000), (0, 0)),
    (Event::Judged(1), (0, 0)),
    (Event::Made(65_536), (0, 0)),
    (Event::Calls(64), (0, 0)),
    (Event::Clear, (0, 0)),
];

// Whether texts have colours, whether a terminal is there, the events, and the seconds that have passed by then.
const SCREENS: &[(bool, bool, Story<'static>, u64)] = &[
    (false, true, LONG, 2),
    (true, true, CALLS, 5),
    (true, false, UNWATCHED, 60),
];

fn tell(desk: &Desk, screen: &mut Screen<'_, Desk>, event: &Event) {
    match event {
        Event::Clock(millis) => desk.millis.store(*millis, Ordering::SeqCst),
        Event::Judged(functions) => screen.judged(*functions),
        Event::Made(steps) => screen.made(*steps),
        Event::Visited(states) => screen.visited(*states),
        Event::Calls(calls) => {
            for _call in 0..*calls {
                screen.after(0, 0);
            }
        }
        Event::Clear => screen.clear(),
    }
}

/// Returns whether a screen shows what it has to, and gives these seconds in the end.
fn shows(alloc: Global, colors: bool, watched: bool, story: Story<'_>, seconds: u64) -> bool {
    let desk = Desk::new(alloc);
    let mut screen = Screen::new(&desk, colors, watched);
    let mut is_right = true;
    for (event, seen) in story {
        tell(&desk, &mut screen, event);
        is_right &= desk.seen() == *seen;
    }
    is_right && screen.passed() == seconds
}

#[test]
fn shows_how_far_a_command_is(rt: HostRuntime) {
    for (colors, watched, story, seconds) in SCREENS {
        assert!(rt;
            shows(rt.alloc(), *colors, *watched, story, *seconds),
            "{seconds} seconds"
        );
    }
}
