//! What a trace remembers of the steps before.

ghost use Rattle.std.specs.Prelude.{◌≡◌, ◌<◌, ◌+◌, min, length, IfOk, Some, ◌∷◌, []};
ghost use Rattle.brc_trace.specs.TraceText.{first_past, past_by, entries_by, most_number};

use crate::depth::{crossing_at, depth_after};
use crate::entry::Entry;
use brc_lang::{Function, Sequence};
use brc_world::{Part, Sight};
use std::alloc::{AllocError, Global};

/// What a thread does.
#[derive(Clone, Copy)]
pub struct Doing {
    /// The part of its work that a step belongs to.
    pub part: Part,
    /// How many of its calls are open; outside its calls 1.
    pub depth: u64,
}

/// What a trace remembers of the steps before.
#[derive(Drop)]
pub struct Past {
    /// By thread: the part of its work that its last step belonged to, and how many calls are open after it.
    pub threads: Sequence<Doing>,
    /// The number of the next step of the schedule, from 1.
    pub number: u64,
}

/// Returns the past of a trace of this many threads before their first steps.
pub fn first_past(alloc: Global, threads: usize) -> Result<Past, AllocError>
    ensures { IfOk result (λ past. past ≡ first_past threads) }
{
    let mut first = Sequence::new(alloc);
    for _ in 0..threads {
        first.push(Doing {
            part: Part::Instruction { at: 0 },
            depth: 1,
        })?;
    }
    Ok(Past {
        threads: first,
        number: 1,
    })
}

impl Past {
    /// Returns the entry of a step of the thread, and remembers what the thread does.
    pub fn note(&mut self, functions: &[Function], thread: u8, sight: Sight) -> Entry
        requires { thread < length self.old.threads }
        ensures entry { result ∷ [] ≡ entries_by self.old thread (Some sight) }
        ensures past { self.new.threads ≡ (past_by functions.now self.old thread (Some sight)).threads }
        ensures number { self.new.number ≡ self.old.number }
    {
        let Doing { part, depth } = self.threads.as_slice()[usize::from(thread)];
        let part = match sight.begins {
            Some(part) => part,
            None => part,
        };
        let after = depth_after(crossing_at(functions, depth, &sight), depth);
        self.threads
            .set(usize::from(thread), Doing { part, depth: after });
        Entry {
            number: self.number,
            thread,
            doing: Doing { part, depth },
            sight,
        }
    }

    /// Counts the steps, whether they have lines or not.
    pub fn count(&mut self, steps: u32)
        ensures threads { self.new.threads ≡ self.old.threads }
        ensures number { self.new.number ≡ min (self.old.number + steps) most_number }
    {
        self.number = self.number.saturating_add(u64::from(steps));
    }
}
