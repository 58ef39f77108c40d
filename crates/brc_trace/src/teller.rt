//! The lines of a trace, step by step, of any machine.

ghost use Rattle.std.specs.Prelude.{◌≡◌, ◌<◌, length, IfOk, OnOk};
ghost use Rattle.brc_trace.specs.TraceText.{first_past, past_by, text_by};

use crate::entry::show_entry;
use crate::line::Line;
use crate::no_op::show_no_op;
use crate::past::{Past, first_past};
use brc_lang::Function;
use brc_model::Choice;
use brc_report::Paint;
use brc_world::Sight;
use std::alloc::{AllocError, Global};

/// What tells the steps of a run: it remembers the steps before, and puts together the line of each.
#[derive(Drop)]
pub struct Teller {
    pub past: Past,
    pub line: Line,
}

impl Teller {
    /// Returns a teller of a run of this many threads, before their first steps.
    pub fn new(alloc: Global, threads: usize) -> Result<Teller, AllocError>
        ensures { IfOk result (λ teller. teller.past ≡ first_past threads) }
    {
        Ok(Teller {
            past: first_past(alloc, threads)?,
            line: Line::new(alloc),
        })
    }

    /// Returns the number of threads.
    pub fn threads(&self) -> usize
        ensures { result ≡ length self.now.past.threads }
    {
        self.past.threads.len()
    }

    /// Returns the line of the step that was told last. It is empty if the thread was gone and the step was no claim
    /// and no stop.
    pub fn line(&self) -> &[u8]
        ensures { result.now ≡ self.now.line }
    {
        self.line.as_bytes()
    }

    /// Puts together the line of the thread's step by the choice, and remembers the step.
    pub fn tell(
        &mut self,
        paint: Paint,
        functions: &[Function],
        thread: u8,
        choice: Choice,
        sight: &Option<Sight>,
    ) -> Result<(), AllocError>
        requires { thread < length self.old.past.threads }
        ensures line { OnOk result (self.new.line ≡ text_by paint functions.now self.old.past thread choice
            sight.now) }
        ensures past { OnOk result (self.new.past ≡ past_by functions.now self.old.past thread sight.now) }
        ensures remembers { OnOk result (length self.new.past.threads ≡ length self.old.past.threads) }
    {
        self.line.clear();
        if let Some(sight) = sight {
            let entry = self.past.note(functions, thread, *sight);
            show_entry(paint, functions, &entry, &mut self.line)?;
        } else {
            show_no_op(paint, self.past.number, thread, choice, &mut self.line)?;
        }
        self.past.count(1);
        Ok(())
    }
}
