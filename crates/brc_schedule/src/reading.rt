//! From bytes to a schedule, line by line.

ghost use Rattle.std.specs.Prelude.{◌≡◌, ℕ, ◌⊎◌, false, true, Ok, Err, IfOk, IfErr, OnOk, MatchOption, MatchResult};
ghost use Rattle.brc_lang.specs.declared.fault.FaultCode.{FaultCode};
ghost use Rattle.brc_lang.specs.declared.fault.FaultCode.TheVariants.{NoMemory};
ghost use Rattle.brc_lang.specs.InstructionWords.{words};
ghost use Rattle.brc_schedule.specs.declared.beginning.Beginning.TheVariants.{Planned};
ghost use Rattle.brc_schedule.specs.declared.schedule.Schedule.{Schedule};
ghost use Rattle.brc_schedule.specs.Text.{Spells};
ghost use Rattle.brc_schedule.specs.Fault.{next_of, planned_in, is_whole, HasFault, IsFaultOf, ReadsAs, Refuses};

use crate::beginning::Beginning;
use crate::line::{planned_call, size, steps};
use crate::schedule::Schedule;
use brc_lang::{Cursor, FaultCode, ReadFault, Sequence, split_line, texts_round_trip};
use brc_model::{MOST_ROWS, MOST_WORKERS};
use std::alloc::Global;

const FIRST_LINE: &[u8] = b"schedule 1\n";

/// Reads the schedule that the bytes spell.
///
/// Returns the first faulty line from the top and its fault, or `NoMemory` if memory was refused.
pub fn read_schedule(alloc: Global, bytes: &[u8]) -> Result<Schedule, ReadFault>
    // The bytes are the schedule's one text.
    ensures found { IfOk result (λ s. Spells bytes.now s) }
    // A refusal is `NoMemory`, or names the one fault that the text has.
    ensures fault { IfErr result (λ e. IsFaultOf bytes.now e) }
    // The text of a schedule is read as that schedule, unless memory is refused.
    ensures only { (s : Schedule) → Spells bytes.now s → ReadsAs result s }
    // A text with a fault is refused for it, unless memory is refused.
    ensures refused { (line : ℕ) (code : FaultCode) → HasFault bytes.now line code → Refuses result line code }
{
    // The call does nothing: it brings the law into the proof.
    texts_round_trip();
    read_lines(alloc, bytes)
}

fn read_lines(alloc: Global, bytes: &[u8]) -> Result<Schedule, ReadFault>
    ensures { MatchResult result (λ s. Spells bytes.now s) (λ e. IsFaultOf bytes.now e) }
{
    // The call does nothing: it brings the law into the proof.
    texts_round_trip();
    if !bytes.starts_with(FIRST_LINE) {
        return Err(ReadFault {
            line: 1,
            code: FaultCode::FirstLine,
        });
    }
    let mut above = Beginning::Opened;
    let mut cursor = Cursor {
        rest: &bytes[FIRST_LINE.len()..],
        line: 2,
    };
    while let Some((text, rest)) = split_line(cursor.rest) {
        let line = cursor.line;
        above = match next(alloc, above, text) {
            Ok(below) => below,
            Err(code) => return Err(ReadFault { line, code }),
        };
        cursor = Cursor {
            rest,
            line: line + 1,
        };
    }
    let cut_off = ReadFault {
        line: cursor.line,
        code: FaultCode::CutOff,
    };
    if !cursor.rest.is_empty() {
        return Err(cut_off);
    }
    match whole(above) {
        Some(schedule) => Ok(schedule),
        None => Err(cut_off),
    }
}

/// Reads one line, and returns the text above the next line.
fn next(alloc: Global, above: Beginning, text: &[u8]) -> Result<Beginning, FaultCode>
    ensures ok { IfOk result (λ below. next_of above (words text.now) ≡ Ok below) }
    ensures err { IfErr result (λ code. (code ≡ NoMemory) ⊎ (next_of above (words text.now) ≡ Err code)) }
{
    match above {
        Beginning::Opened => {
            let workers = size(b"workers", u32::from(MOST_WORKERS), text)?;
            Ok(Beginning::Staffed {
                workers: workers as u8,
            })
        }
        Beginning::Staffed { workers } => {
            let rows = size(b"rows", u32::from(MOST_ROWS), text)?;
            Ok(Beginning::Planned(Schedule {
                workers,
                rows: rows as u16,
                calls: Sequence::new(alloc),
                steps: Sequence::new(alloc),
            }))
        }
        Beginning::Planned(mut schedule) => {
            add_line(&mut schedule, text)?;
            Ok(Beginning::Planned(schedule))
        }
    }
}

/// Reads the call or the steps of a line and appends them: first a call for each worker in turn, and then steps.
fn add_line(schedule: &mut Schedule, text: &[u8]) -> Result<(), FaultCode>
    ensures ok { OnOk result (planned_in schedule.old (words text.now) ≡ Ok schedule.new) }
    ensures err { IfErr result (λ code. (code ≡ NoMemory) ⊎ (planned_in schedule.old (words text.now) ≡ Err code)) }
{
    if schedule.calls.len() < usize::from(schedule.workers) {
        let worker = schedule.calls.len() as u32 + 1;
        schedule.calls.push(planned_call(worker, text)?)?;
    } else {
        schedule.steps.push(steps(schedule.workers, text)?)?;
    }
    Ok(())
}

/// Returns the schedule if it has a call for each worker.
fn whole(above: Beginning) -> Option<Schedule>
    ensures { MatchOption result (is_whole above ≡ false) (λ s. (above ≡ Planned s) × (is_whole above ≡ true)) }
{
    match above {
        Beginning::Opened | Beginning::Staffed { .. } => None,
        Beginning::Planned(schedule) => {
            if schedule.calls.len() < usize::from(schedule.workers) {
                None
            } else {
                Some(schedule)
            }
        }
    }
}
