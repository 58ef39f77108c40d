//! Whether a step is within the machine's numbers. Nothing is known of a refused module's, so each step asks.

ghost use Rattle.std.specs.Prelude.{◌≡◌, ◌+◌, ◌<◌, ◌≤◌, ◌^◌, true, false, OnOk, IfErr};
ghost use Rattle.brc_model.specs.Machine.{used_by};
ghost use Rattle.brc_model.specs.Within.{IsShared, Suits};
ghost use Rattle.brc_word.specs.Words.{biased_part, local_part, owner_part};
ghost use Rattle.brc_effect.specs.Effects.{IsIndexed, IsNumbered};

use crate::refused::Refused;
use brc_lang::MOST_CELLS;
use brc_model::Duty;
use brc_word::values::{EMPTY, FULL, ONE_REFERENCE};
use brc_word::{MARKS_OF_WORD, local_count, lowest_mark};

/// The greatest local count with which the owner counts locally, plus 1.
const MOST_LOCAL: u32 = u32::MAX - 1;

/// The number of biased shared counts.
const BIASED_COUNTS: u64 = 1 << 41;

/// Refuses the answer if the fact doesn't hold.
fn ask(fact: bool) -> Result<(), Refused>
    ensures holds { OnOk result (fact ≡ true) }
    ensures refused { IfErr result (λ refused. fact ≡ false) }
{
    if fact {
        Ok(())
    } else {
        Err(Refused::OutOfBounds)
    }
}

fn biased(word: u64) -> u64
    ensures { result ≡ biased_part word }
{
    word / ONE_REFERENCE
}

fn owner(word: u64) -> u64
    ensures { result ≡ owner_part word }
{
    word / (1 << 32)
}

/// Asks whether the word is a shared word of a header.
fn ask_shared(word: u64) -> Result<(), Refused>
    ensures shared { OnOk result (IsShared word) }
    ensures refused { IfErr result (λ refused. IsShared word → ⊥) }
{
    ask(biased(word) < BIASED_COUNTS)?;
    ask(word % ONE_REFERENCE != 1)
}

/// Asks whether a release that loaded the word counts down a count that isn't 0.
fn ask_release(thread: u8, running: bool, word: u64) -> Result<(), Refused>
    ensures counted { OnOk result (running ≡ true → owner_part word ≡ thread + 1 → 1 ≤ local_part word) }
    ensures refused { IfErr result (λ refused.
        (running ≡ true → owner_part word ≡ thread + 1 → 1 ≤ local_part word) → ⊥) }
{
    if running && owner(word) == u64::from(thread) + 1 {
        ask(1 <= local_count(word))?;
    }
    Ok(())
}

/// Asks whether the found word suits the thread's duty, in a machine with this number of rows.
pub fn ask_suits(
    thread: u8,
    running: bool,
    rows: u32,
    duty: Duty,
    found: u64,
) -> Result<(), Refused>
    ensures suits { OnOk result (Suits thread running rows duty found) }
    ensures refused { IfErr result (λ refused. Suits thread running rows duty found → ⊥) }
{
    match duty {
        Duty::RetainStore { word, .. } => ask(local_count(word) < MOST_LOCAL),
        Duty::RetainAdd { .. } => {
            ask_shared(found)?;
            ask(biased(found) + 1 < BIASED_COUNTS)
        }
        Duty::ReleaseLoad { .. } => ask_release(thread, running, found),
        Duty::ReleaseStore { word, .. } => ask(1 <= local_count(word)),
        Duty::SharedLoad { .. } => {
            ask_shared(found)?;
            ask(1 <= biased(found))
        }
        Duty::SharedExchange { word, .. } => {
            // An exchange that is lost leaves the word as it is.
            if found == word {
                ask_shared(word)?;
                ask(1 <= biased(word))?;
            }
            Ok(())
        }
        Duty::MergeLoad { carried, .. } => {
            ask_shared(found)?;
            ask(biased(found) + u64::from(carried) < BIASED_COUNTS)
        }
        Duty::MergeExchange { carried, word, .. } => {
            if found == word {
                ask_shared(word)?;
                ask(biased(word) + u64::from(carried) < BIASED_COUNTS)?;
            }
            Ok(())
        }
        Duty::TakeFound { word, marks } => {
            ask(0 < marks)?;
            let index = u64::from(MARKS_OF_WORD) * u64::from(word) + u64::from(lowest_mark(marks));
            ask(index < u64::from(rows))
        }
        Duty::SettleCell { .. } | Duty::CellLoad { .. } => ask(found <= u64::from(rows)),
        Duty::CellSwap { item, .. } => {
            ask(item < rows)?;
            ask(found <= u64::from(rows))
        }
        Duty::TakeField { .. } | Duty::LendField { .. } => ask(found == FULL),
        Duty::CloseResource { .. } => ask(found == 0),
        Duty::ReturnField { .. } => ask(found == EMPTY),
        _ => Ok(()),
    }
}

/// Asks whether the row or the cell to which the duty's effect adds 1 is low enough.
pub fn ask_numbered(rows: u32, duty: Duty) -> Result<(), Refused>
    ensures numbered { OnOk result (IsNumbered rows duty) }
    ensures refused { IfErr result (λ refused. IsNumbered rows duty → ⊥) }
{
    match duty {
        Duty::Die { row } => ask(row < rows),
        Duty::SettleCell { cell, .. } => ask(cell < u32::from(MOST_CELLS)),
        _ => Ok(()),
    }
}

/// Asks whether the mark word that the duty names has a low number.
pub fn ask_indexed(duty: Duty) -> Result<(), Refused>
    ensures indexed { OnOk result (IsIndexed duty) }
    ensures refused { IfErr result (λ refused. IsIndexed duty → ⊥) }
{
    match duty {
        Duty::Scan { word, .. } => ask(word < 1 << 31),
        Duty::TakeFound { word, marks } => {
            ask(0 < marks)?;
            let index = u64::from(MARKS_OF_WORD) * u64::from(word) + u64::from(lowest_mark(marks));
            ask(index < 1 << 31)
        }
        _ => Ok(()),
    }
}

/// Asks whether the number of rows that the thread has used after the duty fits.
pub fn ask_used(used: u32, duty: Duty) -> Result<(), Refused>
    ensures uses { OnOk result (used_by used duty < 2 ^ 32) }
    ensures refused { IfErr result (λ refused. used_by used duty < 2 ^ 32 → ⊥) }
{
    match duty {
        Duty::BirthLocal { .. } => ask(used < u32::MAX),
        _ => Ok(()),
    }
}
