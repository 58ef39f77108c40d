//! Single lines of a schedule's text.

ghost use Rattle.std.specs.Prelude.{◌≡◌, ◌∷◌, [], ◌≤◌};
ghost use Rattle.brc_lang.specs.InstructionWords.{words, number_between};
ghost use Rattle.brc_schedule.specs.Fault.{size_in, call_in, choice_in, steps_in};

use crate::schedule::{PlannedCall, Steps};
use brc_lang::{
    FaultCode, Name, four_words, is_name, is_word, number_between, three_words, two_words,
};
use brc_model::{Choice, MOST_TIMES};

/// The last row of the largest world: row 0 is none, row 1 the root, each of 32 workers has 1024 rows, and behind these
/// are the rows of 16 immortal lists and of the 64 numbers in each of them.
const LAST_ROW: u32 = 33_809;

/// Reads a line of this name and a number from 1 to `most`. Returns `UnknownWord` or `Number`.
pub fn size(name: &[u8], most: u32, text: &[u8]) -> Result<u32, FaultCode>
    ensures { result ≡ size_in name.now most (words text.now) }
{
    let Some((word, size)) = two_words(text) else {
        return Err(FaultCode::UnknownWord);
    };
    if !is_word(word, name) {
        return Err(FaultCode::UnknownWord);
    }
    number_between(1, most, size)
}

/// Reads the call of the worker whose turn it is, from 1. Returns `UnknownWord` or `Number`.
pub fn planned_call(worker: u32, text: &[u8]) -> Result<PlannedCall, FaultCode>
    ensures { result ≡ call_in worker (words text.now) }
{
    let Some((word, turn, name, times)) = four_words(text) else {
        return Err(FaultCode::UnknownWord);
    };
    if !is_word(word, b"call") {
        return Err(FaultCode::UnknownWord);
    }
    number_between(worker, worker, turn)?;
    if !is_name(name) {
        return Err(FaultCode::UnknownWord);
    }
    let times = number_between(1, MOST_TIMES, times)?;
    Ok(PlannedCall {
        name: Name::new(name),
        times,
    })
}

/// Reads the steps of a thread, its claim or its stop. Returns `UnknownWord` or `Number`.
pub fn steps(workers: u8, text: &[u8]) -> Result<Steps, FaultCode>
    ensures { result ≡ steps_in workers (words text.now) }
{
    if let Some((word, thread)) = two_words(text) {
        return stop(workers, word, thread);
    }
    if let Some((word, thread, row)) = three_words(text) {
        return claim(workers, word, thread, row);
    }
    let Some((word, thread, choice, times)) = four_words(text) else {
        return Err(FaultCode::UnknownWord);
    };
    if !is_word(word, b"step") {
        return Err(FaultCode::UnknownWord);
    }
    let thread = thread_of(workers, thread)?;
    let choice = choice_of(choice)?;
    let times = number_between(1, MOST_TIMES, times)?;
    Ok(Steps {
        thread,
        choice,
        times,
    })
}

/// Reads a claim: one step in which the thread tests and clears the mark of the row (PEP 703, merging queued objects).
fn claim(workers: u8, word: &[u8], thread: &[u8], row: &[u8]) -> Result<Steps, FaultCode>
    ensures { result ≡ steps_in workers (word.now ∷ thread.now ∷ row.now ∷ []) }
{
    if !is_word(word, b"claim") {
        return Err(FaultCode::UnknownWord);
    }
    let thread = thread_of(workers, thread)?;
    let row = number_between(0, LAST_ROW, row)?;
    Ok(Steps {
        thread,
        choice: Choice::Claim(row),
        times: 1,
    })
}

/// Reads a stop: one step in which the thread stops, if it is between two instructions.
fn stop(workers: u8, word: &[u8], thread: &[u8]) -> Result<Steps, FaultCode>
    ensures { result ≡ steps_in workers (word.now ∷ thread.now ∷ []) }
{
    if !is_word(word, b"stop") {
        return Err(FaultCode::UnknownWord);
    }
    let thread = thread_of(workers, thread)?;
    Ok(Steps {
        thread,
        choice: Choice::Stop,
        times: 1,
    })
}

/// Reads the number of a thread: 0 is main, and the workers follow.
fn thread_of(workers: u8, thread: &[u8]) -> Result<u8, FaultCode>
    ensures { result ≡ number_between 0 workers thread.now }
{
    let thread = number_between(0, u32::from(workers), thread)?;
    Ok(thread as u8)
}

fn choice_of(word: &[u8]) -> Result<Choice, FaultCode>
    ensures { result ≡ choice_in word.now }
{
    if is_word(word, b"ok") {
        Ok(Choice::Ok)
    } else if is_word(word, b"fault") {
        Ok(Choice::Fault)
    } else {
        Err(FaultCode::UnknownWord)
    }
}
