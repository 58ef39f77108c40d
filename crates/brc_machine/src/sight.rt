//! What one step of a thread does, as it can be seen from outside: the part of the thread's work that the step belongs
//! to, and its event.

use brc_lang::Kind;
use brc_model::{Address, Duty, Exit, Layout};

/// What a step does.
#[derive(Clone, Copy)]
pub enum Event {
    /// It changes the thread alone.
    Silent,
    /// It is a host call, which ends by the exit.
    Calls(Exit),
    /// It does the duty: it accesses the word at the address, finds one value there and leaves the other. If it only
    /// loads the word, or if its compare-exchange fails, both are the same.
    Does {
        duty: Duty,
        address: Address,
        found: u64,
        left: u64,
    },
}

/// A part of a thread's exit.
#[derive(Clone, Copy, PartialEq, Eq)]
pub enum ExitPart {
    /// The thread releases its reference to the root, and deallocates what dies by that.
    Root,
    /// It announces its exit.
    Leave,
    /// It scans its marks, and merges the objects that it finds queued.
    Marks,
    /// It says that it is gone.
    Gone,
}

/// A part of a thread's work, of one step or more.
#[derive(Clone, Copy, PartialEq, Eq)]
pub enum Part {
    /// The instruction with this number, from 0, of the function that the thread's innermost call runs.
    Instruction { at: usize },
    /// The claim of the row, and the merge to which it leads.
    Claim { row: u32 },
    /// The stop of the thread, and all that it unlocks and gives up by that.
    Stop,
    /// The thread's exit.
    Exit(ExitPart),
}

/// What a thread's next step does.
#[derive(Clone, Copy)]
pub struct Sight {
    /// How many rows each thread has. It decides which rows have their marks in a mark word.
    pub layout: Layout,
    /// The part of the thread's work that the step belongs to, where the thread's state says it. If it is `None`, the
    /// step goes on with the part that the last of the thread's sights named.
    pub begins: Option<Part>,
    pub event: Event,
    /// The number of the function that the thread's innermost call runs, or outside its calls of the one that it calls.
    pub function: usize,
    /// Whether the thread runs, as the step begins: it has neither announced its exit nor gone.
    pub running: bool,
    /// The head of the thread's dying chain as the step begins: 0 if it is empty, else a row plus 1.
    pub head: u32,
    /// The exit by which the step ends if it is a host call or a close.
    pub exit: Exit,
    /// The kind of the object that the step makes, if it is the last one of a birth.
    pub born: Option<Kind>,
}
