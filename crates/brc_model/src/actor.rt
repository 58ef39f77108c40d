use crate::duty::Duty;
use crate::state::Exit;
use brc_lang::Variable;
use std::collections::LinkedList;

/// Whether a thread runs, is leaving or is gone.
#[derive(Clone, Copy, Debug)]
pub enum Status {
    /// It may change the local counts of the objects that it owns.
    Running,
    /// It has announced its exit, and scans its marks.
    Leaving,
    /// It takes no further step.
    Gone,
}

/// A thread, as what it counts with. No value of it is made: it is part of what contracts say of a thread. Which
/// references it holds is said by its account.
pub struct Actor {
    /// Whether the thread runs, is leaving or is gone.
    pub status: Status,
    /// The duties that come next.
    pub agenda: LinkedList<Duty>,
    /// The duties that the thread has put aside, each about another row. A thread in code has none.
    pub aside: LinkedList<Duty>,
    /// The head of its dying chain: 0 if the chain is empty, else a row plus 1.
    pub head: u32,
    /// How many rows of its block it has used.
    pub used: u32,
    /// The row of the object that it has locked.
    pub locked: Option<u32>,
    /// The row of the file or socket whose resource it has lent to a call of the host.
    pub lent: Option<u32>,
}

/// What a call counts, and the calls that are open around it. No value of it is made: it is part of what contracts say
/// of a thread.
pub struct Context {
    /// The calls that the thread has still to make after its outermost one.
    pub left: u32,
    /// How often each instruction `again` of the function, by its point, has gone back in this call.
    pub turns: [u16; 256],
    /// The calls open around this one, the nearest first.
    pub outer: LinkedList<OpenCall>,
}

/// A call that waits for the one that it has made.
pub struct OpenCall {
    /// The function that it has called, by its number in the module.
    pub callee: usize,
    /// The point of the instruction that made the call.
    pub at: usize,
    /// The row that each variable names, if it isn't empty. Those that the call stole are empty, and so is the variable
    /// that takes the result.
    pub variables: [Option<u32>; 16],
    /// How often each instruction `again` of its function, by its point, has gone back in this call.
    pub turns: [u16; 256],
    /// The variable that takes the result.
    pub to: Variable,
    /// The point where the call goes on if the one that it has made fails.
    pub otherwise: usize,
}

/// Where a thread is in its calls once its agenda is done. The beginning of a call is no step of its own.
pub enum Place {
    /// Before its first call, between two calls or after the last, with `left` calls still to make.
    Idle {
        left: u32,
    },
    /// Before the instruction `at` of a call in this context. Each variable names a row, or is empty.
    InCall {
        context: Context,
        at: usize,
        variables: [Option<u32>; 16],
    },
    /// Inside the instruction `at`, which takes several steps, after its first one.
    Inside {
        context: Context,
        at: usize,
        variables: [Option<u32>; 16],
        stage: Stage,
    },
    /// It has stopped. It gives up what its calls hold, and then exits.
    Stopping {
        /// The row that it has still to unlock.
        locked: Option<u32>,
        /// The rows to which it has still to give up references: for each open call, the innermost first, by variable.
        calls: LinkedList<[Option<u32>; 16]>,
    },
    /// It has dispatched its exit.
    Exiting,
}

/// How far a thread is inside an instruction that uses a cell or calls the host.
#[derive(Clone, Copy, Debug)]
pub enum Stage {
    /// The list has the cell.
    InRange,
    /// The list has no such cell.
    OutOfRange,
    /// The cell holds this row.
    Found { row: u32 },
    /// The thread has made a reference for the cell, in flight.
    Retained,
    /// The kind word of the number that is to be written is loaded.
    Loaded,
    /// The resource of the file or socket is lent to the thread.
    Lent,
    /// The host has answered the call by this exit.
    Called { exit: Exit },
    /// The host's call succeeded, and the thread makes the new object next.
    Granted,
}
