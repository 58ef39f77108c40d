use brc_lang::Variable;
use brc_model::Holding;

/// What is wrong about an event.
#[derive(Clone, Copy)]
pub enum Complaint {
    /// The thread reads a variable that is empty.
    Empty {
        variable: Variable,
    },
    /// The thread's function has no further instruction.
    RunsOff,
    /// The thread can't go on for another reason.
    Stuck,
    /// The thread touches the object of the row, which is closed, or which the thread `by` deallocates.
    Freed {
        row: u32,
        by: Option<u8>,
    },
    /// The thread gives up, stores or hands on a reference to the object that it doesn't hold.
    Unheld {
        row: u32,
        holding: Holding,
        way: Use,
    },
    /// The thread makes a reference to an object to which there is none.
    Unreferenced {
        row: u32,
    },
    /// The thread closes an object to which there are references, or which is closed.
    Closes {
        row: u32,
    },
    /// The thread begins an instruction that needs a lock, or has to be without one, or an object of another kind. It
    /// has locked the object of the row.
    Unfit {
        locked: Option<u32>,
    },
    /// Nothing is wrong.
    Nothing,
}

/// What a thread does with a reference that it doesn't hold.
#[derive(Clone, Copy)]
pub enum Use {
    GivesUp,
    Stores,
    HandsOn,
}
