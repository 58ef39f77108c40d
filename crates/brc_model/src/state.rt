use brc_lang::{Kind, Variable};

/// The checker's knowledge of one variable. (Extending manual, Ownership Rules: a reference is owned or borrowed.)
#[derive(Clone, Copy, Debug, PartialEq, Eq)]
pub enum Slot {
    /// It names no object.
    Empty,
    /// It owns a reference, which it has to give up once.
    Owned(Kind),
    /// It borrows from the caller, for as long as the call lasts.
    Caller(Kind),
    /// It borrows from the locked list, until that list is unlocked or changed.
    Locked(Kind),
}

/// The checker's knowledge at one point of a function.
#[derive(Clone, Copy, Debug, PartialEq, Eq)]
pub struct State {
    /// Each variable's state, by the variable's number.
    pub slots: [Slot; 16],
    /// The variable whose critical section is open.
    pub locked: Option<Variable>,
}

/// How an instruction ends. If it can't fault, both exits are the same.
#[derive(Clone, Copy, Debug, PartialEq, Eq)]
pub enum Exit {
    Success,
    Fault,
}
