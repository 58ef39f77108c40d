/// The list that each call is lent: the only lock of a text.
pub(crate) const LOCK: u8 = 0;

/// Any reference that is lent for the whole call.
pub(crate) const LENT: u8 = 1;

/// Any list that isn't locked.
pub(crate) const UNLOCKED: u8 = 2;

/// Where a line leads if it doesn't lead to the next one.
#[derive(Clone, Copy)]
pub(crate) enum Target {
    /// The first line of a block, by the block's number.
    Block(usize),
    /// The lines from which a path goes back to a block above.
    Detour(usize),
    /// The line of this number.
    Line(usize),
    /// The line below.
    Below,
}

/// A line of a text: an instruction, with its operands. Variables have their numbers.
#[derive(Clone, Copy)]
pub(crate) enum Line {
    Lock,
    Unlock,
    Newref { to: u8, from: u8 },
    Drop(u8),
    /// A free choice. It changes nothing, and the checker follows both exits.
    Ask(Target),
    /// A new reference while the lock is locked.
    Fetch { to: u8, otherwise: Target },
    /// A new reference while the lock isn't locked.
    Make { to: u8, otherwise: Target },
    Borrow { to: u8, list: u8, otherwise: Target },
    Goto(Target),
    /// A jump back to a block above.
    Again(usize),
    Return(u8),
    Fail,
}
