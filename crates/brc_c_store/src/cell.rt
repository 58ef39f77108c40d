use crate::value::{Local, ObjectId, Value};

/// What keeps a reference beyond the call: the place of its name among those of the function. All fields of one name
/// are one, whatever objects they belong to.
#[derive(Clone, Copy, PartialEq, Eq)]
pub struct Field(pub usize);

/// What a cell owes. It is a label of the graph: nothing of it follows from a store.
#[derive(Clone, Copy, PartialEq, Eq)]
pub struct Owes {
    /// Whether the first value that is stored there replaces a reference that has to be given up.
    pub old: bool,
    /// Whether it may not be left with an object that may be freed.
    pub alive: bool,
    /// Whether it may not be left with an object that is only borrowed.
    pub owned: bool,
    /// Whether other threads may replace it, so that it is read in a critical section of its object.
    pub section: bool,
    /// Whether it is only assumed that it has a reference.
    pub is_assumed: bool,
    /// Whether other functions leave it as it is, so that it has after a call what it had before.
    pub is_steady: bool,
}

/// A field of an object, or a variable that is there after the call, too.
#[derive(Clone, Copy, PartialEq, Eq)]
pub struct Cell {
    /// The name that has the object, or `None` if there is none.
    pub holder: Option<Local>,
    pub field: Field,
    pub owes: Owes,
}

/// A cell that the function has read or set, and what it has.
#[derive(Clone, Copy, PartialEq, Eq)]
pub struct Touched {
    pub holder: Option<ObjectId>,
    pub field: Field,
    pub owes: Owes,
    /// `Unset` if another function may have set it.
    pub value: Value,
    /// Whether it has a reference of its own. Of one that another function may have set: whether this function hasn't
    /// touched it yet.
    pub is_owner: bool,
}
