use crate::cell::{Cell, Field};
use crate::signs::{Signs, Test};
use crate::value::{Fact, Local, Singleton};

/// Which way a path goes on after an event.
#[derive(Clone, Copy, PartialEq, Eq)]
pub enum Choice {
    /// The only way, the one where a condition holds, or where a call succeeds.
    Yes,
    /// The way where a condition doesn't hold, or where a call fails.
    No,
    /// The way where a call finds nothing.
    Missing,
}

/// Which ways there are after a call.
#[derive(Clone, Copy, PartialEq, Eq)]
pub enum Calling {
    Succeeds,
    MayFail,
    /// It may fail, or find nothing.
    MayMiss,
}

/// What a call gives if it succeeds.
#[derive(Clone, Copy, PartialEq, Eq)]
pub enum Gives {
    /// No object.
    Nothing,
    /// A new reference. Fresh is what the call has made.
    New { is_fresh: bool, is_assumed: bool },
    /// A reference that is borrowed from a container, which may change.
    Item(Local),
    /// A reference that another object lends as long as it lives.
    Part(Local),
    /// A reference that is lent for the whole call.
    Lent,
    /// The object that another name has.
    Same(Local),
}

/// What is assigned.
#[derive(Clone, Copy, PartialEq, Eq)]
pub enum Source {
    /// Nothing: the name is declared.
    Nothing,
    Null,
    Local(Local),
    Number(Signs),
    Singleton(Singleton),
    /// An object of which nothing is known, or NULL.
    Unknown,
}

/// What a function does at a point, as far as references go. A call of the C API is several events: each argument is
/// asked for or given, then comes the call itself, and where it succeeds the rest of what it does.
#[derive(Clone, Copy)]
pub enum Event {
    /// Nothing: paths meet here.
    Pass,
    Copy {
        to: Local,
        from: Source,
    },
    /// Asks whether a name has NULL.
    Null(Local),
    /// Asks for a number.
    Sign {
        of: Local,
        test: Test,
    },
    /// Asks for something of which nothing is known.
    Choice(Option<Fact>),
    /// Asks whether a name has a singleton that only the function itself can have assigned to it.
    Is {
        local: Local,
        singleton: Singleton,
    },
    /// A name was found to have a singleton: where it has NULL, or another one, no path goes on.
    Become {
        local: Local,
        singleton: Singleton,
    },
    /// What was found for a condition holds no more.
    Forget(Fact),
    /// Uses the object that a name has.
    Use(Local),
    /// The same where NULL serves too.
    UseOrNull(Local),
    /// Makes a reference, as `Py_INCREF`.
    Take(Local),
    /// Gives a reference up, as `Py_DECREF`.
    Release(Local),
    /// Gives a reference away, as to a call that steals it. NULL is none.
    Give(Local),
    /// The same, to a container that has the reference then. If the container is lent, its items are lent too.
    GiveTo {
        local: Local,
        container: Local,
    },
    /// A container makes a reference of its own.
    Keep {
        local: Local,
        container: Local,
    },
    /// The object's reference, if there is one, is kept where nothing is followed.
    Stow(Local),
    /// The object is the caller's afterwards, where an argument points to. One that is only lent is left as it is.
    HandOver(Local),
    /// An expression ends that alone has the object: what the function owns of it is lost, unless a name has it.
    Lose(Local),
    /// Something is assumed of the object that a name has.
    Assume(Local),
    /// Other code runs, or a container changes: what is borrowed as an item isn't alive any more.
    EndItems,
    Call {
        gives: Gives,
        into: Option<Local>,
        calling: Calling,
    },
    /// An object is stored there that an argument lends. NULL may be left as it is.
    Lend {
        to: Local,
        lender: Option<Local>,
        is_optional: bool,
    },
    /// Reads what a cell has: an object, or NULL.
    Read {
        cell: Cell,
        to: Local,
    },
    /// Stores what a name has in a cell, or NULL.
    Put {
        cell: Cell,
        from: Option<Local>,
    },
    /// Each cell gets the reference that it has to have: the function returns, or other code runs, which may set cells.
    HandBack {
        runs_code: bool,
    },
    /// The same of one cell, which another function may set.
    ForgetCell(Cell),
    /// What has the name of these cells may be another one: they are forgotten.
    DropCells(Field),
    /// An object's memory is given back, and its cells with it.
    FreeCells(Local),
    /// Begins a critical section of one object or two.
    Lock {
        first: Option<Local>,
        second: Option<Local>,
    },
    Unlock,
    /// Allows other threads to run.
    Detach,
    Attach,
    /// Returns an object or NULL.
    Return(Local),
    /// Returns a number, a singleton, or nothing.
    ReturnPlain,
    /// The process ends.
    Halt,
    /// A function that gives an object ends without `return`.
    End,
}
