//! A row: what the C API's manual says of a function. The words for references are those of its page
//! *Objects, Types and Reference Counts* (<https://docs.python.org/3/c-api/intro.html>).

use brc_lang::Sequence;

/// What is known of a function, or of a field that is called through a pointer.
#[derive(Drop)]
pub struct Row {
    /// Its name, a name of C; of a field without the arrow.
    pub name: Sequence<u8>,
    /// Whether it is a field that holds a pointer to a function, as `tp_alloc` of a type.
    pub is_field: bool,
    pub gives: Gives,
    /// One for each argument; the last one may be about all arguments from there on.
    pub takes: Sequence<Takes>,
    pub fails: Fails,
    /// Whether Python code may run in the call, or the thread may wait: what is borrowed from a container ends there,
    /// and a critical section may be suspended (PEP 703, *Critical sections*).
    pub runs: bool,
}

/// Whose the result is. An argument is named by its index, from 0.
#[derive(Clone, Copy, Debug, PartialEq, Eq)]
pub enum Gives {
    /// `new`: a new reference, which the caller owns.
    New,
    /// `item K`: borrowed from an argument that may change: a list, a dictionary, a cell.
    Item { argument: u8 },
    /// `part K`: borrowed for as long as an argument lives: from a tuple, a type, a module.
    Part { argument: u8 },
    /// `lent`: borrowed for the whole call, from the interpreter, the thread or a static object.
    Lent,
    /// `same K`: an argument itself, as `PyObject_Init` returns its first one.
    Same { argument: u8 },
    /// `null`: always NULL, as from `PyErr_Format`.
    Null,
    /// `int`: a number that shows whether the call failed.
    Number,
    /// `other`: a number or a pointer that is no object and says nothing.
    Other,
    /// `void`: nothing.
    Void,
    /// `free`: nothing; the memory of the first argument is given back, as by `PyObject_Free`.
    Free,
}

/// How an argument is passed. A *stolen* reference is the callee's afterwards, and a *borrowed* one is still the
/// caller's.
#[derive(Clone, Copy, PartialEq, Eq)]
pub enum Takes {
    /// `b`: borrowed.
    Borrowed,
    /// `n`: borrowed, or NULL.
    BorrowedOrNull,
    /// `s`: stolen, whether the call fails or not.
    Stolen,
    /// `t`: stolen if the call succeeds.
    StolenOnSuccess,
    /// `e`: stolen if the call fails.
    StolenOnFailure,
    /// `k`: borrowed, and the first argument makes a reference of its own, as in `PyList_Append`.
    Kept,
    /// `S`: stolen, and the first argument has the reference, as in `PyList_SetItem`.
    StolenAndKept,
    /// `T`: stolen if the call succeeds, and then the first argument has it; NULL makes the call fail, as in
    /// `PyModule_AddObject`.
    KeptOnSuccess,
    /// `N`: borrowed; NULL makes the call fail, as in `PyModule_AddObjectRef`.
    BorrowedOrFails,
    /// `Z`: stolen; NULL makes the call fail, as in `PyModule_Add`.
    StolenOrFails,
    /// `o`: where a new reference is stored.
    Out,
    /// `O`: where a reference is stored that is borrowed from the first argument, as by `PyDict_Next`.
    OutBorrowed,
    /// `x`: a variable whose reference is replaced, as by `_PyTuple_Resize`, or released and NULL if the call fails.
    InOut,
    /// `X`: the same, but it may be NULL after success, too.
    InOutOrNull,
    /// `-`: no object.
    NoObject,
    /// `p`: a format of `PyArg_ParseTuple`, which says what is stored where. `p-*` if the array of names of
    /// `PyArg_ParseTupleAndKeywords` is between the format and the rest.
    ParseFormat,
    /// `f`: a format of `Py_BuildValue`, which says how the rest is passed.
    BuildFormat,
    /// `+`: this and all the rest borrowed, and NULL at the end of some lists.
    RestBorrowed,
    /// `*`: this and all the rest no objects.
    RestNoObjects,
    /// `=`: this and all the rest what a format with `%` asks for; objects are borrowed.
    RestFormatted,
    /// `&`: an array of objects, which are borrowed.
    Array,
    /// `u`: this and all the rest where references are stored that are borrowed from the first argument; those after
    /// as many as the third argument says may be left as they are, as by `PyArg_UnpackTuple`.
    RestOut,
}

/// How a failure shows.
#[derive(Clone, Copy, PartialEq, Eq)]
pub enum Fails {
    /// `null`: the result is NULL.
    Null,
    /// `maybe`: the result may be NULL without a failure, as at the end of an iterator.
    Maybe,
    /// `neg`: the result is -1, and 0 after success. Where references are stored there is NULL.
    Negative,
    /// `less`: the result is -1, and 0 or more after success.
    Less,
    /// `zero`: the result is 0.
    Zero,
    /// `miss`: the result is 1 if something was found, 0 if nothing was, and -1 after a failure; where the reference is
    /// stored there is NULL in the last two.
    Missing,
    /// `none`: the call doesn't fail.
    Never,
}
