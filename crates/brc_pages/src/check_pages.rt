//! The pages of C1 to C12, but for those about locks. In the remarks of an example `@3` is the instruction of that
//! number.

ghost use Rattle.std.specs.Prelude.{◌≡◌, Some};
ghost use Rattle.brc_pages.specs.Topics.{topic_named};
ghost use Rattle.brc_pages.specs.declared.topic.Topic.TheVariants.{Check};

use crate::lock_pages::{LEFT_LOCKED, LOCKED_CHANGED, NOT_LOCKED, SECOND_LOCK};
use crate::page::Page;
use brc_lang::CheckCode;

pub const API_RULE: &str = "The rule of the Python/C API";

const CHECKER_RULE: &str = "The checker's rule";

/// Returns the page of a code.
pub fn check_page(code: CheckCode) -> Page
    ensures { topic_named result.code.now ≡ Some (Check code) }
{
    match code {
        CheckCode::EmptyUsed => EMPTY_USED,
        CheckCode::WrongKind => WRONG_KIND,
        CheckCode::NotOwned => NOT_OWNED,
        CheckCode::StillOwns => STILL_OWNS,
        CheckCode::LeftOwned => LEFT_OWNED,
        CheckCode::LeftLocked => LEFT_LOCKED,
        CheckCode::SecondLock => SECOND_LOCK,
        CheckCode::NotLocked => NOT_LOCKED,
        CheckCode::LockedChanged => LOCKED_CHANGED,
        CheckCode::StatesDiffer => STATES_DIFFER,
        CheckCode::RunsOff => RUNS_OFF,
        CheckCode::NoMemory => NO_MEMORY,
    }
}

const EMPTY_USED: Page = Page {
    code: "C1",
    title: "an empty variable is used",
    meaning: &[
        "On some path the instruction uses a variable that holds nothing there: in C",
        "a PyObject * that is NULL, or one whose object may be freed already. A",
        "variable is empty",
        "- from the start of the call (all but v0, the list that the caller lends, and",
        "  the parameters from v1 on);",
        "- after its reference was given up or handed on, by drop, move, set or a call",
        "  that steals it;",
        "- after the `else` exit of the instruction that should have filled it;",
        "- if it borrows an item of a list, after unlock, set and put: nothing keeps",
        "  the item alive any more.",
        "Or a call has the variable at two places and steals its reference at one of",
        "them, so that the other one would use a reference that is given up.",
    ],
    rule_heading: API_RULE,
    rule: &[
        "Use an object only while a reference keeps it alive: one that you own, or",
        "one that you borrow from an owner. After Py_DECREF the pointer is dead.",
        "PyList_SetItem steals the reference also if it fails, and so does each",
        "function with a parameter of `steal`. An item that PyList_GetItem has",
        "borrowed lives only as long as the list keeps it, and once the critical",
        "section ends another thread may replace it.",
        "(Extending and Embedding: Ownership Rules; Thin Ice. Python/C API: List",
        "Objects; Critical Section API.)",
    ],
    mend: &[
        "- Used after it was given up: use it before, or leave the second release",
        "  out. After set, or a call that steals, there is nothing left to drop, on",
        "  either exit.",
        "- Twice in one call: make a reference of its own for the place that steals,",
        "  by `newref vD vS` (Py_NewRef).",
        "- A borrowed item: make a reference of your own while the list is locked,",
        "  by `newref vD vS` (Py_NewRef), or by `fetch` in place of `borrow`",
        "  (PyList_GetItemRef in place of PyList_GetItem).",
        "- Used on an `else` exit: nothing was made there, so leave the use out.",
    ],
    example: &[
        ("module 1", ""),
        ("func f", ""),
        ("lock v0", "@0 Py_BEGIN_CRITICAL_SECTION(v0);"),
        ("borrow v1 v0 0 else @6", "@1 v1 = PyList_GetItem(v0, 0);"),
        ("unlock v0", "@2 Py_END_CRITICAL_SECTION();"),
        ("newref v2 v1", "@3 v2 = Py_NewRef(v1);  too late"),
        ("drop v2", "@4 Py_DECREF(v2);"),
        ("fail", "@5 return NULL;"),
        ("unlock v0", "@6 here if v1 == NULL"),
        ("fail", "@7 return NULL;"),
        ("end", ""),
    ],
    printed: "refused f @3 C1",
    mended: &[
        ("module 1", ""),
        ("func f", ""),
        ("lock v0", ""),
        ("borrow v1 v0 0 else @6", ""),
        ("newref v2 v1", "@2 while v0 is locked"),
        ("unlock v0", ""),
        ("drop v2", ""),
        ("fail", ""),
        ("unlock v0", ""),
        ("fail", ""),
        ("end", ""),
    ],
};

const WRONG_KIND: Page = Page {
    code: "C2",
    title: "an object of the wrong kind",
    meaning: &[
        "The instruction wants an object of a certain kind (none, num, list, file or",
        "sock), and the variable's object is of another kind or isn't known to be of",
        "this one. An item of a list may be anything until `as` has asked for its",
        "kind, and so may what a call returns. lock and unlock are for lists, files",
        "and sockets; borrow, fetch, set and put for lists; read and write for files",
        "and sockets; what write writes is a number; an argument of a call is of its",
        "parameter's kind, unless that is `any`; `as` mustn't ask what can't be so.",
    ],
    rule_heading: API_RULE,
    rule: &[
        "A call for one concrete type mustn't be given an object of another:",
        "PyList_GET_ITEM asks nothing, and reads whatever lies in memory there. If",
        "you got an object from elsewhere, ask for its type first, by PyList_Check,",
        "PyLong_Check and the like. (Python/C API: Concrete Objects Layer; List",
        "Objects.)",
    ],
    mend: &[
        "Ask before: `as vS list else @L` (PyList_Check) goes on where the object is",
        "a list, and at L where it isn't. Each of the two ways needs an end of its",
        "own. If the kind is known and is another one, it is the wrong variable.",
    ],
    example: &[
        ("module 1", ""),
        ("func f", ""),
        ("lock v0", "@0 Py_BEGIN_CRITICAL_SECTION(v0);"),
        ("fetch v1 v0 0 else @7", "@1 v1 = PyList_GetItemRef(v0, 0);"),
        ("unlock v0", "@2 Py_END_CRITICAL_SECTION();"),
        ("lock v1", "@3 as if v1 were a list"),
        ("unlock v1", "@4"),
        ("drop v1", "@5 Py_DECREF(v1);"),
        ("fail", "@6 return NULL;"),
        ("unlock v0", "@7 here if v1 == NULL"),
        ("fail", "@8"),
        ("end", ""),
    ],
    printed: "refused f @3 C2",
    mended: &[
        ("module 1", ""),
        ("func f", ""),
        ("lock v0", ""),
        ("fetch v1 v0 0 else @10", ""),
        ("unlock v0", ""),
        ("as v1 list else @8", "@3 if (!PyList_Check(v1)) goto @8;"),
        ("lock v1", "@4 v1 is a list"),
        ("unlock v1", ""),
        ("drop v1", ""),
        ("fail", ""),
        ("drop v1", "@8 v1 is something else"),
        ("fail", ""),
        ("unlock v0", "@10 here if v1 == NULL"),
        ("fail", ""),
        ("end", ""),
    ],
};

const NOT_OWNED: Page = Page {
    code: "C3",
    title: "a borrowed reference is given up",
    meaning: &[
        "The instruction gives a reference away (drop, move, set, ret, or a call that",
        "steals it), and the variable only borrows it: from the caller, as v0 and a",
        "parameter of `borrow`, or from a locked list.",
        "The owner would give it up once more, so the object's count would be one",
        "too low, and it would be freed while it is still used.",
    ],
    rule_heading: API_RULE,
    rule: &[
        "Only who owns a reference gives it up. Arguments are borrowed from the",
        "caller, and PyList_GetItem returns a borrowed reference: no Py_DECREF for",
        "them. What a function returns must be owned, and so must what a call",
        "steals, as PyList_SetItem does. (Python/C API, Introduction: Reference",
        "Count Details. Extending and Embedding: Ownership Rules.)",
    ],
    mend: &[
        "- drop: leave it out.",
        "- ret, set, move or call: make a reference of your own first, by `newref vD",
        "  vS` (Py_NewRef), and give that one away.",
        "- An item that is to be kept or returned: `fetch` in place of `borrow`",
        "  (PyList_GetItemRef in place of PyList_GetItem).",
    ],
    example: &[
        ("module 1", ""),
        ("func f", "v0: the caller's list, borrowed"),
        ("num v1 7 else @3", "@0 v1 = PyLong_FromLong(7);"),
        ("drop v0", "@1 Py_DECREF(v0);  not ours"),
        ("ret v1", "@2 return v1;"),
        ("fail", "@3 return NULL;  here if v1 == NULL"),
        ("end", ""),
    ],
    printed: "refused f @1 C3",
    mended: &[
        ("module 1", ""),
        ("func f", ""),
        ("num v1 7 else @2", ""),
        ("ret v1", ""),
        ("fail", ""),
        ("end", ""),
    ],
};

const STILL_OWNS: Page = Page {
    code: "C4",
    title: "an owned reference is overwritten",
    meaning: &[
        "The instruction puts something into a variable that still owns a reference.",
        "That reference would be lost: nobody could give it up any more, and its",
        "object would never be freed. A file would stay open.",
    ],
    rule_heading: API_RULE,
    rule: &[
        "Whoever owns a reference gives it up exactly once. A PyObject * that owns",
        "one isn't overwritten before Py_DECREF, or before the reference is handed",
        "on (Py_SETREF does both in the right order). (Python/C API, Introduction:",
        "Reference Count Details; Reference Counting.)",
    ],
    mend: &[
        "Put `drop vD` (Py_DECREF) before the instruction, or let it fill another",
        "variable. In a loop: each pass gives up what it has made.",
    ],
    example: &[
        ("module 1", ""),
        ("func f", ""),
        ("num v1 1 else @3", "@0 v1 = PyLong_FromLong(1);"),
        ("num v1 2 else @3", "@1 v1 = PyLong_FromLong(2);  1 is lost"),
        ("ret v1", "@2 return v1;"),
        ("fail", "@3 return NULL;  here if v1 == NULL"),
        ("end", ""),
    ],
    printed: "refused f @1 C4",
    mended: &[
        ("module 1", ""),
        ("func f", ""),
        ("num v1 1 else @4", ""),
        ("drop v1", "@1 Py_DECREF(v1);"),
        ("num v1 2 else @4", ""),
        ("ret v1", ""),
        ("fail", ""),
        ("end", ""),
    ],
};

const LEFT_OWNED: Page = Page {
    code: "C5",
    title: "a reference is left at the end of the call",
    meaning: &[
        "The call ends, by `fail` or `ret`, and a variable still owns a reference",
        "(at `ret v1`: another one than v1). No code is left that could give it up,",
        "so its object is never freed: a leak. Of a file, it stays open.",
    ],
    rule_heading: API_RULE,
    rule: &[
        "Whoever owns a reference gives it up exactly once: by Py_DECREF, by handing",
        "it to a call that steals it, as PyList_SetItem does, or by returning it. So",
        "each `return`, and each `return NULL` of an error path too, first releases",
        "all that the function owns there. PyList_Append and PyDict_SetItem steal",
        "nothing: the caller's own reference remains. (Python/C API, Introduction:",
        "Reference Count Details. Extending and Embedding: Ownership Rules.)",
    ],
    mend: &[
        "On the path that is at fault, put `drop vN` (Py_DECREF) before the end, or",
        "return the reference by `ret vN`. Paths that own different things need ends",
        "of their own.",
    ],
    example: &[
        ("module 1", ""),
        ("func f", ""),
        ("num v1 1 else @5", "@0 v1 = PyLong_FromLong(1);"),
        ("num v2 2 else @4", "@1 v2 = PyLong_FromLong(2);"),
        ("drop v1", "@2 Py_DECREF(v1);"),
        ("ret v2", "@3 return v2;"),
        ("fail", "@4 here if v2 == NULL: v1 is lost"),
        ("fail", "@5 here if v1 == NULL"),
        ("end", ""),
    ],
    printed: "refused f @4 C5",
    mended: &[
        ("module 1", ""),
        ("func f", ""),
        ("num v1 1 else @5", ""),
        ("num v2 2 else @4", ""),
        ("drop v1", ""),
        ("ret v2", ""),
        ("drop v1", "@4 Py_DECREF(v1);"),
        ("fail", "@5 return NULL;"),
        ("end", ""),
    ],
};

const STATES_DIFFER: Page = Page {
    code: "C10",
    title: "two paths meet in different states",
    meaning: &[
        "Two paths lead to the instruction, and a variable isn't in the same state on",
        "both: empty, owning or borrowing, the kind of its object, whether it is the",
        "locked one. What comes next would be right for one of the paths at most. In",
        "a loop, the two paths are the way in and the way back of `again`: a pass",
        "leaves something behind, or gives up what it didn't make.",
    ],
    rule_heading: CHECKER_RULE,
    rule: &[
        "At each instruction it is known what each variable owns, whichever path led",
        "there. C has no such rule, and goes on with Py_XDECREF where a variable may",
        "be NULL; but code that can't tell what it owns is where Py_DECREF is",
        "forgotten or done twice. (Python/C API, Introduction: Reference Count",
        "Details, on error paths.)",
    ],
    mend: &[
        "- Let each path give up what it owns before it joins the other.",
        "- Or give each its own end: a label for each state, as `goto one` and",
        "  `goto none` in place of one `goto error`.",
        "- In a loop: give up at the end of each pass what the pass has made.",
        "- An item is borrowed on one path alone: an `unlock` of its own on each path",
        "  empties the variable; or, where it borrows, `none vN` and `drop vN`.",
        "- Kinds that differ: what a `call` returns is of no known kind. In a text that",
        "  begins with `module 2`, let a function make the object, as `func zero`,",
        "  `num v1 0 else @2`, `ret v1`, `fail`, `end`, and `call vN zero else @L`.",
        "- `as` asks on one path alone, in a loop too: ask about a second reference,",
        "  made by `newref vM vN`, and drop that on each way.",
    ],
    example: &[
        ("module 1", ""),
        ("func f", ""),
        ("num v1 1 else @4", "@0 v1 = PyLong_FromLong(1);"),
        ("num v2 2 else @4", "@1 v2 = PyLong_FromLong(2);"),
        ("drop v1", "@2 Py_DECREF(v1);"),
        ("ret v2", "@3 return v2;"),
        ("drop v1", "@4 from @0 v1 is NULL, from @1 it owns"),
        ("fail", "@5 return NULL;"),
        ("end", ""),
    ],
    printed: "refused f @4 C10",
    mended: &[
        ("module 1", ""),
        ("func f", ""),
        ("num v1 1 else @5", "@0 goes to @5 if v1 == NULL"),
        ("num v2 2 else @4", ""),
        ("drop v1", ""),
        ("ret v2", ""),
        ("drop v1", "@4 only from @1"),
        ("fail", "@5 v1 is empty on both paths"),
        ("end", ""),
    ],
};

const RUNS_OFF: Page = Page {
    code: "C11",
    title: "a path runs off the end",
    meaning: &["A path goes on behind the function's last instruction, where there is none."],
    rule_heading: API_RULE,
    rule: &[
        "A C function of a module returns a new reference, or NULL with an exception",
        "set; it doesn't run past its closing brace. (Extending and Embedding: Errors",
        "and Exceptions.)",
    ],
    mend: &[
        "End each path with `ret vS` (return an owned reference) or `fail` (return",
        "NULL). A function that has nothing to return returns None: `none v1` and",
        "`ret v1` (Py_RETURN_NONE).",
    ],
    example: &[
        ("module 1", ""),
        ("func f", ""),
        ("none v1", "@0 v1 = Py_NewRef(Py_None);"),
        ("end", "   and no return"),
    ],
    printed: "refused f @0 C11",
    mended: &[
        ("module 1", ""),
        ("func f", ""),
        ("none v1", ""),
        ("ret v1", "@1 return v1;"),
        ("end", ""),
    ],
};

const NO_MEMORY: Page = Page {
    code: "C12",
    title: "memory was refused",
    meaning: &[
        "brc needed memory to check the module, and the system gave it none. It says",
        "nothing of the module. `brc` prints `no memory` and ends with status 3.",
    ],
    rule_heading: CHECKER_RULE,
    rule: &[
        "The checker keeps one state for each instruction: a few hundred kilobytes",
        "for the largest module that there is.",
    ],
    mend: &["Run brc again with more memory. The module needs no change."],
    example: &[],
    printed: "",
    mended: &[],
};
