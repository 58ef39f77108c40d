//! The pages of C6 to C9, which are about locks.

use crate::check_pages::API_RULE;
use crate::page::Page;

pub const LEFT_LOCKED: Page = Page {
    code: "C6",
    title: "a lock is left at the end of the call",
    meaning: &[
        "The call ends, by `fail` or `ret`, inside a critical section: the object",
        "stays locked, and each other thread that wants it waits for ever.",
    ],
    rule_heading: API_RULE,
    rule: &[
        "Py_BEGIN_CRITICAL_SECTION and Py_END_CRITICAL_SECTION come in pairs, and no",
        "`return` or `goto` leads out between them. A Python with a global lock",
        "hides the mistake, since both macros are no more than braces there.",
        "(Python/C API: Critical Section API.)",
    ],
    mend: &[
        "Put `unlock vC` before the end, with the variable of the `lock`, on each",
        "path: an `else` inside the section leads to an `unlock` too.",
    ],
    example: &[
        ("module 1", ""),
        ("func f", ""),
        ("lock v0", "@0 Py_BEGIN_CRITICAL_SECTION(v0);"),
        ("num v1 7 else @4", "@1 v1 = PyLong_FromLong(7);"),
        ("unlock v0", "@2 Py_END_CRITICAL_SECTION();"),
        ("ret v1", "@3 return v1;"),
        ("fail", "@4 here if v1 == NULL: still locked"),
        ("end", ""),
    ],
    printed: "refused f @4 C6",
    mended: &[
        ("module 1", ""),
        ("func f", ""),
        ("lock v0", ""),
        ("num v1 7 else @4", ""),
        ("unlock v0", ""),
        ("ret v1", ""),
        ("unlock v0", "@4 Py_END_CRITICAL_SECTION();"),
        ("fail", ""),
        ("end", ""),
    ],
};

pub const SECOND_LOCK: Page = Page {
    code: "C7",
    title: "a second object is locked",
    meaning: &[
        "The instruction locks an object while another one is locked, or the same",
        "one by another variable. A thread locks one object at a time. Or it calls a",
        "function, which may lock an object, while one is locked.",
    ],
    rule_heading: API_RULE,
    rule: &[
        "Threads that lock two objects one after the other may wait for each other",
        "for ever. In C, an inner Py_BEGIN_CRITICAL_SECTION may suspend the outer",
        "one, so what the outer one protects may change meanwhile, and",
        "Py_BEGIN_CRITICAL_SECTION2 locks two objects at once. brc has neither.",
        "(Python/C API: Critical Section API.)",
    ],
    mend: &[
        "Put one section after the other: unlock the first object before you lock",
        "the second, or before you call a function. A reference that is needed in",
        "both is fetched (PyList_GetItemRef) and not borrowed, since a borrowed item",
        "ends with its section.",
    ],
    example: &[
        ("module 1", ""),
        ("func f", ""),
        ("list v1 1 else @6", "@0 v1 = PyList_New(1);"),
        ("lock v0", "@1 Py_BEGIN_CRITICAL_SECTION(v0);"),
        ("lock v1", "@2 a section in a section"),
        ("unlock v1", "@3 Py_END_CRITICAL_SECTION();"),
        ("unlock v0", "@4 Py_END_CRITICAL_SECTION();"),
        ("ret v1", "@5 return v1;"),
        ("fail", "@6 return NULL;"),
        ("end", ""),
    ],
    printed: "refused f @2 C7",
    mended: &[
        ("module 1", ""),
        ("func f", ""),
        ("list v1 1 else @6", ""),
        ("lock v0", ""),
        ("unlock v0", "@2 ends before the next begins"),
        ("lock v1", ""),
        ("unlock v1", ""),
        ("ret v1", ""),
        ("fail", ""),
        ("end", ""),
    ],
};

pub const NOT_LOCKED: Page = Page {
    code: "C8",
    title: "the variable isn't the locked one",
    meaning: &[
        "The instruction reads or changes a list's items (borrow, fetch, set, put),",
        "or reads or writes a file or a socket (read, write), or unlocks an object,",
        "and the object isn't locked through this very variable.",
    ],
    rule_heading: API_RULE,
    rule: &[
        "Without a global lock another thread may replace an item, and free it,",
        "between PyList_GetItem and Py_NewRef. So what is done with a list's items is",
        "done in the list's critical section. brc asks for it also where C doesn't",
        "(PyList_GetItemRef, PyList_SetItem, a list that is new), and for a file and",
        "a socket, since two threads that read from one at once each get some part.",
        "(Python/C API: List Objects; Critical Section API.)",
    ],
    mend: &[
        "Put `lock vC` (Py_BEGIN_CRITICAL_SECTION) before, and `unlock vC` behind it",
        "on each path, also behind the `else`. Unlock with the variable that was",
        "locked, even if another one names the same object.",
    ],
    example: &[
        ("module 1", ""),
        ("func f", ""),
        ("borrow v1 v0 0 else @3", "@0 v1 = PyList_GetItem(v0, 0);"),
        ("newref v1 v1", "@1 v1 = Py_NewRef(v1);"),
        ("ret v1", "@2 return v1;"),
        ("fail", "@3 return NULL;  here if v1 == NULL"),
        ("end", ""),
    ],
    printed: "refused f @0 C8",
    mended: &[
        ("module 1", ""),
        ("func f", ""),
        ("lock v0", "@0 Py_BEGIN_CRITICAL_SECTION(v0);"),
        ("borrow v1 v0 0 else @5", ""),
        ("newref v1 v1", ""),
        ("unlock v0", "@3 Py_END_CRITICAL_SECTION();"),
        ("ret v1", ""),
        ("unlock v0", "@5"),
        ("fail", ""),
        ("end", ""),
    ],
};

pub const LOCKED_CHANGED: Page = Page {
    code: "C9",
    title: "the locked variable is overwritten or given up",
    meaning: &[
        "The instruction overwrites the variable whose object is locked, or gives its",
        "reference up. The call still needs the variable, to unlock the object; and",
        "the object could be freed while it is locked.",
    ],
    rule_heading: API_RULE,
    rule: &[
        "The object of a critical section has to live until Py_END_CRITICAL_SECTION,",
        "which uses it. (Python/C API: Critical Section API.)",
    ],
    mend: &["Move the instruction behind the `unlock`, or use another variable."],
    example: &[
        ("module 1", ""),
        ("func f", ""),
        ("list v1 1 else @4", "@0 v1 = PyList_New(1);"),
        ("lock v1", "@1 Py_BEGIN_CRITICAL_SECTION(v1);"),
        ("drop v1", "@2 Py_DECREF(v1);  while locked"),
        ("unlock v1", "@3 Py_END_CRITICAL_SECTION();"),
        ("fail", "@4 return NULL;"),
        ("end", ""),
    ],
    printed: "refused f @2 C9",
    mended: &[
        ("module 1", ""),
        ("func f", ""),
        ("list v1 1 else @4", ""),
        ("lock v1", ""),
        ("unlock v1", "@2 Py_END_CRITICAL_SECTION();"),
        ("drop v1", "@3 Py_DECREF(v1);"),
        ("fail", ""),
        ("end", ""),
    ],
};
