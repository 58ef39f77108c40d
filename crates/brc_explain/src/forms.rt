//! The forms of the instructions, as a reader of a fault wants to see them.

use brc_lang::{Function, Instr, Version, write_pieces};
use brc_pages::write_gap;
use std::io;
use std::io::Write;

/// What a word behind an instruction's name has to be.
#[derive(Clone, Copy, PartialEq, Eq)]
pub enum Operand {
    Variable,
    /// A number from the first to the second.
    Number(u32, u32),
    Mode,
    Kind,
    /// The word `else`.
    Else,
    Target,
}

/// The form of an instruction.
#[derive(Clone, Copy)]
pub struct Form {
    /// The first word.
    pub name: &'static str,
    /// The whole line, with letters for its operands.
    pub text: &'static str,
    /// What it does, in terms of C.
    pub does: &'static str,
    /// The words behind the name.
    pub operands: &'static [Operand],
}

const V: Operand = Operand::Variable;

const E: Operand = Operand::Else;

const T: Operand = Operand::Target;

const INDEX: Operand = Operand::Number(0, 255);

const PATH: Operand = Operand::Number(0, 15);

/// The cells of a new list.
pub const CELLS: Operand = Operand::Number(1, 8);

/// The same in version 3, where there may be more.
pub const LONG_CELLS: Operand = Operand::Number(1, 64);

/// The forms of the instructions that each version has, in the order in which a reader looks for them.
pub const FORMS: &[Form] = &[
    Form {
        name: "num",
        text: "num vD K else @L",
        does: "vD = PyLong_FromUnsignedLong(K); goes to @L if NULL",
        operands: &[V, Operand::Number(0, 4_294_967_295), E, T],
    },
    Form {
        name: "list",
        text: "list vD N else @L",
        does: "vD = PyList_New(N); goes to @L if NULL",
        operands: &[V, CELLS, E, T],
    },
    Form {
        name: "none",
        text: "none vD",
        does: "vD = Py_NewRef(Py_None)",
        operands: &[V],
    },
    Form {
        name: "newref",
        text: "newref vD vS",
        does: "vD = Py_NewRef(vS)",
        operands: &[V, V],
    },
    Form {
        name: "move",
        text: "move vD vS",
        does: "hands the reference of vS on to vD",
        operands: &[V, V],
    },
    Form {
        name: "drop",
        text: "drop vS",
        does: "Py_DECREF(vS)",
        operands: &[V],
    },
    Form {
        name: "lock",
        text: "lock vC",
        does: "Py_BEGIN_CRITICAL_SECTION(vC)",
        operands: &[V],
    },
    Form {
        name: "unlock",
        text: "unlock vC",
        does: "Py_END_CRITICAL_SECTION()",
        operands: &[V],
    },
    Form {
        name: "borrow",
        text: "borrow vD vC I else @L",
        does: "vD = PyList_GetItem(vC, I); goes to @L if NULL",
        operands: &[V, V, INDEX, E, T],
    },
    Form {
        name: "fetch",
        text: "fetch vD vC I else @L",
        does: "vD = PyList_GetItemRef(vC, I); goes to @L if NULL",
        operands: &[V, V, INDEX, E, T],
    },
    Form {
        name: "set",
        text: "set vC I vS else @L",
        does: "PyList_SetItem(vC, I, vS) steals vS; goes to @L if < 0",
        operands: &[V, INDEX, V, E, T],
    },
    Form {
        name: "put",
        text: "put vC I vS else @L",
        does: "PySequence_SetItem(vC, I, vS); goes to @L if < 0",
        operands: &[V, INDEX, V, E, T],
    },
    Form {
        name: "open",
        text: "open vD P MODE else @L",
        does: "vD = fopen(path P, MODE); goes to @L if NULL",
        operands: &[V, PATH, Operand::Mode, E, T],
    },
    Form {
        name: "connect",
        text: "connect vD P else @L",
        does: "connects vD to the peer P; goes to @L on failure",
        operands: &[V, PATH, E, T],
    },
    Form {
        name: "read",
        text: "read vD vF N else @L",
        does: "vD = PyLong of read(vF, .., N); goes to @L on failure",
        operands: &[V, V, Operand::Number(1, 4096), E, T],
    },
    Form {
        name: "write",
        text: "write vF vN else @L",
        does: "dprintf(vF, \"%lu\\n\", vN); goes to @L on failure",
        operands: &[V, V, E, T],
    },
    Form {
        name: "as",
        text: "as vS KIND else @L",
        does: "PyList_Check(vS) or the like; goes to @L if it says no",
        operands: &[V, Operand::Kind, E, T],
    },
    Form {
        name: "goto",
        text: "goto @L",
        does: "goes to @L",
        operands: &[T],
    },
    Form {
        name: "again",
        text: "again @L N",
        does: "goes back to @L, N times at most in one call",
        operands: &[T, Operand::Number(1, 65_535)],
    },
    Form {
        name: "ret",
        text: "ret vS",
        does: "return vS;",
        operands: &[V],
    },
    Form {
        name: "fail",
        text: "fail",
        does: "return NULL;",
        operands: &[],
    },
];

/// The form that takes a static list, which only version 3 has.
pub const TAKE: Form = Form {
    name: "take",
    text: "take vD S",
    does: "vD = Py_NewRef(the static list S)",
    operands: &[V, Operand::Number(0, 15)],
};

/// The form of a new list in version 3.
const LONG_LIST: Form = Form {
    name: "list",
    text: "list vD N else @L",
    does: "vD = PyList_New(N); goes to @L if NULL",
    operands: &[V, LONG_CELLS, E, T],
};

/// The form of a call, of which version 1 has none. The number of its operands is that of the function's parameters.
pub const CALL: Form = Form {
    name: "call",
    text: "call vD NAME vA .. else @L",
    does: "vD = NAME(vA, ..); goes to @L if NULL",
    operands: &[],
};

/// Returns the form of the instruction of this name, or `None` if no instruction of the version has it.
pub fn form_of(version: Version, name: &[u8]) -> Option<Form> {
    if version != Version::One && name == CALL.name.as_bytes() {
        return Some(CALL);
    }
    if version == Version::Three && name == TAKE.name.as_bytes() {
        return Some(TAKE);
    }
    if version == Version::Three && name == LONG_LIST.name.as_bytes() {
        return Some(LONG_LIST);
    }
    for form in FORMS {
        if name == form.name.as_bytes() {
            return Some(*form);
        }
    }
    None
}

/// Returns the name of the instruction.
pub fn name_of(instr: Instr) -> &'static str {
    match instr {
        Instr::Num { .. } => "num",
        Instr::List { .. } => "list",
        Instr::NoneObject { .. } => "none",
        Instr::Take { .. } => TAKE.name,
        Instr::Newref { .. } => "newref",
        Instr::Move { .. } => "move",
        Instr::Drop { .. } => "drop",
        Instr::Lock { .. } => "lock",
        Instr::Unlock { .. } => "unlock",
        Instr::Borrow { .. } => "borrow",
        Instr::Fetch { .. } => "fetch",
        Instr::Set { .. } => "set",
        Instr::Put { .. } => "put",
        Instr::Open { .. } => "open",
        Instr::Connect { .. } => "connect",
        Instr::Read { .. } => "read",
        Instr::Write { .. } => "write",
        Instr::As { .. } => "as",
        Instr::Call { .. } => CALL.name,
        Instr::Goto { .. } => "goto",
        Instr::Again { .. } => "again",
        Instr::Ret { .. } => "ret",
        Instr::Fail => "fail",
    }
}

/// Writes the forms of the code's instructions, each once, and what they do in C.
pub fn write_forms<W: Write>(code: &[Instr], out: &mut W) -> io::Result<()> {
    for form in FORMS {
        if has_instruction(code, form.name) {
            write_form_line(form, out)?;
        }
    }
    if has_instruction(code, TAKE.name) {
        write_form_line(&TAKE, out)?;
    }
    if has_instruction(code, CALL.name) {
        write_form_line(&CALL, out)?;
    }
    Ok(())
}

/// Writes the forms of the instructions of all functions, or of the one of the number `only`.
pub fn write_all_forms<W: Write>(
    functions: &[Function],
    only: Option<usize>,
    out: &mut W,
) -> io::Result<()> {
    for form in FORMS {
        if any_has(functions, only, form.name) {
            write_form_line(form, out)?;
        }
    }
    if any_has(functions, only, TAKE.name) {
        write_form_line(&TAKE, out)?;
    }
    if any_has(functions, only, CALL.name) {
        write_form_line(&CALL, out)?;
    }
    Ok(())
}

fn write_form_line<W: Write>(form: &Form, out: &mut W) -> io::Result<()> {
    write_pieces(&[b"  ", form.text.as_bytes()], out)?;
    write_gap(form.text.len(), FORM_WIDTH, out)?;
    write_pieces(&[form.does.as_bytes(), b"\n"], out)
}

fn any_has(functions: &[Function], only: Option<usize>, name: &str) -> bool {
    for (number, function) in functions.iter().enumerate() {
        if is_asked(only, number) && has_instruction(function.code.as_slice(), name) {
            return true;
        }
    }
    false
}

/// Returns whether the function of the number is asked for: all are, if `only` is `None`.
pub fn is_asked(only: Option<usize>, number: usize) -> bool {
    match only {
        None => true,
        Some(asked) => asked == number,
    }
}

fn has_instruction(code: &[Instr], name: &str) -> bool {
    for instr in code {
        if name_of(*instr) == name {
            return true;
        }
    }
    false
}

/// The width of the column with the forms.
const FORM_WIDTH: usize = 22;

/// Names that other languages have for it, and what to write here.
const HINTS: &[(&str, &str)] = &[
    ("incref", "A new reference is `newref vD vS` (Py_NewRef)."),
    (
        "Py_INCREF",
        "A new reference is `newref vD vS` (Py_NewRef).",
    ),
    (
        "decref",
        "A reference is given up by `drop vS` (Py_DECREF).",
    ),
    (
        "Py_DECREF",
        "A reference is given up by `drop vS` (Py_DECREF).",
    ),
    (
        "release",
        "A reference is given up by `drop vS` (Py_DECREF).",
    ),
    (
        "close",
        "A file is closed by `drop vS`, which gives its last reference up.",
    ),
    (
        "return",
        "A call ends by `ret vS` (return vS) or `fail` (return NULL).",
    ),
    (
        "get",
        "An item is read by `borrow` (PyList_GetItem) or `fetch` (PyList_GetItemRef).",
    ),
    ("loop", "A loop is its body and `again @L N` behind it."),
    ("for", "A loop is its body and `again @L N` behind it."),
    ("while", "A loop is its body and `again @L N` behind it."),
    (
        "if",
        "Each instruction that can fail has its `else`; `as` asks for a kind.",
    ),
    ("#", "There are no comments."),
    ("//", "There are no comments."),
    ("--", "There are no comments."),
    (";", "There are no comments."),
];

/// Returns a hint for who writes this word as an instruction's name, or no text.
pub fn hint_for(word: &[u8]) -> &'static str {
    for (name, hint) in HINTS {
        if word == name.as_bytes() {
            return hint;
        }
    }
    ""
}
