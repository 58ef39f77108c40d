ghost use Rattle.std.specs.Prelude.{◌≡◌};
ghost use Rattle.brc_lang.specs.Grammar.{jump, turn};

use crate::arguments::Arguments;
use crate::kind::Kind;
use crate::mode::Mode;
use crate::name::Name;
use crate::parameter::Parameter;
use crate::sequence::Sequence;
use crate::variable::Variable;
use crate::version::Version;

/// A module: its version, 0 to 16 static lists, and 1 to 64 functions with names of their own, in text order.
#[derive(Debug, Drop)]
pub struct Module {
    pub version: Version,
    /// The 1 to 64 numbers that each static list has at first, from list 0 on. In versions 1 and 2 there are none.
    pub statics: Sequence<Sequence<u32>>,
    pub functions: Sequence<Function>,
}

/// A function: its name, 0 to 4 parameters, and its 1 to 256 instructions, which are numbered from 0.
#[derive(Debug, Drop)]
pub struct Function {
    pub name: Name,
    /// They are the variables from v1 on at the function's entry. In version 1 there are none.
    pub parameters: Sequence<Parameter>,
    pub code: Sequence<Instr>,
}

/// An instruction, with its operands in the order of the text.
///
/// References follow the ownership rules of the Python/C API (Introduction, Reference Count Details). A target is the
/// number of a later instruction of the function; that of `again` is its own number or an earlier one.
#[derive(Clone, Copy, Debug)]
pub enum Instr {
    /// `num vD K else @L`: makes a number of the value K and owns it in vD; goes on at L if the worker has no row left.
    Num {
        to: Variable,
        value: u32,
        otherwise: u8,
    },
    /// `list vD N else @L`: makes a list of N empty cells, 1 to 8 or, in version 3, 1 to 64, and owns it in vD; goes on
    /// at L if the worker has no row left (`PyList_New`).
    List {
        to: Variable,
        cells: u8,
        otherwise: u8,
    },
    /// `none vD`: owns a reference to none in vD.
    NoneObject {
        to: Variable,
    },
    /// `take vD S`: owns a reference to static list S, 0 to 15, in vD. Before version 3 there is none.
    Take {
        to: Variable,
        list: u8,
    },
    /// `newref vD vS`: owns a new strong reference in vD to the object that vS names (`Py_NewRef`).
    Newref {
        to: Variable,
        from: Variable,
    },
    /// `move vD vS`: moves the reference from vS to vD; vS is empty afterwards.
    Move {
        to: Variable,
        from: Variable,
    },
    /// `drop vS`: releases the reference in vS (`Py_DECREF`).
    Drop {
        from: Variable,
    },
    /// `lock vC`: begins the critical section of the object that vC names (`Py_BEGIN_CRITICAL_SECTION`).
    Lock {
        object: Variable,
    },
    /// `unlock vC`: ends the critical section of the object that vC names (`Py_END_CRITICAL_SECTION`).
    Unlock {
        object: Variable,
    },
    /// `borrow vD vC I else @L`: borrows in vD the item at index I of the list that vC names (`PyList_GetItem`); goes
    /// on at L if the index is out of range or the cell is empty.
    Borrow {
        to: Variable,
        list: Variable,
        index: u8,
        otherwise: u8,
    },
    /// `fetch vD vC I else @L`: owns in vD a new strong reference to the item at index I of the list that vC names
    /// (`PyList_GetItemRef`); goes on at L if the index is out of range or the cell is empty.
    Fetch {
        to: Variable,
        list: Variable,
        index: u8,
        otherwise: u8,
    },
    /// `set vC I vS else @L`: moves the reference from vS to the cell at index I of the list that vC names, and
    /// releases the old item (`PyList_SetItem`); goes on at L if the index is out of range. It steals the reference on
    /// both exits: vS is empty afterwards, and at L the reference is released.
    Set {
        list: Variable,
        index: u8,
        from: Variable,
        otherwise: u8,
    },
    /// `put vC I vS else @L`: stores a new strong reference to the object that vS names in the cell at index I of the
    /// list that vC names, and releases the old item; goes on at L if the index is out of range. It steals nothing
    /// (as `PyDict_SetItem`).
    Put {
        list: Variable,
        index: u8,
        from: Variable,
        otherwise: u8,
    },
    /// `open vD P MODE else @L`: opens the path of the number P, 0 to 15, in a mode, `r`, `w`, `rw`, `wc` or `rwc`, and
    /// owns the file in vD; goes on at L if the worker has no row left or the host refuses.
    Open {
        to: Variable,
        path: u8,
        mode: Mode,
        otherwise: u8,
    },
    /// `connect vD P else @L`: connects to the peer of the number P, 0 to 15, and owns the socket in vD; goes on at L
    /// if the worker has no row left or the host refuses.
    Connect {
        to: Variable,
        peer: u8,
        otherwise: u8,
    },
    /// `read vD vF N else @L`: reads at most N bytes, 1 to 4096, from the file or socket that vF names, and owns in vD
    /// a new number, their count; goes on at L if the worker has no row left or the host fails.
    Read {
        to: Variable,
        file: Variable,
        most: u16,
        otherwise: u8,
    },
    /// `write vF vN else @L`: writes the decimal digits of the number that vN names and a line feed to the file or
    /// socket that vF names; goes on at L if the host fails.
    Write {
        file: Variable,
        number: Variable,
        otherwise: u8,
    },
    /// `as vS KIND else @L`: goes on at L if the object that vS names isn't of the kind.
    As {
        from: Variable,
        kind: Kind,
        otherwise: u8,
    },
    /// `call vD NAME vA .. else @L`: calls the function of this name, which stands above, with an argument for each
    /// of its parameters, and owns what it returns in vD; goes on at L if it fails. It steals the arguments of `steal`
    /// parameters on both exits: their variables are empty afterwards. In version 1 there is none.
    Call {
        to: Variable,
        /// The number of the function, from 0 in the order of the text.
        callee: u8,
        arguments: Arguments,
        otherwise: u8,
    },
    /// `goto @L`: goes on at the instruction L.
    Goto {
        target: u8,
    },
    /// `again @L N`: goes back to the instruction L, at most N times in one call, 1 to 65535; after that goes on at the
    /// next instruction.
    Again {
        target: u8,
        times: u16,
    },
    /// `ret vS`: ends the call and returns the reference in vS to the caller, who owns it.
    Ret {
        from: Variable,
    },
    /// `fail`: ends the call with an error and returns no reference.
    Fail,
}

impl Instr {
    /// Returns the target behind `else` or `goto`, which leads forward, or `None`.
    pub fn jump(self) -> Option<u8>
        ensures { result ≡ jump self }
    {
        match self {
            Instr::Num { otherwise, .. }
            | Instr::List { otherwise, .. }
            | Instr::Borrow { otherwise, .. }
            | Instr::Fetch { otherwise, .. }
            | Instr::Set { otherwise, .. }
            | Instr::Put { otherwise, .. }
            | Instr::Open { otherwise, .. }
            | Instr::Connect { otherwise, .. }
            | Instr::Read { otherwise, .. }
            | Instr::Write { otherwise, .. }
            | Instr::As { otherwise, .. }
            | Instr::Call { otherwise, .. } => Some(otherwise),
            Instr::Goto { target } => Some(target),
            _ => None,
        }
    }

    /// Returns the target of `again`, which leads back, or `None` for another instruction.
    pub fn turn(self) -> Option<u8>
        ensures { result ≡ turn self }
    {
        match self {
            Instr::Again { target, .. } => Some(target),
            _ => None,
        }
    }
}
