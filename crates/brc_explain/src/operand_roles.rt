//! What an instruction does with its variables, for the sentences about a fault.

use brc_lang::{Argument, Instr, Variable};

/// An instruction's variables by what it does with them, but for the arguments of a call.
#[derive(Clone, Copy)]
pub struct Roles {
    /// The one that it fills.
    pub filled: Option<Variable>,
    /// The one whose reference it gives away.
    pub given: Option<Variable>,
    /// The one whose object it locks, unlocks, reads or changes.
    pub object: Option<Variable>,
    /// One that it only uses.
    pub used: Option<Variable>,
}

const NONE: Roles = Roles {
    filled: None,
    given: None,
    object: None,
    used: None,
};

/// Returns the variables of the instruction, but for the arguments of a call.
pub fn roles_of(instr: Instr) -> Roles {
    match instr {
        Instr::Num { to, .. }
        | Instr::List { to, .. }
        | Instr::NoneObject { to }
        | Instr::Take { to, .. }
        | Instr::Open { to, .. }
        | Instr::Connect { to, .. }
        | Instr::Call { to, .. } => filling(to),
        Instr::Newref { to, from } => Roles {
            used: Some(from),
            ..filling(to)
        },
        Instr::Move { to, from } => Roles {
            given: Some(from),
            ..filling(to)
        },
        Instr::Drop { from } | Instr::Ret { from } => Roles {
            given: Some(from),
            ..NONE
        },
        Instr::Lock { object } | Instr::Unlock { object } => about(object),
        Instr::Borrow { to, list, .. } | Instr::Fetch { to, list, .. } => Roles {
            filled: Some(to),
            ..about(list)
        },
        Instr::Read { to, file, .. } => Roles {
            filled: Some(to),
            ..about(file)
        },
        Instr::Set { list, from, .. } => Roles {
            given: Some(from),
            ..about(list)
        },
        Instr::Put { list, from, .. } => Roles {
            used: Some(from),
            ..about(list)
        },
        Instr::Write { file, number, .. } => Roles {
            used: Some(number),
            ..about(file)
        },
        Instr::As { from, .. } => Roles {
            used: Some(from),
            ..NONE
        },
        Instr::Goto { .. } | Instr::Again { .. } | Instr::Fail => NONE,
    }
}

/// Returns the arguments of a call; another instruction has none.
pub fn arguments_of(instr: &Instr) -> &[Argument] {
    match instr {
        Instr::Call { arguments, .. } => arguments.as_slice(),
        _ => &[],
    }
}

fn filling(to: Variable) -> Roles {
    Roles {
        filled: Some(to),
        ..NONE
    }
}

fn about(object: Variable) -> Roles {
    Roles {
        object: Some(object),
        ..NONE
    }
}
