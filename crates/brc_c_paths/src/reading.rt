//! What an event reads and assigns.

use brc_c_store::{Event, Fact, Field, Gives, Local, Source};

/// Returns the names whose values an event reads.
pub fn names_read(event: Event) -> [Option<Local>; 2] {
    match event {
        Event::Pass
        | Event::Choice(_)
        | Event::Forget(_)
        | Event::EndItems
        | Event::HandBack { .. }
        | Event::DropCells(_)
        | Event::Unlock
        | Event::Detach
        | Event::Attach
        | Event::ReturnPlain
        | Event::Halt
        | Event::End => [None, None],
        Event::Copy { from, .. } => match from {
            Source::Local(local) => [Some(local), None],
            _ => [None, None],
        },
        Event::Null(local)
        | Event::Sign { of: local, .. }
        | Event::Is { local, .. }
        | Event::Become { local, .. }
        | Event::Use(local)
        | Event::UseOrNull(local)
        | Event::Take(local)
        | Event::Release(local)
        | Event::Give(local)
        | Event::Stow(local)
        | Event::HandOver(local)
        | Event::Lose(local)
        | Event::Assume(local)
        | Event::FreeCells(local)
        | Event::Return(local) => [Some(local), None],
        Event::GiveTo { local, container } | Event::Keep { local, container } => {
            [Some(local), Some(container)]
        }
        Event::Call { gives, .. } => match gives {
            Gives::Item(local) | Gives::Part(local) | Gives::Same(local) => [Some(local), None],
            Gives::Nothing | Gives::New { .. } | Gives::Lent => [None, None],
        },
        Event::Lend {
            to,
            lender,
            is_optional,
        } => [lender, if is_optional { Some(to) } else { None }],
        Event::Read { cell, .. } | Event::ForgetCell(cell) => [cell.holder, None],
        Event::Put { cell, from } => [cell.holder, from],
        Event::Lock { first, second } => [first, second],
    }
}

/// Returns the name that an event assigns on the way `Yes`, whatever it had before.
pub fn name_assigned(event: Event) -> Option<Local> {
    match event {
        Event::Copy { to, .. } | Event::Read { to, .. } => Some(to),
        Event::Lend {
            to,
            is_optional,
            ..
        } => { if is_optional { None } else { Some(to) } }
        Event::Call { gives, into, .. } => match gives {
            Gives::Nothing => None,
            _ => into,
        },
        _ => None,
    }
}

/// Returns the field of which an event asks what it has.
pub(crate) fn field_read(event: Event) -> Option<Field> {
    match event {
        Event::Read { cell, .. } | Event::Put { cell, .. } => Some(cell.field),
        _ => None,
    }
}

/// Returns the condition that an event asks for.
pub(crate) fn fact_read(event: Event) -> Option<Fact> {
    match event {
        Event::Choice(fact) => fact,
        _ => None,
    }
}

/// Returns the condition that an event forgets.
pub(crate) fn fact_forgotten(event: Event) -> Option<Fact> {
    match event {
        Event::Forget(fact) => Some(fact),
        _ => None,
    }
}
