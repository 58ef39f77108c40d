ghost use Rattle.std.specs.Prelude.{◌≡◌};
ghost use Rattle.brc_c_store.specs.Stores.{contents_of};
ghost use Rattle.brc_c_store.specs.Faults.{fault_if, object_from, copying, borrows_unprotected, object_given};
ghost use Rattle.brc_c_store.specs.Faults.{loses_this, has_reference, giving_up, giving, is_nothing, putting};
ghost use Rattle.brc_c_store.specs.Faults.{is_dead_object, releasing, forgetting, unlocking, faults_of};
ghost use Rattle.brc_c_store.specs.Faults.{calling, is_unlocked, leaves, ending, returning_object, returning};

use crate::asking::{is_spent, is_unprotected, left_by};
use crate::cell::Cell;
use crate::cells::{handing, is_exposed, left_in, loses_cell};
use crate::event::{Event, Gives, Source};
use crate::object::{Base, Object};
use crate::rules::Rules;
use crate::store::Store;
use crate::value::{Local, ObjectId, Value};
use brc_lang::CheckCode;

/// Returns the rule that an event breaks in a store, if any. The codes are modules': a dead object is used (C1),
/// what is borrowed is given up (C3), a reference is lost (C4, C5), a section is left open (C6), an item is borrowed
/// without a lock (C8), or the function runs off its end (C11).
pub fn faults(rules: Rules, event: Event, store: &Store) -> Option<CheckCode>
    ensures { result ≡ faults_of rules event (contents_of store.now) }
{
    match event {
        Event::Pass
        | Event::Choice(_)
        | Event::Sign { .. }
        | Event::Is { .. }
        | Event::Become { .. }
        | Event::Forget(_)
        | Event::Keep { .. }
        | Event::Stow(_)
        | Event::HandOver(_)
        | Event::Assume(_)
        | Event::EndItems
        | Event::DropCells(_)
        | Event::FreeCells(_)
        | Event::Lock { .. }
        | Event::Detach
        | Event::Attach
        | Event::Halt => None,
        Event::Copy { to, from } => copying(store, to, from),
        Event::Lend { to, .. } => fault_if(store.loses(to, None), CheckCode::StillOwns),
        Event::Lose(local) => fault_if(store.loses(local, None), CheckCode::LeftOwned),
        Event::Null(local) => fault_if(store.value(local) == Value::Unset, CheckCode::EmptyUsed),
        Event::Use(local) | Event::Take(local) => {
            fault_if(store.is_dead(local), CheckCode::EmptyUsed)
        }
        Event::UseOrNull(local) => fault_if(is_dead_object(store, local), CheckCode::EmptyUsed),
        Event::Release(local) => releasing(store, local),
        Event::Give(local) | Event::GiveTo { local, .. } => giving(store, local),
        Event::Call { gives, into, .. } => calling(rules, store, gives, into),
        Event::Read { cell, .. } => fault_if(is_exposed(rules, store, cell), CheckCode::NotLocked),
        Event::Put { cell, from } => putting(rules, store, cell, from),
        Event::HandBack { .. } => handing(store, None),
        Event::ForgetCell(cell) => forgetting(store, cell),
        Event::Unlock => unlocking(rules, store),
        Event::Return(local) => returning(rules, store, local),
        Event::ReturnPlain => ending(rules, store, None),
        Event::End => Some(CheckCode::RunsOff),
    }
}

/// Returns whether the use of a name's object, or of NULL, is a use of what may be freed.
fn is_dead_object(store: &Store, local: Local) -> bool
    ensures { result ≡ is_dead_object (contents_of store.now) local }
{
    store.value(local) != Value::Null && store.is_dead(local)
}

fn fault_if(is_one: bool, code: CheckCode) -> Option<CheckCode>
    ensures { result ≡ fault_if is_one code }
{
    if is_one { Some(code) } else { None }
}

/// The reference of what the name had is lost.
fn copying(store: &Store, to: Local, from: Source) -> Option<CheckCode>
    ensures { result ≡ copying (contents_of store.now) to from }
{
    fault_if(
        store.loses(to, object_from(store, from)),
        CheckCode::StillOwns,
    )
}

/// Returns the object that is assigned, if the store has it.
fn object_from(store: &Store, from: Source) -> Option<ObjectId>
    ensures { result ≡ object_from (contents_of store.now) from }
{
    match from {
        Source::Local(local) => store.object_of(local),
        _ => None,
    }
}

fn calling(rules: Rules, store: &Store, gives: Gives, into: Option<Local>) -> Option<CheckCode>
    ensures { result ≡ calling rules (contents_of store.now) gives into }
{
    if borrows_unprotected(rules, store, gives) {
        return Some(CheckCode::NotLocked);
    }
    fault_if(
        loses_this(store, into, object_given(store, gives)),
        CheckCode::StillOwns,
    )
}

/// Returns whether a container's item is borrowed outside a critical section.
fn borrows_unprotected(rules: Rules, store: &Store, gives: Gives) -> bool
    ensures { result ≡ borrows_unprotected rules (contents_of store.now) gives }
{
    match gives {
        Gives::Item(container) => is_unprotected(rules, store, container),
        _ => false,
    }
}

/// Returns the object that a call gives, if the store has it.
fn object_given(store: &Store, gives: Gives) -> Option<ObjectId>
    ensures { result ≡ object_given (contents_of store.now) gives }
{
    match gives {
        Gives::Same(local) => store.object_of(local),
        _ => None,
    }
}

fn loses_this(store: &Store, into: Option<Local>, new: Option<ObjectId>) -> bool
    ensures { result ≡ loses_this (contents_of store.now) into new }
{
    match into {
        Some(to) => store.loses(to, new),
        None => false,
    }
}

/// A reference is given up that isn't there, or that is only borrowed.
fn giving(store: &Store, local: Local) -> Option<CheckCode>
    ensures { result ≡ giving (contents_of store.now) local }
{
    match store.value(local) {
        Value::Unset => Some(CheckCode::EmptyUsed),
        Value::Null | Value::Number(_) => None,
        Value::Object(id) => giving_up(store, id, store.object(id)),
        Value::Maybe(id) => giving_up(store, id, store.object(id)),
    }
}

fn giving_up(store: &Store, id: ObjectId, object: Object) -> Option<CheckCode>
    ensures { result ≡ giving_up (contents_of store.now) id object }
{
    if object.is_last() {
        // The object dies, and releases what its fields have.
        handing(store, Some(id))
    } else if has_reference(store, id, object) {
        None
    } else if is_spent(object) {
        Some(CheckCode::EmptyUsed)
    } else {
        fault_if(!object.is_in_field, CheckCode::NotOwned)
    }
}

/// Returns whether there is a reference that the function may give up: its own, or that of a cell.
fn has_reference(store: &Store, id: ObjectId, object: Object) -> bool
    ensures { result ≡ has_reference (contents_of store.now) id object }
{
    !object.registers.is_empty() || object.base == Base::Field || store.is_in_cell(id)
}

/// A cell is set without protection, nothing was assigned to what it gets, or what it had is lost.
fn putting(rules: Rules, store: &Store, cell: Cell, from: Option<Local>) -> Option<CheckCode>
    ensures { result ≡ putting rules (contents_of store.now) cell from }
{
    if is_exposed(rules, store, cell) {
        Some(CheckCode::NotLocked)
    } else if is_nothing(store, from) {
        Some(CheckCode::EmptyUsed)
    } else {
        fault_if(loses_cell(store, cell, from), CheckCode::StillOwns)
    }
}

fn is_nothing(store: &Store, from: Option<Local>) -> bool
    ensures { result ≡ is_nothing (contents_of store.now) from }
{
    match from {
        Some(local) => store.value(local) == Value::Unset,
        None => false,
    }
}

/// The cell of a field gets the reference that it has to have.
fn forgetting(store: &Store, cell: Cell) -> Option<CheckCode>
    ensures { result ≡ forgetting (contents_of store.now) cell }
{
    left_in(store, store.place_of(cell)?)
}

/// A section is closed where none is open.
fn unlocking(rules: Rules, store: &Store) -> Option<CheckCode>
    ensures { result ≡ unlocking rules (contents_of store.now) }
{
    fault_if(
        rules == Rules::FreeThreaded && store.sections.is_empty(),
        CheckCode::NotLocked,
    )
}

/// NULL is given up, or what isn't there, or what is only borrowed.
fn releasing(store: &Store, local: Local) -> Option<CheckCode>
    ensures { result ≡ releasing (contents_of store.now) local }
{
    if store.value(local) == Value::Null {
        Some(CheckCode::EmptyUsed)
    } else {
        giving(store, local)
    }
}

/// What is returned has to be the caller's afterwards.
fn returning(rules: Rules, store: &Store, local: Local) -> Option<CheckCode>
    ensures { result ≡ returning rules (contents_of store.now) local }
{
    match store.value(local) {
        Value::Unset => Some(CheckCode::EmptyUsed),
        Value::Null | Value::Number(_) => ending(rules, store, None),
        Value::Object(id) | Value::Maybe(id) => {
            returning_object(rules, store, local, store.object(id))
        }
    }
}

fn returning_object(rules: Rules, store: &Store, local: Local, object: Object) -> Option<CheckCode>
    ensures { result ≡ returning_object rules (contents_of store.now) local object }
{
    if !object.registers.is_empty() {
        ending(rules, store, Some(local))
    } else if is_unlocked(rules, store) {
        Some(CheckCode::NotLocked)
    } else if object.base == Base::Gone {
        Some(CheckCode::EmptyUsed)
    } else {
        Some(CheckCode::NotOwned)
    }
}

/// Returns whether the function returns without the global lock.
fn is_unlocked(rules: Rules, store: &Store) -> bool
    ensures { result ≡ is_unlocked rules (contents_of store.now) }
{
    rules == Rules::GlobalLock && store.is_detached
}

/// Nothing is left at the end: the global lock is held, no reference is owned, no section is open.
fn ending(rules: Rules, store: &Store, returned: Option<Local>) -> Option<CheckCode>
    ensures { result ≡ ending rules (contents_of store.now) returned }
{
    if is_unlocked(rules, store) {
        Some(CheckCode::NotLocked)
    } else if leaves(store, returned) {
        Some(CheckCode::LeftOwned)
    } else {
        fault_if(
            rules == Rules::FreeThreaded && store.is_locked(rules),
            CheckCode::LeftLocked,
        )
    }
}

/// Returns whether an object's references are left.
#[tactic(auto, using(crate::proofs::Ranges::any_of_numbers))]
fn leaves(store: &Store, returned: Option<Local>) -> bool
    ensures { result ≡ leaves (contents_of store.now) returned }
{
    for at in 0..store.objects.len() {
        if left_by(store, returned, ObjectId(at)) {
            return true;
        }
    }
    false
}
