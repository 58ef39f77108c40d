ghost use Rattle.std.specs.Prelude.{◌≡◌, true, false, not, filter, IfOk, OnOk};
ghost use Rattle.brc_c_store.specs.Values.{same_fact};
ghost use Rattle.brc_c_store.specs.Registers.{no_registers};
ghost use Rattle.brc_c_store.specs.Stores.{contents_of, free_register};
ghost use Rattle.brc_c_store.specs.Cells.{object_of_this};
ghost use Rattle.brc_c_store.specs.Giving.{with_items_ended};
ghost use Rattle.brc_c_store.specs.Questions.{outcome_of, Goes};
ghost use Rattle.brc_c_store.specs.After.{is_yes, is_way_of_call, is_way, with_unknown, copied, with_one_more};
ghost use Rattle.brc_c_store.specs.After.{lent_from_here, stowed, assumed, new_object, borrowed_object, item_base};
ghost use Rattle.brc_c_store.specs.After.{item_of, or_too_many, with_result, part_of, part_of_borrowed, same_as};
ghost use Rattle.brc_c_store.specs.After.{called, base_of_lender, lent, taken_object, taken, given_away};
ghost use Rattle.brc_c_store.specs.After.{given_to_container};
ghost use Rattle.brc_c_store.specs.After.{kept_by_container, all_handed_back, with_lock_given_back, locked};
ghost use Rattle.brc_c_store.specs.After.{without_section, unlocked, with_detached, without_fact, changed, along};
ghost use Rattle.brc_c_store.specs.After.{after_of};

use crate::event::{Calling, Choice, Event, Gives, Source};
use crate::keeping::{forget_cell, free_cells, put, read};
use crate::object::{Base, Object};
use crate::questions::{ask_fact, ask_null, ask_sign, ask_singleton, become_singleton};
use crate::register::{Register, RegisterSet};
use crate::rules::Rules;
use crate::store::{KnownFact, Section, Store};
use crate::value::{Fact, Local, ObjectId, Value};
use std::alloc::AllocError;

/// What follows an event.
#[derive(Drop)]
pub enum Next {
    /// No path goes this way.
    Never,
    /// No register is left for a reference.
    TooMany,
    Store(Store),
}

/// Returns the store after an event, if a path goes this way on. The event is one that breaks no rule in the store.
pub fn after(rules: Rules, event: Event, choice: Choice, store: &Store) -> Result<Next, AllocError>
    ensures { IfOk result (λ next. outcome_of next ≡ after_of rules event choice (contents_of store.now)) }
{
    if !is_way(event, choice) {
        return Ok(Next::Never);
    }
    along(rules, event, choice, copy_of(store)?)
}

fn copy_of(store: &Store) -> Result<Store, AllocError>
    ensures { IfOk result (λ copy. contents_of copy ≡ contents_of store.now) }
{
    store.clone()
}

/// Returns what follows an event along one of its ways.
fn along(rules: Rules, event: Event, choice: Choice, next: Store) -> Result<Next, AllocError>
    ensures { IfOk result (λ after. outcome_of after ≡ along rules event choice (contents_of next)) }
{
    match event {
        Event::Null(local) => Ok(ask_null(next, local, choice == Choice::Yes)),
        Event::Sign { of, test } => ask_sign(next, of, test, choice == Choice::Yes),
        Event::Choice(fact) => ask_fact(next, fact, choice == Choice::Yes),
        Event::Is { local, singleton } => {
            Ok(ask_singleton(next, local, singleton, choice == Choice::Yes))
        }
        Event::Become { local, singleton } => Ok(become_singleton(next, local, singleton)),
        Event::Take(local) => Ok(take(next, local)),
        Event::Call { gives, into, .. } => call(next, gives, into, choice),
        Event::Put { cell, from } => put(next, cell, from),
        _ => changed(rules, event, next),
    }
}

/// Returns the store after an event that has one way.
fn changed(rules: Rules, event: Event, next: Store) -> Result<Next, AllocError>
    ensures { IfOk result (λ after. outcome_of after ≡ Goes (changed rules event (contents_of next))) }
{
    let mut next = next;
    change(rules, event, &mut next)?;
    Ok(Next::Store(next))
}

/// Changes a store as an event does that has one way.
fn change(rules: Rules, event: Event, next: &mut Store) -> Result<(), AllocError>
    ensures { OnOk result (contents_of next.new ≡ changed rules event (contents_of next.old)) }
{
    match event {
        Event::Copy { to, from } => copy(next, to, from)?,
        Event::Forget(fact) => forget(next, fact),
        Event::Use(local) => next.refine(local),
        Event::Release(local) | Event::Give(local) => give(next, local),
        Event::GiveTo { local, container } => give_to(next, local, container),
        Event::Keep { local, container } => keep(next, local, container),
        Event::Stow(local) => stow_away(next, local),
        Event::HandOver(local) => stow(next, local),
        Event::Assume(local) => assume(next, local),
        Event::EndItems => next.end_items(),
        Event::Lend {
            to,
            lender,
            is_optional,
        } => lend(next, to, lender, is_optional)?,
        Event::Read { cell, to } => read(next, cell, to)?,
        Event::HandBack { runs_code } => hand_back(next, runs_code),
        Event::ForgetCell(cell) => forget_cell(next, cell)?,
        Event::DropCells(field) => next.drop_cells(field),
        Event::FreeCells(local) => free_cells(next, local),
        Event::Lock { first, second } => lock(rules, next, first, second)?,
        Event::Unlock => unlock(rules, next),
        Event::Detach => detach(next),
        Event::Attach => attach(next),
        _ => {}
    }
    Ok(())
}

/// What was found for a condition holds no more.
fn forget(next: &mut Store, fact: Fact)
    ensures { contents_of next.new ≡ without_fact (contents_of next.old) fact }
{
    remove_fact(&mut next.facts, fact);
}

fn remove_fact(facts: &mut Vec<KnownFact>, fact: Fact)
    ensures { facts.new.items ≡ filter (λ known. not (same_fact known.fact fact)) facts.old.items }
{
    facts.retain(|known| known.fact != fact);
}

/// A reference is given up to a container, which has it then.
fn give_to(next: &mut Store, local: Local, container: Local)
    ensures { contents_of next.new ≡ given_to_container (contents_of next.old) local container }
{
    give(next, local);
    if let Some(id) = next.object_of(local) {
        next.give_to(id, container);
    }
}

/// A container makes a reference of its own.
fn keep(next: &mut Store, local: Local, container: Local)
    ensures { contents_of next.new ≡ kept_by_container (contents_of next.old) local container }
{
    let keeper = next.object_of(container);
    if let Some(id) = next.object_of(local) {
        next.keep(id, keeper);
    }
}

/// The reference is kept where nothing is followed.
fn stow_away(next: &mut Store, local: Local)
    ensures { contents_of next.new ≡ stowed (assumed (contents_of next.old) local) local }
{
    assume(next, local);
    stow(next, local);
}

fn hand_back(next: &mut Store, runs_code: bool)
    ensures { contents_of next.new ≡ all_handed_back (contents_of next.old) runs_code }
{
    if runs_code {
        next.forget_cells();
        next.end_fields();
    } else {
        next.hand_back();
    }
}

/// Returns whether an event has this way after it.
fn is_way(event: Event, choice: Choice) -> bool
    ensures { result ≡ is_way event choice }
{
    match event {
        Event::Null(_) | Event::Sign { .. } | Event::Choice(_) | Event::Is { .. } => {
            choice != Choice::Missing
        }
        Event::Call { calling, .. } => is_way_of_call(calling, choice),
        Event::Return(_) | Event::ReturnPlain | Event::Halt | Event::End => false,
        _ => choice == Choice::Yes,
    }
}

fn is_way_of_call(calling: Calling, choice: Choice) -> bool
    ensures { result ≡ is_way_of_call calling choice }
{
    match calling {
        Calling::Succeeds => choice == Choice::Yes,
        Calling::MayFail => choice != Choice::Missing,
        Calling::MayMiss => true,
    }
}

fn copy(next: &mut Store, to: Local, from: Source) -> Result<(), AllocError>
    ensures { OnOk result (contents_of next.new ≡ copied (contents_of next.old) to from) }
{
    match from {
        Source::Nothing => next.set(to, Value::Unset),
        Source::Null => next.set(to, Value::Null),
        Source::Local(local) => {
            let value = next.value(local);
            next.set(to, value)
        }
        Source::Number(signs) => next.set(to, Value::Number(signs)),
        Source::Singleton(singleton) => next.set_new(
            to,
            Object {
                singleton: Some(singleton),
                ..Object::LENT
            },
        ),
        Source::Unknown => set_unknown(next, to),
    }
}

/// Gives a name an object of which nothing is known, or NULL.
fn set_unknown(next: &mut Store, to: Local) -> Result<(), AllocError>
    ensures { OnOk result (contents_of next.new ≡ with_unknown (contents_of next.old) to) }
{
    let id = next.add_object(Object {
        is_assumed: true,
        ..Object::LENT
    })?;
    next.set(to, Value::Maybe(id))
}

fn take(next: Store, local: Local) -> Next
    ensures { outcome_of result ≡ or_too_many (taken (contents_of next) local) }
{
    let mut next = next;
    next.refine(local);
    match next.object_of(local) {
        Some(id) => take_object(next, id),
        None => Next::Store(next),
    }
}

fn take_object(next: Store, id: ObjectId) -> Next
    ensures { outcome_of result ≡ or_too_many (taken_object (contents_of next) (Some id)) }
{
    let mut next = next;
    match next.free() {
        Some(register) => {
            add_register(&mut next, id, register);
            Next::Store(next)
        }
        None => Next::TooMany,
    }
}

/// A register gets a reference to the object.
fn add_register(next: &mut Store, id: ObjectId, register: Register)
    ensures { contents_of next.new ≡ with_one_more (contents_of next.old) id register }
{
    let mut object = next.object(id);
    object.registers = object.registers.with(register);
    next.set_object(id, object);
}

fn give(next: &mut Store, local: Local)
    ensures { contents_of next.new ≡ given_away (contents_of next.old) local }
{
    next.refine(local);
    if let Some(id) = next.object_of(local) {
        let mut object = next.object(id);
        object.is_fresh = false;
        next.set_object(id, object);
        next.give_up(id);
    }
}

/// The reference is given up, and the object is lent from there on.
fn stow(next: &mut Store, local: Local)
    ensures { contents_of next.new ≡ stowed (contents_of next.old) local }
{
    if let Some(id) = next.object_of(local) {
        let object = next.object(id);
        next.set_object(id, lent_from_here(object));
    }
}

fn lent_from_here(object: Object) -> Object
    ensures { result ≡ lent_from_here object }
{
    let mut object = object;
    object.is_fresh = false;
    if let Some(last) = object.registers.last() {
        object.registers = object.registers.without(last);
        if !object.is_alive() {
            object.base = Base::Call;
        }
    }
    object
}

fn assume(next: &mut Store, local: Local)
    ensures { contents_of next.new ≡ assumed (contents_of next.old) local }
{
    if let Some(id) = next.object_of(local) {
        let mut object = next.object(id);
        object.is_assumed = true;
        next.set_object(id, object);
    }
}

fn call(next: Store, gives: Gives, into: Option<Local>, choice: Choice) -> Result<Next, AllocError>
    ensures { IfOk result (λ after. outcome_of after ≡ called (contents_of next) gives into choice) }
{
    let Some(into) = into else {
        return Ok(Next::Store(next));
    };
    if choice != Choice::Yes {
        return Ok(Next::Store(next));
    }
    get(next, into, gives)
}

/// A call has succeeded: a name gets what it gives.
fn get(next: Store, into: Local, gives: Gives) -> Result<Next, AllocError>
    ensures { IfOk result (λ after. outcome_of after ≡ or_too_many (with_result (contents_of next) into gives)) }
{
    let mut next = next;
    match gives {
        Gives::Nothing => {}
        Gives::New {
            is_fresh,
            is_assumed,
        } => {
            let Some(register) = next.free() else {
                return Ok(Next::TooMany);
            };
            next.set_new(into, new_object(is_fresh, is_assumed, register))?;
        }
        Gives::Item(container) => {
            let Some(base) = item_of(&next, container) else {
                return Ok(Next::TooMany);
            };
            next.set_new(into, borrowed_object(base))?;
        }
        Gives::Part(lender) => {
            let base = part_of(&next, lender);
            next.set_new(into, borrowed_object(base))?;
        }
        Gives::Lent => next.set_new(into, Object::LENT)?,
        Gives::Same(local) => {
            let value = next.value(local);
            same(&mut next, into, value)?;
        }
    }
    Ok(Next::Store(next))
}

fn new_object(is_fresh: bool, is_assumed: bool, register: Register) -> Object
    ensures { result ≡ new_object is_fresh is_assumed register }
{
    Object {
        registers: RegisterSet::EMPTY.with(register),
        is_fresh,
        is_assumed,
        ..Object::GONE
    }
}

fn borrowed_object(base: Base) -> Object
    ensures { result ≡ borrowed_object base }
{
    Object {
        base,
        ..Object::GONE
    }
}

/// Returns what lends an item of a container, or `None` if no register is left for the item.
fn item_of(next: &Store, container: Local) -> Option<Base>
    ensures { result ≡ item_of (contents_of next.now) container }
{
    match next.object_of(container) {
        Some(id) if next.is_private(next.object(id)) => Some(Base::Part(id)),
        _ => item_base(next.free()),
    }
}

fn item_base(register: Option<Register>) -> Option<Base>
    ensures { result ≡ item_base register }
{
    Some(Base::Item(register?))
}

/// Returns what lends a part of an object.
fn part_of(next: &Store, lender: Local) -> Base
    ensures { result ≡ part_of (contents_of next.now) lender }
{
    let Some(id) = next.object_of(lender) else {
        return Base::Call;
    };
    let object = next.object(id);
    if object.registers.is_empty() {
        part_of_borrowed(id, object.base)
    } else {
        Base::Part(id)
    }
}

/// Returns what lends a part of an object that the function doesn't own.
fn part_of_borrowed(id: ObjectId, base: Base) -> Base
    ensures { result ≡ part_of_borrowed id base }
{
    match base {
        Base::Part(_) => Base::Part(id),
        Base::Item(register) => Base::Item(register),
        Base::Call | Base::Gone | Base::Field => Base::Call,
    }
}

fn lend(
    next: &mut Store,
    to: Local,
    lender: Option<Local>,
    is_optional: bool,
) -> Result<(), AllocError>
    ensures { OnOk result (contents_of next.new ≡ lent (contents_of next.old) to lender is_optional) }
{
    let may_stay = is_optional && next.value(to) == Value::Null;
    let object = borrowed_object(base_of_lender(next, lender));
    let id = next.add_object(object)?;
    if may_stay {
        next.set(to, Value::Maybe(id))
    } else {
        next.set(to, Value::Object(id))
    }
}

fn base_of_lender(next: &Store, lender: Option<Local>) -> Base
    ensures { result ≡ base_of_lender (contents_of next.now) lender }
{
    match lender {
        Some(lender) => part_of(next, lender),
        None => Base::Call,
    }
}

/// What a function gives is its argument. What it gives for NULL isn't known.
fn same(next: &mut Store, into: Local, value: Value) -> Result<(), AllocError>
    ensures { OnOk result (contents_of next.new ≡ same_as (contents_of next.old) into value) }
{
    match value {
        Value::Null => set_unknown(next, into),
        value => next.set(into, value),
    }
}

fn lock(
    rules: Rules,
    next: &mut Store,
    first: Option<Local>,
    second: Option<Local>,
) -> Result<(), AllocError>
    ensures { OnOk result (contents_of next.new ≡ locked rules (contents_of next.old) first second) }
{
    if rules == Rules::GlobalLock {
        return Ok(());
    }
    let section = Section {
        first: object_of(next, first),
        second: object_of(next, second),
    };
    give_lock_back(next);
    next.sections.push(section)?;
    Ok(())
}

/// The text has one lock: if a section is open, it is given back and taken again.
fn give_lock_back(next: &mut Store)
    ensures { contents_of next.new ≡ with_lock_given_back (contents_of next.old) }
{
    if !next.sections.is_empty() {
        next.end_items();
    }
}

fn object_of(next: &Store, local: Option<Local>) -> Option<ObjectId>
    ensures { result ≡ object_of_this (contents_of next.now) local }
{
    next.object_of(local?)
}

fn unlock(rules: Rules, next: &mut Store)
    ensures { contents_of next.new ≡ unlocked rules (contents_of next.old) }
{
    if rules == Rules::FreeThreaded {
        end_section(next);
        next.end_items();
    }
}

/// The innermost section ends.
fn end_section(next: &mut Store)
    ensures { contents_of next.new ≡ without_section (contents_of next.old) }
{
    let rest = next.sections.len().saturating_sub(1);
    next.sections.truncate(rest);
}

fn detach(next: &mut Store)
    ensures { contents_of next.new ≡ with_detached (with_items_ended (contents_of next.old)) true }
{
    next.end_items();
    next.is_detached = true;
}

fn attach(next: &mut Store)
    ensures { contents_of next.new ≡ with_detached (contents_of next.old) false }
{
    next.is_detached = false;
}
