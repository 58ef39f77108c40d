//! Where a store goes on after a question.

ghost use Rattle.std.specs.Prelude.{◌≡◌, IfOk};
ghost use Rattle.brc_c_store.specs.Signs.{signs_left};
ghost use Rattle.brc_c_store.specs.Values.{is_singleton, is_null};
ghost use Rattle.brc_c_store.specs.Stores.{contents_of};
ghost use Rattle.brc_c_store.specs.Questions.{outcome_of, way, ask_null, answered_maybe, signs_in, ask_sign};
ghost use Rattle.brc_c_store.specs.Questions.{ask_fact, has_singleton, ask_singleton};
ghost use Rattle.brc_c_store.specs.Questions.{with_singleton, object_becomes_it, become_singleton};

use crate::following::Next;
use crate::signs::{Signs, Test};
use crate::store::{KnownFact, Store};
use crate::value::{Fact, Local, ObjectId, Singleton, Value};
use std::alloc::AllocError;

pub(crate) fn ask_null(next: Store, local: Local, is_null: bool) -> Next
    ensures { outcome_of result ≡ ask_null (contents_of next) local is_null }
{
    let mut next = next;
    match next.value(local) {
        Value::Unset => Next::Never,
        Value::Null => way(next, is_null),
        Value::Object(_) => way(next, !is_null),
        Value::Number(_) => Next::Store(next),
        Value::Maybe(id) => {
            answer_maybe(&mut next, local, id, is_null);
            Next::Store(next)
        }
    }
}

/// The object that a name may have is NULL, or isn't.
fn answer_maybe(next: &mut Store, local: Local, id: ObjectId, is_null: bool)
    ensures { contents_of next.new ≡ answered_maybe id is_null (contents_of next.old) local }
{
    if is_null {
        next.take_for_null(id);
    } else {
        next.refine(local);
    }
}

fn way(next: Store, is_open: bool) -> Next
    ensures { outcome_of result ≡ way is_open (contents_of next) }
{
    if is_open {
        Next::Store(next)
    } else {
        Next::Never
    }
}

/// Returns the signs that a value may have.
fn signs_in(value: Value) -> Signs
    ensures { result ≡ signs_in value }
{
    match value {
        Value::Number(signs) => signs,
        _ => Signs::ALL,
    }
}

pub(crate) fn ask_sign(next: Store, of: Local, test: Test, wanted: bool) -> Result<Next, AllocError>
    ensures { IfOk result (λ answer. outcome_of answer ≡ ask_sign (contents_of next) of test wanted) }
{
    let mut next = next;
    let left = signs_in(next.value(of)).that(test, wanted);
    if left.is_empty() {
        return Ok(Next::Never);
    }
    next.set(of, Value::Number(left))?;
    Ok(Next::Store(next))
}

pub(crate) fn ask_fact(next: Store, fact: Option<Fact>, holds: bool) -> Result<Next, AllocError>
    ensures { IfOk result (λ answer. outcome_of answer ≡ ask_fact (contents_of next) fact holds) }
{
    let mut next = next;
    let Some(fact) = fact else {
        return Ok(Next::Store(next));
    };
    match next.fact(fact) {
        Some(known) => Ok(way(next, known == holds)),
        None => {
            next.facts.push(KnownFact { fact, holds })?;
            Ok(Next::Store(next))
        }
    }
}

fn is_singleton(found: Option<Singleton>, singleton: Singleton) -> bool
    ensures { result ≡ is_singleton found singleton }
{
    match found {
        Some(other) => other.0 == singleton.0,
        None => false,
    }
}

/// Returns whether a name has the singleton: the function has assigned it.
fn has_singleton(store: &Store, local: Local, singleton: Singleton) -> bool
    ensures { result ≡ has_singleton (contents_of store.now) local singleton }
{
    match store.object_of(local) {
        Some(id) => is_singleton(store.object(id).singleton, singleton),
        None => false,
    }
}

/// A name has a singleton exactly if the function has assigned it.
pub(crate) fn ask_singleton(next: Store, local: Local, singleton: Singleton, holds: bool) -> Next
    ensures { outcome_of result ≡ ask_singleton (contents_of next) local singleton holds }
{
    let mut next = next;
    if has_singleton(&next, local, singleton) {
        way(next, holds)
    } else {
        next.refine(local);
        way(next, !holds)
    }
}

pub(crate) fn become_singleton(next: Store, local: Local, singleton: Singleton) -> Next
    ensures { outcome_of result ≡ become_singleton (contents_of next) local singleton }
{
    if matches!(next.value(local), Value::Null) {
        return Next::Never;
    }
    match next.object_of(local) {
        Some(id) => object_becomes(next, id, singleton),
        None => Next::Store(next),
    }
}

fn object_becomes(next: Store, id: ObjectId, singleton: Singleton) -> Next
    ensures { outcome_of result ≡ object_becomes_it (contents_of next) id singleton }
{
    let mut next = next;
    let object = next.object(id);
    if object.singleton.is_some() {
        return way(next, is_singleton(object.singleton, singleton));
    }
    set_singleton(&mut next, id, singleton);
    Next::Store(next)
}

/// The object is a singleton. Of what is only borrowed it doesn't matter.
fn set_singleton(next: &mut Store, id: ObjectId, singleton: Singleton)
    ensures { contents_of next.new ≡ with_singleton (contents_of next.old) id singleton }
{
    let mut object = next.object(id);
    if !object.registers.is_empty() {
        next.take_for_object(id);
        object.singleton = Some(singleton);
        next.set_object(id, object);
    }
}
