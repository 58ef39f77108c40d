//! What is known at the returns of a function.

use crate::pointed::{OutRecord, OutState, kind_by_outs, outs_in, outs_read};
use brc_c_flow::{Returned, ReturnedValue, RowFlow};
use brc_c_image::Arrival;
use brc_c_store::{Base, Local, ObjectId, Signs, Store, Value};
use std::alloc::{AllocError, Global};

/// Whose the object is that a return gives.
#[derive(Clone, Copy, PartialEq, Eq)]
pub(crate) enum Kind {
    /// None: it gives NULL, a number or nothing.
    Nothing,
    /// The caller's afterwards.
    Own,
    /// The caller's afterwards, and one that everybody knows by name.
    OwnSingleton,
    /// An object that everybody knows by name, without a reference of its own.
    Singleton,
    /// Nothing is known of it.
    Unknown,
    /// An argument, by its number, or an object that this one lends.
    Same(usize),
    PartOf(usize),
    /// Borrowed from a container. The name has it.
    Item(Local),
    Lent,
}

/// What a path has done with the reference that the caller has passed.
#[derive(Clone, Copy, PartialEq, Eq)]
pub(crate) enum Fate {
    /// The caller has it still.
    Left,
    GivenUp,
    /// There is none.
    Null,
}

/// A return in a store.
#[derive(Drop)]
pub(crate) struct Record {
    /// The number of the return among those of the function.
    pub(crate) site: usize,
    pub(crate) is_null: bool,
    /// Whether the object may be NULL, of which nobody has asked.
    pub(crate) may_be_null: bool,
    pub(crate) signs: Signs,
    pub(crate) kind: Kind,
    /// What became of each argument.
    pub(crate) fates: Vec<Fate>,
    /// What became of what arguments point to.
    pub(crate) outs: Vec<OutState>,
    /// Of each field that the graph asks for, whether it is NULL.
    pub(crate) nulls: Vec<bool>,
}

/// Returns what is known at the returns of a function.
pub(crate) fn records_of(
    alloc: Global,
    flow: &RowFlow,
    arrivals: &[Arrival],
) -> Result<Vec<Record>, AllocError> {
    let read = outs_read(alloc, flow)?;
    let mut records = Vec::new(alloc);
    for arrival in arrivals {
        for (site, returned) in flow.returns.iter().enumerate() {
            if returned.node == arrival.node {
                let mut record = Record {
                    site,
                    is_null: false,
                    may_be_null: false,
                    signs: Signs::ALL,
                    kind: Kind::Nothing,
                    fates: fates_in(alloc, flow, &arrival.store)?,
                    outs: outs_in(alloc, flow, read.as_slice(), *returned, &arrival.store)?,
                    nulls: nulls_in(alloc, flow, &arrival.store)?,
                };
                if fill(&mut record, flow, *returned, &arrival.store) {
                    if let Some(kind) = kind_by_outs(
                        flow,
                        read.as_slice(),
                        *returned,
                        &arrival.store,
                    ) {
                        record.kind = kind;
                    }
                    records.push(record)?;
                }
            }
        }
    }
    for number in 0..flow.arguments.len() {
        give_returned(&mut records, number);
    }
    for number in 0..flow.outs.len() {
        steal_stored(&mut records, number);
    }
    Ok(records)
}

/// Counts a return of an argument itself as one that gives the argument up and gives a new reference, if another return
/// does both: the caller can't know which of them it is.
fn give_returned(records: &mut Vec<Record>, number: usize) {
    let is_stolen = records.iter().any(|record| {
        record.kind == Kind::Own && record.fates.get(number) == Some(&Fate::GivenUp)
    });
    if !is_stolen {
        return;
    }
    for record in records.iter_mut() {
        if record.kind == Kind::Same(number) {
            record.kind = Kind::Own;
            if let Some(fate) = record.fates.get_mut(number) {
                *fate = Fate::GivenUp;
            }
        }
    }
}

/// Returns whether a function gives up what was where an argument points to.
pub(crate) fn is_replaced(records: &[Record], number: usize) -> bool {
    for record in records {
        if let Some(out) = record.outs.get(number) {
            if out.before == Fate::GivenUp {
                return true;
            }
        }
    }
    false
}

/// Counts an argument as stolen that is left where another one points to, if the function gives up what was there: a
/// reference is owned there.
fn steal_stored(records: &mut Vec<Record>, number: usize) {
    if !is_replaced(records, number) {
        return;
    }
    for record in records.iter_mut() {
        if let Some(argument) = stored_in(record, number) {
            if let Some(fate) = record.fates.get_mut(argument) {
                *fate = Fate::GivenUp;
            }
            if let Some(out) = record.outs.get_mut(number) {
                out.after = OutRecord::New;
            }
        }
    }
}

/// Returns the number of the argument that a return leaves in place of what was there, without a reference of its own.
fn stored_in(record: &Record, number: usize) -> Option<usize> {
    let out = record.outs.get(number)?;
    let argument = out.argument?;
    let is_left = record.fates.get(argument) == Some(&Fate::Left);
    if out.after == OutRecord::Borrowed && out.before != Fate::Left && is_left {
        Some(argument)
    } else {
        None
    }
}

fn fates_in(alloc: Global, flow: &RowFlow, store: &Store) -> Result<Vec<Fate>, AllocError> {
    let mut fates = Vec::new(alloc);
    for argument in flow.arguments.iter() {
        fates.push(match argument.kept {
            Some(kept) => fate_of(store.value(kept)),
            None => Fate::Left,
        })?;
    }
    Ok(fates)
}

/// The name of a reference that was given up has nothing.
pub(crate) fn fate_of(value: Value) -> Fate {
    match value {
        Value::Unset => Fate::GivenUp,
        Value::Null => Fate::Null,
        Value::Object(_) | Value::Maybe(_) | Value::Number(_) => Fate::Left,
    }
}

/// Notes what a return says. Returns whether it says something: it doesn't if it returns a name that has nothing.
fn fill(record: &mut Record, flow: &RowFlow, returned: Returned, store: &Store) -> bool {
    match returned.value {
        ReturnedValue::Nothing => {}
        ReturnedValue::Null => record.is_null = true,
        ReturnedValue::Singleton => record.kind = Kind::OwnSingleton,
        ReturnedValue::Number(signs) => record.signs = signs,
        ReturnedValue::Counted(local) => record.signs = signs_of(store.value(local)),
        ReturnedValue::Object(local) => match store.value(local) {
            Value::Unset | Value::Number(_) => return false,
            Value::Null => record.is_null = true,
            Value::Object(id) => record.kind = kind_of(flow, store, local, id),
            Value::Maybe(id) => {
                record.may_be_null = true;
                record.kind = kind_of(flow, store, local, id);
            }
        },
    }
    true
}

fn nulls_in(alloc: Global, flow: &RowFlow, store: &Store) -> Result<Vec<bool>, AllocError> {
    let mut nulls = Vec::new(alloc);
    for field in flow.fields.iter() {
        nulls.push(store.value(field.local) == Value::Null)?;
    }
    Ok(nulls)
}

fn signs_of(value: Value) -> Signs {
    match value {
        Value::Number(signs) => signs,
        _ => Signs::ALL,
    }
}

/// Returns whose an object is that a name has.
fn kind_of(flow: &RowFlow, store: &Store, local: Local, id: ObjectId) -> Kind {
    let object = store.object(id);
    let argument = argument_with(flow, store, id);
    if !object.registers.is_empty() {
        return match object.singleton {
            Some(_) => Kind::OwnSingleton,
            None if object.is_assumed && argument.is_none() => Kind::Unknown,
            None => Kind::Own,
        };
    }
    if let Some(number) = argument {
        return Kind::Same(number);
    }
    if object.singleton.is_some() {
        return Kind::Singleton;
    }
    if object.is_assumed {
        return Kind::Unknown;
    }
    lent_kind(flow, store, local, object.base)
}

/// Returns whose an object is that something lends.
fn lent_kind(flow: &RowFlow, store: &Store, local: Local, base: Base) -> Kind {
    let mut base = base;
    for _ in 0..store.objects.len() {
        let Base::Part(lender) = base else {
            break;
        };
        if let Some(number) = argument_with(flow, store, lender) {
            return Kind::PartOf(number);
        }
        base = store.object(lender).base;
    }
    match base {
        Base::Item(_) => Kind::Item(local),
        Base::Gone => Kind::Unknown,
        Base::Call | Base::Part(_) | Base::Field => Kind::Lent,
    }
}

/// Returns the number of the argument that is the object.
pub(crate) fn argument_with(flow: &RowFlow, store: &Store, id: ObjectId) -> Option<usize> {
    for (number, argument) in flow.arguments.iter().enumerate() {
        if let Some(kept) = argument.kept {
            if store.object_of(kept) == Some(id) {
                return Some(number);
            }
        }
    }
    None
}
