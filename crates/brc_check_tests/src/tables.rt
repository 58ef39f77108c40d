//! The tables that the checker infers, and tables that it is given.

ghost use Rattle.brc_lang.specs.Grammar.{IsModule};

use crate::modules::{function_of, module_of};
use crate::table_rows::{Entry, LOOPS, OVERWRITTEN, TABLES, TAKE_AND_DROP, TableCase};
use brc_check::{CheckCode, Checked, Refused, Slot, State, Table, infer, verify};
use brc_lang::{Kind, Module, Variable};
use std::alloc::Global;
use std::test::*;

fn state_of(entry: Entry) -> Option<State> {
    let (one, two, locked) = entry?;
    let mut slots = [Slot::Empty; 16];
    slots[0] = Slot::Caller(Kind::List);
    slots[1] = one;
    slots[2] = two;
    let locked = match locked {
        Some(0) => Some(Variable::new(0)),
        Some(_) => Some(Variable::new(1)),
        None => None,
    };
    Some(State { slots, locked })
}

/// The table of an acceptable module.
fn table_of(alloc: Global, module: &Module) -> Result<Table, Fail>
    requires { IsModule «module».now }
{
    match infer(alloc, module) {
        Ok(table) => Ok(table),
        Err(_) => Err("the module is acceptable, and memory is ample")?,
    }
}

/// The first point with another state in the table of one function; a second function has no states.
fn other_state(table: &Table, module: &Module, entries: &[Entry]) -> Option<usize> {
    if table.at(module, 1, 0).is_some() {
        return Some(0);
    }
    for (at, entry) in entries.iter().enumerate() {
        if table.at(module, 0, at) != state_of(*entry) {
            return Some(at);
        }
    }
    None
}

/// The same of an accepted module, also of the states that it says itself.
fn other_entry(checked: &Checked, entries: &[Entry]) -> Option<usize> {
    for (at, entry) in entries.iter().enumerate() {
        if checked.entry(0, at) != state_of(*entry) {
            return Some(at);
        }
    }
    other_state(checked.table(), checked.module(), entries)
}

/// The first point with another state, in the table that `infer` gives or in the one that `verify` hands on; `Err` if
/// the table keeps another number of points.
fn first_difference(
    alloc: Global,
    lines: &[u8],
    kept: usize,
    entries: &[Entry],
) -> Result<Option<usize>, Fail> {
    let module = function_of(alloc, lines)?;
    let table = table_of(alloc, &module)?;
    difference(module, table, kept, entries)
}

/// Does what `first_difference` does, of the module and its table.
fn difference(
    module: Module,
    table: Table,
    kept: usize,
    entries: &[Entry],
) -> Result<Option<usize>, Fail>
    requires { IsModule «module» }
{
    if table.kept(0) != kept || table.kept(1) != 0 {
        return Err("the table keeps the first point and each target")?;
    }
    let inferred = other_state(&table, &module, entries);
    match verify(module, table) {
        Ok(checked) => Ok(inferred.or(other_entry(&checked, entries))),
        Err(_) => Err("the table is the true one")?,
    }
}

/// Whether there is a kept entry to overwrite, and the point at which the states then differ, if any.
fn answer_to_change(
    alloc: Global,
    lines: &[u8],
    point: (usize, usize),
    entry: Entry,
) -> Result<(bool, Option<usize>), Fail> {
    let module = function_of(alloc, lines)?;
    let mut table = table_of(alloc, &module)?;
    let is_there = table.change(point.0, point.1, state_of(entry));
    Ok((is_there, refused_at(module, table)?))
}

/// Why the table is refused, if it is.
fn refusal_of(module: Module, table: Table) -> Option<Refused>
    requires { IsModule «module» }
{
    verify(module, table).err()
}

/// The point at which states differ, if the table is refused. A table is refused for its states alone.
fn refused_at(module: Module, table: Table) -> Result<Option<usize>, Fail>
    requires { IsModule «module» }
{
    let Some(refused) = refusal_of(module, table) else {
        return Ok(None);
    };
    if refused.code != CheckCode::StatesDiffer {
        return Err("a table is refused for its states alone")?;
    }
    Ok(Some(refused.at))
}

/// The number of the first change of this point that the checker doesn't notice. A change is noticed if the table is
/// refused there, just where the entry is another one.
fn first_unnoticed(
    alloc: Global,
    lines: &[u8],
    at: usize,
    entry: (Slot, Slot, Option<u8>),
) -> Result<Option<usize>, Fail> {
    for (number, (one, two, locked)) in OVERWRITTEN.iter().enumerate() {
        let other = (*one, two.unwrap_or(entry.1), *locked);
        let wanted = if other == entry { None } else { Some(at) };
        if answer_to_change(alloc, lines, (0, at), Some(other))? != (true, wanted) {
            return Ok(Some(number));
        }
    }
    Ok(None)
}

/// Whether a change of the entry of this point is noticed if it is kept. A point that isn't kept has nothing to change.
fn is_noticed(
    alloc: Global,
    lines: &[u8],
    at: usize,
    is_kept: bool,
    entry: Entry,
) -> Result<bool, Fail> {
    let answer = answer_to_change(alloc, lines, (0, at), None)?;
    match entry {
        Some(entry) if is_kept => {
            Ok(answer == (true, Some(at)) && first_unnoticed(alloc, lines, at, entry)?.is_none())
        }
        _ => Ok(is_kept || answer == (false, None)),
    }
}

/// The first point whose change isn't noticed, or which has something to change though it isn't kept.
fn first_change_unnoticed(alloc: Global, case: &TableCase<'_>) -> Result<Option<usize>, Fail> {
    let (lines, kept, entries) = case;
    for (at, entry) in entries.iter().enumerate() {
        if !is_noticed(alloc, lines, at, kept.contains(&at), *entry)? {
            return Ok(Some(at));
        }
    }
    Ok(None)
}

/// Points that a table of `TAKE_AND_DROP` doesn't keep, or that aren't there: they have nothing to change.
const NOT_KEPT: [(usize, usize); 3] = [(0, 1), (0, 3), (1, 0)];

/// Whether the module of one text is refused, with the table of another's, since states differ at this point of its
/// function `f`.
fn is_refused_with(alloc: Global, text: &[u8], other: &[u8], at: usize) -> Result<bool, Fail> {
    let table = table_of(alloc, &module_of(alloc, other)?)?;
    Ok(is_refused_at(module_of(alloc, text)?, table, at))
}

fn is_refused_at(module: Module, table: Table, at: usize) -> bool
    requires { IsModule «module» }
{
    let Some(refused) = refusal_of(module, table) else {
        return false;
    };
    refused.function.as_bytes() == b"f".as_slice()
        && refused.at == at
        && refused.code == CheckCode::StatesDiffer
}

/// Whether the module of one text is accepted with the table of another's.
fn accepted_with(alloc: Global, text: &[u8], other: &[u8]) -> Result<bool, Fail> {
    let table = table_of(alloc, &module_of(alloc, other)?)?;
    Ok(verify(module_of(alloc, text)?, table).is_ok())
}

/// The text of 64 functions of 256 instructions each, in pairs that take a reference and drop it or return it.
fn largest_module(alloc: Global) -> Result<Vec<u8>, Fail> {
    let mut text = Vec::from_slice(alloc, b"module 1\n")?;
    for number in 0..64u8 {
        text.extend_from_slice(b"func f")?;
        text.extend_from_slice(&[b'0' + number / 10, b'0' + number % 10, b'\n'])?;
        for _pair in 0..127 {
            text.extend_from_slice(b"newref v1 v0\ndrop v1\n")?;
        }
        text.extend_from_slice(b"newref v1 v0\nret v1\nend\n")?;
    }
    Ok(text)
}

/// Whether the largest module is accepted with its own table.
fn is_largest_accepted(alloc: Global) -> Result<bool, Fail> {
    let largest = largest_module(alloc)?;
    accepted_with(alloc, &largest, &largest)
}

/// Two functions with the same targets, in whose tables only the state that falls through differs.
const DROPS: &[u8] = b"module 1\nfunc f\nnum v1 1 else @2\ndrop v1\nfail\nend\n";

const KEEPS: &[u8] = b"module 1\nfunc f\nnum v1 1 else @2\nnone v2\nfail\nend\n";

const ONE: &[u8] = b"module 1\nfunc f\nfail\nend\n";

const TWO: &[u8] = b"module 1\nfunc f\nfail\nend\nfunc g\nfail\nend\n";

const THREE_POINTS: &[u8] = b"module 1\nfunc f\nnewref v1 v0\ndrop v1\nfail\nend\n";

/// A function whose table has the same points as that of `ONE`, but another target.
const OTHER_TARGET: &[u8] = b"module 1\nfunc f\ngoto @1\nfail\nend\n";

/// Modules that are accepted with the table of another one. Where both have one kept point, the table's states are what
/// its entry and the module's own instructions give.
const ACCEPTED: [(&[u8], &[u8]); 3] = [(DROPS, DROPS), (THREE_POINTS, ONE), (ONE, ONE)];

/// Modules that are refused with the table of another one, and where.
const REFUSED: [(&[u8], &[u8], usize); 3] = [
    (KEEPS, DROPS, 2),
    (ONE, TWO, 0),
    (OTHER_TARGET, ONE, 0),
];

/// An entry is overwritten by none and by others.
#[test]
fn tables_are_true(rt: HostRuntime) -> Result<(), Fail> {
    let alloc = rt.alloc();
    for tables in [TABLES, LOOPS] {
        for (lines, kept, entries) in tables {
            let difference = first_difference(alloc, lines, kept.len(), entries)?;
            assert_eq!(rt; difference, None, "{lines:?}");
        }
    }
    for case in TABLES {
        assert_eq!(rt; first_change_unnoticed(alloc, case)?, None, "{:?}", case.0);
    }
    for point in NOT_KEPT {
        let answer = answer_to_change(alloc, TAKE_AND_DROP, point, None)?;
        assert_eq!(rt; answer, (false, None));
    }
    for (text, other) in ACCEPTED {
        assert!(rt; accepted_with(alloc, text, other)?, "{text:?}");
    }
    for (text, other, at) in REFUSED {
        assert!(rt; is_refused_with(alloc, text, other, at)?, "{text:?}");
    }
    assert!(rt; is_largest_accepted(alloc)?);
    Ok(())
}
