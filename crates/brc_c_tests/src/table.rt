//! The table of the C API: a row of each sort, and the table that the program carries with it.

use brc_c_table::{Fails, Gives, Table, TableFault, Tables, Takes};
use std::alloc::Global;
use std::test::Fail;

/// The words after a name, and what they say.
type Sort = (&'static [u8], Gives, &'static [Takes], Fails, bool);

/// The words after the name in a row of each sort, and what they say.
const ROWS: [Sort; 20] = [
    (b"new . null pure", Gives::New, &[], Fails::Null, false),
    (
        b"item 1 b- null runs",
        Gives::Item { argument: 0 },
        &[Takes::Borrowed, Takes::NoObject],
        Fails::Null,
        true,
    ),
    (
        b"part 1 n none pure",
        Gives::Part { argument: 0 },
        &[Takes::BorrowedOrNull],
        Fails::Never,
        false,
    ),
    (
        b"lent\t-  maybe pure\r",
        Gives::Lent,
        &[Takes::NoObject],
        Fails::Maybe,
        false,
    ),
    (
        b"same 2 -k null pure # c",
        Gives::Same { argument: 1 },
        &[Takes::NoObject, Takes::Kept],
        Fails::Null,
        false,
    ),
    (
        b"null s none runs#",
        Gives::Null,
        &[Takes::Stolen],
        Fails::Never,
        true,
    ),
    (
        b"int te neg pure",
        Gives::Number,
        &[Takes::StolenOnSuccess, Takes::StolenOnFailure],
        Fails::Negative,
        false,
    ),
    (
        b"int bS less pure",
        Gives::Number,
        &[Takes::Borrowed, Takes::StolenAndKept],
        Fails::Less,
        false,
    ),
    (
        b"int bT zero pure",
        Gives::Number,
        &[Takes::Borrowed, Takes::KeptOnSuccess],
        Fails::Zero,
        false,
    ),
    (
        b"int NZ neg pure",
        Gives::Number,
        &[Takes::BorrowedOrFails, Takes::StolenOrFails],
        Fails::Negative,
        false,
    ),
    (
        b"int bo miss runs",
        Gives::Number,
        &[Takes::Borrowed, Takes::Out],
        Fails::Missing,
        true,
    ),
    (
        b"int bO none pure",
        Gives::Number,
        &[Takes::Borrowed, Takes::OutBorrowed],
        Fails::Never,
        false,
    ),
    (
        b"void xX none pure",
        Gives::Void,
        &[Takes::InOut, Takes::InOutOrNull],
        Fails::Never,
        false,
    ),
    (
        b"free b none runs",
        Gives::Free,
        &[Takes::Borrowed],
        Fails::Never,
        true,
    ),
    (
        b"other & none pure",
        Gives::Other,
        &[Takes::Array],
        Fails::Never,
        false,
    ),
    (
        b"int bu zero pure",
        Gives::Number,
        &[Takes::Borrowed, Takes::RestOut],
        Fails::Zero,
        false,
    ),
    (
        b"int p-* zero pure",
        Gives::Number,
        &[Takes::ParseFormat, Takes::NoObject, Takes::RestNoObjects],
        Fails::Zero,
        false,
    ),
    (
        b"new f null pure",
        Gives::New,
        &[Takes::BuildFormat],
        Fails::Null,
        false,
    ),
    (
        b"new + null pure",
        Gives::New,
        &[Takes::RestBorrowed],
        Fails::Null,
        false,
    ),
    (
        b"null = none runs",
        Gives::Null,
        &[Takes::RestFormatted],
        Fails::Never,
        true,
    ),
];

/// Whether the row of the function `f` says this, and the one of the field `f` nothing.
fn says(table: &Table, wanted: &Sort) -> bool {
    let (Some(row), Some(field)) = (table.row(b"f"), table.field(b"f")) else {
        return false;
    };
    row.name.as_slice() == b"f".as_slice()
        && row.gives == wanted.1
        && row.takes.as_slice() == wanted.2
        && row.fails == wanted.3
        && row.runs == wanted.4
        && field.gives == Gives::Void
        && table.len() == 2
}

/// Whether a row with these words says what it should.
fn is_read_so(alloc: Global, wanted: &Sort) -> Result<bool, Fail> {
    let mut text = Vec::from_slice(alloc, b"\n# c\nf ")?;
    text.extend_from_slice(wanted.0)?;
    text.extend_from_slice(b"\n->f void . none pure\n")?;
    let table = Table::read(alloc, text.as_slice())?;
    Ok(says(&table, wanted))
}

/// Names of functions, with what the manual says of them.
const NAMES: [(&[u8], Gives, &[Takes]); 3] = [
    (
        b"PyList_GetItem",
        Gives::Item { argument: 0 },
        &[Takes::Borrowed, Takes::NoObject],
    ),
    (
        b"PyTuple_GetItem",
        Gives::Part { argument: 0 },
        &[Takes::Borrowed, Takes::NoObject],
    ),
    (
        b"_PyTuple_Resize",
        Gives::Number,
        &[Takes::InOut, Takes::NoObject],
    ),
];

/// What a function gives by the tables, or a field.
fn given(tables: &Tables, name: &[u8], is_field: bool) -> Option<Gives> {
    let row = if is_field {
        tables.field(name)?
    } else {
        tables.row(name)?
    };
    Some(row.gives)
}

/// Whether the tables say of each of these names what the manual says.
fn has_names(tables: &Tables) -> bool {
    for (name, gives, takes) in &NAMES {
        let Some(row) = tables.row(name) else {
            return false;
        };
        if row.gives != *gives || row.takes.as_slice() != *takes {
            return false;
        }
    }
    true
}

fn add(alloc: Global, tables: &mut Tables, text: &[u8]) -> Result<(), Fail> {
    let table = Table::read(alloc, text)?;
    Ok(tables.add(table)?)
}

/// Whether the program's table has the names, and what `tp_alloc` gives by it, as a function and as a field.
fn carried(alloc: Global) -> Result<(bool, [Option<Gives>; 2]), TableFault> {
    let tables = Tables::new(alloc)?;
    let gives = [
        given(&tables, b"tp_alloc", false),
        given(&tables, b"tp_alloc", true),
    ];
    Ok((has_names(&tables), gives))
}

/// Two tables of a user's.
const OWN_ROWS: [&[u8]; 2] = [
    b"PyList_New lent - none pure\n->tp_alloc null -- none pure\n",
    b"PyList_New null - none pure\nmine new . null pure\n",
];

/// What functions and fields give once rows of a user's are added.
fn with_own_rows(alloc: Global) -> Result<[Option<Gives>; 4], Fail> {
    let mut tables = Tables::new(alloc)?;
    add_own_rows(alloc, &mut tables)?;
    Ok([
        given(&tables, b"PyList_New", false),
        given(&tables, b"mine", false),
        given(&tables, b"tp_alloc", true),
        given(&tables, b"tp_free", true),
    ])
}

fn add_own_rows(alloc: Global, tables: &mut Tables) -> Result<(), Fail> {
    for text in &OWN_ROWS {
        add(alloc, tables, text)?;
    }
    Ok(())
}

/// How many rows the program's table has.
fn carried_rows(alloc: Global) -> Result<usize, TableFault> {
    Ok(Table::of_the_c_api(alloc)?.len())
}

/// What `PyList_New` and `mine` give, and the fields `tp_alloc` and `tp_free`, once the user's rows are added.
const WITH_OWN_ROWS: [Option<Gives>; 4] = [
    Some(Gives::Lent),
    Some(Gives::New),
    Some(Gives::Null),
    Some(Gives::Free),
];

/// The user's rows come first.
#[test]
fn tables_are_read(rt: HostRuntime) -> Result<(), Fail> {
    let alloc = rt.alloc();
    for wanted in &ROWS {
        assert!(rt; is_read_so(alloc, wanted)?, "{:?}", wanted.0);
    }
    assert_eq!(rt; carried_rows(alloc)?, 1318);
    assert_eq!(rt; carried(alloc)?, (true, [None, Some(Gives::New)]));
    assert_eq!(rt; with_own_rows(alloc)?, WITH_OWN_ROWS);
    Ok(())
}
