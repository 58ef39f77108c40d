//! The functions that have a body in the program, and what is known of them.

use crate::operand::Operand;
use brc_c_store::Signs;
use brc_c_table::{Gives, Row};
use brc_c_text::Symbol;
use std::collections::HashMap;

/// What is known of a function by its own body.
#[derive(Drop)]
pub struct OwnRow {
    /// What a table would say of it.
    pub row: Row,
    /// The signs of its result where it succeeds, if it is a number.
    pub success: Signs,
    /// The same where it fails.
    pub failure: Signs,
    /// Whether something is assumed of the object that it gives.
    pub is_assumed: bool,
    /// The numbers of the arguments of which something is assumed, from 0.
    pub assumed: Vec<usize>,
    /// What it does where arguments point to.
    pub outs: Vec<OwnOut>,
    /// The fields of arguments that are NULL afterwards.
    pub nulls: Vec<NullField>,
}

/// The object that a function leaves where an argument points to.
#[derive(Clone, Copy, PartialEq, Eq)]
pub enum LeftObject {
    None,
    /// One to which the caller has a reference then.
    New,
    /// A borrowed one: from the argument of this number, from 0, or one that is lent for the whole call.
    Borrowed(Option<usize>),
    /// Nothing is known of it.
    Unknown,
}

/// What an exit of a function leaves where an argument points to.
#[derive(Clone, Copy, PartialEq, Eq)]
pub struct Left {
    pub object: LeftObject,
    /// Whether it may be NULL.
    pub is_null: bool,
    /// Whether it may be what was there.
    pub is_same: bool,
}

/// What a function does where an argument points to.
#[derive(Clone, Copy, PartialEq, Eq)]
pub struct OwnOut {
    /// The number of the argument, from 0.
    pub argument: usize,
    /// Whether the function reads what is there before it stores something.
    pub is_read: bool,
    /// Whether it gives the reference up that is there.
    pub is_replaced: bool,
    /// The number of the argument that a success leaves there, from 0.
    pub left: Option<usize>,
    pub success: Left,
    pub failure: Left,
}

impl Left {
    /// Returns whether what is there afterwards is no object, and not NULL: it is freed.
    pub(crate) fn is_freed(self) -> bool {
        self.object == LeftObject::None && !self.is_null && !self.is_same
    }
}

impl OwnOut {
    /// Returns what a success leaves where these are the arguments: NULL, if that is passed to be left there.
    pub(crate) fn success_for(self, operands: &[Operand]) -> Left {
        let passed = match self.left {
            Some(number) => operands.get(number).copied(),
            None => None,
        };
        match passed {
            Some(operand) if operand.is_null() => Left {
                object: LeftObject::None,
                is_null: true,
                ..self.success
            },
            _ => self.success,
        }
    }

    /// Returns whether each success leaves an object in place of what was there.
    pub(crate) fn is_sure(self) -> bool {
        let success = self.success;
        success.object != LeftObject::None
            && !success.is_null
            && !success.is_same
            && !self.is_replaced
    }

    /// Returns whether it is known what becomes of the reference that is there. One that the function reads and doesn't
    /// give up may be NULL where something is stored.
    pub(crate) fn is_told(self) -> bool {
        !self.stores_unknown() && (self.is_replaced || !self.is_read)
    }

    /// Returns whether nothing is known of an object that the function may leave.
    pub(crate) fn stores_unknown(self) -> bool {
        self.success.object == LeftObject::Unknown || self.failure.object == LeftObject::Unknown
    }
}

/// A field of an argument.
#[derive(Clone, Copy, PartialEq, Eq)]
pub struct NullField {
    /// The number of the argument, from 0.
    pub argument: usize,
    pub field: Symbol,
}

impl OwnRow {
    /// Returns whether the function gives an object that it only borrows.
    pub fn gives_borrowed(&self) -> bool {
        matches!(
            self.row.gives,
            Gives::Item { .. } | Gives::Part { .. } | Gives::Lent | Gives::Same { .. }
        )
    }

    /// Returns what the function does where an argument points to, if that is known.
    pub(crate) fn out(&self, argument: usize) -> Option<OwnOut> {
        for out in self.outs.iter() {
            if out.argument == argument {
                return Some(*out);
            }
        }
        None
    }
}

/// The functions of the program that a file knows.
#[derive(Clone, Copy)]
pub struct OwnFunctions<'a> {
    /// The numbers of the functions of the file and its headers.
    pub here: &'a HashMap<Symbol, usize>,
    /// The numbers of those of all files.
    pub elsewhere: &'a HashMap<Symbol, usize>,
    /// What is known of each function, by its number.
    pub rows: &'a [Option<OwnRow>],
}

impl<'a> OwnFunctions<'a> {
    /// Returns the number of the function that a name means in the file.
    pub fn number(self, name: Symbol) -> Option<usize> {
        match self.here.get(&name) {
            Some(number) => Some(*number),
            None => self.elsewhere.get(&name).copied(),
        }
    }

    /// Returns what is known of the function that a name means in the file.
    pub fn row(self, name: Symbol) -> Option<&'a OwnRow> {
        let rows = self.rows;
        match rows.get(self.number(name)?) {
            Some(Some(row)) => Some(row),
            _ => None,
        }
    }
}
