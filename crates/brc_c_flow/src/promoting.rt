//! Variables and fields that no declaration makes objects, and that are used as such.

use crate::building::Builder;
use crate::names::{Kind, Variable};
use crate::passing::{is_object, letter};
use crate::references::Counting;
use brc_c_table::Gives;
use brc_c_text::Symbol;
use brc_c_tree::{Declaration, Expression, ExpressionId, List, Statement, TypeName};
use std::alloc::AllocError;

/// How often what is found of one variable is used for the next.
const ROUNDS: usize = 2;

impl<'a> Builder<'a> {
    /// Takes variables and fields for those of objects that get one or are passed as one.
    pub(crate) fn promote_variables(&mut self) -> Result<(), AllocError> {
        for _round in 0..ROUNDS {
            self.find_traits()?;
            let tree = self.tree;
            for (expression, _) in tree.expressions() {
                match *expression {
                    Expression::Assign {
                        operator: None,
                        left,
                        right,
                    } => {
                        self.promote_assigned(left, right)?;
                    }
                    Expression::Call {
                        function,
                        arguments,
                    } => {
                        self.promote_passed(function, arguments)?;
                    }
                    _ => {}
                }
            }
            for (statement, _) in tree.statements() {
                if let Statement::Declare(list) = statement {
                    for declared in tree.declarations(*list) {
                        self.promote_declared(declared)?;
                    }
                }
            }
        }
        self.find_traits()
    }

    fn promote_declared(&mut self, declared: &Declaration) -> Result<(), AllocError> {
        let Some(value) = declared.value else {
            return Ok(());
        };
        if self.is_object(value) {
            self.promote(declared.name);
        }
        self.promote_source(Some(declared.name), value)
    }

    fn promote_assigned(
        &mut self,
        left: ExpressionId,
        value: ExpressionId,
    ) -> Result<(), AllocError> {
        if self.is_object(value) {
            self.promote_place(left)?;
        }
        self.promote_source(self.name_in(left), value)
    }

    /// Takes what is assigned to a variable of objects for one.
    fn promote_source(
        &mut self,
        to: Option<Symbol>,
        value: ExpressionId,
    ) -> Result<(), AllocError> {
        let Some(to) = to else {
            return Ok(());
        };
        if self.kind(to) == Some(Kind::Object) {
            self.promote_place(value)?;
        }
        Ok(())
    }

    /// Takes the arguments for objects where the table has objects.
    fn promote_passed(
        &mut self,
        function: ExpressionId,
        arguments: List,
    ) -> Result<(), AllocError> {
        let Some(Expression::Name(name)) = self.tree.expression(function) else {
            return Ok(());
        };
        let name = self.symbols.text(name);
        let is_counting = Counting::of(name).is_some();
        let tables = self.tables;
        let takes = match tables.row(name) {
            // Memory that is given back may be no object's.
            Some(row) if row.gives == Gives::Free => &[],
            Some(row) => row.takes.as_slice(),
            None => &[],
        };
        let tree = self.tree;
        for (at, argument) in tree.operands(arguments).iter().enumerate() {
            if is_counting || is_object(letter(takes, at)) {
                self.promote_place(*argument)?;
            }
        }
        Ok(())
    }

    pub(crate) fn kind(&self, name: Symbol) -> Option<Kind> {
        Some(self.variable(name)?.kind)
    }

    /// Takes a variable or a field for one of objects, unless its declaration says otherwise.
    fn promote_place(&mut self, id: ExpressionId) -> Result<(), AllocError> {
        match self.tree.expression(self.without_casts(id)) {
            Some(Expression::Name(name)) => self.promote(name),
            Some(Expression::Field { name, .. }) => {
                self.used_fields.insert(name)?;
            }
            _ => {}
        }
        Ok(())
    }

    /// Takes a variable for one of objects if it points to a struct of which nothing is known, or to anything.
    fn promote(&mut self, name: Symbol) {
        if let Some(
            Variable {
                kind: Kind::Plain,
                type_name,
                ..
            },
        ) = self.variable(name)
        {
            let is_pointer = type_name.stars == 1 && !type_name.is_function;
            let type_text = self.symbols.text(type_name.symbol);
            if is_pointer && (is_void(type_text) || !is_basic(type_text)) {
                self.make_object(name);
            }
        }
    }

    /// Returns whether a field of memory that is no object's is used as one of objects, and its declaration doesn't say
    /// otherwise.
    pub(crate) fn is_used_field(&self, field: Symbol, type_name: Option<TypeName>) -> bool {
        let is_open = match type_name {
            Some(found) => {
                found.stars == 1 && !found.is_function && is_void(self.symbols.text(found.symbol))
            }
            None => true,
        };
        is_open && self.used_fields.contains(&field)
    }

    /// Returns the name that an expression is, but for casts.
    pub(crate) fn name_in(&self, id: ExpressionId) -> Option<Symbol> {
        match self.tree.expression(self.without_casts(id)) {
            Some(Expression::Name(name)) => Some(name),
            _ => None,
        }
    }
}

fn is_void(name: &[u8]) -> bool {
    name == b"void".as_slice()
}

/// Returns whether a type of this name is no struct that may be an object.
pub(crate) fn is_basic(name: &[u8]) -> bool {
    name.ends_with(b"_t") || is_number(name) || is_foreign(name)
}

fn is_number(name: &[u8]) -> bool {
    matches!(
        name,
        b"void"
            | b"char"
            | b"short"
            | b"int"
            | b"long"
            | b"float"
            | b"double"
            | b"signed"
            | b"unsigned"
            | b"bool"
            | b"_Bool"
            | b"Py_UNICODE"
            | b"Py_UCS4"
            | b"Py_UCS2"
            | b"Py_UCS1"
    )
}

fn is_foreign(name: &[u8]) -> bool {
    matches!(
        name,
        b"visitproc" | b"destructor" | b"Py_buffer" | b"PyThreadState" | b"Py_complex"
    )
}
